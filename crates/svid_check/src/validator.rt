ghost use Rattle.std.specs.Prelude.{◌≡◌, ◌<◌, ◌≤◌, ℕ, IfOk, List, Option, Result, Some, map, string_bytes};
ghost use Rattle.svid_token.specs.Rows.{Answers};
ghost use Rattle.svid_token.specs.declared.refusal.Refusal.{Refusal};
ghost use Rattle.svid_replay.specs.Buckets.{raised_to};
ghost use Rattle.svid_replay.specs.Records.{IsRecord};
ghost use Rattle.svid_check.specs.Changes.{settled};
ghost use Rattle.svid_check.specs.Said.{RefusesForm};
ghost use Rattle.svid_check.specs.Setting.{given_setting, setting_by, setting_of, with_state};
ghost use Rattle.svid_check.specs.Verdict.{verdict};
ghost use Rattle.svid_check.specs.declared.accepted.Accepted.{Accepted};

use crate::accepted::Accepted;
use crate::given::Given;
use crate::judging::judge_token;
use std::alloc::Global;
use std::marker::Model;
use svid_keys::{Bundles, Verifier};
use svid_replay::{Record, UseStore};
use svid_token::Refusal;

/// What checks tokens: its own audiences, its validator ID, how far ahead a message may lie, trust bundles, a
/// verifier of signatures, how long a token may last, and the record of the tokens that it knows to have
/// been used or withdrawn.
///
/// Contracts see it as these, with the record's moment and uses.
#[derive(Drop)]
pub struct Validator<V: Verifier, S: UseStore> {
    pub(crate) alloc: Global,
    pub(crate) given: Given,
    verifier: V,
    pub(crate) replay: Record<S>,
}

impl<V: Verifier, S: UseStore> Model for Validator<V, S> {
    ghost use Rattle.std.specs.Prelude.{map, string_bytes};
    ghost use Rattle.svid_check.specs.Setting.{Held, held_code};

    ghost Value = { Held V };

    ghost coded = { held_code V.code };

    ghost view = { λ v. record {
      own = map string_bytes v.given.own.items;
      validator_id = v.given.validator_id;
      ahead = v.given.ahead;
      bundles = v.given.bundles;
      verifier = v.verifier;
      longest = v.given.longest;
      state = v.replay;
    } };
}

impl<V: Verifier, S: UseStore> Validator<V, S> {
    /// A validator that begins with a record. Allocates nothing.
    ///
    /// `own` are the audiences that it answers to, `validator_id` tells it from every other validator that
    /// shares its record, and `ahead` is how many seconds the moment of a message may lie ahead of its
    /// own. Where `longest` is there, a token is refused that expires more than so many seconds past
    /// the moment at which it is judged. Later calls take their memory from `alloc`.
    pub fn new(
        alloc: Global,
        own: Vec<String>,
        validator_id: [u8; 16],
        ahead: u64,
        bundles: Bundles,
        verifier: V,
        replay: Record<S>,
        longest: Option<u64>,
    ) -> Self
        ensures { result ≡ record { own = map string_bytes own.items; validator_id = validator_id; ahead = ahead; bundles = bundles; verifier = verifier; longest = longest; state = replay } }
    {
        Validator {
            alloc,
            given: Given {
                own,
                validator_id,
                ahead,
                bundles,
                longest,
            },
            verifier,
            replay,
        }
    }

    /// The record of used and withdrawn tokens. Allocates nothing.
    pub fn replay(&self) -> &Record<S>
        ensures value { result.now ≡ self.now.state }
        ensures is_record { IsRecord result.now }
    {
        // (its contract says that the record is one at all times)
        let _moment = self.replay.moment();
        &self.replay
    }

    /// Checks a token at a moment, in seconds.
    ///
    /// The record is first advanced to `now`, whatever the answer is, and the token is judged at the record's moment,
    /// which may be later. If it accepts the token, the record gains its use; else it gains nothing. It answers the
    /// first refusal that holds, in the order of [`Refusal`]. `OutOfMemory` may come instead of an acceptance, and
    /// instead of any refusal after `NotThreeParts`.
    pub fn check(&mut self, now: u64, token: &[u8]) -> Result<Accepted, Refusal>
        ensures answer { let x = raised_to self.old.state now in
            Answers Some result (verdict (setting_of V.says self.old) x.moment x.uses token.now) }
        ensures early { RefusesForm token.now result }
        ensures state { self.new ≡ with_state self.old (settled (raised_to self.old.state now) result) }
    {
        check_by(
            self.alloc,
            &self.given,
            &self.verifier,
            &mut self.replay,
            now,
            token,
        )
    }

    /// Checks a token at a moment, in seconds, by the verifier that is passed: it says which signatures are good, in
    /// this call alone. Else as [`check`](Validator::check), which is this by the validator's own verifier.
    pub fn check_by<W: Verifier>(
        &mut self,
        now: u64,
        token: &[u8],
        verifier: &W,
    ) -> Result<Accepted, Refusal>
        ensures answer { let x = raised_to self.old.state now in
            Answers Some result (verdict (setting_by (W.says verifier.now) self.old) x.moment x.uses token.now) }
        ensures early { RefusesForm token.now result }
        ensures state { self.new ≡ with_state self.old (settled (raised_to self.old.state now) result) }
    {
        check_by(
            self.alloc,
            &self.given,
            verifier,
            &mut self.replay,
            now,
            token,
        )
    }

    /// What [`check_by`](Validator::check_by) would answer at a moment, in seconds, if no memory were refused for the
    /// use. The use of an acceptance is answered and not added, so a later check may accept the token.
    ///
    /// The record is advanced to the moment, whatever the answer is, and nothing else about the validator changes.
    /// `OutOfMemory` may come instead of an acceptance, and instead of any refusal after `NotThreeParts`.
    pub fn judge_by<W: Verifier>(
        &mut self,
        now: u64,
        token: &[u8],
        verifier: &W,
    ) -> Result<Accepted, Refusal>
        ensures answer { let x = raised_to self.old.state now in
            Answers Some result (verdict (setting_by (W.says verifier.now) self.old) x.moment x.uses token.now) }
        ensures early { RefusesForm token.now result }
        ensures state { self.new ≡ with_state self.old (raised_to self.old.state now) }
    {
        self.tick(now);
        judge_token(self.alloc, &self.given, verifier, &self.replay, token)
    }
}

// A check by a verifier: the record is raised, the token is judged, and the use of an acceptance is added.
fn check_by<V: Verifier, S: UseStore>(
    alloc: Global,
    given: &Given,
    verifier: &V,
    replay: &mut Record<S>,
    now: u64,
    token: &[u8],
) -> Result<Accepted, Refusal>
    ensures answer { let x = raised_to replay.old now in
        Answers Some result (verdict (given_setting (V.says verifier.now) given.now) x.moment x.uses token.now) }
    ensures early { RefusesForm token.now result }
    ensures state { replay.new ≡ settled (raised_to replay.old now) result }
{
    replay.raise(now);
    let judged = judge_token(alloc, given, verifier, replay, token);
    settle(replay, judged)
}

// A judgment at the record's moment, where the record gains the use of an acceptance.
pub(crate) fn settle<S: UseStore>(
    replay: &mut Record<S>,
    judged: Result<Accepted, Refusal>,
) -> Result<Accepted, Refusal>
    requires made { IfOk judged (λ accepted. accepted.used.at ≤ replay.old.moment) }
    requires live { IfOk judged (λ accepted. replay.old.moment < accepted.used.exp) }
    ensures answer { (due : Result (Option Accepted) Refusal) → Answers Some judged due → Answers Some result due }
    ensures early { (token : List ℕ) → RefusesForm token judged → RefusesForm token result }
    ensures state { replay.new ≡ settled replay.old result }
{
    let accepted = match judged {
        Ok(accepted) => accepted,
        Err(refusal) => return Err(refusal),
    };
    match replay.add(accepted.used) {
        Ok(()) => Ok(accepted),
        Err(_) => Err(Refusal::OutOfMemory),
    }
}
