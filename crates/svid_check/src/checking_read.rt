ghost use Rattle.std.specs.Prelude.{◌≡◌, Some};
ghost use Rattle.svid_token.specs.Rows.{Answers};
ghost use Rattle.svid_replay.specs.Buckets.{raised_to};
ghost use Rattle.svid_check.specs.Changes.{settled};
ghost use Rattle.svid_check.specs.Said.{said_in};
ghost use Rattle.svid_check.specs.Setting.{given_setting, setting_by, with_state};
ghost use Rattle.svid_check.specs.Verdict.{verdict_on};

use crate::accepted::Accepted;
use crate::given::Given;
use crate::judging::judge;
use crate::reading::Reading;
use crate::validator::{Validator, settle};
use svid_keys::Verifier;
use svid_replay::{Record, UseStore};
use svid_token::Refusal;

// The checks of a token that was read before.
impl<V: Verifier, S: UseStore> Validator<V, S> {
    /// As [`check_by`](Validator::check_by), of a token that was read before.
    ///
    /// It answers no refusal of a token by itself, since [`Reading::of`] has answered those.
    pub fn check_read<W: Verifier>(
        &mut self,
        now: u64,
        reading: &Reading,
        verifier: &W,
    ) -> Result<Accepted, Refusal>
        ensures answer { let x = raised_to self.old.state now in
            Answers Some result (verdict_on (setting_by (W.says verifier.now) self.old) x.moment x.uses (said_in reading.now)) }
        ensures state { self.new ≡ with_state self.old (settled (raised_to self.old.state now) result) }
    {
        check_read(&self.given, verifier, &mut self.replay, now, reading)
    }

    /// As [`judge_by`](Validator::judge_by), of a token that was read before.
    ///
    /// It answers no refusal of a token by itself, since [`Reading::of`] has answered those.
    pub fn judge_read<W: Verifier>(
        &mut self,
        now: u64,
        reading: &Reading,
        verifier: &W,
    ) -> Result<Accepted, Refusal>
        ensures answer { let x = raised_to self.old.state now in
            Answers Some result (verdict_on (setting_by (W.says verifier.now) self.old) x.moment x.uses (said_in reading.now)) }
        ensures state { self.new ≡ with_state self.old (raised_to self.old.state now) }
    {
        self.tick(now);
        judge(&self.given, verifier, &self.replay, reading)
    }
}

// A check of a token that was read: the record is raised, the token is judged, and the use of an acceptance is added.
fn check_read<V: Verifier, S: UseStore>(
    given: &Given,
    verifier: &V,
    replay: &mut Record<S>,
    now: u64,
    reading: &Reading,
) -> Result<Accepted, Refusal>
    ensures answer { let x = raised_to replay.old now in
        Answers Some result (verdict_on (given_setting (V.says verifier.now) given.now) x.moment x.uses (said_in reading.now)) }
    ensures state { replay.new ≡ settled (raised_to replay.old now) result }
{
    replay.raise(now);
    let judged = judge(given, verifier, replay, reading);
    settle(replay, judged)
}
