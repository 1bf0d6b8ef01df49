ghost use Rattle.std.specs.Prelude.{◌≡◌, ◌<◌, ◌≤◌, ℕ, List, Option, Result, Some, IfOk};
ghost use Rattle.svid_token.specs.Rows.{Answers, first_row};
ghost use Rattle.svid_token.specs.declared.refusal.Refusal.{Refusal};
ghost use Rattle.svid_replay.specs.Buckets.{raised_to};
ghost use Rattle.svid_replay.specs.Uses.{no_uses};
ghost use Rattle.svid_log.specs.Members.{HasRead, read_again};
ghost use Rattle.svid_log.specs.Saves.{restored};
ghost use Rattle.svid_log.specs.Steps.{horizon};
ghost use Rattle.svid_check.specs.Claiming.{IsLooked, is_claimed, or_claimed, unless_claimed};
ghost use Rattle.svid_check.specs.Said.{RefusesForm, said_in};
ghost use Rattle.svid_check.specs.Setting.{setting_by, with_state};
ghost use Rattle.svid_check.specs.Verdict.{again_rows, verdict, verdict_on};
ghost use Rattle.svid_check.specs.declared.accepted.Accepted.{Accepted};

use crate::accepted::Accepted;
use crate::validator::Validator;
use std::alloc::AllocError;
use svid_keys::Verifier;
use svid_log::{Fate, Mark, Member, Reading};
use svid_replay::{Use, UseStore};
use svid_token::Refusal;

// A validator that reads the log of a group. The member is the one of this validator, and of no other.
impl<V: Verifier, S: UseStore> Validator<V, S> {
    /// The member by which this validator reads a log, from `mark` on: where an earlier life of it was when it was saved, or at
    /// the first value that the log still has. `beside` are the uses of that save, or none.
    ///
    /// `store` is empty. `lasts`, `ready` and the fields of `mark` are as in [`Member::new`].
    pub fn member<C: UseStore + Drop>(
        &self,
        store: C,
        lasts: u64,
        mark: Mark,
        ready: u64,
        beside: &[Use],
    ) -> Result<Member<C>, AllocError>
        requires { C.content store ≡ no_uses }
        ensures { IfOk result (λ member. member ≡ restored self.now.validator_id lasts mark ready beside.now) }
    {
        Member::restore(store, self.given.validator_id, lasts, mark, ready, beside)
    }

    /// Reads the value of the log with this number at a moment, in seconds, and writes the fate of each of its uses: as
    /// [`Member::read`] does, with this validator's record. [`Fate::Accepted`] says that this validator accepts the token of the
    /// claim.
    ///
    /// `uses` are all that the value has. The record gains the first claims of tokens, and withdrawals. Nothing else happens to
    /// the validator.
    pub fn read_log<C: UseStore>(
        &mut self,
        member: &mut Member<C>,
        now: u64,
        position: u64,
        uses: &[Use],
        fates: &mut [Fate],
    ) -> Reading
        ensures again { position ≤ member.old.passed → (result ≡ read_again) × (member.new ≡ member.old) × (self.new ≡ self.old) × (fates.new ≡ fates.old) }
        ensures read { member.old.passed < position → HasRead now (horizon now self.old.ahead) position member.old self.old.state uses.now fates.old result member.new self.new.state fates.new }
        ensures rest { self.new ≡ with_state self.old self.new.state }
    {
        let ahead = self.given.ahead;
        member.read(&mut self.replay, now, ahead, position, uses, fates)
    }

    /// As [`judge_by`](Validator::judge_by), but a token that it would accept is refused as `Replayed` while a claim beside the
    /// record has its key.
    ///
    /// So it answers what would become of a claim that stood in the log behind all that the member has read.
    pub fn judge_claim<W: Verifier, C: UseStore>(
        &mut self,
        member: &mut Member<C>,
        now: u64,
        token: &[u8],
        verifier: &W,
    ) -> Result<Accepted, Refusal>
        ensures answer { let x = raised_to self.old.state now in
            Answers Some result (unless_claimed (is_claimed member.old x.moment) (verdict (setting_by (W.says verifier.now) self.old) x.moment x.uses token.now)) }
        ensures early { RefusesForm token.now result }
        ensures state { self.new ≡ with_state self.old (raised_to self.old.state now) }
        ensures looked { IsLooked (raised_to self.old.state now).moment member.old member.new }
    {
        let judged = self.judge_by(now, token, verifier);
        unless_claimed(member, self.replay.moment(), judged)
    }

    /// As [`judge_claim`](Validator::judge_claim), of a token that was read before.
    ///
    /// It answers no refusal of a token by itself, since [`Reading::of`](crate::Reading::of) has answered those.
    pub fn judge_claim_read<W: Verifier, C: UseStore>(
        &mut self,
        member: &mut Member<C>,
        now: u64,
        reading: &crate::Reading,
        verifier: &W,
    ) -> Result<Accepted, Refusal>
        ensures answer { let x = raised_to self.old.state now in
            Answers Some result (unless_claimed (is_claimed member.old x.moment) (verdict_on (setting_by (W.says verifier.now) self.old) x.moment x.uses (said_in reading.now))) }
        ensures state { self.new ≡ with_state self.old (raised_to self.old.state now) }
        ensures looked { IsLooked (raised_to self.old.state now).moment member.old member.new }
    {
        let judged = self.judge_read(now, reading, verifier);
        unless_claimed(member, self.replay.moment(), judged)
    }

    /// As [`judge_again`](Validator::judge_again), but a token that nothing else refuses is refused as `Replayed` while a claim
    /// beside the record has its key.
    pub fn judge_claim_again<C: UseStore>(
        &mut self,
        member: &mut Member<C>,
        now: u64,
        key: &[u8; 32],
        exp: u64,
    ) -> Option<Refusal>
        ensures answer { let x = raised_to self.old.state now in
            result ≡ or_claimed (is_claimed member.old x.moment key.now) (first_row (again_rows x.moment x.uses key.now exp)) }
        ensures state { self.new ≡ with_state self.old (raised_to self.old.state now) }
        ensures looked { IsLooked (raised_to self.old.state now).moment member.old member.new }
    {
        if let Some(refusal) = self.judge_again(now, key, exp) {
            return Some(refusal);
        }
        if member.has(self.replay.moment(), key) {
            return Some(Refusal::Replayed);
        }
        None
    }
}

// A judgment at a moment, where a token that is claimed is refused as one that was used.
fn unless_claimed<C: UseStore>(
    member: &mut Member<C>,
    moment: u64,
    judged: Result<Accepted, Refusal>,
) -> Result<Accepted, Refusal>
    ensures answer { (due : Result (Option Accepted) Refusal) → Answers Some judged due → Answers Some result (unless_claimed (is_claimed member.old moment) due) }
    ensures form { (token : List ℕ) → RefusesForm token judged → RefusesForm token result }
    ensures looked { IsLooked moment member.old member.new }
{
    let accepted = match judged {
        Ok(accepted) => accepted,
        Err(refusal) => return Err(refusal),
    };
    if member.has(moment, &accepted.used.key) {
        return Err(Refusal::Replayed);
    }
    Ok(accepted)
}
