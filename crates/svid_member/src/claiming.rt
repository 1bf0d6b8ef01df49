ghost use Rattle.std.specs.Prelude.{◌≡◌, ℕ, max, List, Some, None, Result, false, is_some, true};
ghost use Rattle.svid_claims.specs.Outcomes.{outcome_of};
ghost use Rattle.svid_replay.specs.declared.token_use.Use.{Use};
ghost use Rattle.svid_check.specs.Said.{said_in};
ghost use Rattle.svid_check.specs.Setting.{setting_by};
ghost use Rattle.svid_requests.specs.declared.deed.Deed.{Deed};
ghost use Rattle.svid_requests.specs.declared.event.Event.{Event};
ghost use Rattle.svid_member.specs.Claiming.{Finds, FindsBy, FindsMine, IsRefused, awaited, claim_for, is_of, look_at, owner_by, owner_for, reason_for};
ghost use Rattle.svid_member.specs.Members.{Hears};

use crate::claimed::Claimed;
use crate::judging::{judged, judgment_of};
use crate::member::Member;
use svid_check::{Reading, Validator};
use svid_claims::{Claim, Found, Outcome, Owner, moment_by};
use svid_keys::Verifier;
use svid_replay::{Use, UseStore};
use svid_requests::{Deed, Event, Judgment};

// The number of the reason for which a token is refused whose claim has this outcome.
fn reason_for(outcome: Outcome) -> u8
    ensures { result ≡ reason_for outcome }
{
    match outcome {
        Outcome::Mine => 0,
        Outcome::Far => 58,
        Outcome::Deaf => 59,
        Outcome::Expired => 118,
        Outcome::Withdrawn => 124,
        Outcome::Taken => 125,
    }
}

// Whether the claim of this use is of this token.
fn is_of(reading: &Reading, used: &Use) -> bool
    ensures { result ≡ is_of (said_in reading.now) used.now }
{
    reading.claims.exp == used.exp && reading.key().cmp(&used.key).is_eq()
}

// Whose claim of a token is put: the caller's, or that of a life.
fn owner_by(bound: bool, life: &[u8; 16], used: &Use, caller: &[u8; 32]) -> Owner
    ensures { result.bytes ≡ owner_by bound life.now used.now caller.now }
{
    if bound {
        return Owner::of_caller(caller, used.exp);
    }
    Owner::of_life(&used.validator_id, life, used.exp)
}

impl Member {
    /// Whose claim of a token is put into the store. `caller` is 32 bytes that tell who presents the token, and counts in mode `Bound` alone.
    pub fn owner(&self, used: &Use, caller: &[u8; 32]) -> Owner
        ensures { result.bytes ≡ owner_for self.now used.now caller.now }
    {
        owner_by(self.mode.is_bound(), &self.life, used, caller)
    }

    // The same, by what was digested before.
    fn known_owner(&mut self, used: &Use, caller: &[u8; 32]) -> Owner
        ensures owner { result.bytes ≡ owner_for self.old used.now caller.now }
        ensures same { self.new ≡ self.old }
    {
        if self.mode.is_bound() {
            return self.owners.of_caller(caller, used.exp);
        }
        self.owner(used, caller)
    }

    // The outcome of a claim by its store's answer.
    fn outcome<V: Verifier, S: UseStore>(
        &mut self,
        validator: &Validator<V, S>,
        now: u64,
        used: &Use,
        caller: &[u8; 32],
        found: &Found,
    ) -> Outcome
        ensures outcome { result ≡ outcome_of (claim_for self.old used.now caller.now) found.now self.old.lasts (look_at self.old (max validator.now.state.moment now) found.now) }
        ensures same { self.new ≡ self.old }
    {
        let claim = Claim {
            owner: self.known_owner(used, caller),
            exp: used.exp,
        };
        let moment = validator.replay().moment().max(now);
        claim.outcome(found, self.lasts, moment_by(moment, found.time, self.ahead))
    }

    // Reports to the request of this number the judgment that followed the answer to its claim.
    fn tell_found(&mut self, up: u64, number: u64, judgment: Judgment) -> Deed
        ensures { Hears up (Event.Found number judgment) self.old result self.new }
    {
        self.requests.hear(up, &Event::Found(number, judgment))
    }

    // The claim counts: the validator judges the token once more.
    fn mine<V: Verifier, S: UseStore, W: Verifier>(
        &mut self,
        validator: &mut Validator<V, S>,
        now: u64,
        up: u64,
        number: u64,
        reading: &Reading,
        verifier: &W,
    ) -> Claimed
        ensures { FindsMine (setting_by (W.says verifier.now) validator.old) now up number (said_in reading.now) validator.old validator.new self.old self.new result }
    {
        let adds = self.mode.adds_at_claim();
        let answer = judged(adds, validator, now, reading, verifier);
        let deed = self.tell_found(up, number, judgment_of(&answer));
        Claimed {
            deed,
            outcome: Some(Outcome::Mine),
            answer: Some(answer),
        }
    }

    // The claim does not count.
    fn not_mine(&mut self, up: u64, number: u64, outcome: Outcome) -> Claimed
        ensures { IsRefused up number outcome self.old self.new result }
    {
        let deed = self.tell_found(up, number, Judgment::Fails(reason_for(outcome)));
        Claimed {
            deed,
            outcome: Some(outcome),
            answer: None,
        }
    }

    // What the outcome of the claim of this use leaves.
    fn by_outcome<V: Verifier, S: UseStore, W: Verifier>(
        &mut self,
        validator: &mut Validator<V, S>,
        now: u64,
        up: u64,
        number: u64,
        used: &Use,
        outcome: Outcome,
        reading: &Reading,
        verifier: &W,
    ) -> Claimed
        ensures { FindsBy outcome (setting_by (W.says verifier.now) validator.old) now up number used.now (said_in reading.now) validator.old validator.new self.old self.new result }
    {
        match outcome {
            Outcome::Mine => self.mine(validator, now, up, number, reading, verifier),
            Outcome::Withdrawn => {
                // (If memory is refused, the store says it again when the token is presented again.)
                let _ = validator.withdraw(now, used.key, used.exp);
                self.not_mine(up, number, Outcome::Withdrawn)
            }
            Outcome::Taken => self.not_mine(up, number, Outcome::Taken),
            Outcome::Far => self.not_mine(up, number, Outcome::Far),
            Outcome::Deaf => self.not_mine(up, number, Outcome::Deaf),
            Outcome::Expired => self.not_mine(up, number, Outcome::Expired),
        }
    }

    // The use whose claim the request of this number waits for, if it is of this token.
    fn awaited(&self, up: u64, number: u64, reading: &Reading) -> Option<Use>
        ensures { result ≡ awaited self.now up number (said_in reading.now) }
    {
        let used = self.requests.claimed(up, number)?;
        if !is_of(reading, &used) {
            return None;
        }
        Some(used)
    }

    /// Whether the request of this number waits for the answer to a claim of this token, and its time is not over.
    pub fn awaits_claim(&self, up: u64, number: u64, reading: &Reading) -> bool
        ensures { result ≡ is_some (awaited self.now up number (said_in reading.now)) }
    {
        self.awaited(up, number, reading).is_some()
    }

    /// Lets the request of this number hear what the store answered to its claim, or to any put of the same claim. Where the request does not wait
    /// for that, its time is over, or the claim is of another token, nothing happens.
    ///
    /// If the claim counts, the validator judges the token once more, by a verifier that has looked at its signature; and in mode `Strict` the
    /// record gains its use. If the store says that the token was withdrawn, so does the record from now on, unless memory is refused.
    pub fn found<V: Verifier, S: UseStore, W: Verifier>(
        &mut self,
        validator: &mut Validator<V, S>,
        now: u64,
        up: u64,
        number: u64,
        caller: &[u8; 32],
        found: &Found,
        reading: &Reading,
        verifier: &W,
    ) -> Claimed
        ensures unclaimed { awaited self.old up number (said_in reading.now) ≡ None → (validator.new ≡ validator.old) × (self.new ≡ self.old) × (result.deed ≡ Deed.Nothing) × (result.outcome ≡ None) × (result.answer ≡ None) }
        ensures claimed { (u : Use) → awaited self.old up number (said_in reading.now) ≡ Some u → Finds (setting_by (W.says verifier.now) validator.old) now up number u caller.now found.now (said_in reading.now) validator.old validator.new self.old self.new result }
    {
        let Some(used) = self.awaited(up, number, reading) else {
            return Claimed {
                deed: Deed::Nothing,
                outcome: None,
                answer: None,
            };
        };
        let outcome = self.outcome(validator, now, &used, caller, found);
        self.by_outcome(
            validator, now, up, number, &used, outcome, reading, verifier,
        )
    }
}
