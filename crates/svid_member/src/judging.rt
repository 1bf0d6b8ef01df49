ghost use Rattle.std.specs.Prelude.{◌≡◌, Some, None, Result, false, true};
ghost use Rattle.svid_token.specs.Rows.{Answers};
ghost use Rattle.svid_token.specs.declared.refusal.Refusal.{Refusal};
ghost use Rattle.svid_replay.specs.Buckets.{raised_to};
ghost use Rattle.svid_check.specs.Said.{said_in};
ghost use Rattle.svid_check.specs.Setting.{setting_by, with_state};
ghost use Rattle.svid_check.specs.Verdict.{verdict_on};
ghost use Rattle.svid_check.specs.declared.accepted.Accepted.{Accepted};
ghost use Rattle.svid_requests.specs.Tables.{at_moment, awaits};
ghost use Rattle.svid_requests.specs.declared.deed.Deed.{Deed};
ghost use Rattle.svid_requests.specs.declared.event.Event.{Event};
ghost use Rattle.svid_member.specs.Judging.{IsTold, judged_by, judgment_of};
ghost use Rattle.svid_member.specs.Modes.{adds_at_judgment};

use crate::asked::Asked;
use crate::member::Member;
use crate::reason::reason_of;
use svid_check::{Accepted, Reading, Validator};
use svid_keys::Verifier;
use svid_replay::UseStore;
use svid_requests::{Deed, Event, Judgment};
use svid_token::Refusal;

// What a validator's answer is for the requests.
pub(crate) fn judgment_of(answer: &Result<Accepted, Refusal>) -> Judgment
    ensures { result ≡ judgment_of answer.now }
{
    match answer {
        Ok(accepted) => Judgment::Passes(accepted.used),
        Err(refusal) => Judgment::Fails(reason_of(refusal)),
    }
}

// The judgment of a token, where the record gains its use or not.
pub(crate) fn judged<V: Verifier, S: UseStore, W: Verifier>(
    adds: bool,
    validator: &mut Validator<V, S>,
    now: u64,
    reading: &Reading,
    verifier: &W,
) -> Result<Accepted, Refusal>
    ensures answer { let x = raised_to validator.old.state now in
        Answers Some result (verdict_on (setting_by (W.says verifier.now) validator.old) x.moment x.uses (said_in reading.now)) }
    ensures state { validator.new ≡ with_state validator.old (judged_by adds (raised_to validator.old.state now) result) }
{
    if adds {
        return validator.check_read(now, reading, verifier);
    }
    validator.judge_read(now, reading, verifier)
}

impl Member {
    // Tells the requests what the validator answered.
    fn tell(&mut self, up: u64, number: u64, answer: Result<Accepted, Refusal>) -> Asked
        ensures { IsTold up number answer self.old result self.new }
    {
        let event = Event::Judged(number, judgment_of(&answer));
        let deed = self.requests.hear(up, &event);
        Asked {
            deed,
            answer: Some(answer),
        }
    }

    /// Whether the request of this number waits for a judgment, and its time is not over.
    pub fn awaits(&self, up: u64, number: u64) -> bool
        ensures { result ≡ awaits (at_moment self.now.requests up) number }
    {
        self.requests.awaits(up, number)
    }

    /// Lets the validator judge the token of the request of this number, by a verifier that has looked at its signature. Where the request does
    /// not wait for that, or its time is over, the validator is not asked, and nothing happens: no token is burnt for an answer that nobody gets.
    ///
    /// In mode `Once` the record gains the use of an accepted token.
    pub fn judge<V: Verifier, S: UseStore, W: Verifier>(
        &mut self,
        validator: &mut Validator<V, S>,
        now: u64,
        up: u64,
        number: u64,
        reading: &Reading,
        verifier: &W,
    ) -> Asked
        ensures unasked { awaits (at_moment self.old.requests up) number ≡ false → (validator.new ≡ validator.old) × (self.new ≡ self.old) × (result.deed ≡ Deed.Nothing) × (result.answer ≡ None) }
        ensures asked { awaits (at_moment self.old.requests up) number ≡ true → let x = raised_to validator.old.state now in
            (answer : Result Accepted Refusal) × Answers Some answer (verdict_on (setting_by (W.says verifier.now) validator.old) x.moment x.uses (said_in reading.now))
            × (validator.new ≡ with_state validator.old (judged_by (adds_at_judgment self.old.mode) x answer)) × IsTold up number answer self.old result self.new }
    {
        if !self.awaits(up, number) {
            return Asked {
                deed: Deed::Nothing,
                answer: None,
            };
        }
        let answer = judged(
            self.mode.adds_at_judgment(),
            validator,
            now,
            reading,
            verifier,
        );
        self.tell(up, number, answer)
    }
}
