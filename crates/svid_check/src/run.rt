ghost use Rattle.std.specs.Prelude.{◌≡◌, ◌<◌, ◌≤◌, ◌+◌, ◌++◌, ◌∷◌, [], drop, length, take, OnOk, OnErr, vec_len, vec_capacity};
ghost use Rattle.svid_check.specs.Runs.{RunsFrom, terms_of};
ghost use Rattle.svid_check.specs.Setting.{with_state};

use crate::answer::Answer;
use crate::event::Event;
use crate::validator::Validator;
use std::alloc::AllocError;
use svid_keys::Verifier;
use svid_replay::UseStore;

// Adds an answer for which there is room.
fn put(answers: &mut Vec<Answer>, answer: Answer)
    requires { vec_len answers.old < vec_capacity answers.old }
    ensures items { answers.new.items ≡ answers.old.items ++ answer ∷ [] }
    ensures len { vec_len answers.new ≡ vec_len answers.old + 1 }
    ensures capacity { vec_capacity answers.old ≤ vec_capacity answers.new }
{
    let Ok(()) = answers.push(answer) else {
        unreachable!()
    };
}

impl<V: Verifier, S: UseStore> Validator<V, S> {
    // The answer to one event.
    fn step(&mut self, event: &Event<'_>) -> Answer
        ensures rest { self.new ≡ with_state self.old self.new.state }
        ensures step { RunsFrom (terms_of V.says self.old) self.old.state (event.now ∷ []) (result ∷ []) self.new.state }
    {
        match event {
            Event::Check { now, token } => Answer::Checked(self.check(*now, token)),
            Event::Tick { now } => {
                self.tick(*now);
                Answer::Ticked
            }
            Event::Take { now, batch } => Answer::Taken(self.take(*now, batch)),
            Event::Withdraw { now, key, exp } => Answer::Withdrawn(self.withdraw(*now, *key, *exp)),
        }
    }

    /// Makes the calls that the events tell, one after the other, and puts an answer for each behind
    /// those that are in `answers`.
    ///
    /// The room for the answers is made first: where `answers` has not enough of it and more is refused,
    /// nothing has changed. Where memory is refused inside an event, its answer says so and the run goes
    /// on.
    pub fn run(&mut self, events: &[Event<'_>], answers: &mut Vec<Answer>) -> Result<(), AllocError>
        ensures ran { OnOk result (RunsFrom (terms_of V.says self.old) self.old.state events.now (drop (length answers.old.items) answers.new.items) self.new.state) }
        ensures kept { OnOk result (take (length answers.old.items) answers.new.items ≡ answers.old.items) }
        ensures rest { self.new ≡ with_state self.old self.new.state }
        ensures refused { OnErr result ((self.new ≡ self.old) × (answers.new.items ≡ answers.old.items)
            × (vec_capacity answers.old < vec_len answers.old + length events.now)) }
    {
        answers.reserve(events.len())?;
        for event in events {
            let answer = self.step(event);
            put(answers, answer);
        }
        Ok(())
    }
}
