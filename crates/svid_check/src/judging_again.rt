ghost use Rattle.std.specs.Prelude.{◌≡◌};
ghost use Rattle.svid_token.specs.Rows.{first_row};
ghost use Rattle.svid_replay.specs.Buckets.{raised_to};
ghost use Rattle.svid_check.specs.Setting.{with_state};
ghost use Rattle.svid_check.specs.Verdict.{again_rows};

use crate::judging::record_refusal;
use crate::validator::Validator;
use svid_keys::Verifier;
use svid_replay::{Record, UseStore};
use svid_token::Refusal;

impl<V: Verifier, S: UseStore> Validator<V, S> {
    /// Judges a token again that was accepted, by the key and the expiry of its use alone: at a moment that is no earlier, in
    /// seconds, and while trust bundles and verifier stay. `None` where [`judge_by`](Validator::judge_by) would accept it
    /// then, and else what it would refuse it by, which is `Expired`, `Withdrawn` or `Replayed`.
    ///
    /// The record is advanced to the moment, whatever the answer is, and nothing else about the validator changes. Reads no
    /// token, and allocates nothing.
    pub fn judge_again(&mut self, now: u64, key: &[u8; 32], exp: u64) -> Option<Refusal>
        ensures answer { let x = raised_to self.old.state now in
            result ≡ first_row (again_rows x.moment x.uses key.now exp) }
        ensures state { self.new ≡ with_state self.old (raised_to self.old.state now) }
    {
        self.tick(now);
        later_refusal(&self.replay, key, exp)
    }
}

// Why the moment and the uses refuse an accepted token, by its key and when it expires.
fn later_refusal<S: UseStore>(replay: &Record<S>, key: &[u8; 32], exp: u64) -> Option<Refusal>
    ensures { result ≡ first_row (again_rows replay.now.moment replay.now.uses key.now exp) }
{
    if exp <= replay.moment() {
        return Some(Refusal::Expired);
    }
    record_refusal(replay, key)
}
