ghost use Rattle.std.specs.Prelude.{◌≡◌};
ghost use Rattle.svid_replay.specs.Buckets.{raised_to};
ghost use Rattle.svid_check.specs.Changes.{Replies, horizon};
ghost use Rattle.svid_check.specs.Setting.{with_state};

use crate::take_fault::TakeFault;
use crate::validator::Validator;
use std::alloc::Global;
use svid_keys::Verifier;
use svid_replay::{Batch, Summary, UseStore};

// What a validator tells another.
impl<V: Verifier, S: UseStore> Validator<V, S> {
    /// Answers a summary from another validator at the moment `now`, in seconds: with the uses of all buckets
    /// whose digests differ, as batches for that validator to take.
    ///
    /// The record is first advanced to `now`, whatever the answer is. If the summary's moment is past `now`
    /// plus `ahead` (at most 2^64-1), the answer is `TooFarAhead`, and nothing else happens. Else the record
    /// is advanced to the summary's moment, and answers as [`Record::answer`](svid_replay::Record::answer)
    /// does: at least one batch, each with the record's moment. If out of memory, the record is only
    /// advanced. No use is added.
    pub fn answer(
        &mut self,
        alloc: Global,
        now: u64,
        summary: &Summary,
    ) -> Result<Vec<Batch>, TakeFault>
        ensures replied { Replies (raised_to self.old.state now) (horizon now self.old.ahead) summary.now result self.new.state }
        ensures rest { self.new ≡ with_state self.old self.new.state }
    {
        self.tick(now);
        if summary.moment() > now.saturating_add(self.given.ahead) {
            return Err(TakeFault::TooFarAhead);
        }
        match self.replay.answer(alloc, summary) {
            Ok(batches) => Ok(batches),
            Err(_) => Err(TakeFault::OutOfMemory),
        }
    }
}
