ghost use Rattle.std.specs.Prelude.{◌≡◌, ◌≢◌, Err};
ghost use Rattle.svid_replay.specs.Buckets.{raised_to};
ghost use Rattle.svid_replay.specs.Records.{HasNoNew};
ghost use Rattle.svid_check.specs.Changes.{Takes, horizon};
ghost use Rattle.svid_check.specs.Setting.{with_state};
ghost use Rattle.svid_check.specs.declared.take_fault.TakeFault.TheVariants.{OutOfMemory};

use crate::take_fault::TakeFault;
use crate::validator::Validator;
use svid_keys::Verifier;
use svid_replay::{Batch, UseStore};

// What a validator learns from the clock and from others.
impl<V: Verifier, S: UseStore> Validator<V, S> {
    /// Advances the record to a moment, in seconds. Allocates nothing.
    pub fn tick(&mut self, now: u64)
        ensures { self.new ≡ with_state self.old (raised_to self.old.state now) }
    {
        self.replay.raise(now);
    }

    /// Takes a batch that another validator sent, at a moment, in seconds.
    ///
    /// The record is first advanced to `now`, whatever the answer is. If the batch's moment is past `now`
    /// plus `ahead` (at most 2^64-1), the answer is `TooFarAhead`, and nothing is joined. Else the batch is
    /// joined. If out of memory, the batch's moment is joined, and its uses before some new live one. A batch without a new live use needs no memory.
    pub fn take(&mut self, now: u64, batch: &Batch) -> Result<(), TakeFault>
        ensures taken { Takes (raised_to self.old.state now) (horizon now self.old.ahead) batch.now result self.new.state }
        ensures rest { self.new ≡ with_state self.old self.new.state }
        ensures nothing_new { HasNoNew (raised_to self.old.state now) batch.now.moment batch.now.uses
            → result ≢ Err OutOfMemory }
    {
        self.tick(now);
        if batch.moment() > now.saturating_add(self.given.ahead) {
            return Err(TakeFault::TooFarAhead);
        }
        if let Err(_) = self.replay.absorb(batch) {
            return Err(TakeFault::OutOfMemory);
        }
        Ok(())
    }
}
