ghost use Rattle.std.specs.Prelude.{◌≡◌, ◌≢◌, Err};
ghost use Rattle.svid_replay.specs.Buckets.{raised_to};
ghost use Rattle.svid_replay.specs.Records.{HasNoNew};
ghost use Rattle.svid_replay.specs.Sets.{rising};
ghost use Rattle.svid_check.specs.Changes.{TakesRecord, horizon};
ghost use Rattle.svid_check.specs.Setting.{with_state};
ghost use Rattle.svid_check.specs.declared.take_fault.TakeFault.TheVariants.{OutOfMemory};

use crate::take_fault::TakeFault;
use crate::validator::Validator;
use svid_keys::Verifier;
use svid_replay::{Record, UseStore};

impl<V: Verifier, S: UseStore> Validator<V, S> {
    /// Takes a whole record that another validator sent, at a moment, in seconds: all of it or nothing, by its moment.
    ///
    /// The record is first advanced to `now`, whatever the answer is. If the sent record's moment is past `now` plus
    /// `ahead` (at most 2^64-1), the answer is `TooFarAhead`, and nothing is joined. Else it is joined. If out of
    /// memory, its moment is joined, and its uses that are less than some new live one. A record
    /// without a new live use needs no memory.
    pub fn take_record<T: UseStore>(&mut self, now: u64, sent: &Record<T>) -> Result<(), TakeFault>
        ensures taken { TakesRecord (raised_to self.old.state now) (horizon now self.old.ahead) sent.now result self.new.state }
        ensures rest { self.new ≡ with_state self.old self.new.state }
        ensures nothing_new { HasNoNew (raised_to self.old.state now) sent.now.moment (rising sent.now.uses)
            → result ≢ Err OutOfMemory }
    {
        self.tick(now);
        if sent.moment() > now.saturating_add(self.given.ahead) {
            return Err(TakeFault::TooFarAhead);
        }
        if let Err(_) = self.replay.merge(sent) {
            return Err(TakeFault::OutOfMemory);
        }
        Ok(())
    }
}
