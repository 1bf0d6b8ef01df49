ghost use Rattle.std.specs.Prelude.{◌≡◌, ◌≢◌, Err, IsTrue};
ghost use Rattle.svid_replay.specs.Buckets.{raised_to};
ghost use Rattle.svid_replay.specs.Sets.{holds};
ghost use Rattle.svid_check.specs.Changes.{IsWithdrawal, gains, withdrawal, withdrawn_in};
ghost use Rattle.svid_check.specs.Setting.{with_state};
ghost use Rattle.svid_check.specs.declared.withdraw_fault.WithdrawFault.TheVariants.{OutOfMemory};

use crate::validator::Validator;
use crate::withdraw_fault::WithdrawFault;
use svid_keys::Verifier;
use svid_replay::{Use, UseStore};

impl<V: Verifier, S: UseStore> Validator<V, S> {
    /// Withdraws the tokens with this key until `exp`, when they expire, at the moment `now`; both in
    /// seconds. Until then a token with the key is refused as `Withdrawn`, unless an earlier refusal holds:
    /// here, and at each validator that takes the record.
    ///
    /// The record is raised to `now` first, whatever the answer is. The withdrawal is made at the record's
    /// moment, which may be greater, and is added and answered, or `Expired` where `exp` is not greater than
    /// that moment. Where memory is refused, only the raise stands. A withdrawal that the record has
    /// already always succeeds.
    pub fn withdraw(&mut self, now: u64, key: [u8; 32], exp: u64) -> Result<Use, WithdrawFault>
        ensures answer { IsWithdrawal self.old.validator_id (raised_to self.old.state now).moment key exp result }
        ensures state { self.new ≡ with_state self.old (gains (raised_to self.old.state now) (withdrawn_in result)) }
        ensures held { let x = raised_to self.old.state now in
            IsTrue (holds x.uses (withdrawal self.old.validator_id x.moment key exp)) → result ≢ Err OutOfMemory }
    {
        self.tick(now);
        let moment = self.replay.moment();
        if exp <= moment {
            return Err(WithdrawFault::Expired);
        }
        let used = Use {
            exp,
            key,
            validator_id: self.given.validator_id,
            at: moment,
            withdrawn: true,
        };
        match self.replay.add(used) {
            Ok(()) => Ok(used),
            Err(_) => Err(WithdrawFault::OutOfMemory),
        }
    }
}
