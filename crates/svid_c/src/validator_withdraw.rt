ghost use Rattle.std.specs.Prelude.{◌≡◌};
ghost use Rattle.svid_c.specs.Live.{CallsAt, IsRest, Withdraws};

use crate::check::{SvidUse, use_seen};
use crate::live::Live;
use crate::told::{SvidTold, told_length};
use crate::validator::{SvidValidator, only};
use std::alloc::Global;
use svid_check::WithdrawFault;

/// A token's key, which identifies the token.
#[repr(C)]
#[derive(Drop)]
pub struct SvidKey {
    /// Its bytes.
    pub bytes: [u8; 32],
}

// Withdraws the tokens with a key.
fn withdraw(
    live: &mut Live,
    now: u64,
    key: [u8; 32],
    exp: u64,
    used: &mut SvidUse,
    told: &mut SvidTold,
) -> u32
    ensures does { Withdraws now key exp result told.new used.old used.new live.old.validator live.new.validator }
    ensures rest { IsRest live.old live.new }
{
    *told = told_length(0);
    match live.validator.withdraw(now, key, exp) {
        Ok(withdrawn) => {
            *used = use_seen(withdrawn);
            0
        }
        Err(WithdrawFault::Expired) => 7,
        Err(WithdrawFault::OutOfMemory) => 2,
    }
}

/// Withdraws the tokens with a key until `exp`, when they expire, at the moment `now`, both in seconds. Advances the record first.
/// Returns 0, and `used` is the withdrawal that was added to the record. 7 if the tokens have expired at the record's moment; 2 if out of
/// memory, but never for a withdrawal that the record has already; 5 if the validator is closed; 9 if `now` is more than `step` past the
/// record's moment.
#[unsafe(no_mangle)]
pub extern "C" fn svid_validator_withdraw(
    alloc: Global,
    v: &mut SvidValidator,
    now: u64,
    key: &SvidKey,
    exp: u64,
    used: &mut SvidUse,
    told: &mut SvidTold,
) -> u32
    ensures { CallsAt now (used.new ≡ used.old) (Withdraws now key.now.bytes exp result told.new used.old used.new) result told.new v.old.handle.live v.new.handle.live }
{
    let mut live = match v.take_at(alloc, now) {
        Ok(live) => live,
        Err(status) => return only(status, told),
    };
    let status = withdraw(&mut live, now, key.bytes, exp, used, told);
    v.put(live);
    status
}
