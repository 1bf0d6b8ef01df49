ghost use Rattle.std.specs.Prelude.{◌≡◌};
ghost use Rattle.svid_c.specs.Live.{Calls, CallsAt, IsRest, Renews, Ticks};

use crate::inputs::bundles_of;
use crate::live::Live;
use crate::refuse_bundles::refuse_bundles;
use crate::told::{SvidTold, told_length};
use crate::validator::{SvidValidator, only};
use std::alloc::Global;

// Reads other bundles, and replaces the validator's.
fn renew(alloc: Global, live: &mut Live, bundles: &[u8], told: &mut SvidTold) -> u32
    ensures does { Renews bundles.now result told.new live.old.validator live.new.validator }
    ensures rest { IsRest live.old live.new }
{
    match bundles_of(alloc, bundles) {
        Ok(bundles) => {
            let _before = live.validator.replace_bundles(bundles);
            *told = told_length(0);
            0
        }
        Err(fault) => refuse_bundles(alloc, bundles, fault, told),
    }
}

/// Replaces the trust bundles of a validator, and returns 0. The record is unchanged. 3 (with `told.input` 1) or a bundle fault if the
/// bundles are refused, 2 if out of memory: then nothing happened. 5 if the validator is closed.
#[unsafe(no_mangle)]
pub extern "C" fn svid_validator_bundles(
    alloc: Global,
    v: &mut SvidValidator,
    bundles: &[u8],
    told: &mut SvidTold,
) -> u32
    ensures { Calls (Unit {0}) (Renews bundles.now result told.new) result told.new v.old.handle.live v.new.handle.live }
{
    let Some(mut live) = v.take(alloc) else {
        return only(5, told);
    };
    let status = renew(alloc, &mut live, bundles, told);
    v.put(live);
    status
}

fn tick(live: &mut Live, now: u64, told: &mut SvidTold) -> u32
    ensures does { Ticks now result told.new live.old.validator live.new.validator }
    ensures rest { IsRest live.old live.new }
{
    live.validator.tick(now);
    *told = told_length(0);
    0
}

/// Advances the record to a moment, in seconds. 5 if the validator is closed.
#[unsafe(no_mangle)]
pub extern "C" fn svid_validator_tick(
    alloc: Global,
    v: &mut SvidValidator,
    now: u64,
    told: &mut SvidTold,
) -> u32
    ensures { CallsAt now (Unit {0}) (Ticks now result told.new) result told.new v.old.handle.live v.new.handle.live }
{
    let mut live = match v.take_at(alloc, now) {
        Ok(live) => live,
        Err(status) => return only(status, told),
    };
    let status = tick(&mut live, now, told);
    v.put(live);
    status
}
