ghost use Rattle.std.specs.Prelude.{◌≡◌};
ghost use Rattle.svid_c.specs.Live.{Calls, IsRest};
ghost use Rattle.svid_c.specs.Trust.{Exchanges, ExchangesHeld, trusted};

use crate::bundles::SvidBundles;
use crate::live::Live;
use crate::told::SvidTold;
use crate::trust::Trust;
use crate::validator::{SvidValidator, only};
use std::alloc::Global;

// Swaps the bundles of a validator with those of a handle.
fn exchange(live: &mut Live, trust: &mut Trust, told: &mut SvidTold) -> u32
    ensures does { Exchanges result told.new trust.old.bundles trust.new.bundles live.old.validator live.new.validator }
    ensures rest { IsRest live.old live.new }
{
    match trust.bundles.take() {
        Some(bundles) => {
            let before = live.validator.replace_bundles(bundles);
            trust.bundles = Some(before);
            only(0, told)
        }
        None => only(5, told),
    }
}

// Swaps the bundles of a validator with those of a handle.
fn exchange_held(alloc: Global, live: &mut Live, b: &mut SvidBundles, told: &mut SvidTold) -> u32
    ensures does { ExchangesHeld result told.new b.old.handle.trust b.new.handle.trust live.old.validator live.new.validator }
    ensures rest { IsRest live.old live.new }
{
    let Some(mut trust) = b.take(alloc) else {
        return only(5, told);
    };
    let status = exchange(live, &mut trust, told);
    b.put(trust);
    status
}

/// Swaps the trust bundles of a validator with those of an open handle, and returns 0. The handle stays open, with the bundles that the
/// validator had. Reads nothing, and neither allocates nor frees memory, so its time does not depend on the bundles. The record is
/// unchanged.
///
/// 5 if the validator or the handle is closed: then nothing happened.
#[unsafe(no_mangle)]
pub extern "C" fn svid_validator_renew_by(
    alloc: Global,
    v: &mut SvidValidator,
    b: &mut SvidBundles,
    told: &mut SvidTold,
) -> u32
    ensures { Calls (b.new.handle.trust ≡ b.old.handle.trust) (ExchangesHeld result told.new b.old.handle.trust b.new.handle.trust) result told.new v.old.handle.live v.new.handle.live }
{
    let Some(mut live) = v.take(alloc) else {
        return only(5, told);
    };
    let status = exchange_held(alloc, &mut live, b, told);
    v.put(live);
    status
}
