ghost use Rattle.std.specs.Prelude.{◌≡◌};
ghost use Rattle.svid_c.specs.Live.{Calls};
ghost use Rattle.svid_c.specs.Size.{Sizes};

use crate::live::Live;
use crate::told::SvidTold;
use crate::validator::{SvidValidator, only};
use std::alloc::Global;

/// The size of a record.
#[repr(C)]
#[derive(Drop)]
pub struct SvidSize {
    /// The record's moment, in seconds.
    pub moment: u64,
    /// How many uses it has, including withdrawals.
    pub uses: usize,
}

fn size(live: &Live, out: &mut SvidSize, told: &mut SvidTold) -> u32
    ensures { Sizes result told.new out.new live.now.validator live.now.validator }
{
    let replay = live.validator.replay();
    *out = SvidSize {
        moment: replay.moment(),
        uses: replay.len(),
    };
    only(0, told)
}

/// Reports the moment of the record and how many uses it has, and returns 0. Visits no use, so its time does not depend on how many
/// there are. 5 if the validator is closed: `out` is unchanged.
#[unsafe(no_mangle)]
pub extern "C" fn svid_validator_size(
    alloc: Global,
    v: &mut SvidValidator,
    out: &mut SvidSize,
    told: &mut SvidTold,
) -> u32
    ensures { Calls (out.new ≡ out.old) (Sizes result told.new out.new) result told.new v.old.handle.live v.new.handle.live }
{
    let Some(live) = v.take(alloc) else {
        return only(5, told);
    };
    let status = size(&live, out, told);
    v.put(live);
    status
}
