ghost use Rattle.std.specs.Prelude.{◌≡◌};
ghost use Rattle.svid_c.specs.Buckets.{ReadsSummary, summary_from};

use crate::inputs::summary_in;
use crate::told::SvidTold;
use crate::validator::only;
use crate::validator_digest::SvidDigests;
use crate::writing::refuse;
use std::alloc::Global;
use svid_replay::Summary;

// The moment and the digests of a summary.
fn digests_of(summary: &Summary) -> SvidDigests
    ensures { summary_from result ≡ summary.now }
{
    SvidDigests {
        moment: summary.moment(),
        digests: *summary.digests(),
    }
}

/// Reads a summary from another validator, and writes its moment and the digests of its 256 buckets to `asked`, for `svid_validator_differs`.
///
/// Returns 0; 4, 3 or a message fault if `summary` is not one summary, and `told` says where; 2 if out of memory. Unless the status is 0, `asked` is
/// unchanged.
#[unsafe(no_mangle)]
pub extern "C" fn svid_summary_read(
    alloc: Global,
    summary: &[u8],
    asked: &mut SvidDigests,
    told: &mut SvidTold,
) -> u32
    ensures { ReadsSummary summary.now result told.new asked.old asked.new }
{
    match summary_in(alloc, summary) {
        Ok(read) => {
            *asked = digests_of(&read);
            only(0, told)
        }
        Err(fault) => refuse(fault, told),
    }
}
