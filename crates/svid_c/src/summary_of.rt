ghost use Rattle.std.specs.Prelude.{◌≡◌, IfOk};
ghost use Rattle.svid_wire.specs.SummaryText.{summary_text};
ghost use Rattle.svid_c.specs.Buckets.{WritesSummary, summary_from};

use crate::told::SvidTold;
use crate::validator::only;
use crate::validator_digest::SvidDigests;
use crate::writing::put;
use std::alloc::{AllocError, Global};
use svid_replay::Summary;
use svid_wire::{MemSink, write_summary};

// The text of the summary with these digests.
fn text_of(alloc: Global, digests: &SvidDigests) -> Result<MemSink, AllocError>
    ensures { IfOk result (λ sink. sink.bytes ≡ summary_text (summary_from digests.now)) }
{
    let summary = Summary::make(digests.moment, digests.digests);
    let mut sink = MemSink::new(alloc, 65_536, None);
    match write_summary(&summary, &mut sink) {
        Ok(()) => Ok(sink),
        Err(_) => Err(AllocError),
    }
}

/// Writes the summary with the moment and the digests of all 256 buckets to the start of `out`: 8,205 bytes. `svid_validator_digest` computes the
/// digests.
///
/// Returns 0, with 8,205 in `told.len`; 1 if `out` is shorter; 2 if out of memory. Unless the status is 0, `out` is unchanged.
#[unsafe(no_mangle)]
pub extern "C" fn svid_summary_of(
    alloc: Global,
    digests: &SvidDigests,
    out: &mut [u8],
    told: &mut SvidTold,
) -> u32
    ensures { WritesSummary digests.now result told.new out.old out.new }
{
    match text_of(alloc, digests) {
        Ok(sink) => put(sink.bytes(), out, told),
        Err(_) => only(2, told),
    }
}
