ghost use Rattle.std.specs.Prelude.{◌≡◌};
ghost use Rattle.svid_c.specs.Buckets.{TellsDiffers, differs_from};
ghost use Rattle.svid_c.specs.Live.{Calls};

use crate::live::Live;
use crate::told::{SvidTold, told_rows};
use crate::validator::{SvidValidator, only};
use crate::validator_digest::SvidDigests;
use std::alloc::Global;

// Whether a bucket of the record has a digest other than its digest in a summary.
fn differs(live: &Live, bucket: u8, asked: &SvidDigests) -> bool
    ensures { result ≡ differs_from live.now.validator bucket asked.now }
{
    live.validator
        .replay()
        .store()
        .bucket_differs(bucket, asked.moment, &asked.digests[bucket as usize])
}

fn tell_differs(live: &Live, bucket: u8, asked: &SvidDigests, told: &mut SvidTold) -> u32
    ensures { TellsDiffers bucket asked.now result told.new live.now.validator live.now.validator }
{
    *told = told_rows(0, differs(live, bucket, asked));
    0
}

/// Says whether one bucket differs from that bucket of a summary: it compares the digest of the bucket's uses that expire after `asked.moment`, in
/// seconds, with the one in `asked`. `svid_summary_read` reads a summary into `asked`. The record is unchanged. Visits each use of this bucket once,
/// and no other use. Allocates nothing.
///
/// Returns 0, with 1 in `told.more` if the digests differ, and else 0; 5 if the validator is closed.
#[unsafe(no_mangle)]
pub extern "C" fn svid_validator_differs(
    alloc: Global,
    v: &mut SvidValidator,
    bucket: u8,
    asked: &SvidDigests,
    told: &mut SvidTold,
) -> u32
    ensures { Calls (Unit {0}) (TellsDiffers bucket asked.now result told.new) result told.new v.old.handle.live v.new.handle.live }
{
    let Some(live) = v.take(alloc) else {
        return only(5, told);
    };
    let status = tell_differs(&live, bucket, asked, told);
    v.put(live);
    status
}
