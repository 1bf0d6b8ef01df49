ghost use Rattle.std.specs.Prelude.{◌≡◌};
ghost use Rattle.std.specs.List.{slice_set};
ghost use Rattle.svid_shards.specs.Buckets.{digest_at};
ghost use Rattle.svid_c.specs.Buckets.{TellsDigest};
ghost use Rattle.svid_c.specs.Live.{Calls};

use crate::live::Live;
use crate::told::{SvidTold, told_length};
use crate::validator::{SvidValidator, only};
use std::alloc::Global;
use svid_shards::BucketDigest;

/// The digests of the 256 buckets of a record at a moment.
#[repr(C)]
#[derive(Drop)]
pub struct SvidDigests {
    /// The moment, in seconds.
    pub moment: u64,
    /// The digest of each bucket. A bucket has the uses whose keys begin with its number.
    pub digests: [[u8; 32]; 256],
}

// The digest of a bucket of the record at a moment, and the number of its uses.
fn digest_of(live: &Live, bucket: u8, moment: u64) -> BucketDigest
    ensures { result ≡ digest_at bucket moment live.now.validator.state.uses }
{
    live.validator
        .replay()
        .store()
        .bucket_digest(bucket, moment)
}

// Puts a digest into its place.
fn set_digest(digests: &mut [[u8; 32]; 256], bucket: u8, digest: [u8; 32])
    ensures { digests.new ≡ slice_set digests.old bucket digest }
{
    digests[bucket as usize] = digest;
}

fn tell_digest(live: &Live, bucket: u8, digests: &mut SvidDigests, told: &mut SvidTold) -> u32
    ensures { TellsDigest bucket result told.new digests.old digests.new live.now.validator live.now.validator }
{
    let of = digest_of(live, bucket, digests.moment);
    set_digest(&mut digests.digests, bucket, of.digest);
    *told = told_length(of.uses);
    0
}

/// Computes the digest of one bucket, and writes it to the bucket's place in `digests`: the digest of its uses that expire after
/// `digests.moment`, in seconds, as in a summary of that moment. Returns 0, with the number of these uses in `told.len`. The record is unchanged.
/// Visits the uses of this bucket alone, and allocates nothing.
///
/// From the digests of all 256 buckets, `svid_summary_of` makes the summary that the record would have at that moment. Other calls may come in
/// between: what they add may or may not be in the summary.
///
/// 5 if the validator is closed: `digests` is unchanged.
#[unsafe(no_mangle)]
pub extern "C" fn svid_validator_digest(
    alloc: Global,
    v: &mut SvidValidator,
    bucket: u8,
    digests: &mut SvidDigests,
    told: &mut SvidTold,
) -> u32
    ensures { Calls (digests.new ≡ digests.old) (TellsDigest bucket result told.new digests.old digests.new) result told.new v.old.handle.live v.new.handle.live }
{
    let Some(live) = v.take(alloc) else {
        return only(5, told);
    };
    let status = tell_digest(&live, bucket, digests, told);
    v.put(live);
    status
}
