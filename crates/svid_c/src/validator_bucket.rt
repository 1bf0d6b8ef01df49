ghost use Rattle.std.specs.Prelude.{◌≡◌, IfOk};
ghost use Rattle.svid_shards.specs.Buckets.{uses_at};
ghost use Rattle.svid_c.specs.Buckets.{TellsBucket};
ghost use Rattle.svid_c.specs.Live.{Calls};

use crate::entries_write::messages_of;
use crate::live::Live;
use crate::told::SvidTold;
use crate::validator::{SvidValidator, only};
use crate::writing::put;
use std::alloc::{AllocError, Global};
use svid_replay::Use;

// The uses of a bucket of the record that expire after a moment.
fn uses_of(alloc: Global, live: &Live, bucket: u8, moment: u64) -> Result<Vec<Use>, AllocError>
    ensures { IfOk result (λ uses. uses.items ≡ uses_at bucket moment live.now.validator.state.uses) }
{
    live.validator
        .replay()
        .store()
        .bucket_uses(alloc, bucket, moment)
}

fn tell_bucket(
    alloc: Global,
    live: &Live,
    bucket: u8,
    moment: u64,
    out: &mut [u8],
    told: &mut SvidTold,
) -> u32
    ensures { TellsBucket bucket moment result told.new out.old out.new live.now.validator live.now.validator }
{
    let Ok(uses) = uses_of(alloc, live, bucket, moment) else {
        return only(2, told);
    };
    // (each use of a record expires after it was made, so the only failure is out of memory)
    match messages_of(alloc, &uses) {
        Ok(sink) => put(sink.bytes(), out, told),
        Err(_) => only(2, told),
    }
}

/// Writes the uses of one bucket that expire after `moment`, in seconds, as messages to the start of `out`; no bytes if there is none. The record is
/// unchanged. Visits each use of this bucket once, and no other use.
///
/// To answer a summary, call it with the summary's moment, for each bucket where `svid_validator_differs` reports a difference. Together these calls
/// give the uses that `svid_validator_answer` gives.
///
/// Returns 0, with the length of the messages in `told.len`; or 1 if they are longer than `out`; 2 if out of memory; 5 if the validator is closed.
/// Unless the status is 0, `out` is unchanged.
#[unsafe(no_mangle)]
pub extern "C" fn svid_validator_bucket(
    alloc: Global,
    v: &mut SvidValidator,
    bucket: u8,
    moment: u64,
    out: &mut [u8],
    told: &mut SvidTold,
) -> u32
    ensures { Calls (out.new ≡ out.old) (TellsBucket bucket moment result told.new out.old out.new) result told.new v.old.handle.live v.new.handle.live }
{
    let Some(live) = v.take(alloc) else {
        return only(5, told);
    };
    let status = tell_bucket(alloc, &live, bucket, moment, out, told);
    v.put(live);
    status
}
