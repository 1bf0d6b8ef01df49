ghost use Rattle.std.specs.Prelude.{◌≡◌, IfOk};
ghost use Rattle.std.specs.List.{flat_map};
ghost use Rattle.svid_wire.specs.BatchText.{batch_text};
ghost use Rattle.svid_c.specs.Live.{CallsAt, IsRest, Replies};

use crate::inputs::summary_in;
use crate::live::Live;
use crate::told::{SvidTold, told_length};
use crate::validator::{SvidValidator, only};
use crate::writing::{put, refuse};
use std::alloc::{AllocError, Global};
use svid_check::TakeFault;
use svid_replay::Batch;
use svid_wire::{MemSink, write_batch};

// The texts of batches.
pub(crate) fn texts_of(alloc: Global, batches: &[Batch]) -> Result<MemSink, AllocError>
    ensures { IfOk result (λ sink. sink.bytes ≡ flat_map batch_text batches.now) }
{
    let mut sink = MemSink::new(alloc, 65_536, None);
    for batch in batches {
        if let Err(_) = write_batch(batch, &mut sink) {
            return Err(AllocError);
        }
    }
    Ok(sink)
}

fn reply(
    alloc: Global,
    live: &mut Live,
    now: u64,
    summary: &[u8],
    out: &mut [u8],
    told: &mut SvidTold,
) -> u32
    ensures does { Replies now summary.now result told.new out.old out.new live.old.validator live.new.validator }
    ensures rest { IsRest live.old live.new }
{
    let asked = match summary_in(alloc, summary) {
        Ok(asked) => asked,
        Err(fault) => return refuse(fault, told),
    };
    match live.validator.answer(alloc, now, &asked) {
        Ok(batches) => match texts_of(alloc, &batches) {
            Ok(sink) => put(sink.bytes(), out, told),
            Err(_) => {
                *told = told_length(0);
                2
            }
        },
        Err(TakeFault::TooFarAhead) => {
            *told = told_length(0);
            8
        }
        Err(TakeFault::OutOfMemory) => {
            *told = told_length(0);
            2
        }
    }
}

/// Writes the answer to a summary from another validator to the start of `out`: the uses of all buckets whose digests differ, as
/// messages. The record is first advanced to the moment `now`, in seconds, and to the summary's moment, unless that is past `now`
/// and `ahead` together (8).
///
/// Returns 0, with the answer's length in `told.len`; or 1 if it is longer than `out`. 4, 3 or a message fault if the bytes are not one
/// summary: nothing happened. 2 if out of memory; 5 if the validator is closed.
#[unsafe(no_mangle)]
pub extern "C" fn svid_validator_answer(
    alloc: Global,
    v: &mut SvidValidator,
    now: u64,
    summary: &[u8],
    out: &mut [u8],
    told: &mut SvidTold,
) -> u32
    ensures { CallsAt now (out.new ≡ out.old) (Replies now summary.now result told.new out.old out.new) result told.new v.old.handle.live v.new.handle.live }
{
    let mut live = match v.take_at(alloc, now) {
        Ok(live) => live,
        Err(status) => return only(status, told),
    };
    let status = reply(alloc, &mut live, now, summary, out, told);
    v.put(live);
    status
}
