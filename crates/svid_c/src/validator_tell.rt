ghost use Rattle.std.specs.Prelude.{◌≡◌, IfOk};
ghost use Rattle.svid_wire.specs.RecordText.{record_text};
ghost use Rattle.svid_c.specs.Joined.{summary_text_of};
ghost use Rattle.svid_c.specs.Live.{Calls, Writes};

use crate::live::Live;
use crate::told::{SvidTold, told_length};
use crate::validator::{SvidValidator, only};
use crate::writing::put;
use std::alloc::{AllocError, Global};
use svid_replay::{Record, UseStore};
use svid_share::put_record;
use svid_wire::{MemSink, write_summary};

// The text of a record.
fn text_of<T: UseStore>(alloc: Global, state: &Record<T>) -> Result<MemSink, AllocError>
    ensures { IfOk result (λ sink. sink.bytes ≡ record_text state.now) }
{
    let mut sink = MemSink::new(alloc, 65_536, None);
    match put_record(state, &mut sink) {
        Ok(()) => Ok(sink),
        Err(_) => Err(AllocError),
    }
}

// The text of the summary of a record.
fn summary_of<T: UseStore>(alloc: Global, state: &Record<T>) -> Result<MemSink, AllocError>
    ensures { IfOk result (λ sink. sink.bytes ≡ summary_text_of state.now) }
{
    let mut sink = MemSink::new(alloc, 65_536, None);
    match write_summary(&state.summary(), &mut sink) {
        Ok(()) => Ok(sink),
        Err(_) => Err(AllocError),
    }
}

fn tell(alloc: Global, live: &Live, out: &mut [u8], told: &mut SvidTold) -> u32
    ensures { Writes record_text result told.new out.old out.new live.now.validator live.now.validator }
{
    match text_of(alloc, live.validator.replay()) {
        Ok(sink) => put(sink.bytes(), out, told),
        Err(_) => {
            *told = told_length(0);
            2
        }
    }
}

fn sum(alloc: Global, live: &Live, out: &mut [u8], told: &mut SvidTold) -> u32
    ensures { Writes summary_text_of result told.new out.old out.new live.now.validator live.now.validator }
{
    match summary_of(alloc, live.validator.replay()) {
        Ok(sink) => put(sink.bytes(), out, told),
        Err(_) => {
            *told = told_length(0);
            2
        }
    }
}

/// Writes the record as messages to the start of `out`, for other validators or for a save. Returns 0, with the length in
/// `told.len`; or 1 if they are longer than `out`; 2 if out of memory; 5 if the validator is closed.
#[unsafe(no_mangle)]
pub extern "C" fn svid_validator_tell(
    alloc: Global,
    v: &mut SvidValidator,
    out: &mut [u8],
    told: &mut SvidTold,
) -> u32
    ensures { Calls (out.new ≡ out.old) (Writes record_text result told.new out.old out.new) result told.new v.old.handle.live v.new.handle.live }
{
    let Some(live) = v.take(alloc) else {
        return only(5, told);
    };
    let status = tell(alloc, &live, out, told);
    v.put(live);
    status
}

/// Writes the summary of the record to the start of `out`: 8,205 bytes. Answers as [`svid_validator_tell`] does.
#[unsafe(no_mangle)]
pub extern "C" fn svid_validator_summary(
    alloc: Global,
    v: &mut SvidValidator,
    out: &mut [u8],
    told: &mut SvidTold,
) -> u32
    ensures { Calls (out.new ≡ out.old) (Writes summary_text_of result told.new out.old out.new) result told.new v.old.handle.live v.new.handle.live }
{
    let Some(live) = v.take(alloc) else {
        return only(5, told);
    };
    let status = sum(alloc, &live, out, told);
    v.put(live);
    status
}
