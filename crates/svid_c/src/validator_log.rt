ghost use Rattle.std.specs.Prelude.{◌≡◌, IfOk};
ghost use Rattle.std.specs.List.{flat_map};
ghost use Rattle.svid_wire.specs.BatchText.{batch_text};
ghost use Rattle.svid_log.specs.Saves.{saved_of};
ghost use Rattle.svid_c.specs.Live.{HandleCalls};
ghost use Rattle.svid_c.specs.Log.{BeginsToRead, WritesBeside, told_value};

use crate::live::Live;
use crate::told::{SvidTold, reason_number};
use crate::validator::{SvidValidator, only};
use crate::validator_answer::texts_of;
use crate::validator_mark::{SvidMark, mark_in};
use crate::writing::put;
use std::alloc::{AllocError, Global};
use svid_log::{Member, Value};
use svid_replay::{RunUses, UseStore};
use svid_wire::{MemSink, WireFault};

// Reports why bytes are not a sequence of messages.
pub(crate) fn told_value(fault: Option<WireFault>) -> SvidTold
    ensures { result ≡ told_value fault }
{
    let (input, offset) = match fault {
        None => (0, 0),
        Some(fault) => (1, fault.offset),
    };
    SvidTold {
        len: 0,
        input,
        message: 0,
        offset,
        more: 0,
    }
}

// Makes a validator read a log, with these uses beside its record.
fn begin_to_read(
    alloc: Global,
    live: &mut Live,
    mark: &SvidMark,
    ready: u64,
    lasts: u64,
    beside: &[u8],
    told: &mut SvidTold,
) -> u32
    ensures { BeginsToRead mark.now ready lasts beside.now result told.new live.old live.new }
{
    let value = match Value::read(alloc, beside) {
        Ok(value) => value,
        Err(_) => return only(2, told),
    };
    *told = told_value(value.fault);
    let store = RunUses::new(alloc);
    let begun = match value.fault {
        Some(fault) => return reason_number(fault.reason),
        None => live
            .validator
            .member(store, lasts, mark_in(mark), ready, &value.uses),
    };
    match begun {
        Ok(member) => {
            live.member = Some(member);
            0
        }
        Err(_) => 2,
    }
}

// The text of the uses beside the record of a member.
fn text_of<S: UseStore>(alloc: Global, member: &Member<S>) -> Result<MemSink, AllocError>
    ensures { IfOk result (λ sink. sink.bytes ≡ flat_map batch_text (saved_of member.now.beside)) }
{
    let saved = member.save(alloc)?;
    texts_of(alloc, &saved)
}

fn write_beside(alloc: Global, live: &Live, out: &mut [u8], told: &mut SvidTold) -> u32
    ensures { WritesBeside result told.new out.old out.new live.now live.now }
{
    let Some(member) = &live.member else {
        return only(19, told);
    };
    match text_of(alloc, member) {
        Ok(sink) => put(sink.bytes(), out, told),
        Err(_) => only(2, told),
    }
}

/// Makes the validator read a group's log, from `mark` on, and returns 0. `beside` is the messages that [`svid_validator_beside`] wrote for that
/// mark, or empty. The record is unchanged. A validator that reads a log already begins again.
///
/// `ready` is the position of the last value that an earlier life of the validator may have read, usually the last one in the log when it begins. It
/// accepts no token by a claim up to there. `lasts` is how many seconds a use may live after it is put into the log: after a gap the validator
/// accepts nothing for that long.
///
/// A message fault if `beside` is not messages, and `told.offset` says where in its message; 2 if out of memory; 5 if the validator is closed. Then
/// nothing happened.
#[unsafe(no_mangle)]
pub extern "C" fn svid_validator_log(
    alloc: Global,
    v: &mut SvidValidator,
    mark: &SvidMark,
    ready: u64,
    lasts: u64,
    beside: &[u8],
    told: &mut SvidTold,
) -> u32
    ensures { HandleCalls (Unit {0}) (BeginsToRead mark.now ready lasts beside.now result told.new) result told.new v.old.handle.live v.new.handle.live }
{
    let Some(mut live) = v.take(alloc) else {
        return only(5, told);
    };
    let status = begin_to_read(alloc, &mut live, mark, ready, lasts, beside, told);
    v.put(live);
    status
}

/// Writes the claims beside the record as messages to the start of `out`, for a save, together with the mark of
/// [`svid_validator_mark`](crate::validator_mark::svid_validator_mark) and the record of the same moment. Returns 0, with the length in `told.len`;
/// or 1 if they are longer than `out`; 2 if out of memory; 19 if the validator reads no log; 5 if it is closed.
#[unsafe(no_mangle)]
pub extern "C" fn svid_validator_beside(
    alloc: Global,
    v: &mut SvidValidator,
    out: &mut [u8],
    told: &mut SvidTold,
) -> u32
    ensures { HandleCalls (out.new ≡ out.old) (WritesBeside result told.new out.old out.new) result told.new v.old.handle.live v.new.handle.live }
{
    let Some(live) = v.take(alloc) else {
        return only(5, told);
    };
    let status = write_beside(alloc, &live, out, told);
    v.put(live);
    status
}
