ghost use Rattle.std.specs.Prelude.{◌≡◌, [], ◌∷◌, IfOk, IfErr};
ghost use Rattle.svid_wire.specs.RecordText.{record_text};
ghost use Rattle.svid_c.specs.Inputs.{AreRefused};
ghost use Rattle.svid_c.specs.Joined.{IsJoined};
ghost use Rattle.svid_c.specs.Written.{Answers};

use crate::inputs::join_lent;
use crate::told::SvidTold;
use crate::writing::{put, refuse};
use std::alloc::{AllocError, Global};
use svid_replay::{Record, RunUses, UseStore};
use svid_share::{ToolFault, put_record};
use svid_wire::MemSink;

// The text of a record.
fn text_of<T: UseStore>(alloc: Global, state: &Record<T>) -> Result<MemSink, AllocError>
    ensures { IfOk result (λ sink. sink.bytes ≡ record_text state.now) }
{
    let mut sink = MemSink::new(alloc, 65_536, None);
    match put_record(state, &mut sink) {
        Ok(()) => Ok(sink),
        Err(_) => Err(AllocError),
    }
}

// The text of the record of two inputs at a moment.
fn joined(alloc: Global, a: &[u8], b: &[u8], now: u64) -> Result<MemSink, ToolFault>
    ensures ok { IfOk result (λ sink. IsJoined a.now b.now now sink.bytes) }
    ensures fault { IfErr result (AreRefused 1 (a.now ∷ b.now ∷ [])) }
{
    let mut record = Record::new(RunUses::without_keys(alloc));
    join_lent(alloc, a, 1, &mut record)?;
    join_lent(alloc, b, 2, &mut record)?;
    record.raise(now);
    record.compact();
    Ok(text_of(alloc, &record)?)
}

/// Joins the batches of both inputs, advances the record to the moment `now`, in seconds, and writes its text to
/// the start of `out`. Skips summaries.
///
/// Returns 0, with the text's length in `told.len`; or 1 if the text is longer than `out`, also with its length. 3
/// if an input has more than 67,108,864 bytes, and no field among the first 67,108,864 bytes is bad; a message fault if it
/// is not a sequence of messages, and `told` says which input, which message and where; 2 if out of memory. Unless
/// the status is 0, `out` is unchanged.
#[unsafe(no_mangle)]
pub extern "C" fn svid_join(
    alloc: Global,
    a: &[u8],
    b: &[u8],
    now: u64,
    out: &mut [u8],
    told: &mut SvidTold,
) -> u32
    ensures { Answers (IsJoined a.now b.now now) (AreRefused 1 (a.now ∷ b.now ∷ [])) result told.new out.old out.new }
{
    match joined(alloc, a, b, now) {
        Ok(sink) => put(sink.bytes(), out, told),
        Err(fault) => refuse(fault, told),
    }
}
