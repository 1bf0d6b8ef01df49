ghost use Rattle.std.specs.Prelude.{[], ◌∷◌, IfOk, IfErr};
ghost use Rattle.svid_c.specs.Inputs.{AreRefused};
ghost use Rattle.svid_c.specs.Joined.{IsTextOf, summary_text_of};
ghost use Rattle.svid_c.specs.Written.{Answers};

use crate::inputs::record_of;
use crate::told::SvidTold;
use crate::writing::{put, refuse};
use std::alloc::Global;
use svid_share::ToolFault;
use svid_wire::{MemSink, write_summary};

// The summary of the messages in an input at a moment.
#[tactic(auto, using(crate::proofs::JoinedLemmas::text_is, crate::proofs::JoinedLemmas::refused_alone))]
fn summary(alloc: Global, messages: &[u8], now: u64) -> Result<MemSink, ToolFault>
    ensures ok { IfOk result (λ sink. IsTextOf summary_text_of messages.now now sink.bytes) }
    ensures fault { IfErr result (AreRefused 1 (messages.now ∷ [])) }
{
    let record = record_of(alloc, messages, 1, now)?;
    let mut sink = MemSink::new(alloc, 65_536, None);
    match write_summary(&record.summary(), &mut sink) {
        Ok(()) => Ok(sink),
        Err(_) => Err(ToolFault::OutOfMemory),
    }
}

/// Writes the summary of the messages at the moment `now`, in seconds, to the start of `out`: 8,205 bytes.
///
/// Answers as [`svid_join`](crate::join::svid_join) does.
#[unsafe(no_mangle)]
pub extern "C" fn svid_summary(
    alloc: Global,
    messages: &[u8],
    now: u64,
    out: &mut [u8],
    told: &mut SvidTold,
) -> u32
    ensures { Answers (IsTextOf summary_text_of messages.now now) (AreRefused 1 (messages.now ∷ [])) result told.new out.old out.new }
{
    match summary(alloc, messages, now) {
        Ok(sink) => put(sink.bytes(), out, told),
        Err(fault) => refuse(fault, told),
    }
}
