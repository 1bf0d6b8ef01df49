ghost use Rattle.std.specs.Prelude.{[], ◌∷◌, IfOk, IfErr};
ghost use Rattle.svid_c.specs.Inputs.{AreRefused};
ghost use Rattle.svid_c.specs.Joined.{IsAnswer, IsAnswerRefused, IsTextOf, answer_text};
ghost use Rattle.svid_c.specs.Written.{Answers};

use crate::inputs::{record_of, summary_in};
use crate::told::SvidTold;
use crate::validator_answer::texts_of;
use crate::writing::{put, refuse};
use std::alloc::Global;
use svid_replay::Summary;
use svid_share::ToolFault;
use svid_wire::MemSink;

// The answer to a summary by what an input holds at a moment.
#[tactic(auto, using(crate::proofs::JoinedLemmas::text_is, crate::proofs::JoinedLemmas::refused_alone))]
fn answer_to(
    alloc: Global,
    asked: &Summary,
    messages: &[u8],
    now: u64,
) -> Result<MemSink, ToolFault>
    ensures ok { IfOk result (λ sink. IsTextOf (answer_text asked.now) messages.now now sink.bytes) }
    ensures fault { IfErr result (AreRefused 2 (messages.now ∷ [])) }
{
    let mut record = record_of(alloc, messages, 2, now)?;
    let Ok(batches) = record.answer(alloc, asked) else {
        return Err(ToolFault::OutOfMemory);
    };
    match texts_of(alloc, &batches) {
        Ok(sink) => Ok(sink),
        Err(_) => Err(ToolFault::OutOfMemory),
    }
}

// The same for the summary in the first input.
#[tactic(auto, using(crate::proofs::JoinedLemmas::answers, crate::proofs::JoinedLemmas::refused_summary, crate::proofs::JoinedLemmas::refused_behind))]
fn answer(alloc: Global, summary: &[u8], messages: &[u8], now: u64) -> Result<MemSink, ToolFault>
    ensures ok { IfOk result (λ sink. IsAnswer summary.now messages.now now sink.bytes) }
    ensures fault { IfErr result (IsAnswerRefused summary.now messages.now) }
{
    let asked = summary_in(alloc, summary)?;
    answer_to(alloc, &asked, messages, now)
}

/// Writes the answer to the summary in the first input to the start of `out`. The record of the messages in the
/// second input is first advanced to the moment `now`, in seconds, and then to the summary's moment. The answer
/// has all uses of the buckets whose digests differ, as batches. If there are none, it is one batch without a use.
///
/// Answers as [`svid_join`](crate::join::svid_join) does, and 4 if the first input is messages, but not one
/// summary. `told` is then all 0.
#[unsafe(no_mangle)]
pub extern "C" fn svid_answer(
    alloc: Global,
    summary: &[u8],
    messages: &[u8],
    now: u64,
    out: &mut [u8],
    told: &mut SvidTold,
) -> u32
    ensures { Answers (IsAnswer summary.now messages.now now) (IsAnswerRefused summary.now messages.now) result told.new out.old out.new }
{
    match answer(alloc, summary, messages, now) {
        Ok(sink) => put(sink.bytes(), out, told),
        Err(fault) => refuse(fault, told),
    }
}
