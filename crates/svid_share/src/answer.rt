ghost use Rattle.std.specs.Prelude.{◌≡◌, ◌≢◌, OnOk, OnErr, IfOk, IfErr};
ghost use Rattle.std.specs.List.{flat_map};
ghost use Rattle.svid_replay.specs.Buckets.{answer_to, raised_to};
ghost use Rattle.svid_replay.specs.Summary.{SummaryData};
ghost use Rattle.svid_wire.specs.BatchText.{batch_text};
ghost use Rattle.svid_wire.specs.Streams.{TookAll, TookPart, drawn, taken};
ghost use Rattle.svid_share.specs.Answer.{IsAnswerFault, IsAnswered, answer_due, behind_one};
ghost use Rattle.svid_share.specs.Inputs.{IsJoinFault, inputs_of, sources};
ghost use Rattle.svid_share.specs.Written.{IsDue};
ghost use Rattle.svid_share.specs.declared.tool_fault.ToolFault.TheVariants.{Write};

use crate::ToolFault;
use crate::inputs::record_of;
use crate::one_summary::read_summary;
use crate::parts::put_walked;
use std::alloc::Global;
use svid_replay::{Record, RunUses, Summary, UseStore};
use svid_wire::{Sink, Source};

/// Advances a record to the summary's moment, and writes its answer as [`run_answer`] does: the uses of all buckets whose digest
/// then differs from the summary's, as batches. `Write` where the sink stopped: then part of them went out, and the record keeps
/// the moment. Takes no memory.
pub fn put_answer<T: UseStore, K: Sink>(
    state: &mut Record<T>,
    asked: &Summary,
    out: &mut K,
) -> Result<(), ToolFault>
    ensures raised { state.new ≡ raised_to state.old asked.now.moment }
    ensures ok { OnOk result (TookAll (taken K.told K.stops out.old out.new) (flat_map batch_text (answer_to state.old asked.now))) }
    ensures fault { IfErr result (λ e. e ≡ Write) }
    ensures part { OnErr result (TookPart (taken K.told K.stops out.old out.new) (flat_map batch_text (answer_to state.old asked.now))) }
{
    state.raise(asked.moment());
    let mut stale = state.stale(asked);
    put_walked(state.moment(), stale.len(), &mut stale, out)
}

// The join of the batches of all inputs. Its answer to any summary is the one that is due.
fn join_all<S: Source>(alloc: Global, inputs: &mut [S]) -> Result<Record<RunUses>, ToolFault>
    ensures ok { IfOk result (λ r. (asked : SummaryData) → IsDue (answer_due asked) (inputs_of (sources S.left S.stops inputs.old inputs.new)) (flat_map batch_text (answer_to r asked))) }
    ensures fault { IfErr result (IsJoinFault (sources S.left S.stops inputs.old inputs.new)) }
{
    record_of(alloc, inputs)
}

// The fault of inputs that follow another one.
fn behind_one(fault: ToolFault) -> ToolFault
    ensures { result ≡ behind_one fault }
{
    match fault {
        ToolFault::Wire {
            input,
            message,
            offset,
            reason,
        } => ToolFault::Wire {
            input: input.saturating_add(1),
            message,
            offset,
            reason,
        },
        ToolFault::Read { input } => ToolFault::Read {
            input: input.saturating_add(1),
        },
        ToolFault::TooMuch { input } => ToolFault::TooMuch {
            input: input.saturating_add(1),
        },
        fault => fault,
    }
}

/// Reads the one summary that the input `summary` is, joins the batches of all other inputs, advances this record to the
/// summary's moment, and writes its answer: the uses of all buckets whose digest differs from the summary's, as batches; one
/// batch with no use where there are no such uses. Skips summaries among the other inputs.
///
/// The input `summary` has the number 1, and the others follow it. They are read and judged in this order, before anything is
/// written. Errors, for the first input that is refused: `Wire` where it does not parse as whole messages, `Read` where it could
/// not be read, `TooMuch` where it has more than 67,108,864 bytes, `NotSummary` where the first is not exactly one summary.
/// Further errors: `OutOfMemory`, and `Write` where the sink stopped. After `Write` part of the texts went out, after the others
/// nothing. A bad field that came before a failed read or the limit is reported instead of these. The inputs after a refused one
/// are as they were. The numbers of inputs are held at 2^64-1.
pub fn run_answer<Z: Source, S: Source, K: Sink>(
    alloc: Global,
    summary: &mut Z,
    inputs: &mut [S],
    out: &mut K,
) -> Result<(), ToolFault>
    ensures ok { OnOk result (IsAnswered (drawn Z.left Z.stops summary.old summary.new) (inputs_of (sources S.left S.stops inputs.old inputs.new)) (taken K.told K.stops out.old out.new)) }
    ensures fault { IfErr result (IsAnswerFault (drawn Z.left Z.stops summary.old summary.new) (sources S.left S.stops inputs.old inputs.new) (taken K.told K.stops out.old out.new)) }
    ensures kept { IfErr result (λ fault. fault ≢ ToolFault.Write → out.new ≡ out.old) }
{
    let asked = read_summary(alloc, summary, 1)?;
    match join_all(alloc, inputs) {
        Ok(mut record) => put_answer(&mut record, &asked, out),
        Err(fault) => Err(behind_one(fault)),
    }
}
