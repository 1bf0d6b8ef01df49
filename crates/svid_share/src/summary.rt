ghost use Rattle.std.specs.Prelude.{◌≡◌, ◌≢◌, OnOk, IfOk, IfErr};
ghost use Rattle.svid_wire.specs.Streams.{taken};
ghost use Rattle.svid_wire.specs.SummaryText.{summary_text};
ghost use Rattle.svid_share.specs.Inputs.{IsJoinFault, inputs_of, sources};
ghost use Rattle.svid_share.specs.Summary.{summary_due};
ghost use Rattle.svid_share.specs.Written.{IsDue, IsEngineFault, IsWritten};

use crate::ToolFault;
use crate::inputs::record_of;
use std::alloc::Global;
use svid_replay::Summary;
use svid_wire::{Sink, Source, write_summary};

// The summary of the join of the batches of all inputs.
fn summary_of_inputs<S: Source>(alloc: Global, inputs: &mut [S]) -> Result<Summary, ToolFault>
    ensures ok { IfOk result (λ summary. IsDue summary_due (inputs_of (sources S.left S.stops inputs.old inputs.new)) (summary_text summary)) }
    ensures fault { IfErr result (IsJoinFault (sources S.left S.stops inputs.old inputs.new)) }
{
    let record = record_of(alloc, inputs)?;
    Ok(record.summary())
}

/// Joins the batches of all inputs, and writes the summary of this record: its moment, and the digest of each of its 256 buckets.
/// Skips summaries among the inputs.
///
/// The output depends only on which batches there are. The inputs are read and judged in their order, before anything is written.
/// Errors, for the first input that is refused: `Wire` where it does not parse as whole messages, `Read` where it could not be
/// read, `TooMuch` where it has more than 67,108,864 bytes. Further errors: `OutOfMemory`, and `Write` where the sink stopped.
/// After `Write` part of the text went out, after the others nothing. A bad field that came before a failed read or the limit is
/// reported instead of these. The inputs after a refused one are as they were.
pub fn run_summary<S: Source, K: Sink>(
    alloc: Global,
    inputs: &mut [S],
    out: &mut K,
) -> Result<(), ToolFault>
    ensures ok { OnOk result (IsWritten summary_due (inputs_of (sources S.left S.stops inputs.old inputs.new)) (taken K.told K.stops out.old out.new)) }
    ensures fault { IfErr result (IsEngineFault summary_due (sources S.left S.stops inputs.old inputs.new) (taken K.told K.stops out.old out.new)) }
    ensures kept { IfErr result (λ fault. fault ≢ ToolFault.Write → out.new ≡ out.old) }
{
    let summary = summary_of_inputs(alloc, inputs)?;
    match write_summary(&summary, out) {
        Ok(()) => Ok(()),
        Err(_) => Err(ToolFault::Write),
    }
}
