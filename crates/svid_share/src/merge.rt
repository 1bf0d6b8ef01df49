ghost use Rattle.std.specs.Prelude.{◌≡◌, ◌≢◌, OnOk, IfOk, IfErr};
ghost use Rattle.svid_wire.specs.RecordText.{record_text};
ghost use Rattle.svid_wire.specs.Streams.{taken};
ghost use Rattle.svid_share.specs.Inputs.{IsJoinFault, inputs_of, sources};
ghost use Rattle.svid_share.specs.Merge.{merge_due};
ghost use Rattle.svid_share.specs.Written.{IsDue, IsEngineFault, IsWritten};

use crate::ToolFault;
use crate::inputs::record_of;
use crate::parts::put_record;
use crate::report::raise_to;
use std::alloc::Global;
use svid_replay::{Record, RunUses};
use svid_wire::{Sink, Source};

// The join of the batches of all inputs, advanced to the moment.
fn join_all<S: Source>(
    alloc: Global,
    inputs: &mut [S],
    now: Option<u64>,
) -> Result<Record<RunUses>, ToolFault>
    ensures ok { IfOk result (λ r. IsDue (merge_due now) (inputs_of (sources S.left S.stops inputs.old inputs.new)) (record_text r)) }
    ensures fault { IfErr result (IsJoinFault (sources S.left S.stops inputs.old inputs.new)) }
{
    let mut record = record_of(alloc, inputs)?;
    raise_to(&mut record, now);
    Ok(record)
}

/// Joins the batches of all inputs, advances this record to the moment `now` (in seconds) where one is given, and writes it as
/// the texts of its parts: batches of its moment that hold its uses in rising order, 65,536 in each but the last; one with no use
/// where the record has none. Leaves out what has expired by its moment. Skips summaries among the inputs.
///
/// The output depends only on which batches there are, and the moment. The inputs are read and judged in their order, before
/// anything is written. Errors, for the first input that is refused: `Wire` where it does not parse as whole messages, `Read`
/// where it could not be read, `TooMuch` where it has more than 67,108,864 bytes. Further errors: `OutOfMemory`, and `Write`
/// where the sink stopped. After `Write` part of the texts went out, after the others nothing. A bad field that came before a
/// failed read or the limit is reported instead of these. The inputs after a refused one are as they were.
pub fn run_merge<S: Source, K: Sink>(
    alloc: Global,
    inputs: &mut [S],
    now: Option<u64>,
    out: &mut K,
) -> Result<(), ToolFault>
    ensures ok { OnOk result (IsWritten (merge_due now) (inputs_of (sources S.left S.stops inputs.old inputs.new)) (taken K.told K.stops out.old out.new)) }
    ensures fault { IfErr result (IsEngineFault (merge_due now) (sources S.left S.stops inputs.old inputs.new) (taken K.told K.stops out.old out.new)) }
    ensures kept { IfErr result (λ fault. fault ≢ ToolFault.Write → out.new ≡ out.old) }
{
    let record = join_all(alloc, inputs, now)?;
    put_record(&record, out)
}
