ghost use Rattle.std.specs.Prelude.{◌≡◌, ◌≢◌, ◌≤◌, ◌++◌, ◌⊎◌, length, OnOk, OnErr, IfOk, IfErr};
ghost use Rattle.std.specs.List.{flat_map};
ghost use Rattle.svid_replay.specs.Sets.{rising};
ghost use Rattle.svid_wire.specs.Streams.{TookAll, TookPart, taken};
ghost use Rattle.svid_share.specs.Pages.{Passes};
ghost use Rattle.svid_share.specs.Report.{number_line, report_due, report_of, report_text, twice_line, use_line};
ghost use Rattle.svid_share.specs.Inputs.{IsJoinFault, inputs_of, sources};
ghost use Rattle.svid_share.specs.Joined.{raised_to};
ghost use Rattle.svid_share.specs.Written.{IsDue, IsEngineFault, IsWritten};
ghost use Rattle.svid_share.specs.declared.tool_fault.ToolFault.TheVariants.{OutOfMemory, Write};

use crate::ToolFault;
use crate::inputs::record_of;
use crate::line::{number_line, twice_line, use_line};
use crate::page::Page;
use std::alloc::Global;
use svid_replay::{Record, RunUses, Twice, UseStore};
use svid_wire::{Sink, Source};

// Puts a number and its name.
fn put_number<K: Sink>(
    page: &mut Page,
    name: &str,
    number: u64,
    out: &mut K,
) -> Result<(), ToolFault>
    requires { length name.now ≤ 100 }
    ensures ok { OnOk result (Passes (taken K.told K.stops out.old out.new) page.old (number_line name.now number) page.new) }
    ensures fault { IfErr result (λ e. e ≡ Write) }
    ensures part { OnErr result (TookPart (taken K.told K.stops out.old out.new) (page.old ++ number_line name.now number)) }
{
    page.put(out, number_line(name, number).bytes())
}

// Puts the lines of the uses, in the order of the walk.
fn put_uses<T: UseStore, K: Sink>(
    page: &mut Page,
    state: &Record<T>,
    out: &mut K,
) -> Result<(), ToolFault>
    ensures ok { OnOk result (Passes (taken K.told K.stops out.old out.new) page.old (flat_map use_line (rising state.now.uses)) page.new) }
    ensures fault { IfErr result (λ e. e ≡ Write) }
    ensures part { OnErr result (TookPart (taken K.told K.stops out.old out.new) (page.old ++ flat_map use_line (rising state.now.uses))) }
{
    for used in state.walk() {
        page.put(out, use_line(&used).bytes())?;
    }
    Ok(())
}

fn put_twice<K: Sink>(page: &mut Page, twice: &[Twice], out: &mut K) -> Result<(), ToolFault>
    ensures ok { OnOk result (Passes (taken K.told K.stops out.old out.new) page.old (flat_map twice_line twice.now) page.new) }
    ensures fault { IfErr result (λ e. e ≡ Write) }
    ensures part { OnErr result (TookPart (taken K.told K.stops out.old out.new) (page.old ++ flat_map twice_line twice.now)) }
{
    for used_twice in twice {
        page.put(out, twice_line(used_twice).bytes())?;
    }
    Ok(())
}

// Puts the text of a report, line by line.
fn put_lines<T: UseStore, K: Sink>(
    state: &Record<T>,
    twice: &[Twice],
    out: &mut K,
) -> Result<(), ToolFault>
    ensures ok { OnOk result (TookAll (taken K.told K.stops out.old out.new) (report_text state.now.moment (rising state.now.uses) twice.now)) }
    ensures fault { IfErr result (λ e. e ≡ Write) }
    ensures part { OnErr result (TookPart (taken K.told K.stops out.old out.new) (report_text state.now.moment (rising state.now.uses) twice.now)) }
{
    let mut page = Page::new();
    put_number(&mut page, "moment", state.moment(), out)?;
    put_number(&mut page, "uses", state.len() as u64, out)?;
    put_uses(&mut page, state, out)?;
    put_number(&mut page, "twice", twice.len() as u64, out)?;
    put_twice(&mut page, twice, out)?;
    page.flush(out)?;
    Ok(())
}

/// Writes the report of a record: its moment, its uses, and the keys that are used more than once; as
/// [`run_report`] writes it.
///
/// `OutOfMemory` before anything is written, and `Write` where the sink stopped: then part of the report went out.
pub fn put_report<T: UseStore, K: Sink>(
    alloc: Global,
    state: &Record<T>,
    out: &mut K,
) -> Result<(), ToolFault>
    ensures ok { OnOk result (TookAll (taken K.told K.stops out.old out.new) (report_of state.now)) }
    ensures part { IfErr result (λ fault. (fault ≡ Write) × TookPart (taken K.told K.stops out.old out.new) (report_of state.now) ⊎ (fault ≡ OutOfMemory) × (out.new ≡ out.old)) }
{
    let twice = state.report(alloc)?;
    put_lines(state, &twice, out)
}

// Advances a record to a moment, where one is given.
pub(crate) fn raise_to<T: UseStore>(target: &mut Record<T>, now: Option<u64>)
    ensures { target.new ≡ raised_to now target.old }
{
    if let Some(now) = now {
        target.raise(now);
    }
}

// The join of the batches of all inputs, advanced to the moment, and its keys that are used more than once.
fn join_all<S: Source>(
    alloc: Global,
    inputs: &mut [S],
    now: Option<u64>,
) -> Result<(Record<RunUses>, Vec<Twice>), ToolFault>
    ensures ok { IfOk result (λ r. IsDue (report_due now) (inputs_of (sources S.left S.stops inputs.old inputs.new)) (report_text r.0.moment (rising r.0.uses) r.1.items)) }
    ensures fault { IfErr result (IsJoinFault (sources S.left S.stops inputs.old inputs.new)) }
{
    let mut record = record_of(alloc, inputs)?;
    raise_to(&mut record, now);
    let twice = record.report(alloc)?;
    Ok((record, twice))
}

/// Joins the batches of all inputs, advances this record to the moment `now` (in seconds) where one is given, and writes its
/// moment, its uses, and the keys that are used more than once. Skips summaries among the inputs.
///
/// The inputs are read and judged in their order, before anything is written. Errors, for the first input that is refused: `Wire`
/// where it does not parse as whole messages, `Read` where it could not be read, `TooMuch` where it has more than 67,108,864
/// bytes. Further errors: `OutOfMemory`, and `Write` where the sink stopped. After `Write` part of the text went out, after the
/// others nothing. A bad field that came before a failed read or the limit is reported instead of these. The inputs after a
/// refused one are as they were.
pub fn run_report<S: Source, K: Sink>(
    alloc: Global,
    inputs: &mut [S],
    now: Option<u64>,
    out: &mut K,
) -> Result<(), ToolFault>
    ensures ok { OnOk result (IsWritten (report_due now) (inputs_of (sources S.left S.stops inputs.old inputs.new)) (taken K.told K.stops out.old out.new)) }
    ensures fault { IfErr result (IsEngineFault (report_due now) (sources S.left S.stops inputs.old inputs.new) (taken K.told K.stops out.old out.new)) }
    ensures kept { IfErr result (λ fault. fault ≢ ToolFault.Write → out.new ≡ out.old) }
{
    let (record, twice) = join_all(alloc, inputs, now)?;
    put_lines(&record, &twice, out)
}
