ghost use Rattle.std.specs.Prelude.{◌≡◌, ◌≤◌, ◌++◌, IfErr, IfOk, drop, length, map};
ghost use Rattle.svid_c.specs.Entries.{AreRead, ReadsEntries, entry_seen};
ghost use Rattle.svid_c.specs.Inputs.{IsRefused};

use crate::entries::{SvidEntry, entry_seen};
use crate::inputs::join_lent;
use crate::told::{SvidTold, told_length};
use crate::writing::refuse;
use std::alloc::Global;
use svid_log::Value;
use svid_replay::{Record, RunUses, Use};
use svid_share::{MOST_BYTES, ToolFault};

// The fault of bytes that are not messages, or too many, as the calls report it that join messages to a record. (Bytes that those calls
// accept have been read, so the last arm is never taken.)
fn why_refused(alloc: Global, messages: &[u8]) -> ToolFault
    ensures { IsRefused 1 messages.now result }
{
    let mut record = Record::new(RunUses::without_keys(alloc));
    match join_lent(alloc, messages, 1, &mut record) {
        Err(fault) => fault,
        Ok(()) => ToolFault::OutOfMemory,
    }
}

// The uses of the batches in messages, in their order.
fn uses_in(alloc: Global, messages: &[u8]) -> Result<Vec<Use>, ToolFault>
    ensures ok { IfOk result (λ uses. AreRead messages.now uses.items) }
    ensures fault { IfErr result (IsRefused 1 messages.now) }
{
    if messages.len() > MOST_BYTES {
        return Err(why_refused(alloc, messages));
    }
    let value = match Value::read(alloc, messages) {
        Ok(value) => value,
        Err(_) => return Err(ToolFault::OutOfMemory),
    };
    match value.fault {
        None => Ok(value.uses),
        Some(_) => Err(why_refused(alloc, messages)),
    }
}

fn put_entries(uses: &[Use], out: &mut [SvidEntry])
    requires { length uses.now ≤ length out.old }
    ensures { out.new ≡ map entry_seen uses.now ++ drop (length uses.now) out.old }
{
    for (i, used) in uses.iter().enumerate() {
        out[i] = entry_seen(*used);
    }
}

/// Writes the uses and withdrawals of the batches in messages to the start of `out`, in the order of the messages. Summaries have none.
///
/// Returns 0, with their number in `told.len`; or 1 if `out` has room for fewer, with the number it needs in `told.len`. 3 or a message fault if
/// the bytes are not a sequence of messages, and `told` says where; 2 if out of memory. Unless the status is 0, `out` is unchanged.
#[unsafe(no_mangle)]
pub extern "C" fn svid_entries_read(
    alloc: Global,
    messages: &[u8],
    out: &mut [SvidEntry],
    told: &mut SvidTold,
) -> u32
    ensures { ReadsEntries messages.now result told.new out.old out.new }
{
    let uses = match uses_in(alloc, messages) {
        Ok(uses) => uses,
        Err(fault) => return refuse(fault, told),
    };
    let uses: &[Use] = &uses;
    *told = told_length(uses.len());
    if uses.len() > out.len() {
        return 1;
    }
    put_entries(uses, out);
    0
}
