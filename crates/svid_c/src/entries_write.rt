ghost use Rattle.std.specs.Prelude.{◌≡◌, IfErr, IfOk, map};
ghost use Rattle.svid_uses.specs.Texts.{texts_of};
ghost use Rattle.svid_uses.specs.Time.{IsUsesFault};
ghost use Rattle.svid_c.specs.Entries.{AreWritten, WritesEntries, told_uses, use_of, uses_number, uses_of};

use crate::entries::{SvidEntry, use_of};
use crate::told::SvidTold;
use crate::writing::put;
use std::alloc::{AllocError, Global};
use svid_replay::{Batch, Use};
use svid_uses::{UsesFault, batches_of, write_batches};
use svid_wire::MemSink;

// The uses of entries.
fn uses_of(alloc: Global, entries: &[SvidEntry]) -> Result<Vec<Use>, AllocError>
    ensures { IfOk result (λ uses. uses.items ≡ map use_of entries.now) }
{
    let mut uses = Vec::with_capacity(alloc, entries.len())?;
    for entry in entries {
        uses.push(use_of(entry))?;
    }
    Ok(uses)
}

// The texts of batches.
fn text_of(alloc: Global, batches: &[Batch]) -> Result<MemSink, UsesFault>
    ensures ok { IfOk result (λ sink. sink.bytes ≡ texts_of batches.now) }
    ensures fault { IfErr result (λ fault. fault ≡ UsesFault.OutOfMemory) }
{
    let mut sink = MemSink::new(alloc, 65_536, None);
    match write_batches(batches, &mut sink) {
        Ok(()) => Ok(sink),
        Err(_) => Err(UsesFault::OutOfMemory),
    }
}

// The messages with these uses.
pub(crate) fn messages_of(alloc: Global, uses: &[Use]) -> Result<MemSink, UsesFault>
    ensures ok { IfOk result (λ sink. AreWritten uses.now sink.bytes) }
    ensures fault { IfErr result (IsUsesFault uses.now) }
{
    let batches = match batches_of(alloc, uses) {
        Ok(batches) => batches,
        Err(fault) => return Err(fault),
    };
    match text_of(alloc, &batches) {
        Ok(sink) => Ok(sink),
        Err(_) => Err(UsesFault::OutOfMemory),
    }
}

fn uses_number(fault: UsesFault) -> u32
    ensures { result ≡ uses_number fault }
{
    match fault {
        UsesFault::OutOfMemory => 2,
        UsesFault::Expired(_) => 15,
    }
}

fn told_uses(fault: UsesFault) -> SvidTold
    ensures { result ≡ told_uses fault }
{
    let offset = match fault {
        UsesFault::OutOfMemory => 0,
        UsesFault::Expired(index) => index,
    };
    SvidTold {
        len: 0,
        input: 0,
        message: 0,
        offset,
        more: 0,
    }
}

fn refuse_uses(fault: UsesFault, told: &mut SvidTold) -> u32
    ensures number { result ≡ uses_number fault }
    ensures told { told.new ≡ told_uses fault }
{
    *told = told_uses(fault);
    uses_number(fault)
}

/// Writes entries as messages to the start of `out`: a batch for each time `at`, in rising order of the times, and several batches if more
/// than 65,536 entries have one time. The entries may come in any order. One that comes twice is written once.
///
/// Returns 0, with the length of the messages in `told.len`; or 1 if they are longer than `out`. 15 if an entry expires at its time `at` or
/// before: no message can hold it, and `told.offset` is the index of the first such entry, counted from 0. 2 if out of memory. Unless the
/// status is 0, `out` is unchanged.
#[unsafe(no_mangle)]
pub extern "C" fn svid_entries_write(
    alloc: Global,
    entries: &[SvidEntry],
    out: &mut [u8],
    told: &mut SvidTold,
) -> u32
    ensures { WritesEntries entries.now result told.new out.old out.new }
{
    let uses = match uses_of(alloc, entries) {
        Ok(uses) => uses,
        Err(_) => return refuse_uses(UsesFault::OutOfMemory, told),
    };
    match messages_of(alloc, &uses) {
        Ok(sink) => put(sink.bytes(), out, told),
        Err(fault) => refuse_uses(fault, told),
    }
}
