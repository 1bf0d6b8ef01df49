ghost use Rattle.std.specs.Prelude.{◌≡◌};
ghost use Rattle.svid_c.specs.Live.{CallsAt, IsRest, Takes};

use crate::inputs::join_lent;
use crate::live::Live;
use crate::told::{SvidTold, told_length};
use crate::validator::{SvidValidator, only};
use crate::writing::refuse;
use std::alloc::Global;
use svid_check::TakeFault;
use svid_replay::{Record, RunUses};

// Joins the record with messages.
fn take(alloc: Global, live: &mut Live, now: u64, messages: &[u8], told: &mut SvidTold) -> u32
    ensures does { Takes now messages.now result told.new live.old.validator live.new.validator }
    ensures rest { IsRest live.old live.new }
{
    let mut record = Record::new(RunUses::without_keys(alloc));
    if let Err(fault) = join_lent(alloc, messages, 1, &mut record) {
        return refuse(fault, told);
    }
    *told = told_length(0);
    match live.validator.take_record(now, &record) {
        Ok(()) => 0,
        Err(TakeFault::TooFarAhead) => 8,
        Err(TakeFault::OutOfMemory) => 2,
    }
}

/// Takes messages of other validators at the moment `now`, in seconds: the record is advanced to it, and joined with all of them.
/// Skips summaries. Returns 0.
///
/// 8 if a message's moment is past `now` and `ahead` together: the record is advanced, and nothing is joined. 3 or a message fault
/// if the bytes are not a sequence of messages, and `told` says where: nothing happened. 2 if out of memory: a part of them may be
/// joined, and you can repeat the call. 5 if the validator is closed.
#[unsafe(no_mangle)]
pub extern "C" fn svid_validator_take(
    alloc: Global,
    v: &mut SvidValidator,
    now: u64,
    messages: &[u8],
    told: &mut SvidTold,
) -> u32
    ensures { CallsAt now (Unit {0}) (Takes now messages.now result told.new) result told.new v.old.handle.live v.new.handle.live }
{
    let mut live = match v.take_at(alloc, now) {
        Ok(live) => live,
        Err(status) => return only(status, told),
    };
    let status = take(alloc, &mut live, now, messages, told);
    v.put(live);
    status
}
