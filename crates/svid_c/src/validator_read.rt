ghost use Rattle.std.specs.Prelude.{◌≡◌, ◌≢◌, ◌≤◌, ◌++◌, IfOk, drop, false, length, take, true};
ghost use Rattle.svid_log.specs.declared.order.Order.TheVariants.{Gap};
ghost use Rattle.svid_log.specs.Members.{order_of};
ghost use Rattle.svid_c.specs.Live.{HandleCallsAt};
ghost use Rattle.svid_c.specs.Log.{ReadsValue, fate_number, fate_seen, fates_seen, nothing_read, order_number, reading_seen, value_number};

use crate::check::{SvidUse, use_seen};
use crate::live::Live;
use crate::told::{SvidTold, reason_number};
use crate::validator::{SvidValidator, only};
use crate::validator_log::told_value;
use std::alloc::{AllocError, Global};
use svid_log::{Fate, Order, Reading, Rest, Value};
use svid_replay::Use;
use svid_wire::WireFault;

/// A use of a value of a log, and its fate.
#[repr(C)]
#[derive(Drop)]
pub struct SvidFate {
    /// The use.
    pub used: SvidUse,
    /// 0 if it is the first claim of its token and the validator's own: it accepts the token. 1 if it is the first claim of its token, and the
    /// validator does not accept it, for one of three reasons: the claim has another validator ID, an earlier life of the validator may have read it,
    /// or the validator missed values. 2 if it is a withdrawal. The record gains all of these.
    ///
    /// 8 if its time is too far ahead, 118 if it has expired, 124 if the token was withdrawn, 125 if the token was used, or claimed earlier in the
    /// log.
    pub fate: u64,
}

/// What a call did that reads a value of a log.
#[repr(C)]
#[derive(Drop)]
pub struct SvidReading {
    /// 0 if the value was read before, 1 if it is the next one, 2 if values before it are missing.
    pub order: u64,
    /// The index of the first use that the call read, counted from 0.
    pub from: usize,
    /// How many uses the call read and wrote.
    pub count: usize,
}

// The number of a fate.
fn fate_number(fate: Fate) -> u64
    ensures { result ≡ fate_number fate }
{
    match fate {
        Fate::Accepted => 0,
        Fate::First => 1,
        Fate::Withdrawal => 2,
        Fate::TooFarAhead => 8,
        Fate::Expired => 118,
        Fate::Withdrawn => 124,
        Fate::Replayed => 125,
    }
}

fn fate_seen(used: Use, fate: Fate) -> SvidFate
    ensures { result ≡ fate_seen used fate }
{
    SvidFate {
        used: use_seen(used),
        fate: fate_number(fate),
    }
}

fn order_number(order: Order) -> u64
    ensures { result ≡ order_number order }
{
    match order {
        Order::Again => 0,
        Order::Next => 1,
        Order::Gap => 2,
    }
}

fn reading_seen(reading: &Reading) -> SvidReading
    ensures { result ≡ reading_seen reading.now }
{
    SvidReading {
        order: order_number(reading.order),
        from: reading.from,
        count: reading.count,
    }
}

fn nothing_read() -> SvidReading
    ensures { result ≡ nothing_read }
{
    SvidReading {
        order: 0,
        from: 0,
        count: 0,
    }
}

// How a reading ended.
fn value_number(fault: Option<WireFault>, rest: Rest) -> u32
    ensures { result ≡ value_number fault rest }
{
    match (fault, rest) {
        (Some(fault), _) => reason_number(fault.reason),
        (None, Rest::Nothing) => 0,
        (None, Rest::NoRoom) => 1,
        (None, Rest::NoMemory) => 2,
    }
}

// Writes uses with their fates.
fn put_fates(uses: &[Use], fates: &[Fate], out: &mut [SvidFate])
    requires { (length uses.now ≤ length fates.now) × (length uses.now ≤ length out.old) }
    ensures { out.new ≡ fates_seen uses.now fates.now ++ drop (length uses.now) out.old }
{
    for (i, used) in uses.iter().enumerate() {
        out[i] = fate_seen(*used, fates[i]);
    }
}

// Room for so many fates.
fn room_for(alloc: Global, count: usize) -> Result<Vec<Fate>, AllocError>
    ensures { IfOk result (λ room. length room.items ≡ count) }
{
    [Fate::Expired].repeat(alloc, count)
}

// Whether values are missing before this position, if `passed` is the last one that was read to its end.
fn is_behind_gap(passed: u64, position: u64) -> bool
    ensures yes { result ≡ true → order_of passed position ≡ Gap }
    ensures no { result ≡ false → order_of passed position ≢ Gap }
{
    position > passed && position - 1 > passed
}

// So many uses of a value, from this index on.
fn part(uses: &[Use], from: usize, count: usize) -> &[Use]
    requires { count ≤ length (drop from uses.now) }
    ensures { result.now ≡ take count (drop from uses.now) }
{
    if from >= uses.len() {
        return &[];
    }
    uses.split_at(from).1.split_at(count).0
}

// Reads a value. If `now` is 0, there is no time for it.
fn read_value(
    alloc: Global,
    live: &mut Live,
    now: u64,
    position: u64,
    value: &[u8],
    out: &mut [SvidFate],
    reading: &mut SvidReading,
    told: &mut SvidTold,
) -> u32
    ensures { ReadsValue now position value.now result told.new reading.new out.old out.new live.old live.new }
{
    *reading = nothing_read();
    let Some(member) = &mut live.member else {
        return only(19, told);
    };
    let passed = member.mark().passed;
    if now == 0 && is_behind_gap(passed, position) {
        return only(9, told);
    }
    let value = match Value::read(alloc, value) {
        Ok(value) => value,
        Err(_) => return only(2, told),
    };
    if position <= passed {
        *told = told_value(value.fault);
        return value_number(value.fault, Rest::Nothing);
    }
    let mut fates = match room_for(alloc, value.uses.len().min(out.len())) {
        Ok(fates) => fates,
        Err(_) => return only(2, told),
    };
    let room: &mut [Fate] = &mut fates;
    let read = live
        .validator
        .read_log(member, now, position, &value.uses, room);
    put_fates(part(&value.uses, read.from, read.count), room, out);
    *reading = reading_seen(&read);
    *told = told_value(value.fault);
    value_number(value.fault, read.rest)
}

/// Reads the value of the log at `position` at the moment `now`, in seconds, and writes its uses with their fates to `out`. It begins where the
/// validator is in the value, and writes as many as have room. `reading` says how many, and how the value relates to those that were read before.
/// Positions are counted from 1. If `now` is 0, the record's moment is not advanced.
///
/// Returns 0 if the value is read to its end. A value that was read before is skipped, and also answers 0. 1 if `out` is full, 2 if out of memory:
/// repeat the call to continue. A message fault if the value is not a sequence of messages: it counts as empty for every validator and is skipped, and
/// `told.offset` says where the fault is in its message. 19 if the validator reads no log; 5 if it is closed; 9 if `now` is more than `step` past the
/// record's moment, or if values before this one are missing and `now` is 0. For these three nothing happened.
#[unsafe(no_mangle)]
pub extern "C" fn svid_validator_read(
    alloc: Global,
    v: &mut SvidValidator,
    now: u64,
    position: u64,
    value: &[u8],
    out: &mut [SvidFate],
    reading: &mut SvidReading,
    told: &mut SvidTold,
) -> u32
    ensures { HandleCallsAt now ((out.new ≡ out.old) × (reading.new ≡ nothing_read)) (ReadsValue now position value.now result told.new reading.new out.old out.new)
        result told.new v.old.handle.live v.new.handle.live }
{
    let mut live = match v.take_at(alloc, now) {
        Ok(live) => live,
        Err(status) => {
            *reading = nothing_read();
            return only(status, told);
        }
    };
    let status = read_value(alloc, &mut live, now, position, value, out, reading, told);
    v.put(live);
    status
}
