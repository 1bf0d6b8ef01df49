ghost use Rattle.std.specs.Prelude.{◌≡◌};
ghost use Rattle.svid_c.specs.Live.{HandleCalls};
ghost use Rattle.svid_c.specs.Log.{GoesOn, Marks, is_accepting, mark_in, mark_seen};

use crate::live::Live;
use crate::told::{SvidTold, told_rows};
use crate::validator::{SvidValidator, only};
use std::alloc::Global;
use svid_log::{Mark, Member};
use svid_replay::UseStore;

/// The position of a validator in a log.
#[repr(C)]
#[derive(Drop)]
pub struct SvidMark {
    /// The position of the last value that the validator has read to its end. At the start: the position before the first value that the log still
    /// has, and 0 if it has all.
    pub passed: u64,
    /// How many uses of the next value it has read.
    pub begun: usize,
    /// The moment before which it accepts nothing, in seconds: everything that it missed has expired by then.
    pub deaf: u64,
}

// The mark of a member.
pub(crate) fn mark_in(mark: &SvidMark) -> Mark
    ensures { result ≡ mark_in mark.now }
{
    Mark {
        passed: mark.passed,
        begun: mark.begun,
        deaf: mark.deaf,
    }
}

// A member's position, and whether it accepts first claims of its own at a moment.
fn mark_seen<S: UseStore>(member: &Member<S>) -> SvidMark
    ensures { result ≡ mark_seen member.now }
{
    let mark = member.mark();
    SvidMark {
        passed: mark.passed,
        begun: mark.begun,
        deaf: mark.deaf,
    }
}

fn is_accepting<S: UseStore>(member: &Member<S>, moment: u64) -> bool
    ensures { result ≡ is_accepting member.now moment }
{
    member.is_ready() && moment >= member.mark().deaf
}

fn tell_mark(live: &Live, mark: &mut SvidMark, told: &mut SvidTold) -> u32
    ensures { Marks result told.new mark.old mark.new live.now live.now }
{
    let Some(member) = &live.member else {
        return only(19, told);
    };
    *mark = mark_seen(member);
    *told = told_rows(0, is_accepting(member, live.validator.replay().moment()));
    0
}

fn go_on(live: &mut Live, told: &mut SvidTold) -> u32
    ensures { GoesOn result told.new live.old live.new }
{
    let Some(member) = &mut live.member else {
        return only(19, told);
    };
    member.go_on();
    only(0, told)
}

/// Reports the validator's position in its log, and returns 0. `told.more` is 1 if it accepts the first claims of its own that it reads now: it has
/// read everything that its earlier lives may have read, and the record's moment has reached `deaf`. 19 if it reads no log, 5 if it is closed: `mark`
/// is unchanged.
#[unsafe(no_mangle)]
pub extern "C" fn svid_validator_mark(
    alloc: Global,
    v: &mut SvidValidator,
    mark: &mut SvidMark,
    told: &mut SvidTold,
) -> u32
    ensures { HandleCalls (mark.new ≡ mark.old) (Marks result told.new mark.old mark.new) result told.new v.old.handle.live v.new.handle.live }
{
    let Some(live) = v.take(alloc) else {
        return only(5, told);
    };
    let status = tell_mark(&live, mark, told);
    v.put(live);
    status
}

/// Makes the validator accept claims although it missed values of its log that may still be live, and returns 0. A token whose claim it missed may
/// then be accepted twice. 19 if it reads no log, 5 if it is closed.
#[unsafe(no_mangle)]
pub extern "C" fn svid_validator_go_on(
    alloc: Global,
    v: &mut SvidValidator,
    told: &mut SvidTold,
) -> u32
    ensures { HandleCalls (Unit {0}) (GoesOn result told.new) result told.new v.old.handle.live v.new.handle.live }
{
    let Some(mut live) = v.take(alloc) else {
        return only(5, told);
    };
    let status = go_on(&mut live, told);
    v.put(live);
    status
}
