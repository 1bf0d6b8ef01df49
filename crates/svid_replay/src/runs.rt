//! Runs that make up one set: each has at least about twice the uses of the next, so that they are few.
ghost use Rattle.std.specs.Prelude.{◌≡◌, ◌+◌, ◌<◌, ◌≤◌, ◌∷◌, ◌^◌, [], None, false, length, IsTrue, IfOk, OnOk, OnErr, option_copied};
ghost use Rattle.std.specs.List.{AllByRecursion, list_any};
ghost use Rattle.std.specs.Ordering.{eq_by_cmp};
ghost use Rattle.svid_replay.specs.Indexed.{is_sought};
ghost use Rattle.svid_replay.specs.Runs.{all_of, least_from, least_of, live_of, new_among, AreMerged, ArePutIn, IsHalved};
ghost use Rattle.svid_replay.specs.Use.{IsRising, use_cmp};
ghost use Rattle.svid_replay.specs.Uses.{uses_in};
ghost use Rattle.svid_replay.specs.Walks.{next_few};

use crate::Use;
use crate::near::Near;
use crate::room::Room;
use crate::run::Run;
use crate::sorted::rest_after;
use std::alloc::{AllocError, Global};

/// The last run is closed when it has this many uses.
pub(crate) const FRONT: usize = 256;

// There are at most this many runs. If there are, new uses go into the last, even if it is closed.
const MOST: usize = 64;

// How many runs are left when all but the first are merged for walks. The first is mostly half of the set, so the merge takes
// half of the set's memory once more.
const WALKED: usize = 2;

// A closed run is merged with the one before it while that has fewer than this many times its uses.
const FACTOR: usize = 2;

// Whether one of the runs has the use.
pub(crate) fn any_holds(runs: &[Run], used: &Use) -> bool
    ensures { result ≡ list_any (eq_by_cmp use_cmp used.now) (all_of runs.now) }
{
    for run in runs {
        if run.holds(used) {
            return true;
        }
    }
    false
}

// Whether one of the runs has a use of this key, or a withdrawal of it.
pub(crate) fn any_has(runs: &[Run], key: &[u8; 32], withdrawn: bool) -> bool
    ensures { result ≡ list_any (is_sought withdrawn key.now) (all_of runs.now) }
{
    for run in runs {
        if run.has(key, withdrawn) {
            return true;
        }
    }
    false
}

// Those of the uses that no run has. Takes no memory where all of them are there.
pub(crate) fn new_uses(alloc: Global, runs: &[Run], uses: &[Use]) -> Result<Vec<Use>, AllocError>
    ensures { IfOk result (λ new. new.items ≡ new_among (all_of runs.now) uses.now) }
{
    let mut new = Vec::new(alloc);
    for used in uses {
        if !any_holds(runs, used) {
            new.push(*used)?;
        }
    }
    Ok(new)
}

// The lesser of two uses that may be there.
fn lesser<'a>(one: Option<&'a Use>, other: Option<&'a Use>) -> Option<&'a Use>
    ensures { option_copied result ≡ least_of (option_copied one.entry) (option_copied other.entry) }
{
    match one {
        None => other,
        Some(a) => match other {
            None => Some(a),
            Some(b) => if b.cmp(a).is_lt() { Some(b) } else { Some(a) },
        },
    }
}

// The least of the next uses of all runs; the next use of each run is mostly near an index. The last index serves all further
// runs.
pub(crate) fn least_near(runs: &[Run], after: &Option<Use>, near: &mut Near) -> Option<Use>
    ensures { result ≡ least_from after.now runs.now None }
{
    let mut least = None;
    let mut at = 0;
    for run in runs {
        least = lesser(least, run.next_near(after, &mut near.indexes[at]));
        at = (at + 1).min(7);
    }
    least.copied()
}

// Fills an empty room with the next uses of the runs.
pub(crate) fn merge_next(runs: &[Run], after: Option<Use>, room: &mut Room)
    requires { room.old ≡ [] }
    ensures { room.new ≡ next_few (uses_in (all_of runs.now)) after }
{
    for run in runs {
        room.merge(rest_after(run.uses(), after));
    }
}

// Whether new uses go into the last run.
fn goes_on(runs: &[Run]) -> bool
    ensures some { IsTrue result → 0 < length runs.now }
    ensures room { result ≡ false → length runs.now ≤ 64 → length runs.now < 64 }
{
    match runs {
        [] => false,
        [.., last] => last.is_open() || runs.len() >= MOST,
    }
}

// Puts a use that is in no run into the last run, or into a new one.
pub(crate) fn put_one(alloc: Global, runs: &mut Vec<Run>, new: Use) -> Result<(), AllocError>
    ensures ok { OnOk result (ArePutIn (new ∷ []) runs.old.items runs.new.items) }
    ensures err { OnErr result (runs.new.items ≡ runs.old.items) }
{
    if goes_on(runs) {
        let last = runs.len() - 1;
        let run = &mut runs[last];
        run.insert(new)?;
        return Ok(());
    }
    let run = Run::of(alloc, Vec::from_slice(alloc, &[new])?)?;
    runs.push(run)?;
    Ok(())
}

// Puts rising uses into the last run, or into a new one.
pub(crate) fn put_all(alloc: Global, runs: &mut Vec<Run>, new: Vec<Use>) -> Result<(), AllocError>
    requires { IsRising new.items }
    ensures ok { OnOk result (ArePutIn new.items runs.old.items runs.new.items) }
    ensures err { OnErr result (runs.new.items ≡ runs.old.items) }
{
    let mut run = Run::of(alloc, new)?;
    if goes_on(runs) {
        let last = runs.len() - 1;
        let front = &mut runs[last];
        front.absorb(alloc, &mut run)?;
        return Ok(());
    }
    runs.push(run)?;
    Ok(())
}

// Closes the last run, if it has at least this many uses and memory is given for its keys.
fn close_last(alloc: Global, keyed: bool, runs: &mut Vec<Run>, least: usize) -> bool
    ensures { runs.new.items ≡ runs.old.items }
{
    let Some(last) = runs.len().checked_sub(1) else {
        return false;
    };
    let run = &mut runs[last];
    run.uses().len() >= least && run.close(alloc, keyed).is_ok()
}

// Merges the last two runs, if there are two. Where memory is refused they stay two.
fn merge_two(alloc: Global, runs: &mut Vec<Run>) -> bool
    ensures merged { AreMerged runs.old.items runs.new.items }
    ensures fewer { IsTrue result → length runs.new.items < length runs.old.items }
{
    let count = runs.len();
    if count < 2 {
        return false;
    }
    let (front, back) = runs.split_at_mut(count - 1);
    if front[count - 2].absorb(alloc, &mut back[0]).is_err() {
        return false;
    }
    runs.truncate(count - 1);
    true
}

// Whether the last run is short compared to the one before it, or there is none.
fn is_halved(runs: &[Run]) -> bool
    ensures { IsTrue result → IsHalved runs.now }
{
    let count = runs.len();
    count < 2 || runs[count - 2].uses().len() / FACTOR >= runs[count - 1].uses().len()
}

// Merges the last runs until the last is short compared to the one before it; returns whether memory was given for that.
fn merge_short(alloc: Global, runs: &mut Vec<Run>) -> bool
    ensures merged { AreMerged runs.old.items runs.new.items }
    ensures halved { IsTrue result → IsHalved runs.new.items }
{
    while !is_halved(runs) {
        if !merge_two(alloc, runs) {
            return false;
        }
    }
    true
}

// Merges the last runs until few are left, as far as memory is given.
fn merge_most(alloc: Global, runs: &mut Vec<Run>)
    ensures { AreMerged runs.old.items runs.new.items }
{
    while runs.len() > WALKED {
        if !merge_two(alloc, runs) {
            return;
        }
    }
}

// Closes the last run where it is long, and merges it with those before it, as far as memory is given.
pub(crate) fn settle(alloc: Global, keyed: bool, runs: &mut Vec<Run>)
    ensures { AreMerged runs.old.items runs.new.items }
{
    if close_last(alloc, keyed, runs, FRONT) {
        merge_short(alloc, runs);
    }
}

// Merges all runs but the first, as far as memory is given. An open one may follow them.
pub(crate) fn compact(alloc: Global, keyed: bool, runs: &mut Vec<Run>)
    ensures { AreMerged runs.old.items runs.new.items }
{
    if runs.len() > WALKED + 1 && close_last(alloc, keyed, runs, 0) {
        merge_most(alloc, runs);
    }
}

// Drops the expired uses from the runs, and returns how many.
pub(crate) fn drop_expired(runs: &mut Vec<Run>, moment: u64) -> usize
    requires { length (all_of runs.old.items) < 2 ^ 64 }
    ensures kept { all_of runs.new.items ≡ live_of moment (all_of runs.old.items) }
    ensures dropped { result + length (all_of runs.new.items) ≡ length (all_of runs.old.items) }
    ensures long { length runs.new.items ≡ length runs.old.items }
{
    let mut dropped = 0;
    for i in 0..runs.len() {
        let run = &mut runs[i];
        dropped += run.drop_expired(moment);
    }
    dropped
}

// Drops the runs that have no uses, and gives back memory that the others don't need.
pub(crate) fn tidy(runs: &mut Vec<Run>)
    ensures same { all_of runs.new.items ≡ all_of runs.old.items }
    ensures filled { AllByRecursion (λ run. 0 < length run) runs.new.items }
    ensures no_more { length runs.new.items ≤ length runs.old.items }
{
    runs.retain(|run| !run.uses().is_empty());
    for i in 0..runs.len() {
        let run = &mut runs[i];
        run.tidy();
    }
}
