ghost use Rattle.std.specs.Prelude.{◌≡◌, ◌≤◌, ℕ, List, length, Some, drop, filter, find, not, nat_lt, IsTrue, IsOk, OnOk, OnErr, option_copied};
ghost use Rattle.std.specs.List.{AllByRecursion, list_any, prefix_len};
ghost use Rattle.svid_replay.specs.Batches.{is_after};
ghost use Rattle.svid_replay.specs.Indexed.{is_sought};
ghost use Rattle.svid_replay.specs.Runs.{HasBits};
ghost use Rattle.svid_replay.specs.Sets.{holds, with};
ghost use Rattle.svid_replay.specs.Use.{IsRising};
ghost use Rattle.svid_replay.specs.declared.token_use.Use.{Use};
ghost use Rattle.svid_replay.specs.Uses.{no_uses, uses_in};

use crate::Use;
use crate::room::Room;
use crate::store::{Raised, UseStore};
use crate::twice::is_sought;
use std::alloc::{AllocError, Global};
use std::marker::Model;

/// A set of uses as a sorted vector: small and quick to walk, but `has` and `is_withdrawn` look at each use.
#[derive(Debug, Drop)]
pub struct SortedUses {
    uses: Vec<Use>,
}

impl Model for SortedUses {
    ghost use Rattle.svid_replay.specs.Uses.{Uses, uses_code, uses_in};
    ghost use Rattle.svid_replay.specs.Use.{IsRising};

    ghost Value = { Uses };

    ghost coded = { uses_code };

    ghost view = { λ s. uses_in s.uses.items };

    ghost invariant = { λ s. IsRising s.uses.items };
}

// Inserts a use among those from an index on, which rise.
pub(crate) fn insert_use(uses: &mut Vec<Use>, start: usize, new: Use) -> Result<(), AllocError>
    requires bound { start ≤ length uses.old.items }
    requires rising { IsRising (drop start uses.old.items) }
    ensures bound { start ≤ length uses.new.items }
    ensures rising { IsRising (drop start uses.new.items) }
    ensures ok { OnOk result (uses_in (drop start uses.new.items) ≡ with (uses_in (drop start uses.old.items)) new) }
    ensures err { OnErr result (uses.new.items ≡ uses.old.items) }
    ensures held { IsTrue (holds (uses_in (drop start uses.old.items)) new) → IsOk result }
    ensures known { (key_filter : List ℕ) → HasBits key_filter new.key → AllByRecursion (λ u. HasBits key_filter u.key) (drop start uses.old.items) → AllByRecursion (λ u. HasBits key_filter u.key) (drop start uses.new.items) }
{
    match uses[start..].binary_search(&new) {
        Ok(_) => Ok(()),
        Err(index) => {
            uses.insert(start + index, new)?;
            Ok(())
        }
    }
}

pub(crate) fn count_expired(uses: &[Use], moment: u64) -> usize
    requires { IsRising uses.now }
    ensures { result ≡ prefix_len (λ u. not (nat_lt moment u.exp)) uses.now }
{
    match uses.first() {
        // (mostly nothing has expired)
        Some(first) if first.is_live(moment) => 0,
        _ => uses.partition_point(|used| !used.is_live(moment)),
    }
}

pub(crate) fn drop_front(uses: &mut Vec<Use>, count: usize)
    requires { count ≤ length uses.old.items }
    ensures { uses.new.items ≡ drop count uses.old.items }
{
    let left = uses.len() - count;
    uses.rotate_left(count);
    uses.truncate(left);
}

fn count_up_to(uses: &[Use], last: &Use) -> usize
    requires { IsRising uses.now }
    ensures value { result ≡ prefix_len (λ u. not (is_after (Some last.now) u)) uses.now }
    ensures bound { result ≤ length uses.now }
{
    uses.partition_point(|used| !last.cmp(used).is_lt())
}

// Whether the uses before an index are those that are not greater than the last.
fn is_index(uses: &[Use], index: usize, last: &Use) -> bool
    requires { IsRising uses.now }
    ensures value { IsTrue result → index ≡ prefix_len (λ u. not (is_after (Some last.now) u)) uses.now }
    ensures bound { IsTrue result → index ≤ length uses.now }
{
    if index > uses.len() || (index > 0 && last.cmp(&uses[index - 1]).is_lt()) {
        return false;
    }
    index == uses.len() || last.cmp(&uses[index]).is_lt()
}

// How many are not greater than the last: mostly `near` of them, or one more.
fn count_near(uses: &[Use], last: &Use, near: usize) -> usize
    requires { IsRising uses.now }
    ensures value { result ≡ prefix_len (λ u. not (is_after (Some last.now) u)) uses.now }
    ensures bound { result ≤ length uses.now }
{
    if is_index(uses, near, last) {
        return near;
    }
    let next = near.wrapping_add(1);
    if is_index(uses, next, last) {
        return next;
    }
    count_up_to(uses, last)
}

// Those of the uses that are greater than the one given, or all. They mostly begin near an index.
fn rest_near<'a>(uses: &'a [Use], after: &Option<Use>, near: &mut u16) -> &'a [Use]
    requires { IsRising uses.now }
    ensures { result.now ≡ filter (is_after after.now) uses.now }
{
    let Some(last) = after else {
        return uses;
    };
    let index = count_near(uses, last, *near as usize);
    *near = u16::try_from(index).unwrap_or(0);
    &uses[index..]
}

pub(crate) fn first_near<'a>(
    uses: &'a [Use],
    after: &Option<Use>,
    near: &mut u16,
) -> Option<&'a Use>
    requires { IsRising uses.now }
    ensures { option_copied result ≡ find (is_after after.now) uses.now }
{
    rest_near(uses, after, near).first()
}

// Those of the uses that are greater than the one given, or all.
pub(crate) fn rest_after(uses: &[Use], after: Option<Use>) -> &[Use]
    requires { IsRising uses.now }
    ensures { result.now ≡ filter (is_after after) uses.now }
{
    match after {
        None => uses,
        Some(last) => &uses[count_up_to(uses, &last)..],
    }
}

pub(crate) fn first_after(uses: &[Use], after: Option<Use>) -> Option<Use>
    requires { IsRising uses.now }
    ensures { result ≡ find (is_after after) uses.now }
{
    rest_after(uses, after).first().copied()
}

// Whether one of the uses has the key: a withdrawal of it if `withdrawn`, else a use.
pub(crate) fn has_sought(uses: &[Use], key: &[u8; 32], withdrawn: bool) -> bool
    ensures { result ≡ list_any (is_sought withdrawn key.now) uses.now }
{
    uses.iter().any(|used| is_sought(withdrawn, key, used))
}

impl SortedUses {
    /// The empty set. Takes no memory.
    pub fn new(alloc: Global) -> SortedUses
        ensures { result ≡ no_uses }
    {
        SortedUses {
            uses: Vec::new(alloc),
        }
    }
}

impl UseStore for SortedUses {
    ghost content = { λ s. s };

    fn insert(&mut self, new: Use) -> Result<(), AllocError> {
        insert_use(&mut self.uses, 0, new)
    }

    fn drop_expired(&mut self, moment: u64) -> Raised {
        let dropped = count_expired(&self.uses, moment);
        drop_front(&mut self.uses, dropped);
        Raised { dropped }
    }

    fn has(&self, key: &[u8; 32]) -> bool {
        has_sought(&self.uses, key, false)
    }

    fn is_withdrawn(&self, key: &[u8; 32]) -> bool {
        has_sought(&self.uses, key, true)
    }

    fn len(&self) -> usize {
        self.uses.len()
    }

    fn next_after(&self, after: Option<Use>) -> Option<Use> {
        first_after(&self.uses, after)
    }

    fn next_uses(&self, after: Option<Use>, room: &mut Room) {
        room.clear();
        room.extend(rest_after(&self.uses, after));
    }
}
