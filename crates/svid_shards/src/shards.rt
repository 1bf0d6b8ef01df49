//! Stores side by side, each for the uses whose key begins with the store's number.
ghost use Rattle.std.specs.Prelude.{◌≡◌, ◌+◌, ◌^◌, ◌<◌, ◌≤◌, [], List, None, Option, map, length, slice_index, slice_index_or, true, IsTrue, IsOk, IfOk, OnOk, OnErr};
ghost use Rattle.svid_replay.specs.Batches.{last_of};
ghost use Rattle.svid_replay.specs.Buckets.{bucket_of};
ghost use Rattle.svid_replay.specs.Sets.{holds};
ghost use Rattle.svid_replay.specs.Uses.{live, next_above};
ghost use Rattle.svid_replay.specs.Walks.{IsAhead, exp_if_any, next_few};
ghost use Rattle.svid_replay.specs.declared.token_use.Use.{Use};
ghost use Rattle.svid_shards.specs.Shards.{AreApart, AreBehind, AreHeads, IsPut, all_in, heads_of, is_before, is_second, least_in, shard, total_of};

use std::alloc::AllocError;
use svid_replay::{Ahead, Room, Use, UseStore};

/// How many shards there are: one for each first byte of a key.
pub(crate) const SHARDS: usize = 256;

// How many shards are tidied or compacted at a time: few, so that a call is short.
pub(crate) const TENDED: u8 = 4;

// After so many times all shards are done.
pub(crate) const ROUND: u8 = 64;

// The number of the shard for a key.
pub(crate) fn shard_of(key: &[u8; 32]) -> usize
    ensures value { result ≡ slice_index key.now 0 }
    ensures bound { result < 256 }
{
    key[0] as usize
}

// Whether a store holds a use. Looks at each of its uses.
fn holds_use<S: UseStore>(store: &S, sought: &Use) -> bool
    ensures { result ≡ holds (S.content store.now) sought.now }
{
    let mut after = None;
    while let Some(used) = store.next_after(after) {
        if sought.cmp(&used).is_eq() {
            return true;
        }
        after = Some(used);
    }
    false
}

// Whether the shard of a use holds it. Looks at each use of the shard.
pub(crate) fn shard_holds<S: UseStore>(shards: &[S], sought: &Use) -> bool
    requires { length shards.now ≡ 256 }
    ensures { result ≡ holds (shard (map S.content shards.now) (bucket_of sought.now)) sought.now }
{
    holds_use(&shards[shard_of(&sought.key)], sought)
}

// Puts a use into its shard, and returns how many uses were added: one, or none where it was there.
pub(crate) fn insert_into<S: UseStore>(shards: &mut Vec<S>, new: Use) -> Result<usize, AllocError>
    requires { length shards.old.items ≡ 256 }
    ensures ok { OnOk result (IsPut (map S.content shards.old.items) new (map S.content shards.new.items)) }
    ensures more { IfOk result (λ more. (more ≤ 1) × (total_of (map S.content shards.old.items) + more ≡ total_of (map S.content shards.new.items))) }
    ensures index { bucket_of new < 256 }
    ensures err { OnErr result (map S.content shards.new.items ≡ map S.content shards.old.items) }
    ensures held { IsTrue (holds (shard (map S.content shards.old.items) (bucket_of new)) new) → IsOk result }
{
    let store = &mut shards[shard_of(&new.key)];
    let before = store.len();
    store.insert(new)?;
    Ok(store.len() - before)
}

// Drops the expired uses from each shard; returns how many.
pub(crate) fn drop_all_expired<S: UseStore>(shards: &mut Vec<S>, moment: u64) -> usize
    requires { total_of (map S.content shards.old.items) < 2 ^ 64 }
    ensures kept { map S.content shards.new.items ≡ map (λ s. live s moment) (map S.content shards.old.items) }
    ensures dropped { result + total_of (map S.content shards.new.items) ≡ total_of (map S.content shards.old.items) }
{
    let mut dropped = 0;
    for i in 0..shards.len() {
        let store = &mut shards[i];
        dropped += store.drop_expired(moment).dropped;
    }
    dropped
}

// Makes walks over some shards quicker, beginning with this number; the first shard follows the last.
pub(crate) fn compact_some<S: UseStore>(shards: &mut Vec<S>, from: u8)
    requires { length shards.old.items ≡ 256 }
    ensures { map S.content shards.new.items ≡ map S.content shards.old.items }
{
    for i in 0..TENDED {
        let index = from.wrapping_add(i) as usize;
        let store = &mut shards[index];
        store.compact();
    }
}

// Gives back memory in some shards, beginning with this number; the first shard follows the last.
pub(crate) fn tidy_some<S: UseStore>(shards: &mut Vec<S>, from: u8)
    requires { length shards.old.items ≡ 256 }
    ensures { map S.content shards.new.items ≡ map S.content shards.old.items }
{
    for i in 0..TENDED {
        let index = from.wrapping_add(i) as usize;
        let store = &mut shards[index];
        store.tidy();
    }
}

// The expiry of a use, if there is one.
fn exp_if_any(used: Option<Use>) -> Option<u64>
    ensures { result ≡ exp_if_any used }
{
    match used {
        None => None,
        Some(used) => Some(used.exp),
    }
}

// The expiry of the next use in each shard.
fn heads_of<S: UseStore>(shards: &[S], after: Option<Use>) -> [Option<u64>; SHARDS]
    requires { length shards.now ≡ 256 }
    ensures { result ≡ map exp_if_any (heads_of (map S.content shards.now) after) }
{
    let mut heads = [None; SHARDS];
    for i in 0..SHARDS {
        heads[i] = exp_if_any(shards[i].next_after(after));
    }
    heads
}

// Whether the first is there, and the second is missing or later.
fn is_before(one: Option<u64>, other: Option<u64>) -> bool
    ensures { result ≡ is_before one other }
{
    match one {
        None => false,
        Some(a) => match other {
            None => true,
            Some(b) => a < b,
        },
    }
}

// The number of the shard that has the least of the next uses. Among those that expire at one second it is the first, since
// shards are in the order of the keys.
fn least(heads: &[Option<u64>; SHARDS]) -> usize
    requires { length heads.now ≡ 256 }
    ensures bound { result < 256 }
    ensures least { (next : List (Option Use)) → AreHeads next → heads.now ≡ map exp_if_any next → slice_index_or next result None ≡ least_in None next }
{
    let mut at = 0;
    for i in 1..SHARDS {
        if is_before(heads[i], heads[at]) {
            at = i;
        }
    }
    at
}

// Whether it equals this second.
fn is_second(head: Option<u64>, exp: u64) -> bool
    ensures { result ≡ is_second exp head }
{
    match head {
        None => false,
        Some(second) => second == exp,
    }
}

// The number of the shard that has the least of the next uses after a use. Mostly that expires at the same second: then it is the
// first such from the shard of the use on. So all uses of one second take one look at each shard.
fn least_behind(heads: &[Option<u64>; SHARDS], last: Option<Use>) -> usize
    requires { length heads.now ≡ 256 }
    ensures bound { result < 256 }
    ensures least { (next : List (Option Use)) → AreHeads next → AreBehind last next → heads.now ≡ map exp_if_any next → slice_index_or next result None ≡ least_in None next }
{
    if let Some(used) = last {
        for i in shard_of(&used.key)..SHARDS {
            if is_second(heads[i], used.exp) {
                return i;
            }
        }
    }
    least(heads)
}

// The least use of all shards, or the least that is greater than the one given.
pub(crate) fn next_after<S: UseStore>(shards: &[S], after: Option<Use>) -> Option<Use>
    requires long { length shards.now ≡ 256 }
    requires apart { AreApart (map S.content shards.now) }
    ensures { result ≡ next_above (all_in (map S.content shards.now)) after }
{
    shards[least(&heads_of(shards, after))].next_after(after)
}

// Looks up the next use in each shard, where that is not known.
fn look_ahead<S: UseStore>(shards: &[S], ahead: &mut Ahead)
    requires long { length shards.now ≡ 256 }
    requires apart { AreApart (map S.content shards.now) }
    requires ahead { IsAhead (all_in (map S.content shards.now)) ahead.old }
    ensures after { ahead.new.after ≡ ahead.old.after }
    ensures heads { ahead.new.heads ≡ map exp_if_any (heads_of (map S.content shards.now) ahead.old.after) }
{
    if !ahead.known {
        ahead.heads = heads_of(shards, ahead.after);
    }
}

// The next use.
fn next_in<S: UseStore>(shards: &[S], ahead: &mut Ahead) -> Option<Use>
    requires long { length shards.now ≡ 256 }
    requires apart { AreApart (map S.content shards.now) }
    requires heads { ahead.old.heads ≡ map exp_if_any (heads_of (map S.content shards.now) ahead.old.after) }
    ensures next { result ≡ next_above (all_in (map S.content shards.now)) ahead.old.after }
    ensures after { ahead.new.after ≡ ahead.old.after }
    ensures known { ahead.new.known ≡ ahead.old.known }
    ensures heads { ahead.new.heads ≡ ahead.old.heads }
{
    let at = least_behind(&ahead.heads, ahead.after);
    shards[at].next_near(ahead.after, &mut ahead.near[at])
}

// Fills an empty room with the next uses of all shards, and notes the following use in each of them.
pub(crate) fn next_ahead<S: UseStore>(shards: &[S], ahead: &mut Ahead, room: &mut Room)
    requires long { length shards.now ≡ 256 }
    requires apart { AreApart (map S.content shards.now) }
    requires ahead { IsAhead (all_in (map S.content shards.now)) ahead.old }
    requires empty { room.old ≡ [] }
    ensures next { room.new ≡ next_few (all_in (map S.content shards.now)) ahead.old.after }
    ensures after { ahead.new.after ≡ last_of ahead.old.after room.new }
    ensures known { ahead.new.known ≡ true }
    ensures ahead { IsAhead (all_in (map S.content shards.now)) ahead.new }
{
    look_ahead(shards, ahead);
    ahead.known = true;
    while let Some(used) = next_in(shards, ahead) {
        if !room.push(used) {
            return;
        }
        let index = shard_of(&used.key);
        let then = shards[index].next_near(Some(used), &mut ahead.near[index]);
        ahead.after = Some(used);
        ahead.heads[index] = exp_if_any(then);
    }
}
