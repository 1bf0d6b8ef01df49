ghost use Rattle.std.specs.Prelude.{◌≡◌, ◌↔◌, ◌+◌, false, IsTrue, IsOk, OnOk, OnErr};
ghost use Rattle.svid_replay.specs.Batches.{last_of};
ghost use Rattle.svid_replay.specs.Sets.{holds, with, with_all};
ghost use Rattle.svid_replay.specs.Use.{IsRising};
ghost use Rattle.svid_replay.specs.Uses.{Uses, count, has_use_of, has_withdrawal_of, live, next_above, no_uses};
ghost use Rattle.svid_replay.specs.Walks.{IsAhead, next_few};

use crate::Use;
use crate::ahead::Ahead;
use crate::near::Near;
use crate::room::Room;
use std::alloc::AllocError;

/// What a later moment did to a set of uses.
#[derive(Clone, Copy, Debug, PartialEq, Eq)]
pub struct Raised {
    /// How many uses expired by the moment and were dropped.
    pub dropped: usize,
}

/// A set of uses, which a record keeps. A withdrawal is one of them.
pub trait UseStore {
    ghost content: { Self → Uses };

    /// Puts a use into the set. Only this, `insert_all`, `compact` and `tidy` take memory; where it is refused the set stays as
    /// it was. Inserting a use that the set has already always succeeds.
    fn insert(&mut self, new: Use) -> Result<(), AllocError>
        ensures ok { OnOk result (content self.new ≡ with (content self.old) new) }
        ensures err { OnErr result (content self.new ≡ content self.old) }
        ensures held { IsTrue (holds (content self.old) new) → IsOk result };

    /// Puts rising uses into the set, all at once, if the set has a quick way to do that and is given the memory; returns whether
    /// it did. If not, the set stayed as it was, and `insert` takes them one by one.
    fn insert_all(&mut self, uses: &[Use]) -> bool
        requires { IsRising uses.now }
        ensures all { IsTrue result → content self.new ≡ with_all (content self.old) uses.now }
        ensures none { result ≡ false → content self.new ≡ content self.old }
    {
        let _ = uses;
        false
    }

    /// Makes walks over the set quicker, if the set has a way to do that and is given the memory for it. The set
    /// stays the same.
    fn compact(&mut self)
        ensures { content self.new ≡ content self.old }
    {}

    /// Drops the uses that expire at the moment (in seconds) or before. The set has its new content at once; a store may keep the
    /// memory of these uses until `tidy`, so that this call is short.
    fn drop_expired(&mut self, moment: u64) -> Raised
        ensures kept { content self.new ≡ live (content self.old) moment }
        ensures dropped { result.dropped + count (content self.new) ≡ count (content self.old) };

    /// Gives back memory of dropped uses, if the set has a way to do that. The set stays the same. A call may do a part of the
    /// work, and leave the rest to later calls: a record makes one each time that its moment advances.
    fn tidy(&mut self)
        ensures { content self.new ≡ content self.old }
    {}

    /// Whether a use of the set has this key.
    fn has(&self, key: &[u8; 32]) -> bool
        ensures { result ≡ has_use_of (content self.now) key.now };

    /// Whether a withdrawal of the set has this key.
    fn is_withdrawn(&self, key: &[u8; 32]) -> bool
        ensures { result ≡ has_withdrawal_of (content self.now) key.now };

    /// How many uses the set has.
    fn len(&self) -> usize
        ensures { result ≡ count (content self.now) };

    /// Whether the set has no uses.
    fn is_empty(&self) -> bool
        ensures { IsTrue result ↔ (content self.now ≡ no_uses) }
    {
        self.len() == 0
    }

    /// The least use of the set, or the least that is greater than the one given.
    fn next_after(&self, after: Option<Use>) -> Option<Use>
        ensures { result ≡ next_above (content self.now) after };

    /// The least use of the set, or the least that is greater than the one given. It is quick where little lies between the use
    /// that an earlier such call was given and this one. `near` is what that call left, and may be anything.
    fn next_near(&self, after: Option<Use>, near: &mut Near) -> Option<Use>
        ensures { result ≡ next_above (content self.now) after }
    {
        let _ = near;
        self.next_after(after)
    }

    /// Fills the room with the next uses of the set, from the least or from the least that is greater than the one given, rising:
    /// 64, or all that are left. Drops what was in the room.
    fn next_uses(&self, after: Option<Use>, room: &mut Room)
        ensures { room.new ≡ next_few (content self.now) after }
    {
        room.clear();
        let mut last = after;
        while let Some(used) = self.next_after(last) {
            if room.is_full() {
                return;
            }
            room.push(used);
            last = Some(used);
        }
    }

    /// Fills the room with the next uses of the set, as `next_uses` does, from the walk's position, and moves the walk past the
    /// last of them. `ahead` must be new, or as an earlier such call left it with the set unchanged since. A set that is made of
    /// parts then begins with what was next in each of them.
    fn next_ahead(&self, ahead: &mut Ahead, room: &mut Room)
        requires { IsAhead (content self.now) ahead.old }
        ensures next { room.new ≡ next_few (content self.now) ahead.old.after }
        ensures after { ahead.new.after ≡ last_of ahead.old.after room.new }
        ensures ahead { IsAhead (content self.now) ahead.new }
    {
        self.next_uses(ahead.after, room);
        ahead.pass(room.as_slice());
    }
}
