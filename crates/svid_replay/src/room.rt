//! Room for the next uses of a walk.
ghost use Rattle.std.specs.Prelude.{◌≡◌, ◌==◌, ◌<◌, ◌≤◌, [], ◌∷◌, ◌++◌, length, nat_lt, take, true, IsTrue};
ghost use Rattle.std.specs.Ordering.{is_lt};
ghost use Rattle.std.specs.Set.{sorted_merge};
ghost use Rattle.svid_replay.specs.Use.{IsRising, use_cmp};

use crate::Use;
use crate::layout::ROOM_USES;
use std::cmp::Ordering;
use std::marker::Model;

const NO_USE: Use = Use {
    exp: 0,
    key: [0; 32],
    validator_id: [0; 16],
    at: 0,
    withdrawn: false,
};

/// Room for at most 64 uses, stored in the value itself: the next of a walk. Takes no memory.
#[derive(Debug, Drop)]
pub struct Room {
    uses: [Use; ROOM_USES],
    len: usize,
}

impl Model for Room {
    ghost use Rattle.std.specs.Prelude.{◌≡◌, ◌≤◌, List, length, take};
    ghost use Rattle.svid_replay.specs.Runs.{run_code};
    ghost use Rattle.svid_replay.specs.declared.token_use.Use.{Use};

    ghost Value = { List Use };

    ghost coded = { run_code };

    ghost view = { λ r. take r.len r.uses };

    ghost invariant = { λ r. (length r.uses ≡ 64) × (r.len ≤ 64) };
}

impl Room {
    /// An empty room.
    pub fn new() -> Room
        ensures { result ≡ [] }
    {
        Room {
            uses: [NO_USE; ROOM_USES],
            len: 0,
        }
    }

    /// The uses.
    pub fn as_slice(&self) -> &[Use]
        ensures value { result.now ≡ self.now }
        ensures few { length result.now ≤ 64 }
    {
        &self.uses[..self.len]
    }

    /// Whether there is no room for another use.
    pub fn is_full(&self) -> bool
        ensures { result ≡ (length self.now == 64) }
    {
        self.len == ROOM_USES
    }

    /// Takes out all uses.
    pub fn clear(&mut self)
        ensures { self.new ≡ [] }
    {
        self.len = 0;
    }

    /// Appends a use if there is room for it, and returns whether there was. If not, the uses stay as they were.
    pub fn push(&mut self, used: Use) -> bool
        ensures answer { result ≡ nat_lt (length self.old) 64 }
        ensures pushed { length self.old < 64 → self.new ≡ self.old ++ used ∷ [] }
        ensures full { 64 ≤ length self.old → self.new ≡ self.old }
    {
        if self.len < ROOM_USES {
            self.uses[self.len] = used;
            self.len += 1;
            return true;
        }
        false
    }

    /// Appends uses, as many as there is room for.
    pub fn extend(&mut self, uses: &[Use])
        ensures { self.new ≡ take 64 (self.old ++ uses.now) }
    {
        let count = uses.len().min(ROOM_USES - self.len);
        let end = self.len + count;
        self.uses[self.len..end].copy_from_slice(&uses[..count]);
        self.len = end;
    }

    // Whether there are no uses, or the room is full and all of them come after its own.
    fn is_in_front(&self, uses: &[Use]) -> bool
        ensures { IsTrue result → IsRising self.now → take 64 (sorted_merge use_cmp true self.now uses.now) ≡ self.now }
    {
        let room = self.as_slice();
        match uses {
            [] => true,
            [first, ..] => room.len() == ROOM_USES && is_less(&room[ROOM_USES - 1], first),
        }
    }

    // Merges other rising uses into those of the room, as many as there is room for.
    pub(crate) fn merge(&mut self, uses: &[Use])
        ensures { IsRising self.old → self.new ≡ take 64 (sorted_merge use_cmp true self.old uses.now) }
    {
        if !self.is_in_front(uses) {
            let before = self.uses;
            let count = self.len;
            fill_merged(self, &before[..count], uses);
        }
    }
}

fn is_less(one: &Use, other: &Use) -> bool
    ensures { result ≡ is_lt (use_cmp one.now other.now) }
{
    one.cmp(other).is_lt()
}

// Fills the room with the first 64 of two rising lists in one; a use that both have is in it once. Drops what was in the room.
fn fill_merged(room: &mut Room, a: &[Use], b: &[Use])
    ensures { room.new ≡ take 64 (sorted_merge use_cmp true a.now b.now) }
{
    room.clear();
    let mut i = 0;
    let mut j = 0;
    while i < a.len() && j < b.len() {
        if room.is_full() {
            return;
        }
        match a[i].cmp(&b[j]) {
            Ordering::Less => {
                room.push(a[i]);
                i += 1;
            }
            Ordering::Equal => {
                room.push(a[i]);
                i += 1;
                j += 1;
            }
            Ordering::Greater => {
                room.push(b[j]);
                j += 1;
            }
        }
    }
    room.extend(&a[i..]);
    room.extend(&b[j..]);
}
