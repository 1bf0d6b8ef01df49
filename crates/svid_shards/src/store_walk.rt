ghost use Rattle.std.specs.Prelude.{◌≡◌};
ghost use Rattle.svid_replay.specs.Batches.{last_of};
ghost use Rattle.svid_replay.specs.Sets.{rising};

use std::marker::Model;
use svid_replay::{Room, Use, UseStore};

/// The uses of one store that are left to a walk, rising. The walk takes them from the store 64 at a time. No step takes
/// memory.
#[derive(Drop)]
pub(crate) struct StoreWalk<'a, S: UseStore> {
    store: &'a S,
    after: Option<Use>,
    room: Room,
    given: usize,
}

impl<'a, S: UseStore> Model for StoreWalk<'a, S> {
    ghost use Rattle.std.specs.Prelude.{◌++◌, List, drop};
    ghost use Rattle.svid_replay.specs.Runs.{run_code};
    ghost use Rattle.svid_replay.specs.Walks.{uses_behind};
    ghost use Rattle.svid_replay.specs.declared.token_use.Use.{Use};

    ghost Value = { List Use };

    ghost coded = { run_code };

    ghost view = { λ w. drop w.given w.room ++ uses_behind (S.content w.store.now) w.after };
}

// The last of the uses, or the one before them.
fn last_of(before: Option<Use>, uses: &[Use]) -> Option<Use>
    ensures { result ≡ last_of before uses.now }
{
    match uses {
        [] => before,
        [.., last] => Some(*last),
    }
}

impl<'a, S: UseStore> StoreWalk<'a, S> {
    pub(crate) fn of(store: &'a S) -> StoreWalk<'a, S>
        ensures { result ≡ rising (S.content store.now) }
    {
        StoreWalk {
            store,
            after: None,
            room: Room::new(),
            given: 0,
        }
    }
}

impl<'a, S: UseStore> Iterator for StoreWalk<'a, S> {
    ghost use Rattle.std.specs.Iterator.{YieldsFirst, item_count};

    type Item = Use;

    ghost next_gives = { YieldsFirst (λ w. w) };

    ghost remaining = { item_count (λ w. w) };

    fn next(&mut self) -> Option<Use> {
        if let Some(used) = self.room.as_slice().get(self.given).copied() {
            self.given += 1;
            return Some(used);
        }
        self.store.next_uses(self.after, &mut self.room);
        self.after = last_of(self.after, self.room.as_slice());
        self.given = 1;
        self.room.as_slice().first().copied()
    }
}
