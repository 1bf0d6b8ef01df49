ghost use Rattle.std.specs.Prelude.{◌≡◌};
ghost use Rattle.svid_replay.specs.Walks.{uses_behind};

use crate::ahead::Ahead;
use crate::room::Room;
use crate::store::UseStore;
use crate::{Record, Use};
use std::marker::Model;

/// The uses of a record that are left to a walk, rising. The walk takes them from the store 64 at a time, so that most steps are
/// short. No step takes memory.
#[derive(Debug, Drop)]
pub struct Walk<'a, S: UseStore> {
    whole: &'a Record<S>,
    ahead: Ahead,
    room: Room,
    given: usize,
}

impl<'a, S: UseStore> Model for Walk<'a, S> {
    ghost use Rattle.std.specs.Prelude.{◌++◌, List, drop};
    ghost use Rattle.svid_replay.specs.Runs.{run_code};
    ghost use Rattle.svid_replay.specs.Walks.{IsAhead, uses_behind};
    ghost use Rattle.svid_replay.specs.declared.token_use.Use.{Use};

    ghost Value = { List Use };

    ghost coded = { run_code };

    ghost view = { λ w. drop w.given w.room ++ uses_behind w.whole.now.uses w.ahead.after };

    ghost invariant = { λ w. IsAhead w.whole.now.uses w.ahead };
}

impl<'a, S: UseStore> Walk<'a, S> {
    pub(crate) fn of(whole: &'a Record<S>, after: Option<Use>) -> Walk<'a, S>
        ensures { result ≡ uses_behind whole.now.uses after }
    {
        Walk {
            whole,
            ahead: Ahead::of(after),
            room: Room::new(),
            given: 0,
        }
    }
}

impl<'a, S: UseStore> Iterator for Walk<'a, S> {
    ghost use Rattle.std.specs.Iterator.{YieldsFirst, item_count};

    type Item = Use;

    ghost next_gives = { YieldsFirst (λ w. w) };

    ghost remaining = { item_count (λ w. w) };

    fn next(&mut self) -> Option<Use> {
        if let Some(used) = self.room.as_slice().get(self.given).copied() {
            self.given += 1;
            return Some(used);
        }
        self.whole.next_ahead(&mut self.ahead, &mut self.room);
        self.given = 1;
        self.room.as_slice().first().copied()
    }
}
