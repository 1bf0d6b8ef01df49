//! A set of uses as runs that grow.
ghost use Rattle.std.specs.Prelude.{◌≡◌, false, IsTrue};
ghost use Rattle.std.specs.List.{AllByRecursion};
ghost use Rattle.svid_replay.specs.Sets.{holds, with_all};
ghost use Rattle.svid_replay.specs.Use.{IsRising};
ghost use Rattle.svid_replay.specs.Uses.{no_uses};

use crate::Use;
use crate::near::Near;
use crate::room::Room;
use crate::run::Run;
use crate::runs::{
    FRONT, any_has, any_holds, compact, drop_expired, least_near, merge_next, new_uses, put_all,
    put_one, settle, tidy,
};
use crate::store::{Raised, UseStore};
use std::alloc::{AllocError, Global};
use std::marker::Model;

/// A set of uses as runs: sorted vectors, each with its keys. New uses go into the last run, which is short, so most inserts are
/// fast. The insert that brings that run to 256 uses closes it: the run gets keys, and may be merged with others, at worst with
/// all. Where memory for that is refused, it is left undone, and the use is in the set all the same. When 256 uses or more are
/// inserted at once (`insert_all`), the new ones are merged with the last run in the same way; fewer are not taken at once. There
/// are at most 64 runs. `compact` merges all runs but the first, so that a walk has two to look at, or three.
///
/// A set that [`RunUses::without_keys`] makes has runs without keys. It takes less time and memory for each use that is put in,
/// but `has` and `is_withdrawn` may look at all uses. It is for a record that is joined and walked, and rarely looked up by key.
#[derive(Debug, Drop)]
pub struct RunUses {
    alloc: Global,
    keyed: bool,
    runs: Vec<Run>,
    total: usize,
}

impl Model for RunUses {
    ghost use Rattle.svid_replay.specs.Runs.{all_of, IsRuns};
    ghost use Rattle.svid_replay.specs.Uses.{Uses, uses_code, uses_in};

    ghost Value = { Uses };

    ghost coded = { uses_code };

    ghost view = { λ s. uses_in (all_of s.runs.items) };

    ghost invariant = { λ s. IsRuns s.runs.items s.total };
}

impl RunUses {
    fn empty(alloc: Global, keyed: bool) -> RunUses
        ensures { result ≡ no_uses }
    {
        RunUses {
            alloc,
            keyed,
            runs: Vec::new(alloc),
            total: 0,
        }
    }

    /// The empty set. Takes no memory.
    pub fn new(alloc: Global) -> RunUses
        ensures { result ≡ no_uses }
    {
        RunUses::empty(alloc, true)
    }

    /// The empty set, whose runs will have no keys: `has` and `is_withdrawn` may look at all uses. Takes no
    /// memory.
    pub fn without_keys(alloc: Global) -> RunUses
        ensures { result ≡ no_uses }
    {
        RunUses::empty(alloc, false)
    }

    // Puts in uses that are not there yet, if memory is given for them.
    fn take(&mut self, new: Vec<Use>) -> bool
        requires rising { IsRising new.items }
        requires new { AllByRecursion (λ u. holds self.old u ≡ false) new.items }
        ensures all { IsTrue result → self.new ≡ with_all self.old new.items }
        ensures none { result ≡ false → self.new ≡ self.old }
    {
        let Some(total) = self.total.checked_add(new.len()) else {
            return false;
        };
        match put_all(self.alloc, &mut self.runs, new) {
            Err(_) => false,
            Ok(()) => {
                self.total = total;
                settle(self.alloc, self.keyed, &mut self.runs);
                true
            }
        }
    }
}

impl UseStore for RunUses {
    ghost content = { λ s. s };

    fn insert(&mut self, new: Use) -> Result<(), AllocError> {
        if any_holds(&self.runs, &new) {
            return Ok(());
        }
        let Some(total) = self.total.checked_add(1) else {
            return Err(AllocError);
        };
        put_one(self.alloc, &mut self.runs, new)?;
        self.total = total;
        settle(self.alloc, self.keyed, &mut self.runs);
        Ok(())
    }

    fn insert_all(&mut self, uses: &[Use]) -> bool {
        // (few go in one by one)
        if uses.len() < FRONT {
            return false;
        }
        match new_uses(self.alloc, &self.runs, uses) {
            Err(_) => false,
            Ok(new) => new.is_empty() || self.take(new),
        }
    }

    fn compact(&mut self) {
        compact(self.alloc, self.keyed, &mut self.runs);
    }

    fn drop_expired(&mut self, moment: u64) -> Raised {
        let dropped = drop_expired(&mut self.runs, moment);
        self.total -= dropped;
        Raised { dropped }
    }

    fn tidy(&mut self) {
        tidy(&mut self.runs);
    }

    fn has(&self, key: &[u8; 32]) -> bool {
        any_has(&self.runs, key, false)
    }

    fn is_withdrawn(&self, key: &[u8; 32]) -> bool {
        any_has(&self.runs, key, true)
    }

    fn len(&self) -> usize {
        self.total
    }

    fn next_after(&self, after: Option<Use>) -> Option<Use> {
        self.next_near(after, &mut Near::new())
    }

    fn next_near(&self, after: Option<Use>, near: &mut Near) -> Option<Use> {
        least_near(&self.runs, &after, near)
    }

    fn next_uses(&self, after: Option<Use>, room: &mut Room) {
        room.clear();
        merge_next(&self.runs, after, room);
    }
}
