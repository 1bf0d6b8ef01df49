ghost use Rattle.std.specs.Prelude.{◌≡◌, ◌↔◌, [], length, IfOk, IsTrue};
ghost use Rattle.svid_replay.specs.Buckets.{stale};
ghost use Rattle.svid_replay.specs.Sets.{rising};

use crate::buckets::{differs, digests_of};
use crate::store::UseStore;
use crate::{Record, Summary, Use, Walk};
use std::alloc::{AllocError, Global};
use std::marker::Model;

/// The uses of all buckets of a record whose digest differs from a summary's, as far as they are left to a walk, rising.
/// `Record::answer` gives the same where the summary's moment is not later than the record's. No step takes memory.
#[derive(Debug, Drop)]
pub struct Stale<'a, S: UseStore> {
    walk: Walk<'a, S>,
    summary: &'a Summary,
    digests: [[u8; 32]; 256],
    left: usize,
}

impl<'a, S: UseStore> Model for Stale<'a, S> {
    ghost use Rattle.std.specs.Prelude.{◌≡◌, List, filter, length};
    ghost use Rattle.svid_replay.specs.Buckets.{differ_at};
    ghost use Rattle.svid_replay.specs.Runs.{run_code};
    ghost use Rattle.svid_replay.specs.declared.token_use.Use.{Use};

    ghost Value = { List Use };

    ghost coded = { run_code };

    ghost view = { λ s. filter (differ_at s.digests s.summary.now.digests) s.walk };

    ghost invariant = { λ s. s.left ≡ length (filter (differ_at s.digests s.summary.now.digests) s.walk) };
}

impl<'a, S: UseStore> Stale<'a, S> {
    pub(crate) fn of(whole: &'a Record<S>, summary: &'a Summary) -> Stale<'a, S>
        ensures { result ≡ rising (stale summary.now whole.now.uses) }
    {
        let digests = digests_of(whole);
        let mut left = whole.len();
        for used in whole.walk() {
            if !differs(&digests, summary, &used) {
                left -= 1;
            }
        }
        Stale {
            walk: whole.walk(),
            summary,
            digests,
            left,
        }
    }

    /// How many of these uses are left.
    pub fn len(&self) -> usize
        ensures { result ≡ length self.now }
    {
        self.left
    }

    /// Whether none of these uses is left.
    pub fn is_empty(&self) -> bool
        ensures { IsTrue result ↔ (self.now ≡ []) }
    {
        self.left == 0
    }
}

impl<'a, S: UseStore> Iterator for Stale<'a, S> {
    ghost use Rattle.std.specs.Iterator.{YieldsFirst, item_count};

    type Item = Use;

    ghost next_gives = { YieldsFirst (λ s. s) };

    ghost remaining = { item_count (λ s. s) };

    // Skips the uses of buckets that agree, at worst all that are left of the record.
    fn next(&mut self) -> Option<Use> {
        while let Some(used) = self.walk.next() {
            if differs(&self.digests, self.summary, &used) {
                self.left -= 1;
                return Some(used);
            }
        }
        None
    }
}

// The uses that are left, as a list.
pub(crate) fn list_of<S: UseStore>(
    alloc: Global,
    left: Stale<'_, S>,
) -> Result<Vec<Use>, AllocError>
    ensures { IfOk result (λ uses. uses.items ≡ left.entry) }
{
    let mut uses = Vec::with_capacity(alloc, left.len())?;
    for used in left {
        uses.push(used)?;
    }
    Ok(uses)
}
