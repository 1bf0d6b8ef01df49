ghost use Rattle.std.specs.Prelude.{◌≡◌, ◌+◌, List, IsTrue, IsOk, OnOk, OnErr};
ghost use Rattle.std.specs.List.{list_any};
ghost use Rattle.svid_replay.specs.declared.token_use.Use.{Use};
ghost use Rattle.svid_replay.specs.Indexed.{IsIndexed, first_expired, is_sought};
ghost use Rattle.svid_replay.specs.Sets.{holds, with};
ghost use Rattle.svid_replay.specs.Uses.{count, live, no_uses, uses_in};

use crate::Use;
use crate::key_first::KeyFirst;
use crate::store::{Raised, UseStore};
use std::alloc::{AllocError, Global};
use std::collections::BTreeSet;
use std::marker::Model;
use std::ops::Bound;

/// A set of uses in two orders, by use and by key, each a tree: no insert moves many uses.
#[derive(Debug, Drop)]
pub struct IndexedUses {
    by_use: BTreeSet<Use>,
    by_key: BTreeSet<KeyFirst>,
}

impl Model for IndexedUses {
    ghost use Rattle.svid_replay.specs.Indexed.{IsIndexed};
    ghost use Rattle.svid_replay.specs.Uses.{Uses, uses_code, uses_in};

    ghost Value = { Uses };

    ghost coded = { uses_code };

    ghost view = { λ s. uses_in s.by_use.keys };

    ghost invariant = { λ s. IsIndexed s.by_use.keys s.by_key.keys };
}

// Puts the use into both orders, or into neither.
fn insert_use(
    by_use: &mut BTreeSet<Use>,
    by_key: &mut BTreeSet<KeyFirst>,
    new: Use,
) -> Result<(), AllocError>
    requires { IsIndexed by_use.old.keys by_key.old.keys }
    ensures indexed { IsIndexed by_use.new.keys by_key.new.keys }
    ensures ok { OnOk result (uses_in by_use.new.keys ≡ with (uses_in by_use.old.keys) new) }
    ensures err { OnErr result (uses_in by_use.new.keys ≡ uses_in by_use.old.keys) }
    ensures held { IsTrue (holds (uses_in by_use.old.keys) new) → IsOk result }
{
    if !by_use.insert(new)? {
        return Ok(());
    }
    match by_key.insert(KeyFirst::of(new)) {
        Ok(_) => Ok(()),
        Err(_) => {
            by_use.remove(&new);
            Err(AllocError)
        }
    }
}

fn first_expired(by_use: &BTreeSet<Use>, moment: u64) -> Option<Use>
    ensures { result ≡ first_expired moment by_use.now.keys }
{
    match by_use.iter().next() {
        None => None,
        Some(used) => {
            let used = *used;
            if used.is_live(moment) {
                None
            } else {
                Some(used)
            }
        }
    }
}

// Drops the expired uses from both orders, the least first, and returns how many.
fn drop_expired(by_use: &mut BTreeSet<Use>, by_key: &mut BTreeSet<KeyFirst>, moment: u64) -> usize
    requires { IsIndexed by_use.old.keys by_key.old.keys }
    ensures indexed { IsIndexed by_use.new.keys by_key.new.keys }
    ensures kept { uses_in by_use.new.keys ≡ live (uses_in by_use.old.keys) moment }
    ensures dropped { result + count (uses_in by_use.new.keys) ≡ count (uses_in by_use.old.keys) }
{
    let before = by_use.len();
    while let Some(used) = first_expired(by_use, moment) {
        by_use.remove(&used);
        by_key.remove(&KeyFirst::of(used));
    }
    before - by_use.len()
}

// Whether there is a use of this key, or a withdrawal of it. They are side by side, so the first that is not below the least
// possible one decides.
fn has_from(by_key: &BTreeSet<KeyFirst>, key: &[u8; 32], withdrawn: bool) -> bool
    ensures { (us : List Use) → IsIndexed us by_key.now.keys → result ≡ list_any (is_sought withdrawn key.now) us }
{
    let least = KeyFirst {
        key: *key,
        withdrawn,
        exp: 0,
        validator_id: [0; 16],
        at: 0,
    };
    match by_key
        .range((Bound::Included(least), Bound::Unbounded))
        .next()
    {
        None => false,
        Some(found) => found.has_key(key),
    }
}

impl IndexedUses {
    /// The empty set. Takes no memory.
    pub fn new(alloc: Global) -> IndexedUses
        ensures { result ≡ no_uses }
    {
        IndexedUses {
            by_use: BTreeSet::new(alloc),
            by_key: BTreeSet::new(alloc),
        }
    }
}

impl UseStore for IndexedUses {
    ghost content = { λ s. s };

    fn insert(&mut self, new: Use) -> Result<(), AllocError> {
        insert_use(&mut self.by_use, &mut self.by_key, new)
    }

    fn drop_expired(&mut self, moment: u64) -> Raised {
        let dropped = drop_expired(&mut self.by_use, &mut self.by_key, moment);
        Raised { dropped }
    }

    fn has(&self, key: &[u8; 32]) -> bool {
        has_from(&self.by_key, key, false)
    }

    fn is_withdrawn(&self, key: &[u8; 32]) -> bool {
        has_from(&self.by_key, key, true)
    }

    fn len(&self) -> usize {
        self.by_use.len()
    }

    fn next_after(&self, after: Option<Use>) -> Option<Use> {
        match after {
            None => self.by_use.iter().next().copied(),
            Some(last) => self
                .by_use
                .range((Bound::Excluded(last), Bound::Unbounded))
                .next()
                .copied(),
        }
    }
}
