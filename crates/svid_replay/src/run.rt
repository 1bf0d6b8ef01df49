//! Uses that rise, as a run of a larger set.
ghost use Rattle.std.specs.Prelude.{◌≡◌, ◌+◌, ◌∷◌, ◌≤◌, length, drop, filter, nat_lt, true, IfOk, OnOk, OnErr, option_copied};
ghost use Rattle.std.specs.List.{list_any};
ghost use Rattle.std.specs.Ordering.{eq_by_cmp};
ghost use Rattle.std.specs.Set.{sorted_merge};
ghost use Rattle.svid_replay.specs.Indexed.{is_sought};
ghost use Rattle.svid_replay.specs.Runs.{HasSame};
ghost use Rattle.svid_replay.specs.Use.{IsRising, use_cmp};
ghost use Rattle.svid_replay.specs.Uses.{next_above, uses_in};
ghost use Rattle.svid_replay.specs.declared.token_use.Use.{Use};

use crate::Use;
use crate::expiry::Expiry;
use crate::filter::{add, filter_of, may_have, renew};
use crate::keys::{expired_by_then, keys_of, sweep, tell_key};
use crate::merge::merge;
use crate::sorted::{count_expired, drop_front, first_near, has_sought, insert_use};
use std::alloc::{AllocError, Global};
use std::marker::Model;

// Uses that rise, with a filter of their keys, `key_filter`. New uses go into it while it is `open`, and then it has no other
// keys. Where it is `keyed`, `by_key` has the keys, sorted. The uses before `start` are dropped: they expired by the moment
// `expired_by`. Their keys may still be there.
#[derive(Debug, Drop)]
pub(crate) struct Run {
    by_use: Vec<Use>,
    start: usize,
    open: bool,
    keyed: bool,
    by_key: Vec<Expiry>,
    expired_by: Option<u64>,
    key_filter: Vec<u64>,
}

impl Model for Run {
    ghost use Rattle.std.specs.Prelude.{List, drop};
    ghost use Rattle.svid_replay.specs.Runs.{IsRun, run_code};
    ghost use Rattle.svid_replay.specs.declared.token_use.Use.{Use};

    ghost Value = { List Use };

    ghost coded = { run_code };

    ghost view = { λ r. drop r.start r.by_use.items };

    ghost invariant = { λ r. IsRun r.by_use.items r.start r.keyed r.by_key.items r.expired_by r.key_filter.items };
}

fn holds_use(uses: &[Use], used: &Use) -> bool
    requires { IsRising uses.now }
    ensures { result ≡ list_any (eq_by_cmp use_cmp used.now) uses.now }
{
    match uses.binary_search(used) {
        Ok(_) => true,
        Err(_) => false,
    }
}

impl Run {
    // An open run of these uses.
    pub(crate) fn of(alloc: Global, by_use: Vec<Use>) -> Result<Run, AllocError>
        requires { IsRising by_use.items }
        ensures { IfOk result (λ run. run ≡ by_use.items) }
    {
        let key_filter = filter_of(alloc, &by_use)?;
        Ok(Run {
            by_use,
            start: 0,
            open: true,
            keyed: false,
            by_key: Vec::new(alloc),
            expired_by: None,
            key_filter,
        })
    }

    // Whether new uses go into it.
    pub(crate) fn is_open(&self) -> bool {
        self.open
    }

    // Puts in a use. The run is open then.
    pub(crate) fn insert(&mut self, new: Use) -> Result<(), AllocError>
        ensures ok { OnOk result (HasSame (new ∷ self.old) self.new) }
        ensures less { length self.new ≤ length self.old + 1 }
        ensures err { OnErr result (self.new ≡ self.old) }
    {
        insert_use(&mut self.by_use, self.start, new)?;
        add(&mut self.key_filter, &new.key);
        self.open = true;
        self.keyed = false;
        self.expired_by = None;
        Ok(())
    }

    // Takes in the uses of another run. The result is open where either was, and has keys where both had them.
    pub(crate) fn absorb(&mut self, alloc: Global, other: &mut Run) -> Result<(), AllocError>
        ensures ok { OnOk result (self.new ≡ sorted_merge use_cmp true self.old other.old) }
        ensures err { OnErr result (self.new ≡ self.old) }
        ensures other { other.new ≡ other.old }
    {
        let by_use = merge(alloc, self.uses(), other.uses())?;
        sweep(&mut self.by_key, self.expired_by);
        self.expired_by = None;
        sweep(&mut other.by_key, other.expired_by);
        other.expired_by = None;
        let by_key = merge(alloc, &self.by_key, &other.by_key)?;
        self.key_filter = filter_of(alloc, &by_use)?;
        self.by_use = by_use;
        self.by_key = by_key;
        self.start = 0;
        self.open |= other.open;
        self.keyed &= other.keyed;
        Ok(())
    }

    // Closes the run to new uses. It gets keys if `keyed` asks for them and memory allows.
    pub(crate) fn close(&mut self, alloc: Global, keyed: bool) -> Result<(), AllocError>
        ensures { self.new ≡ self.old }
    {
        if keyed && !self.keyed {
            self.by_key = keys_of(alloc, self.uses())?;
            self.expired_by = None;
            self.keyed = true;
        }
        self.open = false;
        Ok(())
    }

    pub(crate) fn uses(&self) -> &[Use]
        ensures value { result.now ≡ self.now }
        ensures rising { IsRising result.now }
    {
        &self.by_use[self.start..]
    }

    pub(crate) fn holds(&self, used: &Use) -> bool
        ensures { result ≡ list_any (eq_by_cmp use_cmp used.now) self.now }
    {
        let used = *used;
        let key = used.key;
        if !may_have(&self.key_filter, &key) {
            return false;
        }
        holds_use(self.uses(), &used)
    }

    // Whether there is a use of this key, or a withdrawal of it.
    pub(crate) fn has(&self, key: &[u8; 32], withdrawn: bool) -> bool
        ensures { result ≡ list_any (is_sought withdrawn key.now) self.now }
    {
        if !may_have(&self.key_filter, key) {
            return false;
        }
        if self.keyed {
            tell_key(&self.by_key, key, withdrawn, self.expired_by)
        } else {
            has_sought(self.uses(), key, withdrawn)
        }
    }

    // The first use, or the next one after `after`, which is mostly near an index.
    pub(crate) fn next_near(&self, after: &Option<Use>, near: &mut u16) -> Option<&Use>
        ensures { option_copied result ≡ next_above (uses_in self.now) after.now }
    {
        first_near(self.uses(), after, near)
    }

    // Moves the start past the uses that expire by a moment, and returns how many these are. `tidy` gives back their memory.
    pub(crate) fn drop_expired(&mut self, moment: u64) -> usize
        ensures kept { self.new ≡ filter (λ u. nat_lt moment u.exp) self.old }
        ensures dropped { result + length self.new ≡ length self.old }
    {
        let dropped = count_expired(self.uses(), moment);
        self.start += dropped;
        self.expired_by = expired_by_then(self.expired_by, moment);
        dropped
    }

    // Gives back the memory of the dropped uses, where they are more than the others.
    pub(crate) fn tidy(&mut self)
        ensures { self.new ≡ self.old }
    {
        if self.start <= self.by_use.len() / 2 {
            return;
        }
        drop_front(&mut self.by_use, self.start);
        sweep(&mut self.by_key, self.expired_by);
        self.start = 0;
        self.expired_by = None;
        renew(&mut self.key_filter, &self.by_use);
        self.by_use.shrink_to_fit();
        self.by_key.shrink_to_fit();
    }
}
