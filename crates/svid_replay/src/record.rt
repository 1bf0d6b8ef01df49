ghost use Rattle.std.specs.Prelude.{◌≡◌, ◌↔◌, ◌+◌, ◌<◌, ◌≤◌, ℕ, List, [], ◌∷◌, false, true, filter, length, nat_lt, IsTrue, IsOk, IfOk, OnOk, OnErr};
ghost use Rattle.std.specs.List.{AllByRecursion};
ghost use Rattle.std.specs.List.Sorted.{IsNonDecreasing};
ghost use Rattle.svid_replay.specs.Batches.{last_of};
ghost use Rattle.svid_replay.specs.Buckets.{answer_to, raised_to, stale, summary_of};
ghost use Rattle.svid_replay.specs.Prefixes.{has_prefix, is_among};
ghost use Rattle.svid_replay.specs.Parts.{cut};
ghost use Rattle.svid_replay.specs.Records.{HasNoNew, IsPartlyJoined, IsRecord, batch_state, join, state_of};
ghost use Rattle.svid_replay.specs.Sets.{holds, rising};
ghost use Rattle.svid_replay.specs.Twice.{IsTwice, twice_of, used, uses_of};
ghost use Rattle.svid_replay.specs.Use.{IsRising, IsUse};
ghost use Rattle.svid_replay.specs.Uses.{count, has_use_of, has_withdrawal_of, next_above, no_uses};
ghost use Rattle.svid_replay.specs.Walks.{IsAhead, next_few, uses_behind};

use crate::ahead::Ahead;
use crate::buckets::digests_of;
use crate::filter::no_keys;
use crate::parts::cut;
use crate::prefixes::{in_order, is_among, note};
use crate::room::Room;
use crate::sorted::count_expired;
use crate::stale::{Stale, list_of};
use crate::store::{Raised, UseStore};
use crate::twice::twice_in;
use crate::{Batch, Summary, Twice, Use, Walk};
use std::alloc::{AllocError, Global};
use std::marker::Model;

/// A moment, and a set of uses that were made by then and expire later. It only changes by joins: the greater moment, and of the
/// uses of both sides those that expire after it.
#[derive(Debug, Drop)]
pub struct Record<S: UseStore> {
    moment: u64,
    store: S,
}

impl<S: UseStore> Model for Record<S> {
    ghost use Rattle.svid_replay.specs.Records.{IsRecord, State, state_code};

    ghost Value = { State };

    ghost coded = { state_code };

    ghost view = { λ r. record { moment = r.moment; uses = S.content r.store } };

    ghost invariant = { λ r. IsRecord (record { moment = r.moment; uses = S.content r.store }) };
}

impl<S: UseStore> Record<S> {
    /// The record of moment 0 with no uses, in an empty store.
    pub fn new(store: S) -> Record<S>
        requires { S.content store ≡ no_uses }
        ensures { result ≡ state_of 0 [] }
    {
        Record { moment: 0, store }
    }

    /// The record's moment, in seconds.
    pub fn moment(&self) -> u64
        ensures value { result ≡ self.now.moment }
        ensures is_record { IsRecord self.now }
    {
        self.moment
    }

    /// The store of the record's uses, for questions that only stores of its kind answer. Takes no memory.
    pub fn store(&self) -> &S
        ensures { S.content result.now ≡ self.now.uses }
    {
        &self.store
    }

    /// How many uses the record has.
    pub fn len(&self) -> usize
        ensures { result ≡ count self.now.uses }
    {
        self.store.len()
    }

    /// Whether the record has no uses.
    pub fn is_empty(&self) -> bool
        ensures { IsTrue result ↔ (self.now.uses ≡ no_uses) }
    {
        self.store.is_empty()
    }

    /// Whether a use of the record has this key.
    pub fn has(&self, key: &[u8; 32]) -> bool
        ensures { result ≡ has_use_of self.now.uses key.now }
    {
        self.store.has(key)
    }

    /// Whether a withdrawal of the record has this key.
    pub fn is_withdrawn(&self, key: &[u8; 32]) -> bool
        ensures { result ≡ has_withdrawal_of self.now.uses key.now }
    {
        self.store.is_withdrawn(key)
    }

    /// The least use of the record, or the least that is greater than the one given.
    pub fn next_after(&self, after: Option<Use>) -> Option<Use>
        ensures { result ≡ next_above self.now.uses after }
    {
        self.store.next_after(after)
    }

    // the next uses, as many as the room takes, from the walk's position
    pub(crate) fn next_ahead(&self, ahead: &mut Ahead, room: &mut Room)
        requires { IsAhead self.now.uses ahead.old }
        ensures next { room.new ≡ next_few self.now.uses ahead.old.after }
        ensures after { ahead.new.after ≡ last_of ahead.old.after room.new }
        ensures ahead { IsAhead self.now.uses ahead.new }
    {
        self.store.next_ahead(ahead, room);
    }

    /// The uses of the record, rising. Takes no memory.
    pub fn walk(&self) -> Walk<'_, S>
        ensures { result ≡ rising self.now.uses }
    {
        Walk::of(self, None)
    }

    /// The uses of the record that are greater than the one given, or all of them, rising. Takes no memory.
    pub fn walk_after(&self, after: Option<Use>) -> Walk<'_, S>
        ensures { result ≡ uses_behind self.now.uses after }
    {
        Walk::of(self, after)
    }

    /// Joins a moment (in seconds): the record's moment becomes the greater, and the uses that expire by then are dropped. The
    /// record is then the joined one, though its store may still hold memory of dropped uses: this and later calls give it back
    /// in parts, as the store's `tidy` does. Needs no memory.
    pub fn raise(&mut self, now: u64) -> Raised
        ensures joined { self.new ≡ join self.old (state_of now []) }
        ensures dropped { result.dropped + count self.new.uses ≡ count self.old.uses }
    {
        self.moment = self.moment.max(now);
        let raised = self.store.drop_expired(self.moment);
        self.store.tidy();
        raised
    }

    /// Makes walks over the record quicker, if its store has a way to do that and is given the memory for it. The
    /// record stays the same.
    pub fn compact(&mut self)
        ensures { self.new ≡ self.old }
    {
        self.store.compact();
    }

    // joins one use that was made by the record's moment
    fn take_in(&mut self, used: Use) -> Result<(), AllocError>
        requires { used.at ≤ self.old.moment }
        ensures ok { OnOk result (self.new ≡ join self.old (state_of self.old.moment (used ∷ []))) }
        ensures err { OnErr result (self.new ≡ self.old) }
        ensures refused { OnErr result ((self.old.moment < used.exp) × (holds self.old.uses used ≡ false)) }
    {
        if used.is_live(self.moment) {
            self.store.insert(used)?;
        }
        Ok(())
    }

    // joins rising uses that were made by the record's moment, all at once; where the store cannot do that the record stays as it
    // was
    fn take_all(&mut self, uses: &[Use]) -> bool
        requires rising { IsRising uses.now }
        requires fields { AllByRecursion IsUse uses.now }
        requires made { AllByRecursion (λ u. u.at ≤ self.old.moment) uses.now }
        ensures all { IsTrue result → self.new ≡ join self.old (state_of self.old.moment uses.now) }
        ensures none { result ≡ false → self.new ≡ self.old }
    {
        let expired = count_expired(uses, self.moment);
        let (_, live) = uses.split_at(expired);
        self.store.insert_all(live)
    }

    /// Joins one use that was made by the record's moment and expires after it.
    ///
    /// Where memory is refused the record stays as it was. Adding a use that the record has already always succeeds.
    pub fn add(&mut self, new: Use) -> Result<(), AllocError>
        requires made { new.at ≤ self.old.moment }
        requires live { self.old.moment < new.exp }
        ensures ok { OnOk result (self.new ≡ join self.old (state_of self.old.moment (new ∷ []))) }
        ensures err { OnErr result (self.new ≡ self.old) }
        ensures held { IsTrue (holds self.old.uses new) → IsOk result }
    {
        self.take_in(new)
    }

    /// Joins a batch.
    ///
    /// Where memory is refused, the record is the old one joined with the batch's moment and the uses before the first that was
    /// refused. Where no use of the batch is new and live, the call succeeds.
    pub fn absorb(&mut self, batch: &Batch) -> Result<(), AllocError>
        ensures joined { OnOk result (self.new ≡ join self.old (batch_state batch.now)) }
        ensures refused { OnErr result (IsPartlyJoined self.old self.new batch.now.moment batch.now.uses) }
        ensures nothing_new { HasNoNew self.old batch.now.moment batch.now.uses → IsOk result }
    {
        self.raise(batch.moment());
        if self.take_all(batch.uses()) {
            return Ok(());
        }
        for used in batch.uses() {
            self.take_in(*used)?;
        }
        Ok(())
    }

    /// Joins another record, whatever its store.
    ///
    /// Where memory is refused, the record is the old one joined with the other's moment and those of its uses that are less than
    /// the first that was refused. Where no use of the other is new and live, the call succeeds.
    pub fn merge<T: UseStore>(&mut self, other: &Record<T>) -> Result<(), AllocError>
        ensures joined { OnOk result (self.new ≡ join self.old other.now) }
        ensures refused { OnErr result (IsPartlyJoined self.old self.new other.now.moment (rising other.now.uses)) }
        ensures nothing_new { HasNoNew self.old other.now.moment (rising other.now.uses) → IsOk result }
    {
        self.raise(other.moment());
        for used in other.walk() {
            self.take_in(used)?;
        }
        Ok(())
    }

    /// The uses, withdrawals among them, rising.
    pub fn uses(&self, alloc: Global) -> Result<Vec<Use>, AllocError>
        ensures { IfOk result (λ uses. uses.items ≡ rising self.now.uses) }
    {
        let mut uses = Vec::with_capacity(alloc, self.len())?;
        for used in self.walk() {
            uses.push(used)?;
        }
        Ok(uses)
    }

    // the prefixes of the keys that two uses have that are no withdrawals, and maybe of other keys
    fn prefixes(&self, alloc: Global) -> Result<Vec<u64>, AllocError>
        ensures { IfOk result (λ prefixes. (key : List ℕ) → nat_lt 1 (length (uses_of key (used (rising self.now.uses)))) ≡ true → has_prefix prefixes.items key ≡ true) }
    {
        let mut key_filter = no_keys(alloc, self.len())?;
        let mut prefixes = Vec::new(alloc);
        for used in self.walk() {
            note(&mut key_filter, &mut prefixes, &used)?;
        }
        Ok(prefixes)
    }

    // the uses that are no withdrawals and whose keys have these prefixes, rising
    fn used_among(&self, alloc: Global, prefixes: &[u64]) -> Result<Vec<Use>, AllocError>
        requires { IsNonDecreasing prefixes.now }
        ensures { IfOk result (λ uses. uses.items ≡ filter (is_among prefixes.now) (rising self.now.uses)) }
    {
        self.walk()
            .filter(|used| is_among(prefixes, used))
            .collect(alloc)
    }

    /// The keys that two or more of the record's uses have, rising, each with all its uses. Withdrawals do not count.
    ///
    /// Looks at each use twice. Beside its result it holds two bytes a use, and eight for each use whose key came before, or may
    /// have: a filter says which, and is wrong for about one key in 250 where keys are digests. Then it holds the uses of these
    /// keys twice, since sorting them takes room for as many. At worst it takes n log n steps for n uses, and two copies of all.
    pub fn report(&self, alloc: Global) -> Result<Vec<Twice>, AllocError>
        ensures value { IfOk result (λ listed. listed.items ≡ twice_of (used (rising self.now.uses))) }
        ensures relation { IfOk result (λ listed. IsTwice (used (rising self.now.uses)) listed.items) }
    {
        let prefixes = in_order(self.prefixes(alloc)?);
        let uses = self.used_among(alloc, &prefixes)?;
        twice_in(alloc, uses)
    }

    /// The record as batches of its moment, which hold its uses in rising order: 65,536 in each but the last, which has 1 to
    /// 65,536. A record without uses gives one batch with no use. Holds the uses twice while it makes them.
    pub fn parts(&self, alloc: Global) -> Result<Vec<Batch>, AllocError>
        ensures { IfOk result (λ parts. parts.items ≡ cut self.now.moment (rising self.now.uses)) }
    {
        let uses = self.uses(alloc)?;
        cut(alloc, self.moment(), &uses)
    }

    /// The summary of the record: its moment, and the digest of each of its 256 buckets.
    ///
    /// Takes no memory, and looks at each use once.
    #[tactic(auto, unfolding(crate::specs::Buckets::summary_of))]
    pub fn summary(&self) -> Summary
        ensures { result ≡ summary_of self.now }
    {
        Summary::make(self.moment, digests_of(self))
    }

    /// The uses of all buckets whose digest differs from the summary's, rising. The record's moment stays.
    ///
    /// Takes no memory, and looks at each use twice.
    pub fn stale<'a>(&'a self, summary: &'a Summary) -> Stale<'a, S>
        ensures { result ≡ rising (stale summary.now self.now.uses) }
    {
        Stale::of(self, summary)
    }

    /// Advances the record to the summary's moment, and returns the uses of all buckets whose digest then differs from the
    /// summary's, as batches of the record's moment: 65,536 uses in rising order in each but the last. One batch with no use
    /// where there are no such uses.
    ///
    /// Where memory is refused, the record is only advanced. Looks at each use three times, and holds those that it returns twice
    /// while it makes the batches.
    pub fn answer(&mut self, alloc: Global, summary: &Summary) -> Result<Vec<Batch>, AllocError>
        ensures raised { self.new ≡ raised_to self.old summary.now.moment }
        ensures answer { IfOk result (λ batches. batches.items ≡ answer_to self.old summary.now) }
    {
        self.raise(summary.moment());
        let uses = list_of(alloc, self.stale(summary))?;
        cut(alloc, self.moment, &uses)
    }
}
