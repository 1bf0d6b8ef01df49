ghost use Rattle.std.specs.Prelude.{◌≡◌, ◌∷◌, ◌<◌, ◌≤◌, [], false, IfOk, OnErr, if◌then◌else◌};
ghost use Rattle.svid_replay.specs.Buckets.{raised_to};
ghost use Rattle.svid_replay.specs.Sets.{holds};
ghost use Rattle.svid_replay.specs.Uses.{has_use_of, has_withdrawal_of, live, no_uses};
ghost use Rattle.svid_log.specs.Saves.{alone, put_all, saved_of};
ghost use Rattle.svid_log.specs.Steps.{AreSound, IsSound, beside_after, fate_at, fate_of, held_after, horizon, is_early, passing, put_beside, reached};

use crate::Fate;
use std::alloc::{AllocError, Global};
use std::marker::Model;
use svid_replay::{Batch, Record, Use, UseStore};

/// The uses of a log that a member has read and that its record did not take, until they expire.
///
/// Contracts see it as the set of these uses.
#[derive(Debug, Drop)]
pub struct Claims<S: UseStore> {
    store: S,
}

impl<S: UseStore> Model for Claims<S> {
    ghost use Rattle.svid_replay.specs.Uses.{Uses, uses_code};
    ghost use Rattle.svid_log.specs.Steps.{AreSound};

    ghost Value = { Uses };

    ghost coded = { uses_code };

    ghost view = { λ c. S.content c.store };

    ghost invariant = { λ c. AreSound (S.content c.store) };
}

// Advances a record to the time of a use, unless the use is early: after the record's moment and after the horizon. Returns
// whether it is early.
fn pass<R: UseStore>(held: &mut Record<R>, far: u64, used: &Use) -> bool
    ensures early { result ≡ is_early held.old far used.now }
    ensures passed { held.new ≡ passing held.old far used.now }
    ensures made { result ≡ false → used.now.at ≤ held.new.moment }
{
    if used.at <= held.moment() {
        return false;
    }
    if used.at > far {
        return true;
    }
    held.raise(used.at);
    false
}

// The fate of a claim whose key the record has already.
fn used_before<R: UseStore>(held: &Record<R>, key: &[u8; 32]) -> Fate
    ensures { result ≡ (if has_withdrawal_of held.now.uses key.now then Fate.Withdrawn else Fate.Replayed) }
{
    if held.is_withdrawn(key) {
        return Fate::Withdrawn;
    }
    Fate::Replayed
}

// The fate of a use, by a record at its moment and the uses beside it.
fn fate_of<R: UseStore, S: UseStore>(held: &Record<R>, beside: &S, early: bool, used: &Use) -> Fate
    ensures fate { result ≡ fate_of held.now (S.content beside.now) early used.now }
    ensures first { result ≡ Fate.First → (early ≡ false) × (held.now.moment < used.now.exp) }
    ensures withdrawal { result ≡ Fate.Withdrawal → (early ≡ false) × (held.now.moment < used.now.exp) }
{
    if used.exp <= held.moment() || used.exp <= used.at {
        return Fate::Expired;
    }
    if early {
        return Fate::TooFarAhead;
    }
    if used.withdrawn {
        return Fate::Withdrawal;
    }
    if held.has(&used.key) {
        return used_before(held, &used.key);
    }
    if beside.has(&used.key) {
        return Fate::Replayed;
    }
    Fate::First
}

// A batch of one use, of the moment at which the use was made.
fn alone(alloc: Global, used: Use) -> Result<Batch, AllocError>
    requires { IsSound used }
    ensures { IfOk result (λ batch. batch ≡ alone used) }
{
    let mut uses = Vec::new(alloc);
    uses.push(used)?;
    Ok(Batch::from_good(used.at, uses))
}

// The uses of a store in rising order, each as a batch.
fn save_all<S: UseStore>(alloc: Global, store: &S) -> Result<Vec<Batch>, AllocError>
    requires { AreSound (S.content store.now) }
    ensures { IfOk result (λ saved. saved.items ≡ saved_of (S.content store.now)) }
{
    let mut saved = Vec::new(alloc);
    let mut after = None;
    while let Some(used) = store.next_after(after) {
        saved.push(alone(alloc, used)?)?;
        after = Some(used);
    }
    Ok(saved)
}

impl<S: UseStore> Claims<S> {
    /// No uses, in an empty store.
    pub fn new(store: S) -> Claims<S>
        requires { S.content store ≡ no_uses }
        ensures { result ≡ no_uses }
    {
        Claims { store }
    }

    /// The uses in rising order, each as a batch of the moment at which it was made.
    pub fn save(&self, alloc: Global) -> Result<Vec<Batch>, AllocError>
        ensures { IfOk result (λ saved. saved.items ≡ saved_of self.now) }
    {
        save_all(alloc, &self.store)
    }

    // Puts a use beside the record, unless it has expired or expires before it was made.
    fn put(&mut self, moment: u64, used: Use) -> Result<(), AllocError>
        ensures ok { IfOk result (λ _. self.new ≡ put_beside moment self.old used) }
        ensures err { OnErr result (self.new ≡ self.old) }
    {
        if used.is_live(moment) && used.is_live(used.at) {
            self.store.insert(used)?;
        }
        Ok(())
    }

    // Drops the uses that have expired.
    fn drop_expired(&mut self, moment: u64)
        ensures { self.new ≡ live self.old moment }
    {
        self.store.drop_expired(moment);
        self.store.tidy();
    }

    /// Whether a use beside the record has this key and is live at a moment, in seconds. Uses that have expired by then are
    /// dropped.
    pub fn has(&mut self, moment: u64, key: &[u8; 32]) -> bool
        ensures has { result ≡ has_use_of (live self.old moment) key.now }
        ensures left { self.new ≡ live self.old moment }
    {
        self.drop_expired(moment);
        self.store.has(key)
    }

    /// Reads the next use of the log at a moment, in seconds. Returns its fate, and keeps it in the record or beside it.
    ///
    /// `ahead` is how many seconds its time may lie after `now`. Where memory is refused, only the moment moves and expired uses
    /// are dropped: read the same use again.
    pub fn read<R: UseStore>(
        &mut self,
        held: &mut Record<R>,
        now: u64,
        ahead: u64,
        used: Use,
    ) -> Result<Fate, AllocError>
        ensures fate { IfOk result (λ fate. fate ≡ fate_at held.old self.old now (horizon now ahead) used) }
        ensures held { IfOk result (λ fate. held.new ≡ held_after held.old self.old now (horizon now ahead) used) }
        ensures beside { IfOk result (λ fate. self.new ≡ beside_after held.old self.old now (horizon now ahead) used) }
        ensures refused_held { OnErr result (held.new ≡ reached held.old now (horizon now ahead) used) }
        ensures refused_beside { OnErr result (self.new ≡ live self.old (reached held.old now (horizon now ahead) used).moment) }
    {
        held.raise(now);
        let early = pass(held, now.saturating_add(ahead), &used);
        self.drop_expired(held.moment());
        let fate = fate_of(held, &self.store, early, &used);
        match fate {
            Fate::First | Fate::Withdrawal => held.add(used)?,
            Fate::Withdrawn | Fate::Replayed | Fate::TooFarAhead => self.put(held.moment(), used)?,
            Fate::Expired | Fate::Accepted => (),
        }
        Ok(fate)
    }
}

impl<S: UseStore + Drop> Claims<S> {
    /// These uses, without those that expire before they were made, in an empty store.
    pub fn restore(store: S, uses: &[Use]) -> Result<Claims<S>, AllocError>
        requires { S.content store ≡ no_uses }
        ensures { IfOk result (λ claims. claims ≡ put_all no_uses uses.now) }
    {
        let mut claims = Claims::new(store);
        for used in uses {
            claims.put(used.at, *used)?;
        }
        Ok(claims)
    }
}
