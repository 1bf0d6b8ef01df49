ghost use Rattle.std.specs.Prelude.{◌≡◌, ◌+◌, ◌^◌, ◌<◌, ◌≤◌, drop, nat_lt, not, IfOk};
ghost use Rattle.svid_replay.specs.Uses.{has_use_of, live, no_uses};
ghost use Rattle.svid_log.specs.Members.{HasRead, MemberState, advanced, arrived, read_again, standing};
ghost use Rattle.svid_log.specs.Saves.{mark_of, restored, saved_of};
ghost use Rattle.svid_log.specs.Steps.{horizon};

use crate::order::order_of;
use crate::reading::rest_of;
use crate::rows::Standing;
use crate::{Claims, Fate, Mark, Order, Reading, Rest};
use std::alloc::{AllocError, Global};
use std::marker::Model;
use svid_replay::{Batch, Record, Use, UseStore};

/// A member of a group that reads one log. Its validator's record is passed to each call that reads.
///
/// Contracts see it as the uses beside the record, and what [`Member::new`] is given.
#[derive(Drop)]
pub struct Member<S: UseStore> {
    claims: Claims<S>,
    validator_id: [u8; 16],
    lasts: u64,
    passed: u64,
    begun: usize,
    ready: u64,
    deaf: u64,
}

impl<S: UseStore> Model for Member<S> {
    ghost use Rattle.svid_log.specs.Members.{MemberState, member_code};

    ghost Value = { MemberState };

    ghost coded = { member_code };

    ghost view = { λ m. record { beside = m.claims; validator_id = m.validator_id; lasts = m.lasts; passed = m.passed; begun = m.begun; ready = m.ready; deaf = m.deaf } };
}

// The uses of a value that are left to read.
fn behind(uses: &[Use], begun: usize) -> &[Use]
    ensures { result.now ≡ drop begun uses.now }
{
    if begun >= uses.len() {
        return &[];
    }
    uses.split_at(begun).1
}

impl<S: UseStore> Member<S> {
    /// A member that begins to read a log, with an empty store for the uses beside its record.
    ///
    /// `validator_id` is its validator's, and no other member's. `passed` is the number of the last value before the first one
    /// that the log still has: 0 where it has all. `ready` is the number of the last value that an earlier life of the member may
    /// have read, so pass that of the last one in the log at the start: the member accepts nothing from these values. Before the
    /// moment `deaf`, in seconds, it accepts nothing either: by then all uses of the values up to `passed` have expired. After a
    /// gap in the log it accepts nothing for `lasts` seconds: by then each use that was appended earlier has expired. To read
    /// another log, make a new member with the same record.
    pub fn new(
        store: S,
        validator_id: [u8; 16],
        lasts: u64,
        passed: u64,
        ready: u64,
        deaf: u64,
    ) -> Member<S>
        requires { S.content store ≡ no_uses }
        ensures { result ≡ record { beside = no_uses; validator_id = validator_id; lasts = lasts; passed = passed; begun = 0; ready = ready; deaf = deaf } }
    {
        Member {
            claims: Claims::new(store),
            validator_id,
            lasts,
            passed,
            begun: 0,
            ready,
            deaf,
        }
    }

    /// The uses beside the record, each as a batch, for a save. Save the record and [`Member::mark`] with them.
    pub fn save(&self, alloc: Global) -> Result<Vec<Batch>, AllocError>
        ensures { IfOk result (λ saved. saved.items ≡ saved_of self.now.beside) }
    {
        self.claims.save(alloc)
    }

    /// Where the member is in the log.
    pub fn mark(&self) -> Mark
        ensures { result ≡ mark_of self.now }
    {
        Mark {
            passed: self.passed,
            begun: self.begun,
            deaf: self.deaf,
        }
    }

    /// Whether the member has read everything that its earlier lives may have read. Until then it accepts nothing.
    pub fn is_ready(&self) -> bool
        ensures { result ≡ not (nat_lt self.now.passed self.now.ready) }
    {
        self.passed >= self.ready
    }

    /// Lets the member accept claims though it missed uses of the log that may still live. A token whose claim it missed may then
    /// be accepted twice.
    pub fn go_on(&mut self)
        ensures { self.new ≡ record { beside = self.old.beside; validator_id = self.old.validator_id; lasts = self.old.lasts; passed = self.old.passed; begun = self.old.begun; ready = self.old.ready; deaf = 0 } }
    {
        self.deaf = 0;
    }

    /// Whether a use beside the record has this key and is live at a moment, in seconds. Uses that have expired by then are
    /// dropped.
    pub fn has(&mut self, moment: u64, key: &[u8; 32]) -> bool
        ensures has { result ≡ has_use_of (live self.old.beside moment) key.now }
        ensures left { self.new ≡ record { beside = live self.old.beside moment; validator_id = self.old.validator_id; lasts = self.old.lasts; passed = self.old.passed; begun = self.old.begun; ready = self.old.ready; deaf = self.old.deaf } }
    {
        self.claims.has(moment, key)
    }

    // Moves to a value.
    fn arrive(&mut self, moment: u64, position: u64)
        requires { self.old.passed < position }
        ensures { self.new ≡ arrived self.old moment position }
    {
        if position - 1 > self.passed {
            self.passed = position - 1;
            self.begun = 0;
            self.deaf = self.deaf.max(moment.saturating_add(self.lasts));
        }
    }

    // What decides whether the claims of a value are accepted.
    fn standing(&self, position: u64) -> Standing
        ensures { result ≡ standing self.now position }
    {
        Standing {
            validator_id: self.validator_id,
            fresh: position > self.ready,
            deaf: self.deaf,
        }
    }

    // Counts so many of the uses that were left of a value as read.
    fn advance(&mut self, position: u64, count: usize, left: usize)
        requires { count < left → self.old.begun + count < 2 ^ 64 }
        ensures { self.new ≡ advanced self.old position count left self.old.beside }
    {
        if count < left {
            self.begun += count;
        } else {
            self.passed = position;
            self.begun = 0;
        }
    }

    /// Reads the value with this number in the log at a moment, in seconds, and writes the fate of each of its uses.
    ///
    /// Values are counted from 1, and `uses` are all uses of the value. The member goes on where it stopped in the value, and
    /// reads as many uses as `fates` has room for; [`Reading::from`] and [`Reading::count`] say which. `ahead` is how many
    /// seconds the time of a use may lie after `now`. A value that was read before changes nothing. Where values are missing
    /// ([`Order::Gap`]), the member reads on, and accepts nothing until everything that it missed has expired.
    ///
    /// Where memory is refused for a use ([`Rest::NoMemory`]), only the record's moment moves for it: the next call with the same
    /// value reads it.
    pub fn read<R: UseStore>(
        &mut self,
        held: &mut Record<R>,
        now: u64,
        ahead: u64,
        position: u64,
        uses: &[Use],
        fates: &mut [Fate],
    ) -> Reading
        ensures again { position ≤ self.old.passed → (result ≡ read_again) × (self.new ≡ self.old) × (held.new ≡ held.old) × (fates.new ≡ fates.old) }
        ensures read { self.old.passed < position → HasRead now (horizon now ahead) position self.old held.old uses.now fates.old result self.new held.new fates.new }
    {
        let order = order_of(self.passed, position);
        if order == Order::Again {
            return Reading {
                order,
                from: 0,
                count: 0,
                rest: Rest::Nothing,
            };
        }
        self.arrive(held.moment().max(now), position);
        let from = self.begun;
        let left = behind(uses, from);
        let standing = self.standing(position);
        let count = self
            .claims
            .read_all(held, now, ahead, &standing, left, fates);
        self.advance(position, count, left.len());
        Reading {
            order,
            from,
            count,
            rest: rest_of(count, left.len(), fates.len()),
        }
    }
}

impl<S: UseStore + Drop> Member<S> {
    /// A member that goes on from a save of an earlier life.
    ///
    /// `mark` and `beside`, the uses of the batches that were saved, are of one moment, and the record is of that moment or a
    /// later one. The other arguments are as in [`Member::new`].
    pub fn restore(
        store: S,
        validator_id: [u8; 16],
        lasts: u64,
        mark: Mark,
        ready: u64,
        beside: &[Use],
    ) -> Result<Member<S>, AllocError>
        requires { S.content store ≡ no_uses }
        ensures { IfOk result (λ member. member ≡ restored validator_id lasts mark ready beside.now) }
    {
        let claims = Claims::restore(store, beside)?;
        Ok(Member {
            claims,
            validator_id,
            lasts,
            passed: mark.passed,
            begun: mark.begun,
            ready,
            deaf: mark.deaf,
        })
    }
}
