ghost use Rattle.std.specs.Prelude.{◌≡◌, [], IfOk, OnErr};
ghost use Rattle.std.specs.BTreeMap.{is_at};
ghost use Rattle.std.specs.Map.{set_value};
ghost use Rattle.std.specs.Ordering.{nat_cmp};
ghost use Rattle.svid_member.specs.Withdrawals.{HasCome, after_place, after_time, due_of, ended_by_place, ended_by_time, find, first, in_parts, part_of};

use crate::part::Part;
use crate::place::Place;
use crate::withdrawal::Withdrawal;
use std::alloc::{AllocError, Global};
use std::collections::BTreeMap;
use std::marker::Model;

/// The withdrawals of a member that some place does not have yet. Each is answered once: when all places have said whether they have it, or when
/// its time is over.
#[derive(Drop)]
pub struct Withdrawals {
    wait: u64,
    parts: Withdrawal,
    next: u64,
    under_way: BTreeMap<u64, Withdrawal>,
}

impl Model for Withdrawals {
    ghost use Rattle.svid_member.specs.Withdrawals.{Table};

    ghost Value = { Table };

    ghost view = { λ w. record { wait = w.wait; parts = w.parts; next = w.next; under_way = w.under_way.entries } };
}

// A place that is to have withdrawals waits for each of them.
fn part_of(has: bool) -> Part
    ensures { result ≡ part_of has }
{
    if has {
        return Part::Waits;
    }
    Part::Done
}

// Puts another withdrawal in the place of the one of this number.
fn put(under_way: &mut BTreeMap<u64, Withdrawal>, number: u64, made: Withdrawal)
    ensures { under_way.new.entries ≡ set_value (is_at (nat_cmp number)) under_way.old.entries made }
{
    if let Some(place) = under_way.get_mut(&number) {
        *place = made;
    }
}

impl Withdrawals {
    /// No withdrawals. Each is on its way to the state folder, the store and the log, as far as there are such, for `wait` at the most. No memory is
    /// taken.
    pub fn new(alloc: Global, wait: u64, disk: bool, store: bool, log: bool) -> Withdrawals
        ensures { result ≡ record { wait = wait; parts = in_parts disk store log; next = 0; under_way = [] } }
    {
        Withdrawals {
            wait,
            parts: Withdrawal {
                deadline: 0,
                disk: part_of(disk),
                store: part_of(store),
                log: part_of(log),
            },
            next: 0,
            under_way: BTreeMap::new(alloc),
        }
    }

    /// Adds a withdrawal that the record has. Answers its number, or `None` if no number is left: then it is not sent.
    ///
    /// If memory is refused, it is not sent either, and the same withdrawal may be made again.
    pub fn come(&mut self, up: u64) -> Result<Option<u64>, AllocError>
        ensures ok { IfOk result (λ number. HasCome up self.old number self.new) }
        ensures err { OnErr result (self.new ≡ self.old) }
    {
        if self.next == u64::MAX {
            return Ok(None);
        }
        let number = self.next;
        let made = self.parts.by(up.saturating_add(self.wait));
        self.under_way.insert(number, made)?;
        self.next += 1;
        Ok(Some(number))
    }

    /// Reports that a place has the withdrawal of this number, or may not have it. Answers the withdrawal if it waits for no further place: it is
    /// done if all places have it. Has no effect on one that has ended.
    pub fn told(&mut self, number: u64, place: Place, ok: bool) -> Option<(u64, Withdrawal)>
        ensures ended { result ≡ ended_by_place number place ok (find number self.old) }
        ensures left { self.new ≡ after_place number place ok (find number self.old) self.old }
    {
        let Some(before) = self.under_way.get(&number).copied() else {
            return None;
        };
        let made = before.told(place, ok);
        if made.is_over() {
            self.under_way.remove(&number);
            return Some((number, made));
        }
        put(&mut self.under_way, number, made);
        None
    }

    // The one that came first, with its number.
    fn first(&self) -> Option<(u64, Withdrawal)>
        ensures { result ≡ first self.now.under_way }
    {
        match self.under_way.first_key_value() {
            None => None,
            Some((number, made)) => Some((*number, *made)),
        }
    }

    /// Gives up the withdrawal that came first, if its time is over at `up`: where it waits it has failed. To be called until it answers `None`.
    pub fn overdue(&mut self, up: u64) -> Option<(u64, Withdrawal)>
        ensures ended { result ≡ ended_by_time up (first self.old.under_way) }
        ensures left { self.new ≡ after_time up (first self.old.under_way) self.old }
    {
        let Some((number, made)) = self.first() else {
            return None;
        };
        if made.deadline > up {
            return None;
        }
        self.under_way.remove(&number);
        Some((number, made.given_up()))
    }

    /// When the withdrawal that came first is due.
    pub fn due(&self) -> Option<u64>
        ensures { result ≡ due_of (first self.now.under_way) }
    {
        match self.first() {
            None => None,
            Some((_, made)) => Some(made.deadline),
        }
    }
}
