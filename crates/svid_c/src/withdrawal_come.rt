ghost use Rattle.std.specs.Prelude.{◌≡◌};
ghost use Rattle.svid_c.specs.Peers.{CallsDeed};
ghost use Rattle.svid_c.specs.Withdrawn.{Ends, EndsByTime, GoesOut, Has, HasIt, Out, ended_seen, keeper_in, part_number, under_way};

use crate::live::Live;
use crate::member_open::is_set;
use crate::peer::Peer;
use crate::validator::SvidValidator;
use std::alloc::Global;
use svid_member::{Part, Place, Withdrawal};

/// A withdrawal of a member on its way to each keeper: the state folder, the store and the log.
#[repr(C)]
#[derive(Drop)]
pub struct SvidWithdrawal {
    /// Its number; 2^64-1 if none has ended.
    pub number: u64,
    /// Its progress at the state folder: 0 it waits, 1 it is there, or the member has no such keeper, 2 it may not be there.
    pub disk: u64,
    /// Its progress at the store.
    pub store: u64,
    /// Its progress at the log.
    pub log: u64,
}

fn part_number(part: Part) -> u64
    ensures { result ≡ part_number part }
{
    match part {
        Part::Waits => 0,
        Part::Done => 1,
        Part::Failed => 2,
    }
}

// The keeper with this number. Any number but 0 and 1 is the log.
fn keeper_in(number: u64) -> Place
    ensures { result ≡ keeper_in number }
{
    match number {
        0 => Place::Disk,
        1 => Place::Store,
        _ => Place::Log,
    }
}

// A withdrawal that has ended, if one has.
fn ended_seen(ended: Option<(u64, Withdrawal)>) -> SvidWithdrawal
    ensures { result ≡ ended_seen ended }
{
    match ended {
        Some((number, one)) => SvidWithdrawal {
            number,
            disk: part_number(one.disk),
            store: part_number(one.store),
            log: part_number(one.log),
        },
        None => SvidWithdrawal {
            number: u64::MAX,
            disk: 0,
            store: 0,
            log: 0,
        },
    }
}

// A withdrawal with this number, under way.
fn under_way(number: Option<u64>) -> SvidWithdrawal
    ensures { result ≡ under_way number }
{
    SvidWithdrawal {
        number: number.unwrap_or(u64::MAX),
        disk: 0,
        store: 0,
        log: 0,
    }
}

impl Peer {
    fn send_withdrawal(&mut self, up: u64, made: &mut SvidWithdrawal) -> u32
        ensures { Out up result made.old made.new self.old self.new }
    {
        match self.withdrawals.come(up) {
            Ok(number) => {
                *made = under_way(number);
                0
            }
            Err(_) => 2,
        }
    }

    fn has_withdrawal(&mut self, number: u64, keeper: u64, ok: u64) -> SvidWithdrawal
        ensures { Has number keeper ok self.old result self.new }
    {
        ended_seen(self.withdrawals.told(number, keeper_in(keeper), is_set(ok)))
    }

    fn end_withdrawal(&mut self, up: u64) -> SvidWithdrawal
        ensures { Ends up self.old result self.new }
    {
        ended_seen(self.withdrawals.overdue(up))
    }
}

fn come(live: &mut Live, up: u64, made: &mut SvidWithdrawal) -> u32
    ensures { GoesOut up result made.old made.new live.old live.new }
{
    let Some(peer) = &mut live.peer else {
        return 20;
    };
    peer.send_withdrawal(up, made)
}

fn tell(live: &mut Live, number: u64, keeper: u64, ok: u64, made: &mut SvidWithdrawal) -> u32
    ensures { HasIt number keeper ok result made.old made.new live.old live.new }
{
    let Some(peer) = &mut live.peer else {
        return 20;
    };
    *made = peer.has_withdrawal(number, keeper, ok);
    0
}

fn give_up(live: &mut Live, up: u64, made: &mut SvidWithdrawal) -> u32
    ensures { EndsByTime up result made.old made.new live.old live.new }
{
    let Some(peer) = &mut live.peer else {
        return 20;
    };
    *made = peer.end_withdrawal(up);
    0
}

/// Sends a withdrawal that the record has to each keeper of the member. Returns 0, and `made` has its number. If no number is left, that is 2^64-1,
/// and it is not under way.
///
/// 2 if out of memory: it is not under way, and you can repeat the call. 20 if the validator has no member, 5 if it is closed.
#[unsafe(no_mangle)]
pub extern "C" fn svid_withdrawal_come(
    alloc: Global,
    v: &mut SvidValidator,
    up: u64,
    made: &mut SvidWithdrawal,
) -> u32
    ensures { CallsDeed (GoesOut up result made.old made.new) (made.new ≡ made.old) result v.old.handle.live v.new.handle.live }
{
    let Some(mut live) = v.take(alloc) else {
        return 5;
    };
    let status = come(&mut live, up, made);
    v.put(live);
    status
}

/// Reports that a keeper has the withdrawal of this number, or, if `ok` is 0, that it may not have it. The keeper is 0 for the state folder, 1 for
/// the store, any other number for the log. `made` is that withdrawal if it waits for no further keeper, and else has the number 2^64-1. Has no
/// effect on a withdrawal that has ended.
///
/// 20 if the validator has no member, 5 if it is closed.
#[unsafe(no_mangle)]
pub extern "C" fn svid_withdrawal_told(
    alloc: Global,
    v: &mut SvidValidator,
    number: u64,
    keeper: u64,
    ok: u64,
    made: &mut SvidWithdrawal,
) -> u32
    ensures { CallsDeed (HasIt number keeper ok result made.old made.new) (made.new ≡ made.old) result v.old.handle.live v.new.handle.live }
{
    let Some(mut live) = v.take(alloc) else {
        return 5;
    };
    let status = tell(&mut live, number, keeper, ok, made);
    v.put(live);
    status
}

/// Ends the oldest withdrawal, if its time is over: it has failed wherever it still waits. Call it until `made` has the number 2^64-1.
///
/// 20 if the validator has no member, 5 if it is closed.
#[unsafe(no_mangle)]
pub extern "C" fn svid_withdrawal_overdue(
    alloc: Global,
    v: &mut SvidValidator,
    up: u64,
    made: &mut SvidWithdrawal,
) -> u32
    ensures { CallsDeed (EndsByTime up result made.old made.new) (made.new ≡ made.old) result v.old.handle.live v.new.handle.live }
{
    let Some(mut live) = v.take(alloc) else {
        return 5;
    };
    let status = give_up(&mut live, up, made);
    v.put(live);
    status
}
