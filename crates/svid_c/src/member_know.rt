ghost use Rattle.std.specs.Prelude.{◌≡◌, ℕ};
ghost use Rattle.svid_member.specs.Members.{with_known};
ghost use Rattle.svid_c.specs.Peers.{Blocks, CallsHandle, Doubts, Knows, is_set, known_in, number_of_any, unready_number, with_member_data};

use crate::live::Live;
use crate::member_open::is_set;
use crate::peer::Peer;
use crate::validator::SvidValidator;
use std::alloc::Global;
use svid_member::{Readiness, Unready};

/// The facts that the caller gives a member. In each, 0 means no.
#[repr(C)]
#[derive(Drop)]
pub struct SvidKnown {
    /// It has a trust bundle.
    pub bundled: u64,
    /// Its state folder has been read, or it has none.
    pub loaded: u64,
    /// The store was reached, or it has none.
    pub opened: u64,
    /// The store's withdrawals were read to the end once, or it has no store.
    pub heard: u64,
    /// The broker of the group was reached, or it has none.
    pub joined: u64,
    /// The group's messages have been read, or it has no broker.
    pub caught_up: u64,
    /// It is going to end soon.
    pub draining: u64,
    /// Its clock went ahead too far at once.
    pub jumped: u64,
    /// The state folder has no room for another acceptance.
    pub full: u64,
    /// The store has not answered for longer than a request waits.
    pub away: u64,
    /// The store has lost entries, so a token with the longest possible life is not accepted.
    pub deaf: u64,
    /// It has ended.
    pub ended: u64,
}

// A member's readiness by these facts. (The member itself keeps whether the state folder took the last
// acceptance.)
fn known_in(known: &SvidKnown) -> Readiness
    ensures { result ≡ known_in known.now }
{
    Readiness {
        bundled: is_set(known.bundled),
        loaded: is_set(known.loaded),
        opened: is_set(known.opened),
        heard: is_set(known.heard),
        joined: is_set(known.joined),
        caught_up: is_set(known.caught_up),
        draining: is_set(known.draining),
        jumped: is_set(known.jumped),
        unkept: false,
        full: is_set(known.full),
        away: is_set(known.away),
        deaf: is_set(known.deaf),
        ended: is_set(known.ended),
    }
}

// The number of a reason.
pub(crate) fn unready_number(reason: Unready) -> u32
    ensures { result ≡ unready_number reason }
{
    match reason {
        Unready::Ended => 211,
        Unready::NoBundle => 212,
        Unready::Loading => 213,
        Unready::StoreUnreached => 214,
        Unready::WithdrawalsUnread => 215,
        Unready::BrokerUnreached => 216,
        Unready::GroupUnread => 217,
        Unready::Draining => 218,
        Unready::Jumped => 219,
        Unready::KeepsNothing => 220,
        Unready::StoreAway => 221,
        Unready::Deaf => 222,
    }
}

impl Peer {
    fn know(&mut self, known: &SvidKnown)
        ensures { self.new ≡ with_member_data self.old (with_known (known_in known.now) self.old.member) }
    {
        self.member.know(known_in(known));
    }
}

fn know(live: &mut Live, known: &SvidKnown) -> u32
    ensures { Knows known.now result live.old live.new }
{
    let Some(peer) = &mut live.peer else {
        return 20;
    };
    peer.know(known);
    0
}

/// Replaces all the facts that a member has. Open requests stay as they are.
///
/// 20 if the validator has no member, 5 if it is closed.
#[unsafe(no_mangle)]
pub extern "C" fn svid_member_know(alloc: Global, v: &mut SvidValidator, known: &SvidKnown) -> u32
    ensures { CallsHandle (Knows known.now result) result v.old.handle.live v.new.handle.live }
{
    let Some(mut live) = v.take(alloc) else {
        return 5;
    };
    let status = know(&mut live, known);
    v.put(live);
    status
}

// The number of a reason, or 0.
fn number_of_any(reason: Option<Unready>) -> u32
    ensures { result ≡ number_of_any reason }
{
    match reason {
        None => 0,
        Some(reason) => unready_number(reason),
    }
}

fn doubts(live: &Live) -> u32
    ensures { Doubts result live.now live.now }
{
    let Some(peer) = &live.peer else {
        return 20;
    };
    number_of_any(peer.member.doubts())
}

fn blocks(live: &Live) -> u32
    ensures { Blocks result live.now live.now }
{
    let Some(peer) = &live.peer else {
        return 20;
    };
    number_of_any(peer.member.blocks())
}

/// Whether a member is ready to get tokens: 0, or the first reason why not.
///
/// 20 if the validator has no member, 5 if it is closed.
#[unsafe(no_mangle)]
pub extern "C" fn svid_member_ready(alloc: Global, v: &mut SvidValidator) -> u32
    ensures { CallsHandle (Doubts result) result v.old.handle.live v.new.handle.live }
{
    let Some(live) = v.take(alloc) else {
        return 5;
    };
    let status = doubts(&live);
    v.put(live);
    status
}

/// Whether a member judges tokens: 0, or the first reason why not.
///
/// 20 if the validator has no member, 5 if it is closed.
#[unsafe(no_mangle)]
pub extern "C" fn svid_member_judges(alloc: Global, v: &mut SvidValidator) -> u32
    ensures { CallsHandle (Blocks result) result v.old.handle.live v.new.handle.live }
{
    let Some(live) = v.take(alloc) else {
        return 5;
    };
    let status = blocks(&live);
    v.put(live);
    status
}
