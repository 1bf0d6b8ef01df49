ghost use Rattle.std.specs.Prelude.{◌≡◌, not, ◌==◌};
ghost use Rattle.svid_c.specs.Peers.{BeginsMember, CallsHandle, known_at_first, is_set, mode_in, peer_of};

use crate::callers::Callers;
use crate::live::Live;
use crate::peer::Peer;
use crate::validator::SvidValidator;
use std::alloc::Global;
use svid_member::{Member, Mode, Readiness, Withdrawals};

/// The terms that a member has for its whole life.
#[repr(C)]
#[derive(Drop)]
pub struct SvidMemberTerms {
    /// 0 once, 1 strict, 2 bound, 3 reuse.
    pub mode: u64,
    /// Whether there is a state folder: 0 for no.
    pub disk: u64,
    /// Whether there is a store.
    pub store: u64,
    /// Whether there is a log that carries withdrawals.
    pub log: u64,
    /// The longest time to answer a request or a withdrawal, by the clock of `up`.
    pub wait: u64,
    /// How many seconds the store's time may be ahead of this process's clock.
    pub ahead: u64,
    /// How many seconds past the store's time a token may expire.
    pub lasts: u64,
    /// 16 random bytes, new at each start.
    pub life: [u8; 16],
}

// Whether a number means yes.
pub(crate) fn is_set(number: u64) -> bool
    ensures { result ≡ is_set number }
{
    number != 0
}

// The mode with this number.
fn mode_in(number: u64) -> Option<Mode>
    ensures { result ≡ mode_in number }
{
    match number {
        0 => Some(Mode::Once),
        1 => Some(Mode::Strict),
        2 => Some(Mode::Bound),
        3 => Some(Mode::Reuse),
        _ => None,
    }
}

// The facts of a new member: none.
fn known_at_first() -> Readiness
    ensures { result ≡ known_at_first }
{
    Readiness {
        bundled: false,
        loaded: false,
        opened: false,
        heard: false,
        joined: false,
        caught_up: false,
        draining: false,
        jumped: false,
        unkept: false,
        full: false,
        away: false,
        deaf: false,
        ended: false,
    }
}

// A new member.
fn peer_of(alloc: Global, mode: Mode, terms: &SvidMemberTerms) -> Peer
    ensures { result ≡ peer_of mode terms.now }
{
    let kept = is_set(terms.disk);
    let life = terms.life;
    Peer {
        member: Member::new(
            alloc,
            mode,
            kept,
            life,
            terms.ahead,
            terms.lasts,
            terms.wait,
            known_at_first(),
        ),
        withdrawals: Withdrawals::new(
            alloc,
            terms.wait,
            kept,
            is_set(terms.store),
            is_set(terms.log),
        ),
        callers: Callers::all(),
    }
}

// Gives a validator a member.
fn begin(alloc: Global, live: &mut Live, terms: &SvidMemberTerms) -> u32
    ensures { BeginsMember terms.now result live.old live.new }
{
    if live.member.is_some() {
        return 10;
    }
    if live.peer.is_some() {
        return 6;
    }
    let Some(mode) = mode_in(terms.mode) else {
        return 30;
    };
    live.peer = Some(peer_of(alloc, mode, terms));
    0
}

/// Gives a validator a member, which answers requests. It begins with no requests, and judges no token before
/// [`svid_member_know`](crate::member_know::svid_member_know). All may call. Allocates nothing.
///
/// 10 if the validator reads a log, 6 if it has a member already, 30 if `mode` is not a mode: then nothing happened. 5 if the validator is closed.
#[unsafe(no_mangle)]
pub extern "C" fn svid_member_open(
    alloc: Global,
    v: &mut SvidValidator,
    terms: &SvidMemberTerms,
) -> u32
    ensures { CallsHandle (BeginsMember terms.now result) result v.old.handle.live v.new.handle.live }
{
    let Some(mut live) = v.take(alloc) else {
        return 5;
    };
    let status = begin(alloc, &mut live, terms);
    v.put(live);
    status
}
