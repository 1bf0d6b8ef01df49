ghost use Rattle.std.specs.Prelude.{◌≡◌};
ghost use Rattle.svid_c.specs.Peers.{Arrival, CallsDeed, ComesTo, HearsOf, PeerHears, Tells, TellsComing};
ghost use Rattle.svid_c.specs.declared.member_wrote.Heard.TheVariants.{Wrote, Send, Leave, Overdue};

use crate::deed::{SvidDeed, deed_seen};
use crate::live::Live;
use crate::member_know::unready_number;
use crate::member_open::is_set;
use crate::peer::Peer;
use crate::validator::SvidValidator;
use std::alloc::Global;
use svid_member::{Coming, Member};
use svid_requests::Deed;

/// An event of a request that the caller reports to a member.
#[derive(Clone, Copy)]
pub enum Heard {
    /// Its use is on the disk; or could not be written, if the second number is 0.
    Wrote(u64, u64),
    /// Its claim is about to be sent.
    Send(u64),
    /// Its client has left.
    Leave(u64),
    /// Time has passed.
    Overdue,
}

// Reports an event to a member.
fn tell(member: &mut Member, up: u64, heard: Heard) -> Deed
    ensures { Tells up heard member.old result member.new }
{
    match heard {
        Heard::Wrote(number, ok) => member.wrote(up, number, is_set(ok)),
        Heard::Send(number) => member.send(up, number),
        Heard::Leave(number) => member.leave(up, number),
        Heard::Overdue => member.overdue(up),
    }
}

// Reports what becomes of a new request.
fn tell_coming(coming: Coming, deed: &mut SvidDeed) -> u32
    ensures { TellsComing coming result deed.old deed.new }
{
    match coming {
        Coming::Comes(made) => {
            *deed = deed_seen(made);
            0
        }
        Coming::Waits(reason) => unready_number(reason),
    }
}

impl Peer {
    fn hear(&mut self, up: u64, heard: Heard) -> SvidDeed
        ensures { PeerHears up heard self.old result self.new }
    {
        deed_seen(tell(&mut self.member, up, heard))
    }

    pub(crate) fn come(&mut self, up: u64, deed: &mut SvidDeed) -> u32
        ensures { Arrival up result deed.old deed.new self.old self.new }
    {
        match self.member.come(up) {
            Ok(coming) => tell_coming(coming, deed),
            Err(_) => 2,
        }
    }
}

fn hear(live: &mut Live, up: u64, heard: Heard, deed: &mut SvidDeed) -> u32
    ensures { HearsOf up heard result deed.old deed.new live.old live.new }
{
    let Some(peer) = &mut live.peer else {
        return 20;
    };
    *deed = peer.hear(up, heard);
    0
}

// Reports an event to the member of a handle.
fn hear_held(
    alloc: Global,
    v: &mut SvidValidator,
    up: u64,
    heard: Heard,
    deed: &mut SvidDeed,
) -> u32
    ensures { CallsDeed (HearsOf up heard result deed.old deed.new) (deed.new ≡ deed.old) result v.old.handle.live v.new.handle.live }
{
    let Some(mut live) = v.take(alloc) else {
        return 5;
    };
    let status = hear(&mut live, up, heard, deed);
    v.put(live);
    status
}

fn come(live: &mut Live, up: u64, deed: &mut SvidDeed) -> u32
    ensures { ComesTo up result deed.old deed.new live.old live.new }
{
    let Some(peer) = &mut live.peer else {
        return 20;
    };
    peer.come(up, deed)
}

/// Adds a request to a member. Returns 0, and `deed` has its number: find the key that made the signature of its token, and call
/// [`svid_member_judge`](crate::member_judge::svid_member_judge). If no number is left, `deed` has nothing to do.
///
/// The reason if no token is judged yet, 2 if out of memory: no request was added. 20 if the validator has no member, 5 if it is
/// closed.
#[unsafe(no_mangle)]
pub extern "C" fn svid_member_come(
    alloc: Global,
    v: &mut SvidValidator,
    up: u64,
    deed: &mut SvidDeed,
) -> u32
    ensures { CallsDeed (ComesTo up result deed.old deed.new) (deed.new ≡ deed.old) result v.old.handle.live v.new.handle.live }
{
    let Some(mut live) = v.take(alloc) else {
        return 5;
    };
    let status = come(&mut live, up, deed);
    v.put(live);
    status
}

/// Reports that the use of this request is on the disk, or, if `ok` is 0, that it could not be written. In mode once the member is not ready while
/// the last write failed.
///
/// 20 if the validator has no member, 5 if it is closed.
#[unsafe(no_mangle)]
pub extern "C" fn svid_member_wrote(
    alloc: Global,
    v: &mut SvidValidator,
    up: u64,
    number: u64,
    ok: u64,
    deed: &mut SvidDeed,
) -> u32
    ensures { CallsDeed (HearsOf up (Wrote number ok) result deed.old deed.new) (deed.new ≡ deed.old) result v.old.handle.live v.new.handle.live }
{
    hear_held(alloc, v, up, Heard::Wrote(number, ok), deed)
}

/// Reports that the claim of this request is about to be sent. Send it if `deed` says so. Else the request has been answered, or `deed` answers it.
///
/// 20 if the validator has no member, 5 if it is closed.
#[unsafe(no_mangle)]
pub extern "C" fn svid_member_send(
    alloc: Global,
    v: &mut SvidValidator,
    up: u64,
    number: u64,
    deed: &mut SvidDeed,
) -> u32
    ensures { CallsDeed (HearsOf up (Send number) result deed.old deed.new) (deed.new ≡ deed.old) result v.old.handle.live v.new.handle.live }
{
    hear_held(alloc, v, up, Heard::Send(number), deed)
}

/// Reports that the client of this request has left. A use whose write to the disk is under way is still written.
///
/// 20 if the validator has no member, 5 if it is closed.
#[unsafe(no_mangle)]
pub extern "C" fn svid_member_leave(
    alloc: Global,
    v: &mut SvidValidator,
    up: u64,
    number: u64,
    deed: &mut SvidDeed,
) -> u32
    ensures { CallsDeed (HearsOf up (Leave number) result deed.old deed.new) (deed.new ≡ deed.old) result v.old.handle.live v.new.handle.live }
{
    hear_held(alloc, v, up, Heard::Leave(number), deed)
}

/// Answers the oldest request, if its time is over. Call it until `deed` has nothing to do.
///
/// 20 if the validator has no member, 5 if it is closed.
#[unsafe(no_mangle)]
pub extern "C" fn svid_member_overdue(
    alloc: Global,
    v: &mut SvidValidator,
    up: u64,
    deed: &mut SvidDeed,
) -> u32
    ensures { CallsDeed (HearsOf up Overdue result deed.old deed.new) (deed.new ≡ deed.old) result v.old.handle.live v.new.handle.live }
{
    hear_held(alloc, v, up, Heard::Overdue, deed)
}
