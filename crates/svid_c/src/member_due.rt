ghost use Rattle.std.specs.Prelude.{◌≡◌};
ghost use Rattle.svid_c.specs.Peers.{CallsDeed, TellsDue};

use crate::deed::next_number;
use crate::live::Live;
use crate::validator::SvidValidator;
use std::alloc::Global;

/// A moment by a clock that never goes back; 2^64-1 if there is none.
#[repr(C)]
#[derive(Drop)]
pub struct SvidDeadline {
    /// The moment.
    pub at: u64,
}

fn due(live: &Live, due: &mut SvidDeadline) -> u32
    ensures { TellsDue result due.old due.new live.now live.now }
{
    let Some(peer) = &live.peer else {
        return 20;
    };
    let first = next_number(peer.member.due());
    let other = next_number(peer.withdrawals.due());
    *due = SvidDeadline {
        at: first.min(other),
    };
    0
}

/// Says when a request or a withdrawal of a member is due. At that moment call [`svid_member_overdue`](crate::member_wrote::svid_member_overdue) and
/// [`svid_withdrawal_overdue`](crate::withdrawal_come::svid_withdrawal_overdue).
///
/// 20 if the validator has no member, 5 if it is closed.
#[unsafe(no_mangle)]
pub extern "C" fn svid_member_due(
    alloc: Global,
    v: &mut SvidValidator,
    out: &mut SvidDeadline,
) -> u32
    ensures { CallsDeed (TellsDue result out.old out.new) (out.new ≡ out.old) result v.old.handle.live v.new.handle.live }
{
    let Some(live) = v.take(alloc) else {
        return 5;
    };
    let status = due(&live, out);
    v.put(live);
    status
}
