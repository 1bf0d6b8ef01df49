ghost use Rattle.std.specs.Prelude.{◌≡◌};
ghost use Rattle.svid_member.specs.Pacing.{after_answer, after_none, after_send, due, may_send};
ghost use Rattle.svid_c.specs.Deeds.{next_number};
ghost use Rattle.svid_c.specs.Paces.{flag_of, pacing_in, pacing_seen};

use crate::deed::next_number;
use svid_member::Pacing;

/// When waiting claims are sent. Times are milliseconds by a clock that never goes back.
#[repr(C)]
#[derive(Drop)]
pub struct SvidPacing {
    /// How many calls are under way.
    pub calls: u64,
    /// When the last one was sent.
    pub at: u64,
    /// How long unanswered claims wait before they are put again.
    pub pause: u64,
}

fn pacing_in(pacing: &SvidPacing) -> Pacing
    ensures { result ≡ pacing_in pacing.now }
{
    Pacing {
        calls: pacing.calls,
        at: pacing.at,
        pause: pacing.pause,
    }
}

fn pacing_seen(pacing: &Pacing) -> SvidPacing
    ensures { result ≡ pacing_seen pacing.now }
{
    SvidPacing {
        calls: pacing.calls,
        at: pacing.at,
        pause: pacing.pause,
    }
}

/// Whether to send a call at `up`, with so many claims waiting: 1, or else 0.
#[unsafe(no_mangle)]
pub extern "C" fn svid_pacing_may_send(p: &SvidPacing, up: u64, waiting: u64) -> u32
    ensures { result ≡ flag_of (may_send up waiting (pacing_in p.now)) }
{
    if pacing_in(p).may_send(up, waiting) {
        1
    } else {
        0
    }
}

/// When to send a call beside those under way, if claims wait. 2^64-1 if an answer has to come first.
#[unsafe(no_mangle)]
pub extern "C" fn svid_pacing_due(p: &SvidPacing) -> u64
    ensures { result ≡ next_number (due (pacing_in p.now)) }
{
    next_number(pacing_in(p).due())
}

/// Reports that a call is sent at `up`.
#[unsafe(no_mangle)]
pub extern "C" fn svid_pacing_sent(p: &mut SvidPacing, up: u64)
    ensures { p.new ≡ pacing_seen (after_send up (pacing_in p.old)) }
{
    let mut pacing = pacing_in(p);
    pacing.sent(up);
    *p = pacing_seen(&pacing);
}

/// Reports that a call has ended, and the store has answered some of its claims.
#[unsafe(no_mangle)]
pub extern "C" fn svid_pacing_answered(p: &mut SvidPacing)
    ensures { p.new ≡ pacing_seen (after_answer (pacing_in p.old)) }
{
    let mut pacing = pacing_in(p);
    pacing.answered();
    *p = pacing_seen(&pacing);
}

/// Reports that a call has ended without an answer. Returns how long its claims wait before they are put again.
#[unsafe(no_mangle)]
pub extern "C" fn svid_pacing_unanswered(p: &mut SvidPacing) -> u64
    ensures pause { result ≡ p.old.pause }
    ensures left { p.new ≡ pacing_seen (after_none (pacing_in p.old)) }
{
    let mut pacing = pacing_in(p);
    let pause = pacing.unanswered();
    *p = pacing_seen(&pacing);
    pause
}
