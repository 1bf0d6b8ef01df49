ghost use Rattle.std.specs.Prelude.{◌≡◌};
ghost use Rattle.svid_c.specs.Deeds.{deed_by, deed_seen, deed_of_use, next_number, no_use, use_in, verdict_number};

use crate::check::{SvidUse, use_seen};
use svid_replay::Use;
use svid_requests::{Deed, Verdict};

/// What to do for a request of a member.
#[repr(C)]
#[derive(Drop)]
pub struct SvidDeed {
    /// 0 nothing; 1 find the key that made the token's signature, and have the token judged; 2 write its use to the disk; 3 put its claim into
    /// the store; 4 answer the request.
    pub what: u64,
    /// The number of the request.
    pub number: u64,
    /// For an answer, 0 if the token is accepted. Else the reason: a refusal, 58 or 59 for a claim that does not count, 91 if
    /// the caller is not allowed, 201 if its time was over, 202 if the disk did not take its use, 203 if its client has left, 2 if out of
    /// memory.
    pub status: u64,
    /// For an answer, the number of a request that waited for it, whose token is now to be judged again; 2^64-1 if there is none.
    pub next: u64,
    /// The use to write to the disk, to claim, or with which the token is accepted; else zeros.
    pub used: SvidUse,
}

// A use of zeros, where there is none.
fn no_use() -> SvidUse
    ensures { result ≡ no_use }
{
    SvidUse {
        exp: 0,
        at: 0,
        key: [0; 32],
        validator_id: [0; 16],
    }
}

// The number of an answer.
fn verdict_number(verdict: Verdict) -> u64
    ensures { result ≡ verdict_number verdict }
{
    match verdict {
        Verdict::Accept(_) => 0,
        Verdict::Refuse(why) => u64::from(why),
        Verdict::Late => 201,
        Verdict::NotKept => 202,
        Verdict::NoMemory => 2,
        Verdict::Left => 203,
    }
}

// The use with which a token is accepted.
fn use_in(verdict: Verdict) -> SvidUse
    ensures { result ≡ use_in verdict }
{
    match verdict {
        Verdict::Accept(used) => use_seen(used),
        _ => no_use(),
    }
}

// The number of the next request, or 2^64-1.
pub(crate) fn next_number(next: Option<u64>) -> u64
    ensures { result ≡ next_number next }
{
    match next {
        Some(number) => number,
        None => u64::MAX,
    }
}

// A deed without a use.
pub(crate) fn deed_by(what: u64, number: u64) -> SvidDeed
    ensures { result ≡ deed_by what number }
{
    SvidDeed {
        what,
        number,
        status: 0,
        next: u64::MAX,
        used: no_use(),
    }
}

// A deed about a use.
fn deed_of_use(what: u64, number: u64, used: Use) -> SvidDeed
    ensures { result ≡ deed_of_use what number used }
{
    SvidDeed {
        what,
        number,
        status: 0,
        next: u64::MAX,
        used: use_seen(used),
    }
}

// A deed as C has it.
pub(crate) fn deed_seen(deed: Deed) -> SvidDeed
    ensures { result ≡ deed_seen deed }
{
    match deed {
        Deed::Nothing => deed_by(0, 0),
        Deed::Judge(number) => deed_by(1, number),
        Deed::Append(number, used) => deed_of_use(2, number, used),
        Deed::Claim(number, used) => deed_of_use(3, number, used),
        Deed::Answer(number, verdict, next) => SvidDeed {
            what: 4,
            number,
            status: verdict_number(verdict),
            next: next_number(next),
            used: use_in(verdict),
        },
    }
}
