ghost use Rattle.std.specs.Prelude.{◌≡◌, ◌≤◌, length};
ghost use Rattle.svid_check.specs.Verifiers.{finding_says};
ghost use Rattle.svid_c.specs.Answered.{finding_of, says_of};
ghost use Rattle.svid_c.specs.Judged.{FindsRequest, PeerFinds, Room, TellsClaim, TellsOutcome, found_in};
ghost use Rattle.svid_c.specs.Live.{HandleCallsAt};
ghost use Rattle.svid_c.specs.Token.{ReadsToken};

use crate::answered::Answered;
use crate::check::SvidUse;
use crate::deed::{SvidDeed, deed_seen};
use crate::live::{Live, Nobody, Store};
use crate::member_judge::{number_if_not_allowed, tell_answer};
use crate::peer::Peer;
use crate::token::SvidToken;
use crate::token_read::TokenRead;
use crate::told::{SvidTold, told_length};
use crate::validator::{SvidValidator, only};
use std::alloc::Global;
use svid_check::{Accepted, Validator};
use svid_claims::{Found, Outcome, Owner};
use svid_requests::Deed;
use svid_token::Refusal;

/// A store's answer to a put.
#[repr(C)]
#[derive(Drop)]
pub struct SvidFound {
    /// The store's time, in seconds, read at the put or after it.
    pub time: u64,
    /// Tokens that expire by this time may have been claimed before the store lost entries; 0 if it never lost one.
    pub deaf: u64,
    /// The owner that the key has after the put.
    pub owner: [u8; 32],
}

fn found_in(found: &SvidFound) -> Found
    ensures { result ≡ found_in found.now }
{
    let bytes = found.owner;
    Found {
        owner: Owner { bytes },
        time: found.time,
        deaf: found.deaf,
    }
}

// Reports the outcome of a claim: if the claim counts, the validator's answer.
fn tell_outcome(
    outcome: Outcome,
    answer: Option<Result<Accepted, Refusal>>,
    out: &mut [u8],
    used: &mut SvidUse,
    told: &mut SvidTold,
) -> u32
    requires { 2048 ≤ length out.old }
    ensures { TellsOutcome outcome answer result told.new out.old out.new used.old used.new }
{
    match outcome {
        Outcome::Mine => tell_answer(answer, out, used, told),
        Outcome::Withdrawn => only(56, told),
        Outcome::Taken => only(57, told),
        Outcome::Far => only(58, told),
        Outcome::Deaf => only(59, told),
        Outcome::Expired => only(60, told),
    }
}

// The same, if the request waited for it.
fn tell_claim(
    outcome: Option<Outcome>,
    answer: Option<Result<Accepted, Refusal>>,
    out: &mut [u8],
    used: &mut SvidUse,
    told: &mut SvidTold,
) -> u32
    requires { 2048 ≤ length out.old }
    ensures { TellsClaim outcome answer result told.new out.old out.new used.old used.new }
{
    match outcome {
        None => only(29, told),
        Some(outcome) => tell_outcome(outcome, answer, out, used, told),
    }
}

impl Peer {
    // Gives a request the store's answer to its claim.
    pub(crate) fn find(
        &mut self,
        validator: &mut Validator<Nobody, Store>,
        now: u64,
        up: u64,
        number: u64,
        caller: &[u8; 32],
        found: &SvidFound,
        yes: Answered<'_>,
        read: &TokenRead,
        out: &mut [u8],
        used: &mut SvidUse,
        deed: &mut SvidDeed,
        told: &mut SvidTold,
    ) -> u32
        requires { 2048 ≤ length out.old }
        ensures { PeerFinds (says_of yes.entry) now up number caller.now found.now read.now result told.new
            (record { out = out.old; used = used.old; deed = deed.old }) (record { out = out.new; used = used.new; deed = deed.new }) self.old self.new validator.old validator.new }
    {
        let reading = read.reading();
        if self.callers.allows(&reading.claims.sub) {
            let found = found_in(found);
            let claimed = self
                .member
                .found(validator, now, up, number, caller, &found, reading, &yes);
            *deed = deed_seen(claimed.deed);
            return tell_claim(claimed.outcome, claimed.answer, out, used, told);
        }
        if self.member.awaits_claim(up, number, reading) {
            let answer = validator.judge_read(now, reading, &yes);
            let why = number_if_not_allowed(&answer);
            *deed = deed_seen(self.member.refuse_claim(up, number, why));
            return only(u32::from(why), told);
        }
        *deed = deed_seen(Deed::Nothing);
        only(29, told)
    }
}

// The same for what a handle holds.
fn find(
    live: &mut Live,
    now: u64,
    up: u64,
    number: u64,
    caller: &[u8; 32],
    found: &SvidFound,
    yes: Answered<'_>,
    read: &TokenRead,
    out: &mut [u8],
    used: &mut SvidUse,
    deed: &mut SvidDeed,
    told: &mut SvidTold,
) -> u32
    ensures { FindsRequest (says_of yes.entry) now up number caller.now found.now read.now result told.new
        (record { out = out.old; used = used.old; deed = deed.old }) (record { out = out.new; used = used.new; deed = deed.new }) live.old live.new }
{
    if out.len() < 2048 {
        *told = told_length(2048);
        return 1;
    }
    if live.member.is_some() {
        return only(10, told);
    }
    let Some(peer) = &mut live.peer else {
        return only(20, told);
    };
    peer.find(
        &mut live.validator,
        now,
        up,
        number,
        caller,
        found,
        yes,
        read,
        out,
        used,
        deed,
        told,
    )
}

// The same for the member of a handle.
fn find_held(
    alloc: Global,
    v: &mut SvidValidator,
    now: u64,
    up: u64,
    number: u64,
    caller: &[u8; 32],
    found: &SvidFound,
    yes: Answered<'_>,
    read: &TokenRead,
    out: &mut [u8],
    used: &mut SvidUse,
    deed: &mut SvidDeed,
    told: &mut SvidTold,
) -> u32
    ensures { HandleCallsAt now ((out.new ≡ out.old) × ((used.new ≡ used.old) × (deed.new ≡ deed.old)))
        (FindsRequest (says_of yes.entry) now up number caller.now found.now read.now result told.new
        (record { out = out.old; used = used.old; deed = deed.old }) (record { out = out.new; used = used.new; deed = deed.new }))
        result told.new v.old.handle.live v.new.handle.live }
{
    let mut live = match v.take_at(alloc, now) {
        Ok(live) => live,
        Err(status) => return only(status, told),
    };
    let status = find(
        &mut live, now, up, number, caller, found, yes, read, out, used, deed, told,
    );
    v.put(live);
    status
}

/// Gives a request of a member the store's answer to its claim, or to any put of the same claim. `key`, `input`, `signature` and `t` belong to its
/// token, as for [`svid_member_judge`](crate::member_judge::svid_member_judge). `caller` is used in mode bound alone: 32 bytes that identify the
/// caller. If the claim counts, the token is judged again, and in mode strict the record gains its use. If the store says that the token was
/// withdrawn, the record gains that withdrawal, unless out of memory.
///
/// Returns 0 if the token is accepted: `out` has the SPIFFE ID of its subject, and `used` is its use. If the claim does not
/// count, the status says why. A refusal or 2 if the token is refused; 91 if the token is good, but its subject may not call. 29 if the request
/// does not wait for the answer to a claim of this token, or its time is over: then nothing happened.
///
/// 5, 9, 1, 10 and 20 as for [`svid_member_judge`](crate::member_judge::svid_member_judge).
#[unsafe(no_mangle)]
pub extern "C" fn svid_member_found(
    alloc: Global,
    v: &mut SvidValidator,
    now: u64,
    up: u64,
    number: u64,
    caller: &[u8; 32],
    found: &SvidFound,
    key: &[u8],
    input: &[u8],
    signature: &[u8],
    t: &mut SvidToken,
    out: &mut [u8],
    used: &mut SvidUse,
    deed: &mut SvidDeed,
    told: &mut SvidTold,
) -> u32
    ensures { ReadsToken ((out.new ≡ out.old) × ((used.new ≡ used.old) × ((deed.new ≡ deed.old) × (v.new.handle.live ≡ v.old.handle.live))))
        (λ said. HandleCallsAt now ((out.new ≡ out.old) × ((used.new ≡ used.old) × (deed.new ≡ deed.old)))
        (FindsRequest (finding_says (finding_of key.now input.now signature.now)) now up number caller.now found.now said result told.new
        (record { out = out.old; used = used.old; deed = deed.old }) (record { out = out.new; used = used.new; deed = deed.new }))
        result told.new v.old.handle.live v.new.handle.live)
        result told.new t.old.handle.read t.new.handle.read }
{
    let Some(read) = t.take(alloc) else {
        return only(5, told);
    };
    let yes = Answered::Finding {
        key,
        input,
        signature,
    };
    let status = find_held(
        alloc, v, now, up, number, caller, found, yes, &read, out, used, deed, told,
    );
    t.put(read);
    status
}
