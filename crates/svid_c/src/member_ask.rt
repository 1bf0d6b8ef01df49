ghost use Rattle.std.specs.Prelude.{◌≡◌, ◌≤◌, length};
ghost use Rattle.svid_check.specs.Verifiers.{finding_says};
ghost use Rattle.svid_c.specs.Answered.{finding_of, says_of};
ghost use Rattle.svid_c.specs.Asks.{AsksRequest, PeerAsks, PeerGoesOn, is_known, numbered};
ghost use Rattle.svid_c.specs.Judged.{Room};
ghost use Rattle.svid_c.specs.Live.{HandleCallsAt};
ghost use Rattle.svid_c.specs.Token.{ReadsToken};

use crate::answered::Answered;
use crate::check::SvidUse;
use crate::deed::{SvidDeed, deed_by};
use crate::live::{Live, Nobody, Store};
use crate::member_found::SvidFound;
use crate::peer::Peer;
use crate::token::SvidToken;
use crate::token_read::TokenRead;
use crate::told::{SvidTold, told_length};
use crate::validator::{SvidValidator, only};
use std::alloc::Global;
use svid_check::Validator;

/// A store's answer to an earlier put of a claim.
#[repr(C)]
#[derive(Drop)]
pub struct SvidKnownClaim {
    /// When the token of that claim expires, in seconds. No claim has 0.
    pub exp: u64,
    /// The key of that token.
    pub key: [u8; 32],
    /// What the store answered.
    pub found: SvidFound,
}

// Whether a deed is to put the claim that is known.
fn is_known(known: &SvidKnownClaim, deed: &SvidDeed) -> bool
    ensures { result ≡ is_known known.now deed.now }
{
    deed.what == 3 && (deed.used.exp == known.exp && deed.used.key.cmp(&known.key).is_eq())
}

// Gives a deed the number of its request, if there is nothing to do.
fn set_number(deed: &mut SvidDeed, number: u64)
    ensures { deed.new ≡ numbered number deed.old }
{
    if deed.what == 0 {
        deed.number = number;
    }
}

impl Peer {
    // Has a validator judge the token of a request, which then hears what is known of its claim.
    fn go_on(
        &mut self,
        validator: &mut Validator<Nobody, Store>,
        now: u64,
        up: u64,
        number: u64,
        caller: &[u8; 32],
        known: &SvidKnownClaim,
        yes: Answered<'_>,
        read: &TokenRead,
        out: &mut [u8],
        used: &mut SvidUse,
        deed: &mut SvidDeed,
        told: &mut SvidTold,
    ) -> u32
        requires { 2048 ≤ length out.old }
        ensures { PeerGoesOn (says_of yes.entry) now up number caller.now known.now read.now result told.new
            (record { out = out.old; used = used.old; deed = deed.old }) (record { out = out.new; used = used.new; deed = deed.new }) self.old self.new validator.old validator.new }
    {
        let status = self.judge(validator, now, up, number, yes, read, out, used, deed, told);
        if !is_known(known, deed) {
            return status;
        }
        let found = &known.found;
        self.find(
            validator, now, up, number, caller, found, yes, read, out, used, deed, told,
        )
    }

    // Adds a request, and lets it go on at once.
    fn ask(
        &mut self,
        validator: &mut Validator<Nobody, Store>,
        now: u64,
        up: u64,
        caller: &[u8; 32],
        known: &SvidKnownClaim,
        yes: Answered<'_>,
        read: &TokenRead,
        out: &mut [u8],
        used: &mut SvidUse,
        deed: &mut SvidDeed,
        told: &mut SvidTold,
    ) -> u32
        requires { 2048 ≤ length out.old }
        ensures { PeerAsks (says_of yes.entry) now up caller.now known.now read.now result told.new
            (record { out = out.old; used = used.old; deed = deed.old }) (record { out = out.new; used = used.new; deed = deed.new }) self.old self.new validator.old validator.new }
    {
        let came = self.come(up, deed);
        if came != 0 {
            *told = told_length(0);
            return came;
        }
        if deed.what != 1 {
            *deed = deed_by(0, u64::MAX);
            return only(29, told);
        }
        let request = deed.number;
        let status = self.go_on(
            validator, now, up, request, caller, known, yes, read, out, used, deed, told,
        );
        set_number(deed, request);
        status
    }
}

// The same for what a handle holds.
fn ask(
    live: &mut Live,
    now: u64,
    up: u64,
    caller: &[u8; 32],
    known: &SvidKnownClaim,
    yes: Answered<'_>,
    read: &TokenRead,
    out: &mut [u8],
    used: &mut SvidUse,
    deed: &mut SvidDeed,
    told: &mut SvidTold,
) -> u32
    ensures { AsksRequest (says_of yes.entry) now up caller.now known.now read.now result told.new
        (record { out = out.old; used = used.old; deed = deed.old }) (record { out = out.new; used = used.new; deed = deed.new }) live.old live.new }
{
    if out.len() < 2048 {
        *told = told_length(2048);
        return 1;
    }
    if live.member.is_some() {
        return only(10, told);
    }
    let Some(peer) = &mut live.peer else {
        return only(20, told);
    };
    let validator = &mut live.validator;
    peer.ask(
        validator, now, up, caller, known, yes, read, out, used, deed, told,
    )
}

// The same for the member of a handle.
fn ask_held(
    alloc: Global,
    v: &mut SvidValidator,
    now: u64,
    up: u64,
    caller: &[u8; 32],
    known: &SvidKnownClaim,
    yes: Answered<'_>,
    read: &TokenRead,
    out: &mut [u8],
    used: &mut SvidUse,
    deed: &mut SvidDeed,
    told: &mut SvidTold,
) -> u32
    ensures { HandleCallsAt now ((out.new ≡ out.old) × ((used.new ≡ used.old) × (deed.new ≡ deed.old)))
        (AsksRequest (says_of yes.entry) now up caller.now known.now read.now result told.new
        (record { out = out.old; used = used.old; deed = deed.old }) (record { out = out.new; used = used.new; deed = deed.new }))
        result told.new v.old.handle.live v.new.handle.live }
{
    let mut live = match v.take_at(alloc, now) {
        Ok(live) => live,
        Err(status) => return only(status, told),
    };
    let status = ask(
        &mut live, now, up, caller, known, yes, read, out, used, deed, told,
    );
    v.put(live);
    status
}

/// Adds a request to a member, and judges its token, whose key was found before: [`svid_member_come`](crate::member_wrote::svid_member_come) and
/// [`svid_member_judge`](crate::member_judge::svid_member_judge) in one call. If a claim is to be put and `known` is of that claim, the request hears
/// that answer too, as by [`svid_member_found`](crate::member_found::svid_member_found). `deed` says what to do next, and has the number of the
/// request even if there is nothing to do.
///
/// Returns what [`svid_member_judge`](crate::member_judge::svid_member_judge) does, or what
/// [`svid_member_found`](crate::member_found::svid_member_found) does if the request heard the known answer. The reason if no token
/// is judged yet, 2 if out of memory: no request was added, and `deed` is as it was. 29 with the number 2^64-1 if no number is left.
///
/// 5, 9, 1, 10 and 20 as for [`svid_member_judge`](crate::member_judge::svid_member_judge): nothing happened, and `deed` is as it was.
#[unsafe(no_mangle)]
pub extern "C" fn svid_member_ask(
    alloc: Global,
    v: &mut SvidValidator,
    now: u64,
    up: u64,
    caller: &[u8; 32],
    known: &SvidKnownClaim,
    key: &[u8],
    input: &[u8],
    signature: &[u8],
    t: &mut SvidToken,
    out: &mut [u8],
    used: &mut SvidUse,
    deed: &mut SvidDeed,
    told: &mut SvidTold,
) -> u32
    ensures { ReadsToken ((out.new ≡ out.old) × ((used.new ≡ used.old) × ((deed.new ≡ deed.old) × (v.new.handle.live ≡ v.old.handle.live))))
        (λ said. HandleCallsAt now ((out.new ≡ out.old) × ((used.new ≡ used.old) × (deed.new ≡ deed.old)))
        (AsksRequest (finding_says (finding_of key.now input.now signature.now)) now up caller.now known.now said result told.new
        (record { out = out.old; used = used.old; deed = deed.old }) (record { out = out.new; used = used.new; deed = deed.new }))
        result told.new v.old.handle.live v.new.handle.live)
        result told.new t.old.handle.read t.new.handle.read }
{
    let Some(read) = t.take(alloc) else {
        return only(5, told);
    };
    let yes = Answered::Finding {
        key,
        input,
        signature,
    };
    let status = ask_held(
        alloc, v, now, up, caller, known, yes, &read, out, used, deed, told,
    );
    t.put(read);
    status
}
