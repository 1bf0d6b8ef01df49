ghost use Rattle.std.specs.Prelude.{◌≡◌, ◌≤◌, length};
ghost use Rattle.svid_check.specs.Verifiers.{finding_says};
ghost use Rattle.svid_c.specs.Answered.{finding_of, says_of};
ghost use Rattle.svid_c.specs.Judged.{JudgesRequest, PeerJudges, Room, TellsAnswer, TellsResult, number_if_not_allowed};
ghost use Rattle.svid_c.specs.Live.{HandleCallsAt};
ghost use Rattle.svid_c.specs.Status.{told_length};
ghost use Rattle.svid_c.specs.Token.{ReadsToken};

use crate::answered::Answered;
use crate::check::{SvidUse, accept_whole};
use crate::deed::{SvidDeed, deed_seen};
use crate::live::{Live, Nobody, Store};
use crate::peer::Peer;
use crate::refusal::refusal_number;
use crate::token::SvidToken;
use crate::token_read::TokenRead;
use crate::told::{SvidTold, told_length};
use crate::validator::{SvidValidator, only};
use std::alloc::Global;
use svid_check::{Accepted, Validator};
use svid_member::reason_of;
use svid_requests::Deed;
use svid_token::Refusal;

// Reports a validator's answer.
fn tell_result(
    answer: Result<Accepted, Refusal>,
    out: &mut [u8],
    used: &mut SvidUse,
    told: &mut SvidTold,
) -> u32
    requires { 2048 ≤ length out.old }
    ensures { TellsResult answer result told.new out.old out.new used.old used.new }
{
    match answer {
        Ok(accepted) => accept_whole(accepted, out, used, told),
        Err(refusal) => only(refusal_number(refusal), told),
    }
}

// The same, if the validator was asked.
pub(crate) fn tell_answer(
    answer: Option<Result<Accepted, Refusal>>,
    out: &mut [u8],
    used: &mut SvidUse,
    told: &mut SvidTold,
) -> u32
    requires { 2048 ≤ length out.old }
    ensures { TellsAnswer answer result told.new out.old out.new used.old used.new }
{
    match answer {
        None => only(29, told),
        Some(answer) => tell_result(answer, out, used, told),
    }
}

// Why a token is refused whose caller is not allowed: a fault of the token comes first.
pub(crate) fn number_if_not_allowed(answer: &Result<Accepted, Refusal>) -> u8
    ensures { result ≡ number_if_not_allowed answer.now }
{
    match answer {
        Ok(_) => 91,
        Err(refusal) => reason_of(refusal),
    }
}

impl Peer {
    // Has a validator judge the token of a request.
    pub(crate) fn judge(
        &mut self,
        validator: &mut Validator<Nobody, Store>,
        now: u64,
        up: u64,
        number: u64,
        yes: Answered<'_>,
        read: &TokenRead,
        out: &mut [u8],
        used: &mut SvidUse,
        deed: &mut SvidDeed,
        told: &mut SvidTold,
    ) -> u32
        requires { 2048 ≤ length out.old }
        ensures { PeerJudges (says_of yes.entry) now up number read.now result told.new
            (record { out = out.old; used = used.old; deed = deed.old }) (record { out = out.new; used = used.new; deed = deed.new }) self.old self.new validator.old validator.new }
    {
        let reading = read.reading();
        if self.callers.allows(&reading.claims.sub) {
            let asked = self.member.judge(validator, now, up, number, reading, &yes);
            *deed = deed_seen(asked.deed);
            return tell_answer(asked.answer, out, used, told);
        }
        if self.member.awaits(up, number) {
            let answer = validator.judge_read(now, reading, &yes);
            let why = number_if_not_allowed(&answer);
            *deed = deed_seen(self.member.refuse(up, number, why));
            return only(u32::from(why), told);
        }
        *deed = deed_seen(Deed::Nothing);
        only(29, told)
    }
}

// Has the validator judge the token of a request.
fn judge(
    live: &mut Live,
    now: u64,
    up: u64,
    number: u64,
    yes: Answered<'_>,
    read: &TokenRead,
    out: &mut [u8],
    used: &mut SvidUse,
    deed: &mut SvidDeed,
    told: &mut SvidTold,
) -> u32
    ensures { JudgesRequest (says_of yes.entry) now up number read.now result told.new
        (record { out = out.old; used = used.old; deed = deed.old }) (record { out = out.new; used = used.new; deed = deed.new }) live.old live.new }
{
    if out.len() < 2048 {
        *told = told_length(2048);
        return 1;
    }
    if live.member.is_some() {
        return only(10, told);
    }
    let Some(peer) = &mut live.peer else {
        return only(20, told);
    };
    peer.judge(
        &mut live.validator,
        now,
        up,
        number,
        yes,
        read,
        out,
        used,
        deed,
        told,
    )
}

// Has the validator of a handle judge the token of a request.
fn judge_held(
    alloc: Global,
    v: &mut SvidValidator,
    now: u64,
    up: u64,
    number: u64,
    yes: Answered<'_>,
    read: &TokenRead,
    out: &mut [u8],
    used: &mut SvidUse,
    deed: &mut SvidDeed,
    told: &mut SvidTold,
) -> u32
    ensures { HandleCallsAt now ((out.new ≡ out.old) × ((used.new ≡ used.old) × (deed.new ≡ deed.old)))
        (JudgesRequest (says_of yes.entry) now up number read.now result told.new
        (record { out = out.old; used = used.old; deed = deed.old }) (record { out = out.new; used = used.new; deed = deed.new }))
        result told.new v.old.handle.live v.new.handle.live }
{
    let mut live = match v.take_at(alloc, now) {
        Ok(live) => live,
        Err(status) => return only(status, told),
    };
    let status = judge(&mut live, now, up, number, yes, read, out, used, deed, told);
    v.put(live);
    status
}

/// Judges the token of a request of a validator's member. `t` is the open handle of that token, and stays as it is. `key`, `input` and `signature`
/// are as for [`svid_validator_check_token`](crate::validator_check_token::svid_validator_check_token). `deed` says what to do next. In mode once the
/// record gains the use of an accepted token.
///
/// Returns 0 if the token is accepted: `out`, which has room for 2,048 bytes, has the SPIFFE ID of its subject, and `used` is its use. A refusal
/// or 2 if it is refused. 91 if it is good, but its subject may not call: nothing is added. 29 if the request does not wait for a judgment, or its
/// time is over: the validator was not asked.
///
/// 5 if the validator or the token's handle is closed, 9 if `now` is more than `step` past the record's moment, 1 if `out` is shorter than 2,048
/// bytes, 10 if the validator reads a log, 20 if it has no member. Then nothing happened.
#[unsafe(no_mangle)]
pub extern "C" fn svid_member_judge(
    alloc: Global,
    v: &mut SvidValidator,
    now: u64,
    up: u64,
    number: u64,
    key: &[u8],
    input: &[u8],
    signature: &[u8],
    t: &mut SvidToken,
    out: &mut [u8],
    used: &mut SvidUse,
    deed: &mut SvidDeed,
    told: &mut SvidTold,
) -> u32
    ensures { ReadsToken ((out.new ≡ out.old) × ((used.new ≡ used.old) × ((deed.new ≡ deed.old) × (v.new.handle.live ≡ v.old.handle.live))))
        (λ said. HandleCallsAt now ((out.new ≡ out.old) × ((used.new ≡ used.old) × (deed.new ≡ deed.old)))
        (JudgesRequest (finding_says (finding_of key.now input.now signature.now)) now up number said result told.new
        (record { out = out.old; used = used.old; deed = deed.old }) (record { out = out.new; used = used.new; deed = deed.new }))
        result told.new v.old.handle.live v.new.handle.live)
        result told.new t.old.handle.read t.new.handle.read }
{
    let Some(read) = t.take(alloc) else {
        return only(5, told);
    };
    let yes = Answered::Finding {
        key,
        input,
        signature,
    };
    let status = judge_held(alloc, v, now, up, number, yes, &read, out, used, deed, told);
    t.put(read);
    status
}
