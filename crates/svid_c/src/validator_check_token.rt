ghost use Rattle.std.specs.Prelude.{◌≡◌, IfOk, IfErr, None, Some};
ghost use Rattle.svid_token.specs.Rows.{Answers};
ghost use Rattle.svid_replay.specs.Buckets.{raised_to};
ghost use Rattle.svid_check.specs.Verifiers.{finding_says};
ghost use Rattle.svid_c.specs.Answered.{finding_of, says_of};
ghost use Rattle.svid_c.specs.Live.{Checks, ChecksAlone, HandleCallsAt, IsLeft, adds, adds_nothing, gained_by, verdict_at};
ghost use Rattle.svid_c.specs.Token.{ReadsToken};
ghost use Rattle.svid_c.specs.declared.validator_check_token.Gain.TheVariants.{ItsUse};

use crate::answered::Answered;
use crate::check::{SvidUse, accept_whole};
use crate::live::Live;
use crate::refusal::refusal_number;
use crate::token::SvidToken;
use crate::token_read::TokenRead;
use crate::told::{SvidTold, told_length};
use crate::validator::{SvidValidator, only};
use std::alloc::Global;
use svid_check::Accepted;
use svid_token::Refusal;

/// What the record gains when a call accepts a token.
#[derive(Clone, Copy)]
pub enum Gain {
    /// The token's use, so that a later check refuses it.
    ItsUse,
    /// Nothing, so that a later check may accept it.
    Nothing,
}

// Judges a token, and adds its use if it is accepted.
#[tactic(auto, using(crate::proofs::LogLemmas::unclaimed))]
fn checked(
    live: &mut Live,
    now: u64,
    yes: Answered<'_>,
    read: &TokenRead,
) -> Result<Accepted, Refusal>
    requires { live.old.member ≡ None }
    ensures answer { Answers Some result (verdict_at live.old (says_of yes.entry) now read.now) }
    ensures gained { IfOk result (λ accepted. IsLeft now (adds (raised_to live.old.validator.state now) accepted.used) live.old live.new) }
    ensures raised { IfErr result (λ _. IsLeft now (raised_to live.old.validator.state now) live.old live.new) }
{
    live.validator.check_read(now, read.reading(), &yes)
}

// Judges a token, and adds nothing.
fn judged(
    live: &mut Live,
    now: u64,
    yes: Answered<'_>,
    read: &TokenRead,
) -> Result<Accepted, Refusal>
    ensures answer { Answers Some result (verdict_at live.old (says_of yes.entry) now read.now) }
    ensures left { IsLeft now (raised_to live.old.validator.state now) live.old live.new }
{
    match &mut live.member {
        Some(member) => live
            .validator
            .judge_claim_read(member, now, read.reading(), &yes),
        None => live.validator.judge_read(now, read.reading(), &yes),
    }
}

// Judges a token, and adds what `gain` says.
fn answer(
    live: &mut Live,
    now: u64,
    yes: Answered<'_>,
    read: &TokenRead,
    gain: Gain,
) -> Result<Accepted, Refusal>
    requires { gain ≡ ItsUse → live.old.member ≡ None }
    ensures answer { Answers Some result (verdict_at live.old (says_of yes.entry) now read.now) }
    ensures gained { IfOk result (λ accepted. IsLeft now (gained_by gain (raised_to live.old.validator.state now) accepted.used) live.old live.new) }
    ensures raised { IfErr result (λ _. IsLeft now (raised_to live.old.validator.state now) live.old live.new) }
{
    match gain {
        Gain::ItsUse => checked(live, now, yes, read),
        Gain::Nothing => judged(live, now, yes, read),
    }
}

// Checks a token, and reports the answer.
fn check(
    live: &mut Live,
    now: u64,
    yes: Answered<'_>,
    read: &TokenRead,
    gain: Gain,
    out: &mut [u8],
    used: &mut SvidUse,
    told: &mut SvidTold,
) -> u32
    requires { gain ≡ ItsUse → live.old.member ≡ None }
    ensures { Checks (gained_by gain) now (says_of yes.entry) read.now result told.new out.old out.new used.old used.new live.old live.new }
{
    if out.len() < 2048 {
        *told = told_length(2048);
        return 1;
    }
    match answer(live, now, yes, read, gain) {
        Ok(accepted) => accept_whole(accepted, out, used, told),
        Err(refusal) => {
            *told = told_length(0);
            refusal_number(refusal)
        }
    }
}

// Checks a token, unless the validator reads a log.
fn check_alone(
    live: &mut Live,
    now: u64,
    yes: Answered<'_>,
    read: &TokenRead,
    out: &mut [u8],
    used: &mut SvidUse,
    told: &mut SvidTold,
) -> u32
    ensures { ChecksAlone now (says_of yes.entry) read.now result told.new out.old out.new used.old used.new live.old live.new }
{
    if live.member.is_some() {
        return only(10, told);
    }
    check(live, now, yes, read, Gain::ItsUse, out, used, told)
}

// Checks a token by the validator of a handle.
fn check_held(
    alloc: Global,
    v: &mut SvidValidator,
    now: u64,
    yes: Answered<'_>,
    read: &TokenRead,
    out: &mut [u8],
    used: &mut SvidUse,
    told: &mut SvidTold,
) -> u32
    ensures { HandleCallsAt now ((out.new ≡ out.old) × (used.new ≡ used.old)) (ChecksAlone now (says_of yes.entry) read.now result told.new out.old out.new used.old used.new)
        result told.new v.old.handle.live v.new.handle.live }
{
    let mut live = match v.take_at(alloc, now) {
        Ok(live) => live,
        Err(status) => return only(status, told),
    };
    let status = check_alone(&mut live, now, yes, read, out, used, told);
    v.put(live);
    status
}

// Judges a token by the validator of a handle.
fn judge_held(
    alloc: Global,
    v: &mut SvidValidator,
    now: u64,
    yes: Answered<'_>,
    read: &TokenRead,
    out: &mut [u8],
    used: &mut SvidUse,
    told: &mut SvidTold,
) -> u32
    ensures { HandleCallsAt now ((out.new ≡ out.old) × (used.new ≡ used.old)) (Checks adds_nothing now (says_of yes.entry) read.now result told.new out.old out.new used.old used.new)
        result told.new v.old.handle.live v.new.handle.live }
{
    let mut live = match v.take_at(alloc, now) {
        Ok(live) => live,
        Err(status) => return only(status, told),
    };
    let status = check(&mut live, now, yes, read, Gain::Nothing, out, used, told);
    v.put(live);
    status
}

/// Checks the token of an open handle at the moment `now`, in seconds, and writes the SPIFFE ID of its subject to `out`, which must have room
/// for 2,048 bytes. `key`, `input` and `signature` are what the caller's verifier said yes to: this key, as JSON, made this signature over
/// these bytes. All three are as [`svid_validator_ask_token`](crate::validator_ask_token::svid_validator_ask_token) gives them, and `key` is
/// empty if no key did. They are compared with the validator's current keys and with the token. If they belong to another token, or the key may
/// not have signed this one, the answer is 123. Hashes nothing.
///
/// The call first advances the record to `now`, and judges the token at the record's moment, which may be later. The token's handle is
/// unchanged.
///
/// Returns 0 if it accepts the token: the record has gained the use, and `used` is that use. Else `out` and `used` are unchanged. The
/// first refusal that holds, of those that a token which was read can have; or 2 if out of memory, which may come instead of any refusal.
///
/// 5 if the validator or the handle of the token is closed, 9 if `now` is more than `step` past the record's moment, 1 if `out` is shorter than
/// 2,048 bytes, 10 if the validator reads a log: it accepts tokens by their claims alone
/// ([`svid_validator_read`](crate::validator_read::svid_validator_read)). Then nothing happened.
#[unsafe(no_mangle)]
pub extern "C" fn svid_validator_check_token(
    alloc: Global,
    v: &mut SvidValidator,
    now: u64,
    key: &[u8],
    input: &[u8],
    signature: &[u8],
    t: &mut SvidToken,
    out: &mut [u8],
    used: &mut SvidUse,
    told: &mut SvidTold,
) -> u32
    ensures { ReadsToken ((out.new ≡ out.old) × ((used.new ≡ used.old) × (v.new.handle.live ≡ v.old.handle.live)))
        (λ said. HandleCallsAt now ((out.new ≡ out.old) × (used.new ≡ used.old)) (ChecksAlone now (finding_says (finding_of key.now input.now signature.now)) said result told.new out.old out.new used.old used.new)
        result told.new v.old.handle.live v.new.handle.live)
        result told.new t.old.handle.read t.new.handle.read }
{
    let Some(read) = t.take(alloc) else {
        return only(5, told);
    };
    let yes = Answered::Finding {
        key,
        input,
        signature,
    };
    let status = check_held(alloc, v, now, yes, &read, out, used, told);
    t.put(read);
    status
}

/// Answers what [`svid_validator_check_token`] would answer, and adds no use to the record: `used` is the use that a check would add. It also
/// answers on a validator that reads a log, which refuses a token (125) also if its claim is beside the record.
#[unsafe(no_mangle)]
pub extern "C" fn svid_validator_judge_token(
    alloc: Global,
    v: &mut SvidValidator,
    now: u64,
    key: &[u8],
    input: &[u8],
    signature: &[u8],
    t: &mut SvidToken,
    out: &mut [u8],
    used: &mut SvidUse,
    told: &mut SvidTold,
) -> u32
    ensures { ReadsToken ((out.new ≡ out.old) × ((used.new ≡ used.old) × (v.new.handle.live ≡ v.old.handle.live)))
        (λ said. HandleCallsAt now ((out.new ≡ out.old) × (used.new ≡ used.old)) (Checks adds_nothing now (finding_says (finding_of key.now input.now signature.now)) said result told.new out.old out.new used.old used.new)
        result told.new v.old.handle.live v.new.handle.live)
        result told.new t.old.handle.read t.new.handle.read }
{
    let Some(read) = t.take(alloc) else {
        return only(5, told);
    };
    let yes = Answered::Finding {
        key,
        input,
        signature,
    };
    let status = judge_held(alloc, v, now, yes, &read, out, used, told);
    t.put(read);
    status
}
