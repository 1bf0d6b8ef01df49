ghost use Rattle.std.specs.Prelude.{◌≡◌, ◌++◌, IfOk, OnOk, length, nat_lt, take};
ghost use Rattle.std.specs.List.{flat_map};
ghost use Rattle.svid_keys.specs.Candidates.{candidates_left};
ghost use Rattle.svid_check.specs.Said.{said_in};
ghost use Rattle.svid_c.specs.Live.{Calls};
ghost use Rattle.svid_c.specs.Token.{ReadsToken};
ghost use Rattle.svid_c.specs.Trust.{Lists, key_row, signing_of};

use crate::bundles_ask::push_keys;
use crate::live::Live;
use crate::rows::{push_field, put_rows, refuse_token};
use crate::token::SvidToken;
use crate::told::SvidTold;
use crate::validator::{SvidValidator, only};
use std::alloc::{AllocError, Global};
use svid_check::Reading;
use svid_keys::Candidates;
use svid_token::Refusal;

// Adds the length of the signed bytes, and the signature.
fn push_signing(rows: &mut Vec<u8>, reading: &Reading) -> Result<(), AllocError>
    ensures { OnOk result (rows.new.items ≡ rows.old.items ++ signing_of (said_in reading.now)) }
{
    rows.extend_from_slice(&(reading.input.len() as u32).to_be_bytes())?;
    push_field(rows, &reading.signature)?;
    Ok(())
}

// All that is to be verified, and whether more keys may have signed the token.
fn lists_of(
    alloc: Global,
    candidates: Candidates<'_>,
    most: usize,
    reading: &Reading,
) -> Result<(Vec<u8>, bool), AllocError>
    ensures rows { IfOk result (λ given. given.0.items ≡ signing_of (said_in reading.now) ++ flat_map (key_row (said_in reading.now).alg) (take most (candidates_left candidates.entry))) }
    ensures more { IfOk result (λ given. given.1 ≡ nat_lt most (length (candidates_left candidates.entry))) }
{
    // (one block is enough for an RSA key)
    let mut rows = Vec::with_capacity(alloc, 1024)?;
    push_signing(&mut rows, reading)?;
    let more = push_keys(&mut rows, candidates, most, reading.header.alg)?;
    Ok((rows, more))
}

// Writes all that is to be verified.
fn list(
    alloc: Global,
    live: &Live,
    reading: &Reading,
    most: usize,
    out: &mut [u8],
    told: &mut SvidTold,
) -> u32
    ensures { Lists (said_in reading.now) most result told.new out.old out.new live.now.validator live.now.validator }
{
    let candidates = match reading.candidates(live.validator.bundles()) {
        Ok(candidates) => candidates,
        Err(refusal) => return refuse_token(refusal, told),
    };
    match lists_of(alloc, candidates, most, reading) {
        Ok((rows, more)) => put_rows(&rows, more, out, told),
        Err(_) => refuse_token(Refusal::OutOfMemory, told),
    }
}

// The same for the validator of a handle.
fn list_held(
    alloc: Global,
    v: &mut SvidValidator,
    reading: &Reading,
    most: usize,
    out: &mut [u8],
    told: &mut SvidTold,
) -> u32
    ensures { Calls (out.new ≡ out.old) (Lists (said_in reading.now) most result told.new out.old out.new) result told.new v.old.handle.live v.new.handle.live }
{
    let Some(live) = v.take(alloc) else {
        return only(5, told);
    };
    let status = list(alloc, &live, reading, most, out, told);
    v.put(live);
    status
}

/// Writes all that the caller's verifier needs for the token of an open handle to the start of `out`, in three parts:
///
/// - how many bytes of the token the signature covers, from the first, in four bytes, big-endian
/// - the signature after its length, as [`svid_token_signature`](crate::token_signature::svid_token_signature) gives it
/// - a row for each key that may have signed the token, for at most the first `most` of these keys, in the order of their bundle: the algorithm's
///   name and the key as JSON, each after its length in four bytes
///
/// Hashes nothing.
///
/// Returns 0, with the length of all that in `told.len`; or 1 if it is longer than `out`. For both, `told.more` is 1 if more than `most` keys may
/// have signed the token. 121 and 122 if the token is refused already; 2 if out of memory; 5 if the validator or the handle of the token is closed.
/// Unless the status is 0, `out` is unchanged. The token is never changed.
#[unsafe(no_mangle)]
pub extern "C" fn svid_validator_ask_token(
    alloc: Global,
    v: &mut SvidValidator,
    t: &mut SvidToken,
    most: usize,
    out: &mut [u8],
    told: &mut SvidTold,
) -> u32
    ensures { ReadsToken ((out.new ≡ out.old) × (v.new.handle.live ≡ v.old.handle.live))
        (λ said. Calls (out.new ≡ out.old) (Lists said most result told.new out.old out.new) result told.new v.old.handle.live v.new.handle.live)
        result told.new t.old.handle.read t.new.handle.read }
{
    let Some(read) = t.take(alloc) else {
        return only(5, told);
    };
    let status = list_held(alloc, v, read.reading(), most, out, told);
    t.put(read);
    status
}
