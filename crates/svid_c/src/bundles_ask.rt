ghost use Rattle.std.specs.Prelude.{◌≡◌, ◌++◌, IfOk, OnOk, length, nat_lt, take};
ghost use Rattle.std.specs.List.{flat_map};
ghost use Rattle.svid_keys.specs.Candidates.{candidates_left};
ghost use Rattle.svid_c.specs.Trust.{ListsKeys, Reads, ReadsHeld, key_row};

use crate::bundles::SvidBundles;
use crate::rows::{push_field, put_rows, refuse_token};
use crate::told::SvidTold;
use crate::trust::Trust;
use crate::validator::only;
use std::alloc::{AllocError, Global};
use svid_check::Reading;
use svid_keys::{Bundles, Candidates, JwtKey};
use svid_token::{Alg, Refusal};

// Adds the row of a candidate.
fn push_key(rows: &mut Vec<u8>, key: &JwtKey, alg: Alg) -> Result<(), AllocError>
    ensures { OnOk result (rows.new.items ≡ rows.old.items ++ key_row alg key.now) }
{
    push_field(rows, alg.name().as_bytes())?;
    push_field(rows, key.text().as_bytes())?;
    Ok(())
}

// Adds the rows of the first `most` candidates, and answers whether there are more.
pub(crate) fn push_keys(
    rows: &mut Vec<u8>,
    candidates: Candidates<'_>,
    most: usize,
    alg: Alg,
) -> Result<bool, AllocError>
    ensures rows { OnOk result (rows.new.items ≡ rows.old.items ++ flat_map (key_row alg) (take most (candidates_left candidates.entry))) }
    ensures more { IfOk result (λ more. more ≡ nat_lt most (length (candidates_left candidates.entry))) }
{
    let mut left = most;
    for key in candidates {
        if left == 0 {
            return Ok(true);
        }
        push_key(rows, key, alg)?;
        left -= 1;
    }
    Ok(false)
}

// Writes a row for each of the first candidates.
fn list(
    alloc: Global,
    bundles: &Bundles,
    token: &[u8],
    most: usize,
    out: &mut [u8],
    told: &mut SvidTold,
) -> u32
    ensures { ListsKeys token.now most result told.new out.old out.new bundles.now }
{
    let reading = match Reading::of(alloc, token) {
        Ok(reading) => reading,
        Err(refusal) => return refuse_token(refusal, told),
    };
    let candidates = match reading.candidates(bundles) {
        Ok(candidates) => candidates,
        Err(refusal) => return refuse_token(refusal, told),
    };
    let mut rows = Vec::new(alloc);
    match push_keys(&mut rows, candidates, most, reading.header.alg) {
        Ok(more) => put_rows(&rows, more, out, told),
        Err(_) => refuse_token(Refusal::OutOfMemory, told),
    }
}

// The same for the bundles of a handle.
fn list_held(
    alloc: Global,
    trust: &Trust,
    token: &[u8],
    most: usize,
    out: &mut [u8],
    told: &mut SvidTold,
) -> u32
    ensures { ReadsHeld (out.new ≡ out.old) (ListsKeys token.now most result told.new out.old out.new) result told.new trust.now.bundles }
{
    let Some(bundles) = &trust.bundles else {
        return only(5, told);
    };
    list(alloc, bundles, token, most, out, told)
}

/// Writes a row for each key that may have signed the token to the start of `out`, for at most the first `most` of these keys, in the
/// order of their bundle. A row is the algorithm's name and the key as JSON, each after its length in four bytes, big-endian.
/// [`svid_bundles_question`](crate::bundles_question::svid_bundles_question) takes the number of a row, counted from 0. Hashes nothing.
///
/// Returns 0, with the length of the rows in `told.len`; or 1 if they are longer than `out`. For both, `told.more` is 1 if more than
/// `most` keys may have signed the token. A refusal if the token is refused already; 2 if out of memory; 5 if the handle is
/// closed. Unless the status is 0, `out` is unchanged.
#[unsafe(no_mangle)]
pub extern "C" fn svid_bundles_ask(
    alloc: Global,
    b: &mut SvidBundles,
    token: &[u8],
    most: usize,
    out: &mut [u8],
    told: &mut SvidTold,
) -> u32
    ensures { Reads (out.new ≡ out.old) (ListsKeys token.now most result told.new out.old out.new) result told.new b.old.handle.trust b.new.handle.trust }
{
    let Some(trust) = b.take(alloc) else {
        return only(5, told);
    };
    let status = list_held(alloc, &trust, token, most, out, told);
    b.put(trust);
    status
}
