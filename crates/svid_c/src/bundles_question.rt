ghost use Rattle.std.specs.Prelude.{◌≡◌, option_map};
ghost use Rattle.std.specs.List.{slice_get};
ghost use Rattle.svid_keys.specs.Candidates.{candidates_left};
ghost use Rattle.svid_c.specs.Trust.{AsksOne, Reads, ReadsHeld};

use crate::bundles::SvidBundles;
use crate::rows::refuse_token;
use crate::told::SvidTold;
use crate::trust::Trust;
use crate::validator::only;
use std::alloc::Global;
use svid_check::Reading;
use svid_keys::{Bundles, Candidates, JwtKey, question};
use svid_token::Refusal;

/// Asks if a key signed a token.
#[repr(C)]
#[derive(Drop)]
pub struct SvidQuestion {
    /// Its bytes.
    pub bytes: [u8; 32],
}

// The candidate with a number, counted from 0.
fn candidate<'a>(candidates: Candidates<'a>, number: usize) -> Option<&'a JwtKey>
    ensures { option_map (λ key. key.now) result ≡ slice_get (candidates_left candidates.entry) number }
{
    let mut left = number;
    for key in candidates {
        if left == 0 {
            return Some(key);
        }
        left -= 1;
    }
    None
}

// Asks the question of one candidate.
fn ask_one(
    alloc: Global,
    bundles: &Bundles,
    token: &[u8],
    number: usize,
    asked: &mut SvidQuestion,
    told: &mut SvidTold,
) -> u32
    ensures { AsksOne token.now number result told.new asked.old asked.new bundles.now }
{
    let reading = match Reading::of(alloc, token) {
        Ok(reading) => reading,
        Err(refusal) => return refuse_token(refusal, told),
    };
    let candidates = match reading.candidates(bundles) {
        Ok(candidates) => candidates,
        Err(refusal) => return refuse_token(refusal, told),
    };
    let Some(key) = candidate(candidates, number) else {
        return refuse_token(Refusal::NoKey, told);
    };
    let bytes = question(key, reading.header.alg, &reading.input, &reading.signature);
    *asked = SvidQuestion { bytes };
    only(0, told)
}

// The same for the bundles of a handle.
fn ask_held(
    alloc: Global,
    trust: &Trust,
    token: &[u8],
    number: usize,
    asked: &mut SvidQuestion,
    told: &mut SvidTold,
) -> u32
    ensures { ReadsHeld (asked.new ≡ asked.old) (AsksOne token.now number result told.new asked.old asked.new) result told.new trust.now.bundles }
{
    let Some(bundles) = &trust.bundles else {
        return only(5, told);
    };
    ask_one(alloc, bundles, token, number, asked, told)
}

/// Writes the question to `asked` that asks if one key signed the token: the key of the row `number`, counted from 0, of
/// [`svid_bundles_ask`](crate::bundles_ask::svid_bundles_ask). Hashes that one question.
///
/// Returns 0, and `asked` is the question. A refusal if the token is refused already, and 122 if no more than `number` keys
/// may have signed it; 2 if out of memory; 5 if the handle is closed. Unless the status is 0, `asked` is unchanged.
#[unsafe(no_mangle)]
pub extern "C" fn svid_bundles_question(
    alloc: Global,
    b: &mut SvidBundles,
    token: &[u8],
    number: usize,
    asked: &mut SvidQuestion,
    told: &mut SvidTold,
) -> u32
    ensures { Reads (asked.new ≡ asked.old) (AsksOne token.now number result told.new asked.old asked.new) result told.new b.old.handle.trust b.new.handle.trust }
{
    let Some(trust) = b.take(alloc) else {
        return only(5, told);
    };
    let status = ask_held(alloc, &trust, token, number, asked, told);
    b.put(trust);
    status
}
