ghost use Rattle.std.specs.Prelude.{◌≡◌, ◌<◌, ◌≤◌, ◌+◌, IfOk, Some, map, nat_lt, string_bytes};
ghost use Rattle.std.specs.List.{list_any};
ghost use Rattle.svid_token.specs.Rows.{Answers, first_row, holds_of};
ghost use Rattle.svid_check.specs.Said.{RefusesForm, said_in};
ghost use Rattle.svid_check.specs.Setting.{given_setting};
ghost use Rattle.svid_check.specs.Verdict.{is_own, is_signed, key_of, record_rows, setting_rows, verdict, verdict_on};

use crate::accepted::Accepted;
use crate::given::Given;
use crate::reading::Reading;
use std::alloc::Global;
use svid_keys::Verifier;
use svid_replay::{Record, Use, UseStore};
use svid_token::Refusal;

// Whether a name is one of the validator's own.
fn is_own(own: &[String], name: &str) -> bool
    ensures { result ≡ is_own (map string_bytes own.now) name.now }
{
    for mine in own {
        if name == mine.as_str() {
            return true;
        }
    }
    false
}

// Whether an audience is one of the validator's own.
fn is_for(own: &[String], aud: &[String]) -> bool
    ensures { result ≡ list_any (is_own (map string_bytes own.now)) (map string_bytes aud.now) }
{
    for name in aud {
        if is_own(own, name.as_str()) {
            return true;
        }
    }
    false
}

// Whether a token is not valid yet.
fn is_early(moment: u64, nbf: Option<u64>) -> bool
    ensures { result ≡ holds_of nbf (λ nbf. nat_lt moment nbf) }
{
    match nbf {
        Some(nbf) => nbf > moment,
        None => false,
    }
}

// Whether a token expires later than any may at this moment. The difference is compared, since the sum
// of the moment and the longest life may be past 2^64-1.
fn lasts_too_long(moment: u64, longest: Option<u64>, exp: u64) -> bool
    ensures { result ≡ holds_of longest (λ longest. nat_lt (moment + longest) exp) }
{
    match longest {
        Some(longest) => exp.saturating_sub(moment) > longest,
        None => false,
    }
}

// Whether a candidate made the signature, as the verifier says.
fn is_signed<V: Verifier>(given: &Given, verifier: &V, reading: &Reading) -> bool
    ensures { result ≡ is_signed (given_setting (V.says verifier.now) given.now) (said_in reading.now) }
{
    for key in reading.keys(&given.bundles) {
        if verifier.verify(key, reading.header.alg, &reading.input, &reading.signature) {
            return true;
        }
    }
    false
}

// Why the record refuses a key. A withdrawal is one of its uses, so one look tells of a key that is new.
#[tactic(auto, using(crate::proofs::VerdictLemmas::withdrawn_is_held))]
pub(crate) fn record_refusal<S: UseStore>(replay: &Record<S>, key: &[u8; 32]) -> Option<Refusal>
    ensures { result ≡ first_row (record_rows replay.now.uses key.now) }
{
    if !replay.has(key) {
        return None;
    }
    if replay.is_withdrawn(key) {
        return Some(Refusal::Withdrawn);
    }
    Some(Refusal::Replayed)
}

// Why the setting, the moment and the uses refuse what a token says.
fn refusal<V: Verifier, S: UseStore>(
    given: &Given,
    verifier: &V,
    replay: &Record<S>,
    reading: &Reading,
    key: &[u8; 32],
) -> Option<Refusal>
    requires key { key.now ≡ key_of (said_in reading.now) }
    ensures { result
        ≡ first_row (setting_rows (given_setting (V.says verifier.now) given.now) replay.now.moment replay.now.uses (said_in reading.now)) }
{
    if !is_for(&given.own, &reading.claims.aud) {
        return Some(Refusal::NotAudience);
    }
    if reading.claims.exp <= replay.moment() {
        return Some(Refusal::Expired);
    }
    if is_early(replay.moment(), reading.claims.nbf) {
        return Some(Refusal::NotYet);
    }
    if lasts_too_long(replay.moment(), given.longest, reading.claims.exp) {
        return Some(Refusal::TooLongLived);
    }
    if let Some(refusal) = reading.keys_refusal(&given.bundles) {
        return Some(refusal);
    }
    if !is_signed(given, verifier, reading) {
        return Some(Refusal::BadSignature);
    }
    record_refusal(replay, key)
}

// Accepts or refuses a token by what it says. The record is unchanged.
pub(crate) fn judge<V: Verifier, S: UseStore>(
    given: &Given,
    verifier: &V,
    replay: &Record<S>,
    reading: &Reading,
) -> Result<Accepted, Refusal>
    ensures answer { Answers Some result (verdict_on (given_setting (V.says verifier.now) given.now) replay.now.moment replay.now.uses (said_in reading.now)) }
    ensures made { IfOk result (λ accepted. accepted.used.at ≤ replay.now.moment) }
    ensures live { IfOk result (λ accepted. replay.now.moment < accepted.used.exp) }
{
    let key = reading.key();
    if let Some(refusal) = refusal(given, verifier, replay, reading, &key) {
        return Err(refusal);
    }
    let Ok(id) = reading.claims.sub.clone() else {
        return Err(Refusal::OutOfMemory);
    };
    let used = Use {
        exp: reading.claims.exp,
        key,
        validator_id: given.validator_id,
        at: replay.moment(),
        withdrawn: false,
    };
    Ok(Accepted { id, used })
}

// The acceptance of a token, or why it is refused. The record stays as it is.
pub(crate) fn judge_token<V: Verifier, S: UseStore>(
    alloc: Global,
    given: &Given,
    verifier: &V,
    replay: &Record<S>,
    token: &[u8],
) -> Result<Accepted, Refusal>
    ensures answer { Answers Some result (verdict (given_setting (V.says verifier.now) given.now) replay.now.moment replay.now.uses token.now) }
    ensures early { RefusesForm token.now result }
    ensures made { IfOk result (λ accepted. accepted.used.at ≤ replay.now.moment) }
    ensures live { IfOk result (λ accepted. replay.now.moment < accepted.used.exp) }
{
    match Reading::of(alloc, token) {
        Ok(reading) => judge(given, verifier, replay, &reading),
        Err(refusal) => Err(refusal),
    }
}
