ghost use Rattle.std.specs.Prelude.{◌≡◌, ◌≤◌, IfOk, IfSome, Some, length, option_map, vec_len};
ghost use Rattle.serde_json.specs.View.{view};
ghost use Rattle.svid_spki.specs.Jwk.{exponent_at, modulus_at, rsa_due};
ghost use Rattle.svid_spki.specs.Rows.{Answers};
ghost use Rattle.svid_spki.specs.Spki.{rsa_spki};

use crate::der::{INTEGER, SEQUENCE, positive, put, value};
use crate::key_fault::KeyFault;
use crate::member::number_at;
use crate::number::{has_bits, is_exponent, is_odd};
use crate::spki::spki;
use serde_json::Value;
use std::alloc::{AllocError, Global};

// rsaEncryption and NULL (RFC 3279, section 2.3.1).
const RSA_ENCRYPTION: [u8; 13] = [
    0x06, 0x09, 0x2a, 0x86, 0x48, 0x86, 0xf7, 0x0d, 0x01, 0x01, 0x01, 0x05, 0x00,
];

// The modulus of a key, if it has one.
fn modulus_at(alloc: Global, key: &Value) -> Result<Option<Vec<u8>>, AllocError>
    ensures { IfOk result (λ o. option_map (λ v. v.items) o ≡ modulus_at (view key.now)) }
{
    match number_at(alloc, key, "n")? {
        Some(n) if is_odd(&n) => Ok(Some(n)),
        _ => Ok(None),
    }
}

// The exponent of a key, if it has one.
fn exponent_at(alloc: Global, key: &Value) -> Result<Option<Vec<u8>>, AllocError>
    ensures value { IfOk result (λ o. option_map (λ v. v.items) o ≡ exponent_at (view key.now)) }
    ensures len { IfOk result (λ o. IfSome o (λ v. vec_len v ≤ 4)) }
{
    match number_at(alloc, key, "e")? {
        Some(e) if is_exponent(&e) => Ok(Some(e)),
        _ => Ok(None),
    }
}

// An RSA key of this modulus and exponent.
#[tactic(auto, using(crate::proofs::DerLemmas::rsa_encryption_is))]
fn rsa_spki(alloc: Global, n: &[u8], e: &[u8]) -> Result<Vec<u8>, AllocError>
    requires n { length n.now ≤ 2049 }
    requires e { length e.now ≤ 4 }
    ensures value { IfOk result (λ v. v.items ≡ rsa_spki n.now e.now) }
    ensures len { IfOk result (λ v. vec_len v ≤ 2100) }
{
    let mut numbers = Vec::new(alloc);
    put(&mut numbers, INTEGER, &positive(alloc, n)?)?;
    put(&mut numbers, INTEGER, &positive(alloc, e)?)?;
    let key = value(alloc, SEQUENCE, &numbers)?;
    spki(alloc, &RSA_ENCRYPTION, &key)
}

// An RSA key that a JSON object is.
pub(crate) fn read_rsa(alloc: Global, key: &Value, most_bits: usize) -> Result<Vec<u8>, KeyFault>
    ensures value { Answers (λ v. Some v.items) result (rsa_due most_bits (view key.now)) }
    ensures len { IfOk result (λ v. vec_len v ≤ 2100) }
{
    let Some(n) = modulus_at(alloc, key)? else {
        return Err(KeyFault::N);
    };
    if !has_bits(&n, most_bits) {
        return Err(KeyFault::Bits);
    }
    let Some(e) = exponent_at(alloc, key)? else {
        return Err(KeyFault::E);
    };
    Ok(rsa_spki(alloc, &n, &e)?)
}
