ghost use Rattle.std.specs.Prelude.{◌≡◌, ◌≤◌, ◌+◌, IfOk, Some, length, option_map, vec_len};
ghost use Rattle.serde_json.specs.View.{view};
ghost use Rattle.svid_spki.specs.Jwk.{is_for, is_of_family, object_due, spki_due};
ghost use Rattle.svid_spki.specs.Rows.{Answers};
ghost use Rattle.svid_spki.specs.Spki.{spki};
ghost use Rattle.svid_token.specs.Json.{object_of};

use crate::curve::Curve;
use crate::der::{BIT_STRING, SEQUENCE, put, value};
use crate::ec::read_ec;
use crate::key_fault::KeyFault;
use crate::member::is_text_at;
use crate::rsa::read_rsa;
use serde_json::Value;
use std::alloc::{AllocError, Global};
use svid_token::{Alg, Kty, read_json};

// A key, and the algorithm that it is for.
pub(crate) fn spki(alloc: Global, algorithm: &[u8], key: &[u8]) -> Result<Vec<u8>, AllocError>
    requires algorithm { length algorithm.now ≤ 19 }
    requires key { length key.now ≤ 2067 }
    ensures value { IfOk result (λ v. v.items ≡ spki algorithm.now key.now) }
    ensures len { IfOk result (λ v. vec_len v ≤ length algorithm.now + length key.now + 13) }
{
    let mut bits = Vec::new(alloc);
    bits.push(0)?;
    bits.extend_from_slice(key)?;
    let mut parts = Vec::new(alloc);
    put(&mut parts, SEQUENCE, algorithm)?;
    put(&mut parts, BIT_STRING, &bits)?;
    value(alloc, SEQUENCE, &parts)
}

// Whether a key is of the family that signs by an algorithm.
fn is_of_family(key: &Value, alg: Alg) -> bool
    ensures { result ≡ is_of_family alg (view key.now) }
{
    let name = match alg.kty() {
        Kty::Rsa => "RSA",
        Kty::Ec => "EC",
    };
    is_text_at(key, "kty", name)
}

// Whether a key may be used with an algorithm: it names this one, or none.
fn is_for(key: &Value, alg: Alg) -> bool
    ensures { result ≡ is_for alg (view key.now) }
{
    match key.get("alg") {
        Some(said) => said.as_str() == Some(alg.name()),
        None => true,
    }
}

// The JSON object that a text is, if it is one.
fn object_in(alloc: Global, text: &[u8]) -> Result<Option<Value>, AllocError>
    ensures { IfOk result (λ o. option_map view o ≡ object_of text.now) }
{
    match read_json(alloc, text)? {
        Some(value) if value.is_object() => Ok(Some(value)),
        _ => Ok(None),
    }
}

// The key that a JSON object is.
fn object_spki(alloc: Global, key: &Value, alg: Alg, most_bits: usize) -> Result<Vec<u8>, KeyFault>
    ensures value { Answers (λ v. Some v.items) result (object_due most_bits alg (view key.now)) }
    ensures len { IfOk result (λ v. vec_len v ≤ 2100) }
{
    if !is_of_family(key, alg) {
        return Err(KeyFault::Kty);
    }
    if !is_for(key, alg) {
        return Err(KeyFault::Alg);
    }
    match Curve::of(alg) {
        Some(curve) => read_ec(alloc, key, curve),
        None => read_rsa(alloc, key, most_bits),
    }
}

/// The public key that a text is as JSON (RFC 7517, section 4), as SubjectPublicKeyInfo in DER (RFC
/// 5280, section 4.1.2.7; RFC 3279, section 2.3.1; RFC 5480, section 2), if it can be used with an
/// algorithm.
///
/// An RSA key has at most `most_bits` bits, and never more than 16,384. Of the faults of
/// [`KeyFault`] the first that holds is answered, or `OutOfMemory` where an allocation was refused.
/// Of a member that is written twice the last stands, and members of other names are passed over,
/// `use` and `key_ops` too. No point is looked for on its curve. The answer has at most 2,100 bytes.
pub fn key_spki(alloc: Global, text: &[u8], alg: Alg, most_bits: usize) -> Result<Vec<u8>, KeyFault>
    ensures value { Answers (λ v. Some v.items) result (spki_due most_bits alg text.now) }
    ensures len { IfOk result (λ v. vec_len v ≤ 2100) }
{
    match object_in(alloc, text)? {
        Some(key) => object_spki(alloc, &key, alg, most_bits),
        None => Err(KeyFault::NotObject),
    }
}
