// Entries of a JWK Set, and which of them are keys for JWT-SVIDs.

ghost use Rattle.std.specs.Prelude.{◌≡◌, IfErr, IfOk, Ok, is_none, option_map, string_bytes};
ghost use Rattle.serde_json.specs.Find.{get};
ghost use Rattle.serde_json.specs.View.{view};
ghost use Rattle.svid_token.specs.Json.{text_at};
ghost use Rattle.svid_keys.specs.Key.{is_for_svids, kty_in};
ghost use Rattle.svid_documents.specs.Entry.{IsReason, entry_due, is_for_x509, key_due};

use crate::entry_fault::EntryFault;
use serde_json::Value;
use std::alloc::Global;
use svid_keys::has_float;
use svid_token::read_json;

// The most bytes of a key, as compact JSON.
const MAX_KEY_LEN: usize = 65536;

// The text of a member, where it is there and is a text.
fn text_at<'v>(entry: &'v Value, name: &str) -> Option<&'v str>
    ensures { option_map (λ text. text.now) result ≡ text_at name.now (view entry.now) }
{
    entry.get(name).and_then(Value::as_str)
}

// Whether an entry lacks a member.
fn lacks(entry: &Value, name: &str) -> bool
    ensures { result ≡ is_none (get name.now (view entry.now)) }
{
    match entry.get(name) {
        Some(_) => false,
        None => true,
    }
}

// Whether an entry lacks a member that is a text.
fn lacks_text(entry: &Value, name: &str) -> bool
    ensures { result ≡ is_none (text_at name.now (view entry.now)) }
{
    match text_at(entry, name) {
        Some(_) => false,
        None => true,
    }
}

// Whether an entry is for X.509-SVIDs.
fn is_for_x509(entry: &Value) -> bool
    ensures { result ≡ is_for_x509 (view entry.now) }
{
    matches!(text_at(entry, "use"), Some("x509-svid"))
}

// Whether an entry is for JWT-SVIDs.
fn is_for_svids(entry: &Value) -> bool
    ensures { result ≡ is_for_svids (view entry.now) }
{
    matches!(text_at(entry, "use"), Some("jwt-svid"))
}

// Whether an entry lacks a family of keys.
fn lacks_kty(entry: &Value) -> bool
    ensures { result ≡ is_none (kty_in (view entry.now)) }
{
    match text_at(entry, "kty") {
        Some("RSA") => false,
        Some("EC") => false,
        _ => true,
    }
}

// The compact text of an entry that is a key.
fn entry_text(alloc: Global, entry: &Value) -> Result<String, EntryFault>
    ensures key { IfOk result (λ text. entry_due (view entry.now) ≡ Ok (string_bytes text)) }
    ensures fault { IfErr result (IsReason (entry_due (view entry.now))) }
{
    if !entry.is_object() {
        return Err(EntryFault::NotObject);
    }
    if lacks(entry, "use") {
        return Err(EntryFault::NoUse);
    }
    if is_for_x509(entry) {
        return Err(EntryFault::X509);
    }
    if !is_for_svids(entry) {
        return Err(EntryFault::Use);
    }
    if lacks_text(entry, "kid") {
        return Err(EntryFault::Kid);
    }
    if lacks_kty(entry) {
        return Err(EntryFault::Kty);
    }
    if has_float(entry) {
        return Err(EntryFault::Number);
    }
    let text = entry.to_string(alloc)?;
    if text.len() > MAX_KEY_LEN {
        return Err(EntryFault::TooLong);
    }
    Ok(text)
}

/// The compact text of the key for JWT-SVIDs that an entry of a bundle is, from the entry's own text: JSON
/// without blanks, with its names in rising byte order, as [`svid_keys::JwtKey::text`] gives it.
///
/// Of the faults of [`EntryFault`] the first that holds is answered, or `OutOfMemory` where an allocation
/// was refused. Of a member that is written twice the last stands, and members of other names are kept.
pub fn key_text(alloc: Global, entry: &[u8]) -> Result<String, EntryFault>
    ensures key { IfOk result (λ text. key_due entry.now ≡ Ok (string_bytes text)) }
    ensures fault { IfErr result (IsReason (key_due entry.now)) }
{
    match read_json(alloc, entry)? {
        Some(value) => entry_text(alloc, &value),
        None => Err(EntryFault::NotObject),
    }
}
