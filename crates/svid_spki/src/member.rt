// What is read of the members of a key.

ghost use Rattle.std.specs.Prelude.{◌≡◌, IfOk, IfSome, IsTrue, option_map};
ghost use Rattle.serde_json.specs.View.{view};
ghost use Rattle.svid_spki.specs.Jwk.{bytes_at, is_text_at, number_at};
ghost use Rattle.svid_spki.specs.Number.{is_number};
ghost use Rattle.svid_token.specs.Json.{text_at};

use crate::number::is_number;
use serde_json::Value;
use std::alloc::{AllocError, Global};
use svid_token::{PartFault, decode_part};

// The text of a member, where it is there and is a text.
fn text_at<'v>(key: &'v Value, name: &str) -> Option<&'v str>
    ensures { option_map (λ text. text.now) result ≡ text_at name.now (view key.now) }
{
    key.get(name).and_then(Value::as_str)
}

// Whether a member is this text.
pub(crate) fn is_text_at(key: &Value, name: &str, text: &str) -> bool
    ensures { result ≡ is_text_at name.now text.now (view key.now) }
{
    match text_at(key, name) {
        Some(said) => said == text,
        None => false,
    }
}

// The bytes that a member spells in base64url, if it spells any.
pub(crate) fn bytes_at(
    alloc: Global,
    key: &Value,
    name: &str,
) -> Result<Option<Vec<u8>>, AllocError>
    ensures { IfOk result (λ o. option_map (λ v. v.items) o ≡ bytes_at name.now (view key.now)) }
{
    let Some(text) = text_at(key, name) else {
        return Ok(None);
    };
    match decode_part(alloc, text.as_bytes()) {
        Ok(bytes) => Ok(Some(bytes)),
        Err(PartFault::Spelling) => Ok(None),
        Err(PartFault::OutOfMemory) => Err(AllocError),
    }
}

// The number above 0 that a member is, in as few bytes as hold it, if it is one.
pub(crate) fn number_at(
    alloc: Global,
    key: &Value,
    name: &str,
) -> Result<Option<Vec<u8>>, AllocError>
    ensures value { IfOk result (λ o. option_map (λ v. v.items) o ≡ number_at name.now (view key.now)) }
    ensures number { IfOk result (λ o. IfSome o (λ v. IsTrue (is_number v.items))) }
{
    match bytes_at(alloc, key, name)? {
        Some(bytes) if is_number(&bytes) => Ok(Some(bytes)),
        _ => Ok(None),
    }
}
