ghost use Rattle.std.specs.Prelude.{◌≡◌, ◌≤◌, ◌++◌, IfOk, length, option_map};
ghost use Rattle.sha2.specs.Hashers.{Holds256};
ghost use Rattle.serde_json.specs.View.{view};
ghost use Rattle.svid_id.specs.Domain.{IsDomain};
ghost use Rattle.svid_token.specs.Json.{text_at};
ghost use Rattle.svid_keys.specs.Key.{is_for_svids, kept_key, kty_in, most_key_bytes};
ghost use Rattle.svid_keys.specs.Question.{field};

use crate::float::has_float;
use crate::hasher::holding;
use serde_json::Value;
use sha2::Sha256;
use std::alloc::{AllocError, Global};
use std::marker::Model;
use svid_token::Kty;

// The most bytes of a key's entry, as compact JSON.
const MAX_KEY_LEN: usize = 65536;

/// A key of a trust bundle that may sign JWT-SVIDs (RFC 7517, section 4).
///
/// Contracts see it as its trust domain, its name, its family and its text.
#[derive(Debug, Drop)]
pub struct JwtKey {
    domain: String,
    kid: String,
    kty: Kty,
    text: String,
    // Holds the two fields of the key, with which each question about it begins.
    hasher: Sha256,
}

impl Model for JwtKey {
    ghost use Rattle.std.specs.Prelude.{◌≤◌, ◌++◌, length};
    ghost use Rattle.std.specs.String.{string_bytes};
    ghost use Rattle.sha2.specs.Hashers.{Holds256};
    ghost use Rattle.svid_id.specs.Domain.{IsDomain};
    ghost use Rattle.svid_keys.specs.Key.{KeyData, most_key_bytes};
    ghost use Rattle.svid_keys.specs.Question.{field};

    ghost Value = { KeyData };

    ghost view = { λ key. record { domain = string_bytes key.domain; kid = string_bytes key.kid; kty = key.kty; text = string_bytes key.text } };

    ghost invariant = { λ key. IsDomain (string_bytes key.domain) × (length (string_bytes key.text) ≤ most_key_bytes) × Holds256 key.hasher (field (string_bytes key.domain) ++ field (string_bytes key.text)) };
}

impl JwtKey {
    // The key that an entry of the bundle of a domain is, if it is one.
    pub(crate) fn read(
        alloc: Global,
        domain: &str,
        entry: &Value,
    ) -> Result<Option<JwtKey>, AllocError>
        requires { IsDomain domain.now }
        ensures { IfOk result (λ key. key ≡ kept_key domain.now (view entry.now)) }
    {
        let Some(kid) = text_at(entry, "kid") else {
            return Ok(None);
        };
        let Some(kty) = kty_in(entry) else {
            return Ok(None);
        };
        if !is_for_svids(entry) || has_float(entry) {
            return Ok(None);
        }
        let text = entry.to_string(alloc)?;
        if text.len() > MAX_KEY_LEN {
            return Ok(None);
        }
        let hasher = holding(domain, text.as_str());
        let domain = String::from_str(alloc, domain)?;
        let kid = String::from_str(alloc, kid)?;
        Ok(Some(JwtKey {
            domain,
            kid,
            kty,
            text,
            hasher,
        }))
    }

    /// The trust domain whose tokens the key may sign.
    pub fn domain(&self) -> &str
        ensures value { result.now ≡ self.now.domain }
        ensures name { IsDomain result.now }
    {
        self.domain.as_str()
    }

    /// The name of the key (RFC 7517, section 4.5).
    pub fn kid(&self) -> &str
        ensures { result.now ≡ self.now.kid }
    {
        self.kid.as_str()
    }

    /// The family of the key (RFC 7517, section 4.1).
    pub fn kty(&self) -> Kty
        ensures { result ≡ self.now.kty }
    {
        self.kty
    }

    /// The whole entry as compact JSON with its names in rising byte order: at most 65,536 bytes.
    pub fn text(&self) -> &str
        ensures value { result.now ≡ self.now.text }
        ensures len { length result.now ≤ most_key_bytes }
    {
        self.text.as_str()
    }

    // A hasher that holds the trust domain and the text as fields.
    pub(crate) fn hasher(&self) -> Sha256
        ensures { Holds256 result (field self.now.domain ++ field self.now.text) }
    {
        self.hasher.clone().unwrap()
    }
}

// The text of a member, where it is there and is a text.
fn text_at<'v>(entry: &'v Value, name: &str) -> Option<&'v str>
    ensures { option_map (λ text. text.now) result ≡ text_at name.now (view entry.now) }
{
    entry.get(name).and_then(Value::as_str)
}

// The family that an entry names.
fn kty_in(entry: &Value) -> Option<Kty>
    ensures { result ≡ kty_in (view entry.now) }
{
    match text_at(entry, "kty") {
        Some("RSA") => Some(Kty::Rsa),
        Some("EC") => Some(Kty::Ec),
        _ => None,
    }
}

// Whether an entry is for JWT-SVIDs.
fn is_for_svids(entry: &Value) -> bool
    ensures { result ≡ is_for_svids (view entry.now) }
{
    matches!(text_at(entry, "use"), Some("jwt-svid"))
}
