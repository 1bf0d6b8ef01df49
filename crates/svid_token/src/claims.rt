ghost use Rattle.std.specs.Prelude.{◌≡◌, IfOk, [], ◌∷◌, map, option_and_then, option_map, string_bytes};
ghost use Rattle.serde_json.specs.View.{items_view, view};
ghost use Rattle.svid_id.specs.Id.{id_parts};
ghost use Rattle.svid_token.specs.Claims.{audiences_at, one_or_more, subject_at, texts};

use crate::member::{as_time, optional_text, optional_time, owned};
use crate::refusal::Refusal;
use serde_json::Value;
use std::alloc::{AllocError, Global};
use svid_id::{IdFault, SpiffeId};

/// The claims of a JWT-SVID that a validator looks at (RFC 7519, section 4.1).
#[derive(Debug, Drop, PartialEq, Eq)]
pub struct Claims {
    /// The subject: the SPIFFE ID of the workload that the token speaks for.
    pub sub: SpiffeId,
    /// The audiences, at least one. A single text is a list of one.
    pub aud: Vec<String>,
    /// The moment from which on the token is refused, in seconds since 1970.
    pub exp: u64,
    /// The moment before which the token is refused, in seconds since 1970.
    pub nbf: Option<u64>,
    /// The token's own ID, which may be empty.
    pub jti: Option<String>,
}

impl Claims {
    ghost use Rattle.std.specs.Prelude.{Some};
    ghost use Rattle.serde_json.specs.View.{view};
    ghost use Rattle.svid_token.specs.Claims.{claims_of, claims_view};
    ghost use Rattle.svid_token.specs.Rows.{Answers};

    // The claims of a payload's object.
    pub(crate) fn from_object(alloc: Global, object: &Value) -> Result<Claims, Refusal>
        ensures { Answers claims_view result (claims_of (Some (view object.now))) }
    {
        let Some(sub) = read_subject(alloc, object)? else {
            return Err(Refusal::Sub);
        };
        let Some(aud) = read_audiences(alloc, object)? else {
            return Err(Refusal::Aud);
        };
        let Some(exp) = object.get("exp").and_then(as_time) else {
            return Err(Refusal::Exp);
        };
        let Some(nbf) = optional_time(object, "nbf") else {
            return Err(Refusal::Nbf);
        };
        let Some(jti) = optional_text(object, "jti") else {
            return Err(Refusal::Jti);
        };
        let jti = owned(alloc, jti)?;
        Ok(Claims {
            sub,
            aud,
            exp,
            nbf,
            jti,
        })
    }
}

// The SPIFFE ID that `sub` is, if it is one.
#[tactic(auto, unfolding(crate::specs::Claims::subject_at))]
fn read_subject(alloc: Global, object: &Value) -> Result<Option<SpiffeId>, AllocError>
    ensures { IfOk result (λ o. o ≡ subject_at (view object.now)) }
{
    match object.get("sub").and_then(Value::as_str) {
        Some(sub) => read_id(alloc, sub.as_bytes()),
        None => Ok(None),
    }
}

// The SPIFFE ID that a text is, if it is one.
#[tactic(auto, using(svid_id::proofs::IdLemmas::refused_parts))]
fn read_id(alloc: Global, text: &[u8]) -> Result<Option<SpiffeId>, AllocError>
    ensures { IfOk result (λ o. o ≡ id_parts text.now) }
{
    match SpiffeId::parse(alloc, text) {
        Ok(id) => Ok(Some(id)),
        Err(IdFault::OutOfMemory) => Err(AllocError),
        Err(_) => Ok(None),
    }
}

// The audiences that `aud` is, if it is a text or a list of one or more texts.
#[tactic(auto, unfolding(crate::specs::Claims::audiences_at))]
fn read_audiences(alloc: Global, object: &Value) -> Result<Option<Vec<String>>, AllocError>
    ensures { IfOk result
        (λ o. option_map (λ v. map string_bytes v.items) o ≡ audiences_at (view object.now)) }
{
    match object.get("aud") {
        Some(Value::String(text)) => Ok(Some(one_text(alloc, text.as_str())?)),
        Some(Value::Array(items)) => some_texts(alloc, items),
        _ => Ok(None),
    }
}

fn one_text(alloc: Global, text: &str) -> Result<Vec<String>, AllocError>
    ensures { IfOk result (λ v. map string_bytes v.items ≡ text.now ∷ []) }
{
    let mut texts = Vec::with_capacity(alloc, 1)?;
    texts.push(String::from_str(alloc, text)?)?;
    Ok(texts)
}

// The texts that a list holds, if there are any and it holds nothing else.
#[tactic(auto, using(crate::proofs::ClaimsLemmas::one_or_more_texts))]
fn some_texts(alloc: Global, items: &[Value]) -> Result<Option<Vec<String>>, AllocError>
    ensures { IfOk result (λ o. option_map (λ v. map string_bytes v.items) o
        ≡ option_and_then one_or_more (texts (items_view items.now))) }
{
    if items.is_empty() {
        return Ok(None);
    }
    copy_texts(alloc, items)
}

// The texts that a list holds, if it holds nothing else.
fn copy_texts(alloc: Global, items: &[Value]) -> Result<Option<Vec<String>>, AllocError>
    ensures { IfOk result
        (λ o. option_map (λ v. map string_bytes v.items) o ≡ texts (items_view items.now)) }
{
    let mut texts = Vec::with_capacity(alloc, items.len())?;
    for item in items {
        let Some(text) = item.as_str() else {
            return Ok(None);
        };
        texts.push(String::from_str(alloc, text)?)?;
    }
    Ok(Some(texts))
}
