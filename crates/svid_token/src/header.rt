ghost use Rattle.std.specs.Prelude.{◌≡◌, codes};
ghost use Rattle.serde_json.specs.Find.{get};
ghost use Rattle.serde_json.specs.View.{view};
ghost use Rattle.svid_token.specs.Header.{as_type};
ghost use Rattle.svid_token.specs.Rows.{fails};

use crate::alg::Alg;
use crate::member::{optional_text, owned};
use crate::object::read_object;
use crate::refusal::Refusal;
use serde_json::Value;
use std::alloc::Global;

/// The header of a token (RFC 7515, section 4), as far as a JWT-SVID is checked by it.
#[derive(Debug, Drop, PartialEq, Eq)]
pub struct Header {
    /// The algorithm of the signature.
    pub alg: Alg,
    /// The name of the signing key, where the header has one.
    pub kid: Option<String>,
}

impl Header {
    ghost use Rattle.std.specs.Prelude.{Some};
    ghost use Rattle.serde_json.specs.View.{view};
    ghost use Rattle.svid_token.specs.Header.{header_from, header_of, header_view};
    ghost use Rattle.svid_token.specs.Rows.{Answers};

    /// The header that the first part of a token spells.
    ///
    /// Of the refusals `HeaderSpelling`, `HeaderNotObject`, `Crit`, `Alg`, `Typ` and `Kid` it
    /// answers the first that holds, or `OutOfMemory` where an allocation was refused. Of a member
    /// that is written twice the last stands, and members of other names are passed over.
    pub fn read(alloc: Global, part: &[u8]) -> Result<Header, Refusal>
        ensures { Answers header_view result (header_of part.now) }
    {
        let object = read_object(
            alloc,
            part,
            Refusal::HeaderSpelling,
            Refusal::HeaderNotObject,
        )?;
        Header::from_object(alloc, &object)
    }

    // The header that a JSON object is.
    fn from_object(alloc: Global, object: &Value) -> Result<Header, Refusal>
        ensures { Answers header_view result (header_from (Some (view object.now))) }
    {
        if object.get("crit").is_some() {
            return Err(Refusal::Crit);
        }
        let Some(alg) = object.get("alg").and_then(Value::as_str).and_then(Alg::of) else {
            return Err(Refusal::Alg);
        };
        if has_other_type(object) {
            return Err(Refusal::Typ);
        }
        let Some(kid) = optional_text(object, "kid") else {
            return Err(Refusal::Kid);
        };
        let kid = owned(alloc, kid)?;
        Ok(Header { alg, kid })
    }
}

// Whether `typ` is there and is neither `JWT` nor `JOSE`.
fn has_other_type(object: &Value) -> bool
    ensures { result ≡ fails as_type (get (codes "typ") (view object.now)) }
{
    match object.get("typ") {
        Some(typ) => !matches!(typ.as_str(), Some("JWT" | "JOSE")),
        None => false,
    }
}
