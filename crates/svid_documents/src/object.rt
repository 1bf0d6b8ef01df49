// The bundles that documents have.

ghost use Rattle.std.specs.Prelude.{◌≡◌, IfOk, IfErr, Result, Some, option_map};
ghost use Rattle.serde_json.specs.Data.{Data, Members};
ghost use Rattle.serde_json.specs.Find.{as_object};
ghost use Rattle.serde_json.specs.View.{members_view, view};
ghost use Rattle.svid_token.specs.Json.{json_of};
ghost use Rattle.svid_documents.specs.Document.{bundles_of, data_of, name_in, of_many, of_one, read_as};
ghost use Rattle.svid_documents.specs.Join.{IsFault};

use crate::depth::fits;
use crate::document::Document;
use crate::document_fault::DocumentFault;
use crate::uses::{is_set, mended};
use serde_json::{Map, Value, put};
use std::alloc::Global;
use svid_token::read_json;

// How deep the bundle of one trust domain may nest, since an object holds it.
const MOST_NESTED: usize = 126;

// The name of a trust domain, which its SPIFFE ID has behind the scheme.
fn name_in(domain: &str) -> &str
    ensures { result.now ≡ name_in domain.now }
{
    domain.strip_prefix("spiffe://").unwrap_or(domain)
}

// The members of an object.
fn members_of(value: Value) -> Option<Map<String, Value>>
    ensures { option_map (λ members. members_view members.entries) result ≡ as_object (view value) }
{
    match value {
        Value::Object(members) => Some(members),
        _other => None,
    }
}

// The bundles of an object of trust domains.
fn of_many(object: Value) -> Result<Map<String, Value>, DocumentFault>
    ensures ok { IfOk result (λ members. of_many (view object) ≡ Ok (members_view members.entries)) }
    ensures fault { IfErr result (IsFault (of_many (view object))) }
{
    if is_set(&object) {
        return Err(DocumentFault::Unnamed);
    }
    match members_of(object) {
        Some(members) => Ok(members),
        None => Err(DocumentFault::NotObject),
    }
}

// The bundle of one trust domain, under its name.
fn of_one(alloc: Global, domain: &str, set: Value) -> Result<Map<String, Value>, DocumentFault>
    ensures ok { IfOk result (λ members. of_one domain.now (view set) ≡ Ok (members_view members.entries)) }
    ensures fault { IfErr result (IsFault (of_one domain.now (view set))) }
{
    if !set.is_object() || !fits(&set, MOST_NESTED) {
        return Err(DocumentFault::NotObject);
    }
    let mut members = Map::new(alloc);
    put(&mut members, alloc, name_in(domain), set)?;
    Ok(members)
}

// The JSON value that a text is.
fn value_in(alloc: Global, text: &[u8]) -> Result<Value, DocumentFault>
    ensures ok { IfOk result (λ value. json_of text.now ≡ Some (view value)) }
    ensures fault { IfErr result (λ fault. (reads : Data → Result Members DocumentFault) → IsFault (read_as reads (json_of text.now)) fault) }
{
    match read_json(alloc, text)? {
        Some(value) => Ok(value),
        None => Err(DocumentFault::NotObject),
    }
}

// The bundles of a document, by the names of their trust domains.
pub(crate) fn bundles_of(
    alloc: Global,
    document: &Document<'_>,
) -> Result<Map<String, Value>, DocumentFault>
    ensures ok { IfOk result (λ members. bundles_of (data_of document.now) ≡ Ok (members_view members.entries)) }
    ensures fault { IfErr result (IsFault (bundles_of (data_of document.now))) }
{
    match *document {
        Document::Bundles(text) => of_many(value_in(alloc, text)?),
        Document::Bundle { domain, text } => of_one(alloc, domain, value_in(alloc, text)?),
        Document::Keys { domain, text } => {
            let set = value_in(alloc, text)?;
            of_one(alloc, domain, mended(alloc, set)?)
        }
    }
}
