ghost use Rattle.std.specs.Prelude.{◌≡◌, ◌+◌, IfOk, IfErr, OnOk, map, string_bytes};
ghost use Rattle.serde_json.specs.Data.{Members, member, put};
ghost use Rattle.serde_json.specs.View.{members_view, view};
ghost use Rattle.svid_documents.specs.Document.{bundles_of, data_of};
ghost use Rattle.svid_documents.specs.Join.{IsFault, IsJoined, IsRefusal, added, joined, with_bundles};

use crate::document::Document;
use crate::document_fault::DocumentFault;
use crate::join_fault::JoinFault;
use crate::object::bundles_of;
use crate::uses::is_set;
use serde_json::{Map, Value};
use std::alloc::{AllocError, Global};
use svid_id::is_domain_name;

// Whether a bundle may be put to others, as the one at this index.
fn check(
    joined: &Map<String, Value>,
    index: usize,
    name: &str,
    set: &Value,
) -> Result<(), DocumentFault>
    ensures next { OnOk result ((ms : Members) → added index (members_view joined.now.entries) (member name.now (view set.now) ms)
        ≡ added (index + 1) (put name.now (view set.now) (members_view joined.now.entries)) ms) }
    ensures fault { IfErr result (λ fault. (ms : Members) → IsFault (added index (members_view joined.now.entries) (member name.now (view set.now) ms)) fault) }
{
    if !is_domain_name(name.as_bytes()) {
        return Err(DocumentFault::Domain(index));
    }
    if !is_set(set) {
        return Err(DocumentFault::Keys(index));
    }
    if joined.contains_key(name) {
        return Err(DocumentFault::Twice(index));
    }
    Ok(())
}

// Puts a bundle to others.
fn insert(joined: &mut Map<String, Value>, name: String, set: Value) -> Result<(), AllocError>
    ensures { OnOk result (members_view joined.new.entries ≡ put (string_bytes name) (view set) (members_view joined.old.entries)) }
{
    joined.insert(name, set)?;
    Ok(())
}

// Puts the bundles of a document to those of others.
fn add(joined: &mut Map<String, Value>, members: Map<String, Value>) -> Result<(), DocumentFault>
    ensures ok { OnOk result (added 0 (members_view joined.old.entries) (members_view members.entries) ≡ Ok (members_view joined.new.entries)) }
    ensures fault { IfErr result (IsFault (added 0 (members_view joined.old.entries) (members_view members.entries))) }
{
    let mut index = 0;
    for (name, set) in members {
        check(joined, index, name.as_str(), &set)?;
        insert(joined, name, set)?;
        index += 1;
    }
    Ok(())
}

// Puts the bundles that a document has to those of others.
fn add_document(
    alloc: Global,
    joined: &mut Map<String, Value>,
    document: &Document<'_>,
) -> Result<(), DocumentFault>
    ensures ok { OnOk result (with_bundles (members_view joined.old.entries) (bundles_of (data_of document.now)) ≡ Ok (members_view joined.new.entries)) }
    ensures fault { IfErr result (IsFault (with_bundles (members_view joined.old.entries) (bundles_of (data_of document.now)))) }
{
    let members = bundles_of(alloc, document)?;
    add(joined, members)
}

/// Joins the trust bundles of documents to one JSON text: an object of the names of their trust domains
/// and their bundles, in rising order, without blanks. `Bundles::read` of `svid_keys` reads it.
///
/// A [`Document::Bundles`] is an object of trust domains, unless its member `keys` is a list, or null:
/// then it is the bundle of one, and is answered as [`DocumentFault::Unnamed`]. Where an object has a
/// name twice, the last value stands, as anywhere in bundles. Of [`Document::Keys`] the list `keys`
/// alone is kept.
pub fn join(alloc: Global, documents: &[Document<'_>]) -> Result<Vec<u8>, JoinFault>
    ensures ok { IfOk result (λ text. IsJoined (map data_of documents.now) text.items) }
    ensures fault { IfErr result (IsRefusal (joined (map data_of documents.now))) }
{
    let mut joined = Map::new(alloc);
    for (index, document) in documents.iter().enumerate() {
        if let Err(fault) = add_document(alloc, &mut joined, document) {
            return Err(JoinFault {
                document: index + 1,
                fault,
            });
        }
    }
    match Value::Object(joined).to_vec(alloc) {
        Ok(text) => Ok(text),
        Err(_) => Err(JoinFault {
            document: 0,
            fault: DocumentFault::OutOfMemory,
        }),
    }
}
