ghost use Rattle.std.specs.Prelude.{◌≡◌, ◌<◌, ◌+◌, ◌↔◌, [], ◌∷◌, ◌++◌, IfErr, IfOk, IsTrue, OnOk, length, map};
ghost use Rattle.std.specs.List.{sum_by};
ghost use Rattle.svid_documents.specs.Document.{data_of};
ghost use Rattle.svid_documents.specs.Join.{IsJoined};
ghost use Rattle.svid_c.specs.Documents.{IsNotJoined, JoinsBundles, document_index, document_number, document_of, documents_in, length_of, no_name, told_join};
ghost use Rattle.svid_documents.specs.declared.document_fault.DocumentFault.TheVariants.{OutOfMemory};

use crate::told::SvidTold;
use crate::validator::only;
use crate::writing::put;
use std::alloc::{AllocError, Global};
use std::str;
use svid_documents::{Document, DocumentFault, JoinFault, join};

/// A document of trust bundles: the lengths of its name and its text, and what the text is.
#[repr(C)]
#[derive(Drop)]
pub struct SvidDocument {
    /// The length in bytes of the name or SPIFFE ID of its trust domain; 0 if the text is an object of trust domains.
    pub name_len: usize,
    /// The length of its text, in bytes.
    pub text_len: usize,
    /// 1 if the text has keys for JWT-SVIDs alone, which need no `use`; 0 if it is the bundle of the trust domain.
    pub keys: u64,
}

// Whether the lengths of documents add up to that of their bytes.
fn add_up(documents: &[SvidDocument], len: usize) -> bool
    ensures { IsTrue result ↔ (sum_by length_of documents.now ≡ len) }
{
    let mut left = len;
    for one in documents {
        if one.name_len > left {
            return false;
        }
        left -= one.name_len;
        if one.text_len > left {
            return false;
        }
        left -= one.text_len;
    }
    left == 0
}

// A document with this name and text.
fn document_of<'a>(one: &SvidDocument, name: &'a str, text: &'a [u8]) -> Document<'a>
    ensures { data_of result ≡ document_of one.now name.now text.now }
{
    if one.name_len == 0 {
        return Document::Bundles(text);
    }
    if one.keys != 0 {
        return Document::Keys { domain: name, text };
    }
    Document::Bundle { domain: name, text }
}

// The fault of the document at this index whose name is not UTF-8.
fn no_name(index: usize) -> JoinFault
    requires { index < 18446744073709551615 }
    ensures { result ≡ no_name (index + 1) }
{
    JoinFault {
        document: index + 1,
        fault: DocumentFault::Domain(0),
    }
}

fn no_memory() -> JoinFault
    ensures { result ≡ record { document = 0; fault = OutOfMemory } }
{
    JoinFault {
        document: 0,
        fault: DocumentFault::OutOfMemory,
    }
}

// Adds a document to the others.
fn push_document<'a>(cut: &mut Vec<Document<'a>>, document: Document<'a>) -> Result<(), AllocError>
    ensures { OnOk result (map data_of cut.new.items ≡ map data_of cut.old.items ++ data_of document.entry ∷ []) }
{
    cut.push(document)?;
    Ok(())
}

// Cuts bytes into documents, whose lengths add up to theirs.
fn cut<'a>(
    alloc: Global,
    bytes: &'a [u8],
    documents: &[SvidDocument],
) -> Result<Vec<Document<'a>>, JoinFault>
    requires { sum_by length_of documents.now ≡ length bytes.now }
    ensures ok { IfOk result (λ cut. map data_of cut.items ≡ documents_in bytes.now documents.now) }
    ensures fault { IfErr result (IsNotJoined bytes.now documents.now) }
{
    let mut cut = Vec::new(alloc);
    let mut rest = bytes;
    for (index, one) in documents.iter().enumerate() {
        let (name, others) = rest.split_at(one.name_len);
        let (text, behind) = others.split_at(one.text_len);
        let Ok(name) = str::from_utf8(name) else {
            return Err(no_name(index));
        };
        if let Err(_) = push_document(&mut cut, document_of(one, name, text)) {
            return Err(no_memory());
        }
        rest = behind;
    }
    Ok(cut)
}

// The text of the bundles of all documents in bytes.
fn joined(alloc: Global, bytes: &[u8], documents: &[SvidDocument]) -> Result<Vec<u8>, JoinFault>
    requires { sum_by length_of documents.now ≡ length bytes.now }
    ensures ok { IfOk result (λ text. IsJoined (documents_in bytes.now documents.now) text.items) }
    ensures fault { IfErr result (IsNotJoined bytes.now documents.now) }
{
    let cut = match cut(alloc, bytes, documents) {
        Ok(cut) => cut,
        Err(fault) => return Err(fault),
    };
    join(alloc, &cut)
}

fn document_number(fault: DocumentFault) -> u32
    ensures { result ≡ document_number fault }
{
    match fault {
        DocumentFault::OutOfMemory => 2,
        DocumentFault::NotObject => 31,
        DocumentFault::Domain(_) => 32,
        DocumentFault::Keys(_) => 33,
        DocumentFault::Unnamed => 37,
        DocumentFault::Twice(_) => 38,
    }
}

fn document_index(fault: DocumentFault) -> usize
    ensures { result ≡ document_index fault }
{
    match fault {
        DocumentFault::Domain(index) | DocumentFault::Keys(index) | DocumentFault::Twice(index) => {
            index
        }
        DocumentFault::NotObject | DocumentFault::Unnamed | DocumentFault::OutOfMemory => 0,
    }
}

fn refuse_documents(given: JoinFault, told: &mut SvidTold) -> u32
    ensures number { result ≡ document_number given.fault }
    ensures told { told.new ≡ told_join given }
{
    *told = SvidTold {
        len: 0,
        input: given.document,
        message: 0,
        offset: document_index(given.fault),
        more: 0,
    };
    document_number(given.fault)
}

/// Joins documents of trust bundles, and writes the result to the start of `out`: a JSON object of trust domain names and their bundles, in rising
/// order, as the other calls take bundles. `bytes` has each document's name and then its text, one document after the other.
///
/// A document without a name is an object of trust domains. One with a name is the bundle of that trust domain: a JWK Set (SPIFFE Trust Domain and
/// Bundle, section 4), or keys for JWT-SVIDs alone. Of the latter, a key without a `use` is for JWT-SVIDs (SPIFFE Workload API, section 6.2.2).
///
/// Returns 0, with the text's length in `told.len`; or 1 if it is longer than `out`.
///
/// - 39: the lengths do not add up to the length of `bytes`.
/// - 31: a document is not a JSON object. 37: it is the bundle of one trust domain, without its name.
/// - 32, 33, 38: a name in a document is not a trust domain name, has no list of keys, or is in an earlier document.
/// - 2: out of memory.
///
/// For a bundle fault, `told.input` is the number of the first faulty document, counted from 1. `told.offset` is the index of the name among
/// all its names in rising order of their bytes, counted from 0. Unless the status is 0, `out` is unchanged.
#[unsafe(no_mangle)]
pub extern "C" fn svid_bundles_join(
    alloc: Global,
    bytes: &[u8],
    documents: &[SvidDocument],
    out: &mut [u8],
    told: &mut SvidTold,
) -> u32
    ensures { JoinsBundles bytes.now documents.now result told.new out.old out.new }
{
    if !add_up(documents, bytes.len()) {
        return only(39, told);
    }
    match joined(alloc, bytes, documents) {
        Ok(text) => put(&text, out, told),
        Err(fault) => refuse_documents(fault, told),
    }
}
