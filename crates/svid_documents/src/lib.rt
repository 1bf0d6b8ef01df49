//! Trust bundles in the forms in which others hand them in, joined to the one text that
//! `svid_keys` reads.
//!
//! SPIRE writes the bundle of one trust domain (`spire-server bundle show -format spiffe`), a SPIFFE
//! Workload API gives the keys of each, without `use`, and a file may have the bundles of many. Each of
//! these is a [`Document`], and [`join`] makes one object of trust domains of any number of them. It
//! answers the first document that it can't take, and why: a [`JoinFault`]. Of one entry of a bundle,
//! [`key_text`] gives the key that `svid_keys` reads, or the first [`EntryFault`] that holds.
//!
//! ```rust
//! use svid_documents::{Document, DocumentFault, join};
//!
//! let spire = Document::Bundle { domain: "example.org", text: br#"{"keys": []}"# };
//! let text = join(alloc, &[spire, Document::Bundles(br#"{"other.org": {"keys": null}}"#)])?;
//! assert_eq!(rt; text.as_slice(), br#"{"example.org":{"keys":[]},"other.org":{"keys":null}}"#);
//!
//! let nameless = join(alloc, &[Document::Bundles(br#"{"keys": []}"#)]);
//! assert_eq!(rt; nameless.err().map(|fault| fault.fault), Some(DocumentFault::Unnamed));
//! ```
#![tactic(auto)]

mod depth;
mod document;
mod document_fault;
mod entry;
mod entry_fault;
mod join_fault;
mod joined;
pub mod laws;
mod object;
mod unnamed;
mod uses;

pub use crate::document::Document;
pub use crate::document_fault::DocumentFault;
pub use crate::entry::key_text;
pub use crate::entry_fault::EntryFault;
pub use crate::join_fault::JoinFault;
pub use crate::joined::join;
pub use crate::unnamed::is_unnamed;
