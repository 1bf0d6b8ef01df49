//! SPIFFE IDs and trust domain names, after sections 2 and 2.1 to 2.3 of the SPIFFE-ID standard.
//!
//! [`SpiffeId::parse`] and [`TrustDomain::parse`] accept exactly the texts of the standard's rules.
//! A text that is none is refused with its first fault, an [`IdFault`] with the offset in the text.
//! Two choices of this crate are stricter than the standard: the scheme is read in small letters
//! only, and an ID has at most 2,048 bytes.
//!
//! ```rust
//! use svid_id::{IdFault, SpiffeId};
//!
//! let id = SpiffeId::parse(alloc, b"spiffe://example.org/billing/api")?;
//! assert_eq!(rt; id.domain(), "example.org");
//! assert_eq!(rt; id.path(), "/billing/api");
//!
//! let refused = SpiffeId::parse(alloc, b"spiffe://example.org/billing/");
//! assert_eq!(rt; refused.err(), Some(IdFault::SegmentEmpty(29)));
//! ```
#![tactic(auto)]

mod domain;
mod id_fault;
pub mod laws;
mod path;
mod spiffe_id;
mod text;
mod trust_domain;

pub use crate::domain::is_domain_name;
pub use crate::id_fault::IdFault;
pub use crate::spiffe_id::SpiffeId;
pub use crate::trust_domain::TrustDomain;
