//! Trust bundles, the keys of a trust domain that may have signed a token, and what knows whether a
//! signature is good.
//!
//! [`Bundles::read`] reads one JSON object of trust domain names and their JWK Sets (RFC 7517,
//! section 5; SPIFFE Trust Domain and Bundle, section 4). [`Bundles::candidates`] lends the keys that
//! may have signed a token, and a [`Verifier`] answers for each of them whether the signature is good.
//! No signature is verified here: a [`TableVerifier`] says yes to the [`question`]s of a table that an
//! outside program wrote.
//!
//! ```rust
//! use svid_keys::{Bundles, TableVerifier, Verifier};
//!
//! let bundles = Bundles::read(alloc, bundles_json)?;
//! let table = TableVerifier::read(alloc, table_text)?;
//! let mut is_good = false;
//! for key in bundles.candidates(claims.sub.domain(), header.alg, kid) {
//!     is_good |= table.verify(key, header.alg, token.input, &signature);
//! }
//! ```
#![tactic(auto)]

mod bundle_fault;
mod bundles;
mod candidates;
mod digits;
mod float;
mod hasher;
mod jwt_key;
pub mod laws;
mod lines;
mod questions;
mod table_fault;
mod table_verifier;
mod verifier;

pub use crate::bundle_fault::BundleFault;
pub use crate::bundles::Bundles;
pub use crate::candidates::Candidates;
pub use crate::float::has_float;
pub use crate::jwt_key::JwtKey;
pub use crate::lines::Lines;
pub use crate::questions::question;
pub use crate::table_fault::TableFault;
pub use crate::table_verifier::TableVerifier;
pub use crate::verifier::Verifier;
