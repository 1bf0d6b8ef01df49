//! Keys of trust bundles, as libraries of cryptography read them.
//!
//! [`key_spki`] reads a key as JSON (RFC 7517; RFC 7518, section 6), and answers it as
//! SubjectPublicKeyInfo in DER (RFC 5280, section 4.1.2.7), or the first [`KeyFault`] that holds: why
//! it can't be used with an algorithm. Whether a point is on its curve stays with the library that
//! verifies signatures.
//!
//! ```rust
//! use svid_spki::{KeyFault, key_spki};
//!
//! match key_spki(alloc, key.text().as_bytes(), header.alg, 4096) {
//!     Ok(der) => load(&der),
//!     Err(KeyFault::OutOfMemory) => later(),
//!     Err(fault) => refused(fault),
//! }
//! ```
#![tactic(auto)]

mod curve;
mod der;
mod ec;
mod key_fault;
pub mod laws;
mod member;
mod number;
mod rsa;
mod spki;

pub use crate::key_fault::KeyFault;
pub use crate::spki::key_spki;
