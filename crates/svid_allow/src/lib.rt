//! Which SPIFFE IDs may call: patterns of IDs, and the IDs that each allows.
//!
//! A pattern is an ID with a path, which allows that ID alone; an ID and `/*`, which allows all IDs
//! below its path; or an ID without a path, which allows all IDs of its trust domain. `*` is no byte
//! of an ID, so no text is a pattern in two ways.
//!
//! ```rust
//! use svid_allow::Pattern;
//! use svid_id::{IdFault, SpiffeId};
//!
//! let pattern = Pattern::parse(alloc, b"spiffe://example.org/billing/*")?;
//! let api = SpiffeId::parse(alloc, b"spiffe://example.org/billing/api")?;
//! let other = SpiffeId::parse(alloc, b"spiffe://example.org/billingx/api")?;
//! assert_eq!(rt; pattern.allows(&api), true);
//! assert_eq!(rt; pattern.allows(&other), false);
//!
//! let refused = Pattern::parse(alloc, b"spiffe://example.org/*/api");
//! assert_eq!(rt; refused.err(), Some(IdFault::PathByte(21)));
//! ```
#![tactic(auto)]

pub mod laws;
mod pattern;
mod reach;
mod text;

pub use crate::pattern::Pattern;
pub use crate::reach::Reach;
