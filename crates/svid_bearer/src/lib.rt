//! The bearer token of a request: what its header fields `Authorization` hold (RFC 9110, RFC 6750).
//!
//! [`Bearer::read`] accepts exactly one field whose value is the scheme `Bearer` and one token. For any other
//! request it returns the reason, a [`NoBearer`]. A value that two fields were joined into, as
//! `Bearer a,Bearer b`, has no token.
//!
//! ```rust
//! use svid_bearer::{Bearer, NoBearer};
//!
//! let bearer = Bearer::read(1, b"bearer  eyJh.eyJz.c2ln")?;
//! assert_eq!(rt; bearer.token, b"eyJh.eyJz.c2ln");
//! assert_eq!(rt; bearer.at, 8);
//!
//! assert_eq!(rt; Bearer::read(2, b"Bearer a").err(), Some(NoBearer::Several));
//! assert_eq!(rt; Bearer::read(1, b"Bearer a,Bearer b").err(), Some(NoBearer::Spelling));
//! ```
#![tactic(auto)]

mod bearer;
pub mod laws;
mod no_bearer;
mod scan;

pub use crate::bearer::Bearer;
pub use crate::no_bearer::NoBearer;
