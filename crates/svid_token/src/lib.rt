//! A JWT-SVID taken apart: the compact form, base64url, the header, the claims and the token's key
//! (RFC 7515, RFC 7519 and the SPIFFE JWT-SVID standard).
//!
//! Each reader gives what its part says, or the first [`Refusal`] that holds of it, in the order of
//! that type. Nothing here looks at a clock, a key or a signature's worth. Some choices are
//! stricter than the standards: bits left over in base64url are refused where they are not zero,
//! every header with a member `crit` is refused, and a time is a whole number written with digits
//! alone.
//!
//! ```rust
//! use svid_token::{Compact, Header, Payload, read_signature, token_key};
//!
//! let token = Compact::split(bytes)?;
//! let header = Header::read(alloc, token.header)?;
//! let claims = Payload::read(alloc, token.payload)?.claims(alloc)?;
//! let signature = read_signature(alloc, token.signature)?;
//! let key = token_key(&claims.sub, claims.jti.as_deref(), token.input);
//! ```
#![tactic(auto)]

mod alg;
mod claims;
mod compact;
mod header;
mod json;
mod key;
mod kty;
pub mod laws;
mod member;
mod object;
mod part;
mod payload;
mod refusal;
mod signature;

pub use alg::Alg;
pub use claims::Claims;
pub use compact::{Compact, MAX_TOKEN_LEN};
pub use header::Header;
pub use json::read_json;
pub use key::token_key;
pub use kty::Kty;
pub use part::{PartFault, decode_part};
pub use payload::Payload;
pub use refusal::Refusal;
pub use signature::read_signature;
