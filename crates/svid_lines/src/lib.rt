//! The engines that answer for lines: the parts of a SPIFFE ID, the keys that may have signed a token, and whether a validator
//! accepts the tokens of a text.
//!
//! An engine is generic over the sources it reads and the sinks it writes to. Its contract says which output belongs to its
//! inputs, which fault it returns, and what it leaves as it was. [`run_id`] writes the parts of an ID, [`run_candidates`] the
//! questions for the first token of its lines, and [`run_check`] the verdicts on all tokens of its lines, as a [`CheckSetting`]
//! says. [`token_lines`] has the questions for one token, without sources and sinks.
//!
//! ```rust
//! use svid_lines::run_id;
//! use svid_wire::MemSink;
//!
//! let mut out = MemSink::new(alloc, 4096, None);
//! assert!(rt; run_id(alloc, b"spiffe://example.org/billing", &mut out)?);
//! assert_eq!(rt; out.bytes(), b"domain example.org\npath /billing\n");
//! ```
#![tactic(auto)]

mod bundles;
mod candidates;
mod check;
mod checks;
mod id;
mod keep;
mod refused;
mod shown;

pub use candidates::{run_candidates, token_lines};
pub use check::{CheckSetting, run_check};
pub use id::run_id;
pub use keep::Keep;
