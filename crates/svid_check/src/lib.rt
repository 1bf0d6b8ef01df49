//! The validator of JWT-SVIDs: it accepts a token, or names the first refusal that holds.
//!
//! A [`Validator`] is given its own audiences, its validator ID, trust bundles, a verifier of signatures and
//! the record of the tokens that were used or withdrawn. [`Validator::check`] answers for a token at a moment that
//! is handed in: no clock is looked at. An accepted token is added to the record: until it expires it is
//! then refused as `Replayed`, or as `Withdrawn` while the record has a withdrawal of it, and afterwards
//! as `Expired`. The record can be told to other validators: they take its parts by [`Validator::take`],
//! as far as these lie at most so many seconds ahead of the moment of the call, or send the summary of
//! their own record, which [`Validator::answer`] answers with the uses of all buckets whose digests differ
//! from the summary's: whole buckets, so also uses that both records have.
//! [`Validator::withdraw`] withdraws a token before it expires, so that it is refused as `Withdrawn`.
//! [`Validator::run`] makes the calls of a list: checks, withdrawals, ticks and takes.
//!
//! ```rust
//! use svid_check::Validator;
//! use svid_keys::{Bundles, TableVerifier};
//! use svid_replay::{IndexedUses, Record};
//!
//! let bundles = Bundles::read(alloc, bundles_json)?;
//! let verifier = TableVerifier::read(alloc, table_text)?;
//! let record = Record::new(IndexedUses::new(alloc));
//! let mut validator = Validator::new(alloc, audiences, validator ID, 10, bundles, verifier, record, None);
//! match validator.check(now, token) {
//!     Ok(accepted) => println!(rt; "{}", accepted.id.as_str())?,
//!     Err(refusal) => println!(rt; "{refusal}")?,
//! }
//! for batch in &other.replay().parts(alloc)? {
//!     validator.take(now, batch)?;
//! }
//! ```
#![tactic(auto)]

mod accepted;
mod answer;
mod answering;
mod checking_read;
mod claiming;
mod event;
mod given;
mod judging;
mod judging_again;
pub mod laws;
mod reading;
mod renewing;
mod run;
mod saving;
mod take_fault;
mod taking;
mod taking_record;
mod validator;
mod withdraw_fault;
mod withdrawing;

pub use accepted::Accepted;
pub use answer::Answer;
pub use event::Event;
pub use reading::Reading;
pub use take_fault::TakeFault;
pub use validator::Validator;
pub use withdraw_fault::WithdrawFault;
