//! Uses as messages: a batch for each time at which uses were made.
//!
//! A batch has one moment, and a record that takes the batch advances to that moment. So uses that were made at several times,
//! like the claims from a log or the content of a save, need several batches. [`batches_of`] makes them, with rising times; a use
//! that is given twice is in them once. [`write_batches`] writes them as messages. [`Value::read`](svid_log::Value::read) gives
//! the uses of messages back, in the order of the messages; [`laws`] says that it finds just what was written.
//!
//! ```rust
//! use svid_replay::Use;
//! use svid_uses::batches_of;
//!
//! let first = Use { exp: 101, key: [0x11; 32], validator_id: [0x22; 16], at: 99, withdrawn: false };
//! let second = Use { at: 98, ..first };
//! let batches = batches_of(alloc, &[first, second, first])?;
//! assert_eq!(rt; batches.len(), 2);
//! assert_eq!(rt; batches[0].moment(), 98);
//! ```
#![tactic(auto)]

mod batching;
mod by_time;
mod cutting;
pub mod laws;
mod uses_fault;
mod writing;

pub use batching::batches_of;
pub use uses_fault::UsesFault;
pub use writing::write_batches;
