//! The record of used and withdrawn tokens that validators share: uses, the batches that carry them,
//! stores, and the record itself.
//!
//! A [`Use`] says that a token, identified by its key, was accepted or withdrawn at a validator ID and a time, and when it
//! expires. A [`Record`] is a moment and the set of the uses that were made by then and expire later, kept in a [`UseStore`].
//! Every change of a record is a join: the greater moment, and of the uses of both sides those that expire after it. So records
//! may be merged in any order, any number of times, with the same result ([`laws`]). Where memory is refused on the way, the
//! record is the join with a part that the contract names. There are four stores. [`SortedUses`] is for few uses, or for uses
//! that come in order and are only walked, since a look-up by key reads all. [`IndexedUses`] is for many uses where no insert may
//! take long. [`RunUses`] is for many that are to be taken in fast: a few of its inserts move most of them.
//! [`RunUses::without_keys`] is for many that are rarely looked up by key. A [`Walk`] goes over the uses of a record in their
//! order, a [`Room`] of them at a time, and takes no memory.
//!
//! Two records that mostly agree need not exchange everything. A [`Summary`] has a digest for each of 256 buckets, one for each
//! first byte of a key, and a record answers it with all uses of the buckets whose digest differs: also those that the other has,
//! but none of a bucket that agrees. So what a record loses after it made its summary need not come back.
//!
//! ```rust
//! use svid_replay::{Batch, Record, SortedUses, Use};
//!
//! let first = Use { exp: 101, key: [0x11; 32], validator_id: [0x22; 16], at: 99, withdrawn: false };
//! let second = Use { validator_id: [0x33; 16], at: 100, ..first };
//! let mut uses = Vec::new(alloc);
//! uses.push(first)?;
//! uses.push(second)?;
//! let batch = Batch::make(100, uses)?;
//!
//! let mut record = Record::new(SortedUses::new(alloc));
//! record.absorb(&batch)?;
//! record.absorb(&batch)?;
//! assert_eq!(rt; record.len(), 2);
//! assert_eq!(rt; record.report(alloc)?.len(), 1);
//!
//! let mut walk = record.walk();
//! assert_eq!(rt; walk.next(), Some(first));
//! assert_eq!(rt; walk.next(), Some(second));
//! assert_eq!(rt; walk.next(), None);
//!
//! let mut other = Record::new(SortedUses::new(alloc));
//! for part in &record.answer(alloc, &other.summary())? {
//!     other.absorb(part)?;
//! }
//! assert_eq!(rt; other.len(), 2);
//! assert_eq!(rt; record.raise(101).dropped, 2);
//! ```
#![tactic(auto)]

mod ahead;
mod batch;
mod batch_fault;
mod buckets;
mod expiry;
mod filter;
mod flaw;
mod indexed_uses;
mod key_first;
mod keys;
pub mod laws;
mod layout;
mod merge;
mod near;
mod parts;
mod prefixes;
mod record;
mod room;
mod run;
mod run_uses;
mod runs;
mod sorted;
mod stale;
mod store;
mod summary;
mod token_use;
mod twice;
mod use_list;
mod walk;

pub use ahead::Ahead;
pub use batch::Batch;
pub use batch_fault::BatchFault;
pub use flaw::{Flaw, flaw_of};
pub use indexed_uses::IndexedUses;
pub use layout::{MOST_USES, ROOM_USES, USE_LEN};
pub use near::Near;
pub use record::Record;
pub use room::Room;
pub use run_uses::RunUses;
pub use sorted::SortedUses;
pub use stale::Stale;
pub use store::{Raised, UseStore};
pub use summary::Summary;
pub use token_use::Use;
pub use twice::Twice;
pub use use_list::UseList;
pub use walk::Walk;
