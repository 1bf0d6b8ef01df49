//! [`ShardedUses`], a store for very many uses in which no call takes long.
//!
//! Each of its stores is a bucket of a summary, so a summary can be made, and answered, one bucket a call: each call looks into
//! only one store ([`laws`]).
//!
//! ```rust
//! use svid_replay::{Record, Use};
//! use svid_shards::ShardedUses;
//!
//! let mut record = Record::new(ShardedUses::new(alloc)?);
//! ```
#![tactic(auto)]

mod bucket_digest;
mod bucket_uses;
pub mod laws;
mod sharded_uses;
mod shards;
mod store_walk;

pub use bucket_digest::BucketDigest;
pub use sharded_uses::ShardedUses;
