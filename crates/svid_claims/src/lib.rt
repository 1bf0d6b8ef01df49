//! Claims of tokens at a store that keeps the first entry of each key: of all acceptances of a token, one counts, or those of one owner.
//!
//! Nothing here takes memory.
#![tactic(auto)]

mod claim;
pub mod laws;
mod outcome;
mod owner;
mod times;

pub use claim::{Claim, Found};
pub use outcome::Outcome;
pub use owner::Owner;
pub use times::{deaf_after, moment_by, stays_until};
