//! One member of a group: a validator, and the requests that wait for its answers.
//!
//! A [`Member`] has no clock, thread or socket. Each call tells what happened, asks the validator where one is to be asked, and says one thing
//! to do at the most. So nobody can tell the requests of a verdict that the validator did not give.
#![tactic(auto)]

mod asked;
mod claimed;
mod claiming;
mod coming;
mod judging;
mod member;
mod mode;
mod owners;
mod pacing;
mod part;
mod place;
mod readiness;
mod reason;
mod unready;
mod withdrawal;
mod withdrawals;

pub use asked::Asked;
pub use claimed::Claimed;
pub use coming::Coming;
pub use member::Member;
pub use mode::Mode;
pub use pacing::Pacing;
pub use part::Part;
pub use place::Place;
pub use readiness::Readiness;
pub use reason::reason_of;
pub use unready::Unready;
pub use withdrawal::Withdrawal;
pub use withdrawals::Withdrawals;
