//! A log that a group of validators reads in one order, and what each of them accepts: of the live claims of a token, only the
//! first in the log counts.
#![tactic(auto)]

mod claims;
mod fate;
pub mod laws;
mod mark;
mod member;
mod order;
mod reading;
mod rows;
mod value;

pub use claims::Claims;
pub use fate::Fate;
pub use mark::Mark;
pub use member::Member;
pub use order::Order;
pub use reading::{Reading, Rest};
pub use value::Value;
