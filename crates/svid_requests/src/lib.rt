//! The requests of one member, from their coming to their answers: which there are, how far each is, and what is to be done next.
//!
//! This crate has no clock, thread, token or validator. Each call reports one event, and answers at most one thing to do. Of the requests
//! with one token, one at a time puts a claim. The others stand in a line behind it.
#![tactic(auto)]

mod deed;
mod event;
mod judgment;
pub mod laws;
mod lines;
mod needs;
mod plan;
mod plans;
mod request;
mod requests;
mod stage;
mod table;
mod verdict;
mod waiter;

pub use deed::Deed;
pub use event::Event;
pub use judgment::Judgment;
pub use needs::Needs;
pub use plan::Plan;
pub use request::Request;
pub use requests::Requests;
pub use stage::Stage;
pub use verdict::Verdict;
pub use waiter::Waiter;

#[cfg(test)]
mod tests;
