//! Laws of a group of validators that send each other their records, withdraw tokens, restart from saves, and read one log.
#![tactic(auto)]

pub mod laws;
