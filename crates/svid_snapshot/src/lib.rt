//! A snapshot of a state folder that is written piece by piece meets the premises of the folder's laws.
#![tactic(auto)]

pub mod laws;
