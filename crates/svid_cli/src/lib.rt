//! The command line of the program `svid`: it reads the words, opens the files that they name, and hands both to an engine of
//! `svid_lines` or `svid_share`.
#![tactic(auto)]

mod argument;
mod cli;
mod commands;
mod failure;
mod form;
mod input;
mod kept;
mod mistake;
mod refusals;
mod sentence;
mod subcommand;
mod trust_domain;
mod words;

pub use cli::run;
