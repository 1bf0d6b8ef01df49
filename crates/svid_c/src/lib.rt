//! The functions that C calls: the crates of this repository as functions from bytes to bytes. `svid.h`
//! declares them.
//!
//! Each call returns a status: 0 if it succeeded, and else a number that says why not. Further answers go into
//! structures that the caller lends, and text into room that the caller lends. If that room is too short, the
//! call says how much it needs, and leaves it unchanged. Memory outlives a call only in handles that C keeps
//! (a validator, trust bundles, a token), and closing a handle frees it.
//!
//! Statuses of one kind are a class: a refusal of a token, a message fault, an ID fault, a pattern fault, a bundle
//! fault, an entry fault, a key fault, and a reason of a member. `svid.h` has their names and numbers.
#![tactic(auto)]

mod answer;
mod answered;
mod bearer_token;
mod bundles;
mod bundles_ask;
mod bundles_join;
mod bundles_judge;
mod bundles_open;
mod bundles_question;
mod callers;
mod check;
mod claim_outcome;
mod deed;
mod entries;
mod entries_read;
mod entries_write;
mod handle;
mod id_allows;
mod id_parse;
mod inputs;
mod join;
mod journal;
mod journal_answer;
mod journal_bears;
mod journal_begin;
mod journal_due;
mod journal_failed;
mod journal_open;
mod journal_piece;
mod journal_position;
mod journal_put;
mod journal_read;
mod journal_synced;
mod journal_unwritten;
mod key_spki;
mod key_text;
mod lent;
mod live;
mod member_ask;
mod member_due;
mod member_found;
mod member_judge;
mod member_know;
mod member_open;
mod member_rules;
mod member_wrote;
mod names;
mod own_fault;
mod pacing_sent;
mod peer;
mod refusal;
mod refuse_bundles;
mod report;
mod rows;
mod status_sentence;
mod statuses;
mod summary;
mod summary_of;
mod summary_read;
mod token;
mod token_handle;
mod token_open;
mod token_payload;
mod token_read;
mod token_says;
mod token_signature;
mod told;
mod trust;
mod trust_handle;
mod validator;
mod validator_answer;
mod validator_ask_token;
mod validator_bucket;
mod validator_bundles;
mod validator_check_token;
mod validator_differs;
mod validator_digest;
mod validator_log;
mod validator_mark;
mod validator_open;
mod validator_parts;
mod validator_read;
mod validator_renew_by;
mod validator_size;
mod validator_take;
mod validator_tell;
mod validator_withdraw;
mod version;
mod withdrawal_come;
mod words;
mod writing;
