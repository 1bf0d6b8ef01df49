//! What validators share: the engines that read messages, join their batches to a record, and write that record or an answer from
//! it.
//!
//! An engine is generic over the sources it reads and the sinks it writes to. Its contract says which output belongs to its
//! inputs, which fault it returns, and what it leaves as it was. [`run_report`] writes a record for people to read, and
//! [`run_merge`] for validators, as the texts of its parts. [`run_summary`] writes the summary of a record, and [`run_answer`]
//! answers one with the uses of all buckets whose digests differ from the summary's: whole buckets, so also uses that both
//! records have. [`join_inputs`] joins the inputs of an engine. The crates above call [`join_input`], [`read_summary`],
//! [`read_input`], [`put_text`], [`put_record`], [`put_answer`] and [`put_report`].
//!
//! ```rust
//! use svid_share::run_report;
//! use svid_wire::{MemSink, MemSource};
//!
//! let mut inputs = [MemSource::new(bytes, 4096, None)];
//! let mut out = MemSink::new(alloc, 4096, None);
//! run_report(alloc, &mut inputs, None, &mut out)?;
//! assert_eq!(rt; out.bytes(), b"moment 0\nuses 0\ntwice 0\n");
//! ```
#![tactic(auto)]

mod answer;
mod inputs;
pub mod laws;
mod line;
mod merge;
mod one_summary;
mod output;
mod page;
mod parts;
mod reader;
mod report;
mod summary;
mod tool_fault;
mod walked;

pub use answer::{put_answer, run_answer};
pub use inputs::{MOST_BYTES, join_input, join_inputs, read_input};
pub use merge::run_merge;
pub use one_summary::read_summary;
pub use output::put_text;
pub use parts::put_record;
pub use report::{put_report, run_report};
pub use summary::run_summary;
pub use tool_fault::ToolFault;
