//! Messages between validators: what their bytes mean, and how they are read and written.
//!
//! A [`Source`] gives bytes and a [`Sink`] takes them, piece by piece, and each counts its faults. [`Counted`] makes them from
//! the readers and writers of `std`, [`MemSource`] and [`MemSink`] keep their bytes in memory. [`read_up_to`] reads a source to
//! its end, [`put_all`] puts a whole piece.
//!
//! A [`Message`] is a batch or a summary. [`write_batch`] and [`write_summary`] put the text of one. A [`Feed`] reads messages
//! whose texts come in pieces, one after the other, or finds the first that is bad, with its fault and its offset; [`read_all`]
//! does so where all bytes are there. The grammar is a definition of its own, in `specs/BatchText.antt`,
//! `specs/SummaryText.antt`, `specs/Messages.antt` and `specs/WireFault.antt`. [`laws`] says that it is unambiguous: all bytes
//! are in exactly one way the texts of some messages and a rest that begins with none, and such a rest, unless it is empty, has
//! one fault. Messages are written in version 2; batches of version 1, which has no withdrawals, are read as well
//! (`specs/Version1.antt`).
//!
//! ```rust
//! let bytes = b"JSR\x02\x01\x00\x00\x00\x00\x00\x00\x00\x64\x00\x00\x00\x00";
//! let mut source = Counted::new(bytes.as_slice());
//! let read = read_up_to(alloc, &mut source, 67108864)?;
//! let mut messages = Vec::new(alloc);
//! read_all(alloc, &read, &mut messages)?;
//! let mut sink = MemSink::new(alloc, 4096, None);
//! for message in &messages {
//!     match message {
//!         Message::Batch(batch) => write_batch(batch, &mut sink)?,
//!         Message::Summary(summary) => write_summary(summary, &mut sink)?,
//!     }
//! }
//! assert_eq!(rt; sink.bytes(), bytes.as_slice());
//! ```
#![tactic(auto)]

mod counted;
mod decoding;
mod feed;
mod field;
mod judging;
pub mod laws;
mod layout;
mod mem_sink;
mod mem_source;
mod message;
mod partial;
mod read_fault;
mod reading;
mod reason;
mod sink;
mod source;
mod stage;
mod stopped;
mod version;
mod version_1;
mod wire_fault;
mod write_fault;
mod writing;
mod writing_summary;

pub use counted::Counted;
pub use decoding::read_all;
pub use feed::Feed;
pub use mem_sink::MemSink;
pub use mem_source::MemSource;
pub use message::Message;
pub use read_fault::ReadFault;
pub use reading::read_up_to;
pub use reason::Reason;
pub use sink::Sink;
pub use source::Source;
pub use stopped::Stopped;
pub use wire_fault::WireFault;
pub use write_fault::WriteFault;
pub use writing::{batch_head, put_all, write_batch};
pub use writing_summary::write_summary;
