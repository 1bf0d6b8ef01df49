//! The files of a state folder, the order of the calls that write them, and what a crash leaves of them.
#![tactic(auto)]

mod call;
mod fault;
mod folder;
mod frame;
pub mod laws;
mod log_position;
mod reader;
mod step;
mod title;
mod words;

pub use call::Call;
pub use fault::Fault;
pub use folder::Folder;
pub use frame::{FORMAT, MOST_PAYLOAD, frame_len};
pub use log_position::{LOG_POSITION_LEN, LogPosition};
pub use reader::{Next, Reader};
pub use step::Step;
pub use title::{File, Title};
pub use words::Words;
