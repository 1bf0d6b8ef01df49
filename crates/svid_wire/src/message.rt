use svid_replay::{Batch, Summary};

/// A message from one validator to another.
#[derive(Debug, Drop)]
pub enum Message {
    /// A moment, and uses of tokens that are live at it.
    Batch(Batch),
    /// A moment, and a digest of each bucket of a record.
    Summary(Summary),
}
