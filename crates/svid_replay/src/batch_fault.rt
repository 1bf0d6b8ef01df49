use thiserror::Error;

/// Why a moment and some uses are no batch.
#[derive(Clone, Copy, Debug, PartialEq, Eq, Error)]
pub enum BatchFault {
    /// There are more than 65,536 uses.
    #[error("more than 65536 uses")]
    TooMany,
    /// The use at this index, the first with a flaw, expires at the moment or before.
    #[error("use {0} is expired")]
    Expired(usize),
    /// The use at this index, the first with a flaw, was made after the moment.
    #[error("use {0} is from the future")]
    Future(usize),
    /// The use at this index, the first with a flaw, is not greater than the one before it.
    #[error("use {0} is not greater than the one before it")]
    Order(usize),
}
