use thiserror::Error;

/// Why a batch was not taken whole, or a summary not answered.
#[derive(Clone, Copy, Debug, PartialEq, Eq, Error)]
pub enum TakeFault {
    /// Its moment lies further ahead than the validator allows. Nothing of it was joined.
    #[error("the moment lies too far ahead")]
    TooFarAhead,
    /// An allocation was refused. The moment was joined, and the uses of a batch in front of one that is
    /// new.
    #[error("memory was refused")]
    OutOfMemory,
}
