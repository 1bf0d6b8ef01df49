use thiserror::Error;

/// Why a withdrawal was not made.
#[derive(Clone, Copy, Debug, PartialEq, Eq, Error)]
pub enum WithdrawFault {
    /// The tokens have expired, so that there is nothing to withdraw.
    #[error("the token has expired")]
    Expired,
    /// An allocation was refused. Only the moment was joined.
    #[error("memory was refused")]
    OutOfMemory,
}
