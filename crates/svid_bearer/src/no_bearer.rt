use thiserror::Error;

/// Why a request has not exactly one bearer token. The variants stand in the order in which they are
/// looked for: of two that hold, the earlier one is answered.
#[derive(Clone, Copy, Debug, Drop, PartialEq, Eq, Error)]
pub enum NoBearer {
    /// The request has no field `Authorization`.
    #[error("the request has no field Authorization")]
    Absent,
    /// It has more than one.
    #[error("the request has more than one field Authorization")]
    Several,
    /// The scheme is not `Bearer`, in letters of either case.
    #[error("the scheme of the field Authorization is not Bearer")]
    Scheme,
    /// What follows the scheme is not one token as RFC 6750, section 2.1, spells it.
    #[error("the scheme Bearer is not followed by one token")]
    Spelling,
    /// The token has more than 65,536 bytes.
    #[error("the bearer token is longer than 65536 bytes")]
    TooLong,
}
