use std::alloc::{AllocError, AllocFailed};
use thiserror::Error;

/// Why a token is refused. The variants are in the order of their tests: if two hold, the earlier one is
/// answered. `OutOfMemory` may come instead of any that follows `NotThreeParts`.
#[derive(Clone, Copy, Debug, Drop, PartialEq, Eq, Error)]
pub enum Refusal {
    /// The token has more than 65,536 bytes.
    #[error("the token is longer than 65536 bytes")]
    TooLong,
    /// The token has not exactly two periods (RFC 7515, section 7.1).
    #[error("the token has not exactly three parts")]
    NotThreeParts,
    /// The first part is not base64url.
    #[error("the header is not base64url")]
    HeaderSpelling,
    /// The header is not JSON, or no object.
    #[error("the header is not a JSON object")]
    HeaderNotObject,
    /// The header has a member `crit`, and no extension is understood.
    #[error("the header has critical extensions")]
    Crit,
    /// `alg` is not one of the nine signature algorithms of a JWT-SVID.
    #[error("the header names no algorithm of a JWT-SVID")]
    Alg,
    /// `typ` is there and is neither `JWT` nor `JOSE`.
    #[error("the header's type is neither JWT nor JOSE")]
    Typ,
    /// `kid` is there and is no text.
    #[error("the header's key ID is no text")]
    Kid,
    /// The second part is not base64url.
    #[error("the payload is not base64url")]
    PayloadSpelling,
    /// The payload is not JSON, or no object.
    #[error("the payload is not a JSON object")]
    PayloadNotObject,
    /// The third part is empty or not base64url.
    #[error("the signature is empty or not base64url")]
    SignatureSpelling,
    /// `sub` is not a SPIFFE ID.
    #[error("the subject is not a SPIFFE ID")]
    Sub,
    /// `aud` is neither a text nor a list of one or more texts.
    #[error("the audience is neither a text nor a list of texts")]
    Aud,
    /// `exp` is not a whole number of seconds below 2^64, written with digits alone.
    #[error("the expiry is not a time in whole seconds")]
    Exp,
    /// `nbf` is there and is not such a number.
    #[error("the first moment of validity is not a time in whole seconds")]
    Nbf,
    /// `jti` is there and is no text.
    #[error("the token's ID is no text")]
    Jti,
    /// No audience of the token is one of the validator's own.
    #[error("the token is for another audience")]
    NotAudience,
    /// The token has expired.
    #[error("the token has expired")]
    Expired,
    /// The token is not valid yet.
    #[error("the token is not valid yet")]
    NotYet,
    /// The token expires later than the validator lets any token last.
    #[error("the token lasts too long")]
    TooLongLived,
    /// There is no bundle of the subject's trust domain.
    #[error("the subject's trust domain is unknown")]
    UnknownDomain,
    /// The bundle has no key that the token could be signed with.
    #[error("the trust domain has no key that fits the header")]
    NoKey,
    /// The signature is good for none of the candidate keys.
    #[error("the signature is bad")]
    BadSignature,
    /// The token was withdrawn.
    #[error("the token was withdrawn")]
    Withdrawn,
    /// The token was used before.
    #[error("the token was used before")]
    Replayed,
    /// An allocation was refused. Nothing is said of the token.
    #[error("out of memory")]
    OutOfMemory,
}

impl From<AllocError> for Refusal {
    ghost use Rattle.std.specs.Prelude.{◌≡◌};
    ghost use Rattle.svid_token.specs.declared.refusal.Refusal.TheVariants.{OutOfMemory};

    ghost from_gives = { λ _ e. e ≡ OutOfMemory };

    fn from(_refused: AllocError) -> Refusal {
        Refusal::OutOfMemory
    }
}

impl<T: Drop> From<AllocFailed<T>> for Refusal {
    ghost use Rattle.std.specs.Prelude.{◌≡◌};
    ghost use Rattle.svid_token.specs.declared.refusal.Refusal.TheVariants.{OutOfMemory};

    ghost from_gives = { λ _ e. e ≡ OutOfMemory };

    fn from(_refused: AllocFailed<T>) -> Refusal {
        Refusal::OutOfMemory
    }
}
