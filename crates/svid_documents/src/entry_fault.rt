ghost use Rattle.std.specs.Prelude.{◌≡◌};
ghost use Rattle.svid_documents.specs.declared.entry_fault.EntryFault.TheVariants.{OutOfMemory};

use std::alloc::AllocError;
use thiserror::Error;

/// Why an entry of a bundle is no key for JWT-SVIDs.
///
/// The variants stand in the order in which they are looked for, and the first that holds is answered.
#[derive(Clone, Copy, Debug, PartialEq, Eq, Error)]
pub enum EntryFault {
    /// The entry is no JSON object.
    #[error("no JSON object")]
    NotObject,
    /// It has no `use`, so it doesn't say what it is for.
    #[error("no use")]
    NoUse,
    /// `use` is the text `x509-svid`: the entry is for X.509-SVIDs.
    #[error("use is x509-svid")]
    X509,
    /// `use` is anything else than the text `jwt-svid`.
    #[error("use is not jwt-svid")]
    Use,
    /// `kid` is not there, or no text.
    #[error("kid is no text")]
    Kid,
    /// `kty` is not there, or none of the texts `RSA` and `EC`.
    #[error("kty is neither RSA nor EC")]
    Kty,
    /// A number inside is not a whole number from -2^63 to 2^64-1, written with digits alone.
    #[error("a number is no whole number of 64 bits")]
    Number,
    /// As compact JSON the entry has more than 65,536 bytes.
    #[error("more than 65,536 bytes")]
    TooLong,
    /// An allocation was refused.
    #[error("out of memory")]
    OutOfMemory,
}

impl From<AllocError> for EntryFault {
    ghost from_gives = { λ _ fault. fault ≡ OutOfMemory };

    fn from(_error: AllocError) -> EntryFault {
        EntryFault::OutOfMemory
    }
}
