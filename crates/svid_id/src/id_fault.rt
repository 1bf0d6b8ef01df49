ghost use Rattle.std.specs.Prelude.{◌≡◌};
ghost use Rattle.svid_id.specs.declared.id_fault.IdFault.TheVariants.{OutOfMemory};

use std::alloc::AllocError;
use thiserror::Error;

/// Why a text was refused as a SPIFFE ID or as a trust domain name.
///
/// The variants stand in the order in which they are looked for, and the first that applies is
/// answered. A offset is a byte offset from 0 in the whole text.
#[derive(Clone, Copy, Debug, PartialEq, Eq, Error)]
pub enum IdFault {
    /// The text has more than 2,048 bytes.
    #[error("longer than 2048 bytes")]
    TooLong,
    /// The text does not begin with `spiffe://`, in small letters.
    #[error("does not begin with spiffe://")]
    Scheme,
    /// The trust domain name is empty.
    #[error("empty trust domain name")]
    DomainEmpty,
    /// The first byte of the trust domain name that none may have, and its offset.
    #[error("byte {0} may not stand in a trust domain name")]
    DomainByte(usize),
    /// The trust domain name has more than 255 bytes.
    #[error("trust domain name longer than 255 bytes")]
    DomainLong,
    /// The segment at this offset, right after its `/`, is empty.
    #[error("empty path segment at byte {0}")]
    SegmentEmpty(usize),
    /// The segment that begins at this offset is `.` or `..`.
    #[error("path segment at byte {0} is . or ..")]
    SegmentDots(usize),
    /// The first byte of a segment that none may have, and its offset.
    #[error("byte {0} may not stand in a path segment")]
    PathByte(usize),
    /// No memory was left for a copy of the text, which has no other fault.
    #[error("out of memory")]
    OutOfMemory,
}

impl From<AllocError> for IdFault {
    ghost from_gives = { λ _ fault. fault ≡ OutOfMemory };

    fn from(_error: AllocError) -> IdFault {
        IdFault::OutOfMemory
    }
}
