ghost use Rattle.std.specs.Prelude.{◌≡◌};
ghost use Rattle.svid_wire.specs.declared.read_fault.ReadFault.TheVariants.{OutOfMemory};

use std::alloc::AllocError;
use thiserror::Error;

/// Why the bytes of a source were not all read.
#[derive(Clone, Copy, Debug, PartialEq, Eq, Error)]
pub enum ReadFault {
    /// A call of `get` returned `Stopped`.
    #[error("the source stopped")]
    Stopped,
    /// More bytes came than the limit allows.
    #[error("too many bytes")]
    TooMuch,
    /// Memory for the bytes was refused.
    #[error("out of memory")]
    OutOfMemory,
}

impl From<AllocError> for ReadFault {
    ghost from_gives = { λ _ e. e ≡ OutOfMemory };

    fn from(_error: AllocError) -> ReadFault {
        ReadFault::OutOfMemory
    }
}
