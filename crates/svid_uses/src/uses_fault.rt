ghost use Rattle.std.specs.Prelude.{◌≡◌};
ghost use Rattle.svid_uses.specs.declared.uses_fault.UsesFault.TheVariants.{OutOfMemory};

use std::alloc::AllocError;
use thiserror::Error;

/// Why uses make no batches.
#[derive(Clone, Copy, Debug, PartialEq, Eq, Error)]
pub enum UsesFault {
    /// The use at this index, counted from 0, expires when it was made, or before: no batch can have it. It is the first such use.
    #[error("use {0} expires when it was made, or before")]
    Expired(usize),
    /// An allocation was refused.
    #[error("out of memory")]
    OutOfMemory,
}

impl From<AllocError> for UsesFault {
    ghost from_gives = { λ _ fault. fault ≡ OutOfMemory };

    fn from(_error: AllocError) -> UsesFault {
        UsesFault::OutOfMemory
    }
}
