ghost use Rattle.std.specs.Prelude.{◌≡◌};
ghost use Rattle.svid_wire.specs.WireFault.{no_memory};

use crate::Reason;
use std::alloc::{AllocError, AllocFailed};
use thiserror::Error;

/// Why bytes do not begin with a message.
#[derive(Clone, Copy, Debug, PartialEq, Eq, Error)]
#[error("{reason:?} at offset {offset}")]
pub struct WireFault {
    /// Where the bad field begins, or where the bytes end too early, counted from the first byte of the message; 0 for
    /// `OutOfMemory` and `Failed`.
    pub offset: usize,
    /// What is wrong there.
    pub reason: Reason,
}

impl From<AllocError> for WireFault {
    ghost from_gives = { λ _ e. e ≡ no_memory };

    fn from(_error: AllocError) -> WireFault {
        WireFault {
            offset: 0,
            reason: Reason::OutOfMemory,
        }
    }
}

impl<T: Drop> From<AllocFailed<T>> for WireFault {
    ghost from_gives = { λ _ e. e ≡ no_memory };

    fn from(_error: AllocFailed<T>) -> WireFault {
        AllocError.into()
    }
}
