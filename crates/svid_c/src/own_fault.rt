ghost use Rattle.std.specs.Prelude.{◌≡◌};
ghost use Rattle.svid_c.specs.Own.{own_number};
ghost use Rattle.svid_c.specs.declared.own_fault.OwnFault.TheVariants.{OutOfMemory};

use std::alloc::AllocError;

/// Why the audiences of a validator are refused.
#[derive(Clone, Copy)]
pub enum OwnFault {
    /// One of them is not UTF-8.
    NotUtf8,
    /// Their lengths do not add up to that of their bytes.
    Lengths,
    /// There was no memory for them.
    OutOfMemory,
}

impl OwnFault {
    pub(crate) fn number(self) -> u32
        ensures { result ≡ own_number self }
    {
        match self {
            OwnFault::NotUtf8 => 35,
            OwnFault::Lengths => 36,
            OwnFault::OutOfMemory => 2,
        }
    }
}

impl From<AllocError> for OwnFault {
    ghost from_gives = { λ _ fault. fault ≡ OutOfMemory };

    fn from(_error: AllocError) -> OwnFault {
        OwnFault::OutOfMemory
    }
}
