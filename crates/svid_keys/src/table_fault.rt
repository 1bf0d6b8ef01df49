ghost use Rattle.std.specs.Prelude.{◌≡◌};
ghost use Rattle.svid_keys.specs.declared.table_fault.TableFault.TheVariants.{OutOfMemory};

use std::alloc::AllocError;
use thiserror::Error;

/// Why bytes are no table of questions.
#[derive(Clone, Copy, Debug, PartialEq, Eq, Error)]
pub enum TableFault {
    /// The line of this number, counted from 1, is neither empty nor 64 hexadecimal digits.
    #[error("line {0} is no question")]
    Line(usize),
    /// There was no memory for the questions.
    #[error("out of memory")]
    OutOfMemory,
}

impl From<AllocError> for TableFault {
    ghost from_gives = { λ _ fault. fault ≡ OutOfMemory };

    fn from(_error: AllocError) -> TableFault {
        TableFault::OutOfMemory
    }
}
