ghost use Rattle.std.specs.Prelude.{◌≡◌};
ghost use Rattle.svid_keys.specs.declared.bundle_fault.BundleFault.TheVariants.{OutOfMemory};

use std::alloc::AllocError;
use thiserror::Error;

/// Why bytes are no trust bundles.
///
/// A index is the position of the first faulty name, counted from 0, among the names in rising byte order.
#[derive(Clone, Copy, Debug, PartialEq, Eq, Error)]
pub enum BundleFault {
    /// The bytes are not JSON, or not an object.
    #[error("no JSON object")]
    NotObject,
    /// The name at this index is no trust domain name.
    #[error("name {0} is no trust domain name")]
    Domain(usize),
    /// The value of the name at this index is no object with a list, or null, as its `keys`.
    #[error("name {0} has no list of keys")]
    Keys(usize),
    /// There was no memory for what the bytes say.
    #[error("out of memory")]
    OutOfMemory,
}

impl From<AllocError> for BundleFault {
    ghost from_gives = { λ _ fault. fault ≡ OutOfMemory };

    fn from(_error: AllocError) -> BundleFault {
        BundleFault::OutOfMemory
    }
}
