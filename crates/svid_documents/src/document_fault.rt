ghost use Rattle.std.specs.Prelude.{◌≡◌};
ghost use Rattle.svid_documents.specs.declared.document_fault.DocumentFault.TheVariants.{OutOfMemory};

use std::alloc::AllocError;
use thiserror::Error;

/// Why a document has no trust bundles that can be joined.
///
/// An index is the position of the first faulty name, counted from 0, among the document's names of
/// trust domains in rising byte order. Of one trust domain it is 0.
#[derive(Clone, Copy, Debug, PartialEq, Eq, Error)]
pub enum DocumentFault {
    /// The text is not JSON, or no object; or it is the bundle of one trust domain, and nests deeper
    /// than 126, so that an object which holds it is not read.
    #[error("no JSON object")]
    NotObject,
    /// The text is the bundle of one trust domain, and the document has no name for it.
    #[error("the bundle of one trust domain, whose name is missing")]
    Unnamed,
    /// The name at this index is no trust domain name.
    #[error("name {0} is no trust domain name")]
    Domain(usize),
    /// The bundle at this index is no object with a list, or null, as its `keys`.
    #[error("name {0} has no list of keys")]
    Keys(usize),
    /// An earlier document has a bundle of the trust domain at this index.
    #[error("name {0} is in an earlier document")]
    Twice(usize),
    /// There was no memory for what the documents say.
    #[error("out of memory")]
    OutOfMemory,
}

impl From<AllocError> for DocumentFault {
    ghost from_gives = { λ _ fault. fault ≡ OutOfMemory };

    fn from(_error: AllocError) -> DocumentFault {
        DocumentFault::OutOfMemory
    }
}
