use crate::document_fault::DocumentFault;
use thiserror::Error;

/// The number of the first document that can't be joined, counted from 1, and why. (Where memory runs
/// out for their text the number is 0.)
#[derive(Clone, Copy, Debug, PartialEq, Eq, Error)]
#[error("document {document}: {fault}")]
pub struct JoinFault {
    pub document: usize,
    pub fault: DocumentFault,
}
