/// The progress of a withdrawal at the state folder, the store or the log.
#[derive(Clone, Copy, Debug, PartialEq, Eq)]
pub enum Part {
    /// Whether it is there is not known yet.
    Waits,
    /// It is there, or need not be.
    Done,
    /// It may not be there: the same withdrawal may be made again.
    Failed,
}
