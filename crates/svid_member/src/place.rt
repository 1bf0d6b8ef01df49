/// A place that is to have a withdrawal, beside the record.
#[derive(Clone, Copy, Debug, PartialEq, Eq)]
pub enum Place {
    /// The state folder.
    Disk,
    /// The store of the group.
    Store,
    /// The log of the group.
    Log,
}
