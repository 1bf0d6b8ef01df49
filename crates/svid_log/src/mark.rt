/// Where a member is in the log: what a save has beside the member's record and the uses beside it.
#[derive(Clone, Copy, Debug, PartialEq, Eq)]
pub struct Mark {
    /// The number of the last value that the member has read whole.
    pub passed: u64,
    /// How many uses of the next value it has read.
    pub begun: usize,
    /// The moment before which it accepts nothing, in seconds, because it missed uses that may live until then.
    pub deaf: u64,
}
