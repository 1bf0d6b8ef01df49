/// What an acceptance needs before it is answered.
#[derive(Clone, Copy, Debug, PartialEq, Eq)]
pub enum Needs {
    /// Nothing: a token may come again and again.
    Nothing,
    /// Its use is on the disk.
    Write,
    /// The claim of its token stands in the store of the group.
    Claim,
}
