use svid_replay::Use;

/// How far a request is.
#[derive(Clone, Copy, Debug, PartialEq, Eq)]
pub enum Stage {
    /// A validator is to judge its token.
    Judging,
    /// Its use is on its way to the disk.
    Writing(Use),
    /// Its claim is on its way to the store.
    Claiming(Use),
    /// It waits in the line behind a claim of its token.
    Behind(Use),
    /// It is the next of such a line: a validator is to judge its token again.
    Again(Use),
}
