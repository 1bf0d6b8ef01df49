use crate::verdict::Verdict;
use svid_replay::Use;

/// What is to be done.
#[derive(Clone, Copy, Debug, PartialEq, Eq)]
pub enum Deed {
    /// Nothing.
    Nothing,
    /// Let a validator judge the token of the request of this number.
    Judge(u64),
    /// Bring the use of the request of this number to the disk.
    Append(u64, Use),
    /// Put the claim of the request of this number into the store.
    Claim(u64, Use),
    /// Answer the request of this number. If a number follows, the token of that request is to be judged again: it waited for this answer.
    Answer(u64, Verdict, Option<u64>),
}
