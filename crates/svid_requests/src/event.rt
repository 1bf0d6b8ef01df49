use crate::judgment::Judgment;

/// What happens to a request. One that is not open, or not so far, hears of nothing.
#[derive(Clone, Copy, Debug, PartialEq, Eq)]
pub enum Event {
    /// A validator has judged the token of the request of this number.
    Judged(u64, Judgment),
    /// The use of the request of this number is on the disk, or it could not be brought there.
    Wrote(u64, bool),
    /// The claim of the request of this number is about to go out.
    Send(u64),
    /// The store has answered the claim of the request of this number, and a validator has judged that.
    Found(u64, Judgment),
    /// Nobody waits any more for the answer to the request of this number.
    Leave(u64),
    /// The request that came first is answered if its time is over.
    Overdue,
}
