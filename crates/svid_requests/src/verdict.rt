use svid_replay::Use;

/// The answer to a request.
#[derive(Clone, Copy, Debug, PartialEq, Eq)]
pub enum Verdict {
    /// The token is accepted, with this use.
    Accept(Use),
    /// It is refused, for the reason of this number.
    Refuse(u8),
    /// Its time was over before there was an answer.
    Late,
    /// The disk did not take its use.
    NotKept,
    /// Memory was refused.
    NoMemory,
    /// Nobody waits for the answer any more.
    Left,
}
