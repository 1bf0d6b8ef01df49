/// The outcome of a claim that its store answered. If several hold, the first in this order is the answer.
#[derive(Clone, Copy, Debug, PartialEq, Eq)]
pub enum Outcome {
    /// The token was withdrawn.
    Withdrawn,
    /// The entry is another's: the token was used, or another token with its key.
    Taken,
    /// The token expires too long after the store's time.
    Far,
    /// The token may have been claimed before the store lost entries: nobody can say whether it was used.
    Deaf,
    /// The token has expired.
    Expired,
    /// The entry is this claim's, and nothing stands against the token.
    Mine,
}
