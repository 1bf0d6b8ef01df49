ghost use Rattle.std.specs.Prelude.{◌≡◌, Bool};
ghost use Rattle.svid_log.specs.Steps.{decided};

/// The fate of a use that is read from a group's log.
#[derive(Clone, Copy, Debug, PartialEq, Eq)]
pub enum Fate {
    /// It is the first claim of its token, and this member's own: the member accepts the token. Only
    /// [`Member::read`](crate::Member::read) returns this.
    Accepted,
    /// It is the first claim of its token: no live use before it in the log has its key. The record has it.
    First,
    /// The token has expired, or the use says that it expires before it was made.
    Expired,
    /// Its time lies too far ahead. It still counts as a claim.
    TooFarAhead,
    /// It is a withdrawal. The record has it.
    Withdrawal,
    /// The token was withdrawn.
    Withdrawn,
    /// The record has a use of the token, or a live use before it in the log has its key.
    Replayed,
}

impl Fate {
    /// The fate of a use: a first claim is accepted where `accepts` is true.
    pub fn decided(self, accepts: bool) -> Fate
        ensures { result ≡ decided self accepts }
    {
        match self {
            Fate::First if accepts => Fate::Accepted,
            fate => fate,
        }
    }
}
