use svid_replay::Use;

/// What a validator says of a request's token.
#[derive(Clone, Copy, Debug, PartialEq, Eq)]
pub enum Judgment {
    /// It is accepted, with this use.
    Passes(Use),
    /// It is accepted, with this use, and needs nothing more: the token is known to be this caller's.
    Holds(Use),
    /// It is refused, for the reason of this number.
    Fails(u8),
}
