/// How far a pattern reaches from the ID in it.
#[derive(Clone, Copy, Debug, Drop, PartialEq, Eq)]
pub enum Reach {
    /// The pattern is an ID with a path, and allows that ID alone.
    Alone,
    /// The pattern is an ID and `/*`, and allows the IDs below that ID's path.
    Below,
    /// The pattern is an ID without a path, and allows all IDs of its trust domain.
    Domain,
}
