use crate::stage::Stage;

/// A request that has no answer yet.
#[derive(Clone, Copy, Debug, PartialEq, Eq)]
pub struct Request {
    /// The moment by which it is answered, by a clock that only goes ahead.
    pub deadline: u64,
    /// How far it is.
    pub stage: Stage,
}
