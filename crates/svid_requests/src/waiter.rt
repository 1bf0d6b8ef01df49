/// A request in a line: the key of its token, and its number. Those of one key stand side by side, in the order of their coming.
#[derive(Clone, Copy, Debug, PartialEq, Eq, PartialOrd, Ord)]
pub struct Waiter {
    /// The key of its token.
    pub key: [u8; 32],
    /// Its number.
    pub number: u64,
}
