ghost use Rattle.std.specs.Prelude.{◌≡◌};
ghost use Rattle.svid_log.specs.Members.{order_of};

/// Whether a value of the log follows what a member has read.
#[derive(Clone, Copy, Debug, PartialEq, Eq)]
pub enum Order {
    /// The value was read before.
    Again,
    /// It is the next one.
    Next,
    /// Values before it are missing.
    Gap,
}

// The order of a value, by the number of the last one that was read whole.
pub(crate) fn order_of(passed: u64, position: u64) -> Order
    ensures { result ≡ order_of passed position }
{
    if position <= passed {
        return Order::Again;
    }
    if position - 1 > passed {
        return Order::Gap;
    }
    Order::Next
}
