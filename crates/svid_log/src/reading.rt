ghost use Rattle.std.specs.Prelude.{◌≡◌};
ghost use Rattle.svid_log.specs.Members.{rest_of};

use crate::Order;

/// What is left of a value after a call that read it.
#[derive(Clone, Copy, Debug, PartialEq, Eq)]
pub enum Rest {
    /// Nothing: the next call reads the next value.
    Nothing,
    /// Uses for which there was no room. Read the same value again: it goes on with them.
    NoRoom,
    /// Uses, where memory was refused for the first of them. Read the same value again: it goes on with them.
    NoMemory,
}

/// What a call that read a value of the log did.
#[derive(Clone, Copy, Debug, PartialEq, Eq)]
pub struct Reading {
    /// How the value follows those that were read.
    pub order: Order,
    /// The number of the first of its uses that the call read, counted from 0.
    pub from: usize,
    /// How many of its uses the call read. It wrote as many fates.
    pub count: usize,
    /// What is left of the value.
    pub rest: Rest,
}

// What is left after so many of the uses that were left were read, with room for so many fates.
pub(crate) fn rest_of(count: usize, left: usize, room: usize) -> Rest
    ensures { result ≡ rest_of count left room }
{
    if count >= left {
        return Rest::Nothing;
    }
    if count >= room {
        return Rest::NoRoom;
    }
    Rest::NoMemory
}
