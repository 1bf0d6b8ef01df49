ghost use Rattle.std.specs.Prelude.{◌≡◌, ◌++◌, MatchOption};

use crate::frame::{put_at, u64_of};

// The first bytes of a position's text: its kind, and the number of its version.
const MAGIC: [u8; 4] = *b"JSL\x01";

/// How many bytes the text of a position has.
pub const LOG_POSITION_LEN: usize = 28;

/// Where a member of a group is in the group's log. A payload may begin with it, before its messages.
#[derive(Clone, Copy, Debug, PartialEq, Eq)]
pub struct LogPosition {
    /// The number of the last value that the member has read whole.
    pub passed: u64,
    /// How many uses of the next value it has read.
    pub begun: u64,
    /// The moment before which it accepts nothing, in seconds.
    pub deaf: u64,
}

impl LogPosition {
    ghost use Rattle.svid_journal.specs.Payloads.{BeginsWithNoPosition, position_text};

    /// The text of the position, to put before a payload's messages.
    pub fn text(&self) -> [u8; 28]
        ensures { result ≡ position_text self.now }
    {
        let mut text = [0; 28];
        let room: &mut [u8] = &mut text;
        put_at(room, 0, &MAGIC);
        put_at(room, 4, &self.passed.to_be_bytes());
        put_at(room, 12, &self.begun.to_be_bytes());
        put_at(room, 20, &self.deaf.to_be_bytes());
        text
    }

    /// The position at the start of a payload, and the messages after it. None if it begins with no position: then all of it is
    /// messages.
    pub fn split(payload: &[u8]) -> Option<(LogPosition, &[u8])>
        ensures { MatchOption result (BeginsWithNoPosition payload.now) (λ x. payload.now ≡ position_text x.0 ++ x.1.now) }
    {
        if payload.len() < 28 {
            return None;
        }
        let (text, messages) = payload.split_at(28);
        let (magic, numbers) = text.split_at(4);
        let (passed, more) = numbers.split_at(8);
        let (begun, deaf) = more.split_at(8);
        if magic == MAGIC.as_slice() {
            let position = LogPosition {
                passed: u64_of(passed),
                begun: u64_of(begun),
                deaf: u64_of(deaf),
            };
            Some((position, messages))
        } else {
            None
        }
    }
}
