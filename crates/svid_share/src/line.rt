ghost use Rattle.std.specs.Prelude.{◌≡◌, ◌++◌, ◌+◌, ◌*◌, ◌<◌, ◌≤◌, [], length, slice_index};
ghost use Rattle.std.specs.Fmt.{decimal};
ghost use Rattle.hex.specs.Hex.{encode_lower, lower_digits};
ghost use Rattle.svid_share.specs.Report.{mark, number_line, twice_line, use_line};

use arrayvec::ArrayVec;
use std::marker::Model;
use svid_replay::{Twice, Use};

// The longest line of a report is that of a withdrawal, with two numbers of 20 digits.
const LINE_LEN: usize = 150;

/// A line of a report. Takes no memory.
#[derive(Drop)]
pub(crate) struct Line {
    room: ArrayVec<u8, LINE_LEN>,
}

impl Model for Line {
    ghost use Rattle.std.specs.Prelude.{List, ℕ};

    ghost Value = { List ℕ };

    ghost view = { λ l. l.room.items };
}

// The digit of a number below 16: by arithmetic, which the compiler does for many numbers at once.
fn digit(value: u8) -> u8
    requires { value < 16 }
    ensures { result ≡ slice_index lower_digits value }
{
    if value < 10 {
        b'0' + value
    } else {
        b'a' - 10 + value
    }
}

// Writes bytes in hexadecimal.
fn write_digits(bytes: &[u8], digits: &mut [u8])
    requires { length digits.old ≡ 2 * length bytes.now }
    ensures { digits.new ≡ encode_lower bytes.now }
{
    for i in 0..bytes.len() {
        let byte = bytes[i];
        digits[2 * i] = digit(byte >> 4);
        digits[2 * i + 1] = digit(byte & 0x0f);
    }
}

impl Line {
    fn new() -> Line
        ensures { result ≡ [] }
    {
        Line {
            room: ArrayVec::new(),
        }
    }

    fn push(&mut self, piece: &[u8])
        requires { length self.old + length piece.now ≤ 150 }
        ensures { self.new ≡ self.old ++ piece.now }
    {
        let _ = self.room.try_extend_from_slice(piece);
    }

    fn push_number(&mut self, number: u64)
        requires { length self.old + 20 ≤ 150 }
        ensures value { self.new ≡ self.old ++ decimal number }
        ensures short { length self.new ≤ length self.old + 20 }
    {
        self.push(itoa::Buffer::new().format(number).as_bytes());
    }

    // The bytes in hexadecimal, at most 32 of them.
    fn push_hex(&mut self, bytes: &[u8])
        requires few { length bytes.now ≤ 32 }
        requires room { length self.old + 2 * length bytes.now ≤ 150 }
        ensures value { self.new ≡ self.old ++ encode_lower bytes.now }
        ensures len { length self.new ≡ length self.old + 2 * length bytes.now }
    {
        let mut room = [0; 64];
        let digits = &mut room[..2 * bytes.len()];
        write_digits(bytes, digits);
        self.push(digits);
    }

    pub(crate) fn bytes(&self) -> &[u8]
        ensures { result.now ≡ self.now }
    {
        self.room.as_slice()
    }
}

// The end of the line of a withdrawal.
fn mark(withdrawn: bool) -> &'static str
    ensures value { result.now ≡ mark withdrawn }
    ensures short { length result.now ≤ 10 }
{
    if withdrawn { " withdrawn" } else { "" }
}

/// The line of a use.
pub(crate) fn use_line(used: &Use) -> Line
    ensures { result ≡ use_line used.now }
{
    let mut line = Line::new();
    line.push_number(used.exp);
    line.push(b" ");
    line.push_hex(&used.key);
    line.push(b" ");
    line.push_hex(&used.validator_id);
    line.push(b" ");
    line.push_number(used.at);
    line.push(mark(used.withdrawn).as_bytes());
    line.push(b"\n");
    line
}

/// The line with a number and its name.
pub(crate) fn number_line(name: &str, number: u64) -> Line
    requires { length name.now ≤ 100 }
    ensures { result ≡ number_line name.now number }
{
    let mut line = Line::new();
    line.push(name.as_bytes());
    line.push(b" ");
    line.push_number(number);
    line.push(b"\n");
    line
}

/// The line of a key that is used more than once.
pub(crate) fn twice_line(twice: &Twice) -> Line
    ensures { result ≡ twice_line twice.now }
{
    let mut line = Line::new();
    line.push_hex(&twice.key);
    line.push(b" ");
    line.push_number(twice.uses.len() as u64);
    line.push(b"\n");
    line
}
