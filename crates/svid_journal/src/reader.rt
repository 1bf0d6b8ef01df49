ghost use Rattle.std.specs.Prelude.{◌≡◌, ◌+◌, ◌≤◌, ◌<◌, ◌^◌, ◌↔◌, List, ℕ, IsTrue, MatchOption, false, length, take};
ghost use Rattle.svid_journal.specs.Titles.{bytes_of};
ghost use Rattle.svid_journal.specs.Reading.{BeginsLater, HasLater, HasOther, IsBroken, IsCrowded, IsEnding, IsOther, is_blank, later_cells, states_later};

use crate::frame::{
    FORMAT, MOST, first_frame, frame_len, split_head, stated_format, stated_number, stated_payload,
};
use crate::title::{File, Title};

/// What is at the offset of a reader.
#[derive(Clone, Copy, Debug, PartialEq, Eq)]
pub enum Next<'a> {
    /// A frame with this payload. An empty one is a mark.
    Payload(&'a [u8]),
    /// The end: nothing was written here.
    End,
    /// A write that was cut off: nobody got an acknowledgement that it is on the disk.
    Tear,
    /// Damage: bytes that were synced here, at [`Reader::at`], have changed. A journal is also damaged if heads in its rest
    /// announce overlapping later frames that would take more than eight times its bytes: no write leaves them.
    Damage,
    /// A frame of this number in another format than [`FORMAT`](crate::FORMAT): this format.
    Other(u8),
    /// The numbers of the reader do not fit the bytes.
    Unfit,
}

/// How far a file was read.
#[derive(Clone, Copy, Debug, PartialEq, Eq)]
pub struct Reader {
    /// How many frames were read.
    pub count: u64,
    /// How many bytes they take: the offset of the next one.
    pub at: u64,
    /// Whether the last of them is a mark.
    pub marked: bool,
}

fn states_later(number: u64, cell: u64, head: &[u8], room: usize) -> bool
    requires { length head.now ≡ 32 }
    ensures { result ≡ states_later number cell head.now room }
{
    let stated = stated_number(head);
    let format = stated_format(head);
    number < stated
        && stated - number <= cell / 4
        && format > 0
        && format < 255
        && frame_len(stated_payload(head)) <= room
}

fn begins_later(title: &Title, number: u64, cell: u64, head: &[u8], bytes: &[u8]) -> bool
    requires { (length head.now ≡ 32) × (head.now ≡ take 32 bytes.now) }
    ensures { IsTrue result ↔ BeginsLater (bytes_of title.now) number cell bytes.now }
{
    let stated = stated_number(head);
    if stated <= number || stated - number > cell / 4 {
        return false;
    }
    let format = stated_format(head);
    if format == 0 || format == 255 {
        return false;
    }
    match first_frame(format, title, stated, bytes) {
        Some(_) => true,
        None => false,
    }
}

fn has_later(title: &Title, number: u64, bytes: &[u8]) -> bool
    ensures { IsTrue result ↔ HasLater (bytes_of title.now) number bytes.now }
{
    let mut rest = bytes;
    let mut cell = 0;
    while rest.len() >= 32 {
        let head = rest.split_at(32).0;
        if begins_later(title, number, cell, head, rest) {
            return true;
        }
        rest = rest.split_at(8).1;
        cell += 1;
    }
    false
}

// How many cells of 8 bytes the frame at the start of these bytes takes by its head, where it may be a later one; else 0.
fn later_cells(number: u64, cell: u64, bytes: &[u8]) -> u64
    ensures value { result ≡ later_cells number cell bytes.now }
    ensures small { result < 2 ^ 25 }
{
    match split_head(bytes) {
        Some((head, _)) => {
            if states_later(number, cell, head, bytes.len()) {
                (frame_len(stated_payload(head)) / 8) as u64
            } else {
                0
            }
        }
        None => 0,
    }
}

// Whether heads announce so many overlapping later frames that looking at each would take more than eight times the bytes.
fn is_crowded(number: u64, bytes: &[u8]) -> bool
    ensures { IsTrue result ↔ IsCrowded number bytes.now }
{
    let mut behind = bytes;
    let mut before = 0;
    let mut cells = 0;
    while behind.len() >= 8 {
        let more = later_cells(number, before, behind);
        if more > bytes.len() as u64 - cells {
            return true;
        }
        cells += more;
        behind = behind.split_at(8).1;
        before += 1;
    }
    false
}

// Whether a write that was cut off cannot have left this. The frames that are hashed take at most eight times the bytes.
fn is_broken(title: &Title, number: u64, bytes: &[u8]) -> bool
    ensures { IsTrue result ↔ IsBroken (bytes_of title.now) number bytes.now }
{
    is_crowded(number, bytes) || has_later(title, number, bytes)
}

fn other_format(title: &Title, number: u64, bytes: &[u8]) -> Option<u8>
    ensures { MatchOption result (HasOther (bytes_of title.now) number bytes.now → ⊥) (λ format. IsOther (bytes_of title.now) number bytes.now format) }
{
    let (head, _) = split_head(bytes)?;
    let format = stated_format(head);
    if format == FORMAT || format == 0 || format == 255 {
        return None;
    }
    match first_frame(format, title, number, bytes) {
        Some(_) => Some(format),
        None => None,
    }
}

fn is_blank(bytes: &[u8]) -> bool
    ensures { result ≡ is_blank bytes.now }
{
    bytes.iter().all(|byte| *byte == 0)
}

impl Reader {
    ghost use Rattle.svid_journal.specs.Reading.{HasRead, IsNext, ReadsOn};

    /// A reader that has read nothing.
    pub fn new() -> Reader
        ensures { result ≡ record { count = 0; at = 0; marked = false } }
    {
        Reader {
            count: 0,
            at: 0,
            marked: false,
        }
    }

    // What is here, where there is no frame of the next number.
    fn ending<'a>(&self, title: &Title, rest: &[u8]) -> Next<'a>
        requires { self.now.count < 2 ^ 62 }
        ensures { IsEnding result title.now self.now rest.now }
    {
        let number = 1 + self.count;
        if let Some(format) = other_format(title, number, rest) {
            return Next::Other(format);
        }
        match title.file {
            File::Journal(_) if is_broken(title, number, rest) => Next::Damage,
            File::Journal(_) if is_blank(rest) => Next::End,
            File::Journal(_) => Next::Tear,
            File::Snapshot if rest.is_empty() && self.marked => Next::End,
            File::Snapshot => Next::Damage,
        }
    }

    /// Reads the next frame of a file, or says why there is none.
    ///
    /// `bytes` are those of the whole file. The reader moves on only past a payload. It takes no memory.
    pub fn next<'a>(&mut self, title: &Title, bytes: &'a [u8]) -> Next<'a>
        ensures next { IsNext result title.now self.old self.new bytes.now }
        ensures reads { (payloads : List (List ℕ)) (rest : List ℕ) → HasRead self.old title.now bytes.now payloads rest → ReadsOn result title.now self.new bytes.now payloads rest }
    {
        if self.count >= MOST || self.at > bytes.len() as u64 {
            return Next::Unfit;
        }
        let rest = bytes.split_at(self.at as usize).1;
        match first_frame(FORMAT, title, 1 + self.count, rest) {
            Some((payload, _)) => {
                self.count += 1;
                self.at += frame_len(payload.len()) as u64;
                self.marked = payload.is_empty();
                Next::Payload(payload)
            }
            None => self.ending(title, rest),
        }
    }
}
