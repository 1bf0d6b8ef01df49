ghost use Rattle.std.specs.Prelude.{◌≡◌, ◌≢◌, ◌+◌, ◌*◌, ◌/◌, ◌%◌, ◌<◌, ◌≤◌, ◌^◌, ◌++◌, [], ◌∷◌, List, ℕ, length, take, drop, MatchOption, IfSome, IfNone};
ghost use Rattle.std.specs.Int.{to_be_bytes, w32, w64};
ghost use Rattle.sha2.specs.Sha256.{sha256};
ghost use Rattle.svid_journal.specs.Titles.{bytes_of};
ghost use Rattle.svid_journal.specs.Reading.{format_in, len_in, number_in};
ghost use Rattle.svid_journal.specs.Frames.{numbers_of, sealed, head_of, gap, filler, frame_len, frame_in, frame_of, IsFormat, IsPayload, BeginsWithNone};

use crate::title::Title;
use sha2::{Digest, Sha256};

/// The format of the frames that this crate writes.
pub const FORMAT: u8 = 2;

/// The most bytes that a payload may have.
pub const MOST_PAYLOAD: usize = 16_777_215;

// The limit of a folder's numbers: none reaches it.
pub(crate) const MOST: u64 = 4_611_686_018_427_387_904;

const FILLER: [u8; 8] = [255; 8];

// The number of a frame, its format and the length of its payload.
#[tactic(auto, unfolding(crate::specs::Frames::numbers_of))]
fn numbers(format: u8, number: u64, payload: &[u8]) -> [u8; 12]
    requires bears { IsPayload payload.now }
    ensures { result ≡ numbers_of format number payload.now }
{
    let stated = format as u32 * 16_777_216 + payload.len() as u32;
    let mut numbers = [0; 12];
    numbers[..8].copy_from_slice(&number.to_be_bytes());
    numbers[8..].copy_from_slice(&stated.to_be_bytes());
    numbers
}

fn digest(format: u8, title: &Title, numbers: &[u8; 12], payload: &[u8]) -> [u8; 32]
    ensures { result ≡ sha256 (format ∷ (bytes_of title.now ++ (numbers.now ++ payload.now))) }
{
    let mut hasher = Sha256::new();
    hasher.update(&[format]);
    hasher.update(title.kind());
    hasher.update(&title.number().to_be_bytes());
    hasher.update(&title.folder);
    hasher.update(numbers);
    hasher.update(payload);
    hasher.finalize()
}

fn put_piece(head: &mut [u8; 32], at: usize, piece: &[u8])
    requires { at + length piece.now ≤ 32 }
    ensures { take (at + length piece.now) head.new ≡ take at head.old ++ piece.now }
{
    head[at..at + piece.len()].copy_from_slice(piece);
}

fn head(format: u8, title: &Title, number: u64, payload: &[u8]) -> [u8; 32]
    requires { IsPayload payload.now }
    ensures { result ≡ head_of format (bytes_of title.now) number payload.now }
{
    let numbers = numbers(format, number, payload);
    let digest = digest(format, title, &numbers, payload);
    let tag = digest.split_at(20).0;
    let mut head = [0; 32];
    put_piece(&mut head, 0, tag);
    put_piece(&mut head, 20, &numbers);
    head
}

#[tactic(auto, unfolding(crate::specs::Frames::gap))]
fn gap(count: usize) -> usize
    ensures value { result ≡ gap count }
    ensures small { result < 8 }
{
    (8 - count % 8) % 8
}

/// How many bytes the frame of a payload of `count` bytes takes.
pub fn frame_len(count: usize) -> usize
    requires { count < 2 ^ 24 }
    ensures value { result ≡ frame_len count }
    ensures small { result < 2 ^ 25 }
{
    32 + count + gap(count)
}

fn filler(count: usize) -> &'static [u8]
    requires { count ≤ 8 }
    ensures { result.now ≡ filler count }
{
    FILLER.split_at(count).0
}

// Puts a piece at an offset of a room.
pub(crate) fn put_at(room: &mut [u8], at: usize, piece: &[u8])
    requires { at + length piece.now ≤ length room.old }
    ensures put { room.new ≡ take at room.old ++ (piece.now ++ drop (at + length piece.now) room.old) }
    ensures long { length room.new ≡ length room.old }
{
    room[at..at + piece.len()].copy_from_slice(piece);
}

// Puts the frame of a payload at the start of a room that is long enough.
pub(crate) fn put_frame(room: &mut [u8], title: &Title, number: u64, payload: &[u8])
    requires bears { IsPayload payload.now }
    requires long { frame_len (length payload.now) ≤ length room.old }
    ensures { room.new ≡ frame_of (bytes_of title.now) number payload.now ++ drop (frame_len (length payload.now)) room.old }
{
    put_at(room, 0, &head(FORMAT, title, number, payload));
    put_at(room, 32, payload);
    put_at(room, 32 + payload.len(), filler(gap(payload.len())));
}

pub(crate) fn split_head(bytes: &[u8]) -> Option<(&[u8], &[u8])>
    ensures { MatchOption result (length bytes.now < 32) (λ x. (bytes.now ≡ x.0.now ++ x.1.now) × (length x.0.now ≡ 32)) }
{
    if bytes.len() < 32 {
        return None;
    }
    Some(bytes.split_at(32))
}

fn u32_of(bytes: &[u8]) -> u32
    requires { length bytes.now ≡ 4 }
    ensures { to_be_bytes w32 result ≡ bytes.now }
{
    u32::from_be_bytes([bytes[0], bytes[1], bytes[2], bytes[3]])
}

// The number with these 8 bytes, most significant first.
pub(crate) fn u64_of(bytes: &[u8]) -> u64
    requires { length bytes.now ≡ 8 }
    ensures { to_be_bytes w64 result ≡ bytes.now }
{
    u64::from_be_bytes([
        bytes[0], bytes[1], bytes[2], bytes[3], bytes[4], bytes[5], bytes[6], bytes[7],
    ])
}

fn stated_len(head: &[u8]) -> u32
    requires { length head.now ≡ 32 }
    ensures { to_be_bytes w32 result ≡ drop 28 head.now }
{
    u32_of(head.split_at(28).1)
}

// The format in a head.
pub(crate) fn stated_format(head: &[u8]) -> u8
    requires { length head.now ≡ 32 }
    ensures each { (code : ℕ) → code < 2 ^ 32 → to_be_bytes w32 code ≡ drop 28 head.now → result ≡ code / 16777216 }
    ensures value { result ≡ format_in head.now }
{
    (stated_len(head) / 16_777_216) as u8
}

// The length of the payload in a head.
pub(crate) fn stated_payload(head: &[u8]) -> usize
    requires { length head.now ≡ 32 }
    ensures value { result ≡ len_in head.now }
    ensures small { result < 2 ^ 24 }
{
    (stated_len(head) % 16_777_216) as usize
}

// The number in a head.
pub(crate) fn stated_number(head: &[u8]) -> u64
    requires { length head.now ≡ 32 }
    ensures bytes { to_be_bytes w64 result ≡ take 8 (drop 20 head.now) }
    ensures value { result ≡ number_in head.now }
{
    u64_of(head.split_at(20).1.split_at(8).0)
}

fn split_body(len: usize, body: &[u8]) -> Option<(&[u8], &[u8])>
    requires { len < 2 ^ 24 }
    ensures some { IfSome result (λ x. (body.now ≡ x.0.now ++ (filler (gap len) ++ x.1.now)) × (length x.0.now ≡ len)) }
    ensures none { IfNone result ((payload rest : List ℕ) → length payload ≡ len → body.now ≢ payload ++ (filler (gap len) ++ rest)) }
{
    let gap = gap(len);
    if body.len() < len + gap {
        return None;
    }
    let (payload, behind) = body.split_at(len);
    let (missing, rest) = behind.split_at(gap);
    if missing == filler(gap) {
        Some((payload, rest))
    } else {
        None
    }
}

// The payload of the frame of this format and number at the start of the bytes, and the bytes after the frame.
pub(crate) fn first_frame<'a>(
    format: u8,
    title: &Title,
    number: u64,
    bytes: &'a [u8],
) -> Option<(&'a [u8], &'a [u8])>
    ensures found { IfSome result (λ x. (bytes.now ≡ frame_in format (bytes_of title.now) number x.0.now ++ x.1.now) × IsPayload x.0.now) }
    ensures none { IfNone result (BeginsWithNone format (bytes_of title.now) number bytes.now) }
{
    let (stated, body) = split_head(bytes)?;
    let code = stated_len(stated);
    if code / 16_777_216 != format as u32 {
        return None;
    }
    let (payload, rest) = split_body(code as usize % 16_777_216, body)?;
    if stated == head(format, title, number, payload).as_slice() {
        Some((payload, rest))
    } else {
        None
    }
}
