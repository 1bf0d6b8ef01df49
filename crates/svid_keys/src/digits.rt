// The question that a line of a table is, read by a table of digits.

ghost use Rattle.std.specs.Prelude.{◌≡◌, ◌<◌, ℕ, IfSome};
ghost use Rattle.std.specs.Result.{result_ok};
ghost use Rattle.hex.specs.Hex.{hex_digit_value, pair_value};
ghost use Rattle.svid_keys.specs.Table.{question_in};

// The value of each byte as a hexadecimal digit, or 255.
#[rattlefmt::skip]
static DIGITS: [u8; 256] = [
    255, 255, 255, 255, 255, 255, 255, 255, 255, 255, 255, 255, 255, 255, 255, 255,
    255, 255, 255, 255, 255, 255, 255, 255, 255, 255, 255, 255, 255, 255, 255, 255,
    255, 255, 255, 255, 255, 255, 255, 255, 255, 255, 255, 255, 255, 255, 255, 255,
    0, 1, 2, 3, 4, 5, 6, 7, 8, 9, 255, 255, 255, 255, 255, 255, // 0 to 9
    255, 10, 11, 12, 13, 14, 15, 255, 255, 255, 255, 255, 255, 255, 255, 255, // upper case
    255, 255, 255, 255, 255, 255, 255, 255, 255, 255, 255, 255, 255, 255, 255, 255,
    255, 10, 11, 12, 13, 14, 15, 255, 255, 255, 255, 255, 255, 255, 255, 255, // lower case
    255, 255, 255, 255, 255, 255, 255, 255, 255, 255, 255, 255, 255, 255, 255, 255,
    255, 255, 255, 255, 255, 255, 255, 255, 255, 255, 255, 255, 255, 255, 255, 255,
    255, 255, 255, 255, 255, 255, 255, 255, 255, 255, 255, 255, 255, 255, 255, 255,
    255, 255, 255, 255, 255, 255, 255, 255, 255, 255, 255, 255, 255, 255, 255, 255,
    255, 255, 255, 255, 255, 255, 255, 255, 255, 255, 255, 255, 255, 255, 255, 255,
    255, 255, 255, 255, 255, 255, 255, 255, 255, 255, 255, 255, 255, 255, 255, 255,
    255, 255, 255, 255, 255, 255, 255, 255, 255, 255, 255, 255, 255, 255, 255, 255,
    255, 255, 255, 255, 255, 255, 255, 255, 255, 255, 255, 255, 255, 255, 255, 255,
    255, 255, 255, 255, 255, 255, 255, 255, 255, 255, 255, 255, 255, 255, 255, 255,
];

// The question that a line is, if it is one.
pub(crate) fn question_in(line: &[u8]) -> Option<[u8; 32]>
    ensures { result ≡ question_in line.now }
{
    if line.len() != 64 {
        return None;
    }
    let mut question = [0u8; 32];
    'bytes: for i in 0..32 {
        question[i] = byte_of(line[2 * i], line[2 * i + 1])?;
    }
    Some(question)
}

// The byte that two digits are.
#[inline]
fn byte_of(high: u8, low: u8) -> Option<u8>
    ensures { (i : ℕ) → result ≡ result_ok (pair_value high low i) }
{
    let high = digit(high)?;
    let low = digit(low)?;
    Some(high * 16 + low)
}

// The value of a digit of either case.
#[inline]
fn digit(byte: u8) -> Option<u8>
    ensures value { result ≡ hex_digit_value byte }
    ensures small { IfSome result (λ value. value < 16) }
{
    let value = DIGITS[byte as usize];
    if value < 16 { Some(value) } else { None }
}
