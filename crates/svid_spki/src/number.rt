// Numbers as bytes, the greatest first.

ghost use Rattle.std.specs.Prelude.{◌≡◌, ◌^◌, ◌≤◌, IsTrue, length, nat_lt, None, Some, if◌then◌else◌};
ghost use Rattle.svid_spki.specs.Jwk.{has_bits, is_exponent};
ghost use Rattle.svid_spki.specs.Number.{is_number, is_odd, value};

// The fewest bits of a modulus (RFC 7518, section 3.3).
const LEAST_BITS: usize = 2048;

// The most bits of a modulus, whatever a caller allows.
const MOST_BITS: usize = 16384;

// Whether bytes are a number above 0, and no fewer bytes are that number.
pub(crate) fn is_number(bytes: &[u8]) -> bool
    ensures { result ≡ is_number bytes.now }
{
    match bytes.first() {
        Some(first) => *first > 0,
        None => false,
    }
}

// Whether bytes are an odd number.
pub(crate) fn is_odd(bytes: &[u8]) -> bool
    ensures { result ≡ is_odd bytes.now }
{
    match bytes.split_last() {
        Some((last, _)) => *last % 2 == 1,
        None => false,
    }
}

// The number that bytes are, if it is below 2^31.
fn small(bytes: &[u8]) -> Option<u64>
    ensures { result ≡ (if nat_lt (value bytes.now) (2 ^ 31) then Some (value bytes.now) else None) }
{
    let mut number: u64 = 0;
    for byte in bytes {
        number = number * 256 + u64::from(*byte);
        if number >= 0x8000_0000 {
            return None;
        }
    }
    Some(number)
}

// Whether a number is an exponent: odd, at least 3, and below 2^31.
#[tactic(auto, using(crate::proofs::NumberLemmas::short))]
pub(crate) fn is_exponent(e: &[u8]) -> bool
    ensures value { result ≡ is_exponent e.now }
    ensures len { IsTrue result → IsTrue (is_number e.now) → length e.now ≤ 4 }
{
    match small(e) {
        Some(number) => number % 2 == 1 && number >= 3,
        None => false,
    }
}

// Whether a modulus has enough bits, and no more than allowed.
pub(crate) fn has_bits(n: &[u8], most: usize) -> bool
    ensures value { result ≡ has_bits most n.now }
    ensures len { IsTrue result → length n.now ≤ 2049 }
{
    match n.split_first() {
        Some((first, more)) if more.len() <= MOST_BITS / 8 => {
            let bits = (8 - first.leading_zeros() as usize) + 8 * more.len();
            LEAST_BITS <= bits && bits <= most && bits <= MOST_BITS
        }
        _ => false,
    }
}
