// The runs of bytes that a field value is made of.

ghost use Rattle.std.specs.Prelude.{◌≡◌, ◌≤◌, length};
ghost use Rattle.std.specs.List.{list_all, prefix_len};
ghost use Rattle.svid_bearer.specs.Value.{is_blank, is_equals, is_space, is_token_byte, is_word_byte};

fn is_blank(byte: u8) -> bool
    ensures { result ≡ is_blank byte }
{
    byte == b' ' || byte == b'\t'
}

// The bytes of a token below 64, and those from 64 to 127: a bit each. (Nobody guesses which letter of a token is next, so a branch for each range
// would cost more.)
const TOKEN_BYTES: [u64; 2] = [0x03ff_e800_0000_0000, 0x47ff_fffe_87ff_fffe];

fn is_token_byte(byte: u8) -> bool
    ensures { result ≡ is_token_byte byte }
{
    byte < 128 && (TOKEN_BYTES[(byte / 64) as usize] >> (byte % 64)) & 1 == 1
}

// How many blanks are in front.
#[tactic(auto, using(crate::proofs::ScanLemmas::runs_fit))]
pub(crate) fn blanks(text: &[u8]) -> usize
    ensures count { result ≡ prefix_len is_blank text.now }
    ensures fits { result ≤ length text.now }
{
    text.iter().take_while(|byte| is_blank(**byte)).count()
}

// How many bytes stand before the first blank.
#[tactic(auto, using(crate::proofs::ScanLemmas::runs_fit))]
pub(crate) fn word(text: &[u8]) -> usize
    ensures count { result ≡ prefix_len is_word_byte text.now }
    ensures fits { result ≤ length text.now }
{
    text.iter().take_while(|byte| !is_blank(**byte)).count()
}

// How many spaces are in front.
#[tactic(auto, using(crate::proofs::ScanLemmas::runs_fit))]
pub(crate) fn spaces(text: &[u8]) -> usize
    ensures count { result ≡ prefix_len is_space text.now }
    ensures fits { result ≤ length text.now }
{
    text.iter().take_while(|byte| **byte == b' ').count()
}

// How many bytes of a token are in front, up to its first `=`.
#[tactic(auto, using(crate::proofs::ScanLemmas::runs_fit))]
pub(crate) fn token_bytes(text: &[u8]) -> usize
    ensures count { result ≡ prefix_len is_token_byte text.now }
    ensures fits { result ≤ length text.now }
{
    text.iter().take_while(|byte| is_token_byte(**byte)).count()
}

// How many `=` are in front.
#[tactic(auto, using(crate::proofs::ScanLemmas::runs_fit))]
pub(crate) fn equals(text: &[u8]) -> usize
    ensures count { result ≡ prefix_len is_equals text.now }
    ensures fits { result ≤ length text.now }
{
    text.iter().take_while(|byte| **byte == b'=').count()
}

// Whether a text is blank, or empty.
pub(crate) fn all_blank(text: &[u8]) -> bool
    ensures { result ≡ list_all is_blank text.now }
{
    text.iter().all(|byte| is_blank(*byte))
}
