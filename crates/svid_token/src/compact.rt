ghost use Rattle.std.specs.Prelude.{◌≡◌, ◌++◌, ◌∷◌, None, MatchOption};
ghost use Rattle.svid_token.specs.Compact.{AreParts, HasNoPeriod, parts_of, period};

use crate::refusal::Refusal;
use memchr::memchr;

const PERIOD: u8 = b'.';

/// The most bytes that a token may have.
pub const MAX_TOKEN_LEN: usize = 65536;

/// The three parts of a token in the compact form (RFC 7515, section 7.1), as slices of it.
#[derive(Clone, Copy, Debug, PartialEq, Eq)]
pub struct Compact<'a> {
    /// The base64url of the header.
    pub header: &'a [u8],
    /// The base64url of the payload.
    pub payload: &'a [u8],
    /// The base64url of the signature.
    pub signature: &'a [u8],
    /// What the signature is made over: the header, a period and the payload.
    pub input: &'a [u8],
}

impl<'a> Compact<'a> {
    ghost use Rattle.std.specs.Prelude.{◌≡◌, ◌≤◌, ℕ, List, length, Err, IfOk, OnOk};
    ghost use Rattle.svid_token.specs.Compact.{IsCompact, compact_of, compact_view, most_token_bytes, signing_input};
    ghost use Rattle.svid_token.specs.Rows.{seen};

    /// Splits a token at its two periods. Allocates nothing.
    ///
    /// It answers `TooLong` for more than 65,536 bytes, and else `NotThreeParts` where there are
    /// fewer or more periods than two. A part may be empty.
    pub fn split(token: &'a [u8]) -> Result<Compact<'a>, Refusal>
        ensures parts { IfOk result
            (λ c. IsCompact token.now c.header.now c.payload.now c.signature.now) }
        ensures input { IfOk result
            (λ c. c.input.now ≡ signing_input c.header.now c.payload.now) }
        ensures len { OnOk result (length token.now ≤ most_token_bytes) }
        ensures not_three { result ≡ Err Refusal.NotThreeParts
            → (header payload signature : List ℕ) → ¬ IsCompact token.now header payload signature }
        ensures value { seen compact_view result ≡ compact_of token.now }
    {
        if token.len() > MAX_TOKEN_LEN {
            return Err(Refusal::TooLong);
        }
        let Some((header, payload, signature)) = three_parts(token) else {
            return Err(Refusal::NotThreeParts);
        };
        let (input, _) = token.split_at(header.len() + 1 + payload.len());
        Ok(Compact {
            header,
            payload,
            signature,
            input,
        })
    }
}

// The three parts between the periods, if there are two periods.
fn three_parts(token: &[u8]) -> Option<(&[u8], &[u8], &[u8])>
    ensures { MatchOption result (parts_of token.now ≡ None)
        (λ x. AreParts token.now x.0.now x.1.now x.2.now) }
{
    let (header, rest) = split_period(token)?;
    let (payload, signature) = split_period(rest)?;
    match split_period(signature) {
        None => Some((header, payload, signature)),
        Some(_) => None,
    }
}

// What stands before and after the first period.
#[tactic(auto, using(crate::proofs::CompactLemmas::first_period))]
fn split_period(bytes: &[u8]) -> Option<(&[u8], &[u8])>
    ensures { MatchOption result (HasNoPeriod bytes.now)
        (λ x. HasNoPeriod x.0.now × (bytes.now ≡ x.0.now ++ period ∷ x.1.now)) }
{
    let at = memchr(PERIOD, bytes)?;
    let (before, _) = bytes.split_at(at);
    let (_, after) = bytes.split_at(at + 1);
    Some((before, after))
}
