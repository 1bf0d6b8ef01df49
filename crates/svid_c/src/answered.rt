ghost use Rattle.std.specs.Prelude.{◌≡◌, ◌≤◌, Bool, List, ℕ, false, true, take, drop, bytes_eq, length};
ghost use Rattle.std.specs.List.{list_any};
ghost use Rattle.svid_token.specs.Compact.{most_token_bytes};
ghost use Rattle.svid_keys.specs.Table.{is_among};

use svid_keys::{JwtKey, Verifier, question};
use svid_token::Alg;

/// The caller's verifier's answer about a token.
#[derive(Clone, Copy)]
pub(crate) enum Answered<'a> {
    /// Yes to these questions, and to no others.
    Questions(&'a [[u8; 32]]),
    /// The key with this text made this signature over these bytes. Says nothing about any other key, text or signature. No key has
    /// an empty text.
    Finding {
        key: &'a [u8],
        input: &'a [u8],
        signature: &'a [u8],
    },
}

// Whether a question is one of these.
fn is_among(question: &[u8; 32], yes: &[[u8; 32]]) -> bool
    ensures { result ≡ is_among question.now yes.now }
{
    yes.iter().any(|one| question == one)
}

impl<'a> Verifier for Answered<'a> {
    ghost use Rattle.svid_c.specs.Answered.{says_of};

    ghost says = { says_of };

    fn verify(&self, key: &JwtKey, alg: Alg, input: &[u8], signature: &[u8]) -> bool {
        match *self {
            Answered::Finding {
                key: text,
                input: over,
                signature: made,
            } => {
                !text.is_empty()
                    && (key.text().as_bytes() == text && (input == over && signature == made))
            }
            // (Without a yes, nothing needs hashing.)
            Answered::Questions(yes) if yes.is_empty() => false,
            Answered::Questions(yes) => is_among(&question(key, alg, input, signature), yes),
        }
    }
}
