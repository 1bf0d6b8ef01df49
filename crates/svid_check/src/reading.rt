ghost use Rattle.std.specs.Prelude.{◌≡◌, ◌≤◌, ◌==◌, length, option_map, string_bytes};
ghost use Rattle.sha2.specs.Sha256.{sha256};
ghost use Rattle.svid_token.specs.TokenKey.{token_text};
ghost use Rattle.svid_keys.specs.Candidates.{candidates_left};

use std::alloc::Global;
use svid_keys::{Bundles, Candidates};
use svid_token::{Claims, Compact, Header, Payload, Refusal, read_signature, token_key};

/// What a token says, with everything that must be in it. It holds nothing of the token's text, so it may
/// outlive it.
#[derive(Debug, Drop)]
pub struct Reading {
    /// The header, as far as a JWT-SVID is checked by it.
    pub header: Header,
    /// The claims.
    pub claims: Claims,
    /// The bytes of the signature.
    pub signature: Vec<u8>,
    /// What the signature is made over: a copy of that part of the token.
    pub input: Vec<u8>,
    /// The token's key, which identifies the token.
    pub key: [u8; 32],
    pub ghost signature_len: { length signature.items ≤ 65536 },
    pub ghost input_len: { length input.items ≤ 65536 },
    pub ghost key_told: { key ≡ sha256 (token_text claims.sub.domain (option_map string_bytes claims.jti) input.items) },
}

impl Reading {
    ghost use Rattle.svid_token.specs.Rows.{Answers, first_row, seen};
    ghost use Rattle.svid_check.specs.Said.{RefusesForm, reading_of, reading_view, said_in};
    ghost use Rattle.svid_check.specs.Verdict.{key_of, keys_due, keys_for, keys_rows};

    /// Reads a token.
    ///
    /// It answers the first that holds of the refusals from `TooLong` to `Jti`, or `OutOfMemory` where
    /// an allocation was refused. `TooLong` and `NotThreeParts` come before any memory is taken.
    pub fn of(alloc: Global, token: &[u8]) -> Result<Reading, Refusal>
        ensures value { Answers reading_view result (reading_of token.now) }
        ensures early { RefusesForm token.now result }
    {
        let compact = Compact::split(token)?;
        let header = Header::read(alloc, compact.header)?;
        let payload = Payload::read(alloc, compact.payload)?;
        let signature = read_signature(alloc, compact.signature)?;
        let claims = payload.claims(alloc)?;
        let input = compact.input.to_vec(alloc)?;
        let key = token_key(&claims.sub, claims.jti.as_deref(), &input);
        Ok(Reading {
            header,
            claims,
            signature,
            input,
            key,
        })
    }

    /// The token's key, which identifies the token. Allocates nothing.
    pub fn key(&self) -> [u8; 32]
        ensures { result ≡ key_of (said_in self.now) }
    {
        self.key
    }

    /// The keys that may have signed the token, in the order of the bundle's list; or why there are
    /// none: `UnknownDomain`, and then `NoKey`. Allocates nothing.
    pub fn candidates<'b>(&'b self, bundles: &'b Bundles) -> Result<Candidates<'b>, Refusal>
        ensures { seen candidates_left result ≡ keys_due bundles.now (said_in self.now) }
    {
        match self.keys_refusal(bundles) {
            Some(refusal) => Err(refusal),
            None => Ok(self.keys(bundles)),
        }
    }

    // Why there are no candidates.
    pub(crate) fn keys_refusal(&self, bundles: &Bundles) -> Option<Refusal>
        ensures { result ≡ first_row (keys_rows bundles.now (said_in self.now)) }
    {
        if !bundles.has_domain(self.claims.sub.domain()) {
            return Some(Refusal::UnknownDomain);
        }
        if is_empty(self.keys(bundles)) {
            return Some(Refusal::NoKey);
        }
        None
    }

    // The keys that may have signed the token.
    pub(crate) fn keys<'b>(&'b self, bundles: &'b Bundles) -> Candidates<'b>
        ensures { candidates_left result ≡ keys_for bundles.now (said_in self.now) }
    {
        let kid = self.header.kid.as_deref();
        bundles.candidates(self.claims.sub.domain(), self.header.alg, kid)
    }
}

fn is_empty(mut candidates: Candidates<'_>) -> bool
    ensures { result ≡ (length (candidates_left candidates.entry) == 0) }
{
    candidates.next().is_none()
}
