ghost use Rattle.std.specs.Prelude.{◌≡◌, option_map};
ghost use Rattle.sha2.specs.Sha256.{sha256};
ghost use Rattle.svid_token.specs.TokenKey.{token_text};

use sha2::{Digest, Sha256};
use svid_id::SpiffeId;

/// The key of a token, which identifies the token: a SHA-256 digest. Allocates nothing.
///
/// It is the digest of byte 01, the length of the subject's trust domain name in four bytes with
/// the greatest first, the name and the `jti`. Where there is no `jti`, or an empty one, it is the
/// digest of byte 00 and the signing input. The signature is not part of it, since some signatures
/// can be changed and stay good.
pub fn token_key(sub: &SpiffeId, jti: Option<&str>, input: &[u8]) -> [u8; 32]
    ensures { result
        ≡ sha256 (token_text sub.now.domain (option_map (λ s. s.now) jti.entry) input.now) }
{
    let mut hasher = Sha256::new();
    match jti {
        Some(jti) if !jti.is_empty() => {
            let domain = sub.domain();
            hasher.update([1u8]);
            hasher.update((domain.len() as u32).to_be_bytes());
            hasher.update(domain);
            hasher.update(jti);
        }
        _ => {
            hasher.update([0u8]);
            hasher.update(input);
        }
    }
    hasher.finalize()
}
