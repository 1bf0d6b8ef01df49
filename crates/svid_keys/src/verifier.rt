ghost use Rattle.std.specs.Prelude.{◌≡◌, ◌≤◌, ℕ, Bool, List, length};
ghost use Rattle.svid_token.specs.Compact.{most_token_bytes};
ghost use Rattle.svid_token.specs.declared.alg.Alg.{Alg};
ghost use Rattle.svid_keys.specs.Key.{KeyData};

use crate::jwt_key::JwtKey;
use svid_token::Alg;

/// What knows whether a signature is good.
///
/// `says` is its meaning: an answer that its value and the four arguments determine, so that the
/// same question always has the same answer.
pub trait Verifier {
    ghost says: { Self → KeyData → Alg → List ℕ → List ℕ → Bool };

    /// Whether a signature over an input is good for a key and an algorithm. The input and the
    /// signature have at most 65,536 bytes each. Allocates nothing.
    fn verify(&self, key: &JwtKey, alg: Alg, input: &[u8], signature: &[u8]) -> bool
        requires input_len { length input.now ≤ most_token_bytes }
        requires signature_len { length signature.now ≤ most_token_bytes }
        ensures { result ≡ says self.now key.now alg input.now signature.now };
}
