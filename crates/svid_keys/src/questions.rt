ghost use Rattle.std.specs.Prelude.{◌≡◌, ◌≤◌, length};
ghost use Rattle.svid_token.specs.Compact.{most_token_bytes};
ghost use Rattle.svid_keys.specs.Question.{question_of};

use crate::hasher::feed;
use crate::jwt_key::JwtKey;
use sha2::Digest;
use svid_token::Alg;

/// The question whether a signature over an input is good for a key and an algorithm: the SHA-256
/// digest of the trust domain, the key's text, the algorithm's name, the signing input and the
/// signature, each after its length in four bytes, the greatest first. Allocates nothing.
pub fn question(key: &JwtKey, alg: Alg, input: &[u8], signature: &[u8]) -> [u8; 32]
    requires input_len { length input.now ≤ most_token_bytes }
    requires signature_len { length signature.now ≤ most_token_bytes }
    ensures { result ≡ question_of key.now alg input.now signature.now }
{
    let mut hasher = key.hasher();
    feed(&mut hasher, alg.name().as_bytes());
    feed(&mut hasher, input);
    feed(&mut hasher, signature);
    hasher.finalize()
}
