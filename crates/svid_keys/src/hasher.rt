// Hashers that are fed with the fields of a question.

ghost use Rattle.std.specs.Prelude.{◌<◌, ◌^◌, ◌++◌, List, ℕ, length};
ghost use Rattle.sha2.specs.Hashers.{Holds256};
ghost use Rattle.svid_keys.specs.Question.{field};

use sha2::{Digest, Sha256};

// A hasher that holds a trust domain name and a key's text as fields.
pub(crate) fn holding(domain: &str, text: &str) -> Sha256
    requires domain_len { length domain.now < 2 ^ 32 }
    requires text_len { length text.now < 2 ^ 32 }
    ensures { Holds256 result (field domain.now ++ field text.now) }
{
    let mut hasher = Sha256::new();
    feed(&mut hasher, domain.as_bytes());
    feed(&mut hasher, text.as_bytes());
    hasher
}

// Gives a field to the hasher, after its length.
pub(crate) fn feed(hasher: &mut Sha256, bytes: &[u8])
    requires { length bytes.now < 2 ^ 32 }
    ensures { (before : List ℕ) → ⟦<Sha256 as Digest>⟧.holds hasher.old before → ⟦<Sha256 as Digest>⟧.holds hasher.new (before ++ field bytes.now) }
{
    hasher.update((bytes.len() as u32).to_be_bytes());
    hasher.update(bytes);
}
