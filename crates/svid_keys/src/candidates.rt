ghost use Rattle.std.specs.Prelude.{◌≡◌, option_map};
ghost use Rattle.svid_keys.specs.Candidates.{may_sign};

use crate::jwt_key::JwtKey;
use svid_token::Kty;

/// The keys that may have signed a token, one after the other in the order of the bundle's list. No
/// step takes memory.
#[derive(Clone, Copy, Debug)]
pub struct Candidates<'a> {
    keys: &'a [JwtKey],
    kty: Kty,
    kid: Option<&'a str>,
}

impl<'a> Candidates<'a> {
    ghost use Rattle.std.specs.Prelude.{filter};
    ghost use Rattle.svid_keys.specs.Candidates.{candidates_left, may_sign};

    // Of these keys those that may have signed a token.
    pub(crate) fn among(keys: &'a [JwtKey], kty: Kty, kid: Option<&'a str>) -> Candidates<'a>
        ensures { candidates_left result
            ≡ filter (may_sign kty (option_map (λ kid. kid.now) kid.entry)) keys.now }
    {
        Candidates { keys, kty, kid }
    }
}

impl<'a> Iterator for Candidates<'a> {
    ghost use Rattle.std.specs.Iterator.{YieldsFirstBy, item_count};
    ghost use Rattle.svid_keys.specs.Candidates.{candidates_left};

    type Item = &'a JwtKey;

    ghost next_gives = { YieldsFirstBy (λ key. key.now) candidates_left };

    ghost remaining = { item_count candidates_left };

    fn next(&mut self) -> Option<&'a JwtKey> {
        while let Some((key, keys)) = self.keys.split_first() {
            self.keys = keys;
            if may_sign(key, self.kty, self.kid) {
                return Some(key);
            }
        }
        None
    }
}

// Whether a key is of a family, and has the name that is asked for, if one is.
fn may_sign(key: &JwtKey, kty: Kty, kid: Option<&str>) -> bool
    ensures { result ≡ may_sign kty (option_map (λ kid. kid.now) kid.entry) key.now }
{
    let same = matches!((key.kty(), kty), (Kty::Rsa, Kty::Rsa) | (Kty::Ec, Kty::Ec));
    match kid {
        Some(kid) => same && key.kid() == kid,
        None => same,
    }
}
