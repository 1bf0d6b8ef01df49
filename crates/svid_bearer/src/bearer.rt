ghost use Rattle.std.specs.Prelude.{◌≡◌, ◌+◌, ◌-◌, ℕ, List, Result, Ok, Err, MatchOption, IsTrue, ◌↔◌, length, take, drop, false};
ghost use Rattle.std.specs.List.{list_all, prefix_len};
ghost use Rattle.svid_bearer.specs.Scan.{behind_word, has_token, token_len, unblank, unspace};
ghost use Rattle.svid_bearer.specs.Value.{IsBearer, scheme_of};

use crate::no_bearer::NoBearer;
use crate::scan::{all_blank, blanks, equals, spaces, token_bytes, word};

// The most bytes of a token.
const MAX_TOKEN: usize = 65536;

/// The one bearer token of a request, and where it stands.
#[derive(Clone, Copy, Debug, PartialEq, Eq)]
pub struct Bearer<'a> {
    /// How many bytes of the field's value stand before the token.
    pub at: usize,
    /// The token, one or more bytes: letters, digits, `-`, `.`, `_`, `~`, `+`, `/`, and `=` at its end.
    pub token: &'a [u8],
}

impl<'a> Bearer<'a> {
    ghost use Rattle.std.specs.Prelude.{◌≡◌};
    ghost use Rattle.svid_bearer.specs.Read.{IsAnswer};
    ghost use Rattle.svid_bearer.specs.View.{found};

    /// Reads the bearer token of a request. `fields` is how many header fields `Authorization` it has, and
    /// `value` is the value of the first. Allocates nothing.
    ///
    /// The value may have the blanks around it that its line in the message had. Where there is no
    /// field, or more than one, the value is not looked at.
    pub fn read(fields: u64, value: &'a [u8]) -> Result<Bearer<'a>, NoBearer>
        ensures { IsAnswer fields value.now (found result) }
    {
        if fields == 0 {
            return Err(NoBearer::Absent);
        }
        if fields > 1 {
            return Err(NoBearer::Several);
        }
        let (_, text) = value.split_at(blanks(value));
        let (scheme, rest) = text.split_at(word(text));
        if !is_bearer(scheme) {
            return Err(NoBearer::Scheme);
        }
        let Some(token) = token_in(rest) else {
            return Err(NoBearer::Spelling);
        };
        if token.len() > MAX_TOKEN {
            return Err(NoBearer::TooLong);
        }
        let at = value.len() - rest.len() + spaces(rest);
        Ok(Bearer { at, token })
    }
}

fn is_bearer(scheme: &[u8]) -> bool
    ensures { IsTrue result ↔ IsBearer scheme.now }
{
    scheme.eq_ignore_ascii_case(b"bearer")
}

// The token that follows a scheme, if nothing else does.
fn token_in(rest: &[u8]) -> Option<&[u8]>
    ensures { MatchOption result (has_token rest.now ≡ false)
        (λ token. IsTrue (has_token rest.now) × (token.now ≡ take (token_len (unspace rest.now)) (unspace rest.now))) }
{
    let count = spaces(rest);
    let (_, text) = rest.split_at(count);
    let bytes = token_bytes(text);
    let (_, behind) = text.split_at(bytes);
    let (token, after) = text.split_at(bytes + equals(behind));
    if count > 0 && bytes > 0 && all_blank(after) {
        Some(token)
    } else {
        None
    }
}
