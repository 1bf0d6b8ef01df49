// The parts of a pattern's text, and of a path.

ghost use Rattle.std.specs.Prelude.{◌≡◌, ◌↔◌, IsTrue, List, ℕ, ◌∷◌, ◌++◌, IfOk, length};
ghost use Rattle.std.specs.Str.{IsUtf8};
ghost use Rattle.std.specs.String.{string_bytes};
ghost use Rattle.svid_allow.specs.Pattern.{has_mark, id_in};

use std::alloc::{AllocError, Global};

// What stands behind the ID of a pattern of all IDs below it.
const MARK: &[u8] = b"/*";

// How long `spiffe://*` is, whose `/` is one of the scheme.
const NO_ID: usize = 10;

// Whether a text ends in `/*`, behind the scheme.
pub(crate) fn has_mark(text: &[u8]) -> bool
    ensures { result ≡ has_mark text.now }
{
    text.len() > NO_ID && text.ends_with(MARK)
}

// The ID in a pattern: the text without its mark.
pub(crate) fn id_in(text: &[u8]) -> &[u8]
    ensures { result.now ≡ id_in text.now }
{
    if has_mark(text) {
        text.split_at(text.len() - MARK.len()).0
    } else {
        text
    }
}

// Whether a path begins with another one and a `/`.
pub(crate) fn goes_on(path: &[u8], above: &[u8]) -> bool
    ensures { IsTrue result ↔ ((rest : List ℕ) × (path.now ≡ above.now ++ 47 ∷ rest)) }
{
    match path.strip_prefix(above) {
        Some(rest) => rest.starts_with(b"/".as_slice()),
        None => false,
    }
}

// A copy of bytes that are known to be UTF-8.
pub(crate) fn to_text(alloc: Global, bytes: &[u8]) -> Result<String, AllocError>
    requires { IsUtf8 bytes.now }
    ensures { IfOk result (λ text. string_bytes text ≡ bytes.now) }
{
    let bytes = bytes.to_vec(alloc)?;
    Ok(String::from_utf8(bytes).unwrap())
}
