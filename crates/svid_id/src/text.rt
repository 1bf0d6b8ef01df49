// Copies of bytes as text.

ghost use Rattle.std.specs.Prelude.{◌≡◌, IfOk};
ghost use Rattle.std.specs.Str.{IsUtf8};
ghost use Rattle.std.specs.String.{string_bytes};

use std::alloc::{AllocError, Global};

// A copy of bytes that are known to be UTF-8.
pub(crate) fn to_text(alloc: Global, bytes: &[u8]) -> Result<String, AllocError>
    requires { IsUtf8 bytes.now }
    ensures { IfOk result (λ text. string_bytes text ≡ bytes.now) }
{
    let bytes = bytes.to_vec(alloc)?;
    Ok(String::from_utf8(bytes).unwrap())
}
