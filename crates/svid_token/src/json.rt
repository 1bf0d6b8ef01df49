ghost use Rattle.std.specs.Prelude.{◌≡◌, IfOk, option_map};
ghost use Rattle.serde_json.specs.View.{view};
ghost use Rattle.svid_token.specs.Json.{json_of};

use serde_json::Value;
use std::alloc::{AllocError, Global};

/// The JSON value of `bytes` (RFC 8259), or `None` where they are no UTF-8 or no JSON text, or
/// nest deeper than `serde_json` reads.
pub fn read_json(alloc: Global, bytes: &[u8]) -> Result<Option<Value>, AllocError>
    ensures { IfOk result (λ o. option_map view o ≡ json_of bytes.now) }
{
    match Value::from_slice(alloc, bytes) {
        Ok(value) => Ok(Some(value)),
        Err(e) => if e.is_memory() {
            Err(AllocError)
        } else {
            Ok(None)
        },
    }
}
