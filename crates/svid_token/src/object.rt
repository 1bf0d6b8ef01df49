ghost use Rattle.std.specs.Prelude.{◌≡◌, IfOk, Some, option_map};
ghost use Rattle.serde_json.specs.View.{view};
ghost use Rattle.svid_token.specs.Json.{object_of};
ghost use Rattle.svid_token.specs.Object.{object_due};
ghost use Rattle.svid_token.specs.Rows.{Answers};

use crate::json::read_json;
use crate::part::read_part;
use crate::refusal::Refusal;
use serde_json::Value;
use std::alloc::{AllocError, Global};

// The JSON object that a part encodes, or the refusal for its encoding or its content.
pub(crate) fn read_object(
    alloc: Global,
    part: &[u8],
    spelling: Refusal,
    not_object: Refusal,
) -> Result<Value, Refusal>
    ensures { Answers (λ v. Some (view v)) result (object_due spelling not_object part.now) }
{
    let bytes = read_part(alloc, part, spelling)?;
    match object_in(alloc, &bytes)? {
        Some(object) => Ok(object),
        None => Err(not_object),
    }
}

// The JSON object that bytes are, if they are one.
fn object_in(alloc: Global, bytes: &[u8]) -> Result<Option<Value>, AllocError>
    ensures { IfOk result (λ o. option_map view o ≡ object_of bytes.now) }
{
    match read_json(alloc, bytes)? {
        Some(value) if value.is_object() => Ok(Some(value)),
        _ => Ok(None),
    }
}
