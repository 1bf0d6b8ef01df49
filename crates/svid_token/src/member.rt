// What is read of the members of a JSON object.

ghost use Rattle.std.specs.Prelude.{◌≡◌, IsTrue, IsFalse, IfOk, MatchOption, option_copied, option_map, string_bytes};
ghost use Rattle.serde_json.specs.Find.{as_str, get};
ghost use Rattle.serde_json.specs.View.{view};
ghost use Rattle.svid_token.specs.Json.{as_time, text_at, time_at};
ghost use Rattle.svid_token.specs.Rows.{fails};

use serde_json::Value;
use std::alloc::{AllocError, Global};

// The time that a value is, in seconds, if it is a number written with digits alone, below 2^64.
pub(crate) fn as_time(value: &Value) -> Option<u64>
    ensures { result ≡ as_time (view value.now) }
{
    value.as_u64()
}

// A time that may be left out: `None` where the member is there and is no time.
pub(crate) fn optional_time(object: &Value, name: &str) -> Option<Option<u64>>
    ensures { MatchOption result (IsTrue (fails as_time (get name.now (view object.now))))
        (λ o. IsFalse (fails as_time (get name.now (view object.now)))
        × (o ≡ time_at name.now (view object.now))) }
{
    match object.get(name) {
        Some(value) => as_time(value).map(Some),
        None => Some(None),
    }
}

// A text that may be left out: `None` where the member is there and is no text.
pub(crate) fn optional_text<'a>(object: &'a Value, name: &str) -> Option<Option<&'a str>>
    ensures { MatchOption result (IsTrue (fails as_str (get name.now (view object.now))))
        (λ o. IsFalse (fails as_str (get name.now (view object.now)))
        × (option_copied o ≡ text_at name.now (view object.now))) }
{
    match object.get(name) {
        Some(value) => value.as_str().map(Some),
        None => Some(None),
    }
}

// A text of its own memory, where there is a text.
pub(crate) fn owned(alloc: Global, text: Option<&str>) -> Result<Option<String>, AllocError>
    ensures { IfOk result (λ o. option_map string_bytes o ≡ option_copied text.entry) }
{
    match text {
        Some(text) => Ok(Some(String::from_str(alloc, text)?)),
        None => Ok(None),
    }
}
