// JWK Sets, and keys for JWT-SVIDs that don't say so.

ghost use Rattle.std.specs.Prelude.{◌≡◌, [], IfOk, is_some, map, option_map, unwrap_or};
ghost use Rattle.serde_json.specs.Data.{object};
ghost use Rattle.serde_json.specs.Find.{as_array};
ghost use Rattle.serde_json.specs.View.{members_view, view};
ghost use Rattle.svid_keys.specs.Bundles.{entries_in, items_list};
ghost use Rattle.svid_documents.specs.Uses.{mended, set_of, with_use};

use serde_json::{Map, Value, put};
use std::alloc::{AllocError, Global};

// Whether a value is a JWK Set: its `keys` are a list, or null.
pub(crate) fn is_set(set: &Value) -> bool
    ensures { result ≡ is_some (entries_in (view set.now)) }
{
    match set.get("keys") {
        Some(keys) => keys.is_array() || keys.is_null(),
        None => false,
    }
}

// The entries that a JSON list has; none where it is no list.
fn list_of(alloc: Global, keys: Value) -> Vec<Value>
    ensures { map view result.items ≡ unwrap_or (option_map items_list (as_array (view keys))) [] }
{
    match keys {
        Value::Array(entries) => entries,
        _other => Vec::new(alloc),
    }
}

// The entries of the JWK Set that an object is.
fn entries_in(alloc: Global, mut members: Map<String, Value>) -> Vec<Value>
    ensures { map view result.items ≡ unwrap_or (entries_in (object (members_view members.entries))) [] }
{
    match members.remove("keys") {
        Some(keys) => list_of(alloc, keys),
        None => Vec::new(alloc),
    }
}

// The entries of a JWK Set.
fn entries_of(alloc: Global, set: Value) -> Vec<Value>
    ensures { map view result.items ≡ unwrap_or (entries_in (view set)) [] }
{
    match set {
        Value::Object(members) => entries_in(alloc, members),
        _other => Vec::new(alloc),
    }
}

// A key with the use of JWT-SVIDs, unless it has one.
fn key_with_use(alloc: Global, mut members: Map<String, Value>) -> Result<Value, AllocError>
    ensures { IfOk result (λ value. view value ≡ with_use (object (members_view members.entries))) }
{
    if members.contains_key("use") {
        return Ok(Value::Object(members));
    }
    let purpose = String::from_str(alloc, "jwt-svid")?;
    put(&mut members, alloc, "use", Value::String(purpose))?;
    Ok(Value::Object(members))
}

// The same of an entry, if it is an object.
fn with_use(alloc: Global, entry: Value) -> Result<Value, AllocError>
    ensures { IfOk result (λ value. view value ≡ with_use (view entry)) }
{
    match entry {
        Value::Object(members) => key_with_use(alloc, members),
        other => Ok(other),
    }
}

// The same for each of several.
fn with_uses(alloc: Global, entries: Vec<Value>) -> Result<Vec<Value>, AllocError>
    ensures { IfOk result (λ mended. map view mended.items ≡ map with_use (map view entries.items)) }
{
    let mut mended = Vec::new(alloc);
    for entry in entries {
        mended.push(with_use(alloc, entry)?)?;
    }
    Ok(mended)
}

// A JWK Set of these entries.
fn set_of(alloc: Global, entries: Vec<Value>) -> Result<Value, AllocError>
    ensures { IfOk result (λ set. view set ≡ set_of (map view entries.items)) }
{
    let mut members = Map::new(alloc);
    put(&mut members, alloc, "keys", Value::Array(entries))?;
    Ok(Value::Object(members))
}

// A JWK Set whose keys all have a use. What is no JWK Set stays as it is.
pub(crate) fn mended(alloc: Global, set: Value) -> Result<Value, AllocError>
    ensures { IfOk result (λ value. view value ≡ mended (view set)) }
{
    if !is_set(&set) {
        return Ok(set);
    }
    let entries = entries_of(alloc, set);
    set_of(alloc, with_uses(alloc, entries)?)
}
