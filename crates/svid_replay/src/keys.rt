//! The keys of uses, sorted, each with its kind and its expiry.
ghost use Rattle.std.specs.Prelude.{◌≡◌, List, IfOk};
ghost use Rattle.std.specs.List.{list_any};
ghost use Rattle.std.specs.Ordering.{is_eq};
ghost use Rattle.svid_replay.specs.Indexed.{is_sought};
ghost use Rattle.svid_replay.specs.Keys.{AreKeys, TellUses, expired_by_then, is_held, left_of, kind_cmp, kind_of, expiry_of};
ghost use Rattle.svid_replay.specs.declared.token_use.Use.{Use};

use crate::Use;
use crate::expiry::{Expiry, KeyKind};
use std::alloc::{AllocError, Global};

// The keys of uses, each once.
pub(crate) fn keys_of(alloc: Global, uses: &[Use]) -> Result<Vec<Expiry>, AllocError>
    ensures sorted { IfOk result (λ keys. AreKeys keys.items) }
    ensures told { IfOk result (λ keys. TellUses keys.items uses.now) }
{
    let mut keys = Vec::with_capacity(alloc, uses.len())?;
    for used in uses {
        keys.push(Expiry::of(*used))?;
    }
    keys.sort_unstable();
    keys.dedup_by(|one, other| (*one).cmp(&*other).is_eq());
    Ok(keys)
}

// Up to when entries are dropped, once those that expired by one moment more are dropped.
pub(crate) fn expired_by_then(expired_by: Option<u64>, moment: u64) -> Option<u64>
    ensures { result ≡ expired_by_then expired_by moment }
{
    match expired_by {
        None => Some(moment),
        Some(before) => Some(before.max(moment)),
    }
}

// Drops what expired by that moment.
pub(crate) fn sweep(keys: &mut Vec<Expiry>, expired_by: Option<u64>)
    ensures { keys.new.items ≡ left_of expired_by keys.old.items }
{
    keys.retain(|expiry| expiry.is_left(expired_by));
}

// Whether one of the key and kind is left.
fn has_left(keys: &[Expiry], kind: &KeyKind, expired_by: Option<u64>) -> bool
    requires { AreKeys keys.now }
    ensures { result ≡ list_any (is_held kind.now expired_by) keys.now }
{
    let index = keys.partition_point(|expiry| expiry.is_in_front_of(kind, expired_by));
    match keys[index..].first() {
        None => false,
        Some(found) => found.has_kind(kind),
    }
}

// Whether there is one of this key and kind, where the entries that are left stand for uses.
fn has_kind(keys: &[Expiry], key: &[u8; 32], withdrawn: bool, expired_by: Option<u64>) -> bool
    requires { AreKeys keys.now }
    ensures { (us : List Use) → TellUses (left_of expired_by keys.now) us → result ≡ list_any (λ u. is_eq (kind_cmp (kind_of key.now withdrawn) (expiry_of u).kind)) us }
{
    let kind = KeyKind {
        key: *key,
        withdrawn,
    };
    has_left(keys, &kind, expired_by)
}

// Whether there is a use of this key, or a withdrawal of it, where the entries that are left stand for uses.
pub(crate) fn tell_key(
    keys: &[Expiry],
    key: &[u8; 32],
    withdrawn: bool,
    expired_by: Option<u64>,
) -> bool
    requires { AreKeys keys.now }
    ensures { (us : List Use) → TellUses (left_of expired_by keys.now) us → result ≡ list_any (is_sought withdrawn key.now) us }
{
    if withdrawn {
        return has_kind(keys, key, true, expired_by);
    }
    has_kind(keys, key, false, expired_by) || has_kind(keys, key, true, expired_by)
}
