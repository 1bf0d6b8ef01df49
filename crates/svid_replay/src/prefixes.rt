//! Prefixes of keys: the numbers whose bytes are the first 8 of a key, for the keys that two uses may have.
ghost use Rattle.std.specs.Prelude.{◌≡◌, ◌==◌, ◌<◌, ℕ, [], ◌∷◌, ◌++◌, List, OnOk, length};
ghost use Rattle.std.specs.List.{list_any};
ghost use Rattle.std.specs.List.Sorted.{IsNonDecreasing};
ghost use Rattle.svid_replay.specs.Prefixes.{has_prefix, is_among, IsNoted, prefix_of};
ghost use Rattle.svid_replay.specs.declared.token_use.Use.{Use};

use crate::Use;
use crate::filter::{add, may_have, number};
use std::alloc::AllocError;

// The number that the key of a use begins with.
#[tactic(auto, unfolding(crate::specs::Prefixes::prefix_of))]
fn prefix_of(used: &Use) -> u64
    ensures { result ≡ prefix_of used.now.key }
{
    let key = used.key;
    number(&key)
}

// Puts the key of a use into a filter of the keys before it, and appends its number where the key may have been there already.
// Skips a withdrawal.
pub(crate) fn note(
    key_filter: &mut [u64],
    prefixes: &mut Vec<u64>,
    used: &Use,
) -> Result<(), AllocError>
    requires { 0 < length key_filter.old }
    ensures long { length key_filter.new ≡ length key_filter.old }
    ensures noted { OnOk result ((before : List Use) → IsNoted before key_filter.old prefixes.old.items → IsNoted (before ++ used.now ∷ []) key_filter.new prefixes.new.items) }
{
    if used.withdrawn {
        return Ok(());
    }
    let key = used.key;
    if may_have(key_filter, &key) {
        prefixes.push(prefix_of(used))?;
    }
    add(key_filter, &key);
    Ok(())
}

// The prefixes, rising.
pub(crate) fn in_order(prefixes: Vec<u64>) -> Vec<u64>
    ensures rising { IsNonDecreasing result.items }
    ensures same { (key : List ℕ) → has_prefix result.items key ≡ has_prefix prefixes.items key }
{
    let mut sorted = prefixes;
    sorted.sort_unstable();
    sorted
}

// Whether a use is no withdrawal and its key has one of these prefixes.
pub(crate) fn is_among(prefixes: &[u64], used: &Use) -> bool
    requires { IsNonDecreasing prefixes.now }
    ensures { result ≡ is_among prefixes.now used.now }
{
    !used.withdrawn && has(prefixes, prefix_of(used))
}

fn has(prefixes: &[u64], number: u64) -> bool
    requires { IsNonDecreasing prefixes.now }
    ensures { result ≡ list_any (λ m. m == number) prefixes.now }
{
    match prefixes.binary_search(&number) {
        Ok(_) => true,
        Err(_) => false,
    }
}
