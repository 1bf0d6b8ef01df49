ghost use Rattle.std.specs.Prelude.{◌≡◌, ℕ, List, IfOk, take, drop, length, nat_lt};
ghost use Rattle.std.specs.List.{prefix_len};
ghost use Rattle.svid_replay.specs.Indexed.{is_sought};
ghost use Rattle.svid_replay.specs.Twice.{IsKeySorted, has_key, twice_of, uses_of};

use crate::{Use, UseList};
use std::alloc::{AllocError, Global};

/// A key that two or more different uses have, withdrawals aside, with all of these uses in rising order.
#[derive(Debug, Drop)]
pub struct Twice {
    /// The key that the uses have.
    pub key: [u8; 32],
    /// All uses of the key that are no withdrawals, rising.
    pub uses: UseList,
}

pub(crate) fn has_key(key: &[u8; 32], used: &Use) -> bool
    ensures { result ≡ has_key key.now used.now }
{
    key.cmp(&used.key).is_eq()
}

// Whether a use has this key, or is a withdrawal of it.
pub(crate) fn is_sought(withdrawn: bool, key: &[u8; 32], used: &Use) -> bool
    ensures { result ≡ is_sought withdrawn key.now used.now }
{
    has_key(key, used) && (used.withdrawn || !withdrawn)
}

// Whether a key with these uses was used twice.
fn is_twice(group: &[Use]) -> bool
    ensures { result ≡ nat_lt 1 (length group.now) }
{
    group.len() > 1
}

// Splits off the first uses that have this key.
fn split_key<'a>(key: &[u8; 32], uses: &'a [Use]) -> (&'a [Use], &'a [Use])
    ensures front { result.0.now ≡ take (prefix_len (has_key key.now) uses.now) uses.now }
    ensures rest { result.1.now ≡ drop (prefix_len (has_key key.now) uses.now) uses.now }
{
    let count = uses.iter().take_while(|used| has_key(key, used)).count();
    uses.split_at(count)
}

fn sorted_by_key(uses: Vec<Use>) -> Result<Vec<Use>, AllocError>
    ensures sorted { IfOk result (λ sorted. IsKeySorted sorted.items) }
    ensures stable { IfOk result (λ sorted. (key : List ℕ) → uses_of key sorted.items ≡ uses_of key uses.items) }
{
    let mut sorted = uses;
    sorted.sort_by_key(
        |used: &Use| -> [u8; 32]
            ensures { result ≡ used.now.key }
        { used.key },
    )?;
    Ok(sorted)
}

fn list_groups(alloc: Global, sorted: &[Use]) -> Result<Vec<Twice>, AllocError>
    requires { IsKeySorted sorted.now }
    ensures { IfOk result (λ listed. listed.items ≡ twice_of sorted.now) }
{
    let mut listed = Vec::new(alloc);
    let mut rest = sorted;
    while let Some(first) = rest.first() {
        let (group, others) = split_key(&first.key, rest);
        if is_twice(group) {
            let uses = UseList::from_vec(group.to_vec(alloc)?);
            listed.push(Twice {
                key: first.key,
                uses,
            })?;
        }
        rest = others;
    }
    Ok(listed)
}

// The keys that two or more of these uses have, rising, each with all its uses in their order.
pub(crate) fn twice_in(alloc: Global, uses: Vec<Use>) -> Result<Vec<Twice>, AllocError>
    ensures { IfOk result (λ listed. listed.items ≡ twice_of uses.items) }
{
    let sorted = sorted_by_key(uses)?;
    list_groups(alloc, &sorted)
}
