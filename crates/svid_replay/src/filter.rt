//! A filter of keys: it says that a key is surely not among those put in, or that it may be.
ghost use Rattle.std.specs.Prelude.{◌≡◌, ◌<◌, ◌≤◌, ℕ, List, false, length, take, IfOk};
ghost use Rattle.std.specs.Int.{from_be_bytes, w64};
ghost use Rattle.std.specs.List.{AllByRecursion};
ghost use Rattle.svid_replay.specs.Runs.{HasBits, mask_of, index_of};

use crate::Use;
use crate::runs::FRONT;
use std::alloc::{AllocError, Global};

/// The number whose bytes are the first 8, most significant first.
#[inline]
pub(crate) fn number(bytes: &[u8]) -> u64
    requires { 8 ≤ length bytes.now }
    ensures { result ≡ from_be_bytes w64 (take 8 bytes.now) }
{
    match bytes.first_chunk::<8>() {
        Some(chunk) => u64::from_be_bytes(*chunk),
        None => 0,
    }
}

#[inline]
fn mask(key: &[u8; 32]) -> u64
    ensures { result ≡ mask_of key.now }
{
    let (_, rest) = key.split_at(8);
    let hash = number(rest);
    (1u64 << (hash % 64)) | (1u64 << (hash / 64 % 64)) | (1u64 << (hash / 4096 % 64))
}

#[inline]
fn index(key: &[u8; 32], count: usize) -> usize
    requires { 0 < count }
    ensures value { result ≡ index_of count key.now }
    ensures bound { result < count }
{
    (number(key) % count as u64) as usize
}

/// Puts a key in.
pub(crate) fn add(key_filter: &mut [u64], key: &[u8; 32])
    requires { 0 < length key_filter.old }
    ensures long { length key_filter.new ≡ length key_filter.old }
    ensures added { HasBits key_filter.new key.now }
    ensures others { (other : List ℕ) → HasBits key_filter.old other → HasBits key_filter.new other }
{
    let at = index(key, key_filter.len());
    key_filter[at] |= mask(key);
}

/// Puts the keys of some uses in.
pub(crate) fn add_all(key_filter: &mut [u64], uses: &[Use])
    requires { 0 < length key_filter.old }
    ensures long { length key_filter.new ≡ length key_filter.old }
    ensures known { AllByRecursion (λ u. HasBits key_filter.new u.key) uses.now }
{
    for used in uses {
        let key = used.key;
        add(key_filter, &key);
    }
}

/// A filter of no key, with room for so many.
pub(crate) fn no_keys(alloc: Global, count: usize) -> Result<Vec<u64>, AllocError>
    ensures { IfOk result (λ key_filter. 0 < length key_filter.items) }
{
    vec![in alloc; 0u64; count / 5 + 1]
}

/// A filter of the keys of some uses, with room for as many as a run has before it is closed.
pub(crate) fn filter_of(alloc: Global, uses: &[Use]) -> Result<Vec<u64>, AllocError>
    ensures some { IfOk result (λ key_filter. 0 < length key_filter.items) }
    ensures known { IfOk result (λ key_filter. AllByRecursion (λ u. HasBits key_filter.items u.key) uses.now) }
{
    let mut key_filter = no_keys(alloc, uses.len().max(FRONT))?;
    add_all(&mut key_filter, uses);
    Ok(key_filter)
}

/// Replaces all keys by those of some uses.
pub(crate) fn renew(key_filter: &mut Vec<u64>, uses: &[Use])
    requires { 0 < length key_filter.old.items }
    ensures long { length key_filter.new.items ≡ length key_filter.old.items }
    ensures known { AllByRecursion (λ u. HasBits key_filter.new.items u.key) uses.now }
{
    key_filter.fill(0);
    add_all(key_filter, uses);
}

/// Whether a key may be among those put in.
#[inline]
pub(crate) fn may_have(key_filter: &[u64], key: &[u8; 32]) -> bool
    requires { 0 < length key_filter.now }
    ensures { result ≡ false → HasBits key_filter.now key.now → ⊥ }
{
    let mask = mask(key);
    key_filter[index(key, key_filter.len())] & mask == mask
}
