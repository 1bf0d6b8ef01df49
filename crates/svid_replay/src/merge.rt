//! Two sorted lists as one.
ghost use Rattle.std.specs.Prelude.{◌≡◌, true, IfOk};
ghost use Rattle.std.specs.Set.{sorted_merge};

use std::alloc::{AllocError, Global};
use std::cmp::Ordering;

/// Both lists in one, sorted; what both have is in it once.
pub(crate) fn merge<T: Ord + Copy>(alloc: Global, a: &[T], b: &[T]) -> Result<Vec<T>, AllocError>
    ensures { IfOk result (λ merged. merged.items ≡ sorted_merge T.cmp true a.now b.now) }
{
    let mut merged = Vec::with_capacity(alloc, a.len().saturating_add(b.len()))?;
    let mut i = 0;
    let mut j = 0;
    while i < a.len() && j < b.len() {
        match a[i].cmp(&b[j]) {
            Ordering::Less => {
                merged.push(a[i])?;
                i += 1;
            }
            Ordering::Equal => {
                merged.push(a[i])?;
                i += 1;
                j += 1;
            }
            Ordering::Greater => {
                merged.push(b[j])?;
                j += 1;
            }
        }
    }
    merged.extend_from_slice(&a[i..])?;
    merged.extend_from_slice(&b[j..])?;
    Ok(merged)
}
