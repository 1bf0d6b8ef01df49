ghost use Rattle.std.specs.Prelude.{◌≡◌};
ghost use Rattle.svid_requests.specs.Lines.{first_of};

use crate::waiter::Waiter;
use std::collections::BTreeSet;
use std::ops::Bound;

// The number of the first that waits for a claim of a key.
pub(crate) fn first_of(lines: &BTreeSet<Waiter>, key: &[u8; 32]) -> Option<u64>
    ensures { result ≡ first_of key.now lines.now.keys }
{
    let least = Waiter {
        key: *key,
        number: 0,
    };
    match lines
        .range((Bound::Included(least), Bound::Unbounded))
        .next()
    {
        None => None,
        Some(waiter) => {
            if key.cmp(&waiter.key).is_eq() {
                return Some(waiter.number);
            }
            None
        }
    }
}
