ghost use Rattle.std.specs.Prelude.{◌≡◌, IfOk, filter, nat_lt};
ghost use Rattle.svid_replay.specs.Sets.{rising};

use crate::store_walk::StoreWalk;
use std::alloc::{AllocError, Global};
use svid_replay::{Use, UseStore};

// The uses of a store that expire after a moment, rising.
pub(crate) fn live_of<S: UseStore>(
    alloc: Global,
    store: &S,
    moment: u64,
) -> Result<Vec<Use>, AllocError>
    ensures { IfOk result (λ uses. uses.items ≡ filter (λ u. nat_lt moment u.exp) (rising (S.content store.now))) }
{
    StoreWalk::of(store)
        .filter(|used| used.is_live(moment))
        .collect(alloc)
}
