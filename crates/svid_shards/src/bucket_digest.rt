ghost use Rattle.std.specs.Prelude.{◌≡◌};
ghost use Rattle.sha2.specs.Sha256.{sha256};
ghost use Rattle.std.specs.List.{flat_map};
ghost use Rattle.svid_replay.specs.Sets.{rising};
ghost use Rattle.svid_replay.specs.Use.{text_of};
ghost use Rattle.svid_replay.specs.Uses.{count, live};

use crate::store_walk::StoreWalk;
use sha2::{Digest, Sha256};
use svid_replay::UseStore;

/// The digest of one bucket at a moment, and its size.
#[derive(Clone, Copy, Debug, PartialEq, Eq)]
pub struct BucketDigest {
    /// The digest of its uses that expire later, as a summary of that moment has it.
    pub digest: [u8; 32],
    /// How many uses these are.
    pub uses: usize,
}

// The digest of the uses of a store that expire after a moment, and how many these are.
pub(crate) fn digest_of<S: UseStore>(store: &S, moment: u64) -> BucketDigest
    ensures digest { result.digest ≡ sha256 (flat_map text_of (rising (live (S.content store.now) moment))) }
    ensures uses { result.uses ≡ count (live (S.content store.now) moment) }
{
    let mut hasher = Sha256::new();
    let mut uses = store.len();
    for used in StoreWalk::of(store) {
        if used.is_live(moment) {
            hasher.update(used.text());
        } else {
            uses -= 1;
        }
    }
    BucketDigest {
        digest: hasher.finalize(),
        uses,
    }
}
