ghost use Rattle.std.specs.Prelude.{◌≡◌, replicate, true, IfOk};
ghost use Rattle.svid_replay.specs.Batches.{last_of};
ghost use Rattle.svid_replay.specs.Buckets.{bucket};
ghost use Rattle.svid_replay.specs.Uses.{no_uses};
ghost use Rattle.svid_replay.specs.Walks.{IsAhead, next_few};
ghost use Rattle.svid_shards.specs.Buckets.{differs_at, digest_at, uses_at};

use crate::bucket_digest::{BucketDigest, digest_of};
use crate::bucket_uses::live_of;
use crate::shards::{
    ROUND, SHARDS, TENDED, compact_some, drop_all_expired, insert_into, next_after, next_ahead,
    shard_holds, shard_of, tidy_some,
};
use std::alloc::{AllocError, Global};
use std::marker::Model;
use svid_replay::{Ahead, Raised, Room, RunUses, Use, UseStore};

/// A set of uses in 256 stores, by the first byte of a key. A call that looks up a key or puts in a use touches one of them, so
/// its longest call is that of a store with a 256th of the uses.
///
/// A walk looks into each of the stores once, where it begins, and then into one for each use. Expired uses are dropped from all
/// stores, but only when the moment reaches a second in which a use may expire. A call of `tidy` or `compact` works on four of
/// the stores, so 64 calls cover all. After these, `tidy` does nothing until uses may have expired again.
#[derive(Debug, Drop)]
pub struct ShardedUses<S: UseStore> {
    shards: Vec<S>,
    total: usize,
    // (no use expires before this second)
    first: u64,
    // (the numbers of the shards that are tidied and compacted next)
    next_tidied: u8,
    next_compacted: u8,
    // (so many more calls of `tidy` have shards to tidy, after uses were dropped)
    untidied: u8,
}

impl<S: UseStore> Model for ShardedUses<S> {
    ghost use Rattle.std.specs.Prelude.{map};
    ghost use Rattle.svid_replay.specs.Uses.{Uses, uses_code};
    ghost use Rattle.svid_shards.specs.Shards.{IsSharded, all_in};

    ghost Value = { Uses };

    ghost coded = { uses_code };

    ghost view = { λ s. all_in (map S.content s.shards.items) };

    ghost invariant = { λ s. IsSharded (map S.content s.shards.items) s.total s.first };
}

// As many empty stores as there are shards.
fn empty_shards(alloc: Global) -> Result<Vec<RunUses>, AllocError>
    ensures { IfOk result (λ shards. shards.items ≡ replicate 256 no_uses) }
{
    let mut shards = Vec::with_capacity(alloc, SHARDS)?;
    for _ in 0..SHARDS {
        shards.push(RunUses::new(alloc))?;
    }
    Ok(shards)
}

impl ShardedUses<RunUses> {
    /// The empty set, in 256 sets of runs.
    pub fn new(alloc: Global) -> Result<ShardedUses<RunUses>, AllocError>
        ensures { IfOk result (λ uses. uses ≡ no_uses) }
    {
        let shards = empty_shards(alloc)?;
        Ok(ShardedUses {
            shards,
            total: 0,
            first: u64::MAX,
            next_tidied: 0,
            next_compacted: 0,
            untidied: 0,
        })
    }
}

impl<S: UseStore> ShardedUses<S> {
    // The store of a bucket, which has the uses whose keys begin with this byte.
    fn bucket(&self, byte: u8) -> &S
        ensures { S.content result.now ≡ bucket byte self.now }
    {
        &self.shards[byte as usize]
    }

    /// The digest of a bucket at a moment, in seconds: over its uses that expire later, as in the summary of a record of that
    /// moment. And how many uses these are.
    ///
    /// Takes no memory, and looks into one of the stores.
    pub fn bucket_digest(&self, byte: u8, moment: u64) -> BucketDigest
        ensures { result ≡ digest_at byte moment self.now }
    {
        digest_of(self.bucket(byte), moment)
    }

    /// Whether the digest of a bucket at a moment, in seconds, differs from this one, which a summary of another set has.
    ///
    /// Takes no memory, and looks into one of the stores, at each use once.
    pub fn bucket_differs(&self, byte: u8, moment: u64, digest: &[u8; 32]) -> bool
        ensures { result ≡ differs_at byte moment digest.now self.now }
    {
        let own = self.bucket_digest(byte, moment);
        !own.digest.cmp(digest).is_eq()
    }

    /// The uses of a bucket that expire after a moment, in seconds, rising. The set stays as it is.
    ///
    /// Looks into one of the stores, at each use once. Where memory is refused it returns no uses.
    pub fn bucket_uses(&self, alloc: Global, byte: u8, moment: u64) -> Result<Vec<Use>, AllocError>
        ensures { IfOk result (λ uses. uses.items ≡ uses_at byte moment self.now) }
    {
        live_of(alloc, self.bucket(byte), moment)
    }
}

impl<S: UseStore> UseStore for ShardedUses<S> {
    ghost content = { λ s. s };

    fn insert(&mut self, new: Use) -> Result<(), AllocError> {
        if self.total == usize::MAX {
            // (nothing can be added, so only a use that is there succeeds)
            if shard_holds(&self.shards, &new) {
                return Ok(());
            }
            return Err(AllocError);
        }
        let more = insert_into(&mut self.shards, new)?;
        self.total += more;
        self.first = self.first.min(new.exp);
        Ok(())
    }

    fn compact(&mut self) {
        compact_some(&mut self.shards, self.next_compacted);
        self.next_compacted = self.next_compacted.wrapping_add(TENDED);
    }

    fn drop_expired(&mut self, moment: u64) -> Raised {
        if moment < self.first {
            return Raised { dropped: 0 };
        }
        let dropped = drop_all_expired(&mut self.shards, moment);
        self.untidied = ROUND;
        self.total -= dropped;
        self.first = moment.saturating_add(1);
        Raised { dropped }
    }

    fn tidy(&mut self) {
        if self.untidied == 0 {
            return;
        }
        self.untidied -= 1;
        tidy_some(&mut self.shards, self.next_tidied);
        self.next_tidied = self.next_tidied.wrapping_add(TENDED);
    }

    fn has(&self, key: &[u8; 32]) -> bool {
        self.shards[shard_of(key)].has(key)
    }

    fn is_withdrawn(&self, key: &[u8; 32]) -> bool {
        self.shards[shard_of(key)].is_withdrawn(key)
    }

    fn len(&self) -> usize {
        self.total
    }

    fn next_after(&self, after: Option<Use>) -> Option<Use> {
        next_after(&self.shards, after)
    }

    fn next_uses(&self, after: Option<Use>, room: &mut Room) {
        self.next_ahead(&mut Ahead::of(after), room);
    }

    /// The next uses of the set, as the trait describes. It then knows the heads, so that the next room needs only one look into
    /// a store for each use.
    fn next_ahead(&self, ahead: &mut Ahead, room: &mut Room)
        requires { IsAhead self.now ahead.old }
        ensures next { room.new ≡ next_few self.now ahead.old.after }
        ensures after { ahead.new.after ≡ last_of ahead.old.after room.new }
        ensures known { ahead.new.known ≡ true }
        ensures ahead { IsAhead self.now ahead.new }
    {
        room.clear();
        next_ahead(&self.shards, ahead, room);
    }
}
