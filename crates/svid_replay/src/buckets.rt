ghost use Rattle.std.specs.Prelude.{◌≡◌, ◌∷◌, [], ◌++◌, ℕ, List};
ghost use Rattle.sha2.specs.Sha256.{sha256};
ghost use Rattle.svid_replay.specs.declared.token_use.Use.{Use};
ghost use Rattle.svid_replay.specs.Buckets.{bucket_of, differ_at, digests_of};
ghost use Rattle.svid_replay.specs.Hashers.{HoldBuckets, HoldsText, digests_in};
ghost use Rattle.svid_replay.specs.Use.{text_of};

use crate::store::UseStore;
use crate::{Record, Summary, Use};
use sha2::{Digest, Sha256};
use std::array;

// No hasher for any bucket: one is made when the first use of its bucket comes.
fn new_hashers() -> [Option<Sha256>; 256]
    ensures { HoldBuckets result [] }
{
    array::from_fn(|_| None)
}

fn feed(slot: &mut Option<Sha256>, used: &Use)
    ensures { (text : List ℕ) → HoldsText slot.old text → HoldsText slot.new (text ++ text_of used.now) }
{
    let text = used.text();
    match slot {
        None => *slot = Some(Sha256::new_with_prefix(&text)),
        Some(hasher) => hasher.update(&text),
    }
}

fn bucket_of(used: &Use) -> u8
    ensures { result ≡ bucket_of used.now }
{
    used.key[0]
}

// Feeds the use to the hasher of its bucket.
fn take_use(hashers: &mut [Option<Sha256>; 256], used: &Use)
    ensures { (us : List Use) → HoldBuckets hashers.old us → HoldBuckets hashers.new (us ++ used.now ∷ []) }
{
    feed(&mut hashers[bucket_of(used) as usize], used);
}

fn empty_digest() -> [u8; 32]
    ensures { result ≡ sha256 [] }
{
    Sha256::new().finalize()
}

// The digest of the text in a slot. Leaves the slot empty.
fn finish(slot: &mut Option<Sha256>, empty: &[u8; 32]) -> [u8; 32]
    ensures { (text : List ℕ) → empty.now ≡ sha256 [] → HoldsText slot.old text → result ≡ sha256 text }
{
    match slot.take() {
        None => *empty,
        Some(hasher) => hasher.finalize(),
    }
}

// Makes the digest of no bytes once, however many buckets have no use.
fn finish_all(hashers: &mut [Option<Sha256>; 256]) -> [[u8; 32]; 256]
    ensures { (us : List Use) → HoldBuckets hashers.old us → result ≡ digests_in us }
{
    let empty = empty_digest();
    let mut digests = [empty; 256];
    for bucket in 0..256 {
        digests[bucket] = finish(&mut hashers[bucket], &empty);
    }
    digests
}

// The digests of the buckets 0 to 255, in one pass over the uses.
pub(crate) fn digests_of<S: UseStore>(whole: &Record<S>) -> [[u8; 32]; 256]
    ensures { result ≡ digests_of whole.now.uses }
{
    let mut hashers = new_hashers();
    for used in whole.walk() {
        take_use(&mut hashers, &used);
    }
    finish_all(&mut hashers)
}

// Whether the digest of the use's bucket differs from the summary's.
pub(crate) fn differs(digests: &[[u8; 32]; 256], summary: &Summary, used: &Use) -> bool
    ensures { result ≡ differ_at digests.now summary.now.digests used.now }
{
    let bucket = bucket_of(used);
    !digests[bucket as usize].cmp(summary.digest(bucket)).is_eq()
}
