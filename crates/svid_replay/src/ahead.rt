//! What a walk over a set of many parts keeps from one room to the next.
ghost use Rattle.std.specs.Prelude.{◌≡◌, false};
ghost use Rattle.svid_replay.specs.Batches.{last_of};
ghost use Rattle.svid_replay.specs.Uses.{Uses};
ghost use Rattle.svid_replay.specs.Walks.{IsAhead};

use crate::Use;
use crate::near::Near;

/// The position of a walk over a set, and the expiry of the next use in each bucket of the set. A bucket has the uses whose keys
/// begin with one byte. A store that is made of parts keeps this from one room to the next, and need not look into each part
/// again.
#[derive(Debug, Drop)]
pub struct Ahead {
    /// The use after which the walk goes on, or none for the first uses.
    pub after: Option<Use>,
    /// Whether the heads were looked up.
    pub known: bool,
    /// The expiry of the next use in each bucket, by the first byte of a key; none where no use is left.
    pub heads: [Option<u64>; 256],
    /// Where each of these was found.
    pub near: [Near; 256],
}

impl Ahead {
    /// A walk that begins after this use, or with the first: the heads are not known.
    pub fn of(after: Option<Use>) -> Ahead
        ensures after { result.after ≡ after }
        ensures ahead { (s : Uses) → IsAhead s result }
    {
        Ahead {
            after,
            known: false,
            heads: [None; 256],
            near: [Near::new(); 256],
        }
    }

    /// Goes on after the last of these uses, if there are any. The heads are not known then.
    pub fn pass(&mut self, uses: &[Use])
        ensures after { self.new.after ≡ last_of self.old.after uses.now }
        ensures ahead { (s : Uses) → IsAhead s self.new }
    {
        self.known = false;
        if let [.., last] = uses {
            self.after = Some(*last);
        }
    }
}
