ghost use Rattle.std.specs.Prelude.{◌≡◌};
ghost use Rattle.svid_claims.specs.Outcomes.{outcome_of};

use crate::{Outcome, Owner};

/// A claim that was put under the key of its token.
#[derive(Clone, Copy, Debug)]
pub struct Claim {
    /// Whose claim it is: an owner that tells the expiry, as those of [`Owner`] do.
    pub owner: Owner,
    /// When the token expires, in seconds.
    pub exp: u64,
}

/// What a store answers to a put.
#[derive(Clone, Copy, Debug)]
pub struct Found {
    /// The owner of the entry that the key has after the put: the one that was put, or that of an earlier put.
    pub owner: Owner,
    /// The store's time, in seconds, read at the put or after it.
    pub time: u64,
    /// The expiry up to which tokens may have been claimed before the store lost entries, in seconds, as [`deaf_after`](crate::deaf_after)
    /// tells it. 0 if the store never lost one. It is the same before the put and after it.
    pub deaf: u64,
}

impl Claim {
    /// The outcome of the claim by its store's answer to any put of the key. `lasts` is how many seconds past the store's time a token may
    /// expire, and `moment` is that of [`moment_by`](crate::moment_by), in seconds.
    ///
    /// After [`Outcome::Mine`], a validator that accepts a token once looks at its record too: if that has a use of the key that has not
    /// expired, the token is refused.
    pub fn outcome(&self, found: &Found, lasts: u64, moment: u64) -> Outcome
        ensures { result ≡ outcome_of self.now found.now lasts moment }
    {
        if found.owner.bytes.cmp(&Owner::WITHDRAWN.bytes).is_eq() {
            return Outcome::Withdrawn;
        }
        if !found.owner.bytes.cmp(&self.owner.bytes).is_eq() {
            return Outcome::Taken;
        }
        if self.exp > found.time.saturating_add(lasts) {
            return Outcome::Far;
        }
        if self.exp <= found.deaf {
            return Outcome::Deaf;
        }
        if self.exp <= moment {
            return Outcome::Expired;
        }
        Outcome::Mine
    }
}
