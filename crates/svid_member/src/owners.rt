ghost use Rattle.std.specs.Prelude.{◌≡◌, ◌<◌};
ghost use Rattle.svid_claims.specs.Owners.{owner_of_caller};
ghost use Rattle.svid_member.specs.Owners.{IsOwner};

use std::alloc::Global;
use std::marker::Model;
use svid_claims::Owner;

// How many owners are kept.
const MOST: usize = 1024;

/// The owner of a caller for an expiry, as it was digested.
#[derive(Clone, Copy, Debug)]
pub(crate) struct Digested {
    pub caller: [u8; 32],
    pub exp: u64,
    pub owner: Owner,
}

// The owner of a caller for an expiry.
fn digest(caller: &[u8; 32], exp: u64) -> Digested
    ensures is { (result.caller ≡ caller.now) × (result.exp ≡ exp) }
    ensures owner { IsOwner result }
{
    Digested {
        caller: *caller,
        exp,
        owner: Owner::of_caller(caller, exp),
    }
}

// Where the owner of a caller and an expiry is kept.
fn index(caller: &[u8; 32], exp: u64) -> usize
    ensures { result < 1024 }
{
    let [first, second, ..] = *caller;
    let mixed = exp % 1024 + u64::from(first) + u64::from(second) * 256;
    (mixed % 1024) as usize
}

/// Owners of callers that were digested before, so that those which come often are not digested each time. Contracts see nothing of it.
#[derive(Drop)]
pub(crate) struct Owners {
    alloc: Global,
    kept: Vec<Digested>,
}

impl Model for Owners {
    ghost use Rattle.svid_member.specs.Owners.{AreOwners};

    ghost Value = { Unit {0} };

    ghost view = { λ _. tt };

    ghost invariant = { λ o. AreOwners o.kept.items };
}

impl Owners {
    /// None. Allocates nothing.
    pub fn new(alloc: Global) -> Owners {
        Owners {
            alloc,
            kept: Vec::new(alloc),
        }
    }

    // Keeps an owner, and forgets the one that its slot had. (If memory is refused, each is digested.)
    fn keep(&mut self, at: usize, one: Digested)
        requires { IsOwner one }
    {
        if at < self.kept.len() {
            self.kept[at] = one;
            return;
        }
        if let Ok(kept) = vec![in self.alloc; one; MOST] {
            self.kept = kept;
        }
    }

    /// The owner of a caller for an expiry. Takes memory for all that are kept when the first one is.
    pub fn of_caller(&mut self, caller: &[u8; 32], exp: u64) -> Owner
        ensures { result.bytes ≡ owner_of_caller caller.now exp }
    {
        let at = index(caller, exp);
        if at < self.kept.len() {
            let one = self.kept[at];
            if one.exp == exp && one.caller == *caller {
                return one.owner;
            }
        }
        let one = digest(caller, exp);
        self.keep(at, one);
        one.owner
    }
}
