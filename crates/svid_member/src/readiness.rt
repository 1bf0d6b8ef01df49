ghost use Rattle.std.specs.Prelude.{◌≡◌};
ghost use Rattle.svid_member.specs.Readiness.{blocks, doubt_rows, doubts, first_reason};

use crate::mode::Mode;
use crate::unready::Unready;

/// What a member has to know before it judges tokens, and what speaks against sending it some.
#[derive(Clone, Copy, Debug)]
pub struct Readiness {
    /// It has a trust bundle.
    pub bundled: bool,
    /// Its state folder is read, or it has none.
    pub loaded: bool,
    /// The store of the group was reached, or it has none.
    pub opened: bool,
    /// The store's withdrawals were read to the end once, or it has no store.
    pub heard: bool,
    /// The broker of the group was reached, or it has none.
    pub joined: bool,
    /// What the group had is read, or it has no broker.
    pub caught_up: bool,
    /// It is to end soon.
    pub draining: bool,
    /// Its clock went ahead too far at once.
    pub jumped: bool,
    /// The state folder did not take the last acceptance.
    pub unkept: bool,
    /// The state folder has no room for another acceptance.
    pub full: bool,
    /// The store has not answered for longer than a request waits.
    pub away: bool,
    /// The store has lost entries, so that no token is accepted that lives as long as it may.
    pub deaf: bool,
    /// It has ended.
    pub ended: bool,
}

impl Readiness {
    /// Why no token is judged, if none is: what may say that one was used or withdrawn is not read yet. In mode `Strict` the store says of each token
    /// whether it was withdrawn.
    pub fn blocks(&self, mode: Mode) -> Option<Unready>
        ensures { result ≡ blocks self.now mode }
    {
        if self.ended {
            return Some(Unready::Ended);
        }
        if !self.bundled {
            return Some(Unready::NoBundle);
        }
        if !self.loaded {
            return Some(Unready::Loading);
        }
        if !self.opened {
            return Some(Unready::StoreUnreached);
        }
        if !self.heard && !mode.hears_by_claims() {
            return Some(Unready::WithdrawalsUnread);
        }
        if !self.joined {
            return Some(Unready::BrokerUnreached);
        }
        if !self.caught_up {
            return Some(Unready::GroupUnread);
        }
        None
    }

    // What speaks against sending tokens to a member that judges them.
    fn doubt(&self, mode: Mode) -> Option<Unready>
        ensures { result ≡ first_reason (doubt_rows self.now mode) }
    {
        if self.draining {
            return Some(Unready::Draining);
        }
        if self.jumped {
            return Some(Unready::Jumped);
        }
        if mode.keeps_first() && (self.unkept || self.full) {
            return Some(Unready::KeepsNothing);
        }
        if mode.claims_first() && self.away {
            return Some(Unready::StoreAway);
        }
        if mode.claims_first() && self.deaf {
            return Some(Unready::Deaf);
        }
        None
    }

    /// Why no tokens are to be sent to the member, if none are.
    pub fn doubts(&self, mode: Mode) -> Option<Unready>
        ensures { result ≡ doubts self.now mode }
    {
        match self.blocks(mode) {
            Some(reason) => Some(reason),
            None => self.doubt(mode),
        }
    }
}
