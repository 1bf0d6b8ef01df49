ghost use Rattle.std.specs.Prelude.{◌≡◌};
ghost use Rattle.std.specs.Ordering.{is_eq};
ghost use Rattle.svid_replay.specs.Keys.{is_in_front_of, is_left, kind_cmp, expiry_of};

use crate::Use;
use std::cmp::Ordering;

// A key and a kind: the uses of a token, or its withdrawals.
#[derive(Clone, Copy, Debug, PartialEq, Eq, PartialOrd, Ord)]
pub(crate) struct KeyKind {
    pub(crate) key: [u8; 32],
    pub(crate) withdrawn: bool,
}

// The key and the kind of a use, and its expiry.
#[derive(Clone, Copy, Debug, PartialEq, Eq, PartialOrd, Ord)]
pub(crate) struct Expiry {
    pub(crate) kind: KeyKind,
    pub(crate) exp: u64,
}

impl Expiry {
    pub(crate) fn of(used: Use) -> Expiry
        ensures { result ≡ expiry_of used }
    {
        let Use {
            exp,
            key,
            withdrawn,
            ..
        } = used;
        Expiry {
            kind: KeyKind { key, withdrawn },
            exp,
        }
    }

    // Whether it is left after everything that expired by a moment was dropped, if anything was.
    pub(crate) fn is_left(&self, expired_by: Option<u64>) -> bool
        ensures { result ≡ is_left expired_by self.now.exp }
    {
        match expired_by {
            None => true,
            Some(moment) => self.exp > moment,
        }
    }

    // Whether it comes before those of a key and kind that are left.
    pub(crate) fn is_in_front_of(&self, kind: &KeyKind, expired_by: Option<u64>) -> bool
        ensures { result ≡ is_in_front_of kind.now expired_by self.now }
    {
        match kind.cmp(&self.kind) {
            Ordering::Less => false,
            Ordering::Equal => !self.is_left(expired_by),
            Ordering::Greater => true,
        }
    }

    pub(crate) fn has_kind(&self, kind: &KeyKind) -> bool
        ensures { result ≡ is_eq (kind_cmp kind.now self.now.kind) }
    {
        kind.cmp(&self.kind).is_eq()
    }
}
