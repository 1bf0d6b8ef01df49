ghost use Rattle.std.specs.Prelude.{◌≡◌};
ghost use Rattle.svid_member.specs.Readiness.{claims_first, hears_by_claims, keeps_first};
ghost use Rattle.svid_member.specs.Modes.{adds_at_judgment, adds_at_claim, is_bound, needs_of};

use svid_requests::Needs;

/// How a member accepts tokens.
#[derive(Clone, Copy, Debug, PartialEq, Eq)]
pub enum Mode {
    /// Each once at this member. Where it has a state folder, the use is on the disk before the answer.
    Once,
    /// Each once in the whole group: the first claim in the store of the group is of this life of this member.
    Strict,
    /// Each from one caller alone, by the first claim in the store of the group.
    Bound,
    /// Each again and again.
    Reuse,
}

impl Mode {
    // What an acceptance needs, where there is a state folder or not.
    pub(crate) fn needs(self, kept: bool) -> Needs
        ensures { result ≡ needs_of self kept }
    {
        match self {
            Mode::Once if kept => Needs::Write,
            Mode::Strict | Mode::Bound => Needs::Claim,
            _ => Needs::Nothing,
        }
    }

    // Whether the record gains the use of a token as it is judged.
    pub(crate) fn adds_at_judgment(self) -> bool
        ensures { result ≡ adds_at_judgment self }
    {
        match self {
            Mode::Once => true,
            _ => false,
        }
    }

    // Whether the record gains the use of a token whose claim counts.
    pub(crate) fn adds_at_claim(self) -> bool
        ensures { result ≡ adds_at_claim self }
    {
        match self {
            Mode::Strict => true,
            _ => false,
        }
    }

    // Whether a token is claimed for its caller, and not for a life of the member.
    pub(crate) fn is_bound(self) -> bool
        ensures { result ≡ is_bound self }
    {
        match self {
            Mode::Bound => true,
            _ => false,
        }
    }

    // Whether a claim of a token tells that it was withdrawn, so that nobody reads the list.
    pub(crate) fn hears_by_claims(self) -> bool
        ensures { result ≡ hears_by_claims self }
    {
        match self {
            Mode::Strict => true,
            _ => false,
        }
    }

    // Whether a token is claimed in the store before it is answered.
    pub(crate) fn claims_first(self) -> bool
        ensures { result ≡ claims_first self }
    {
        match self {
            Mode::Strict | Mode::Bound => true,
            _ => false,
        }
    }

    // Whether an acceptance is on the disk before it is answered.
    pub(crate) fn keeps_first(self) -> bool
        ensures { result ≡ keeps_first self }
    {
        match self {
            Mode::Once => true,
            _ => false,
        }
    }
}
