//! Laws of a group that claims tokens at stores, carried by functions that compute nothing.

ghost use Rattle.svid_claims.specs.Alone.{LoneIsAccepted, UnclaimedIsOpen};
ghost use Rattle.svid_claims.specs.Calls.{AnswersAreEvents, EndsAreEvents};
ghost use Rattle.svid_claims.specs.Expiries.{OwnersTellExpiries};
ghost use Rattle.svid_claims.specs.Histories.{HistoriesSay};
ghost use Rattle.svid_claims.specs.Once.{AcceptedIsFound, AcceptedOnce, HasOneOwner, LaterIsPast, WithdrawnIsRefused};

/// Whatever happens in a group, all acceptances of one key and one expiry are of one owner's claim; and in a strict group there is one
/// acceptance at most. Of two claims of a key that are accepted in one epoch, the first has expired where the other is accepted.
pub fn groups_accept_once()
    ensures owner { HasOneOwner }
    ensures once { AcceptedOnce }
    ensures later { LaterIsPast }
{}

/// A withdrawal that a store answered stands against each later acceptance; and whoever withdraws a token that was accepted hears so.
pub fn withdrawals_stand()
    ensures refused { WithdrawnIsRefused }
    ensures found { AcceptedIsFound }
{}

/// A claim is accepted where nothing of its key stands in the store, and so where nothing of its key was put.
pub fn lone_claims_are_accepted()
    ensures accepted { LoneIsAccepted }
    ensures unclaimed { UnclaimedIsOpen }
{}

/// Where the owner of each entry tells its expiry, as a digest of both does, an answer that found an owner found its expiry: so a store need
/// not show it.
pub fn owners_tell_expiries()
    ensures { OwnersTellExpiries }
{}

/// What [`Claim::outcome`](crate::Claim::outcome) answers is what the group accepts, and what [`deaf_after`](crate::deaf_after) computes is what an
/// epoch may begin with: so the other laws hold of both.
pub fn calls_are_events()
    ensures answers { AnswersAreEvents }
    ensures ends { EndsAreEvents }
{}

/// Histories in which claims are accepted and refused, also after a loss, so that the laws speak of something; and histories in which a premise
/// of a law is missing, and so is what it says.
pub fn histories_happen()
    ensures { HistoriesSay }
{}
