//! Laws of a group that reads one log. Each is the contract of a function with an empty body.

ghost use Rattle.svid_log.specs.Calls.{ReadsAreEvents};
ghost use Rattle.svid_log.specs.Once.{AcceptedIsFirst, AcceptedIsHeld, AcceptedIsUnrefused, AcceptedOnce, LaterInLogIsPast, OneUseOfAKey, OnlyClaimIsAccepted, OwnIsAccepted, PositionIsAcceptedOnce};
ghost use Rattle.svid_log.specs.Saves.{LooksAreEvents, NewAreEvents, RestartsAreEvents, SavesPutBack};
ghost use Rattle.svid_log.specs.Values.{ValuesAreRead, ValuesHaveOneReading};

/// Whatever happens in a group, at most one of all claims with one key and one expiry is ever accepted, by one member, once. And
/// of two accepted claims of one key, the first in the log has expired when the other member accepts the second.
pub fn groups_accept_once()
    ensures once { AcceptedOnce }
    ensures position { PositionIsAcceptedOnce }
    ensures later { LaterInLogIsPast }
{}

/// An accepted claim is live, all earlier uses of its key in the log have expired, and nothing refused it. The record then has
/// it.
pub fn accepted_claims_are_first()
    ensures first { AcceptedIsFirst }
    ensures held { AcceptedIsHeld }
    ensures unrefused { AcceptedIsUnrefused }
{}

/// A member accepts its own claim where all earlier uses of the key in the log have expired, if its record does not refuse the
/// key, or if no use of the key came from outside the log.
pub fn own_claims_are_accepted()
    ensures own { OwnIsAccepted }
    ensures only { OnlyClaimIsAccepted }
{}

/// Where no use of a key comes from outside the log, a member's record has at most one use of it, beside withdrawals.
pub fn records_have_first_claims()
    ensures { OneUseOfAKey }
{}

/// [`Member::read`](crate::Member::read) does with a value what as many events of a group do, and a use that it accepts is
/// accepted there: so the other laws hold of members. Where the member had missed values, the premise is that their uses expire
/// by the moment until which it accepts nothing.
pub fn reads_are_events()
    ensures { ReadsAreEvents }
{}

/// A member that is new, that is restored from a save, or that is asked for a key, is in a state that the events of a group give.
pub fn lives_are_events()
    ensures new { NewAreEvents }
    ensures restart { RestartsAreEvents }
    ensures look { LooksAreEvents }
{}

/// The uses beside a record are saved as batches. The text of these, one after the other, is a value whose uses restore them.
pub fn saves_put_back()
    ensures { SavesPutBack }
{}

/// Every reader finds the same uses in the bytes of a value, so that a log of bytes is one log of uses for all.
pub fn values_are_read_alike()
    ensures uses { ValuesHaveOneReading }
    ensures log { ValuesAreRead }
{}
