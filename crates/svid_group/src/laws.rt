//! Laws of a group that reads a log, carried by functions that compute nothing.

ghost use Rattle.svid_group.specs.Audiences.{AudiencesAlone, RecordsAreTakenOver, SuccessorsGoOn};
ghost use Rattle.svid_group.specs.History.{EveryKindHappens, OwnClaimIsAccepted};
ghost use Rattle.svid_group.specs.Once.{AcceptedIsFirst, AcceptedIsHeld, AcceptedIsUnrefused, AcceptedOnce, LaterInLogIsPast, OneUseOfAKey, OnlyClaimIsAccepted, OwnIsAccepted, PositionIsAcceptedOnce};
ghost use Rattle.svid_group.specs.Reads.{ReadsAreEvents};
ghost use Rattle.svid_group.specs.Tells.{ReadsTellFirstClaims, ReadsTellNothingElse, ReadsTellWithdrawals};
ghost use Rattle.svid_group.specs.Told.{AcceptanceGoesAlong, AcceptedIsRefused, AnswersTellAll, ChainsTell, ChecksAreVerdicts, ClaimedIsRefused, EqualTellings, EventsLeaveLater, RecordsAreTold, ReportsAreExact, ReportsAreWhole, RestartsAbsorb, RestartsPutBack, SendsMakeEqual, SendsTellAll, ToldIsRefused, ToldWereMade, TwoValidatorsAreReported, WithMemoryVerdicts, WithdrawnAreRefused};
ghost use Rattle.svid_group.specs.Verdicts.{ClaimsAreVerdicts, InputIsAcceptedOnce, JudgedAreVerdicts, RenewedAreVerdicts};

/// Whatever happens in a group, of all claims with one key and one expiry at most one is ever accepted, by one validator, once; and
/// of two accepted claims of one key the first in the log has expired at the moment of the validator that accepts the other.
pub fn groups_accept_once()
    ensures once { AcceptedOnce }
    ensures position { PositionIsAcceptedOnce }
    ensures later { LaterInLogIsPast }
{}

/// An accepted claim is live, all uses of its key before it in the log have expired, and nothing refused it. The record has it then, and
/// the validator has learned it.
pub fn accepted_claims_are_first()
    ensures first { AcceptedIsFirst }
    ensures held { AcceptedIsHeld }
    ensures unrefused { AcceptedIsUnrefused }
{}

/// A validator accepts its own claim where all uses of the key in front of it in the log have expired, if its record does not
/// refuse the key, or no event outside of the log added a use of the key to a record.
pub fn own_claims_are_accepted()
    ensures own { OwnIsAccepted }
    ensures only { OnlyClaimIsAccepted }
{}

/// If no event outside of the log adds a use of a key to a record, each record has at most one use of that key, beside withdrawals.
pub fn records_have_first_claims()
    ensures { OneUseOfAKey }
{}

/// Each validator's record is exactly what it has learned, by the log and outside of it: the greatest moment, and the uses that are live
/// at it. Each check answers the verdict for that record, acceptance or refusal, or that it is out of memory. If no memory is refused, it
/// answers the verdict. Validators learn only what a check of the group accepted, a validator of it withdrew, or somebody put into the
/// log. Validators that have learned the same have the same record. If a validator has learned no more than a sender, and takes its send
/// whole with no other event of its own in between, it then knows exactly what the sender knew.
pub fn records_are_told()
    ensures records { RecordsAreTold }
    ensures checks { ChecksAreVerdicts }
    ensures verdicts { WithMemoryVerdicts }
    ensures made { ToldWereMade }
    ensures equal { EqualTellings }
    ensures taken { SendsMakeEqual }
{}

/// A validator that has learned a use accepts no token with its key and its expiry, at any moment. That includes a claim of the log that
/// its record gained, an acceptance, and everything that came along a chain of records taken whole. A check accepts no token if a live
/// withdrawal of its key was learned.
///
/// With a log, a use that was learned need not have been accepted by a check: the request of a claim may never have been answered.
/// [`accepted_claims_are_first`] and [`records_have_first_claims`] are about the uses that come from the log.
pub fn told_tokens_are_refused()
    ensures told { ToldIsRefused }
    ensures claimed { ClaimedIsRefused }
    ensures accepted { AcceptedIsRefused }
    ensures withdrawn { WithdrawnAreRefused }
    ensures whole { SendsTellAll }
    ensures chains { ChainsTell }
    ensures along { AcceptanceGoesAlong }
{}

/// A report lists exactly the keys with two different live uses that were learned, withdrawals aside, each with all of these. If one
/// signing input was accepted at two validator IDs, every validator that learned both uses reports it until it expires.
pub fn reports_are_exact()
    ensures exact { ReportsAreExact }
    ensures whole { ReportsAreWhole }
    ensures validators { TwoValidatorsAreReported }
{}

/// A new record that absorbs all parts of a saved record is that record. A restart puts back that record, what had been told, and
/// what stood beside the record: the validator reads the log on from there, and accepts nothing until it is behind all that it may
/// have read before.
pub fn restarts_absorb()
    ensures parts { RestartsAbsorb }
    ensures put_back { RestartsPutBack }
{}

/// A validator that made a summary and took all parts of an answer to it has learned all uses that the answerer had learned by then,
/// including those of the log. The only exception is a collision: a bucket of the validator at the summary and that of the answerer at the
/// answer are different texts with one digest. Fields have their ranges.
pub fn answers_tell_all()
    ensures { AnswersTellAll }
{}

/// Each event leaves a later record, except a restart and a fresh start with an empty record. So any number of them may come between the
/// pieces of a save, as in `saves_lose_nothing` of svid_check.
pub fn records_go_on()
    ensures { EventsLeaveLater }
{}

/// What svid_log's `Member::read` does with the record of a validator of a group, the same number of events does too, including gaps and
/// refused memory. What it accepts, the group accepts; the converse holds too in a value that no earlier life has read. Other calls of a
/// validator are events `Call`, by `calls_are_events` of svid_check. Its clauses hold for any group, except for saves, which
/// [`restarts_absorb`] is about.
pub fn reads_are_events()
    ensures { ReadsAreEvents }
{}

/// Reading a use that is neither early nor expired, a validator learns a withdrawal. It learns a claim if each use of its key that it has
/// learned, or that is before the claim in the log, has expired. It learns no other use, and no claim while it knows a live use of its
/// key.
pub fn reads_tell()
    ensures withdrawals { ReadsTellWithdrawals }
    ensures claims { ReadsTellFirstClaims }
    ensures only { ReadsTellNothingElse }
{}

/// If a claim is accepted, the definition accepts its token, at the moment and by the uses at which the claim is judged. The premises: the
/// token was judged to be accepted, at a moment that is no later, and the setting is the same. Both hold if its validator judged the
/// token, and continued without a restart, a fresh start or a renewal. After a renewal, judge the token once more before the read.
pub fn accepted_claims_are_verdicts()
    ensures claims { ClaimsAreVerdicts }
    ensures judged { JudgedAreVerdicts }
    ensures renewed { RenewedAreVerdicts }
{}

/// A validator may get other audiences, by a renewal that leaves its bundles, its verifier, its record and all else as they are. So
/// each law of this module speaks of such changes too, and a check asks for the audiences of its moment. A new validator that takes all
/// parts of a record, or all pieces of it, has that record. If it has the new audiences, and reads the log on from where the old one is,
/// it is what this event leaves.
pub fn audiences_change_alone()
    ensures alone { AudiencesAlone }
    ensures records { RecordsAreTakenOver }
    ensures successors { SuccessorsGoOn }
{}

/// Of one signing input a group accepts one claim at most, whoever made the claims, and however its tokens were judged.
pub fn inputs_are_accepted_once()
    ensures { InputIsAcceptedOnce }
{}

/// In any group, a new validator that judges a token to be accepted accepts the token's claim, where that is the first use of the log.
/// And in one history each kind of event happens, is to be seen, and a claim is accepted: so the laws of a group with a log speak of
/// something.
pub fn every_kind_happens()
    ensures own { OwnClaimIsAccepted }
    ensures all { EveryKindHappens }
{}
