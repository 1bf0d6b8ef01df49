//! Laws of the verdicts, of runs, and of a group of validators, carried by functions that compute
//! nothing.

ghost use Rattle.svid_check.specs.Bounds.{AnswersAreBounded, ChecksAreBounded, RecordTakesAreBounded, RecordsAreBounded, RunsAreBounded, TakesAreBounded, TicksAreBounded, WithdrawalsAreBounded};
ghost use Rattle.svid_check.specs.Calls.{AnswersTellMoments, ChecksAreSteps, RecordTakesAreSteps, RecordsGoOn, RunsGoOn, TakesAreSteps, TicksAreSteps, WithdrawalsAreSteps};
ghost use Rattle.svid_check.specs.Alone.{AcceptsOnce, AnswersAreCalls, ChecksAreCalls, RecordTakesAreCalls, TakesAreCalls, TicksAreCalls, WithdrawalsAreCalls};
ghost use Rattle.svid_check.specs.Changes.{RecordTakesAreTakes};
ghost use Rattle.svid_check.specs.Events.{AnswersAreEvents, ChecksAreEvents, JudgmentsAgainAreTicks, JudgmentsAreTicks, PiecesAreEvents, RenewalsAreEvents, SavesAreEvents, SendsAreEvents, SumsAreEvents, TakesAreEvents, TicksAreEvents, WithdrawalsAreEvents};
ghost use Rattle.svid_check.specs.Forgetful.{AnswersAreForgotten, SendsAreForgotten};
ghost use Rattle.svid_check.specs.Headline.{AcceptanceGoesAlong, AcceptanceTells, AcceptedIsRefused, AnswersTellAll, ChainsTell, ChecksAreVerdicts, EqualTellings, RecordsAreTold, ReportedWereAcceptedTwice, ReportsAreExact, ReportsAreWhole, RestartsAbsorb, RestartsPutBack, SendsMakeEqual, SendsTellAll, ToldIsRefused, ToldWereAccepted, ToldWereWithdrawn, TwoValidatorsAreReported, WithMemoryVerdicts, WithdrawnAreRefused};
ghost use Rattle.svid_check.specs.History.{EveryKindHappens};
ghost use Rattle.svid_check.specs.Lawful.{IsAlive, IsFresh, IsInRange, IsMadeNow, IsOfItsInput, IsUsed};
ghost use Rattle.svid_check.specs.RunEvents.{RecordTakesAreEvents, RunsAreEvents};
ghost use Rattle.svid_check.specs.Said.{ReadTokensHaveTheirForm, UnrefusedIsSaid};
ghost use Rattle.svid_check.specs.SaveEvents.{CallsLeaveLater, EventsLeaveLater, PiecesAreSaved, RestartsFromPieces};
ghost use Rattle.svid_check.specs.Saves.{LaterGoesOn, SavesAddNothing, SavesLoseNothing};
ghost use Rattle.svid_check.specs.Table.{TableIsOneList};
ghost use Rattle.svid_check.specs.Told.{BeginsAsGiven};
ghost use Rattle.svid_check.specs.Verdict.{AcceptedAreJudgedAgain, AcceptsNoSilence, ReadTokensHaveTheirVerdict};
ghost use Rattle.svid_check.specs.Verifiers.{FindingsStand, OtherFindingsAreNone, TablesStand};
ghost use Rattle.svid_check.specs.Walks.{WalksTellAll};

/// A token that nothing refuses by itself says all that must be there, so that no verdict is 'accepted'
/// of a token that does not.
pub fn accepted_tokens_say_all()
    ensures said { UnrefusedIsSaid }
    ensures accepted { AcceptsNoSilence }
{}

/// A check of a token that was read before is a check of that token: the verdict is the same, and no refusal of its form is left out.
pub fn read_tokens_are_checked_alike()
    ensures verdict { ReadTokensHaveTheirVerdict }
    ensures form { ReadTokensHaveTheirForm }
{}

/// The table of refusals of a token that says all that must be there is one list.
pub fn the_table_is_one_list()
    ensures { TableIsOneList }
{}

/// What validators that share their records rely on, whatever their settings: each use that an
/// acceptance adds is no withdrawal, is of the record's moment and expires later, no use that is held has its key, one
/// signing input gives one key and one expiry, and the use's fields have their ranges.
pub fn verdicts_are_lawful()
    ensures made_now { IsMadeNow }
    ensures used { IsUsed }
    ensures alive { IsAlive }
    ensures fresh { IsFresh }
    ensures of_its_input { IsOfItsInput }
    ensures in_range { IsInRange }
{}

/// Once a token was accepted, or judged so, its key and when it expires tell each later verdict on it: while audiences,
/// trust bundles, verifier and longest life stay, it can only expire, be withdrawn or be used.
pub fn accepted_tokens_are_judged_again()
    ensures { AcceptedAreJudgedAgain }
{}

/// A validator that begins with a record begins as one that has learned the record's moment and its uses.
pub fn validators_begin_as_given()
    ensures { BeginsAsGiven }
{}

/// Each check, tick, take and withdrawal, answered and leaving the record as the call's contract says, is
/// a run of one event.
pub fn calls_are_steps()
    ensures checks { ChecksAreSteps }
    ensures ticks { TicksAreSteps }
    ensures takes { TakesAreSteps }
    ensures records { RecordTakesAreSteps }
    ensures withdrawals { WithdrawalsAreSteps }
{}

/// An answer to a summary is no event of a run: the validator learns only a moment, and its record stays the record of everything that it
/// has learned.
pub fn answers_tell_moments()
    ensures { AnswersTellMoments }
{}

/// Taking a whole record is taking one batch of its moment with all of its uses in their order, whatever the answer.
pub fn records_are_batches()
    ensures { RecordTakesAreTakes }
{}

/// A judgment is a tick, for the record and so for the group. One of a token is answered as a check would be, and one of
/// the use of an accepted token by what the record then has.
pub fn judgments_are_ticks()
    ensures judged { JudgmentsAreTicks }
    ensures judged_again { JudgmentsAgainAreTicks }
{}

/// Two runs, one after the other, are one run of both lists of events. This holds for what a validator learned, and for the records before
/// and after.
pub fn runs_go_on()
    ensures told { RunsGoOn }
    ensures records { RecordsGoOn }
{}

/// No call leaves the record's moment past both its old moment and the call's moment plus `ahead` (at most 2^64-1).
pub fn calls_are_bounded()
    ensures checks { ChecksAreBounded }
    ensures ticks { TicksAreBounded }
    ensures takes { TakesAreBounded }
    ensures records { RecordTakesAreBounded }
    ensures answers { AnswersAreBounded }
    ensures withdrawals { WithdrawalsAreBounded }
{}

/// Nor does a run, by the greatest moment of its events. This holds for what a validator learned, and for the records before and after.
pub fn runs_are_bounded()
    ensures told { RunsAreBounded }
    ensures records { RecordsAreBounded }
{}

/// Each validator's record is exactly what it has learned: the greatest moment, and the uses that are live at it. Each check answers the
/// verdict for that record, acceptance or refusal, or that it is out of memory. If no memory is refused, it answers the verdict.
pub fn records_are_told()
    ensures records { RecordsAreTold }
    ensures checks { ChecksAreVerdicts }
    ensures verdicts { WithMemoryVerdicts }
{}

/// Validators that have learned the same have the same record, the same parts and the same texts. If a validator has learned no more than
/// the sender of a record, and takes all parts with no other event of its own in between, it then knows exactly the uses that the sender
/// knew.
pub fn equal_tellings_give_equal_records()
    ensures equal { EqualTellings }
    ensures taken { SendsMakeEqual }
{}

/// A validator that took all parts of a record has learned all uses that the sender had learned by then, including expired ones. So it is
/// along every chain of records taken whole. It accepts no token, at any moment, if it has learned a use of its
/// signing input. A validator learns each use that its own check accepts, so acceptances pass along every such
/// chain.
pub fn sends_tell_all()
    ensures whole { SendsTellAll }
    ensures chains { ChainsTell }
    ensures refused { ToldIsRefused }
    ensures accepted { AcceptedIsRefused }
    ensures first { AcceptanceTells }
    ensures along { AcceptanceGoesAlong }
{}

/// One validator, from any state and with any messages, accepts one signing input at most once, unless
/// a save from before the acceptance is put back.
pub fn tokens_are_accepted_once()
    ensures { AcceptsOnce }
{}

/// A check accepts no token if a live withdrawal of its key was learned.
pub fn withdrawn_tokens_are_refused()
    ensures { WithdrawnAreRefused }
{}

/// A report lists exactly the keys with two different live uses that were learned, withdrawals aside, each with all of these. Each use that
/// was learned was accepted by a check of the group, and each withdrawal was made by a validator of it. If one signing input was accepted at
/// two validator IDs, every validator that learned both uses reports it until it expires.
pub fn reports_are_exact()
    ensures exact { ReportsAreExact }
    ensures whole { ReportsAreWhole }
    ensures accepted { ToldWereAccepted }
    ensures withdrawn { ToldWereWithdrawn }
    ensures twice { ReportedWereAcceptedTwice }
    ensures validators { TwoValidatorsAreReported }
{}

/// A new record that absorbs all parts of a saved record is that record; and a restart puts back that
/// record, what had been told, and the log.
pub fn restarts_absorb()
    ensures parts { RestartsAbsorb }
    ensures put_back { RestartsPutBack }
{}

/// A validator that made a summary and took all parts of an answer to it has learned all uses that the answerer had learned by then. The
/// only exception is a collision: a bucket of the validator at the summary and that of the answerer at the answer are different texts with
/// one digest. Validator IDs have 16 bytes, the keys of withdrawals 32, and moments and their expiries are below 2^64.
pub fn answers_tell_all()
    ensures { AnswersTellAll }
{}

/// So it is where a summary and its answer are made bucket by bucket, and both records change in between: whoever takes all that was written
/// has each use that the answerer had when it began, while that is live, or two texts of a bucket have one digest. What the answerer's
/// record gained since, it has or lacks.
pub fn walks_tell_all()
    ensures { WalksTellAll }
{}

/// A restart puts a log back with its record, as a save holds both: where a restart left the log as it
/// was, a validator whose log has a whole record, or a summary and its whole answer, need not have been
/// told what the other had been.
pub fn logs_go_back_with_their_saves()
    ensures sends { SendsAreForgotten }
    ensures answers { AnswersAreForgotten }
{}

/// Whatever the contract of a call allows, its event in a group does, for some memory that was
/// refused: to the validator's record, to its log, and to what is posted.
pub fn calls_are_events()
    ensures checks { ChecksAreEvents }
    ensures ticks { TicksAreEvents }
    ensures takes { TakesAreEvents }
    ensures records { RecordTakesAreEvents }
    ensures answers { AnswersAreEvents }
    ensures sends { SendsAreEvents }
    ensures sums { SumsAreEvents }
    ensures withdrawals { WithdrawalsAreEvents }
    ensures renewals { RenewalsAreEvents }
    ensures saves { SavesAreEvents }
    ensures pieces { PiecesAreEvents }
{}

/// So it is with the calls of one validator by itself, with any batch and any summary.
pub fn calls_stand_alone()
    ensures checks { ChecksAreCalls }
    ensures ticks { TicksAreCalls }
    ensures takes { TakesAreCalls }
    ensures records { RecordTakesAreCalls }
    ensures answers { AnswersAreCalls }
    ensures withdrawals { WithdrawalsAreCalls }
{}

/// A table of questions stands for a verifier on a token: if of the token's candidates it has the questions of
/// just those whose signature the verifier says is good, the verdict by the table is the verdict by the verifier.
pub fn tables_stand_for_verifiers()
    ensures { TablesStand }
{}

/// A finding (a key, the bytes that are signed, and the signature) stands for a verifier on the token that it is of: the verdict by it
/// is the verdict by each verifier that says yes of that key. On any other token it is no answer, and neither is it where the key is no
/// candidate, or has no text: the verdict is the one where no key made the signature.
pub fn findings_stand_for_verifiers()
    ensures stands { FindingsStand }
    ensures other { OtherFindingsAreNone }
{}

/// A record that is saved piece by piece, with other calls in between, loses nothing: the batches together have each use that it had at the
/// first piece and that is still live at the last. They have no use that the record does not have at the last. They may have or lack what
/// was added in between. Each call and each event but a restart leaves a later record, so any number of them may come in between.
pub fn saves_lose_nothing()
    ensures pieces { SavesLoseNothing }
    ensures no_more { SavesAddNothing }
    ensures calls { CallsLeaveLater }
    ensures events { EventsLeaveLater }
    ensures on { LaterGoesOn }
{}

/// In a group, the pieces of a record are such a save, whatever happens in between but a restart. To restart from
/// them is to restart from a save that was made when they began, and to take each of them: so all laws of the group
/// hold of it, and what was accepted after they began may be lost.
pub fn pieces_are_saves()
    ensures saved { PiecesAreSaved }
    ensures restarts { RestartsFromPieces }
{}

/// A run of a validator of a group is a list of events of the group, with the same answers and the same record at the end, if each batch
/// that it takes was posted. So the laws of the group hold for [`Validator::run`](crate::Validator::run).
pub fn runs_are_events()
    ensures { RunsAreEvents }
{}

/// In one history each kind of event happens, and is to be seen: wherever a new validator accepts a token, the laws of a
/// group speak of something.
pub fn every_kind_happens()
    ensures { EveryKindHappens }
{}
