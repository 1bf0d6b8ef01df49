//! What we prove of members that answer requests.

ghost use Rattle.svid_answers.specs.Alone.{AnsweredIsWritten, TokensAreAnsweredOnceHere};
ghost use Rattle.svid_answers.specs.BoundExamples.{BoundRunAnswers};
ghost use Rattle.svid_answers.specs.Calls.{BeginsAreEvents, ComesAreEvents, FindsAreEvents, FoundIsALook, HearsAreEvents, JoinsAreEvents, JudgesAreEvents, StoresKeepMembers};
ghost use Rattle.svid_answers.specs.CallsAlone as alone;
ghost use Rattle.svid_answers.specs.Examples.{BoundAnswers, OnceAnswers, StrictAnswers};
ghost use Rattle.svid_answers.specs.KeptExamples.{KeptRunAnswers};
ghost use Rattle.svid_answers.specs.Payloads.{PiecesTell, StartsKnow};
ghost use Rattle.svid_answers.specs.Runs.{RunsAnswerCallers, RunsAnswerOnce, RunsAnswerOneCaller};
ghost use Rattle.svid_answers.specs.RunsAlone as runs_alone;
ghost use Rattle.svid_answers.specs.RunsKept as runs_kept;
ghost use Rattle.svid_answers.specs.Promises.{AnsweredIsFound, TokensAreAnsweredOnce, TokensAreAnsweredToOneCaller, TokensAreAnsweredToOneOwner};

/// A strict group that claims tokens in stores answers at most one request for a token with 200. This counts all members over all their restarts,
/// whatever the stores lose.
pub fn tokens_are_answered_once()
    ensures { TokensAreAnsweredOnce }
{}

/// Strict or not, all claims by which one token is answered 200 have one owner. So if no two callers have one owner, they are of one caller.
pub fn tokens_are_answered_to_one_owner()
    ensures owner { TokensAreAnsweredToOneOwner }
    ensures caller { TokensAreAnsweredToOneCaller }
{}

/// A member in mode `Once` answers at most one request for a token with 200, over all its restarts, if each start reads a record that knows every
/// token that was answered 200.
pub fn tokens_are_answered_once_here()
    ensures { TokensAreAnsweredOnceHere }
{}

/// Before a group answers a request 200, the member accepted the token by a store's answer. In mode `Once` with a state folder, the use is on the
/// disk first, and a start after any crash reads it back.
pub fn answered_tokens_were_kept()
    ensures found { AnsweredIsFound }
    ensures written { AnsweredIsWritten }
    ensures read { runs_kept.AnsweredIsRead }
{}

/// What a member reports to a request about a store's answer is what a look at that answer may report. It reports that the token passes only if the
/// group accepts the token by that answer. `V` is the member's verifier.
pub fn found_is_a_look<V>()
    ensures { FoundIsALook V }
{}

/// Each call of a member in mode `Strict` or `Bound`, and each change of its record, is a sequence of allowed events of the group. Events in the
/// stores change no member. So the laws above hold for what the calls answer, call after call. `V` is the member's verifier.
pub fn calls_are_events<V>()
    ensures finds { FindsAreEvents V }
    ensures judges { JudgesAreEvents }
    ensures hears { HearsAreEvents }
    ensures comes { ComesAreEvents }
    ensures joins { JoinsAreEvents }
    ensures begins { BeginsAreEvents }
    ensures stores { StoresKeepMembers }
{}

/// Each call of a member in mode `Once`, and each change of its record, is a sequence of allowed events of that member.
pub fn calls_are_events_alone()
    ensures judges { alone.JudgesAreEvents }
    ensures hears { alone.HearsAreEvents }
    ensures comes { alone.ComesAreEvents }
    ensures joins { alone.JoinsAreEvents }
    ensures begins { alone.BeginsAreEvents }
    ensures none_claimed { alone.NoneIsClaimed }
{}

/// No token is answered 200 twice, whatever the calls, their order, and the number of restarts: by one member in mode `Once`, and by a whole group in
/// mode `Strict`, whatever its stores do. If the member has a state folder, a start needs to read only that folder. `V` is the members' verifier.
pub fn runs_answer_once<V>()
    ensures alone { runs_alone.RunsAnswerOnce }
    ensures kept { runs_kept.RunsAnswerOnce }
    ensures group { RunsAnswerOnce V }
{}

/// Whatever the calls and their order, a group in mode `Bound` answers no token 200 to two callers, unless both have one owner. In mode `Strict`,
/// too, each 200 rests on a store's answer to the claim of a caller. `V` is the members' verifier.
pub fn runs_answer_one_caller<V>()
    ensures one { RunsAnswerOneCaller V }
    ensures callers { RunsAnswerCallers V }
{}

/// The pieces of a record have each use that it knew, or a time by which the use has expired. So a state folder allows the mark that ends a snapshot
/// of these pieces, for each use. A start that joins its record with everything that it reads knows each use in it.
pub fn payloads_tell()
    ensures pieces { PiecesTell }
    ensures starts { StartsKnow }
{}

/// Some histories do answer requests 200, so these laws are not empty.
pub fn histories_happen()
    ensures strict { StrictAnswers }
    ensures bound { BoundAnswers }
    ensures once { OnceAnswers }
{}

/// Some calls do so too, of members whose validator accepts the token: for two requests of one caller in mode `Bound`, and for one in mode `Once`
/// with a state folder. `V` is the validator's verifier.
pub fn runs_happen<V>()
    ensures bound { BoundRunAnswers V }
    ensures kept { KeptRunAnswers }
{}
