//! What holds of the requests of a member over every history of calls, as contracts of functions without a body. Memory may be refused at
//! any call.

ghost use Rattle.svid_requests.specs.Promises.{AcceptedAsFound, AcceptedAsJudged, AcceptedInTime, AnswersAreFounded, CallsAreHistory, DeedsFit, EachOnce, FirstInLineIsNext, FirstIsDueFirst, NextIsJudgedAgain, NoneWaitsInVain, NothingIsLeftOver, OneHasAClaim, OverdueAreAnswered, StagesAreTold};

/// The contracts of `come` and `hear` are the steps of a history. Each deed `Answer` is an answer.
pub fn calls_are_history()
    ensures { CallsAreHistory }
{}

/// If a request arrives or moves on, the deed of that call is about it, so none is forgotten. A request that joins a line gets a deed when
/// its turn comes. A deed asks for what that request waits for.
pub fn stages_are_told()
    ensures told { StagesAreTold }
    ensures fits { DeedsFit }
{}

/// Each request that arrives is answered once, and by its deadline if the caller reports that the deadline is over. A token is accepted
/// before the deadline of its request.
pub fn each_is_answered_once()
    ensures once { EachOnce }
    ensures overdue { OverdueAreAnswered }
    ensures first { FirstIsDueFirst }
    ensures timely { AcceptedInTime }
{}

/// Each acceptance and each refusal rests on an event that was reported of that request. No more tokens are accepted than a validator
/// accepted, or had its claims found.
pub fn answers_are_founded()
    ensures founded { AnswersAreFounded }
    ensures judged { AcceptedAsJudged }
    ensures found { AcceptedAsFound }
{}

/// Of the requests with one token, at most one has the claim. Each other one waits behind an open request, and is judged again when that one
/// is answered. The table forgets a request once it is answered.
pub fn one_claims_a_token()
    ensures one { OneHasAClaim }
    ensures waits { NoneWaitsInVain }
    ensures kept { NothingIsLeftOver }
    ensures next { NextIsJudgedAgain }
    ensures first { FirstInLineIsNext }
{}
