//! Laws of the definitions that this crate's contracts cite. Each is the contract of a function with an empty body, so that the
//! check proves it like any other promise.

ghost use Rattle.svid_replay.specs.Buckets.{AnswerIsBatches, BucketHoldsItsUses, OwnSummaryAsksNothing, RaisedIsRecord, StaleHoldsDiffering};
ghost use Rattle.svid_replay.specs.Parts.{CutGivesParts, PartsAreBatches, PartsGiveRecord, SamePartsSameRecord};
ghost use Rattle.svid_replay.specs.Records.{JoinHoldsUnexpired, JoinIsAssociative, JoinIsClosed, JoinIsCommutative, JoinIsIdempotent};
ghost use Rattle.svid_replay.specs.Use.{OrderIsTextOrder};
ghost use Rattle.svid_replay.specs.Uses.{LiveHoldsUnexpired, NoUsesHoldNone, RisingHasHeld, SameHeldSameSet, UnionHoldsEither, WithHoldsOneMore};

/// Uses are ordered as their texts of 65 bytes are.
pub fn use_order_is_text_order()
    ensures { OrderIsTextOrder }
{}

/// What each operation on sets of uses holds: nothing, one use more, what either set holds, what a set holds and expires after a
/// moment. A set's rising list has what the set holds.
pub fn sets_hold()
    ensures none { NoUsesHoldNone }
    ensures with { WithHoldsOneMore }
    ensures union { UnionHoldsEither }
    ensures live { LiveHoldsUnexpired }
    ensures rising { RisingHasHeld }
{}

/// Sets that hold the same uses are equal.
pub fn sets_are_what_they_hold()
    ensures { SameHeldSameSet }
{}

/// A join holds what either record holds and expires after the greater moment.
pub fn joins_hold()
    ensures { JoinHoldsUnexpired }
{}

/// Records may be joined in any order, any number of times, and a join of records is a record.
pub fn records_join()
    ensures commutative { JoinIsCommutative }
    ensures associative { JoinIsAssociative }
    ensures idempotent { JoinIsIdempotent }
    ensures closed { JoinIsClosed }
{}

/// Uses are cut into batches that hold all of them in their order: 65,536 in each but the last.
pub fn uses_are_cut_into_full_batches()
    ensures { CutGivesParts }
{}

/// The parts of a record are batches that carry all of it: records with the same parts are the same, and a new record that
/// absorbs all parts of a record is that record.
pub fn parts_tell_the_record()
    ensures batches { PartsAreBatches }
    ensures same { SamePartsSameRecord }
    ensures absorbed { PartsGiveRecord }
{}

/// A bucket holds the uses of its set whose keys begin with its byte, and an answer has the uses of all buckets whose digest
/// differs from the summary's.
pub fn buckets_hold()
    ensures bucket { BucketHoldsItsUses }
    ensures stale { StaleHoldsDiffering }
{}

/// A record that answers a summary stays a record, and its answer is batches: one without a use where the summary is its own.
pub fn answers_are_batches()
    ensures raised { RaisedIsRecord }
    ensures batches { AnswerIsBatches }
    ensures own { OwnSummaryAsksNothing }
{}
