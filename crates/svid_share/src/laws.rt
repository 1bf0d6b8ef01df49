//! Laws of the definitions that this crate's contracts cite. Each is the contract of a function with an empty body, so that the
//! check proves it like any other promise.

ghost use Rattle.svid_share.specs.Joined.{JoinedByWhich, JoinedFromNothing, JoinedIsRecord, JoinedOneByOne, PartsComeToRecord, PartsStandForBatches};
ghost use Rattle.svid_share.specs.Merge.{MergedByWhich};
ghost use Rattle.svid_share.specs.Summary.{SummarizedByWhich};

/// The join of batches depends only on which batches there are: not on their order, and not on how often one comes.
pub fn batches_join_in_any_order()
    ensures { JoinedByWhich }
{}

/// Batches joined one after the other to a new record give their join, and that is a record. Joined to the join of earlier
/// batches, they give the join of all.
pub fn batches_join_one_by_one()
    ensures joined { JoinedFromNothing }
    ensures goes_on { JoinedOneByOne }
    ensures is_record { JoinedIsRecord }
{}

/// The parts of a record stand for the batches that it was built from. Their join is that record, and merging records by their
/// parts gives the same result as merging the batches that they were built from.
pub fn parts_stand_for_batches()
    ensures whole { PartsComeToRecord }
    ensures merged { PartsStandForBatches }
{}

/// A merge of inputs depends only on which batches there are in all of them: not on their order, not on how often one comes, and
/// not on which input it is in.
pub fn merges_agree()
    ensures { MergedByWhich }
{}

/// The summary of inputs also depends only on which batches there are in all of them.
pub fn summaries_agree()
    ensures { SummarizedByWhich }
{}
