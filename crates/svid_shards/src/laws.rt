//! Laws of the definitions that this crate's contracts cite. Each is the contract of a function with an empty body, so that the
//! check proves it like any other promise.

ghost use Rattle.svid_shards.specs.Buckets.{AnswersTellAnswer, DigestsAreSummary};

/// The digests of all buckets at a moment are those of the summary of the record advanced to it.
pub fn digests_are_the_summary()
    ensures { DigestsAreSummary }
{}

/// The answers of all buckets together have the same uses as the answer to the whole summary.
pub fn answers_tell_the_answer()
    ensures { AnswersTellAnswer }
{}
