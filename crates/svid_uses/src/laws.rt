//! Laws of the definitions that this crate's contracts cite. Each is the contract of a function with an empty body.

ghost use Rattle.svid_uses.specs.Texts.{BatchedOneWay, WrittenAreRead};

/// Reading what was written of the batches of uses gives just these uses, each once, in the order of the batches.
pub fn written_uses_are_read()
    ensures { WrittenAreRead }
{}

/// The same uses make the same batches, in any order and any number of times.
pub fn uses_are_batched_in_one_way()
    ensures { BatchedOneWay }
{}
