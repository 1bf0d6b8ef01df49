//! Laws of the definitions that this crate's contracts cite. Each is the contract of a function with an empty body, so that the
//! check proves it like any other promise.

ghost use Rattle.svid_replay.specs.Parts.{PartsGiveRecord};
ghost use Rattle.svid_wire.specs.Feed.{PushesJoin};
ghost use Rattle.svid_wire.specs.Messages.{BeginsOneMessage, BeginsOrFaults, CutAnywhere, EachParses, NoTextIsLonger, OldBatchIsRead, ParseEnds, ParsesOneWay, TextHasNoFault, WrittenIsRead};
ghost use Rattle.svid_wire.specs.RecordText.{TextTellsRecord};
ghost use Rattle.svid_wire.specs.WireFault.{FaultIsUnique, FieldFaultStays};

/// Bytes begin with the text of at most one message.
pub fn begins_one_message()
    ensures { BeginsOneMessage }
{}

/// Reading the text that is written of a message gives that message.
pub fn written_is_read()
    ensures { WrittenIsRead }
{}

/// A batch of version 1 is read as the batch that its text of version 2 gives.
pub fn old_batches_are_read()
    ensures { OldBatchIsRead }
{}

/// Bytes that begin with a message's text have no fault, whatever follows.
pub fn text_has_no_fault()
    ensures { TextHasNoFault }
{}

/// Bytes, where there are any, begin with a message's text or have a fault.
pub fn begins_or_faults()
    ensures { BeginsOrFaults }
{}

/// Bytes have at most one fault: one reason at one offset.
pub fn fault_is_unique()
    ensures { FaultIsUnique }
{}

/// A bad field stays the fault, at its offset, when bytes follow.
pub fn field_fault_stays()
    ensures { FieldFaultStays }
{}

/// No message's text is a proper prefix of another's.
pub fn no_text_is_longer()
    ensures { NoTextIsLonger }
{}

/// Bytes parse in at most one way: as the texts of some messages, one after the other, and a rest that begins with no message.
pub fn parses_one_way()
    ensures { ParsesOneWay }
{}

/// All bytes parse: as the texts of some messages, one after the other, and a rest that begins with no message.
pub fn each_parses()
    ensures { EachParses }
{}

/// Messages up to the end of the bytes, or up to bytes that have a fault, are all that the bytes
/// begin with.
pub fn parse_ends()
    ensures { ParseEnds }
{}

/// Bytes may be cut anywhere: the parse of the first part, and then that of its rest followed by the other bytes, make the parse
/// of all, with the same rest.
pub fn cut_anywhere()
    ensures { CutAnywhere }
{}

/// Two pushes that succeed do to a feed what one push of both pieces together does.
pub fn pushes_join()
    ensures { PushesJoin }
{}

/// Two records are equal exactly if the texts of their parts, one after the other, are equal.
pub fn text_tells_record()
    ensures { TextTellsRecord }
{}

/// A new record that absorbed all parts of a record is equal to it.
pub fn parts_tell_record()
    ensures { PartsGiveRecord }
{}
