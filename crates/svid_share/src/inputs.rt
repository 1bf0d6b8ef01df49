ghost use Rattle.std.specs.Prelude.{◌≡◌, ◌∷◌, [], OnOk, IfOk, IfErr};
ghost use Rattle.svid_replay.specs.Parts.{join_all};
ghost use Rattle.svid_replay.specs.Records.{state_of};
ghost use Rattle.svid_wire.specs.Messages.{batches_of};
ghost use Rattle.svid_wire.specs.Streams.{IsRead, drawn};
ghost use Rattle.svid_share.specs.Inputs.{IsInputFault, IsRefused, IsUnread, inputs_of, most_bytes, read_fault_of, sources};
ghost use Rattle.svid_share.specs.Joined.{Joins, JoinsAll};

use crate::ToolFault;
use crate::reader::Reader;
use std::alloc::{AllocError, Global};
use svid_replay::{Record, RunUses, UseStore};
use svid_wire::{Message, ReadFault, Source, read_up_to};

/// The most bytes that an input may have.
pub const MOST_BYTES: usize = 67_108_864;

// (no `From`: a fault of the program has the number of the input)
fn read_fault(fault: ReadFault, input: usize) -> ToolFault
    ensures { result ≡ read_fault_of input fault }
{
    match fault {
        ReadFault::Stopped => ToolFault::Read { input },
        ReadFault::TooMuch => ToolFault::TooMuch { input },
        ReadFault::OutOfMemory => ToolFault::OutOfMemory,
    }
}

/// All bytes of the input with this number. Errors: `Read` where the source stopped, `TooMuch` where it gives more than
/// 67,108,864 bytes, `OutOfMemory` where memory is refused for what came.
pub fn read_input<S: Source>(
    alloc: Global,
    source: &mut S,
    input: usize,
) -> Result<Vec<u8>, ToolFault>
    ensures ok { IfOk result (λ bytes. IsRead (drawn S.left S.stops source.old source.new) most_bytes bytes.items) }
    ensures fault { IfErr result (IsUnread input (drawn S.left S.stops source.old source.new)) }
{
    match read_up_to(alloc, source, MOST_BYTES) {
        Ok(bytes) => Ok(bytes),
        Err(fault) => Err(read_fault(fault, input)),
    }
}

fn join_message<T: UseStore>(target: &mut Record<T>, message: &Message) -> Result<(), AllocError>
    ensures { OnOk result (target.new ≡ join_all target.old (batches_of (message.now ∷ []))) }
{
    match message {
        Message::Batch(batch) => target.absorb(batch),
        Message::Summary(_) => Ok(()),
    }
}

fn join_messages<T: UseStore>(
    target: &mut Record<T>,
    messages: &[Message],
) -> Result<(), AllocError>
    ensures { OnOk result (target.new ≡ join_all target.old (batches_of messages.now)) }
{
    for message in messages {
        join_message(target, message)?;
    }
    Ok(())
}

/// Reads the messages of the input with this number piece by piece, and joins their batches; skips summaries. `messages` is room
/// that is used again for each piece of at most 4,096 bytes, which ends at most 241 messages, of about eight thousand bytes each
/// beside their uses. In addition the call takes the memory of one message, of the record, and for a moment what the store takes
/// to join a batch: `RunUses` has room for the uses of a long batch once more while it makes a run of the new ones
/// (`insert_all`), and for those of two runs once more while it merges these.
///
/// Errors: `Wire` for the first field that is bad, in the bytes that come before a call of the source stops, and before the
/// limit; then `Read` where the source stopped, `TooMuch` where it gives more than 67,108,864 bytes, and `Wire` where it ends
/// within a message; and `OutOfMemory`. Don't use the record after an error: it may be anything.
pub fn join_input<S: Source, T: UseStore>(
    alloc: Global,
    source: &mut S,
    input: usize,
    messages: &mut Vec<Message>,
    target: &mut Record<T>,
) -> Result<(), ToolFault>
    ensures ok { OnOk result (Joins (drawn S.left S.stops source.old source.new) target.old target.new) }
    ensures fault { IfErr result (IsInputFault input (drawn S.left S.stops source.old source.new)) }
{
    let mut reader = Reader::new(alloc, input);
    while reader.next(source, messages)? {
        join_messages(target, messages)?;
    }
    reader.end()
}

/// Reads the messages of all inputs, one input after the other, and joins their batches to a record.
///
/// Fails with the error of the first input that does not parse as messages or could not be read, as [`join_input`] says. The
/// inputs after it are not read then, and the record may be anything.
pub fn join_inputs<S: Source, T: UseStore>(
    alloc: Global,
    inputs: &mut [S],
    target: &mut Record<T>,
) -> Result<(), ToolFault>
    ensures ok { OnOk result (JoinsAll (inputs_of (sources S.left S.stops inputs.old inputs.new)) target.old target.new) }
    ensures fault { IfErr result (IsRefused (sources S.left S.stops inputs.old inputs.new)) }
{
    let mut messages = Vec::new(alloc);
    for index in 0..inputs.len() {
        join_input(alloc, &mut inputs[index], index + 1, &mut messages, target)?;
    }
    Ok(())
}

// The join of the batches of all inputs, compacted so that it is quick to walk.
pub(crate) fn record_of<S: Source>(
    alloc: Global,
    inputs: &mut [S],
) -> Result<Record<RunUses>, ToolFault>
    ensures ok { IfOk result (JoinsAll (inputs_of (sources S.left S.stops inputs.old inputs.new)) (state_of 0 [])) }
    ensures fault { IfErr result (IsRefused (sources S.left S.stops inputs.old inputs.new)) }
{
    let mut record = Record::new(RunUses::without_keys(alloc));
    join_inputs(alloc, inputs, &mut record)?;
    record.compact();
    Ok(record)
}
