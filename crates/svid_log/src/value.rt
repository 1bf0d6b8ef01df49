ghost use Rattle.std.specs.Prelude.{◌≡◌, ◌++◌, IfErr, IfOk, OnOk};
ghost use Rattle.svid_wire.specs.Messages.{batches_of};
ghost use Rattle.svid_log.specs.Values.{HasUses, IsNoValue, IsValue, uses_in};

use std::alloc::{AllocError, Global};
use svid_replay::Use;
use svid_wire::{Feed, Message, Reason, WireFault};

/// The content of a value of the log: the uses of its batches, in their order.
#[derive(Debug, Drop)]
pub struct Value {
    /// The uses: none where the bytes of the value do not parse as messages.
    pub uses: Vec<Use>,
    /// The fault of the bytes, where they do not parse as messages.
    pub fault: Option<WireFault>,
}

// How many bytes of a value are read at a time. They end at most 241 messages, and each takes about 8 KiB for a while.
const PIECE: usize = 4096;

// Appends the uses of the batches among messages, in their order.
fn append_uses(uses: &mut Vec<Use>, messages: &[Message]) -> Result<(), AllocError>
    ensures { OnOk result (uses.new.items ≡ uses.old.items ++ uses_in (batches_of messages.now)) }
{
    for message in messages {
        match message {
            Message::Batch(batch) => uses.extend_from_slice(batch.uses())?,
            Message::Summary(_) => (),
        }
    }
    Ok(())
}

// The uses of a value's batches in their order, or why its bytes are no messages. Reads the value piece by piece.
fn uses_of(alloc: Global, value: &[u8]) -> Result<Vec<Use>, WireFault>
    ensures ok { IfOk result (λ uses. IsValue value.now uses.items) }
    ensures fault { IfErr result (IsNoValue value.now) }
{
    let mut feed = Feed::new(alloc);
    let mut messages = Vec::new(alloc);
    let mut uses = Vec::new(alloc);
    let mut rest = value;
    while rest.len() > 0 {
        let (piece, after) = rest.split_at(rest.len().min(PIECE));
        messages.clear();
        if let Err(fault) = feed.push(piece, &mut messages) {
            return Err(fault);
        }
        append_uses(&mut uses, &messages)?;
        rest = after;
    }
    match feed.finish() {
        Ok(()) => Ok(uses),
        Err(fault) => Err(fault),
    }
}

impl Value {
    /// Reads the bytes of a value.
    ///
    /// Bytes that do not parse as messages have no uses, for every reader alike. The only error is out of memory: read the value
    /// again then. Beside the uses it takes the memory of the messages that end in 4,096 bytes.
    pub fn read(alloc: Global, bytes: &[u8]) -> Result<Value, AllocError>
        ensures { IfOk result (λ value. HasUses bytes.now value.uses.items value.fault) }
    {
        match uses_of(alloc, bytes) {
            Ok(uses) => Ok(Value { uses, fault: None }),
            Err(fault) if fault.reason == Reason::OutOfMemory => Err(AllocError),
            Err(fault) => Ok(Value {
                uses: Vec::new(alloc),
                fault: Some(fault),
            }),
        }
    }
}
