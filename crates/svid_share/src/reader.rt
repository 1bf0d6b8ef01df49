ghost use Rattle.std.specs.Prelude.{◌≡◌, ◌<◌, ◌++◌, [], List, true, false, OnOk, IfOk, IfErr, MatchResult};
ghost use Rattle.std.specs.Io.KnownBytes.{IsAtEnd};
ghost use Rattle.svid_wire.specs.Streams.{Drawn, drawn};
ghost use Rattle.svid_wire.specs.declared.message.Message.{Message};
ghost use Rattle.svid_share.specs.Inputs.{IsInputFault, IsWhole, wire_fault_at};
ghost use Rattle.svid_share.specs.Reader.{HasBegun, HasCome};

use crate::{MOST_BYTES, ToolFault};
use std::alloc::Global;
use svid_wire::{Feed, Message, Reason, Source, WireFault};

// How many bytes a call asks of a source.
const ROOM: usize = 4096;

/// Reads the messages of one input, piece by piece.
#[derive(Drop)]
pub struct Reader {
    feed: Feed,
    // how many more bytes the input may have
    still: usize,
    // how many whole messages came
    whole: usize,
    // the number of the input
    number: usize,
}

// (no `From`: a fault of the program has the number of the input)
fn wire_fault(fault: WireFault, input: usize, message: usize) -> ToolFault
    ensures { result ≡ wire_fault_at fault.reason input message fault.offset }
{
    match fault.reason {
        Reason::OutOfMemory => ToolFault::OutOfMemory,
        reason => ToolFault::Wire {
            input,
            message,
            offset: fault.offset,
            reason,
        },
    }
}

impl Reader {
    /// A reader before the first piece of the input with this number.
    pub fn new(alloc: Global, number: usize) -> Reader
        ensures feed { result.feed ≡ Some [] }
        ensures still { result.still ≡ 67108864 }
        ensures whole { result.whole ≡ 0 }
        ensures number { result.number ≡ number }
    {
        Reader {
            feed: Feed::new(alloc),
            still: MOST_BYTES,
            whole: 0,
            number,
        }
    }

    /// Reads the next piece, and returns whether there was one. Its messages replace those in `messages`.
    pub fn next<S: Source>(
        &mut self,
        source: &mut S,
        messages: &mut Vec<Message>,
    ) -> Result<bool, ToolFault>
        requires begun { HasBegun S.left S.stops source.old self.old }
        ensures came { OnOk result ((first : S) (told : List Message) → HasCome (drawn S.left S.stops first source.old) self.old told → HasCome (drawn S.left S.stops first source.new) self.new (told ++ messages.new.items)) }
        ensures number { OnOk result (self.new.number ≡ self.old.number) }
        ensures more { IfOk result (λ more. more ≡ true → self.new.still < self.old.still) }
        ensures no_more { IfOk result (λ more. more ≡ false → IsAtEnd (S.left source.new) × (messages.new.items ≡ [])) }
        ensures fault { IfErr result (λ fault. (first : S) (told : List Message) → HasCome (drawn S.left S.stops first source.old) self.old told → IsInputFault self.old.number (drawn S.left S.stops first source.new) fault) }
    {
        messages.clear();
        let mut room = [0; ROOM];
        let Ok(given) = source.get(&mut room) else {
            return Err(ToolFault::Read { input: self.number });
        };
        if given == 0 {
            return Ok(false);
        }
        let (piece, _) = room.split_at(given.min(self.still));
        if let Err(fault) = self.feed.push(piece, messages) {
            return Err(wire_fault(fault, self.number, self.whole + messages.len() + 1));
        }
        if self.still < given {
            return Err(ToolFault::TooMuch { input: self.number });
        }
        self.still -= given;
        self.whole += messages.len();
        Ok(true)
    }

    /// How many whole messages came.
    pub fn count(&self) -> usize
        ensures { result ≡ self.now.whole }
    {
        self.whole
    }

    /// Says that the input has no more bytes.
    pub fn end(self) -> Result<(), ToolFault>
        requires begun { (input : Drawn) × (told : List Message) × HasCome input self told }
        ensures { (input : Drawn) (told : List Message) → HasCome input self told → IsAtEnd input.left_after → MatchResult result (λ _. IsWhole input told) (IsInputFault self.number input) }
    {
        match self.feed.finish() {
            Ok(()) => Ok(()),
            Err(fault) => Err(wire_fault(fault, self.number, self.whole + 1)),
        }
    }
}
