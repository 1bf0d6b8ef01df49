ghost use Rattle.std.specs.Prelude.{◌≡◌, ◌≤◌, [], None, Some, OnOk, OnErr, IfErr};
ghost use Rattle.svid_wire.specs.Feed.{IsPushFault, Pushed, end_of, held_len};

use crate::decoding::take_piece;
use crate::partial::Partial;
use crate::{Message, Reason, WireFault};
use std::alloc::Global;
use std::marker::Model;

const FAILED: WireFault = WireFault {
    offset: 0,
    reason: Reason::Failed,
};

/// Reads the texts of messages, one after the other, from pieces of any lengths.
///
/// It holds the bytes of the message that is not whole yet, and nothing after a refusal.
#[derive(Drop)]
pub struct Feed {
    alloc: Global,
    // None after a refusal.
    state: Option<Partial>,
}

impl Model for Feed {
    ghost use Rattle.std.specs.Prelude.{List, ℕ, Option};
    ghost use Rattle.std.specs.Option.{option_map, ForSome};
    ghost use Rattle.svid_wire.specs.Partial.{IsPartial, held_of};

    ghost Value = { Option (List ℕ) };

    ghost view = { λ f. option_map held_of f.state };

    ghost invariant = { λ f. ForSome f.state IsPartial };
}

impl Feed {
    /// A feed before the first byte. Takes no memory.
    pub fn new(alloc: Global) -> Feed
        ensures { result ≡ Some [] }
    {
        Feed {
            alloc,
            state: Some(Partial::start()),
        }
    }

    /// Takes the next piece, and appends to `out` each message that it completes.
    ///
    /// The push that completes the first bad field returns its fault, with the offset where the field begins, counted from the
    /// first byte of its message; `OutOfMemory` where memory is refused. The messages before it are appended. From then on
    /// nothing is held, and each push returns `Failed` at offset 0 and appends nothing. `out` only grows. Each message takes
    /// about 8 KiB of it, a batch too, since a message has room for a summary.
    pub fn push(&mut self, piece: &[u8], out: &mut Vec<Message>) -> Result<(), WireFault>
        ensures ok { OnOk result (Pushed self.old self.new out.old.items out.new.items piece.now) }
        ensures fault { IfErr result (IsPushFault self.old out.old.items out.new.items piece.now) }
        ensures failed { OnErr result (self.new ≡ None) }
    {
        let Some(state) = self.state.take() else {
            return Err(FAILED);
        };
        let next = take_piece(self.alloc, state, piece, out)?;
        self.state = Some(next);
        Ok(())
    }

    /// Ends the feed: no more bytes come. Takes no memory.
    ///
    /// `Truncated` where a message is not whole, with the number of its bytes that came; and `Failed` at offset 0 after a
    /// refusal.
    pub fn finish(self) -> Result<(), WireFault>
        ensures { result ≡ end_of self }
    {
        match &self.state {
            None => Err(FAILED),
            Some(state) => match state.len() {
                0 => Ok(()),
                offset => Err(WireFault {
                    offset,
                    reason: Reason::Truncated,
                }),
            },
        }
    }

    /// How many bytes of the message that is not whole are held: at most 4,259,856, and none after a refusal. Takes no memory.
    pub fn held(&self) -> usize
        ensures value { result ≡ held_len self.now }
        ensures most { result ≤ 4259856 }
    {
        match &self.state {
            None => 0,
            Some(state) => state.len(),
        }
    }
}
