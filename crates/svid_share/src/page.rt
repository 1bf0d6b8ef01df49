ghost use Rattle.std.specs.Prelude.{◌≡◌, ◌++◌, [], OnOk, OnErr, IfErr};
ghost use Rattle.svid_wire.specs.Streams.{TookAll, TookPart, taken};
ghost use Rattle.svid_share.specs.Pages.{Passes};
ghost use Rattle.svid_share.specs.declared.tool_fault.ToolFault.TheVariants.{Write};

use crate::ToolFault;
use crate::output::put_bytes;
use arrayvec::ArrayVec;
use std::marker::Model;
use svid_wire::Sink;

// How many bytes are gathered before they go out.
const PAGE_LEN: usize = 65536;

/// A buffer of fixed size before a sink: it gathers what is put, and passes it on when it is full. Takes no memory.
#[derive(Drop)]
pub(crate) struct Page {
    room: ArrayVec<u8, PAGE_LEN>,
}

impl Model for Page {
    ghost use Rattle.std.specs.Prelude.{List, ℕ};

    ghost Value = { List ℕ };

    ghost view = { λ p. p.room.items };
}

impl Page {
    pub(crate) fn new() -> Page
        ensures { result ≡ [] }
    {
        Page {
            room: ArrayVec::new(),
        }
    }

    /// Appends a text to what was put before. `Write` where the sink stopped.
    pub(crate) fn put<K: Sink>(&mut self, out: &mut K, text: &[u8]) -> Result<(), ToolFault>
        ensures ok { OnOk result (Passes (taken K.told K.stops out.old out.new) self.old text.now self.new) }
        ensures fault { IfErr result (λ e. e ≡ Write) }
        ensures part { OnErr result (TookPart (taken K.told K.stops out.old out.new) (self.old ++ text.now)) }
    {
        if let Err(_) = self.room.try_extend_from_slice(text) {
            self.flush(out)?;
            put_bytes(out, text)?;
        }
        Ok(())
    }

    /// Passes on everything that was put. `Write` where the sink stopped.
    pub(crate) fn flush<K: Sink>(&mut self, out: &mut K) -> Result<(), ToolFault>
        ensures ok { OnOk result (TookAll (taken K.told K.stops out.old out.new) self.old) }
        ensures empty { OnOk result (self.new ≡ []) }
        ensures fault { IfErr result (λ e. e ≡ Write) }
        ensures part { OnErr result (TookPart (taken K.told K.stops out.old out.new) self.old) }
    {
        put_bytes(out, self.room.as_slice())?;
        self.room.clear();
        Ok(())
    }
}
