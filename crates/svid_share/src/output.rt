ghost use Rattle.std.specs.Prelude.{OnOk, OnErr, IfErr, ◌≡◌};
ghost use Rattle.svid_wire.specs.Streams.{TookAll, TookPart, taken};

use crate::ToolFault;
use svid_wire::{Sink, put_all};

// Writes all bytes. `Write` where the sink stopped: then part of them went out.
pub(crate) fn put_bytes<K: Sink>(out: &mut K, bytes: &[u8]) -> Result<(), ToolFault>
    ensures ok { OnOk result (TookAll (taken K.told K.stops out.old out.new) bytes.now) }
    ensures fault { IfErr result (λ e. e ≡ ToolFault.Write) }
    ensures part { OnErr result (TookPart (taken K.told K.stops out.old out.new) bytes.now) }
{
    match put_all(out, bytes) {
        Ok(()) => Ok(()),
        Err(_) => Err(ToolFault::Write),
    }
}

/// Writes a whole text. `Write` where the sink stopped: then part of the text went out.
pub fn put_text<K: Sink>(out: &mut K, text: &str) -> Result<(), ToolFault>
    ensures ok { OnOk result (TookAll (taken K.told K.stops out.old out.new) text.now) }
    ensures fault { IfErr result (λ e. e ≡ ToolFault.Write) }
    ensures part { IfErr result (λ _. TookPart (taken K.told K.stops out.old out.new) text.now) }
{
    put_bytes(out, text.as_bytes())
}
