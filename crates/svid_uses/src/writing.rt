ghost use Rattle.std.specs.Prelude.{OnErr, OnOk};
ghost use Rattle.svid_uses.specs.Texts.{texts_of};
ghost use Rattle.svid_wire.specs.Streams.{TookAll, TookPart, taken};

use svid_replay::Batch;
use svid_wire::{Sink, Stopped, write_batch};

/// Writes the texts of batches, one after the other. `Stopped` where the sink stopped; it may have taken a part of them. Takes no
/// memory.
pub fn write_batches<K: Sink>(batches: &[Batch], sink: &mut K) -> Result<(), Stopped>
    ensures ok { OnOk result (TookAll (taken K.told K.stops sink.old sink.new) (texts_of batches.now)) }
    ensures part { OnErr result (TookPart (taken K.told K.stops sink.old sink.new) (texts_of batches.now)) }
{
    for batch in batches {
        if let Err(_) = write_batch(batch, sink) {
            return Err(Stopped);
        }
    }
    Ok(())
}
