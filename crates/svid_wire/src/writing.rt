ghost use Rattle.std.specs.Prelude.{◌≡◌, OnOk, IfErr};
ghost use Rattle.svid_wire.specs.BatchText.{batch_text, head_text};
ghost use Rattle.svid_wire.specs.Streams.{StoppedAfter, TookAll, taken};
ghost use Rattle.svid_wire.specs.declared.version.Version.{Version};

use crate::layout::{
    BATCH_KIND, COUNT_OFFSET, HEAD_LEN, KIND_OFFSET, MAGIC, MOMENT_OFFSET, USE_LEN,
};
use crate::{Sink, Stopped, WriteFault};
use svid_replay::Batch;

/// Puts the whole of `piece`, by as many calls of `put` as that takes.
///
/// On an error, returns the number of bytes that the sink took: it took exactly the first of them.
pub fn put_all<K: Sink>(sink: &mut K, piece: &[u8]) -> Result<(), WriteFault>
    ensures ok { OnOk result (TookAll (taken K.told K.stops sink.old sink.new) piece.now) }
    ensures err { IfErr result (λ e. StoppedAfter (taken K.told K.stops sink.old sink.new) piece.now e.written) }
{
    let mut written = 0;
    while written < piece.len() {
        match sink.put(piece.split_at(written).1) {
            Ok(taken) => written += taken,
            Err(Stopped) => return Err(WriteFault { written }),
        }
    }
    Ok(())
}

/// The bytes before the uses of a batch of this moment (in seconds) with `count` uses: the first 17. Takes no memory.
pub fn batch_head(moment: u64, count: u32) -> [u8; HEAD_LEN]
    ensures { result ≡ head_text Version.Two moment count }
{
    let mut head = [0; HEAD_LEN];
    head[..KIND_OFFSET].copy_from_slice(&MAGIC);
    head[KIND_OFFSET] = BATCH_KIND;
    head[MOMENT_OFFSET..COUNT_OFFSET].copy_from_slice(&moment.to_be_bytes());
    head[COUNT_OFFSET..].copy_from_slice(&count.to_be_bytes());
    head
}

/// Puts the text of a batch: its head as one piece, and then each use as a piece of its own.
///
/// On an error, returns the number of bytes that the sink took: it took exactly the first of them. Takes no memory.
pub fn write_batch<K: Sink>(batch: &Batch, sink: &mut K) -> Result<(), WriteFault>
    ensures ok { OnOk result (TookAll (taken K.told K.stops sink.old sink.new) (batch_text batch.now)) }
    ensures err { IfErr result (λ e. StoppedAfter (taken K.told K.stops sink.old sink.new) (batch_text batch.now) e.written) }
{
    let head = batch_head(batch.moment(), batch.uses().len() as u32);
    put_all(sink, &head)?;
    let mut written = head.len();
    for used in batch.uses() {
        if let Err(fault) = put_all(sink, &used.text()) {
            return Err(WriteFault {
                written: written + fault.written,
            });
        }
        written += USE_LEN;
    }
    Ok(())
}
