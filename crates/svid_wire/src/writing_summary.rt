ghost use Rattle.std.specs.Prelude.{◌≡◌, OnOk, IfErr};
ghost use Rattle.svid_replay.specs.Summary.{IsSummary};
ghost use Rattle.svid_wire.specs.Streams.{StoppedAfter, TookAll, taken};
ghost use Rattle.svid_wire.specs.SummaryText.{summary_head, summary_text};

use crate::layout::{
    DIGEST_LEN, KIND_OFFSET, MAGIC, MOMENT_OFFSET, SUMMARY_HEAD_LEN, SUMMARY_KIND,
};
use crate::{Sink, WriteFault, put_all};
use svid_replay::Summary;

// The bytes before the first digest.
fn head_of(summary: &Summary) -> [u8; SUMMARY_HEAD_LEN]
    ensures value { result ≡ summary_head summary.now.moment }
    ensures summary { IsSummary summary.now }
{
    let mut head = [0; SUMMARY_HEAD_LEN];
    head[..KIND_OFFSET].copy_from_slice(&MAGIC);
    head[KIND_OFFSET] = SUMMARY_KIND;
    head[MOMENT_OFFSET..].copy_from_slice(&summary.moment().to_be_bytes());
    head
}

/// Puts the text of a summary: its head as one piece, and then each digest as a piece of its own.
///
/// On an error, returns the number of bytes that the sink took: it took exactly the first of them. Takes no memory.
pub fn write_summary<K: Sink>(summary: &Summary, sink: &mut K) -> Result<(), WriteFault>
    ensures ok { OnOk result (TookAll (taken K.told K.stops sink.old sink.new) (summary_text summary.now)) }
    ensures err { IfErr result (λ e. StoppedAfter (taken K.told K.stops sink.old sink.new) (summary_text summary.now) e.written) }
{
    let head = head_of(summary);
    put_all(sink, &head)?;
    let mut written = head.len();
    for digest in summary.digests() {
        if let Err(fault) = put_all(sink, digest) {
            return Err(WriteFault {
                written: written + fault.written,
            });
        }
        written += DIGEST_LEN;
    }
    Ok(())
}
