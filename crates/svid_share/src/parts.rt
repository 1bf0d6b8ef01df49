ghost use Rattle.std.specs.Prelude.{◌≡◌, ◌++◌, ◌≤◌, drop, length, OnOk, OnErr, IfErr};
ghost use Rattle.std.specs.List.{flat_map};
ghost use Rattle.svid_replay.specs.Parts.{cut};
ghost use Rattle.svid_wire.specs.BatchText.{batch_text};
ghost use Rattle.svid_wire.specs.RecordText.{record_text};
ghost use Rattle.svid_wire.specs.Streams.{TookAll, TookPart, taken};
ghost use Rattle.svid_share.specs.Pages.{Passes, next_batch, next_texts};
ghost use Rattle.svid_share.specs.declared.tool_fault.ToolFault.TheVariants.{Write};

use crate::ToolFault;
use crate::page::Page;
use crate::walked::Walked;
use svid_replay::{MOST_USES, Record, UseStore};
use svid_wire::{Sink, batch_head};

// Puts the texts of the next `count` uses.
fn put_uses<W: Walked, K: Sink>(
    page: &mut Page,
    walked: &mut W,
    count: usize,
    out: &mut K,
) -> Result<(), ToolFault>
    requires { count ≤ length (W.left walked.old) }
    ensures left { OnOk result (W.left walked.new ≡ drop count (W.left walked.old)) }
    ensures ok { OnOk result (Passes (taken K.told K.stops out.old out.new) page.old (next_texts (W.left walked.old) count) page.new) }
    ensures fault { IfErr result (λ e. e ≡ Write) }
    ensures part { OnErr result (TookPart (taken K.told K.stops out.old out.new) (page.old ++ next_texts (W.left walked.old) count)) }
{
    for _ in 0..count {
        if let Some(used) = walked.next_use() {
            page.put(out, &used.text())?;
        }
    }
    Ok(())
}

// Puts the batch of the next `count` uses.
fn put_batch<W: Walked, K: Sink>(
    page: &mut Page,
    moment: u64,
    walked: &mut W,
    count: usize,
    out: &mut K,
) -> Result<(), ToolFault>
    requires there { count ≤ length (W.left walked.old) }
    requires few { count ≤ 65536 }
    ensures left { OnOk result (W.left walked.new ≡ drop count (W.left walked.old)) }
    ensures ok { OnOk result (Passes (taken K.told K.stops out.old out.new) page.old (batch_text (next_batch moment (W.left walked.old) count)) page.new) }
    ensures fault { IfErr result (λ e. e ≡ Write) }
    ensures part { OnErr result (TookPart (taken K.told K.stops out.old out.new) (page.old ++ batch_text (next_batch moment (W.left walked.old) count))) }
{
    page.put(out, &batch_head(moment, count as u32))?;
    put_uses(page, walked, count, out)
}

// Puts the texts of the parts of a record of this moment with the `count` uses that are left to the walk.
fn put_parts<W: Walked, K: Sink>(
    page: &mut Page,
    moment: u64,
    count: usize,
    walked: &mut W,
    out: &mut K,
) -> Result<(), ToolFault>
    requires { count ≡ length (W.left walked.old) }
    ensures ok { OnOk result (Passes (taken K.told K.stops out.old out.new) page.old (flat_map batch_text (cut moment (W.left walked.old))) page.new) }
    ensures fault { IfErr result (λ e. e ≡ Write) }
    ensures part { OnErr result (TookPart (taken K.told K.stops out.old out.new) (page.old ++ flat_map batch_text (cut moment (W.left walked.old)))) }
{
    let mut left = count;
    while left > MOST_USES {
        put_batch(page, moment, walked, MOST_USES, out)?;
        left -= MOST_USES;
    }
    put_batch(page, moment, walked, left, out)
}

// Writes all these parts, to the last byte.
pub(crate) fn put_walked<W: Walked, K: Sink>(
    moment: u64,
    count: usize,
    walked: &mut W,
    out: &mut K,
) -> Result<(), ToolFault>
    requires { count ≡ length (W.left walked.old) }
    ensures ok { OnOk result (TookAll (taken K.told K.stops out.old out.new) (flat_map batch_text (cut moment (W.left walked.old)))) }
    ensures fault { IfErr result (λ e. e ≡ Write) }
    ensures part { OnErr result (TookPart (taken K.told K.stops out.old out.new) (flat_map batch_text (cut moment (W.left walked.old)))) }
{
    let mut page = Page::new();
    put_parts(&mut page, moment, count, walked, out)?;
    page.flush(out)?;
    Ok(())
}

/// Writes a record as the texts of its parts, as [`run_merge`](crate::run_merge) does. `Write` where the sink stopped: then part
/// of them went out. Takes no memory.
pub fn put_record<T: UseStore, K: Sink>(state: &Record<T>, out: &mut K) -> Result<(), ToolFault>
    ensures ok { OnOk result (TookAll (taken K.told K.stops out.old out.new) (record_text state.now)) }
    ensures fault { IfErr result (λ e. e ≡ Write) }
    ensures part { OnErr result (TookPart (taken K.told K.stops out.old out.new) (record_text state.now)) }
{
    put_walked(state.moment(), state.len(), &mut state.walk(), out)
}
