ghost use Rattle.std.specs.Prelude.{◌≡◌, ◌+◌, [], ◌∷◌, ◌++◌, length, OnOk, IfOk, IfErr};
ghost use Rattle.svid_wire.specs.Messages.{Appended, StopsAt, StopsIn};
ghost use Rattle.svid_wire.specs.Partial.{IsPartial, held_of};
ghost use Rattle.svid_wire.specs.Stage.{field_len};
ghost use Rattle.svid_wire.specs.WireFault.{IsFieldRefusal, no_memory};

use crate::judging::judge;
use crate::layout::{DIGEST_LEN, DIGESTS};
use crate::partial::{Partial, put_behind};
use crate::stage::Progress;
use crate::{Feed, Message, WireFault};
use std::alloc::Global;
use svid_replay::{Batch, Summary};

// The summary of a moment and all its digests.
fn summary_of(moment: u64, digests: &[[u8; DIGEST_LEN]]) -> Summary
    requires { length digests.now ≡ 256 }
    ensures { result ≡ record { moment = moment; digests = digests.now } }
{
    let mut all = [[0; DIGEST_LEN]; DIGESTS];
    all.copy_from_slice(digests);
    Summary::make(moment, all)
}

// Appends a batch. (This and the next are functions of their own: where room for a message lies on the stack, its 8 KiB are
// cleared, and most fields end no message.)
#[inline(never)]
fn append_batch(batch: Batch, out: &mut Vec<Message>) -> Result<(), WireFault>
    ensures ok { OnOk result (out.new.items ≡ out.old.items ++ Message.Batch batch ∷ []) }
    ensures fault { IfErr result (λ fault. (out.new.items ≡ out.old.items) × (fault ≡ no_memory)) }
{
    Ok(out.push(Message::Batch(batch))?)
}

// Appends the summary of a moment and all its digests.
#[inline(never)]
fn append_summary(
    moment: u64,
    digests: &[[u8; DIGEST_LEN]],
    out: &mut Vec<Message>,
) -> Result<(), WireFault>
    requires { length digests.now ≡ 256 }
    ensures ok { OnOk result (out.new.items ≡ out.old.items ++ Message.Summary (record { moment = moment; digests = digests.now }) ∷ []) }
    ensures fault { IfErr result (λ fault. (out.new.items ≡ out.old.items) × (fault ≡ no_memory)) }
{
    Ok(out.push(Message::Summary(summary_of(moment, digests)))?)
}

// Judges the field that `last` completes, and appends the message that it ends.
fn end_field(
    alloc: Global,
    state: Partial,
    last: &[u8],
    out: &mut Vec<Message>,
) -> Result<Partial, WireFault>
    requires partial { IsPartial state }
    requires whole { length last.now + state.filled ≡ field_len state.stage }
    ensures ok { IfOk result (λ next. IsPartial next × Appended (held_of state ++ last.now) out.old.items out.new.items (held_of next)) }
    ensures fault { IfErr result (λ fault. (out.new.items ≡ out.old.items) × IsFieldRefusal (held_of state ++ last.now) fault) }
{
    let Partial {
        stage,
        mut part,
        filled,
    } = state;
    put_behind(&mut part, filled, last);
    let (field, _) = part.split_at(filled + last.len());
    match judge(alloc, stage, field) {
        Ok(Progress::More(next)) => Ok(Partial::behind(next)),
        Ok(Progress::Batch(_, batch)) => {
            append_batch(batch, out)?;
            Ok(Partial::start())
        }
        Ok(Progress::Summary { moment, digests }) => {
            append_summary(moment, &digests, out)?;
            Ok(Partial::start())
        }
        Err(fault) => Err(fault),
    }
}

/// Goes on with a piece, and appends each message that it completes.
pub(crate) fn take_piece(
    alloc: Global,
    state: Partial,
    piece: &[u8],
    out: &mut Vec<Message>,
) -> Result<Partial, WireFault>
    requires { IsPartial state }
    ensures ok { IfOk result (λ next. IsPartial next × Appended (held_of state ++ piece.now) out.old.items out.new.items (held_of next)) }
    ensures fault { IfErr result (StopsIn (held_of state ++ piece.now) out.old.items out.new.items) }
{
    let mut state = state;
    let mut rest = piece;
    while state.missing() <= rest.len() {
        let (last, after) = rest.split_at(state.missing());
        match end_field(alloc, state, last, out) {
            Ok(next) => state = next,
            Err(fault) => return Err(fault),
        }
        rest = after;
    }
    Ok(state.with(rest))
}

/// Reads bytes that are the texts of messages, one after the other, and appends the messages to `out`.
///
/// On an error, returns the fault of the first text that is bad, with an offset counted from that text's first byte: `Truncated`
/// only where the bytes end within it, with the number of its bytes. The messages before it are appended; after `OutOfMemory`,
/// those read so far. `out` only grows. Each message takes about 8 KiB of it, a batch too, since a message has room for a
/// summary.
pub fn read_all(alloc: Global, bytes: &[u8], out: &mut Vec<Message>) -> Result<(), WireFault>
    ensures ok { OnOk result (Appended bytes.now out.old.items out.new.items []) }
    ensures fault { IfErr result (StopsAt bytes.now out.old.items out.new.items) }
{
    let mut feed = Feed::new(alloc);
    feed.push(bytes, out)?;
    feed.finish()
}
