ghost use Rattle.std.specs.Prelude.{◌≡◌, ◌≢◌, ◌++◌, ◌∷◌, [], List, length, IfOk, IfErr};
ghost use Rattle.svid_replay.specs.Summary.{SummaryData};
ghost use Rattle.svid_wire.specs.Streams.{drawn};
ghost use Rattle.svid_wire.specs.declared.message.Message.{Message};
ghost use Rattle.svid_wire.specs.declared.message.Message.TheVariants.{Summary as SummaryTold};
ghost use Rattle.svid_share.specs.Answer.{IsLast, IsOneSummary, IsSummaryFault};

use crate::ToolFault;
use crate::reader::Reader;
use std::alloc::Global;
use svid_replay::Summary;
use svid_wire::{Message, Source};

// The last message of all, when these came after the others.
fn last_of(before: Option<Message>, messages: &mut Vec<Message>) -> Option<Message>
    ensures { (told : List Message) → IsLast told before → IsLast (told ++ messages.old.items) result }
{
    match messages.pop() {
        Some(message) => Some(message),
        None => before,
    }
}

// The summary, if the message is one.
fn summary_of(message: Message) -> Result<Summary, ToolFault>
    ensures ok { IfOk result (λ summary. message ≡ SummaryTold summary) }
    ensures fault { IfErr result (λ fault. (fault ≡ ToolFault.NotSummary) × ((summary : SummaryData) → message ≢ SummaryTold summary)) }
{
    match message {
        Message::Summary(summary) => Ok(summary),
        Message::Batch(_batch) => Err(ToolFault::NotSummary),
    }
}

// The last of so many messages, if it is the only one and a summary.
fn only_summary(last: Option<Message>, count: usize) -> Result<Summary, ToolFault>
    ensures ok { IfOk result (λ summary. (told : List Message) → length told ≡ count → IsLast told last → told ≡ SummaryTold summary ∷ []) }
    ensures fault { IfErr result (λ fault. (fault ≡ ToolFault.NotSummary) × ((told : List Message) → length told ≡ count → IsLast told last → (summary : SummaryData) → told ≢ SummaryTold summary ∷ [])) }
{
    if count != 1 {
        return Err(ToolFault::NotSummary);
    }
    match last {
        Some(message) => summary_of(message),
        None => Err(ToolFault::NotSummary),
    }
}

/// Reads the input with this number, which must be one summary.
///
/// Fails as for any input of messages ([`join_input`](crate::join_input)), and with `NotSummary` where it is whole messages but
/// not exactly one, or where that one is a batch.
pub fn read_summary<S: Source>(
    alloc: Global,
    source: &mut S,
    input: usize,
) -> Result<Summary, ToolFault>
    ensures ok { IfOk result (IsOneSummary (drawn S.left S.stops source.old source.new)) }
    ensures fault { IfErr result (IsSummaryFault input (drawn S.left S.stops source.old source.new)) }
{
    let mut reader = Reader::new(alloc, input);
    let mut messages = Vec::new(alloc);
    let mut last = None;
    while reader.next(source, &mut messages)? {
        last = last_of(last, &mut messages);
    }
    let count = reader.count();
    reader.end()?;
    only_summary(last, count)
}
