ghost use Rattle.std.specs.Prelude.{◌≡◌, [], ◌∷◌, OnOk, IfOk, IfErr};
ghost use Rattle.svid_wire.specs.declared.message.Message.TheVariants.{Summary as SummaryTold};
ghost use Rattle.svid_c.specs.Inputs.{AreBundles, AreMessages, AreNoBundles, IsRefused, Tells};
ghost use Rattle.svid_c.specs.Joined.{IsRecordOf, IsSummaryRefused};

use crate::lent::Lent;
use std::alloc::Global;
use svid_keys::Bundles;
use svid_replay::{Record, RunUses, Summary, UseStore};
use svid_share::{MOST_BYTES, ToolFault, join_input, read_summary};

// The trust bundles in the first input.
#[tactic(auto, using(crate::proofs::InputsLemmas::no_bundles))]
pub(crate) fn bundles_of(alloc: Global, text: &[u8]) -> Result<Bundles, ToolFault>
    ensures ok { IfOk result (AreBundles text.now) }
    ensures fault { IfErr result (AreNoBundles text.now) }
{
    if text.len() > MOST_BYTES {
        return Err(ToolFault::TooMuch { input: 1 });
    }
    let bundles = Bundles::read(alloc, text)?;
    Ok(bundles)
}

// Joins the batches of the messages in the input with this number.
#[tactic(auto, using(crate::proofs::InputsLemmas::tells, crate::proofs::InputsLemmas::refused))]
pub(crate) fn join_lent<T: UseStore>(
    alloc: Global,
    bytes: &[u8],
    number: usize,
    target: &mut Record<T>,
) -> Result<(), ToolFault>
    ensures ok { OnOk result (Tells bytes.now target.old target.new) }
    ensures fault { IfErr result (IsRefused number bytes.now) }
{
    let mut source = Lent::new(bytes);
    let mut messages = Vec::new(alloc);
    join_input(alloc, &mut source, number, &mut messages, target)
}

// The record of the batches in the input with this number, advanced to a moment, and quick to iterate.
pub(crate) fn record_of(
    alloc: Global,
    bytes: &[u8],
    number: usize,
    now: u64,
) -> Result<Record<RunUses>, ToolFault>
    ensures ok { IfOk result (IsRecordOf bytes.now now) }
    ensures fault { IfErr result (IsRefused number bytes.now) }
{
    let mut record = Record::new(RunUses::without_keys(alloc));
    join_lent(alloc, bytes, number, &mut record)?;
    record.raise(now);
    record.compact();
    Ok(record)
}

// The one summary in the first input.
#[tactic(auto, using(crate::proofs::InputsLemmas::is_one, crate::proofs::InputsLemmas::not_one))]
pub(crate) fn summary_in(alloc: Global, bytes: &[u8]) -> Result<Summary, ToolFault>
    ensures ok { IfOk result (λ asked. AreMessages bytes.now (SummaryTold asked ∷ [])) }
    ensures fault { IfErr result (IsSummaryRefused bytes.now) }
{
    let mut source = Lent::new(bytes);
    read_summary(alloc, &mut source, 1)
}
