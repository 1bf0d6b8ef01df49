ghost use Rattle.std.specs.Prelude.{◌≡◌, ◌≢◌, IfOk, IfErr, OnOk, OnErr, is_some};
ghost use Rattle.svid_keys.specs.Lines.{lines_of};
ghost use Rattle.svid_keys.specs.Table.{table_says};
ghost use Rattle.svid_wire.specs.RecordText.{record_text};
ghost use Rattle.svid_wire.specs.Streams.{drawn, taken};
ghost use Rattle.svid_lines.specs.Checks.{tokens_of};
ghost use Rattle.svid_share.specs.Inputs.{inputs_of, sources};
ghost use Rattle.svid_lines.specs.Check.{AreChecked, IsCheckFault, IsEarlier, IsEarlierFault, IsKept, IsKeptIf, IsLost, IsLostIf, IsOfInput, IsOneRefused, IsOutcome, IsTableFault, IsTableOf, IsWanting, earlier_fault, keeping, keeping_if, outcome_from, outcome_view, setting_under};

use crate::bundles::read_bundles;
use crate::checks::check_lines;
use crate::keep::Keep;
use std::alloc::{AllocError, Global};
use svid_check::Validator;
use svid_keys::{Bundles, TableVerifier};
use svid_replay::{Record, RunUses, UseStore};
use svid_share::{ToolFault, join_inputs, put_text, read_input};
use svid_wire::{Sink, Source};

/// The setting of a run of checks.
#[derive(Debug, Drop)]
pub struct CheckSetting {
    /// The validator's own audiences.
    pub own: Vec<String>,
    /// Distinguishes the validator from every other one.
    pub validator_id: [u8; 16],
    /// The moment of the checks, in seconds; where the record's is later, the tokens are judged at that.
    pub now: u64,
    /// How many seconds after `now`, or after the record's moment where that is later, a token may expire; any number where this
    /// is none.
    pub longest: Option<u64>,
}

// The outcome of a run of checks: whether all are accepted, the validator after the last one, and a line for each.
#[derive(Drop)]
struct Outcome {
    accepted: bool,
    validator: Validator<TableVerifier, RunUses>,
    lines: String,
}

// The table in the second input.
#[tactic(auto, using(crate::proofs::CheckLemmas::table_of))]
fn read_table<S: Source>(alloc: Global, source: &mut S) -> Result<TableVerifier, ToolFault>
    ensures ok { IfOk result (λ table. IsTableOf (drawn S.left S.stops source.old source.new) table) }
    ensures fault { IfErr result (IsTableFault (drawn S.left S.stops source.old source.new)) }
{
    let bytes = read_input(alloc, source, 2)?;
    Ok(TableVerifier::read(alloc, &bytes)?)
}

// The fault of an earlier record: the bundles, the table and the tokens come before it.
fn earlier_fault(fault: ToolFault) -> ToolFault
    ensures { result ≡ earlier_fault fault }
{
    match fault {
        ToolFault::Wire {
            input,
            message,
            offset,
            reason,
        } => ToolFault::Wire {
            input: input.saturating_add(3),
            message,
            offset,
            reason,
        },
        ToolFault::Read { input } => ToolFault::Read {
            input: input.saturating_add(3),
        },
        ToolFault::TooMuch { input } => ToolFault::TooMuch {
            input: input.saturating_add(3),
        },
        fault => fault,
    }
}

// The record that the run begins with: the join of all earlier ones, or a new one.
#[tactic(auto, using(crate::proofs::CheckLemmas::begins_with))]
fn read_earlier<S: Source>(alloc: Global, earlier: &mut [S]) -> Result<Record<RunUses>, ToolFault>
    ensures ok { IfOk result (IsEarlier (inputs_of (sources S.left S.stops earlier.old earlier.new))) }
    ensures fault { IfErr result (IsEarlierFault (sources S.left S.stops earlier.old earlier.new)) }
{
    let mut begun = Record::new(RunUses::new(alloc));
    match join_inputs(alloc, earlier, &mut begun) {
        Ok(()) => Ok(begun),
        Err(fault) => Err(earlier_fault(fault)),
    }
}

// Checks all tokens.
fn check_all(
    alloc: Global,
    given: CheckSetting,
    bundles: Bundles,
    table: TableVerifier,
    begun: Record<RunUses>,
    tokens: &[u8],
) -> Result<Outcome, AllocError>
    ensures { IfOk result (λ outcome. outcome_view outcome
        ≡ outcome_from (setting_under given bundles (table_says table)) given.now begun (tokens_of (lines_of tokens.now))) }
{
    let CheckSetting {
        own,
        validator_id,
        now,
        longest,
    } = given;
    let mut validator = Validator::new(alloc, own, validator_id, 0, bundles, table, begun, longest);
    let (accepted, lines) = check_lines(alloc, &mut validator, now, tokens)?;
    Ok(Outcome {
        accepted,
        validator,
        lines,
    })
}

// Reads all inputs and checks all tokens.
#[tactic(auto, using(crate::proofs::CheckLemmas::comes_to, crate::proofs::CheckLemmas::first_refused, crate::proofs::CheckLemmas::second_refused, crate::proofs::CheckLemmas::third_refused, crate::proofs::CheckLemmas::fourth_refused, crate::proofs::CheckLemmas::not_before, crate::proofs::CheckLemmas::first_wants, crate::proofs::CheckLemmas::second_wants, crate::proofs::CheckLemmas::third_wants, crate::proofs::CheckLemmas::fourth_wants))]
fn outcome_of_inputs<B: Source, T: Source, L: Source, R: Source>(
    alloc: Global,
    given: CheckSetting,
    bundles: &mut B,
    table: &mut T,
    tokens: &mut L,
    earlier: &mut [R],
) -> Result<Outcome, ToolFault>
    ensures ok { IfOk result (λ outcome. IsOutcome given (record {
      bundles = drawn B.left B.stops bundles.old bundles.new;
      table = drawn T.left T.stops table.old table.new;
      tokens = drawn L.left L.stops tokens.old tokens.new;
      earlier = sources R.left R.stops earlier.old earlier.new;
    }) (outcome_view outcome)) }
    ensures fault { IfErr result (λ fault. fault ≢ ToolFault.OutOfMemory → IsOneRefused (record {
      bundles = drawn B.left B.stops bundles.old bundles.new;
      table = drawn T.left T.stops table.old table.new;
      tokens = drawn L.left L.stops tokens.old tokens.new;
      earlier = sources R.left R.stops earlier.old earlier.new;
    }) fault) }
    ensures memory { IfErr result (λ fault. fault ≡ ToolFault.OutOfMemory → IsWanting (record {
      bundles = drawn B.left B.stops bundles.old bundles.new;
      table = drawn T.left T.stops table.old table.new;
      tokens = drawn L.left L.stops tokens.old tokens.new;
      earlier = sources R.left R.stops earlier.old earlier.new;
    }) (table.new ≡ table.old) (tokens.new ≡ tokens.old) (earlier.new ≡ earlier.old)) }
    ensures behind_bundles { IfErr result (λ fault. IsOfInput 1 fault → (table.new ≡ table.old) × (tokens.new ≡ tokens.old) × (earlier.new ≡ earlier.old)) }
    ensures behind_table { IfErr result (λ fault. IsOfInput 2 fault → (tokens.new ≡ tokens.old) × (earlier.new ≡ earlier.old)) }
    ensures behind_tokens { IfErr result (λ fault. IsOfInput 3 fault → earlier.new ≡ earlier.old) }
{
    let bundles = read_bundles(alloc, bundles)?;
    let table = read_table(alloc, table)?;
    let text = read_input(alloc, tokens, 3)?;
    let begun = read_earlier(alloc, earlier)?;
    Ok(check_all(alloc, given, bundles, table, begun, &text)?)
}

// Writes the record, and keeps it.
#[tactic(auto, using(crate::proofs::CheckLemmas::is_kept, crate::proofs::CheckLemmas::is_unkept))]
fn keep_record<T: UseStore, P: Keep>(sink: &mut P, state: &Record<T>) -> Result<(), ToolFault>
    ensures ok { OnOk result (IsKept (keeping P.told P.stops P.kept sink.old sink.new) (record_text state.now)) }
    ensures fault { IfErr result (λ e. e ≡ ToolFault.Write) }
    ensures part { OnErr result (IsLost (keeping P.told P.stops P.kept sink.old sink.new) (record_text state.now)) }
{
    sink.take_record(state)?;
    match sink.keep() {
        Ok(()) => Ok(()),
        Err(_) => Err(ToolFault::Write),
    }
}

// Writes the record and keeps it, where there is a sink for it.
fn put_kept<T: UseStore, P: Keep>(kept: &mut Option<P>, state: &Record<T>) -> Result<(), ToolFault>
    ensures ok { OnOk result (IsKeptIf (keeping_if P.told P.stops P.kept kept.old kept.new) (record_text state.now)) }
    ensures fault { IfErr result (λ e. e ≡ ToolFault.Write) }
    ensures part { OnErr result (IsLostIf (keeping_if P.told P.stops P.kept kept.old kept.new) (record_text state.now)) }
    ensures there { is_some kept.new ≡ is_some kept.old }
{
    match kept {
        Some(sink) => keep_record(sink, state),
        None => Ok(()),
    }
}

/// Checks each token of the lines of `tokens` that are not empty, at the moment of `given`, or at the record's where that is
/// later, and writes a line for each: `accepted`, the ID of its subject and its expiry, or `refused` and the first refusal that
/// holds. Returns whether all are accepted.
///
/// The verifier accepts the questions of the table. The record of used tokens begins as the join of the batches of all `earlier`,
/// and is new where there are none; each acceptance adds its use, so a token that comes again is refused, and so is a withdrawn
/// one. Where there is `kept`, the whole record after the last check goes there, and is kept, before the first line goes out.
///
/// The inputs are read and judged in this order, before anything is written: the bundles, the table, the tokens, the earlier
/// records, which have the numbers from 4 on (held at 2^64-1). Errors, for the first input that is refused: `Read` where it could
/// not be read, `TooMuch` where it has more than 67,108,864 bytes, and `Bundles`, `Table` or `Wire` where its content is bad.
/// Further errors: `OutOfMemory`, also from a check, and `Write` where a sink stopped. After `Write` a part went out, after the
/// others nothing. `kept` keeps what it kept before, or the whole new record, where only lines were lost. A bad field of an
/// earlier record that came before a failed read or the limit is reported instead of these. The inputs after a refused one, or
/// one that memory was refused for, are as they were.
#[tactic(auto, using(crate::proofs::CheckLemmas::inputs_refused))]
pub fn run_check<B: Source, T: Source, L: Source, R: Source, P: Keep, K: Sink>(
    alloc: Global,
    given: CheckSetting,
    bundles: &mut B,
    table: &mut T,
    tokens: &mut L,
    earlier: &mut [R],
    kept: &mut Option<P>,
    out: &mut K,
) -> Result<bool, ToolFault>
    ensures ok { IfOk result (AreChecked given (record {
      bundles = drawn B.left B.stops bundles.old bundles.new;
      table = drawn T.left T.stops table.old table.new;
      tokens = drawn L.left L.stops tokens.old tokens.new;
      earlier = sources R.left R.stops earlier.old earlier.new;
    }) (record { kept = keeping_if P.told P.stops P.kept kept.old kept.new; out = taken K.told K.stops out.old out.new })) }
    ensures fault { IfErr result (IsCheckFault given (record {
      bundles = drawn B.left B.stops bundles.old bundles.new;
      table = drawn T.left T.stops table.old table.new;
      tokens = drawn L.left L.stops tokens.old tokens.new;
      earlier = sources R.left R.stops earlier.old earlier.new;
    }) (record { kept = keeping_if P.told P.stops P.kept kept.old kept.new; out = taken K.told K.stops out.old out.new })) }
    ensures memory { IfErr result (λ fault. fault ≡ ToolFault.OutOfMemory → IsWanting (record {
      bundles = drawn B.left B.stops bundles.old bundles.new;
      table = drawn T.left T.stops table.old table.new;
      tokens = drawn L.left L.stops tokens.old tokens.new;
      earlier = sources R.left R.stops earlier.old earlier.new;
    }) (table.new ≡ table.old) (tokens.new ≡ tokens.old) (earlier.new ≡ earlier.old)) }
    ensures behind_bundles { IfErr result (λ fault. IsOfInput 1 fault → (table.new ≡ table.old) × (tokens.new ≡ tokens.old) × (earlier.new ≡ earlier.old)) }
    ensures behind_table { IfErr result (λ fault. IsOfInput 2 fault → (tokens.new ≡ tokens.old) × (earlier.new ≡ earlier.old)) }
    ensures behind_tokens { IfErr result (λ fault. IsOfInput 3 fault → earlier.new ≡ earlier.old) }
    ensures unwritten { IfErr result (λ fault. fault ≢ ToolFault.Write → (kept.new ≡ kept.old) × (out.new ≡ out.old)) }
    ensures kept_there { is_some kept.new ≡ is_some kept.old }
{
    let outcome = outcome_of_inputs(alloc, given, bundles, table, tokens, earlier)?;
    put_kept(kept, outcome.validator.replay())?;
    put_text(out, outcome.lines.as_str())?;
    Ok(outcome.accepted)
}
