ghost use Rattle.std.specs.Prelude.{◌≡◌, ◌≢◌, ◌++◌, IfOk, IfErr, OnOk, Some, string_bytes};
ghost use Rattle.std.specs.List.{flat_map};
ghost use Rattle.svid_token.specs.Rows.{Answers};
ghost use Rattle.svid_keys.specs.Candidates.{candidates_left};
ghost use Rattle.svid_check.specs.Said.{said_in};
ghost use Rattle.svid_wire.specs.Streams.{drawn, taken};
ghost use Rattle.svid_lines.specs.Candidates.{AreCandidatesPrinted, AreRefused, IsCandidatesAnswer, IsCandidatesFault, IsOfFirst, IsWanting, accepts, candidate_line, first_token, lines_due, printed};

use crate::bundles::read_bundles;
use crate::refused::refusal_line;
use crate::shown::shown_text;
use serde_json::Value;
use std::alloc::{AllocError, Global};
use std::fmt::Write;
use svid_check::Reading;
use svid_keys::{Bundles, Candidates, JwtKey, Lines, question};
use svid_share::{ToolFault, put_text, read_input};
use svid_token::Refusal;
use svid_wire::{Sink, Source};

fn push_line(
    alloc: Global,
    text: &mut String,
    key: &JwtKey,
    reading: &Reading,
) -> Result<(), AllocError>
    ensures { OnOk result (string_bytes text.new ≡ string_bytes text.old ++ candidate_line (said_in reading.now) key.now) }
{
    let asked = question(key, reading.header.alg, &reading.input, &reading.signature);
    let asked = hex::encode(alloc, asked.as_slice())?;
    let kid = Value::String(String::from_str(alloc, key.kid())?).to_string(alloc)?;
    let kid = shown_text(alloc, kid.as_str())?;
    writeln!(text, "{asked} {kid}")
}

fn candidate_lines(
    alloc: Global,
    candidates: Candidates<'_>,
    reading: &Reading,
) -> Result<String, AllocError>
    ensures { IfOk result (λ text. string_bytes text ≡ flat_map (candidate_line (said_in reading.now)) (candidates_left candidates.entry)) }
{
    let mut text = String::new(alloc);
    for key in candidates {
        push_line(alloc, &mut text, key, reading)?;
    }
    Ok(text)
}

/// A line for each candidate key of a token, as [`run_candidates`] writes it; or why there is none: the first that holds of the
/// refusals of a token by itself, and then `UnknownDomain` and `NoKey`; or `OutOfMemory`.
pub fn token_lines(alloc: Global, bundles: &Bundles, token: &[u8]) -> Result<String, Refusal>
    ensures { Answers string_bytes result (lines_due bundles.now token.now) }
{
    let reading = Reading::of(alloc, token)?;
    let candidates = reading.candidates(bundles)?;
    Ok(candidate_lines(alloc, candidates, &reading)?)
}

// The output for a token, and whether there are candidates.
fn answer(alloc: Global, bundles: &Bundles, token: &[u8]) -> Result<(bool, String), AllocError>
    ensures { IfOk result (λ a. (a.0 ≡ accepts (lines_due bundles.now token.now)) × (printed (lines_due bundles.now token.now) ≡ Some (string_bytes a.1))) }
{
    match token_lines(alloc, bundles, token) {
        Ok(lines) => Ok((true, lines)),
        Err(refusal) => Ok((false, refusal_line(alloc, refusal)?)),
    }
}

// The first line that is not empty, or no bytes.
fn first_token(text: &[u8]) -> &[u8]
    ensures { result.now ≡ first_token text.now }
{
    for line in Lines::of(text) {
        if !line.is_empty() {
            return line;
        }
    }
    &[]
}

// The output for both inputs, and whether there are candidates.
#[tactic(auto, using(crate::proofs::CandidatesLemmas::first_refused, crate::proofs::CandidatesLemmas::second_refused, crate::proofs::CandidatesLemmas::first_wants, crate::proofs::CandidatesLemmas::second_wants))]
fn text_of_inputs<B: Source, T: Source>(
    alloc: Global,
    bundles: &mut B,
    tokens: &mut T,
) -> Result<(bool, String), ToolFault>
    ensures ok { IfOk result (λ a. IsCandidatesAnswer
        (record { bundles = drawn B.left B.stops bundles.old bundles.new; tokens = drawn T.left T.stops tokens.old tokens.new })
        a.0 (string_bytes a.1)) }
    ensures fault { IfErr result (AreRefused
        (record { bundles = drawn B.left B.stops bundles.old bundles.new; tokens = drawn T.left T.stops tokens.old tokens.new })) }
    ensures memory { IfErr result (λ fault. fault ≡ ToolFault.OutOfMemory → IsWanting
        (record { bundles = drawn B.left B.stops bundles.old bundles.new; tokens = drawn T.left T.stops tokens.old tokens.new })
        (tokens.new ≡ tokens.old)) }
    ensures tokens_kept { IfErr result (λ fault. IsOfFirst fault → tokens.new ≡ tokens.old) }
{
    let bundles = read_bundles(alloc, bundles)?;
    let lines = read_input(alloc, tokens, 2)?;
    Ok(answer(alloc, &bundles, first_token(&lines))?)
}

/// Writes a line for each candidate key of the first token: the question (is the token's signature good for this key?) in
/// hexadecimal digits, and the key's name as JSON, in which U+007F to U+009F are escaped. Where there is no candidate, writes one
/// line that says why. Returns whether there are candidates.
///
/// The first input is trust bundles, the second one tokens in lines; empty lines are skipped, and where there is no other, the
/// token is empty. They are read and judged in this order, before anything is written. Errors: `Bundles` where the first input
/// does not parse as bundles, `Read` where an input could not be read, `TooMuch` where it has more than 67,108,864 bytes,
/// `OutOfMemory`, and `Write` where the sink stopped. After `Write` part of the text went out, after the others nothing. Where
/// the first input is at fault, or memory was refused for it, the second is as it was.
#[tactic(auto, using(crate::proofs::CandidatesLemmas::inputs_refused))]
pub fn run_candidates<B: Source, T: Source, K: Sink>(
    alloc: Global,
    bundles: &mut B,
    tokens: &mut T,
    out: &mut K,
) -> Result<bool, ToolFault>
    ensures ok { IfOk result (AreCandidatesPrinted
        (record { bundles = drawn B.left B.stops bundles.old bundles.new; tokens = drawn T.left T.stops tokens.old tokens.new })
        (taken K.told K.stops out.old out.new)) }
    ensures fault { IfErr result (IsCandidatesFault
        (record { bundles = drawn B.left B.stops bundles.old bundles.new; tokens = drawn T.left T.stops tokens.old tokens.new })
        (taken K.told K.stops out.old out.new)) }
    ensures memory { IfErr result (λ fault. fault ≡ ToolFault.OutOfMemory → IsWanting
        (record { bundles = drawn B.left B.stops bundles.old bundles.new; tokens = drawn T.left T.stops tokens.old tokens.new })
        (tokens.new ≡ tokens.old)) }
    ensures tokens_kept { IfErr result (λ fault. IsOfFirst fault → tokens.new ≡ tokens.old) }
    ensures kept { IfErr result (λ fault. fault ≢ ToolFault.Write → out.new ≡ out.old) }
{
    let (accepted, text) = text_of_inputs(alloc, bundles, tokens)?;
    put_text(out, text.as_str())?;
    Ok(accepted)
}
