//! Checks of tokens in lines.
ghost use Rattle.std.specs.Prelude.{◌≡◌, ◌++◌, ◌∷◌, ◌&&◌, List, ℕ, IfOk, OnOk, string_bytes};
ghost use Rattle.svid_keys.specs.Lines.{lines_of};
ghost use Rattle.svid_check.specs.Setting.{setting_of, with_state};
ghost use Rattle.svid_lines.specs.Checks.{after, are_accepted, due, is_accepted, judgement_line, judgement_lines, judgements, record_after, tokens_of};

use crate::refused::refusal_line;
use std::alloc::{AllocError, Global};
use svid_check::{Accepted, Validator};
use svid_keys::{Lines, Verifier};
use svid_replay::UseStore;

// The line of an acceptance.
fn accepted_line(alloc: Global, accepted: &Accepted) -> Result<String, AllocError>
    ensures { IfOk result (λ line. judgement_line (Ok (Some accepted.now)) ≡ Some (string_bytes line)) }
{
    let id = accepted.id.as_str();
    let exp = accepted.used.exp;
    format!(in alloc; "accepted {id} {exp}\n")
}

// Checks a token: whether it is accepted, and the line that says so.
fn answer<V: Verifier, S: UseStore>(
    alloc: Global,
    validator: &mut Validator<V, S>,
    now: u64,
    token: &[u8],
) -> Result<(bool, String), AllocError>
    ensures said { IfOk result (λ a. (a.0 ≡ is_accepted (due (setting_of V.says validator.old) now validator.old.state token.now))
        × (judgement_line (due (setting_of V.says validator.old) now validator.old.state token.now) ≡ Some (string_bytes a.1))) }
    ensures state { OnOk result (validator.new ≡ with_state validator.old (after (setting_of V.says validator.old) now validator.old.state token.now)) }
{
    match validator.check(now, token) {
        Ok(accepted) => Ok((true, accepted_line(alloc, &accepted)?)),
        Err(refusal) => Ok((false, refusal_line(alloc, refusal)?)),
    }
}

// Checks the token on a line, if the line is not empty, and adds its line to the text. Returns whether it is accepted. An empty
// line adds none, and counts as accepted.
fn check_line<V: Verifier, S: UseStore>(
    alloc: Global,
    validator: &mut Validator<V, S>,
    now: u64,
    line: &[u8],
    text: &mut String,
) -> Result<bool, AllocError>
    ensures rest { OnOk result (validator.new ≡ with_state validator.old validator.new.state) }
    ensures state { OnOk result ((more : List (List ℕ))
        → record_after (setting_of V.says validator.old) now validator.old.state (tokens_of (line.now ∷ more))
        ≡ record_after (setting_of V.says validator.old) now validator.new.state (tokens_of more)) }
    ensures lines { OnOk result ((more : List (List ℕ))
        → string_bytes text.old ++ judgement_lines (judgements (setting_of V.says validator.old) now validator.old.state (tokens_of (line.now ∷ more)))
        ≡ string_bytes text.new ++ judgement_lines (judgements (setting_of V.says validator.old) now validator.new.state (tokens_of more))) }
    ensures accepted { IfOk result (λ accepted. (more : List (List ℕ))
        → are_accepted (judgements (setting_of V.says validator.old) now validator.old.state (tokens_of (line.now ∷ more)))
        ≡ (accepted && are_accepted (judgements (setting_of V.says validator.old) now validator.new.state (tokens_of more)))) }
{
    if line.is_empty() {
        return Ok(true);
    }
    let (accepted, said) = answer(alloc, validator, now, line)?;
    text.push_str(said.as_str())?;
    Ok(accepted)
}

/// Checks the token of each line that is not empty, at a moment in seconds, or at the validator's where that is later. Returns
/// whether all are accepted, and the lines that say so.
///
/// Where memory is refused it stops, and returns no lines.
pub fn check_lines<V: Verifier, S: UseStore>(
    alloc: Global,
    validator: &mut Validator<V, S>,
    now: u64,
    tokens: &[u8],
) -> Result<(bool, String), AllocError>
    ensures rest { OnOk result (validator.new ≡ with_state validator.old validator.new.state) }
    ensures state { OnOk result (validator.new.state ≡ record_after (setting_of V.says validator.old) now validator.old.state (tokens_of (lines_of tokens.now))) }
    ensures accepted { IfOk result (λ a. a.0 ≡ are_accepted (judgements (setting_of V.says validator.old) now validator.old.state (tokens_of (lines_of tokens.now)))) }
    ensures lines { IfOk result (λ a. string_bytes a.1 ≡ judgement_lines (judgements (setting_of V.says validator.old) now validator.old.state (tokens_of (lines_of tokens.now)))) }
{
    let mut text = String::new(alloc);
    let mut accepted = true;
    for line in Lines::of(tokens) {
        let is_good = check_line(alloc, validator, now, line, &mut text)?;
        accepted = accepted && is_good;
    }
    Ok((accepted, text))
}
