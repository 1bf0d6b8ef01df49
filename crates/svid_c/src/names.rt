ghost use Rattle.std.specs.Prelude.{◌≡◌, ◌≢◌, ◌≤◌, ◌++◌, [], ◌∷◌, ℕ, List, length, map, IfOk, IfErr, IsUtf8, OnOk, string_bytes};
ghost use Rattle.std.specs.List.{sum};
ghost use Rattle.svid_c.specs.Own.{AreCut, AreLines, IsCutFault, IsLineFault, IsTextFault, full_lines};
ghost use Rattle.svid_c.specs.declared.own_fault.OwnFault.TheVariants.{Lengths};

use crate::own_fault::OwnFault;
use std::alloc::{AllocError, Global};
use std::str;
use svid_keys::Lines;

// Adds a name to the others.
fn push_name(alloc: Global, names: &mut Vec<String>, name: &str) -> Result<(), AllocError>
    ensures { OnOk result (map string_bytes names.new.items ≡ map string_bytes names.old.items ++ name.now ∷ []) }
{
    names.push(String::from_str(alloc, name)?)?;
    Ok(())
}

// Adds a text as a name.
fn push_text(alloc: Global, names: &mut Vec<String>, text: &[u8]) -> Result<(), OwnFault>
    ensures added { OnOk result (map string_bytes names.new.items ≡ map string_bytes names.old.items ++ text.now ∷ []) }
    ensures name { OnOk result (IsUtf8 text.now) }
    ensures fault { IfErr result (IsTextFault text.now) }
{
    match str::from_utf8(text) {
        Ok(name) => Ok(push_name(alloc, names, name)?),
        Err(_) => Err(OwnFault::NotUtf8),
    }
}

// Adds a line as a name, if it is not empty.
fn push_line(alloc: Global, names: &mut Vec<String>, line: &[u8]) -> Result<(), OwnFault>
    ensures added { OnOk result ((more : List (List ℕ)) → map string_bytes names.old.items ++ full_lines (line.now ∷ more) ≡ map string_bytes names.new.items ++ full_lines more) }
    ensures name { OnOk result (IsUtf8 line.now) }
    ensures fault { IfErr result (IsTextFault line.now) }
{
    if line.is_empty() {
        return Ok(());
    }
    push_text(alloc, names, line)
}

// The audiences in the lines of a text. Skips empty lines.
pub(crate) fn names_in(alloc: Global, text: &[u8]) -> Result<Vec<String>, OwnFault>
    ensures ok { IfOk result (λ names. AreLines text.now (map string_bytes names.items)) }
    ensures fault { IfErr result (IsLineFault text.now) }
{
    let mut names = Vec::new(alloc);
    for line in Lines::of(text) {
        push_line(alloc, &mut names, line)?;
    }
    Ok(names)
}

// Whether the lengths of pieces add up to that of the whole.
fn check_lengths(lens: &[usize], len: usize) -> Result<(), OwnFault>
    ensures ok { OnOk result (sum lens.now ≡ len) }
    ensures fault { IfErr result (λ given. (given ≡ Lengths) × (sum lens.now ≢ len)) }
{
    let mut left = len;
    for one in lens {
        if *one > left {
            return Err(OwnFault::Lengths);
        }
        left -= *one;
    }
    if left > 0 {
        return Err(OwnFault::Lengths);
    }
    Ok(())
}

// The audiences in a text, cut at these lengths, which add up to its own.
fn cut(alloc: Global, text: &[u8], lens: &[usize]) -> Result<Vec<String>, OwnFault>
    requires { sum lens.now ≡ length text.now }
    ensures ok { IfOk result (λ names. AreCut text.now lens.now (map string_bytes names.items)) }
    ensures fault { IfErr result (IsCutFault text.now lens.now) }
{
    let mut names = Vec::new(alloc);
    let mut rest = text;
    for len in lens {
        let (piece, behind) = rest.split_at(*len);
        if let Err(fault) = push_text(alloc, &mut names, piece) {
            return Err(fault);
        }
        rest = behind;
    }
    Ok(names)
}

// The audiences that stand in a text one after the other, with these lengths.
pub(crate) fn names_by(alloc: Global, text: &[u8], lens: &[usize]) -> Result<Vec<String>, OwnFault>
    ensures ok { IfOk result (λ names. AreCut text.now lens.now (map string_bytes names.items)) }
    ensures fault { IfErr result (IsCutFault text.now lens.now) }
{
    check_lengths(lens, text.len())?;
    cut(alloc, text, lens)
}
