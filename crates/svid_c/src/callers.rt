ghost use Rattle.std.specs.Prelude.{◌≡◌, ◌↔◌, ◌++◌, ◌∷◌, IfErr, IfOk, IsTrue, List, None, [], OnOk, Some, ℕ, map};
ghost use Rattle.svid_id.specs.declared.id_fault.IdFault.TheVariants.{OutOfMemory};
ghost use Rattle.svid_allow.specs.Pattern.{pattern_parts};
ghost use Rattle.svid_c.specs.Own.{full_lines};
ghost use Rattle.svid_c.specs.Peers.{AllowedBy, MayCall};
ghost use Rattle.svid_c.specs.Rules.{AreCallers, AreGiven, IsCallersFault, IsPatternFault};

use crate::member_open::is_set;
use std::alloc::Global;
use std::marker::Model;
use svid_allow::Pattern;
use svid_id::{IdFault, SpiffeId};
use svid_keys::Lines;

/// The callers that may call: all, or those that a pattern allows.
#[derive(Drop)]
pub struct Callers {
    patterns: Option<Vec<Pattern>>,
}

impl Model for Callers {
    ghost use Rattle.std.specs.Prelude.{List, Option, option_map};
    ghost use Rattle.svid_allow.specs.Pattern.{PatternParts};

    ghost Value = { Option (List PatternParts) };

    ghost view = { λ c. option_map (λ v. v.items) c.patterns };
}

// Whether one of these patterns allows an ID.
fn is_allowed(patterns: &[Pattern], id: &SpiffeId) -> bool
    ensures { IsTrue result ↔ AllowedBy patterns.now id.now }
{
    for pattern in patterns {
        if pattern.allows(id) {
            return true;
        }
    }
    false
}

// Adds a pattern to the others.
fn push_pattern(patterns: &mut Vec<Pattern>, pattern: Pattern) -> Result<(), IdFault>
    ensures added { OnOk result (patterns.new.items ≡ patterns.old.items ++ pattern ∷ []) }
    ensures fault { IfErr result (λ fault. fault ≡ OutOfMemory) }
{
    match patterns.push(pattern) {
        Ok(()) => Ok(()),
        Err(_) => Err(IdFault::OutOfMemory),
    }
}

// Adds the pattern of a line, if the line is not empty.
fn push_line(alloc: Global, patterns: &mut Vec<Pattern>, line: &[u8]) -> Result<(), IdFault>
    ensures added { OnOk result ((more : List (List ℕ)) → map Some patterns.old.items ++ map pattern_parts (full_lines (line.now ∷ more)) ≡ map Some patterns.new.items ++ map pattern_parts (full_lines more)) }
    ensures fault { IfErr result (IsPatternFault line.now) }
{
    if line.is_empty() {
        return Ok(());
    }
    let pattern = match Pattern::parse(alloc, line) {
        Ok(pattern) => pattern,
        Err(fault) => return Err(fault),
    };
    push_pattern(patterns, pattern)
}

// The patterns in the lines of a text. Skips empty lines.
fn patterns_in(alloc: Global, text: &[u8]) -> Result<Vec<Pattern>, IdFault>
    ensures ok { IfOk result (λ patterns. AreCallers text.now patterns.items) }
    ensures fault { IfErr result (IsCallersFault text.now) }
{
    let mut patterns = Vec::new(alloc);
    for line in Lines::of(text) {
        if let Err(fault) = push_line(alloc, &mut patterns, line) {
            return Err(fault);
        }
    }
    Ok(patterns)
}

impl Callers {
    // All may call, or those that a pattern in the lines of a text allows.
    pub(crate) fn read(alloc: Global, all: u64, text: &[u8]) -> Result<Callers, IdFault>
        ensures ok { IfOk result (λ callers. AreGiven all text.now callers) }
        ensures fault { IfErr result (IsCallersFault text.now) }
    {
        if is_set(all) {
            return Ok(Callers::all());
        }
        match patterns_in(alloc, text) {
            Ok(patterns) => Ok(Callers {
                patterns: Some(patterns),
            }),
            Err(fault) => Err(fault),
        }
    }

    // All may call.
    pub(crate) fn all() -> Callers
        ensures { result ≡ None }
    {
        Callers { patterns: None }
    }

    // Whether the caller of this ID may call.
    pub(crate) fn allows(&self, id: &SpiffeId) -> bool
        ensures { IsTrue result ↔ MayCall self.now id.now }
    {
        match &self.patterns {
            None => true,
            Some(patterns) => is_allowed(patterns, id),
        }
    }
}
