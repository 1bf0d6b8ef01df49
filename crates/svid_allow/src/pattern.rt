ghost use Rattle.std.specs.Prelude.{◌≡◌, ◌↔◌, IfOk, IfErr, IsOkUnless, IsTrue, Some, unwrap_or};
ghost use Rattle.svid_allow.specs.Allows.{Allows, IsBelow};
ghost use Rattle.svid_allow.specs.Pattern.{IsPattern, PatternParts, has_mark, pattern_fault, pattern_parts, pattern_text, reach_of};

use crate::reach::Reach;
use crate::text::{goes_on, has_mark, id_in, to_text};
use std::alloc::{AllocError, Global};
use std::marker::Model;
use svid_id::{IdFault, SpiffeId};

/// A pattern of SPIFFE IDs: an ID with a path, an ID and `/*`, or an ID without a path.
///
/// Contracts see it as the ID and its reach.
#[derive(Debug, Drop)]
pub struct Pattern {
    text: String,
    id: SpiffeId,
    reach: Reach,
}

impl Model for Pattern {
    ghost use Rattle.std.specs.String.{string_bytes};
    ghost use Rattle.svid_allow.specs.Pattern.{IsPattern, PatternParts};

    ghost Value = { PatternParts };

    ghost view = { λ pattern. record { id = pattern.id; reach = pattern.reach } };

    ghost invariant = { λ pattern. IsPattern (string_bytes pattern.text)
        (record { id = pattern.id; reach = pattern.reach }) };
}

impl Pattern {
    /// Reads a pattern from the bytes of its text, at most 2,050 of them: an ID, and `/*`.
    ///
    /// Of a text that is no pattern, the fault of the ID in it is answered, which is what stands
    /// before `/*` at the text's end, or the whole text. The ID stands at the text's start, so the
    /// offset is one in the text too. Of a pattern, `OutOfMemory` alone.
    pub fn parse(alloc: Global, text: &[u8]) -> Result<Pattern, IdFault>
        ensures ok { IfOk result (λ pattern. IsPattern text.now pattern) }
        ensures value { IfOk result (λ pattern. pattern_parts text.now ≡ Some pattern) }
        ensures fault { IfErr result
            (λ fault. fault ≡ unwrap_or (pattern_fault text.now) IdFault.OutOfMemory) }
        ensures only { (pattern : PatternParts) → IsPattern text.now pattern
            → IsOkUnless result IdFault.OutOfMemory }
    {
        let id = SpiffeId::parse(alloc, id_in(text))?;
        let reach = reach_of(text, id.path().as_bytes());
        let text = to_text(alloc, text)?;
        Ok(Pattern { text, id, reach })
    }

    /// The whole text, from which `parse` reads this pattern again.
    pub fn as_str(&self) -> &str
        ensures text { result.now ≡ pattern_text self.now }
        ensures pattern { IsPattern result.now self.now }
    {
        self.text.as_str()
    }

    /// Whether the pattern allows an ID. Allocates nothing.
    ///
    /// What is below a path is so by whole segments: `/billing/*` allows `/billing/a` and
    /// `/billing/a/b`, and neither `/billing` nor `/billingx/a`.
    pub fn allows(&self, id: &SpiffeId) -> bool
        ensures { IsTrue result ↔ Allows self.now id.now }
    {
        match self.reach {
            Reach::Alone => same_id(&self.id, id),
            Reach::Below => same_domain(&self.id, id) && is_below(id, &self.id),
            Reach::Domain => same_domain(&self.id, id),
        }
    }
}

impl Clone for Pattern {
    ghost is_clone = { λ pattern copy. copy ≡ pattern };

    fn clone(&self) -> Result<Pattern, AllocError> {
        let text = self.text.clone()?;
        let id = self.id.clone()?;
        Ok(Pattern {
            text,
            id,
            reach: self.reach,
        })
    }
}

// How far a pattern of this text reaches, whose ID has this path.
fn reach_of(text: &[u8], path: &[u8]) -> Reach
    ensures { result ≡ reach_of (has_mark text.now) path.now }
{
    if has_mark(text) {
        Reach::Below
    } else if path.is_empty() {
        Reach::Domain
    } else {
        Reach::Alone
    }
}

fn same_id(one: &SpiffeId, other: &SpiffeId) -> bool
    ensures { IsTrue result ↔ (other.now ≡ one.now) }
{
    one.as_str() == other.as_str()
}

fn same_domain(one: &SpiffeId, other: &SpiffeId) -> bool
    ensures { IsTrue result ↔ (other.now.domain ≡ one.now.domain) }
{
    other.domain() == one.domain()
}

// Whether the path of an ID is below that of another one.
fn is_below(id: &SpiffeId, above: &SpiffeId) -> bool
    ensures { IsTrue result ↔ IsBelow above.now.path id.now.path }
{
    goes_on(id.path().as_bytes(), above.path().as_bytes())
}
