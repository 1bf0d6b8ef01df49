//! What holds of the definitions that this crate's contracts cite: the contracts of functions that
//! do nothing.

ghost use Rattle.std.specs.Prelude.{◌≡◌, ◌≢◌, ◌↔◌, ◌⊎◌, ◌<◌, ◌≤◌, ◌+◌, ◌++◌, ℕ, List, Some, None, [], codes, length};
ghost use Rattle.std.specs.List.{AllPass};
ghost use Rattle.svid_id.specs.Id.{IdParts, IsId};
ghost use Rattle.svid_id.specs.Path.{IsPath, IsSegment};
ghost use Rattle.svid_id.specs.declared.id_fault.IdFault.{IdFault};
ghost use Rattle.svid_allow.specs.Allows.{Allows, IsBelow, alone, below, child, is_no_star};
ghost use Rattle.svid_allow.specs.Pattern.{IsPattern, PatternParts, pattern_fault, pattern_parts, pattern_text};

/// A text has no fault exactly if it is a pattern. Its ID and its reach are unique, they are those
/// that are read from it, and they are read from their own text again. Want of memory is the fault
/// of no text.
pub fn no_fault_means_pattern()
    ensures exactly { (text : List ℕ)
        → (pattern_fault text ≡ None) ↔ ((pattern : PatternParts) × IsPattern text pattern) }
    ensures unique { (text : List ℕ) (one other : PatternParts)
        → IsPattern text one → IsPattern text other → one ≡ other }
    ensures no_memory { (text : List ℕ) → pattern_fault text ≢ Some IdFault.OutOfMemory }
    ensures parts { (text : List ℕ) (pattern : PatternParts)
        → (pattern_parts text ≡ Some pattern) ↔ IsPattern text pattern }
    ensures again { (text : List ℕ) (pattern : PatternParts) → IsPattern text pattern
        → pattern_parts (pattern_text pattern) ≡ Some pattern }
    ensures short { (text : List ℕ) (pattern : PatternParts)
        → IsPattern text pattern → length text ≤ 2050 }
{}

/// No byte of an ID is `*`. Each ID is a pattern, which allows it, and so is each ID with `/*`.
pub fn each_id_is_a_pattern()
    ensures no_star { (text : List ℕ) (id : IdParts) → IsId text id → AllPass is_no_star text }
    ensures id { (text : List ℕ) (id : IdParts) → IsId text id
        → (pattern : PatternParts) × IsPattern text pattern × Allows pattern id }
    ensures below { (text : List ℕ) (id : IdParts) → IsId text id
        → IsPattern (text ++ codes "/*") (below id) }
{}

/// A pattern that is an ID with a path allows exactly that ID.
pub fn id_allows_itself_alone()
    ensures { (text : List ℕ) (one id : IdParts) (pattern : PatternParts) → IsId text one
        → 0 < length one.path → IsPattern text pattern → Allows pattern id ↔ (id ≡ one) }
{}

/// A pattern that is an ID without a path allows each ID of its trust domain, and no other.
pub fn domain_allows_its_ids()
    ensures { (text : List ℕ) (one id : IdParts) (pattern : PatternParts) → IsId text one
        → one.path ≡ [] → IsPattern text pattern → Allows pattern id ↔ (id.domain ≡ one.domain) }
{}

/// A pattern that is an ID and `/*` allows what is below that ID, segment for segment: the ID with
/// one segment more, and what is below that. It never allows the ID itself.
pub fn star_allows_what_is_below()
    ensures allows { (text : List ℕ) (above id : IdParts) (pattern : PatternParts)
        → IsId text above → IsPattern (text ++ codes "/*") pattern
        → Allows pattern id ↔ ((id.domain ≡ above.domain) × IsBelow above.path id.path) }
    ensures step { (above id : IdParts) → IsPath above.path → Allows (below above) id
        ↔ ((segment : List ℕ) × IsSegment segment
        × (Allows (alone (child above segment)) id ⊎ Allows (below (child above segment)) id)) }
    ensures longer { (above id : IdParts) → Allows (below above) id
        → length above.path + 1 < length id.path }
{}

/// No pattern allows IDs of two trust domains.
pub fn one_trust_domain()
    ensures { (pattern : PatternParts) (one other : IdParts)
        → Allows pattern one → Allows pattern other → one.domain ≡ other.domain }
{}

/// Whether a pattern allows an ID is a matter of their two texts.
pub fn texts_decide()
    ensures { (text name : List ℕ) (one other : PatternParts) (id also : IdParts)
        → IsPattern text one → IsPattern text other → IsId name id → IsId name also
        → Allows one id → Allows other also }
{}
