//! What holds of the definitions that this crate's contracts cite: the contracts of functions that
//! do nothing.

ghost use Rattle.std.specs.Prelude.{◌≡◌, ◌≢◌, ◌↔◌, ℕ, List};
ghost use Rattle.svid_id.specs.Domain.{IsDomain, domain_fault};
ghost use Rattle.svid_id.specs.Id.{IdParts, IsId, id_fault, id_parts};

use crate::id_fault::IdFault;

/// A text has no fault exactly if some trust domain name and path make it an ID. These are unique,
/// and they are the parts that are read from it. Want of memory is the fault of no text.
pub fn no_fault_means_id()
    ensures exactly { (text : List ℕ) → (id_fault text ≡ None) ↔ ((id : IdParts) × IsId text id) }
    ensures unique { (text : List ℕ) (one other : IdParts)
        → IsId text one → IsId text other → one ≡ other }
    ensures no_memory { (text : List ℕ) → id_fault text ≢ Some IdFault.OutOfMemory }
    ensures parts { (text : List ℕ) (id : IdParts) → (id_parts text ≡ Some id) ↔ IsId text id }
{}

/// A text has no fault as a trust domain name, wherever it stands, exactly if it is one. Want of
/// memory is the fault of no name.
pub fn no_fault_means_domain()
    ensures exactly { (offset : ℕ) (text : List ℕ)
        → (domain_fault offset text ≡ None) ↔ IsDomain text }
    ensures no_memory { (offset : ℕ) (text : List ℕ)
        → domain_fault offset text ≢ Some IdFault.OutOfMemory }
{}
