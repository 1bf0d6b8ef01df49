ghost use Rattle.std.specs.Prelude.{◌≡◌, ◌≢◌, ◌⊎◌, length, unwrap_or};
ghost use Rattle.svid_id.specs.Id.{IdParts, IsId, id_fault};
ghost use Rattle.svid_c.specs.Status.{id_number, id_offset};

use std::alloc::Global;
use svid_id::{IdFault, SpiffeId};

/// The lengths of an ID's parts, in bytes, or the offset of its fault; 0 elsewhere.
#[repr(C)]
#[derive(Drop)]
pub struct SvidId {
    /// The offset of the fault, in bytes from the start of the text; 0 for a fault without one.
    pub offset: usize,
    /// The length of the trust domain name, which follows `spiffe://`.
    pub domain_len: usize,
    /// The length of the path, which follows the trust domain name.
    pub path_len: usize,
}

pub(crate) fn number_of(fault: IdFault) -> u32
    ensures { result ≡ id_number fault }
{
    match fault {
        IdFault::OutOfMemory => 2,
        IdFault::TooLong => 21,
        IdFault::Scheme => 22,
        IdFault::DomainEmpty => 23,
        IdFault::DomainByte(_) => 24,
        IdFault::DomainLong => 25,
        IdFault::SegmentEmpty(_) => 26,
        IdFault::SegmentDots(_) => 27,
        IdFault::PathByte(_) => 28,
    }
}

pub(crate) fn offset_of(fault: IdFault) -> usize
    ensures { result ≡ id_offset fault }
{
    match fault {
        IdFault::DomainByte(offset)
        | IdFault::SegmentEmpty(offset)
        | IdFault::SegmentDots(offset)
        | IdFault::PathByte(offset) => offset,
        IdFault::TooLong
        | IdFault::Scheme
        | IdFault::DomainEmpty
        | IdFault::DomainLong
        | IdFault::OutOfMemory => 0,
    }
}

/// Parses a SPIFFE ID (SPIFFE-ID, section 2). Returns 0 if the text is one, and `out` has the lengths of its
/// parts. Else returns the number of the first fault that holds, and its offset, if it has one; or 2 if out of
/// memory.
#[unsafe(no_mangle)]
pub extern "C" fn svid_id_parse(alloc: Global, text: &[u8], out: &mut SvidId) -> u32
    ensures accepted { result ≡ 0 → (id : IdParts) × IsId text.now id × (out.new.domain_len ≡ length id.domain) × (out.new.path_len ≡ length id.path) × (out.new.offset ≡ 0) }
    ensures refused { result ≢ 0 → let fault = unwrap_or (id_fault text.now) IdFault.OutOfMemory in
        (result ≡ id_number fault) × (out.new.offset ≡ id_offset fault) × (out.new.domain_len ≡ 0) × (out.new.path_len ≡ 0) }
    ensures only { (id : IdParts) → IsId text.now id → (result ≡ 0) ⊎ (result ≡ 2) }
{
    match SpiffeId::parse(alloc, text) {
        Ok(id) => {
            *out = SvidId {
                offset: 0,
                domain_len: id.domain().len(),
                path_len: id.path().len(),
            };
            0
        }
        Err(fault) => {
            *out = SvidId {
                offset: offset_of(fault),
                domain_len: 0,
                path_len: 0,
            };
            number_of(fault)
        }
    }
}
