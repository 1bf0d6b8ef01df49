ghost use Rattle.std.specs.Prelude.{◌≡◌};
ghost use Rattle.svid_c.specs.Allowed.{MayCall, parts_told, pattern_number, offset_told};

use crate::id_parse::{SvidId, number_of, offset_of};
use std::alloc::Global;
use svid_allow::Pattern;
use svid_id::{IdFault, SpiffeId};

pub(crate) fn pattern_number(fault: IdFault) -> u32
    ensures { result ≡ pattern_number fault }
{
    match fault {
        IdFault::OutOfMemory => 2,
        IdFault::TooLong => 92,
        IdFault::Scheme => 93,
        IdFault::DomainEmpty => 94,
        IdFault::DomainByte(_) => 95,
        IdFault::DomainLong => 96,
        IdFault::SegmentEmpty(_) => 97,
        IdFault::SegmentDots(_) => 98,
        IdFault::PathByte(_) => 99,
    }
}

fn told_parts(id: &SpiffeId) -> SvidId
    ensures { result ≡ parts_told id.now }
{
    SvidId {
        offset: 0,
        domain_len: id.domain().len(),
        path_len: id.path().len(),
    }
}

fn told_offset(offset: usize) -> SvidId
    ensures { result ≡ offset_told offset }
{
    SvidId {
        offset,
        domain_len: 0,
        path_len: 0,
    }
}

/// Returns 0 if a pattern allows an ID, and 91 if it doesn't; `out` then has the lengths of the ID's parts. A pattern is one of three: an ID
/// with a path allows that ID alone; an ID and `/*` allows all IDs below its path; an ID without a path allows all IDs of its trust domain.
///
/// A pattern fault if the pattern does not parse: 71 more than the number of the fault of the ID in it. Else an ID fault if the ID does not parse.
/// `out` has the offset of the fault, if that has one, and else 0. 2 if out of memory.
#[unsafe(no_mangle)]
pub extern "C" fn svid_id_allows(alloc: Global, pattern: &[u8], id: &[u8], out: &mut SvidId) -> u32
    ensures { MayCall pattern.now id.now result out.new }
{
    let pattern = match Pattern::parse(alloc, pattern) {
        Ok(pattern) => pattern,
        Err(fault) => {
            *out = told_offset(offset_of(fault));
            return pattern_number(fault);
        }
    };
    let id = match SpiffeId::parse(alloc, id) {
        Ok(id) => id,
        Err(fault) => {
            *out = told_offset(offset_of(fault));
            return number_of(fault);
        }
    };
    *out = told_parts(&id);
    if pattern.allows(&id) { 0 } else { 91 }
}
