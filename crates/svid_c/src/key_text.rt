ghost use Rattle.std.specs.Prelude.{◌≡◌};
ghost use Rattle.svid_c.specs.KeyText.{PutsText, entry_number};

use crate::told::SvidTold;
use crate::validator::only;
use crate::writing::put;
use std::alloc::Global;
use svid_documents::{EntryFault, key_text};

fn entry_number(fault: EntryFault) -> u32
    ensures { result ≡ entry_number fault }
{
    match fault {
        EntryFault::OutOfMemory => 2,
        EntryFault::NotObject => 61,
        EntryFault::NoUse => 62,
        EntryFault::X509 => 63,
        EntryFault::Use => 64,
        EntryFault::Kid => 65,
        EntryFault::Kty => 66,
        EntryFault::Number => 67,
        EntryFault::TooLong => 68,
    }
}

/// Writes the text of a key for JWT-SVIDs to the start of `out`. `entry` is an entry of `keys` of a trust bundle (RFC 7517, section 5;
/// SPIFFE Trust Domain and Bundle, section 4). The text is the one that [`svid_bundles_ask`](crate::bundles_ask::svid_bundles_ask) lists
/// for the key: compact JSON, with its names in rising order.
///
/// Returns 0, with the text's length in `told.len`; or 1 if it is longer than `out`. 65,536 bytes are always enough. The first
/// entry fault that holds, in the order of [`EntryFault`], if the entry is not such a key; 2 if out of memory. Unless the status is 0, `out` is
/// unchanged.
#[unsafe(no_mangle)]
pub extern "C" fn svid_key_text(
    alloc: Global,
    entry: &[u8],
    out: &mut [u8],
    told: &mut SvidTold,
) -> u32
    ensures { PutsText entry.now result told.new out.old out.new }
{
    match key_text(alloc, entry) {
        Ok(text) => put(text.as_bytes(), out, told),
        Err(fault) => only(entry_number(fault), told),
    }
}
