ghost use Rattle.std.specs.Prelude.{◌≡◌, length};
ghost use Rattle.svid_c.specs.Status.{fault_number, told_fault, told_length};
ghost use Rattle.svid_c.specs.Written.{IsPut};

use crate::told::{SvidTold, fault_number, told_fault, told_length};
use svid_share::ToolFault;

// Writes a text to the start of the room that the caller lends, if it has room: 0, and else 1.
pub(crate) fn put(text: &[u8], out: &mut [u8], told: &mut SvidTold) -> u32
    ensures put { IsPut text.now result out.old out.new }
    ensures told { told.new ≡ told_length (length text.now) }
{
    *told = told_length(text.len());
    if text.len() > out.len() {
        return 1;
    }
    out[..text.len()].copy_from_slice(text);
    0
}

// Reports why there is no text.
pub(crate) fn refuse(fault: ToolFault, told: &mut SvidTold) -> u32
    ensures number { result ≡ fault_number fault }
    ensures told { told.new ≡ told_fault fault }
{
    *told = told_fault(fault);
    fault_number(fault)
}
