ghost use Rattle.std.specs.Prelude.{◌≡◌, ◌<◌, ◌^◌, ◌++◌, OnOk, length};
ghost use Rattle.svid_keys.specs.Question.{field};
ghost use Rattle.svid_c.specs.Checked.{refusal_number};
ghost use Rattle.svid_c.specs.Status.{told_length, told_rows};
ghost use Rattle.svid_c.specs.Written.{IsPut};

use crate::refusal::refusal_number;
use crate::told::{SvidTold, told_length, told_rows};
use crate::writing::put;
use std::alloc::AllocError;
use svid_token::Refusal;

// Adds a field after its length.
pub(crate) fn push_field(row: &mut Vec<u8>, bytes: &[u8]) -> Result<(), AllocError>
    requires { length bytes.now < 2 ^ 32 }
    ensures { OnOk result (row.new.items ≡ row.old.items ++ field bytes.now) }
{
    row.extend_from_slice(&(bytes.len() as u32).to_be_bytes())?;
    row.extend_from_slice(bytes)?;
    Ok(())
}

// Writes rows, and whether there are more.
pub(crate) fn put_rows(rows: &[u8], more: bool, out: &mut [u8], told: &mut SvidTold) -> u32
    ensures put { IsPut rows.now result out.old out.new }
    ensures told { told.new ≡ told_rows (length rows.now) more }
{
    let status = put(rows, out, told);
    *told = told_rows(rows.len(), more);
    status
}

// Reports why a token is refused.
pub(crate) fn refuse_token(refusal: Refusal, told: &mut SvidTold) -> u32
    ensures number { result ≡ refusal_number refusal }
    ensures told { told.new ≡ told_length 0 }
{
    *told = told_length(0);
    refusal_number(refusal)
}
