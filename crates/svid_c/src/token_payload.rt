ghost use Rattle.std.specs.Prelude.{Some};
ghost use Rattle.svid_token.specs.Part.{bytes_due};
ghost use Rattle.svid_token.specs.Rows.{Answers};
ghost use Rattle.svid_c.specs.TokenPayload.{PutsPayload};

use crate::rows::refuse_token;
use crate::told::SvidTold;
use crate::writing::put;
use std::alloc::Global;
use svid_token::{Compact, PartFault, Refusal, decode_part};

// The bytes that the second part of a token encodes.
fn read_payload(alloc: Global, part: &[u8]) -> Result<Vec<u8>, Refusal>
    ensures { Answers (λ v. Some v.items) result (bytes_due Refusal.PayloadSpelling part.now) }
{
    match decode_part(alloc, part) {
        Ok(bytes) => Ok(bytes),
        Err(PartFault::Spelling) => Err(Refusal::PayloadSpelling),
        Err(PartFault::OutOfMemory) => Err(Refusal::OutOfMemory),
    }
}

/// Writes the payload of a token to the start of `out`: the bytes that its second part encodes (RFC 7515, section 5.2). For a JWT-SVID these
/// are its claims as JSON (RFC 7519, section 3). Judges nothing, and reads no other part.
///
/// Returns 0, with the payload's length in `told.len`; or 1 if it is longer than `out`. 49,150 bytes are always enough. 101 if the token has
/// more than 65,536 bytes, 102 if it does not have three parts, 109 if the second one is not base64url; 2 if out of memory. Unless the
/// status is 0, `out` is unchanged.
#[unsafe(no_mangle)]
pub extern "C" fn svid_token_payload(
    alloc: Global,
    token: &[u8],
    out: &mut [u8],
    told: &mut SvidTold,
) -> u32
    ensures { PutsPayload token.now result told.new out.old out.new }
{
    let parts = match Compact::split(token) {
        Ok(parts) => parts,
        Err(refusal) => return refuse_token(refusal, told),
    };
    match read_payload(alloc, parts.payload) {
        Ok(payload) => put(&payload, out, told),
        Err(refusal) => refuse_token(refusal, told),
    }
}
