ghost use Rattle.svid_c.specs.Signs.{Signs};

use crate::rows::refuse_token;
use crate::told::SvidTold;
use crate::writing::put;
use std::alloc::Global;
use svid_token::{Compact, read_signature};

/// What a token's signature covers.
#[repr(C)]
#[derive(Drop)]
pub struct SvidSigned {
    /// How many bytes of the token it covers, from the first.
    pub len: usize,
}

/// Writes the signature of a token to the start of `out`, as a cryptography library takes it (for EC keys see RFC 7518, section 3.4). Also
/// reports how many bytes of the token it covers, from the first: the header, a period and the payload (RFC 7515, section 5.2). Reads
/// neither of these.
///
/// Returns 0, with the signature's length in `told.len`; or 1 if it is longer than `out`. 49,150 bytes are always enough. 101 if the token
/// has more than 65,536 bytes, 102 if it does not have three parts, 111 if the third one is empty or not base64url; 2 if out of memory:
/// `over` is unchanged. Unless the status is 0, `out` is unchanged.
#[unsafe(no_mangle)]
pub extern "C" fn svid_token_signature(
    alloc: Global,
    token: &[u8],
    over: &mut SvidSigned,
    out: &mut [u8],
    told: &mut SvidTold,
) -> u32
    ensures { Signs token.now result told.new over.old over.new out.old out.new }
{
    let parts = match Compact::split(token) {
        Ok(parts) => parts,
        Err(refusal) => return refuse_token(refusal, told),
    };
    let signature = match read_signature(alloc, parts.signature) {
        Ok(signature) => signature,
        Err(refusal) => return refuse_token(refusal, told),
    };
    *over = SvidSigned {
        len: parts.input.len(),
    };
    put(&signature, out, told)
}
