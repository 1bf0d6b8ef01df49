ghost use Rattle.std.specs.Prelude.{◌≡◌, ◌≤◌, Some, IfOk, IfErr, length, vec_len};
ghost use Rattle.svid_token.specs.Part.{IsPartFault, Spells, bytes_due, part_bytes};
ghost use Rattle.svid_token.specs.Rows.{Answers};

use crate::refusal::Refusal;
use base64::DecodeAllocError;
use base64::engine::general_purpose::URL_SAFE_NO_PAD;
use std::alloc::Global;
use thiserror::Error;

/// Why a part was not decoded.
#[derive(Clone, Copy, Debug, Drop, PartialEq, Eq, Error)]
pub enum PartFault {
    /// The part is not the base64url of any bytes.
    #[error("not base64url")]
    Spelling,
    /// An allocation was refused.
    #[error("out of memory")]
    OutOfMemory,
}

/// The bytes that a part spells in base64url without padding (RFC 7515, section 2; RFC 4648,
/// section 5).
///
/// It refuses, as `Spelling`, padding, blanks and every other byte outside the alphabet, a length
/// that no bytes have, and bits left over that are not zero. It answers `OutOfMemory` where an
/// allocation was refused. There are no more bytes than the part has.
pub fn decode_part(alloc: Global, part: &[u8]) -> Result<Vec<u8>, PartFault>
    ensures accepted { IfOk result (λ v. Spells part.now v.items) }
    ensures value { IfOk result (λ v. part_bytes part.now ≡ Some v.items) }
    ensures refused { IfErr result (IsPartFault part.now) }
    ensures len { IfOk result (λ v. vec_len v ≤ length part.now) }
{
    // The decoder reports a lack of memory as one of two faults, so this separates them.
    match URL_SAFE_NO_PAD.decode(alloc, part) {
        Ok(bytes) => Ok(bytes),
        Err(DecodeAllocError::OutOfMemory) => Err(PartFault::OutOfMemory),
        Err(DecodeAllocError::DecodeError(_)) => Err(PartFault::Spelling),
    }
}

// The bytes that a part of a token spells, or the refusal of its spelling.
pub(crate) fn read_part(alloc: Global, part: &[u8], spelling: Refusal) -> Result<Vec<u8>, Refusal>
    ensures value { Answers (λ v. Some v.items) result (bytes_due spelling part.now) }
    ensures len { IfOk result (λ v. vec_len v ≤ length part.now) }
{
    // Which refusal a fault becomes depends on the part, so `From` can't say it.
    match decode_part(alloc, part) {
        Ok(bytes) => Ok(bytes),
        Err(PartFault::Spelling) => Err(spelling),
        Err(PartFault::OutOfMemory) => Err(Refusal::OutOfMemory),
    }
}
