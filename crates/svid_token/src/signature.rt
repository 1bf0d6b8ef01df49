ghost use Rattle.std.specs.Prelude.{◌≤◌, IfOk, Some, length, vec_len};
ghost use Rattle.svid_token.specs.Rows.{Answers};
ghost use Rattle.svid_token.specs.Signature.{signature_of};

use crate::part::read_part;
use crate::refusal::Refusal;
use std::alloc::Global;

/// The bytes of the signature that the third part of a token spells: at least one, and no more
/// than the part has.
///
/// It answers `SignatureSpelling` where the part is empty or not base64url, or `OutOfMemory` where
/// an allocation was refused.
pub fn read_signature(alloc: Global, part: &[u8]) -> Result<Vec<u8>, Refusal>
    ensures value { Answers (λ v. Some v.items) result (signature_of part.now) }
    ensures len { IfOk result (λ v. vec_len v ≤ length part.now) }
{
    if part.is_empty() {
        return Err(Refusal::SignatureSpelling);
    }
    read_part(alloc, part, Refusal::SignatureSpelling)
}
