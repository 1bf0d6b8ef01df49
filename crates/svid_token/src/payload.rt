use crate::claims::Claims;
use crate::object::read_object;
use crate::refusal::Refusal;
use serde_json::Value;
use std::alloc::Global;

/// The payload of a token: a JSON object (RFC 7519, section 7.2) with the claims.
#[derive(Debug, Drop)]
pub struct Payload {
    object: Value,
}

impl Payload {
    ghost use Rattle.std.specs.Prelude.{Some};
    ghost use Rattle.svid_token.specs.Claims.{claims_of, claims_view};
    ghost use Rattle.svid_token.specs.Payload.{payload_object, payload_of};
    ghost use Rattle.svid_token.specs.Rows.{Answers};

    /// The JSON object that the second part of a token spells.
    ///
    /// Of the refusals `PayloadSpelling` and `PayloadNotObject` it answers the first that holds,
    /// or `OutOfMemory` where an allocation was refused. Of a member that is written twice the last
    /// stands.
    pub fn read(alloc: Global, part: &[u8]) -> Result<Payload, Refusal>
        ensures { Answers (λ payload. Some (payload_object payload)) result (payload_of part.now) }
    {
        let object = read_object(
            alloc,
            part,
            Refusal::PayloadSpelling,
            Refusal::PayloadNotObject,
        )?;
        Ok(Payload { object })
    }

    /// The claims of the payload.
    ///
    /// Of the refusals `Sub`, `Aud`, `Exp`, `Nbf` and `Jti` it answers the first that holds, or
    /// `OutOfMemory` where an allocation was refused. Claims of other names are passed over.
    pub fn claims(&self, alloc: Global) -> Result<Claims, Refusal>
        ensures { Answers claims_view result (claims_of (Some (payload_object self.now))) }
    {
        Claims::from_object(alloc, &self.object)
    }
}
