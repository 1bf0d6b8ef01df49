ghost use Rattle.std.specs.Prelude.{◌≡◌};
ghost use Rattle.svid_member.specs.Reasons.{reason_of};

use svid_token::Refusal;

/// The number of a refusal: 101 for the first of [`Refusal`], and so on; 2 if out of memory.
pub fn reason_of(refusal: &Refusal) -> u8
    ensures { result ≡ reason_of refusal.now }
{
    match refusal {
        Refusal::OutOfMemory => 2,
        Refusal::TooLong => 101,
        Refusal::NotThreeParts => 102,
        Refusal::HeaderSpelling => 103,
        Refusal::HeaderNotObject => 104,
        Refusal::Crit => 105,
        Refusal::Alg => 106,
        Refusal::Typ => 107,
        Refusal::Kid => 108,
        Refusal::PayloadSpelling => 109,
        Refusal::PayloadNotObject => 110,
        Refusal::SignatureSpelling => 111,
        Refusal::Sub => 112,
        Refusal::Aud => 113,
        Refusal::Exp => 114,
        Refusal::Nbf => 115,
        Refusal::Jti => 116,
        Refusal::NotAudience => 117,
        Refusal::Expired => 118,
        Refusal::NotYet => 119,
        Refusal::TooLongLived => 120,
        Refusal::UnknownDomain => 121,
        Refusal::NoKey => 122,
        Refusal::BadSignature => 123,
        Refusal::Withdrawn => 124,
        Refusal::Replayed => 125,
    }
}
