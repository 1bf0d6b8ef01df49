ghost use Rattle.std.specs.Prelude.{◌≡◌, IfOk, option_map, string_bytes};
ghost use Rattle.svid_lines.specs.Refused.{refusal_line, refusal_name};

use std::alloc::{AllocError, Global};
use svid_token::Refusal;

// The name of a refusal. Out of memory has none.
fn refusal_name(refusal: Refusal) -> Option<&'static str>
    ensures { option_map (λ name. name.now) result ≡ refusal_name refusal }
{
    let name = match refusal {
        Refusal::TooLong => "TooLong",
        Refusal::NotThreeParts => "NotThreeParts",
        Refusal::HeaderSpelling => "HeaderSpelling",
        Refusal::HeaderNotObject => "HeaderNotObject",
        Refusal::Crit => "Crit",
        Refusal::Alg => "Alg",
        Refusal::Typ => "Typ",
        Refusal::Kid => "Kid",
        Refusal::PayloadSpelling => "PayloadSpelling",
        Refusal::PayloadNotObject => "PayloadNotObject",
        Refusal::SignatureSpelling => "SignatureSpelling",
        Refusal::Sub => "Sub",
        Refusal::Aud => "Aud",
        Refusal::Exp => "Exp",
        Refusal::Nbf => "Nbf",
        Refusal::Jti => "Jti",
        Refusal::NotAudience => "NotAudience",
        Refusal::Expired => "Expired",
        Refusal::NotYet => "NotYet",
        Refusal::TooLongLived => "TooLongLived",
        Refusal::UnknownDomain => "UnknownDomain",
        Refusal::NoKey => "NoKey",
        Refusal::BadSignature => "BadSignature",
        Refusal::Withdrawn => "Withdrawn",
        Refusal::Replayed => "Replayed",
        Refusal::OutOfMemory => return None,
    };
    Some(name)
}

/// The line that says why a token is refused. Out of memory has none, and is passed on.
pub fn refusal_line(alloc: Global, refusal: Refusal) -> Result<String, AllocError>
    ensures { IfOk result (λ line. refusal_line refusal ≡ Some (string_bytes line)) }
{
    match refusal_name(refusal) {
        Some(name) => format!(in alloc; "refused {name}\n"),
        None => Err(AllocError),
    }
}
