//! Why tokens are refused, in the order of the checks, as `svid refusals` prints it.

// lists:begin refusals (written by tools/lists from lists/refusals.toml)

/// A line for each refusal: its number of the C library, its name, and a sentence.
pub static LINES: [&str; 25] = [
    "101 TooLong: The token has more than 65,536 bytes.",
    "102 NotThreeParts: The token has not exactly two periods.",
    "103 HeaderSpelling: The header is not base64url.",
    "104 HeaderNotObject: The header is no JSON object.",
    "105 Crit: The header has a member crit.",
    "106 Alg: alg is none of the nine algorithms RS256 to RS512, ES256 to ES512 and PS256 to PS512.",
    "107 Typ: typ is there, and is neither \"JWT\" nor \"JOSE\".",
    "108 Kid: kid is there, and is no string.",
    "109 PayloadSpelling: The payload is not base64url.",
    "110 PayloadNotObject: The payload is no JSON object.",
    "111 SignatureSpelling: The signature is empty, or not base64url.",
    "112 Sub: sub is no SPIFFE ID.",
    "113 Aud: aud is neither a string nor a list of one or more strings.",
    "114 Exp: exp is no whole number from 0 to 2^64-1, written with digits alone.",
    "115 Nbf: nbf is there, and is no whole number from 0 to 2^64-1.",
    "116 Jti: jti is there, and is no string.",
    "117 NotAudience: No value of aud is one of the validator's audiences.",
    "118 Expired: The token has expired: exp is not greater than the record's moment.",
    "119 NotYet: The token is not valid yet: nbf is greater than the record's moment.",
    "120 TooLongLived: The token expires more than longest seconds past the record's moment.",
    "121 UnknownDomain: The bundles have no trust domain of this name.",
    "122 NoKey: The trust domain has no key that fits alg and kid.",
    "123 BadSignature: No key among the first 3 that fit made the signature.",
    "124 Withdrawn: The token was withdrawn.",
    "125 Replayed: The token was accepted before, here or by a validator whose messages were taken.",
];

/// The same as JSON: a list of objects.
pub static JSON: [&str; 27] = [
    "[",
    "{\"number\": 101, \"name\": \"TooLong\", \"sentence\": \"The token has more than 65,536 bytes.\"},",
    "{\"number\": 102, \"name\": \"NotThreeParts\", \"sentence\": \"The token has not exactly two periods.\"},",
    "{\"number\": 103, \"name\": \"HeaderSpelling\", \"sentence\": \"The header is not base64url.\"},",
    "{\"number\": 104, \"name\": \"HeaderNotObject\", \"sentence\": \"The header is no JSON object.\"},",
    "{\"number\": 105, \"name\": \"Crit\", \"sentence\": \"The header has a member `crit`.\"},",
    "{\"number\": 106, \"name\": \"Alg\", \"sentence\": \"`alg` is none of the nine algorithms RS256 to RS512, ES256 to ES512 and PS256 to PS512.\"},",
    "{\"number\": 107, \"name\": \"Typ\", \"sentence\": \"`typ` is there, and is neither \\\"JWT\\\" nor \\\"JOSE\\\".\"},",
    "{\"number\": 108, \"name\": \"Kid\", \"sentence\": \"`kid` is there, and is no string.\"},",
    "{\"number\": 109, \"name\": \"PayloadSpelling\", \"sentence\": \"The payload is not base64url.\"},",
    "{\"number\": 110, \"name\": \"PayloadNotObject\", \"sentence\": \"The payload is no JSON object.\"},",
    "{\"number\": 111, \"name\": \"SignatureSpelling\", \"sentence\": \"The signature is empty, or not base64url.\"},",
    "{\"number\": 112, \"name\": \"Sub\", \"sentence\": \"`sub` is no SPIFFE ID.\"},",
    "{\"number\": 113, \"name\": \"Aud\", \"sentence\": \"`aud` is neither a string nor a list of one or more strings.\"},",
    "{\"number\": 114, \"name\": \"Exp\", \"sentence\": \"`exp` is no whole number from 0 to 2^64-1, written with digits alone.\"},",
    "{\"number\": 115, \"name\": \"Nbf\", \"sentence\": \"`nbf` is there, and is no whole number from 0 to 2^64-1.\"},",
    "{\"number\": 116, \"name\": \"Jti\", \"sentence\": \"`jti` is there, and is no string.\"},",
    "{\"number\": 117, \"name\": \"NotAudience\", \"sentence\": \"No value of `aud` is one of the validator's audiences.\"},",
    "{\"number\": 118, \"name\": \"Expired\", \"sentence\": \"The token has expired: `exp` is not greater than the record's moment.\"},",
    "{\"number\": 119, \"name\": \"NotYet\", \"sentence\": \"The token is not valid yet: `nbf` is greater than the record's moment.\"},",
    "{\"number\": 120, \"name\": \"TooLongLived\", \"sentence\": \"The token expires more than `longest` seconds past the record's moment.\"},",
    "{\"number\": 121, \"name\": \"UnknownDomain\", \"sentence\": \"The bundles have no trust domain of this name.\"},",
    "{\"number\": 122, \"name\": \"NoKey\", \"sentence\": \"The trust domain has no key that fits `alg` and `kid`.\"},",
    "{\"number\": 123, \"name\": \"BadSignature\", \"sentence\": \"No key among the first 3 that fit made the signature.\"},",
    "{\"number\": 124, \"name\": \"Withdrawn\", \"sentence\": \"The token was withdrawn.\"},",
    "{\"number\": 125, \"name\": \"Replayed\", \"sentence\": \"The token was accepted before, here or by a validator whose messages were taken.\"}",
    "]",
];
// lists:end
