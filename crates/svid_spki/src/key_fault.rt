ghost use Rattle.std.specs.Prelude.{◌≡◌};
ghost use Rattle.svid_spki.specs.declared.key_fault.KeyFault.TheVariants.{OutOfMemory};

use std::alloc::AllocError;
use thiserror::Error;

/// Why a key can't be used with an algorithm.
///
/// The variants stand in the order in which they are looked for, and the first that holds is
/// answered. Those of RSA keys are answered for RSA keys alone, and those of EC keys for these.
#[derive(Clone, Copy, Debug, Drop, PartialEq, Eq, Error)]
pub enum KeyFault {
    /// The text is no JSON object.
    #[error("no JSON object")]
    NotObject,
    /// `kty` is not the text that names the algorithm's keys: `RSA` for RS and PS, `EC` for ES.
    #[error("kty is not that of the algorithm")]
    Kty,
    /// `alg` is there, and is not the text that names the algorithm.
    #[error("alg is another algorithm")]
    Alg,
    /// Of an RSA key, `n` is not the base64url of an odd number in as few bytes as hold it.
    #[error("n is no modulus")]
    N,
    /// Of an RSA key, the modulus has fewer than 2,048 bits, more than the caller allows, or more
    /// than 16,384.
    #[error("n has too few or too many bits")]
    Bits,
    /// Of an RSA key, `e` is not the base64url of an odd number from 3 to 2^31-1 in as few bytes as
    /// hold it.
    #[error("e is no exponent")]
    E,
    /// Of an EC key, `crv` is not the text that names the algorithm's curve.
    #[error("crv is not that of the algorithm")]
    Crv,
    /// Of an EC key, `x` is not the base64url of as many bytes as a coordinate of the curve has.
    #[error("x is no coordinate of the curve")]
    X,
    /// Of an EC key, `y` is not the base64url of as many bytes as a coordinate of the curve has.
    #[error("y is no coordinate of the curve")]
    Y,
    /// An allocation was refused.
    #[error("out of memory")]
    OutOfMemory,
}

impl From<AllocError> for KeyFault {
    ghost from_gives = { λ _ fault. fault ≡ OutOfMemory };

    fn from(_error: AllocError) -> KeyFault {
        KeyFault::OutOfMemory
    }
}
