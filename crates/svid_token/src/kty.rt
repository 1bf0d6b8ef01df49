/// The family of a key, as `kty` names it in a JWK (RFC 7518, section 6.1).
#[derive(Clone, Copy, Debug, PartialEq, Eq)]
pub enum Kty {
    /// `RSA`, for the RS and PS algorithms.
    Rsa,
    /// `EC`, for the ES algorithms.
    Ec,
}
