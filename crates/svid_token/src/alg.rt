use crate::kty::Kty;

/// A signature algorithm of a JWT-SVID (RFC 7518, section 3.1; JWT-SVID, section 2.1).
#[derive(Clone, Copy, Debug, PartialEq, Eq)]
pub enum Alg {
    Rs256,
    Rs384,
    Rs512,
    Es256,
    Es384,
    Es512,
    Ps256,
    Ps384,
    Ps512,
}

impl Alg {
    ghost use Rattle.std.specs.Prelude.{◌≡◌, ◌≢◌, IfSome, IsNone};
    ghost use Rattle.svid_token.specs.Alg.{alg_named, kty_of, name_of};

    /// The algorithm of this name, in capitals as RFC 7518 writes it. Allocates nothing.
    pub fn of(name: &str) -> Option<Alg>
        ensures value { result ≡ alg_named name.now }
        ensures named { IfSome result (λ alg. name_of alg ≡ name.now) }
        ensures unnamed { IsNone result → (alg : Alg) → name_of alg ≢ name.now }
    {
        match name {
            "RS256" => Some(Alg::Rs256),
            "RS384" => Some(Alg::Rs384),
            "RS512" => Some(Alg::Rs512),
            "ES256" => Some(Alg::Es256),
            "ES384" => Some(Alg::Es384),
            "ES512" => Some(Alg::Es512),
            "PS256" => Some(Alg::Ps256),
            "PS384" => Some(Alg::Ps384),
            "PS512" => Some(Alg::Ps512),
            _ => None,
        }
    }

    /// The name that `alg` gives the algorithm in a header. Allocates nothing.
    pub fn name(self) -> &'static str
        ensures { result.now ≡ name_of self }
    {
        match self {
            Alg::Rs256 => "RS256",
            Alg::Rs384 => "RS384",
            Alg::Rs512 => "RS512",
            Alg::Es256 => "ES256",
            Alg::Es384 => "ES384",
            Alg::Es512 => "ES512",
            Alg::Ps256 => "PS256",
            Alg::Ps384 => "PS384",
            Alg::Ps512 => "PS512",
        }
    }

    /// The family of the keys that the algorithm signs with. Allocates nothing.
    pub fn kty(self) -> Kty
        ensures { result ≡ kty_of self }
    {
        match self {
            Alg::Rs256 | Alg::Rs384 | Alg::Rs512 | Alg::Ps256 | Alg::Ps384 | Alg::Ps512 => Kty::Rsa,
            Alg::Es256 | Alg::Es384 | Alg::Es512 => Kty::Ec,
        }
    }
}
