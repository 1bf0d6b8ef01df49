use svid_token::Alg;

/// A curve of an EC key (RFC 7518, section 6.2.1.1).
#[derive(Clone, Copy, Debug, PartialEq, Eq)]
pub enum Curve {
    /// Of ES256.
    P256,
    /// Of ES384.
    P384,
    /// Of ES512.
    P521,
}

impl Curve {
    ghost use Rattle.std.specs.Prelude.{◌≡◌, ◌≤◌, ◌++◌, length};
    ghost use Rattle.svid_spki.specs.Spki.{coordinate_len, curve_name, curve_of, ec_public_key, named_curve};

    // The curve of an algorithm, if it has one.
    pub(crate) fn of(alg: Alg) -> Option<Curve>
        ensures { result ≡ curve_of alg }
    {
        match alg {
            Alg::Es256 => Some(Curve::P256),
            Alg::Es384 => Some(Curve::P384),
            Alg::Es512 => Some(Curve::P521),
            Alg::Rs256 | Alg::Rs384 | Alg::Rs512 | Alg::Ps256 | Alg::Ps384 | Alg::Ps512 => None,
        }
    }

    // The name that `crv` gives the curve.
    pub(crate) fn name(self) -> &'static str
        ensures { result.now ≡ curve_name self }
    {
        match self {
            Curve::P256 => "P-256",
            Curve::P384 => "P-384",
            Curve::P521 => "P-521",
        }
    }

    // How many bytes a coordinate has.
    pub(crate) fn coordinate_len(self) -> usize
        ensures value { result ≡ coordinate_len self }
        ensures bound { result ≤ 66 }
    {
        match self {
            Curve::P256 => 32,
            Curve::P384 => 48,
            Curve::P521 => 66,
        }
    }

    // What the key is for, and its curve, as object identifiers.
    #[tactic(auto, unfolding(crate::specs::Der::der))]
    pub(crate) fn algorithm(self) -> &'static [u8]
        ensures value { result.now ≡ ec_public_key ++ named_curve self }
        ensures bound { length result.now ≤ 19 }
    {
        match self {
            Curve::P256 => &[
                0x06, 0x07, 0x2a, 0x86, 0x48, 0xce, 0x3d, 0x02, 0x01, 0x06, 0x08, 0x2a, 0x86, 0x48,
                0xce, 0x3d, 0x03, 0x01, 0x07,
            ],
            Curve::P384 => &[
                0x06, 0x07, 0x2a, 0x86, 0x48, 0xce, 0x3d, 0x02, 0x01, 0x06, 0x05, 0x2b, 0x81, 0x04,
                0x00, 0x22,
            ],
            Curve::P521 => &[
                0x06, 0x07, 0x2a, 0x86, 0x48, 0xce, 0x3d, 0x02, 0x01, 0x06, 0x05, 0x2b, 0x81, 0x04,
                0x00, 0x23,
            ],
        }
    }
}
