//! What holds of the definitions that this crate's contracts cite: the contracts of functions that
//! do nothing.

ghost use Rattle.std.specs.Prelude.{◌≡◌, ◌≢◌, ◌≤◌, ◌<◌, ◌++◌, ◌-◌, ◌^◌, ℕ, All, IsTrue, List, length, slice_index};
ghost use Rattle.svid_spki.specs.Der.{der, positive};
ghost use Rattle.svid_spki.specs.Number.{bits, is_number, value};
ghost use Rattle.svid_spki.specs.Spki.{coordinate_len, ec_spki, rsa_spki};

use crate::curve::Curve;

/// Bytes begin with one value alone: its tag, its contents and what stands behind it are read back.
pub fn values_are_read_back()
    ensures { (tag other : ℕ) (contents others rest more : List ℕ) → der tag contents ++ rest ≡ der other others ++ more
        → (tag ≡ other) × (contents ≡ others) × (rest ≡ more) }
{}

/// Two keys with the same bytes are the same key: modulus and exponent, or curve and coordinates, are
/// read back, and no RSA key has the bytes of an EC key.
pub fn keys_are_read_back()
    ensures rsa { (n e m f : List ℕ) → IsTrue (is_number n) → IsTrue (is_number e) → IsTrue (is_number m) → IsTrue (is_number f)
        → rsa_spki n e ≡ rsa_spki m f → (n ≡ m) × (e ≡ f) }
    ensures ec { (curve other : Curve) (x y u v : List ℕ) → length x ≡ coordinate_len curve → length u ≡ coordinate_len other
        → ec_spki curve x y ≡ ec_spki other u v → (curve ≡ other) × (x ≡ u) × (y ≡ v) }
    ensures apart { (n e x y : List ℕ) (curve : Curve) → rsa_spki n e ≢ ec_spki curve x y }
{}

/// A number has as many bits as its bytes say: it lies between the powers of 2.
pub fn numbers_have_their_bits()
    ensures { (number : List ℕ) → All (λ byte. byte < 256) number → IsTrue (is_number number)
        → (2 ^ (bits number - 1) ≤ value number) × (value number < 2 ^ bits number) }
{}

/// The contents of a number are that number, and no negative one: their first bit is 0.
pub fn contents_are_the_number()
    ensures { (number : List ℕ) → (value (positive number) ≡ value number) × (slice_index (positive number) 0 < 128) }
{}
