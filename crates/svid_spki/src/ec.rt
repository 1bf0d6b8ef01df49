ghost use Rattle.std.specs.Prelude.{◌≡◌, ◌≤◌, IfOk, Some, length, option_map, vec_len};
ghost use Rattle.serde_json.specs.View.{view};
ghost use Rattle.svid_spki.specs.Jwk.{coordinate_at, ec_due};
ghost use Rattle.svid_spki.specs.Rows.{Answers};
ghost use Rattle.svid_spki.specs.Spki.{ec_spki};

use crate::curve::Curve;
use crate::key_fault::KeyFault;
use crate::member::{bytes_at, is_text_at};
use crate::spki::spki;
use serde_json::Value;
use std::alloc::{AllocError, Global};

// A point is not compressed (RFC 5480, section 2.2).
const UNCOMPRESSED: u8 = 0x04;

// A coordinate of a key on a curve, if it has its full length.
fn coordinate_at(
    alloc: Global,
    key: &Value,
    name: &str,
    curve: Curve,
) -> Result<Option<Vec<u8>>, AllocError>
    ensures { IfOk result (λ o. option_map (λ v. v.items) o ≡ coordinate_at name.now curve (view key.now)) }
{
    match bytes_at(alloc, key, name)? {
        Some(bytes) if bytes.len() == curve.coordinate_len() => Ok(Some(bytes)),
        _ => Ok(None),
    }
}

// An EC key of this curve and these coordinates.
fn ec_spki(alloc: Global, curve: Curve, x: &[u8], y: &[u8]) -> Result<Vec<u8>, AllocError>
    requires x { length x.now ≤ 66 }
    requires y { length y.now ≤ 66 }
    ensures value { IfOk result (λ v. v.items ≡ ec_spki curve x.now y.now) }
    ensures len { IfOk result (λ v. vec_len v ≤ 2100) }
{
    let mut point = Vec::new(alloc);
    point.push(UNCOMPRESSED)?;
    point.extend_from_slice(x)?;
    point.extend_from_slice(y)?;
    spki(alloc, curve.algorithm(), &point)
}

// The EC key on a curve that a JSON object is.
pub(crate) fn read_ec(alloc: Global, key: &Value, curve: Curve) -> Result<Vec<u8>, KeyFault>
    ensures value { Answers (λ v. Some v.items) result (ec_due curve (view key.now)) }
    ensures len { IfOk result (λ v. vec_len v ≤ 2100) }
{
    if !is_text_at(key, "crv", curve.name()) {
        return Err(KeyFault::Crv);
    }
    let Some(x) = coordinate_at(alloc, key, "x", curve)? else {
        return Err(KeyFault::X);
    };
    let Some(y) = coordinate_at(alloc, key, "y", curve)? else {
        return Err(KeyFault::Y);
    };
    Ok(ec_spki(alloc, curve, &x, &y)?)
}
