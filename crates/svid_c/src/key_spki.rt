ghost use Rattle.std.specs.Prelude.{◌≡◌};
ghost use Rattle.svid_token.specs.Alg.{alg_named};
ghost use Rattle.svid_c.specs.Spki.{PutsKey, key_number};

use crate::told::SvidTold;
use crate::validator::only;
use crate::writing::put;
use std::alloc::Global;
use std::str;
use svid_spki::{KeyFault, key_spki};
use svid_token::Alg;

fn key_number(fault: KeyFault) -> u32
    ensures { result ≡ key_number fault }
{
    match fault {
        KeyFault::OutOfMemory => 2,
        KeyFault::NotObject => 71,
        KeyFault::Kty => 72,
        KeyFault::Alg => 73,
        KeyFault::N => 74,
        KeyFault::Bits => 75,
        KeyFault::E => 76,
        KeyFault::Crv => 77,
        KeyFault::X => 78,
        KeyFault::Y => 79,
    }
}

// The algorithm with this name, if there is one.
fn alg_of(name: &[u8]) -> Option<Alg>
    ensures { result ≡ alg_named name.now }
{
    match str::from_utf8(name) {
        Ok(name) => Alg::of(name),
        Err(_) => None,
    }
}

/// Writes a public key to the start of `out`, as SubjectPublicKeyInfo in DER (RFC 5280, section 4.1.2.7). `key` is the key as JSON
/// (RFC 7517) and `alg` the name of the algorithm, as [`svid_bundles_ask`](crate::bundles_ask::svid_bundles_ask) lists both. An RSA
/// key may have at most `most_bits` bits, and never more than 16,384.
///
/// Returns 0, with the length in `told.len`; or 1 if the key is longer than `out`. 2,100 bytes are always enough. 70 if no algorithm
/// has the name; The first key fault that holds, in the order of [`KeyFault`]; 2 if out of memory.
#[unsafe(no_mangle)]
pub extern "C" fn svid_key_spki(
    alloc: Global,
    key: &[u8],
    alg: &[u8],
    most_bits: usize,
    out: &mut [u8],
    told: &mut SvidTold,
) -> u32
    ensures { PutsKey key.now alg.now most_bits result told.new out.old out.new }
{
    let Some(alg) = alg_of(alg) else {
        return only(70, told);
    };
    match key_spki(alloc, key, alg, most_bits) {
        Ok(der) => put(&der, out, told),
        Err(fault) => only(key_number(fault), told),
    }
}
