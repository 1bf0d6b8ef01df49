ghost use Rattle.std.specs.Prelude.{◌≡◌, IfOk, IfErr, None, Some};
ghost use Rattle.svid_c.specs.Inputs.{AreNoBundles};
ghost use Rattle.svid_c.specs.Trust.{HasRead, OpensBundles};

use crate::bundles::SvidBundles;
use crate::inputs::bundles_of;
use crate::refuse_bundles::refuse_bundles;
use crate::told::SvidTold;
use crate::trust::Trust;
use crate::validator::only;
use std::alloc::Global;
use svid_share::ToolFault;

// The trust bundles of a text, on the heap.
fn trust_of(alloc: Global, bundles: &[u8]) -> Result<Box<Trust>, ToolFault>
    ensures ok { IfOk result (λ trust. HasRead bundles.now (Some trust.value)) }
    ensures fault { IfErr result (AreNoBundles bundles.now) }
{
    let bundles = bundles_of(alloc, bundles)?;
    let trust = Trust {
        bundles: Some(bundles),
    };
    match Box::new(alloc, trust) {
        Ok(trust) => Ok(trust),
        Err(_) => Err(ToolFault::OutOfMemory),
    }
}

// Opens a closed handle.
fn open(alloc: Global, b: &mut SvidBundles, bundles: &[u8], told: &mut SvidTold) -> u32
    requires { b.old.handle.trust ≡ None }
    ensures { OpensBundles bundles.now result told.new None b.new.handle.trust }
{
    match trust_of(alloc, bundles) {
        Ok(trust) => {
            b.put(trust);
            only(0, told)
        }
        Err(fault) => refuse_bundles(alloc, bundles, fault, told),
    }
}

/// Opens a closed handle with trust bundles, which it reads from JSON, and returns 0. The handle keeps no record, and shares nothing
/// with a validator.
///
/// 6 if it is open already: it is unchanged. 3 (with `told.input` 1) or a bundle fault if the bundles are refused, 2 if out of memory: it
/// stays closed.
#[unsafe(no_mangle)]
pub extern "C" fn svid_bundles_open(
    alloc: Global,
    b: &mut SvidBundles,
    bundles: &[u8],
    told: &mut SvidTold,
) -> u32
    ensures { OpensBundles bundles.now result told.new b.old.handle.trust b.new.handle.trust }
{
    if let Some(trust) = b.take(alloc) {
        b.put(trust);
        return only(6, told);
    }
    open(alloc, b, bundles, told)
}

/// Closes a handle of trust bundles, and frees all its memory. A closed handle is left closed.
#[unsafe(no_mangle)]
pub extern "C" fn svid_bundles_close(alloc: Global, b: &mut SvidBundles)
    ensures { b.new.handle.trust ≡ None }
{
    if let Some(trust) = b.take(alloc) {
        drop(trust);
    }
}
