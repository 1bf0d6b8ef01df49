ghost use Rattle.std.specs.Prelude.{◌≡◌, ◌&&◌, IfOk};
ghost use Rattle.svid_c.specs.Inputs.{AreNoBundles, RefusesBundles, is_of_name};
ghost use Rattle.svid_documents.specs.Document.{is_unnamed};

use crate::told::SvidTold;
use crate::validator::only;
use crate::writing::refuse;
use std::alloc::{AllocError, Global};
use svid_documents::is_unnamed;
use svid_keys::BundleFault;
use svid_share::ToolFault;

fn is_of_name(fault: ToolFault) -> bool
    ensures { result ≡ is_of_name fault }
{
    match fault {
        ToolFault::Bundles(BundleFault::Domain(_) | BundleFault::Keys(_)) => true,
        ToolFault::Bundles(BundleFault::NotObject | BundleFault::OutOfMemory)
        | ToolFault::Wire { .. }
        | ToolFault::NotSummary
        | ToolFault::Table(_)
        | ToolFault::TooMuch { .. }
        | ToolFault::Read { .. }
        | ToolFault::Write
        | ToolFault::OutOfMemory => false,
    }
}

// Whether a text that was refused for this fault is the bundle of one trust domain.
fn lacks_name(alloc: Global, text: &[u8], fault: ToolFault) -> Result<bool, AllocError>
    ensures { IfOk result (λ lacks. lacks ≡ (is_of_name fault && is_unnamed text.now)) }
{
    if is_of_name(fault) {
        is_unnamed(alloc, text)
    } else {
        Ok(false)
    }
}

// Says why bundles are refused.
#[tactic(auto, using(crate::proofs::RefusedBundlesLemmas::one_unnamed, crate::proofs::RefusedBundlesLemmas::none_unnamed, crate::proofs::RefusedBundlesLemmas::no_memory))]
pub(crate) fn refuse_bundles(
    alloc: Global,
    text: &[u8],
    fault: ToolFault,
    told: &mut SvidTold,
) -> u32
    requires { AreNoBundles text.now fault }
    ensures { RefusesBundles text.now result told.new }
{
    match lacks_name(alloc, text, fault) {
        Ok(true) => only(37, told),
        Ok(false) => refuse(fault, told),
        Err(_) => refuse(ToolFault::OutOfMemory, told),
    }
}
