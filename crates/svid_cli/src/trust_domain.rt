//! The bundle of one trust domain, as SPIRE prints it, turned into an object of trust domains.
ghost use Rattle.std.specs.Prelude.{◌≡◌, IfErr, IfOk};
ghost use Rattle.svid_documents.specs.Join.{IsJoined};
ghost use Rattle.svid_cli.specs.TrustDomain.{IsNoBundleOf, bundle_fault, only};

use std::alloc::Global;
use svid_documents::{Document, DocumentFault, join};
use svid_keys::BundleFault;

fn bundle_fault(fault: DocumentFault) -> BundleFault
    ensures { result ≡ bundle_fault fault }
{
    match fault {
        DocumentFault::NotObject | DocumentFault::Unnamed => BundleFault::NotObject,
        DocumentFault::Domain(index) | DocumentFault::Twice(index) => BundleFault::Domain(index),
        DocumentFault::Keys(index) => BundleFault::Keys(index),
        DocumentFault::OutOfMemory => BundleFault::OutOfMemory,
    }
}

/// An object of trust domains with the bundle of one.
pub fn bundles_of(alloc: Global, domain: &str, text: &[u8]) -> Result<Vec<u8>, BundleFault>
    ensures ok { IfOk result (λ bundles. IsJoined (only domain.now text.now) bundles.items) }
    ensures fault { IfErr result (IsNoBundleOf domain.now text.now) }
{
    match join(alloc, &[Document::Bundle { domain, text }]) {
        Ok(bundles) => Ok(bundles),
        Err(given) => Err(bundle_fault(given.fault)),
    }
}
