ghost use Rattle.std.specs.Prelude.{◌≡◌, None, Some, option_map};
ghost use Rattle.svid_c.specs.TrustHandle.{trust_word};

use crate::trust::Trust;
use crate::trust_handle::TrustHandle;
use std::alloc::Global;
use std::mem;

/// A handle of trust bundles that C keeps, open or closed. C makes a closed one (all bytes 0) and gives it to one call at a time.
/// Only the calls write it.
#[repr(C)]
pub struct SvidBundles {
    word: u64,
    pub handle: TrustHandle,
    pub ghost is: { word ≡ trust_word handle.trust },
}

impl SvidBundles {
    fn closed(alloc: Global) -> SvidBundles
        ensures { result.handle.trust ≡ None }
    {
        SvidBundles {
            word: 0,
            handle: TrustHandle::empty(alloc),
        }
    }

    fn opened(trust: Box<Trust>) -> SvidBundles
        ensures { result.handle.trust ≡ Some trust.value }
    {
        SvidBundles {
            word: 1,
            handle: TrustHandle::of(trust),
        }
    }

    // Takes the bundles out, and leaves the handle closed.
    pub(crate) fn take(&mut self, alloc: Global) -> Option<Box<Trust>>
        ensures value { option_map (λ trust. trust.value) result ≡ self.old.handle.trust }
        ensures closed { self.new.handle.trust ≡ None }
    {
        if self.word == 0 {
            return None;
        }
        let SvidBundles { word: _, handle } = mem::replace(self, SvidBundles::closed(alloc));
        Some(handle.into_box())
    }

    // Puts bundles into a closed handle.
    pub(crate) fn put(&mut self, trust: Box<Trust>)
        requires { self.old.handle.trust ≡ None }
        ensures { self.new.handle.trust ≡ Some trust.value }
    {
        let SvidBundles { word: _, handle } = mem::replace(self, SvidBundles::opened(trust));
        handle.forget();
    }
}
