// What C holds for trust bundles: a pointer to them on the heap, or none.
ghost use Rattle.std.specs.Prelude.{◌≡◌, Option, IsSome, None, Some};
ghost use Rattle.svid_c.specs.declared.trust.Trust.{Trust};
ghost use Rattle.svid_c.specs.TrustHandle.{trust_coded, trust_owns};

use crate::handle::parts::Parts;
use crate::trust::Trust;
use std::alloc::Global;
use std::marker::Model;
use std::ptr::null_mut;

#[repr(C)]
pub struct TrustHandle {
    // (No pointer to a type with cells crosses to C, so the type stands in the ghost value alone.)
    ptr: *mut (),
    alloc: Global,
    pub ghost trust: { Option Trust } by { trust_coded },
}

impl Model for TrustHandle {
    ghost also_owns = { λ h. trust_owns h.alloc h.ptr h.trust };
}

impl TrustHandle {
    pub(crate) fn of(trust: Box<Trust>) -> TrustHandle
        ensures { result.trust ≡ Some trust.value }
    {
        TrustHandle::of_parts(Parts::of(trust))
    }

    pub(crate) fn into_box(self) -> Box<Trust>
        requires { IsSome self.trust }
        ensures { Some result.value ≡ self.trust }
    {
        self.into_parts().into_box()
    }

    fn of_parts(parts: Parts<Trust, Global>) -> TrustHandle
        ensures { result.trust ≡ Some parts.value }
    {
        let Parts { ptr, alloc } = parts;
        TrustHandle {
            ptr: ptr as *mut (),
            alloc,
        }
    }

    fn into_parts(self) -> Parts<Trust, Global>
        requires { IsSome self.trust }
        ensures { Some result.value ≡ self.trust }
    {
        let TrustHandle { ptr, alloc } = self;
        Parts {
            ptr: ptr as *mut Trust,
            alloc,
        }
    }

    pub(crate) fn empty(alloc: Global) -> TrustHandle
        ensures { result.trust ≡ None }
    {
        TrustHandle {
            ptr: null_mut(),
            alloc,
        }
    }

    pub(crate) fn forget(self)
        requires { self.trust ≡ None }
    {
        let TrustHandle { ptr: _, alloc: _ } = self;
    }
}

// So C may hand it to another thread, as long as it gives it to one call at a time.
unsafe impl Send for TrustHandle {}
