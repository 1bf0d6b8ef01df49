// What C holds for a validator: a pointer to it on the heap, or none.
ghost use Rattle.std.specs.Prelude.{◌≡◌, Option, IsSome, None, Some};
ghost use Rattle.svid_c.specs.declared.live.Live.{Live};
ghost use Rattle.svid_c.specs.Handle.{handle_owns, live_coded};

pub(crate) mod parts;

use crate::live::Live;
use parts::Parts;
use std::alloc::Global;
use std::marker::Model;
use std::ptr::null_mut;

#[repr(C)]
pub struct Handle {
    // (No pointer to a type with cells crosses to C, so the type stands in the ghost value alone.)
    ptr: *mut (),
    alloc: Global,
    pub ghost live: { Option Live } by { live_coded },
}

impl Model for Handle {
    ghost also_owns = { λ h. handle_owns h.alloc h.ptr h.live };
}

impl Handle {
    pub(crate) fn of(live: Box<Live>) -> Handle
        ensures { result.live ≡ Some live.value }
    {
        Handle::of_parts(Parts::of(live))
    }

    pub(crate) fn into_box(self) -> Box<Live>
        requires { IsSome self.live }
        ensures { Some result.value ≡ self.live }
    {
        self.into_parts().into_box()
    }

    fn of_parts(parts: Parts<Live, Global>) -> Handle
        ensures { result.live ≡ Some parts.value }
    {
        let Parts { ptr, alloc } = parts;
        Handle {
            ptr: ptr as *mut (),
            alloc,
        }
    }

    fn into_parts(self) -> Parts<Live, Global>
        requires { IsSome self.live }
        ensures { Some result.value ≡ self.live }
    {
        let Handle { ptr, alloc } = self;
        Parts {
            ptr: ptr as *mut Live,
            alloc,
        }
    }

    pub(crate) fn empty(alloc: Global) -> Handle
        ensures { result.live ≡ None }
    {
        Handle {
            ptr: null_mut(),
            alloc,
        }
    }

    pub(crate) fn forget(self)
        requires { self.live ≡ None }
    {
        let Handle { ptr: _, alloc: _ } = self;
    }
}

// So C may hand it to another thread, as long as it gives it to one call at a time.
unsafe impl Send for Handle {}
