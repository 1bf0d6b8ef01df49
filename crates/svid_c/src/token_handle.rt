// What C holds for a token that was read: a pointer to what it says on the heap, or none.
ghost use Rattle.std.specs.Prelude.{◌≡◌, Option, IsSome, None, Some};
ghost use Rattle.svid_check.specs.Said.{Said};
ghost use Rattle.svid_c.specs.TokenHandle.{read_coded, read_owns};

use crate::handle::parts::Parts;
use crate::token_read::TokenRead;
use std::alloc::Global;
use std::marker::Model;
use std::ptr::null_mut;

#[repr(C)]
pub struct TokenHandle {
    // (No pointer to a type with cells crosses to C, so the type stands in the ghost value alone.)
    ptr: *mut (),
    alloc: Global,
    pub ghost read: { Option Said } by { read_coded },
}

impl Model for TokenHandle {
    ghost also_owns = { λ h. read_owns h.alloc h.ptr h.read };
}

impl TokenHandle {
    pub(crate) fn of(read: Box<TokenRead>) -> TokenHandle
        ensures { result.read ≡ Some read.value }
    {
        TokenHandle::of_parts(Parts::of(read))
    }

    pub(crate) fn into_box(self) -> Box<TokenRead>
        requires { IsSome self.read }
        ensures { Some result.value ≡ self.read }
    {
        self.into_parts().into_box()
    }

    fn of_parts(parts: Parts<TokenRead, Global>) -> TokenHandle
        ensures { result.read ≡ Some parts.value }
    {
        let Parts { ptr, alloc } = parts;
        TokenHandle {
            ptr: ptr as *mut (),
            alloc,
        }
    }

    fn into_parts(self) -> Parts<TokenRead, Global>
        requires { IsSome self.read }
        ensures { Some result.value ≡ self.read }
    {
        let TokenHandle { ptr, alloc } = self;
        Parts {
            ptr: ptr as *mut TokenRead,
            alloc,
        }
    }

    pub(crate) fn empty(alloc: Global) -> TokenHandle
        ensures { result.read ≡ None }
    {
        TokenHandle {
            ptr: null_mut(),
            alloc,
        }
    }

    pub(crate) fn forget(self)
        requires { self.read ≡ None }
    {
        let TokenHandle { ptr: _, alloc: _ } = self;
    }
}

// So C may hand it to another thread, as long as it gives it to one call at a time.
unsafe impl Send for TokenHandle {}
