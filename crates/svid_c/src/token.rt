ghost use Rattle.std.specs.Prelude.{◌≡◌, None, Some, option_map};
ghost use Rattle.svid_c.specs.TokenHandle.{read_word};

use crate::token_handle::TokenHandle;
use crate::token_read::TokenRead;
use std::alloc::Global;
use std::mem;

/// A handle of a token that was read, open or closed. C makes a closed one (all bytes 0) and gives it to one call at a time. Only the
/// calls write it.
#[repr(C)]
pub struct SvidToken {
    word: u64,
    pub handle: TokenHandle,
    pub ghost is: { word ≡ read_word handle.read },
}

impl SvidToken {
    fn closed(alloc: Global) -> SvidToken
        ensures { result.handle.read ≡ None }
    {
        SvidToken {
            word: 0,
            handle: TokenHandle::empty(alloc),
        }
    }

    fn opened(read: Box<TokenRead>) -> SvidToken
        ensures { result.handle.read ≡ Some read.value }
    {
        SvidToken {
            word: 1,
            handle: TokenHandle::of(read),
        }
    }

    // Takes the token out, and leaves the handle closed.
    pub(crate) fn take(&mut self, alloc: Global) -> Option<Box<TokenRead>>
        ensures value { option_map (λ read. read.value) result ≡ self.old.handle.read }
        ensures closed { self.new.handle.read ≡ None }
    {
        if self.word == 0 {
            return None;
        }
        let SvidToken { word: _, handle } = mem::replace(self, SvidToken::closed(alloc));
        Some(handle.into_box())
    }

    // Puts what a token says into a closed handle.
    pub(crate) fn put(&mut self, read: Box<TokenRead>)
        requires { self.old.handle.read ≡ None }
        ensures { self.new.handle.read ≡ Some read.value }
    {
        let SvidToken { word: _, handle } = mem::replace(self, SvidToken::opened(read));
        handle.forget();
    }
}
