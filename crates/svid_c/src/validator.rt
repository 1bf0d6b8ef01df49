ghost use Rattle.std.specs.Prelude.{◌≡◌, IfOk, IfErr, None, Some, is_some, option_map};
ghost use Rattle.svid_c.specs.Handle.{open_word};
ghost use Rattle.svid_c.specs.Live.{IsNotTaken, IsTaken};
ghost use Rattle.svid_c.specs.Status.{told_length};

use crate::handle::Handle;
use crate::live::Live;
use crate::told::{SvidTold, told_length};
use std::alloc::Global;
use std::mem;

/// A handle of a validator, open or closed. C makes a closed one (all bytes 0) and gives it to one call at a time. Only the calls
/// write it.
#[repr(C)]
pub struct SvidValidator {
    word: u64,
    pub handle: Handle,
    pub ghost is: { word ≡ open_word handle.live },
}

impl SvidValidator {
    fn closed(alloc: Global) -> SvidValidator
        ensures { result.handle.live ≡ None }
    {
        SvidValidator {
            word: 0,
            handle: Handle::empty(alloc),
        }
    }

    fn opened(live: Box<Live>) -> SvidValidator
        ensures { result.handle.live ≡ Some live.value }
    {
        SvidValidator {
            word: 1,
            handle: Handle::of(live),
        }
    }

    // Whether it holds a validator.
    pub(crate) fn is_open(&self) -> bool
        ensures { result ≡ is_some self.now.handle.live }
    {
        self.word != 0
    }

    // Takes the validator out, and leaves the handle closed.
    pub(crate) fn take(&mut self, alloc: Global) -> Option<Box<Live>>
        ensures value { option_map (λ live. live.value) result ≡ self.old.handle.live }
        ensures closed { self.new.handle.live ≡ None }
    {
        if self.word == 0 {
            return None;
        }
        let SvidValidator { word: _, handle } = mem::replace(self, SvidValidator::closed(alloc));
        Some(handle.into_box())
    }

    // The same for a call at a moment. 5 if the handle is closed, 9 if the moment is too far past the record's: the handle is
    // unchanged.
    pub(crate) fn take_at(&mut self, alloc: Global, now: u64) -> Result<Box<Live>, u32>
        ensures taken { IfOk result (λ live. IsTaken now self.old.handle.live self.new.handle.live live.value) }
        ensures not_taken { IfErr result (IsNotTaken now self.old.handle.live self.new.handle.live) }
    {
        let Some(live) = self.take(alloc) else {
            return Err(5);
        };
        if live.jumps(now) {
            self.put(live);
            return Err(9);
        }
        Ok(live)
    }

    // Puts a validator into a closed handle.
    pub(crate) fn put(&mut self, live: Box<Live>)
        requires { self.old.handle.live ≡ None }
        ensures { self.new.handle.live ≡ Some live.value }
    {
        let SvidValidator { word: _, handle } = mem::replace(self, SvidValidator::opened(live));
        handle.forget();
    }
}

// Answers a number, with nothing more in `told`.
pub(crate) fn only(status: u32, told: &mut SvidTold) -> u32
    ensures status { result ≡ status }
    ensures told { told.new ≡ told_length 0 }
{
    *told = told_length(0);
    status
}
