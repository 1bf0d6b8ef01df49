ghost use Rattle.std.specs.Prelude.{◌≡◌};

use crate::{Sink, Source, Stopped};
use std::io::{Read, Write};

/// A sink over a writer of std, and a source over a reader of std.
///
/// Any error of the inner one is `Stopped`, and so is a write that takes nothing of a piece.
#[derive(Drop)]
pub struct Counted<T> {
    inner: T,
    faults: u64,
}

impl<T> Counted<T> {
    ghost use Rattle.svid_wire.specs.Counted.{counted_inner, counted_faults};

    /// Starts with no fault counted.
    pub fn new(inner: T) -> Counted<T>
        ensures inner { counted_inner result ≡ inner }
        ensures faults { counted_faults result ≡ 0 }
    {
        Counted { inner, faults: 0 }
    }
}

impl<W: Write> Sink for Counted<W> {
    ghost told = { λ c. W.contents c.inner };

    ghost stops = { λ c. c.faults };

    fn put(&mut self, piece: &[u8]) -> Result<usize, Stopped> {
        match self.inner.write(piece) {
            Ok(taken) if taken > 0 || piece.is_empty() => Ok(taken),
            _ => {
                self.faults = self.faults.saturating_add(1);
                Err(Stopped)
            }
        }
    }

    fn faults(&self) -> u64 {
        self.faults
    }
}

impl<R: Read> Source for Counted<R> {
    ghost left = { λ c. R.remaining c.inner };

    ghost stops = { λ c. c.faults };

    fn get(&mut self, room: &mut [u8]) -> Result<usize, Stopped> {
        match self.inner.read(room) {
            Ok(given) => Ok(given),
            Err(_) => {
                self.faults = self.faults.saturating_add(1);
                Err(Stopped)
            }
        }
    }

    fn faults(&self) -> u64 {
        self.faults
    }
}
