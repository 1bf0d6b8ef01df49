ghost use Rattle.std.specs.Prelude.{◌≡◌, ◌<◌, ◌≤◌, [], length, min, Some, IfOk, IsErr};
ghost use Rattle.std.specs.Io.KnownBytes.{WriteAppends};
ghost use Rattle.svid_wire.specs.Faults.{CountsFault};
ghost use Rattle.svid_wire.specs.Memory.{counted_down};

use crate::{Sink, Stopped};
use std::alloc::Global;
use std::marker::Model;

/// A sink that keeps what it took, at most `step` bytes a call.
#[derive(Drop)]
pub struct MemSink {
    bytes: Vec<u8>,
    step: usize,
    calls_left: Option<u64>,
    faults: u64,
}

impl Model for MemSink {
    ghost use Rattle.std.specs.Prelude.{◌<◌};
    ghost use Rattle.svid_wire.specs.Memory.{Stream};

    ghost Value = { Stream };

    ghost view = { λ s. record { bytes = s.bytes.items; step = s.step; calls_left = s.calls_left; stops = s.faults } };

    ghost invariant = { λ s. 0 < s.step };
}

impl MemSink {
    /// A sink that takes at most `step` bytes a call, and has no byte yet.
    ///
    /// Where `fail_at` is given, the call of `put` with that number, counted from 1, returns `Stopped`.
    pub fn new(alloc: Global, step: usize, fail_at: Option<u64>) -> MemSink
        requires { 0 < step }
        ensures { result ≡ record { bytes = []; step = step; calls_left = fail_at; stops = 0 } }
    {
        MemSink {
            bytes: Vec::new(alloc),
            step,
            calls_left: fail_at,
            faults: 0,
        }
    }

    /// The bytes that it took so far.
    pub fn bytes(&self) -> &[u8]
        ensures { result.now ≡ self.now.bytes }
    {
        &self.bytes
    }
}

impl Sink for MemSink {
    ghost told = { λ s. Some s.bytes };

    ghost stops = { λ s. s.stops };

    /// Takes `step` bytes, or the piece where that is shorter. `Stopped` also where memory for them is refused.
    fn put(&mut self, piece: &[u8]) -> Result<usize, Stopped>
        ensures count { IfOk result (λ k. (k ≤ length piece.now) × (0 < length piece.now → 0 < k)) }
        ensures bytes { WriteAppends (Some self.old.bytes) (Some self.new.bytes) result piece.now }
        ensures faults { CountsFault self.old.stops self.new.stops result }

        ensures due { self.old.calls_left ≡ Some 1 → IsErr result }
        ensures next_due { self.new.calls_left ≡ counted_down self.old.calls_left }
        ensures moved { IfOk result (λ k. k ≡ min self.old.step (length piece.now)) }
        ensures step { self.new.step ≡ self.old.step }
    {
        let due = self.calls_left == Some(1);
        self.calls_left = self.calls_left.map(|calls| calls.saturating_sub(1));
        let moved = self.step.min(piece.len());
        if due || self.bytes.extend_from_slice(&piece[..moved]).is_err() {
            self.faults = self.faults.saturating_add(1);
            return Err(Stopped);
        }
        Ok(moved)
    }

    fn faults(&self) -> u64 {
        self.faults
    }
}
