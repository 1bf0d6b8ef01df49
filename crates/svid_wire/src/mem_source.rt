ghost use Rattle.std.specs.Prelude.{◌≡◌, ◌<◌, ◌≤◌, ◌↔◌, length, min, Some, IfOk, IsErr};
ghost use Rattle.std.specs.Io.KnownBytes.{ReadConsumes};
ghost use Rattle.svid_wire.specs.Faults.{CountsFault};
ghost use Rattle.svid_wire.specs.Memory.{counted_down};

use crate::{Source, Stopped};
use std::marker::Model;

/// A source that gives the bytes of a list, at most `step` of them a call.
#[derive(Drop)]
pub struct MemSource {
    bytes: Vec<u8>,
    at: usize,
    step: usize,
    calls_left: Option<u64>,
    faults: u64,
}

impl Model for MemSource {
    ghost use Rattle.std.specs.Prelude.{◌<◌, ◌≤◌, vec_len, drop};
    ghost use Rattle.svid_wire.specs.Memory.{Stream};

    ghost Value = { Stream };

    ghost view = { λ s. record { bytes = drop s.at s.bytes.items; step = s.step; calls_left = s.calls_left; stops = s.faults } };

    ghost invariant = { λ s. (s.at ≤ vec_len s.bytes) × (0 < s.step) };
}

impl MemSource {
    /// A source that gives `bytes`, at most `step` of them a call.
    ///
    /// Where `fail_at` is given, the call of `get` with that number, counted from 1, returns `Stopped`, and no other.
    pub fn new(bytes: Vec<u8>, step: usize, fail_at: Option<u64>) -> MemSource
        requires { 0 < step }
        ensures { result ≡ record { bytes = bytes.items; step = step; calls_left = fail_at; stops = 0 } }
    {
        MemSource {
            bytes,
            at: 0,
            step,
            calls_left: fail_at,
            faults: 0,
        }
    }
}

impl Source for MemSource {
    ghost left = { λ s. Some s.bytes };

    ghost stops = { λ s. s.stops };

    /// Moves the least of the step, the room and the bytes left.
    fn get(&mut self, room: &mut [u8]) -> Result<usize, Stopped>
        ensures count { IfOk result (λ k. k ≤ length room.new) }
        ensures bytes { ReadConsumes (Some self.old.bytes) (Some self.new.bytes) result room.new }
        ensures faults { CountsFault self.old.stops self.new.stops result }

        ensures due { IsErr result ↔ (self.old.calls_left ≡ Some 1) }
        ensures next_due { self.new.calls_left ≡ counted_down self.old.calls_left }
        ensures moved { IfOk result (λ k. k ≡ min (length self.old.bytes) (min self.old.step (length room.new))) }
        ensures step { self.new.step ≡ self.old.step }
    {
        let due = self.calls_left == Some(1);
        self.calls_left = self.calls_left.map(|calls| calls.saturating_sub(1));
        if due {
            self.faults = self.faults.saturating_add(1);
            return Err(Stopped);
        }
        let (_, left) = self.bytes.split_at(self.at);
        let moved = left.len().min(self.step.min(room.len()));
        room[..moved].copy_from_slice(left.split_at(moved).0);
        self.at += moved;
        Ok(moved)
    }

    fn faults(&self) -> u64 {
        self.faults
    }
}
