ghost use Rattle.std.specs.Prelude.{◌≡◌, ℕ, ◌≤◌, List, length, Option, IfOk};
ghost use Rattle.std.specs.Io.KnownBytes.{ReadConsumes};
ghost use Rattle.svid_wire.specs.Faults.{CountsFault};

use crate::Stopped;

/// Gives bytes piece by piece, and counts its faults.
pub trait Source {
    // The bytes that it has left, where it gives them.
    ghost left: { Self → Option (List ℕ) };

    // How many faults it counted.
    ghost stops: { Self → ℕ };

    /// Puts its next bytes at the start of `room` and returns how many: none at its end, or with no room.
    ///
    /// `Stopped` gives nothing and adds one to the count of faults, held at 2^64-1.
    fn get(&mut self, room: &mut [u8]) -> Result<usize, Stopped>
        ensures count { IfOk result (λ k. k ≤ length room.new) }
        ensures bytes { ReadConsumes (left self.old) (left self.new) result room.new }
        ensures faults { CountsFault (stops self.old) (stops self.new) result };

    /// How many calls of `get` returned `Stopped`, held at 2^64-1.
    fn faults(&self) -> u64
        ensures { result ≡ stops self.now };
}
