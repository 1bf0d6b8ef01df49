ghost use Rattle.std.specs.Prelude.{◌≡◌, ℕ, ◌<◌, ◌≤◌, List, length, Option, IfOk};
ghost use Rattle.std.specs.Io.KnownBytes.{WriteAppends};
ghost use Rattle.svid_wire.specs.Faults.{CountsFault};

use crate::Stopped;

/// Takes bytes piece by piece, and counts its faults.
pub trait Sink {
    // The bytes that it took, where it gives them.
    ghost told: { Self → Option (List ℕ) };

    // How many faults it counted.
    ghost stops: { Self → ℕ };

    /// Takes the first bytes of `piece` and returns how many: at least one, unless `piece` is empty.
    ///
    /// `Stopped` takes nothing and adds one to the count of faults, held at 2^64-1.
    fn put(&mut self, piece: &[u8]) -> Result<usize, Stopped>
        ensures count { IfOk result (λ k. (k ≤ length piece.now) × (0 < length piece.now → 0 < k)) }
        ensures bytes { WriteAppends (told self.old) (told self.new) result piece.now }
        ensures faults { CountsFault (stops self.old) (stops self.new) result };

    /// How many calls of `put` returned `Stopped`, held at 2^64-1.
    fn faults(&self) -> u64
        ensures { result ≡ stops self.now };
}
