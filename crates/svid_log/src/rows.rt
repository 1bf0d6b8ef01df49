ghost use Rattle.std.specs.Prelude.{◌≡◌, ◌<◌, ◌≤◌, ◌++◌, drop, length, min, slice_get, take};
ghost use Rattle.svid_log.specs.Members.{IsRefused, Ledger, accepts, after_all, fates_of};
ghost use Rattle.svid_log.specs.Steps.{horizon};

use crate::{Claims, Fate};
use svid_replay::{Record, Use, UseStore};

/// What decides whether a member accepts the first claims of a value.
#[derive(Clone, Copy)]
pub(crate) struct Standing {
    /// The member's validator ID.
    pub validator_id: [u8; 16],
    /// Whether the value comes after everything that earlier lives of the member may have read.
    pub fresh: bool,
    /// The moment before which the member accepts nothing.
    pub deaf: u64,
}

// Whether a member accepts a use that is a first claim, at a moment.
fn accepts(standing: &Standing, moment: u64, used: &Use) -> bool
    ensures { result ≡ accepts standing.now moment used.now }
{
    standing.fresh
        && standing.validator_id.cmp(&used.validator_id).is_eq()
        && standing.deaf <= moment
}

impl<S: UseStore> Claims<S> {
    // Reads the next uses of the log, as many as there is room for, as `read` reads one, and writes the fate of each. Returns how
    // many it read: where that is fewer, memory was refused for the next one.
    pub(crate) fn read_all<R: UseStore>(
        &mut self,
        held: &mut Record<R>,
        now: u64,
        ahead: u64,
        standing: &Standing,
        uses: &[Use],
        fates: &mut [Fate],
    ) -> usize
        ensures few { result ≤ length uses.now }
        ensures room { result ≤ length fates.old }
        ensures fates { fates.new ≡ fates_of standing.now now (horizon now ahead) (record { held = held.old; beside = self.old }) (take result uses.now) ++ drop result fates.old }
        ensures read { min (length uses.now) (length fates.old) ≤ result
            → record { held = held.new; beside = self.new } ≡ after_all now (horizon now ahead) (record { held = held.old; beside = self.old }) (take result uses.now) }
        ensures refused { result < min (length uses.now) (length fates.old)
            → IsRefused now (horizon now ahead) (after_all now (horizon now ahead) (record { held = held.old; beside = self.old }) (take result uses.now)) (slice_get uses.now result) (record { held = held.new; beside = self.new }) }
    {
        for (i, used) in uses.iter().enumerate() {
            if i >= fates.len() {
                return i;
            }
            match self.read(held, now, ahead, *used) {
                Ok(fate) => fates[i] = fate.decided(accepts(standing, held.moment(), used)),
                Err(_) => return i,
            }
        }
        uses.len()
    }
}
