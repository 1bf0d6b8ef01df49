ghost use Rattle.std.specs.Prelude.{◌≡◌, nat_lt, not, IfErr, IfOk, MatchOption};
ghost use Rattle.std.specs.List.{AllByRecursion};
ghost use Rattle.svid_replay.specs.Use.{IsUse};
ghost use Rattle.svid_uses.specs.Batched.{AreBatched};
ghost use Rattle.svid_uses.specs.Time.{IsFirstExpired, IsTellable, IsUsesFault};

use crate::UsesFault;
use crate::by_time::in_time;
use crate::cutting::cut;
use std::alloc::Global;
use svid_replay::{Batch, Use};

// Whether a use had expired when it was made.
fn is_expired(used: Use) -> bool
    ensures value { result ≡ not (nat_lt used.at used.exp) }
    ensures fields { IsUse used }
{
    !used.is_live(used.at)
}

// The index of the first use that had expired when it was made, if there is one.
fn first_expired(uses: &[Use]) -> Option<usize>
    ensures { MatchOption result (AllByRecursion IsTellable uses.now) (IsFirstExpired uses.now) }
{
    for (index, used) in uses.iter().enumerate() {
        if is_expired(*used) {
            return Some(index);
        }
    }
    None
}

/// The batches of these uses: for each time at which uses were made one batch of that moment, or several where more than 65,536
/// uses were made then. The uses may be in any order. A use that is given twice is in one batch once. No uses give no batch.
///
/// `Expired` with the index, counted from 0, of the first use that expires when it was made, or before: no batch can have it.
/// `OutOfMemory` where memory is refused. The call takes room for the uses twice, and the time of sorting them.
pub fn batches_of(alloc: Global, uses: &[Use]) -> Result<Vec<Batch>, UsesFault>
    ensures ok { IfOk result (λ batches. AreBatched uses.now batches.items) }
    ensures fault { IfErr result (IsUsesFault uses.now) }
{
    if let Some(index) = first_expired(uses) {
        return Err(UsesFault::Expired(index));
    }
    let sorted = in_time(uses.to_vec(alloc)?);
    Ok(cut(alloc, &sorted)?)
}
