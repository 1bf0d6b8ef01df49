ghost use Rattle.std.specs.Prelude.{◌≡◌, IfOk};
ghost use Rattle.std.specs.List.{AllByRecursion};
ghost use Rattle.svid_replay.specs.Parts.{cut};
ghost use Rattle.svid_replay.specs.Records.{IsHeldAt};
ghost use Rattle.svid_replay.specs.Use.{IsRising};

use crate::{Batch, MOST_USES, Use};
use std::alloc::{AllocError, Global};

// Uses that a record of this moment may hold, as batches: 65,536 in each but the last.
pub(crate) fn cut(alloc: Global, moment: u64, uses: &[Use]) -> Result<Vec<Batch>, AllocError>
    requires rising { IsRising uses.now }
    requires held { AllByRecursion (IsHeldAt moment) uses.now }
    ensures { IfOk result (λ batches. batches.items ≡ cut moment uses.now) }
{
    let mut batches = Vec::new(alloc);
    let mut rest = uses;
    while rest.len() > MOST_USES {
        let (full, others) = rest.split_at(MOST_USES);
        batches.push(Batch::from_good(moment, full.to_vec(alloc)?))?;
        rest = others;
    }
    batches.push(Batch::from_good(moment, rest.to_vec(alloc)?))?;
    Ok(batches)
}
