ghost use Rattle.std.specs.Prelude.{◌≡◌, drop, take, IfOk};
ghost use Rattle.std.specs.List.{AllByRecursion};
ghost use Rattle.svid_uses.specs.Batched.{AreCut, count_at, made_at};
ghost use Rattle.svid_uses.specs.Time.{IsInTime, IsTellable};

use std::alloc::{AllocError, Global};
use svid_replay::{Batch, MOST_USES, Use};

fn is_made_at(moment: u64, used: &Use) -> bool
    ensures { result ≡ made_at moment used.now }
{
    used.at == moment
}

// Splits off the first uses that one batch of this moment can have: those that were made at it, up to 65,536.
fn split_moment(moment: u64, uses: &[Use]) -> (&[Use], &[Use])
    ensures front { result.0.now ≡ take (count_at moment uses.now) uses.now }
    ensures rest { result.1.now ≡ drop (count_at moment uses.now) uses.now }
{
    let (most, _) = uses.split_at(MOST_USES.min(uses.len()));
    let count = most
        .iter()
        .take_while(|used| is_made_at(moment, used))
        .count();
    uses.split_at(count)
}

// The batches of uses that are in the order of their times. Looks at each use once, and at the first of a batch twice.
pub(crate) fn cut(alloc: Global, uses: &[Use]) -> Result<Vec<Batch>, AllocError>
    requires in_time { IsInTime uses.now }
    requires tellable { AllByRecursion IsTellable uses.now }
    ensures { IfOk result (λ batches. AreCut uses.now batches.items) }
{
    let mut batches = Vec::new(alloc);
    let mut rest = uses;
    while let Some(first) = rest.first() {
        let (front, others) = split_moment(first.at, rest);
        batches.push(Batch::from_good(first.at, front.to_vec(alloc)?))?;
        rest = others;
    }
    Ok(batches)
}
