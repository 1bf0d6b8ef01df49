ghost use Rattle.std.specs.Prelude.{◌≡◌};
ghost use Rattle.svid_replay.specs.Use.{IsUse};
ghost use Rattle.svid_replay.specs.Batches.{flaw, is_after};

use crate::Use;

/// What can be wrong with a use in a batch, in the order of the checks.
#[derive(Clone, Copy, Debug, PartialEq, Eq)]
pub enum Flaw {
    /// The use expires at the batch's moment or before.
    Expired,
    /// The use was made after the batch's moment.
    Future,
    /// The use is not greater than the one before it.
    Order,
}

fn is_after(before: &Option<Use>, used: &Use) -> bool
    ensures { result ≡ is_after before.now used.now }
{
    match before {
        None => true,
        Some(last) => last.cmp(used).is_lt(),
    }
}

/// What is wrong, if anything, with a use in a batch of this moment (in seconds), after the use `before`, where there is one.
#[tactic(auto, unfolding(crate::specs::Batches::flaw))]
pub fn flaw_of(moment: u64, before: Option<Use>, used: Use) -> Option<Flaw>
    ensures flaw { result ≡ flaw moment before used }
    ensures fields { IsUse used }
{
    if !used.is_live(moment) {
        Some(Flaw::Expired)
    } else if used.at > moment {
        Some(Flaw::Future)
    } else if is_after(&before, &used) {
        None
    } else {
        Some(Flaw::Order)
    }
}
