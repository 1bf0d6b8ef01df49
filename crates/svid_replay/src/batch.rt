ghost use Rattle.std.specs.Prelude.{◌≡◌, ◌↔◌, ◌≤◌, None, length, IfOk, IfErr, IsOk, MatchOption};
ghost use Rattle.std.specs.List.{AllByRecursion};
ghost use Rattle.svid_replay.specs.Use.{IsRising, IsUse};
ghost use Rattle.svid_replay.specs.Batches.{AllGood, IsBatch, IsBatchFault, fault_of};

use crate::flaw::{Flaw, flaw_of};
use crate::{BatchFault, MOST_USES, Use};
use std::marker::Model;

/// A moment, and up to 65,536 uses that were made by then and expire later, in strictly rising order.
#[derive(Debug, Drop)]
pub struct Batch {
    moment: u64,
    uses: Vec<Use>,
}

impl Model for Batch {
    ghost use Rattle.svid_replay.specs.Batches.{BatchData, IsBatch};

    ghost Value = { BatchData };

    ghost view = { λ b. record { moment = b.moment; uses = b.uses.items } };

    ghost invariant = { λ b. IsBatch (record { moment = b.moment; uses = b.uses.items }) };
}

fn fault_of(flaw: Flaw, index: usize) -> BatchFault
    ensures { result ≡ fault_of flaw index }
{
    match flaw {
        Flaw::Expired => BatchFault::Expired(index),
        Flaw::Future => BatchFault::Future(index),
        Flaw::Order => BatchFault::Order(index),
    }
}

fn first_fault(moment: u64, uses: &[Use]) -> Option<BatchFault>
    requires { length uses.now ≤ 65536 }
    ensures { MatchOption result (AllByRecursion IsUse uses.now × AllGood moment None uses.now) (IsBatchFault moment uses.now) }
{
    let mut before = None;
    for (index, used) in uses.iter().enumerate() {
        if let Some(flaw) = flaw_of(moment, before, *used) {
            return Some(fault_of(flaw, index));
        }
        before = Some(*used);
    }
    None
}

impl Batch {
    /// The batch of a moment (in seconds) and uses, or the first thing that is wrong with them.
    ///
    /// Takes no memory. On a refusal the vector is dropped.
    pub fn make(moment: u64, uses: Vec<Use>) -> Result<Batch, BatchFault>
        ensures ok { IfOk result (λ b. (b ≡ record { moment = moment; uses = uses.items }) × IsBatch b) }
        ensures fault { IfErr result (IsBatchFault moment uses.items) }
        ensures exact { IsOk result ↔ IsBatch (record { moment = moment; uses = uses.items }) }
    {
        if uses.len() > MOST_USES {
            return Err(BatchFault::TooMany);
        }
        if let Some(fault) = first_fault(moment, &uses) {
            return Err(fault);
        }
        Ok(Batch { moment, uses })
    }

    /// The batch of a moment and uses that the caller knows to make one.
    pub fn from_good(moment: u64, uses: Vec<Use>) -> Batch
        requires { IsBatch (record { moment = moment; uses = uses.items }) }
        ensures { result ≡ record { moment = moment; uses = uses.items } }
    {
        Batch { moment, uses }
    }

    /// The moment of the batch, in seconds.
    pub fn moment(&self) -> u64
        ensures value { result ≡ self.now.moment }
        ensures batch { IsBatch self.now }
    {
        self.moment
    }

    /// The uses, in rising order.
    pub fn uses(&self) -> &[Use]
        ensures value { result.now ≡ self.now.uses }
        ensures batch { IsBatch self.now }
        ensures rising { IsRising result.now }
    {
        &self.uses
    }
}
