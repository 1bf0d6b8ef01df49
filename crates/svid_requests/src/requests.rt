ghost use Rattle.std.specs.Prelude.{◌≡◌, Bool, IfOk, OnErr};
ghost use Rattle.svid_requests.specs.Tables.{at_moment, awaits, begun, came, come_deed, claim_at, claimed, due, heard, heard_deed, is_judging};

use crate::deed::Deed;
use crate::event::Event;
use crate::needs::Needs;
use crate::stage::Stage;
use crate::table::Table;
use std::alloc::{AllocError, Global};
use std::marker::Model;
use svid_replay::Use;

/// The requests of a member that have no answer yet.
///
/// Contracts see them as what `State` says. `up` is a moment by a clock that only goes ahead, in any unit. One that is before the last one
/// counts as that.
#[derive(Drop)]
pub struct Requests {
    needs: Needs,
    wait: u64,
    moment: u64,
    next: u64,
    table: Table,
}

impl Model for Requests {
    ghost use Rattle.svid_requests.specs.Tables.{State};

    ghost Value = { State };

    ghost view = { λ r. record { needs = r.needs; wait = r.wait; now = r.moment; next = r.next; table = r.table } };
}

impl Requests {
    /// No requests. Each that comes is answered within `wait`. Allocates nothing.
    pub fn new(alloc: Global, needs: Needs, wait: u64) -> Requests
        ensures { result ≡ begun needs wait }
    {
        Requests {
            needs,
            wait,
            moment: 0,
            next: 0,
            table: Table::new(alloc),
        }
    }

    /// Adds a request that arrives. The deed has its number, and says to judge it; it is `Nothing` if no number is left.
    ///
    /// Where memory is refused, nothing came: the request is to be answered so.
    pub fn come(&mut self, up: u64) -> Result<Deed, AllocError>
        ensures ok { IfOk result (λ deed. (deed ≡ come_deed (at_moment self.old up)) × (self.new ≡ came (at_moment self.old up))) }
        ensures err { OnErr result (self.new ≡ at_moment self.old up) }
    {
        self.moment = self.moment.max(up);
        if self.next == u64::MAX {
            return Ok(Deed::Nothing);
        }
        let number = self.next;
        self.table
            .enter(number, self.moment.saturating_add(self.wait))?;
        self.next += 1;
        Ok(Deed::Judge(number))
    }

    /// Hears an event, and answers what is to be done. Where memory is refused, the request that the event is about is answered
    /// [`NoMemory`](crate::Verdict::NoMemory).
    pub fn hear(&mut self, up: u64, event: &Event) -> Deed
        ensures { (refused : Bool) × (result ≡ heard_deed refused (at_moment self.old up) event.now) × (self.new ≡ heard refused (at_moment self.old up) event.now) }
    {
        self.moment = self.moment.max(up);
        self.table.hear(self.needs, self.moment, event)
    }

    /// When the request that came first is due, by the clock of `up`. Then an event `Overdue` answers it.
    pub fn due(&self) -> Option<u64>
        ensures { result ≡ due self.now }
    {
        match self.table.first() {
            None => None,
            Some((_, request)) => Some(request.deadline),
        }
    }

    /// Whether the request of this number is to be judged, and its time is not over at `up`. Else a validator need not be asked: an
    /// acceptance would be lost.
    pub fn awaits(&self, up: u64, number: u64) -> bool
        ensures { result ≡ awaits (at_moment self.now up) number }
    {
        match self.table.find(number) {
            None => false,
            Some(request) => request.stage.is_judging() && request.deadline > self.moment.max(up),
        }
    }

    /// The use whose claim the request of this number waits for, if its time is not over at `up`. Else the answer to a claim is of no use.
    pub fn claimed(&self, up: u64, number: u64) -> Option<Use>
        ensures { result ≡ claimed (at_moment self.now up) number }
    {
        let request = self.table.find(number)?;
        if request.deadline <= self.moment.max(up) {
            return None;
        }
        request.stage.claimed()
    }
}

impl Stage {
    fn is_judging(self) -> bool
        ensures { result ≡ is_judging self }
    {
        match self {
            Stage::Judging | Stage::Again(_) => true,
            _ => false,
        }
    }

    fn claimed(self) -> Option<Use>
        ensures { result ≡ claim_at self }
    {
        match self {
            Stage::Claiming(used) => Some(used),
            _ => None,
        }
    }
}
