ghost use Rattle.std.specs.Prelude.{◌≡◌};
ghost use Rattle.svid_member.specs.Withdrawals.{given_up, is_over, told, told_at, waits, with_deadline};

use crate::part::Part;
use crate::place::Place;

/// A withdrawal that the record has, on its way to the state folder, the store and the log.
#[derive(Clone, Copy, Debug, PartialEq, Eq)]
pub struct Withdrawal {
    /// The moment by which it is answered, by a clock that only goes ahead.
    pub deadline: u64,
    /// How far it is at the state folder.
    pub disk: Part,
    /// How far it is at the store of the group.
    pub store: Part,
    /// How far it is at the log of the group.
    pub log: Part,
}

impl Part {
    // Whether it is not known yet.
    fn waits(self) -> bool
        ensures { result ≡ waits self }
    {
        match self {
            Part::Waits => true,
            _ => false,
        }
    }

    // The outcome, once it is known whether it is there. The first report counts.
    fn told(self, ok: bool) -> Part
        ensures { result ≡ told ok self }
    {
        match self {
            Part::Waits if ok => Part::Done,
            Part::Waits => Part::Failed,
            other => other,
        }
    }
}

impl Withdrawal {
    // Whether it waits for no place any more.
    pub(crate) fn is_over(&self) -> bool
        ensures { result ≡ is_over self.now }
    {
        !self.disk.waits() && !self.store.waits() && !self.log.waits()
    }

    // The same, once it is known whether a place has it.
    pub(crate) fn told(&self, place: Place, ok: bool) -> Withdrawal
        ensures { result ≡ told_at place ok self.now }
    {
        let Withdrawal {
            deadline,
            disk,
            store,
            log,
        } = *self;
        match place {
            Place::Disk => Withdrawal {
                deadline,
                disk: disk.told(ok),
                store,
                log,
            },
            Place::Store => Withdrawal {
                deadline,
                disk,
                store: store.told(ok),
                log,
            },
            Place::Log => Withdrawal {
                deadline,
                disk,
                store,
                log: log.told(ok),
            },
        }
    }

    // The same, once nobody waits any longer.
    pub(crate) fn given_up(&self) -> Withdrawal
        ensures { result ≡ given_up self.now }
    {
        Withdrawal {
            deadline: self.deadline,
            disk: self.disk.told(false),
            store: self.store.told(false),
            log: self.log.told(false),
        }
    }

    // The same, with this deadline.
    pub(crate) fn by(&self, deadline: u64) -> Withdrawal
        ensures { result ≡ with_deadline deadline self.now }
    {
        Withdrawal {
            deadline,
            disk: self.disk,
            store: self.store,
            log: self.log,
        }
    }
}
