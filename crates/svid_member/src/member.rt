ghost use Rattle.std.specs.Prelude.{◌≡◌, IfOk, OnErr, Bool};
ghost use Rattle.svid_requests.specs.Tables.{at_moment, begun, due};
ghost use Rattle.svid_requests.specs.declared.event.Event.{Event};
ghost use Rattle.svid_requests.specs.declared.judgment.Judgment.{Judgment};
ghost use Rattle.svid_member.specs.Members.{Comes, Hears, with_kept, with_known, with_requests};
ghost use Rattle.svid_member.specs.Modes.{needs_of};
ghost use Rattle.svid_member.specs.Readiness.{blocks, doubts};

use crate::coming::Coming;
use crate::mode::Mode;
use crate::owners::Owners;
use crate::readiness::Readiness;
use crate::unready::Unready;
use std::alloc::{AllocError, Global};
use std::marker::Model;
use svid_requests::{Deed, Event, Judgment, Requests};

/// The requests of a validator, with what they are answered by.
///
/// `up` is a moment by a clock that only goes ahead, in any unit. `now` is one of the wall clock, in seconds.
#[derive(Drop)]
pub struct Member {
    pub(crate) mode: Mode,
    pub(crate) life: [u8; 16],
    pub(crate) ahead: u64,
    pub(crate) lasts: u64,
    pub(crate) readiness: Readiness,
    pub(crate) requests: Requests,
    pub(crate) owners: Owners,
}

impl Model for Member {
    ghost use Rattle.svid_member.specs.Members.{MemberData};

    ghost Value = { MemberData };

    ghost view = { λ m. record { mode = m.mode; life = m.life; ahead = m.ahead; lasts = m.lasts; readiness = m.readiness; requests = m.requests } };
}

impl Member {
    /// A member without requests. Allocates nothing.
    ///
    /// `kept` says that there is a state folder. `life` is 16 random bytes, new at each start. `ahead` is how many seconds the store's time may be
    /// ahead of this process's clock, and `lasts` how many seconds past the store's time a token may expire. Each request is answered within `wait`.
    pub fn new(
        alloc: Global,
        mode: Mode,
        kept: bool,
        life: [u8; 16],
        ahead: u64,
        lasts: u64,
        wait: u64,
        readiness: Readiness,
    ) -> Member
        ensures { result ≡ record { mode = mode; life = life; ahead = ahead; lasts = lasts; readiness = readiness; requests = begun (needs_of mode kept) wait } }
    {
        Member {
            mode,
            life,
            ahead,
            lasts,
            readiness,
            requests: Requests::new(alloc, mode.needs(kept), wait),
            owners: Owners::new(alloc),
        }
    }

    /// What the member knows from now on. No request that is open changes. Whether the state folder took the last acceptance it knows by
    /// itself, so `unkept` of `readiness` does not count.
    pub fn know(&mut self, readiness: Readiness)
        ensures { self.new ≡ with_known readiness self.old }
    {
        let unkept = self.readiness.unkept;
        self.readiness = readiness;
        self.readiness.unkept = unkept;
    }

    /// Adds a request that arrives. If a reason says that no token is judged yet, nothing is added. Else the deed has its number: the request is to
    /// be judged, or the deed is `Nothing` if no number is left.
    ///
    /// Where memory is refused, nothing came: the request is to be answered so.
    pub fn come(&mut self, up: u64) -> Result<Coming, AllocError>
        ensures ok { IfOk result (λ coming. Comes up self.old coming self.new) }
        ensures err { OnErr result (self.new ≡ with_requests self.old (at_moment self.old.requests up)) }
    {
        if let Some(reason) = self.readiness.blocks(self.mode) {
            return Ok(Coming::Waits(reason));
        }
        let deed = self.requests.come(up)?;
        Ok(Coming::Comes(deed))
    }

    /// The use of the request of this number is on the disk, or it could not be brought there. In mode `Once` the member is not ready while the last
    /// one could not.
    pub fn wrote(&mut self, up: u64, number: u64, ok: bool) -> Deed
        ensures { Hears up (Event.Wrote number ok) (with_kept ok self.old) result self.new }
    {
        self.readiness.unkept = !ok;
        self.requests.hear(up, &Event::Wrote(number, ok))
    }

    /// The token of the request of this number is refused for the reason `why`, before a validator accepts it.
    pub fn refuse(&mut self, up: u64, number: u64, why: u8) -> Deed
        ensures { Hears up (Event.Judged number (Judgment.Fails why)) self.old result self.new }
    {
        self.requests
            .hear(up, &Event::Judged(number, Judgment::Fails(why)))
    }

    /// The same of a request whose claim was answered.
    pub fn refuse_claim(&mut self, up: u64, number: u64, why: u8) -> Deed
        ensures { Hears up (Event.Found number (Judgment.Fails why)) self.old result self.new }
    {
        self.requests
            .hear(up, &Event::Found(number, Judgment::Fails(why)))
    }

    /// The claim of the request of this number is about to go out: `Claim` where it still is to.
    pub fn send(&mut self, up: u64, number: u64) -> Deed
        ensures { Hears up (Event.Send number) self.old result self.new }
    {
        self.requests.hear(up, &Event::Send(number))
    }

    /// Reports that the client of this request has left. A use whose write to the disk is under way is still written.
    pub fn leave(&mut self, up: u64, number: u64) -> Deed
        ensures { Hears up (Event.Leave number) self.old result self.new }
    {
        self.requests.hear(up, &Event::Leave(number))
    }

    /// Answers the request that came first, if its time is over. To be called until it says `Nothing`.
    pub fn overdue(&mut self, up: u64) -> Deed
        ensures { Hears up Event.Overdue self.old result self.new }
    {
        self.requests.hear(up, &Event::Overdue)
    }

    /// Why the member judges no tokens, if it judges none.
    pub fn blocks(&self) -> Option<Unready>
        ensures { result ≡ blocks self.now.readiness self.now.mode }
    {
        self.readiness.blocks(self.mode)
    }

    /// Why no tokens are to be sent to the member, if none are.
    pub fn doubts(&self) -> Option<Unready>
        ensures { result ≡ doubts self.now.readiness self.now.mode }
    {
        self.readiness.doubts(self.mode)
    }

    /// When the request that came first is due, by the clock of `up`.
    pub fn due(&self) -> Option<u64>
        ensures { result ≡ due self.now.requests }
    {
        self.requests.due()
    }
}
