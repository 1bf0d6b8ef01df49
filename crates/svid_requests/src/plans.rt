ghost use Rattle.std.specs.Prelude.{◌≡◌};
ghost use Rattle.svid_requests.specs.Plans.{after_answer, after_judgment, after_leave, after_send, after_write, found, in_time, judged, judged_again, passed, plan, written};

use crate::event::Event;
use crate::judgment::Judgment;
use crate::needs::Needs;
use crate::plan::Plan;
use crate::request::Request;
use crate::stage::Stage;
use crate::verdict::Verdict;
use svid_replay::Use;

impl Plan {
    // The same, where the time of the request is not over.
    fn in_time(self, now: u64, request: &Request) -> Plan
        ensures { result ≡ in_time now request.now self }
    {
        if request.deadline <= now {
            return Plan::Part(Verdict::Late);
        }
        self
    }
}

impl Needs {
    // The plan for a request whose token is accepted.
    fn passed(self, held: bool, used: Use) -> Plan
        ensures { result ≡ passed self held used }
    {
        match self {
            Needs::Nothing => Plan::Part(Verdict::Accept(used)),
            Needs::Write => Plan::Go(Stage::Writing(used)),
            Needs::Claim if held => Plan::Go(Stage::Behind(used)),
            Needs::Claim => Plan::Go(Stage::Claiming(used)),
        }
    }
}

impl Judgment {
    // The plan for a request whose token was judged.
    fn plan(self, needs: Needs, held: bool) -> Plan
        ensures { result ≡ judged needs held self }
    {
        match self {
            Judgment::Passes(used) => needs.passed(held, used),
            Judgment::Holds(used) => Plan::Part(Verdict::Accept(used)),
            Judgment::Fails(why) => Plan::Part(Verdict::Refuse(why)),
        }
    }

    // The plan for a request whose turn has come.
    fn plan_again(self, own: Use) -> Plan
        ensures { result ≡ judged_again own self }
    {
        match self {
            Judgment::Passes(_) => Plan::Go(Stage::Claiming(own)),
            Judgment::Holds(used) => Plan::Part(Verdict::Accept(used)),
            Judgment::Fails(why) => Plan::Part(Verdict::Refuse(why)),
        }
    }

    // The plan for a request whose claim was answered.
    fn plan_found(self) -> Plan
        ensures { result ≡ found self }
    {
        match self {
            Judgment::Passes(used) | Judgment::Holds(used) => Plan::Part(Verdict::Accept(used)),
            Judgment::Fails(why) => Plan::Part(Verdict::Refuse(why)),
        }
    }
}

// The plan for a request whose use was written, or could not be.
fn written(ok: bool, used: Use) -> Plan
    ensures { result ≡ written ok used }
{
    if ok {
        return Plan::Part(Verdict::Accept(used));
    }
    Plan::Part(Verdict::NotKept)
}

impl Request {
    fn judged(&self, needs: Needs, held: bool, now: u64, judgment: Judgment) -> Plan
        ensures { result ≡ after_judgment needs held now judgment self.now self.now.stage }
    {
        match self.stage {
            Stage::Judging => judgment.plan(needs, held).in_time(now, self),
            Stage::Again(own) => judgment.plan_again(own).in_time(now, self),
            _ => Plan::Stay,
        }
    }

    fn wrote(&self, now: u64, ok: bool) -> Plan
        ensures { result ≡ after_write now ok self.now self.now.stage }
    {
        match self.stage {
            Stage::Writing(used) => written(ok, used).in_time(now, self),
            _ => Plan::Stay,
        }
    }

    fn sent(&self, now: u64) -> Plan
        ensures { result ≡ after_send now self.now self.now.stage }
    {
        match self.stage {
            Stage::Claiming(used) => Plan::Go(Stage::Claiming(used)).in_time(now, self),
            _ => Plan::Stay,
        }
    }

    fn found(&self, now: u64, judgment: Judgment) -> Plan
        ensures { result ≡ after_answer now judgment self.now self.now.stage }
    {
        match self.stage {
            Stage::Claiming(_) => judgment.plan_found().in_time(now, self),
            _ => Plan::Stay,
        }
    }

    fn left(&self) -> Plan
        ensures { result ≡ after_leave self.now.stage }
    {
        match self.stage {
            Stage::Writing(_) => Plan::Stay,
            _ => Plan::Part(Verdict::Left),
        }
    }

    // What an event does to this request. `held`: another one holds the claim of the key that was judged.
    pub(crate) fn plan(&self, needs: Needs, held: bool, now: u64, event: &Event) -> Plan
        ensures { result ≡ plan needs held now event.now self.now }
    {
        match event {
            Event::Judged(_, judgment) => self.judged(needs, held, now, *judgment),
            Event::Wrote(_, ok) => self.wrote(now, *ok),
            Event::Send(_) => self.sent(now),
            Event::Found(_, judgment) => self.found(now, *judgment),
            Event::Leave(_) => self.left(),
            Event::Overdue => Plan::Stay.in_time(now, self),
        }
    }
}
