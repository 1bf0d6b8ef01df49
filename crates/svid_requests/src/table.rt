ghost use Rattle.std.specs.Prelude.{◌≡◌, ◌⊎◌, [], Some, true, false, IsTrue, OnErr, OnOk, Option, Bool};
ghost use Rattle.std.specs.BTreeMap.{is_at};
ghost use Rattle.std.specs.Map.{set_value};
ghost use Rattle.svid_requests.specs.declared.stage.Stage.{Stage};
ghost use Rattle.svid_requests.specs.declared.plan.Plan.TheVariants.{Part};
ghost use Rattle.svid_requests.specs.Lines.{first_of, key_cmp};
ghost use Rattle.svid_requests.specs.Tables.{Table, asks_memory, at_stage, deed_at, deed_by, deed_of, enters, find, first, followed, gone, granted, handed_on, held_by, holder, is_held, joined, joins, judged_held, let_in, left_at, left_by, next_after, parted, restaged, subject, turn, turned, without};

use crate::deed::Deed;
use crate::event::Event;
use crate::judgment::Judgment;
use crate::lines::first_of;
use crate::needs::Needs;
use crate::plan::Plan;
use crate::request::Request;
use crate::stage::Stage;
use crate::verdict::Verdict;
use crate::waiter::Waiter;
use std::alloc::{AllocError, Global};
use std::collections::{BTreeMap, BTreeSet};
use std::marker::Model;

// The requests by their numbers, who holds the claim of each key, and who waits for that.
#[derive(Drop)]
pub(crate) struct Table {
    requests: BTreeMap<u64, Request>,
    holders: BTreeMap<[u8; 32], u64>,
    lines: BTreeSet<Waiter>,
}

impl Model for Table {
    ghost use Rattle.svid_requests.specs.Tables.{Table as Tables};

    ghost Value = { Tables };

    ghost view = { λ t. record { requests = t.requests.entries; holders = t.holders.entries; lines = t.lines.keys } };
}

impl Stage {
    // Its turn comes.
    fn turned(self) -> Stage
        ensures { result ≡ turned self }
    {
        match self {
            Stage::Behind(used) => Stage::Again(used),
            other => other,
        }
    }

    // What is to be done for a request of this number that is at this stage now.
    fn deed(self, number: u64) -> Deed
        ensures { result ≡ deed_at number self }
    {
        match self {
            Stage::Judging | Stage::Again(_) => Deed::Judge(number),
            Stage::Writing(used) => Deed::Append(number, used),
            Stage::Claiming(used) => Deed::Claim(number, used),
            Stage::Behind(_) => Deed::Nothing,
        }
    }
}

// Puts the request of a number at another stage.
fn restage(requests: &mut BTreeMap<u64, Request>, number: u64, request: &Request, stage: Stage)
    ensures { requests.new.entries ≡ restaged number request.now stage requests.old.entries }
{
    if let Some(place) = requests.get_mut(&number) {
        *place = Request {
            deadline: request.deadline,
            stage,
        };
    }
}

// Its turn comes, if there is one of this number.
fn turn(requests: &mut BTreeMap<u64, Request>, number: u64)
    ensures { requests.new.entries ≡ turn number (find number requests.old.entries) requests.old.entries }
{
    let Some(request) = requests.get(&number).copied() else {
        return;
    };
    restage(requests, number, &request, request.stage.turned());
}

// Lets the request of a number hold the claim of a key that one held.
fn hold(holders: &mut BTreeMap<[u8; 32], u64>, key: &[u8; 32], number: u64)
    ensures { holders.new.entries ≡ set_value (is_at (key_cmp key.now)) holders.old.entries number }
{
    if let Some(place) = holders.get_mut(key) {
        *place = number;
    }
}

impl Table {
    pub(crate) fn new(alloc: Global) -> Table
        ensures { result ≡ record { requests = []; holders = []; lines = [] } }
    {
        Table {
            requests: BTreeMap::new(alloc),
            holders: BTreeMap::new(alloc),
            lines: BTreeSet::new(alloc),
        }
    }
}

impl Table {
    // The claim of a key is handed on to the first who waits for it, or is free. Answers whose turn comes.
    fn hand_on(&mut self, key: &[u8; 32]) -> Option<u64>
        ensures next { result ≡ first_of key.now self.old.lines }
        ensures handed { self.new ≡ handed_on key.now self.old }
    {
        let Some(number) = first_of(&self.lines, key) else {
            self.holders.remove(key);
            return None;
        };
        turn(&mut self.requests, number);
        hold(&mut self.holders, key, number);
        self.lines.remove(&Waiter { key: *key, number });
        Some(number)
    }

    // What a request of this number leaves that was at this stage. Answers whose turn comes.
    fn leave_at(&mut self, number: u64, stage: &Stage) -> Option<u64>
        ensures next { result ≡ next_after stage.now self.old }
        ensures left { self.new ≡ left_at number stage.now self.old }
    {
        match stage {
            Stage::Claiming(used) | Stage::Again(used) => self.hand_on(&used.key),
            Stage::Behind(used) => {
                self.lines.remove(&Waiter {
                    key: used.key,
                    number,
                });
                None
            }
            _ => None,
        }
    }

    // The request of a number is answered. Answers whose turn comes.
    fn part(&mut self, number: u64, request: &Request) -> Option<u64>
        ensures next { result ≡ next_after request.now.stage self.old }
        ensures parted { self.new ≡ parted number request.now self.old }
    {
        self.requests.remove(&number);
        self.leave_at(number, &request.stage)
    }

    // The request of a number begins to claim, or to wait. Where memory is refused, nothing has changed.
    fn join(&mut self, number: u64, stage: &Stage) -> Result<(), AllocError>
        ensures ok { OnOk result (self.new ≡ joins number stage.now self.old) }
        ensures err { OnErr result ((self.new ≡ self.old) × (enters Stage.Judging stage.now ≡ true)) }
    {
        match stage {
            Stage::Claiming(used) => {
                self.holders.insert(used.key, number)?;
            }
            Stage::Behind(used) => {
                self.lines.insert(Waiter {
                    key: used.key,
                    number,
                })?;
            }
            _ => {}
        }
        Ok(())
    }

    // The request of a number goes on to a stage. Where memory is refused, nothing has changed.
    fn go(&mut self, number: u64, request: &Request, stage: Stage) -> Result<(), AllocError>
        ensures ok { OnOk result (self.new ≡ gone number request.now stage self.old) }
        ensures err { OnErr result ((self.new ≡ self.old) × (enters request.now.stage stage ≡ true)) }
    {
        if let Stage::Judging = request.stage {
            self.join(number, &stage)?;
        }
        restage(&mut self.requests, number, request, stage);
        Ok(())
    }

    // The request of a number is answered.
    fn answer(&mut self, number: u64, request: &Request, verdict: Verdict) -> Deed
        ensures deed { result ≡ deed_of number request.now (Part verdict) self.old }
        ensures left { self.new ≡ followed number request.now (Part verdict) self.old }
    {
        let next = self.part(number, request);
        Deed::Answer(number, verdict, next)
    }

    // Does with the request of a number what is planned.
    fn follow(&mut self, number: u64, request: &Request, plan: Plan) -> Deed
        ensures { (refused : Bool) × (result ≡ deed_of number request.now (granted refused request.now plan) self.old) × (self.new ≡ followed number request.now (granted refused request.now plan) self.old) }
    {
        match plan {
            Plan::Stay => Deed::Nothing,
            Plan::Go(stage) => match self.go(number, request, stage) {
                Ok(()) => stage.deed(number),
                Err(_) => self.answer(number, request, Verdict::NoMemory),
            },
            Plan::Part(verdict) => self.answer(number, request, verdict),
        }
    }

    // The request that an event is about, with its number.
    fn subject(&self, event: &Event) -> Option<(u64, Request)>
        ensures { result ≡ subject event.now self.now.requests }
    {
        let number = match event {
            Event::Judged(n, _) | Event::Wrote(n, _) | Event::Found(n, _) => *n,
            Event::Send(n) | Event::Leave(n) => *n,
            Event::Overdue => return self.first(),
        };
        match self.requests.get(&number) {
            None => None,
            Some(request) => Some((number, *request)),
        }
    }

    // The request that came first, with its number.
    pub(crate) fn first(&self) -> Option<(u64, Request)>
        ensures { result ≡ first self.now.requests }
    {
        match self.requests.first_key_value() {
            None => None,
            Some((number, request)) => Some((*number, *request)),
        }
    }

    // The request of a number.
    pub(crate) fn find(&self, number: u64) -> Option<Request>
        ensures { result ≡ find number self.now.requests }
    {
        self.requests.get(&number).copied()
    }

    // Whether a request holds the claim of this key.
    fn has_holder(&self, key: &[u8; 32]) -> bool
        ensures { result ≡ is_held key.now self.now }
    {
        self.holders.contains_key(key)
    }

    // Whether a request holds the claim of the key that was judged.
    fn is_judged_held(&self, judgment: &Judgment) -> bool
        ensures { result ≡ judged_held judgment.now self.now }
    {
        match judgment {
            Judgment::Passes(used) => self.has_holder(&used.key),
            _ => false,
        }
    }

    // Whether a request holds the claim of the key that an event judges.
    fn is_held(&self, event: &Event) -> bool
        ensures { result ≡ held_by event.now self.now }
    {
        match event {
            Event::Judged(_, judgment) => self.is_judged_held(judgment),
            _ => false,
        }
    }

    // A request comes. Its number is greater than those of all others.
    pub(crate) fn enter(&mut self, number: u64, deadline: u64) -> Result<(), AllocError>
        ensures ok { OnOk result (self.new ≡ let_in number deadline self.old) }
        ensures err { OnErr result (self.new ≡ self.old) }
    {
        self.requests.insert(
            number,
            Request {
                deadline,
                stage: Stage::Judging,
            },
        )?;
        Ok(())
    }

    // Hears an event at a moment, and answers what is to be done.
    pub(crate) fn hear(&mut self, needs: Needs, now: u64, event: &Event) -> Deed
        ensures { (refused : Bool) × (result ≡ deed_by needs refused now event.now self.old (subject event.now self.old.requests)) × (self.new ≡ left_by needs refused now event.now self.old (subject event.now self.old.requests)) }
    {
        let Some((number, request)) = self.subject(event) else {
            return Deed::Nothing;
        };
        let held = self.is_held(event);
        let plan = request.plan(needs, held, now, event);
        self.follow(number, &request, plan)
    }
}
