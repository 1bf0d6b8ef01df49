use crate::{Deed, Event, Judgment, Needs, Requests, Verdict};
use std::alloc::AllocError;
use svid_replay::Use;

fn used(at: u64) -> Use {
    Use {
        exp: 900,
        key: [7; 32],
        validator_id: [1; 16],
        at,
        withdrawn: false,
    }
}

// One token, sent three times at once: one claim goes out. Each answer hands it on to the next, which is judged again and claims its own use.
#[test]
fn one_claim_for_three_requests(rt: HostRuntime) -> Result<(), AllocError> {
    let mut requests = Requests::new(rt.alloc(), Needs::Claim, 100);
    for n in 0..3 {
        assert_eq!(rt; requests.come(10)?, Deed::Judge(n));
    }
    let first = Event::Judged(0, Judgment::Passes(used(5)));
    assert_eq!(rt; requests.hear(11, &first), Deed::Claim(0, used(5)));
    for n in 1..3 {
        let judged = Event::Judged(n, Judgment::Passes(used(5 + n)));
        assert_eq!(rt; requests.hear(11, &judged), Deed::Nothing);
    }
    assert_eq!(rt; requests.hear(12, &Event::Send(0)), Deed::Claim(0, used(5)));
    assert_eq!(rt; requests.awaits(12, 1), false);
    let found = Event::Found(0, Judgment::Passes(used(5)));
    assert_eq!(rt; requests.claimed(13, 0), Some(used(5)));
    assert_eq!(rt;
        requests.hear(13, &found),
        Deed::Answer(0, Verdict::Accept(used(5)), Some(1))
    );
    assert_eq!(rt; requests.hear(13, &found), Deed::Nothing);
    assert_eq!(rt; requests.awaits(13, 1), true);
    let failed = Event::Judged(1, Judgment::Fails(25));
    assert_eq!(rt;
        requests.hear(14, &failed),
        Deed::Answer(1, Verdict::Refuse(25), Some(2))
    );
    let passed = Event::Judged(2, Judgment::Passes(used(9)));
    assert_eq!(rt; requests.hear(15, &passed), Deed::Claim(2, used(7)));
    assert_eq!(rt; requests.due(), Some(110));
    assert_eq!(rt; requests.hear(109, &Event::Overdue), Deed::Nothing);
    assert_eq!(rt;
        requests.hear(110, &Event::Overdue),
        Deed::Answer(2, Verdict::Late, None)
    );
    assert_eq!(rt; requests.due(), None);
    Ok(())
}

// One that leaves stands in line no more.
#[test]
fn a_line_without_one_that_left(rt: HostRuntime) -> Result<(), AllocError> {
    let mut requests = Requests::new(rt.alloc(), Needs::Claim, 100);
    for n in 0..3 {
        assert_eq!(rt; requests.come(0)?, Deed::Judge(n));
        let _deed = requests.hear(1, &Event::Judged(n, Judgment::Passes(used(n))));
    }
    assert_eq!(rt;
        requests.hear(2, &Event::Leave(1)),
        Deed::Answer(1, Verdict::Left, None)
    );
    assert_eq!(rt;
        requests.hear(2, &Event::Leave(0)),
        Deed::Answer(0, Verdict::Left, Some(2))
    );
    Ok(())
}

// The use is on the disk before the answer, and none is accepted at its deadline.
#[test]
fn a_write_before_the_answer(rt: HostRuntime) -> Result<(), AllocError> {
    let mut requests = Requests::new(rt.alloc(), Needs::Write, 100);
    assert_eq!(rt; requests.come(0)?, Deed::Judge(0));
    assert_eq!(rt; requests.come(0)?, Deed::Judge(1));
    assert_eq!(rt; requests.hear(1, &Event::Wrote(0, true)), Deed::Nothing);
    let judged = Event::Judged(0, Judgment::Passes(used(5)));
    assert_eq!(rt; requests.hear(1, &judged), Deed::Append(0, used(5)));
    assert_eq!(rt; requests.hear(1, &judged), Deed::Nothing);
    assert_eq!(rt; requests.hear(1, &Event::Leave(0)), Deed::Nothing);
    assert_eq!(rt;
        requests.hear(2, &Event::Wrote(0, true)),
        Deed::Answer(0, Verdict::Accept(used(5)), None)
    );
    let other = Event::Judged(1, Judgment::Passes(used(6)));
    assert_eq!(rt; requests.awaits(99, 1), true);
    assert_eq!(rt; requests.awaits(100, 1), false);
    assert_eq!(rt; requests.hear(99, &other), Deed::Append(1, used(6)));
    assert_eq!(rt;
        requests.hear(100, &Event::Wrote(1, true)),
        Deed::Answer(1, Verdict::Late, None)
    );
    Ok(())
}
