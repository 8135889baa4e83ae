//! Lists of steps: posts that are told twice or too late, results that come late or from elsewhere, and as many posts as may wait.

use crate::samples::{Edit, let_go, new_desk, point, result_of, settled};
use desk_core::{Desk, Opened, Posted, Refusal, Reply, Step, run};
use link_state::LinkChange;
use net_data::Event;
use point_codes::PointCode;
use std::alloc::{AllocError, Global};
use std::process::Abort;
use work_units::{Job, Settled};

/// What a reply says: of a job its destination.
#[derive(Clone, Copy, Debug, PartialEq, Eq)]
enum Said {
    Post(Result<Posted, Refusal>),
    Open(Result<Opened, Refusal>),
    Take(Result<PointCode, Refusal>),
    Give(Result<(), Refusal>),
    Abandon(Result<(), Refusal>),
    Publish(Result<u64, Refusal>),
}

/// What the replies to a list of steps said, the jobs that came with them, and the results that were handed back.
#[derive(Drop)]
struct Ran {
    desk: Desk,
    said: Vec<Said>,
    jobs: Vec<Job>,
    back: Vec<Settled>,
}

/// A job that was taken.
fn take_job(job: Job, jobs: &mut Vec<Job>) -> Result<Said, AllocError> {
    let dest = job.dest();
    jobs.push(job)?;
    Ok(Said::Take(Ok(dest)))
}

/// A result that was handed back.
fn take_back(
    settled: Settled,
    refusal: Refusal,
    back: &mut Vec<Settled>,
) -> Result<Said, AllocError> {
    back.push(settled)?;
    Ok(Said::Give(Err(refusal)))
}

/// What a reply says; the job or the result that comes with it goes to the others.
fn take_in(reply: Reply, jobs: &mut Vec<Job>, back: &mut Vec<Settled>) -> Result<Said, AllocError> {
    match reply {
        Reply::Post(answer) => Ok(Said::Post(answer)),
        Reply::Open(answer) => Ok(Said::Open(answer)),
        Reply::Take(Ok(job)) => take_job(job, jobs),
        Reply::Take(Err(refusal)) => Ok(Said::Take(Err(refusal))),
        Reply::Give(Ok(())) => Ok(Said::Give(Ok(()))),
        Reply::Give(Err((settled, refusal))) => take_back(settled, refusal, back),
        Reply::Abandon(answer) => Ok(Said::Abandon(answer)),
        Reply::Publish(answer) => Ok(Said::Publish(answer)),
    }
}

/// Runs all of the steps.
fn run_all(rt: &impl Abort, alloc: Global, desk: Desk, steps: Vec<Step>) -> Ran {
    let (desk, replies, left) = run(alloc, desk, steps);
    assert!(rt; left.is_empty());
    let (mut said, mut jobs, mut back) = (Vec::new(alloc), Vec::new(alloc), Vec::new(alloc));
    for reply in replies {
        let one = take_in(reply, &mut jobs, &mut back).expect(rt, "memory");
        said.push(one).expect(rt, "memory");
    }
    Ran {
        desk,
        said,
        jobs,
        back,
    }
}

/// The replies said this.
fn expect_said(rt: &impl Abort, said: &[Said], wanted: &[Said]) {
    assert_eq!(rt; said, wanted);
}

/// The desk after a run. What else came of it goes; that is long to prove, so it stands here once.
fn desk_of(ran: Ran) -> Desk {
    ran.desk
}

/// The desk after a run, and the result of the last job that came of it.
fn next_of(rt: &impl Abort, alloc: Global, mut ran: Ran) -> (Desk, Settled) {
    let job = ran.jobs.pop().expect(rt, "a job");
    (desk_of(ran), settled(rt, alloc, job))
}

/// The last result that was handed back in a run, and the run without it.
fn back_of(rt: &impl Abort, mut ran: Ran) -> (Ran, Settled) {
    let settled = ran.back.pop().expect(rt, "a result");
    (ran, settled)
}

/// A post of a change of the first link of a set.
fn post(collector: u8, seq: u64, id: u16, change: LinkChange) -> Step {
    Step::Post(collector, seq, Event::Link(id, 0, change))
}

/// What is said where a target is opened for one destination.
fn opened(target: u64) -> Said {
    Said::Open(Ok(Opened { target, waiting: 1 }))
}

/// Posts of collector 3: told twice, as another event, too early, and too late.
fn told_twice(alloc: Global) -> Result<Vec<Step>, AllocError> {
    Ok(vec![in alloc;
        post(3, 1, 4, LinkChange::Fail),
        post(3, 1, 4, LinkChange::Fail),
        post(3, 1, 3, LinkChange::Fail),
        post(3, 3, 3, LinkChange::Fail),
        post(3, 2, 3, LinkChange::Fail),
        post(3, 1, 4, LinkChange::Fail),
        post(3, 0, 4, LinkChange::Fail),
    ]?)
}

#[test]
fn a_post_is_taken_once(rt: HostRuntime) {
    let steps = told_twice(rt.alloc()).expect(&rt, "memory");
    let ran = run_all(&rt, rt.alloc(), new_desk(&rt, rt.alloc()), steps);
    let wanted = [
        Said::Post(Ok(Posted::Taken(1))),
        Said::Post(Ok(Posted::Again(1))),
        Said::Post(Err(Refusal::Clash)),
        Said::Post(Err(Refusal::Gap(2))),
        Said::Post(Ok(Posted::Taken(2))),
        Said::Post(Err(Refusal::Old(2))),
        Said::Post(Err(Refusal::Old(2))),
    ];
    expect_said(&rt, ran.said.as_slice(), wanted.as_slice());
    let_go(desk_of(ran));
}

/// The job of version 1 is taken, abandoned, and taken again.
fn taken_twice(alloc: Global, x: PointCode) -> Result<Vec<Step>, AllocError> {
    Ok(vec![in alloc;
        post(0, 1, 4, LinkChange::Fail),
        Step::Open,
        Step::Open,
        Step::Take,
        Step::Abandon(1, x),
        Step::Take,
    ]?)
}

/// That is done, and its two results are handed out, the first one first.
fn take_twice(rt: &impl Abort, alloc: Global, x: PointCode) -> (Desk, Settled, Settled) {
    let steps = taken_twice(alloc, x).expect(rt, "memory");
    let mut ran = run_all(rt, alloc, new_desk(rt, alloc), steps);
    let wanted = [
        Said::Post(Ok(Posted::Taken(1))),
        opened(1),
        Said::Open(Err(Refusal::Busy)),
        Said::Take(Ok(x)),
        Said::Abandon(Ok(())),
        Said::Take(Ok(x)),
    ];
    expect_said(rt, ran.said.as_slice(), wanted.as_slice());
    let second = ran.jobs.pop().expect(rt, "a job");
    let (desk, late) = next_of(rt, alloc, ran);
    (desk, late, settled(rt, alloc, second))
}

/// The second result is given, then the first one; version 1 is published, and version 2 begun.
fn given_late(alloc: Global, good: Settled, late: Settled) -> Result<Vec<Step>, AllocError> {
    Ok(vec![in alloc;
        Step::Give(good),
        Step::Give(late),
        Step::Publish,
        post(0, 2, 4, LinkChange::Restore),
        Step::Open,
        Step::Take,
    ]?)
}

/// That is done: the first result, which is handed back, and the result for version 2.
fn give_late(
    rt: &impl Abort,
    alloc: Global,
    desk: Desk,
    x: PointCode,
    good: Settled,
    late: Settled,
) -> (Desk, Settled, Settled) {
    let steps = given_late(alloc, good, late).expect(rt, "memory");
    let ran = run_all(rt, alloc, desk, steps);
    let wanted = [
        Said::Give(Ok(())),
        Said::Give(Err(Refusal::Unasked)),
        Said::Publish(Ok(1)),
        Said::Post(Ok(Posted::Taken(2))),
        opened(2),
        Said::Take(Ok(x)),
    ];
    expect_said(rt, ran.said.as_slice(), wanted.as_slice());
    let (ran, late) = back_of(rt, ran);
    let (desk, next) = next_of(rt, alloc, ran);
    (desk, late, next)
}

/// The first result is given once more, the one for version 2 too, and both versions are published.
fn given_stale(alloc: Global, late: Settled, next: Settled) -> Result<Vec<Step>, AllocError> {
    Ok(vec![in alloc;
        Step::Give(late),
        Step::Publish,
        Step::Give(next),
        Step::Publish,
    ]?)
}

/// That is done: the first result, which is handed back again.
fn give_stale(
    rt: &impl Abort,
    alloc: Global,
    desk: Desk,
    late: Settled,
    next: Settled,
) -> (Desk, Settled) {
    let steps = given_stale(alloc, late, next).expect(rt, "memory");
    let ran = run_all(rt, alloc, desk, steps);
    let wanted = [
        Said::Give(Err(Refusal::Stale(Some(2)))),
        Said::Publish(Err(Refusal::NotReady(1))),
        Said::Give(Ok(())),
        Said::Publish(Ok(2)),
    ];
    expect_said(rt, ran.said.as_slice(), wanted.as_slice());
    let (ran, late) = back_of(rt, ran);
    (desk_of(ran), late)
}

/// A result is given where no target is open.
fn give_at_rest(rt: &impl Abort, alloc: Global, desk: Desk, late: Settled) {
    let steps = vec![in alloc; Step::Give(late)].expect(rt, "memory");
    let ran = run_all(rt, alloc, desk, steps);
    let wanted = [Said::Give(Err(Refusal::Stale(None)))];
    expect_said(rt, ran.said.as_slice(), wanted.as_slice());
    let_go(desk_of(ran));
}

#[test]
fn a_late_result_is_handed_back(rt: HostRuntime) {
    let alloc = rt.alloc();
    let x = point(&rt, "2-1-2");
    let (desk, late, good) = take_twice(&rt, alloc, x);
    let (desk, late, next) = give_late(&rt, alloc, desk, x, good, late);
    let (desk, late) = give_stale(&rt, alloc, desk, late, next);
    give_at_rest(&rt, alloc, desk, late);
}

const FAIL_4_0: Edit = (4, 0, LinkChange::Fail);

/// A result of another network is given to a desk, and then the right one.
fn given_foreign(alloc: Global, other: Settled, right: Settled) -> Result<Vec<Step>, AllocError> {
    Ok(vec![in alloc;
        post(0, 1, 4, LinkChange::Fail),
        Step::Open,
        Step::Take,
        Step::Give(other),
        Step::Publish,
        Step::Give(right),
        Step::Publish,
    ]?)
}

#[test]
fn a_result_of_another_network_is_handed_back(rt: HostRuntime) {
    let alloc = rt.alloc();
    let other = result_of(&rt, alloc, &[]);
    let right = result_of(&rt, alloc, &[FAIL_4_0]);
    let steps = given_foreign(alloc, other, right).expect(&rt, "memory");
    let ran = run_all(&rt, alloc, new_desk(&rt, alloc), steps);
    let wanted = [
        Said::Post(Ok(Posted::Taken(1))),
        opened(1),
        Said::Take(Ok(point(&rt, "2-1-2"))),
        Said::Give(Err(Refusal::Differs)),
        Said::Publish(Err(Refusal::NotReady(1))),
        Said::Give(Ok(())),
        Said::Publish(Ok(1)),
    ];
    expect_said(&rt, ran.said.as_slice(), wanted.as_slice());
    let (ran, _) = back_of(&rt, ran);
    let_go(desk_of(ran));
}

/// How many events may wait, of which none is published.
const MOST: u64 = 65_536;

/// One post more than may wait.
fn too_many(alloc: Global) -> Result<Vec<Step>, AllocError> {
    let mut steps = Vec::new(alloc);
    for seq in 1..MOST + 2 {
        steps.push(post(0, seq, 4, LinkChange::Fail))?;
    }
    Ok(steps)
}

/// Whether a reply is that to a post that was taken for a number.
fn is_taken(said: Said, number: u64) -> bool {
    said == Said::Post(Ok(Posted::Taken(number)))
}

/// How many of the first posts were taken, each with its own number.
fn taken_in_order(said: &[Said]) -> u64 {
    let mut number = 0u64;
    for one in said {
        let next = number.saturating_add(1);
        if !is_taken(*one, next) {
            return number;
        }
        number = next;
    }
    number
}

/// All posts but the last one were taken, in their order.
fn expect_full(rt: &impl Abort, said: &[Said]) {
    assert_eq!(rt; taken_in_order(said), MOST);
    let last = said.last().copied();
    assert_eq!(rt; last, Some(Said::Post(Err(Refusal::BacklogFull))));
}

/// A desk at which as many events wait as may.
fn full_desk(rt: &impl Abort, alloc: Global) -> Desk {
    let steps = too_many(alloc).expect(rt, "memory");
    let ran = run_all(rt, alloc, new_desk(rt, alloc), steps);
    expect_full(rt, ran.said.as_slice());
    desk_of(ran)
}

/// All that waits is opened, and its job taken.
fn open_all(rt: &impl Abort, alloc: Global, desk: Desk, x: PointCode) -> (Desk, Settled) {
    let steps = vec![in alloc; Step::Open, Step::Take].expect(rt, "memory");
    let ran = run_all(rt, alloc, desk, steps);
    let wanted = [opened(MOST), Said::Take(Ok(x))];
    expect_said(rt, ran.said.as_slice(), wanted.as_slice());
    next_of(rt, alloc, ran)
}

/// All is published, and one post more.
fn given_all(alloc: Global, settled: Settled) -> Result<Vec<Step>, AllocError> {
    Ok(vec![in alloc;
        Step::Give(settled),
        Step::Publish,
        post(0, MOST + 1, 4, LinkChange::Fail),
    ]?)
}

#[test]
fn as_many_posts_wait_as_may(rt: HostRuntime) {
    let alloc = rt.alloc();
    let desk = full_desk(&rt, alloc);
    let (desk, settled) = open_all(&rt, alloc, desk, point(&rt, "2-1-2"));
    let steps = given_all(alloc, settled).expect(&rt, "memory");
    let ran = run_all(&rt, alloc, desk, steps);
    let wanted = [
        Said::Give(Ok(())),
        Said::Publish(Ok(MOST)),
        Said::Post(Ok(Posted::Taken(MOST + 1))),
    ];
    expect_said(&rt, ran.said.as_slice(), wanted.as_slice());
    let_go(desk_of(ran));
}
