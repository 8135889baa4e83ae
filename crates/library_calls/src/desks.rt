//! Desks: posts, work, hubs, and lists of steps.

use crate::samples::{change, code, worked};
use route_state::codes::PointCode;
use route_state::desks::{Desk, Opened, Posted, Refusal, Reply, Step, Version, run};
use route_state::jobs::{Job, Settled, settle};
use route_state::marks::LinkChange;
use std::alloc::Global;

/// A desk over the worked network.
pub(crate) fn new_desk(alloc: Global) -> Option<Desk> {
    Desk::start(alloc, worked(alloc)?).ok()
}

/// Lets a desk go. That is long to prove, so it stands here once.
pub(crate) fn let_go(_desk: Desk) {}

/// Posts a change of the link 4 0, at the second try if memory was refused.
fn post(alloc: Global, desk: &mut Desk, seq: u64, how: LinkChange) -> Result<Posted, Refusal> {
    match desk.post(alloc, 0, seq, change(how)) {
        Err(Refusal::OutOfMemory) => desk.post(alloc, 0, seq, change(how)),
        answer => answer,
    }
}

/// Opens a target, at the second try if memory was refused.
fn open(alloc: Global, desk: &mut Desk) -> Result<Opened, Refusal> {
    match desk.open(alloc) {
        Err(Refusal::OutOfMemory) => desk.open(alloc),
        answer => answer,
    }
}

/// Publishes, at the second try if memory was refused.
fn publish(alloc: Global, desk: &mut Desk) -> Result<u64, Refusal> {
    match desk.publish(alloc) {
        Err(Refusal::OutOfMemory) => desk.publish(alloc),
        answer => answer,
    }
}

/// The result of a job, at the second try if memory was refused.
pub(crate) fn result_of(alloc: Global, job: Job) -> Option<Settled> {
    match settle(alloc, job) {
        Ok(settled) => Some(settled),
        Err((job, _)) => settle(alloc, job).ok(),
    }
}

/// The result of the job that is taken.
fn take_result(alloc: Global, desk: &mut Desk) -> Option<Settled> {
    result_of(alloc, desk.take().ok()?)
}

/// Gives a result: why it is refused, if it is.
fn give(desk: &mut Desk, settled: Settled) -> Option<Refusal> {
    desk.give(settled).map_err(|(_, refusal)| refusal).err()
}

/// The same, with the result that is handed back then.
fn give_late(desk: &mut Desk, settled: Settled) -> (Option<Refusal>, Option<Settled>) {
    match desk.give(settled) {
        Ok(()) => (None, None),
        Err((settled, refusal)) => (Some(refusal), Some(settled)),
    }
}

/// A target is opened, and not a second time.
fn opens(alloc: Global, desk: &mut Desk, target: u64) -> bool {
    let opened = open(alloc, desk);
    let busy = open(alloc, desk);
    (opened, busy) == (Ok(Opened { target, waiting: 1 }), Err(Refusal::Busy))
}

/// The result of a job that was abandoned meanwhile.
fn abandon_late(alloc: Global, desk: &mut Desk) -> Option<Settled> {
    let late = take_result(alloc, desk)?;
    match desk.abandon(late.version(), late.dest()) {
        Ok(()) => Some(late),
        Err(_) => None,
    }
}

/// The job that waits is done.
fn works(alloc: Global, desk: &mut Desk) -> Option<bool> {
    let settled = take_result(alloc, desk)?;
    Some(give(desk, settled).is_none())
}

/// Version 1 is published. A late result is handed back, since nobody waits for it.
fn publish_first(alloc: Global, desk: &mut Desk, late: Settled) -> (bool, Option<Settled>) {
    let worked = works(alloc, desk);
    let (unasked, late) = give_late(desk, late);
    let published = publish(alloc, desk);
    let right = (worked, unasked) == (Some(true), Some(Refusal::Unasked)) && published == Ok(1);
    (right, late)
}

/// The failure of a link is published: its job is taken, abandoned, and taken again.
fn first_version(alloc: Global, desk: &mut Desk) -> Option<(bool, Option<Settled>)> {
    let posted = post(alloc, desk, 1, LinkChange::Fail) == Ok(Posted::Taken(1));
    let opened = opens(alloc, desk, 1);
    let late = abandon_late(alloc, desk)?;
    let (published, late) = publish_first(alloc, desk, late);
    Some((posted && opened && published, late))
}

/// Seals the version that is ready, at the second try if memory was refused.
fn seal(alloc: Global, desk: &mut Desk) -> Option<()> {
    match desk.ready(alloc) {
        Ok(version) => desk.seal(version),
        Err(_) => match desk.ready(alloc) {
            Ok(version) => desk.seal(version),
            Err(_) => return None,
        },
    }
    Some(())
}

/// The return of the link is published. The late result is of another version.
fn second_version(alloc: Global, desk: &mut Desk, late: Settled) -> Option<bool> {
    let posted = post(alloc, desk, 2, LinkChange::Restore) == Ok(Posted::Taken(2));
    let opened = opens(alloc, desk, 2);
    let stale = give(desk, late) == Some(Refusal::Stale(Some(2)));
    let early = publish(alloc, desk) == Err(Refusal::NotReady(1));
    let worked = works(alloc, desk)?;
    seal(alloc, desk)?;
    Some(posted && opened && stale && early && worked && desk.published().number() == 2)
}

/// Whether a version has just this destination, and its table.
fn has_table(alloc: Global, version: &Version, x: PointCode) -> Option<bool> {
    let table = version.table(alloc, x).ok()??;
    Some(table.dest == x)
}

/// What version 2 tells of itself: its event, its network, its one destination and the table of that.
fn tells(alloc: Global, version: &Version) -> Option<bool> {
    let x = code("2-1-2")?;
    let has_dest = version.dests(alloc).ok()?.as_slice() == [x].as_slice();
    let counts = (
        version.number(),
        version.batch().len(),
        version.net().net().ni(),
    );
    Some(counts == (2, 1, 2) && has_dest && has_table(alloc, version, x)?)
}

/// The failure of a link is published, and then its return.
fn publishes_twice(alloc: Global, desk: &mut Desk) -> Option<bool> {
    let (first, late) = first_version(alloc, desk)?;
    let second = second_version(alloc, desk, late?)?;
    let told = tells(alloc, desk.published())? && desk.net_now().ni() == 2;
    Some(first && second && told)
}

/// What a desk tells of itself: accepted, target, waiting, out, the last of collector 0.
fn told(desk: &Desk) -> (u64, Option<u64>, usize, bool, u64) {
    (
        desk.accepted(),
        desk.target(),
        desk.waiting(),
        desk.first_out().is_some(),
        desk.last_seq(0),
    )
}

/// With room for two posts, two changes of a link are taken though memory is refused.
fn posts_with_room(alloc: Global, desk: &mut Desk) -> Option<bool> {
    if desk.reserve(2).is_err() {
        desk.reserve(2).ok()?;
    }
    let posted = [
        desk.post(alloc, 0, 1, change(LinkChange::Fail)),
        desk.post(alloc, 0, 2, change(LinkChange::Restore)),
    ];
    let taken = posted == [Ok(Posted::Taken(1)), Ok(Posted::Taken(2))];
    Some(taken && told(desk) == (2, None, 0, false, 2))
}

/// Where the target can't be opened for want of memory the desk stays as it was; with memory it is opened.
fn opens_with_memory(alloc: Global, desk: &mut Desk) -> bool {
    let before = told(desk);
    let first = desk.open(alloc);
    let still = first != Err(Refusal::OutOfMemory) || told(desk) == before;
    let opened = match first {
        Err(Refusal::OutOfMemory) => desk.open(alloc),
        answer => answer,
    };
    let wanted = Opened {
        target: 2,
        waiting: 1,
    };
    still && opened == Ok(wanted)
}

/// Whether two posts were taken.
fn are_taken(replies: &[Reply]) -> bool {
    match replies {
        [Reply::Post(one), Reply::Post(two)] => {
            [*one, *two] == [Ok(Posted::Taken(1)), Ok(Posted::Taken(2))]
        }
        _ => false,
    }
}

/// A list of two posts.
fn two_posts(alloc: Global) -> Option<Vec<Step>> {
    let steps = vec![in alloc;
        Step::Post(0, 1, change(LinkChange::Fail)),
        Step::Post(0, 2, change(LinkChange::Restore)),
    ];
    steps.ok()
}

/// A desk with room for two posts.
fn roomy_desk(alloc: Global) -> Option<Desk> {
    let mut desk = new_desk(alloc)?;
    if desk.reserve(2).is_ok() {
        return Some(desk);
    }
    let_go(desk);
    None
}

/// A list of steps that is left is run: whether nothing was done before, and all is now.
fn runs_what_is_left(alloc: Global, desk: Desk, replies: &[Reply], left: Vec<Step>) -> bool {
    let (desk, again, _) = run(alloc, desk, left);
    let_go(desk);
    replies.is_empty() && are_taken(again.as_slice())
}

/// A list of steps for which there is room: all are done, or all are handed back.
fn runs_steps(alloc: Global) -> Option<bool> {
    let steps = two_posts(alloc)?;
    let desk = roomy_desk(alloc)?;
    let (desk, replies, left) = run(alloc, desk, steps);
    if !left.is_empty() {
        return Some(runs_what_is_left(alloc, desk, replies.as_slice(), left));
    }
    let_go(desk);
    Some(are_taken(replies.as_slice()))
}

/// Two hubs of a new desk.
fn publishes(alloc: Global) -> Option<bool> {
    let mut desk = new_desk(alloc)?;
    let right = publishes_twice(alloc, &mut desk);
    let_go(desk);
    right
}

/// Two posts at a new desk.
fn posts(alloc: Global) -> Option<bool> {
    let mut desk = new_desk(alloc)?;
    let posted = posts_with_room(alloc, &mut desk);
    let opened = opens_with_memory(alloc, &mut desk);
    let_go(desk);
    Some(posted? && opened)
}

/// All calls of a desk.
pub(crate) fn desks(alloc: Global) -> Option<bool> {
    Some(publishes(alloc)? && posts(alloc)? && runs_steps(alloc)?)
}
