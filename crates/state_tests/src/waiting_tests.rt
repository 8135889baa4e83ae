//! Three destinations that wait, go out and come back.

ghost use Rattle.std.specs.Prelude.{◌≡◌};

use dirty_sets::{Waiting, untouched_law};
use point_codes::PointCode;
use std::alloc::Global;
use std::process::Abort;

fn code(rt: &impl Abort, number: u16) -> PointCode
    ensures { result ≡ number }
{
    PointCode::new(number).expect(rt, "a code")
}

fn three(rt: &impl Abort, alloc: Global) -> Waiting {
    let codes = [code(rt, 2), code(rt, 5), code(rt, 9)];
    Waiting::fill(alloc, &codes).expect(rt, "memory")
}

/// The destination waits again, if it is out.
fn give_back(waiting: &mut Waiting, dest: PointCode) -> bool {
    let is_out = waiting.is_out(dest);
    if is_out {
        waiting.put_last(dest);
    }
    is_out
}

/// The destination is done, if it is out.
fn finish(waiting: &mut Waiting, dest: PointCode) -> bool {
    let is_out = waiting.is_out(dest);
    if is_out {
        waiting.done(dest);
    }
    is_out
}

/// The first that waits, and the first that is out, are these.
fn expect_firsts(rt: &impl Abort, waiting: &Waiting, wanted: [Option<PointCode>; 2]) {
    assert_eq!(rt; [waiting.first(), waiting.first_out()], wanted);
}

/// This one goes out, or none.
fn expect_taken(rt: &impl Abort, waiting: &mut Waiting, wanted: Option<PointCode>) {
    assert_eq!(rt; waiting.take_first(), wanted);
}

/// So many wait, and so many wait or are out.
fn expect_counts(rt: &impl Abort, waiting: &Waiting, len: usize, left: usize) {
    assert_eq!(rt; (waiting.len(), waiting.left()), (len, left));
}

#[test]
fn the_first_goes_out(rt: HostRuntime) {
    let (two, five) = (code(&rt, 2), code(&rt, 5));
    let mut waiting = three(&rt, rt.alloc());
    expect_firsts(&rt, &waiting, [Some(two), None]);
    expect_taken(&rt, &mut waiting, Some(two));
    expect_firsts(&rt, &waiting, [Some(five), Some(two)]);
    untouched_law();
}

#[test]
fn one_that_is_out_is_counted(rt: HostRuntime) {
    let (two, five) = (code(&rt, 2), code(&rt, 5));
    let mut waiting = three(&rt, rt.alloc());
    waiting.take_first();
    expect_counts(&rt, &waiting, 2, 3);
    assert_eq!(rt; [waiting.is_out(two), waiting.is_out(five)], [true, false]);
}

#[test]
fn one_that_comes_back_waits_last(rt: HostRuntime) {
    let (two, nine) = (code(&rt, 2), code(&rt, 9));
    let mut waiting = three(&rt, rt.alloc());
    waiting.take_first();
    waiting.take_first();
    assert!(rt; give_back(&mut waiting, two));
    expect_taken(&rt, &mut waiting, Some(nine));
    expect_taken(&rt, &mut waiting, Some(two));
    expect_taken(&rt, &mut waiting, None);
    expect_firsts(&rt, &waiting, [None, Some(two)]);
}

#[test]
fn one_that_is_done_is_gone(rt: HostRuntime) {
    let (two, five) = (code(&rt, 2), code(&rt, 5));
    let mut waiting = three(&rt, rt.alloc());
    waiting.take_first();
    let done = [finish(&mut waiting, two), finish(&mut waiting, two)];
    assert_eq!(rt; done, [true, false]);
    expect_counts(&rt, &waiting, 2, 2);
    expect_taken(&rt, &mut waiting, Some(five));
}
