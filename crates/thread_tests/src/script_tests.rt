//! Scripts beside workers of which one waits for another, or whose memory is refused: their answers are those in line.

ghost use Rattle.std.specs.Prelude.{◌<◌, ◌≤◌};

use crate::gates::{Holding, Refusing};
use crate::samples::two_plans;
use beside::{BesideEnd, run_beside};
use json_answers::Form;
use net_data::Net;
use sample_nets::{code, worked};
use std::alloc::Global;
use std::process::Abort;
use std::sync::Wait;
use std::thread::Threads;
use worker_pool::Gate;

/// What a script writes beside that many workers, from a network, and whether it has no fault.
fn written_by<R: Threads + Wait + Sync, G: Gate + Sync>(
    rt: &R,
    alloc: Global,
    n: u32,
    gate: &G,
    net: Net,
    script: &[u8],
) -> (Vec<u8>, bool)
    requires { (0 < n) × (n ≤ 32) }
{
    let out: Vec<u8> = Vec::new(alloc);
    let BesideEnd {
        end,
        reader: _,
        writer,
    } = run_beside(rt, alloc, n, gate, &Form::Text, script, out, net);
    (writer, end.fault.is_none())
}

/// Checks what a script writes beside that many workers, from a network.
fn expect_written<R: Threads + Wait + Abort + Sync, G: Gate + Sync>(
    rt: &R,
    alloc: Global,
    n: u32,
    gate: &G,
    net: Net,
    script: &[u8],
    answers: &[u8],
)
    requires { (0 < n) × (n ≤ 32) }
{
    let (written, is_whole) = written_by(rt, alloc, n, gate, net, script);
    assert_eq!(rt; (is_whole, written.as_slice()), (true, answers));
}

const MATE_USED: (&[u8], &[u8]) = (
    b"fail 4 0
sync
status 2-10-2 2-1-2
messages 2-10-2 2-1-2
messages 2-10-1 2-1-2
status 2-1-1 2-1-2
sls 2-1-1 2-1-2
open
version
",
    b"taken 1
synced 1
status restricted class 5 by 2-10-1
messages TFR>2-1-1 TFP>2-10-1
messages TFA>2-1-1 TFA>2-10-2
status allowed class 1 by 2-10-1
sls 1:0 1:0 1:1 1:1 1:0 1:0 1:1 1:1 1:0 1:0 1:1 1:1 1:0 1:0 1:1 1:1
refused 62 BadLine
version 1 accepted 1
",
);

/// A script for which two destinations wait, beside two workers.
fn expect_held<R: Threads + Wait + Abort + Sync>(rt: &R, alloc: Global) {
    let gate = Holding::of(code("2-1-2").expect(rt, "a code"));
    let script = b"fail 3 0\nsync\n".as_slice();
    let answers = b"taken 1\nsynced 1\n".as_slice();
    expect_written(rt, alloc, 2, &gate, two_plans(rt, alloc), script, answers);
    assert_eq!(rt; gate.seen(), (2, false));
}

#[test]
fn two_workers_settle_for_a_script(rt: HostRuntime) {
    expect_held(&rt, rt.alloc());
}

#[test]
fn a_script_does_the_work_of_refused_workers(rt: HostRuntime) {
    let net = worked(rt.alloc()).expect(&rt, "a network");
    let (script, answers) = MATE_USED;
    expect_written(&rt, rt.alloc(), 2, &Refusing, net, script, answers);
}
