//! Sessions at one desk, each in a thread of its own.

ghost use Rattle.std.specs.Prelude.{◌≤◌, ◌<◌, vec_len, length};

use answers::{SeatNames, Text};
use json_answers::Form;
use sample_nets::worked;
use serving::{Channel, Rules, Silent, run_seats};
use std::alloc::Global;
use std::process::Abort;
use std::sync::Wait;
use std::thread::Threads;
use worker_pool::Plain;

/// A session over these lines.
fn channel(
    alloc: Global,
    reader: &'static [u8],
    posts: bool,
    collector: u8,
    names: SeatNames,
) -> Channel<&'static [u8], Vec<u8>, Form> {
    Channel {
        reader,
        writer: Vec::new(alloc),
        telling: Form::Text,
        rules: Rules {
            posts,
            collector,
            names,
        },
    }
}

/// The names of three sessions.
fn three_names(rt: &impl Abort, alloc: Global) -> SeatNames {
    let mut names = Vec::new(alloc);
    for name in ["one", "two", "three"] {
        let name = String::from_str(alloc, name).expect(rt, "memory");
        names.push(Text::from_string(name)).expect(rt, "memory");
    }
    SeatNames::from_vec(alloc, names).expect(rt, "memory")
}

/// What two sessions that post and one that may only ask are told beside that many workers.
fn told<R: Threads + Wait + Abort + Sync>(rt: &R, alloc: Global, n: u32) -> Vec<Vec<u8>>
    requires { n ≤ 32 }
{
    let names = three_names(rt, alloc);
    let (one, two) = (names.share(), names.share());
    let (one, two) = (one.expect(rt, "memory"), two.expect(rt, "memory"));
    let channels = vec![in alloc;
        channel(alloc, b"fail 3 0\nsync\nnothing\n".as_slice(), true, 1, one),
        channel(alloc, b"fail 4 0\nsync\nnothing\n".as_slice(), true, 2, two),
        channel(
            alloc,
            b"fail 4 0\npost 3 1 fail 4 0\n".as_slice(),
            false,
            3,
            names
        ),
    ];
    let net = worked(alloc).expect(rt, "a network");
    let channels = channels.expect(rt, "memory");
    let end = run_seats(rt, alloc, n, &Plain, &Silent, net, channels);
    let mut texts = Vec::new(alloc);
    for session in end.ok().expect(rt, "an end").ends {
        texts.push(session.writer).expect(rt, "memory");
    }
    texts
}

/// The two posts were taken, each with a number of its own; who may only ask posted nothing.
fn expect_told(rt: &impl Abort, texts: &[Vec<u8>]) {
    assert_eq!(rt; texts.len(), 3);
    let numbers = (texts[0].get(6).copied(), texts[1].get(6).copied());
    assert!(rt; numbers == (Some(b'1'), Some(b'2')) || numbers == (Some(b'2'), Some(b'1')));
    assert_eq!(rt;
        texts[2].as_slice(),
        b"refused 62 BadLine\nrefused 62 BadLine\n".as_slice()
    );
}

#[test]
fn sessions_share_one_desk(rt: HostRuntime) {
    expect_told(&rt, told(&rt, rt.alloc(), 2).as_slice());
}

#[test]
fn sessions_do_the_work_where_no_worker_is(rt: HostRuntime) {
    expect_told(&rt, told(&rt, rt.alloc(), 0).as_slice());
}
