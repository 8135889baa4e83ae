//! How often a run reads at most.

use answers::{Answer, Asked, Reason, Telling};
use json_answers::Form;
use net_data::Net;
use sessions::{Answering, Fault, Session};
use std::alloc::Global;
use std::io::{self, ErrorKind};

/// Refuses each line.
#[derive(Drop)]
struct Mute;

impl Answering for Mute {
    ghost commands = { λ line old answer new. Unit {0} };

    ghost fails = { λ line old new. Unit {0} };

    ghost leaves = { λ state net. Unit {0} };

    ghost needs_place = { ⊥ };

    fn answer(&mut self, _alloc: Global, _line: &[u8]) -> Result<Answer, Fault> {
        Ok(Answer::Refused(Reason::BadLine))
    }

    fn show_net<T: Telling>(&self, _alloc: Global, _telling: &T, _asked: Asked<'_>, _why: Reason) {}

    fn into_net(self, _alloc: Global) -> Result<Net, Fault> {
        Err(Fault::OutOfMemory)
    }
}

/// A reader of which each read is interrupted, and counted.
#[derive(Drop)]
struct Interrupted {
    reads: u64,
}

impl io::Read for Interrupted {
    fn read(&mut self, _buf: &mut [u8]) -> io::Result<usize> {
        self.reads = self.reads.saturating_add(1);
        Err(io::Error::from(ErrorKind::Interrupted))
    }
}

/// How many reads a run makes that has made so many, and whether it ends since it can't read.
fn reads_after(alloc: Global, reads: u64) -> (u64, bool) {
    let mut session = Session::new(alloc, Mute, 1);
    let mut reader = Interrupted { reads: 0 };
    let mut writer: Vec<u8> = Vec::new(alloc);
    let fault = session.read_to_end(alloc, &Form::Text, &mut reader, &mut writer, reads);
    (reader.reads, matches!(fault, Some(Fault::Read)))
}

#[test]
fn a_run_gives_up_after_its_last_read(rt: HostRuntime) {
    assert_eq!(rt; reads_after(rt.alloc(), 4_294_967_293), (3, true));
}
