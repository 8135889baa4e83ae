//! The order `survey`: the survey of single failures, by as many threads as there are processors.

use crate::loading::load_file;
use crate::reports::{Done, Stop, Teller};
use crate::terminal::is_terminal;
use answers::{Answer, Boxed, NetAnswer};
use console::{Watch, survey_by};
use json_answers::Form;
use net_building::Surveyed;
use net_versions::Version;
use std::alloc::{AllocError, Global};
use std::sync::atomic::{AtomicU64, Ordering};
use std::thread::Threads;
use what_if::Survey;

/// After so many failures it is told how many were tried.
const STEP: u64 = 64;

/// How far a survey has come, which is told on standard error if that is a terminal.
#[derive(Drop)]
pub struct Progress<'a> {
    rt: &'a HostRuntime,
    /// Whether it is told.
    wanted: bool,
    /// How many failures were tried.
    tried: AtomicU64,
}

impl<'a> Progress<'a> {
    /// Nothing was tried yet.
    pub fn new(rt: &'a HostRuntime) -> Progress<'a> {
        Progress {
            rt,
            wanted: is_terminal(rt, "/dev/stderr"),
            tried: AtomicU64::new(0),
        }
    }

    /// Says how many failures were tried, in the place of what was said before.
    fn tell(&self, count: u64) {
        let _ = eprint!(self.rt; "\r{count} failures tried");
    }

    /// Says how many failures were tried in all.
    pub fn end(&self) {
        if self.wanted {
            self.tell(self.tried.load(Ordering::SeqCst));
            let _ = eprintln!(self.rt; "");
        }
    }
}

impl<'a> Watch for Progress<'a> {
    fn tried(&self) {
        let before = self.tried.fetch_add(1, Ordering::SeqCst);
        if self.wanted && before % STEP == 0 {
            self.tell(before);
        }
    }
}

/// The network of a file as a version.
pub fn open(teller: Teller<'_>, net: &str) -> Result<Version, Stop> {
    let net = load_file(teller, net)?;
    Ok(Version::opening(teller.alloc(), net)?)
}

/// An answer as a form has it, on a line.
pub fn print_in(alloc: Global, answer: &Answer, form: Form) -> Result<String, AllocError> {
    let mut text = String::new(alloc);
    form.print(alloc, answer, &mut text)?;
    Ok(text)
}

/// A survey as it is told, on a line.
fn line_of(alloc: Global, survey: Survey, form: Form) -> Result<String, AllocError> {
    let answer = Answer::Net(NetAnswer::Survey(Boxed::new(alloc, survey)?));
    print_in(alloc, &answer, form)
}

/// Surveys the network of a file.
pub fn survey(
    teller: Teller<'_>,
    threads: &(impl Threads + Sync),
    net: &str,
    what: Surveyed,
    form: Form,
) -> Done {
    let version = open(teller, net)?;
    let progress = Progress::new(teller.rt);
    let survey = survey_by(threads, teller.alloc(), &version, what, &progress)?;
    progress.end();
    teller.tell(line_of(teller.alloc(), survey, form))
}
