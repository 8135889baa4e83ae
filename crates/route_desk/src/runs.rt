//! Runs of scripts, from files and from standard input, with sentences about what is refused and answers as objects of JSON if that is
//! wanted.

ghost use Rattle.std.specs.Prelude.{◌≤◌};

use crate::clerks::{Files, ScriptClerk};
use crate::endings::{Saving, finish};
use crate::explaining::{ExplainingWriter, NotedReader};
use crate::loading::{explain_input, load_file, open_file};
use crate::notes::Notes;
use crate::reports::{Done, Stop, Teller};
use crate::streams::{Seen, SeenReader, SeenWriter};
use crate::terminal::{Prompting, greet, is_terminal};
use answers::Telling;
use beside::{run_beside, run_input_beside};
use console::{Fault, ScriptEnd, run_input, run_script};
use json_answers::{Filing, Form};
use net_data::Net;
use sessions::UntilQuit;
use std::alloc::Global;
use std::cell::RefCell;
use std::io;
use std::io::Printer;
use std::sync::Wait;
use std::thread::Threads;
use worker_pool::Plain;

/// How scripts are answered, and what is told of that.
#[derive(Clone, Copy)]
pub struct Manner<'a> {
    /// Who tells it: whether each refused line and a fault is explained on standard error.
    pub teller: Teller<'a>,
    /// The form of the answers, if a seat doesn't say it otherwise.
    pub form: Form,
    /// Whether nothing is saved, and the run doesn't end with 0, if a line was refused.
    pub strict: bool,
    /// The file that the network is saved to in the end, if one is named.
    pub saved: Option<&'a str>,
    /// Which files may be written for lines.
    pub allowed: Files<'a>,
}

impl<'a> Manner<'a> {
    /// The same over the network of this file, where those of other names are read or written otherwise.
    pub fn over(self, net: Option<&'a str>, others: &'a [&'a str]) -> Manner<'a> {
        Manner {
            allowed: self.allowed.over(net, others),
            ..self
        }
    }
}

/// The file of standard input.
const STANDARD_INPUT: &str = "/dev/stdin";

/// How a run ended, and what was seen of it.
#[derive(Drop)]
pub struct Ended {
    pub end: ScriptEnd,
    pub seen: Seen,
}

impl Ended {
    /// The end of a run of which this was seen.
    fn new(end: ScriptEnd, seen: Seen) -> Ended {
        Ended {
            end: seen.end_of(end),
            seen,
        }
    }
}

/// Standard output, of which it is seen why it fails, and behind which refused lines are explained if that is wanted.
type Output<'a> = ExplainingWriter<'a, SeenWriter<'a, Printer<'a, HostRuntime>>>;

/// Standard output for the answers of a run, with the notes of its script, and where it tells what is seen of it.
fn output_of<'a>(
    rt: &'a HostRuntime,
    notes: Option<&'a RefCell<Notes>>,
    seen: &'a Seen,
) -> Output<'a> {
    ExplainingWriter::new(rt, notes, SeenWriter::new(seen, io::writer(rt)))
}

/// Who tells the answers of a run in a manner, with the notes of its script, and where it tells what is seen of it.
fn telling_of<'a>(
    manner: Manner<'a>,
    notes: Option<&'a RefCell<Notes>>,
    seen: &'a Seen,
) -> Filing<ScriptClerk<'a>> {
    Filing {
        form: manner.form,
        clerk: ScriptClerk {
            rt: manner.teller.rt,
            allowed: manner.allowed,
            counted: manner.strict.then_some(seen),
            notes,
        },
    }
}

/// Runs the script of a reader from a network, in line or beside that many workers.
fn run_over<T: Telling, R: io::Read + Drop, W: io::Write + Drop>(
    alloc: Global,
    threads: &(impl Threads + Wait + Sync),
    net: Net,
    workers: u32,
    telling: &T,
    mut reader: R,
    mut writer: W,
) -> ScriptEnd
    requires { workers ≤ 32 }
{
    if workers == 0 {
        return run_script(alloc, telling, &mut reader, &mut writer, net);
    }
    run_beside(
        threads, alloc, workers, &Plain, telling, reader, writer, net,
    )
    .end
}

/// Runs the script on standard input from a network, which was read from the file of this name, in line or beside that many workers.
fn run_from(
    threads: &(impl Threads + Wait + Sync),
    name: &str,
    net: Net,
    workers: u32,
    manner: Manner<'_>,
) -> Ended
    requires { workers ≤ 32 }
{
    let rt = manner.teller.rt;
    let wanted = is_terminal(rt, STANDARD_INPUT);
    if wanted {
        greet(rt, &net);
    }
    let others = [manner.saved.unwrap_or(STANDARD_INPUT)];
    let manner = manner.over(Some(name), &others);
    let notes = Notes::of_script(manner.teller);
    let seen = Seen::new();
    let input = SeenReader::new(&seen, Prompting::new(rt, rt.reader(), wanted));
    let reader = UntilQuit::new(input);
    let writer = output_of(rt, notes.as_ref(), &seen);
    let telling = telling_of(manner, notes.as_ref(), &seen);
    let end = run_over(rt.alloc(), threads, net, workers, &telling, reader, writer);
    Ended::new(end, seen)
}

/// Runs the network text and the script of an input, in line or beside that many workers.
fn run_input_from<T: Telling, R: io::Read + Drop, W: io::Write + Drop>(
    alloc: Global,
    threads: &(impl Threads + Wait + Sync),
    workers: u32,
    telling: &T,
    mut reader: R,
    mut writer: W,
) -> ScriptEnd
    requires { workers ≤ 32 }
{
    if workers == 0 {
        return run_input(alloc, telling, &mut reader, &mut writer);
    }
    run_input_beside(threads, alloc, workers, &Plain, telling, reader, writer).end
}

/// Runs the network text and the script on standard input, in line or beside that many workers.
fn run_whole(threads: &(impl Threads + Wait + Sync), workers: u32, manner: Manner<'_>) -> Ended
    requires { workers ≤ 32 }
{
    let teller = manner.teller;
    let rt = teller.rt;
    let notes = Notes::of_input(teller);
    let seen = Seen::new();
    let input = NotedReader::new(notes.as_ref(), SeenReader::new(&seen, rt.reader()));
    let reader = UntilQuit::new(input);
    let writer = output_of(rt, notes.as_ref(), &seen);
    let others = [manner.saved.unwrap_or(STANDARD_INPUT)];
    let manner = manner.over(None, &others);
    let telling = telling_of(manner, notes.as_ref(), &seen);
    let end = run_input_from(rt.alloc(), threads, workers, &telling, reader, writer);
    if let (Some(notes), Some(Fault::Load(fault))) = (&notes, end.fault) {
        explain_input(teller, notes, Fault::Load(fault));
    }
    Ended::new(end, seen)
}

/// Runs the script of a reader from a network, in line.
fn play_from<R: io::Read + Drop>(net: Net, script: R, manner: Manner<'_>) -> Ended {
    let rt = manner.teller.rt;
    let notes = Notes::of_script(manner.teller);
    let seen = Seen::new();
    let mut reader = UntilQuit::new(script);
    let mut writer = output_of(rt, notes.as_ref(), &seen);
    let telling = telling_of(manner, notes.as_ref(), &seen);
    let end = run_script(rt.alloc(), &telling, &mut reader, &mut writer, net);
    Ended::new(end, seen)
}

/// Runs the script of a file from the network of another, saves the network if a file is named, and says how the run ended.
pub fn play(name: &str, steps: &str, manner: Manner<'_>) -> Done {
    let saving = Saving::new(manner.teller, manner.saved)?;
    let net = load_file(manner.teller, name)?;
    let script = open_file(manner.teller, steps)?;
    let others = [steps, manner.saved.unwrap_or(steps)];
    let manner = manner.over(Some(name), &others);
    let ended = play_from(net, script, manner);
    finish(&ended, saving, manner.teller)
}

/// Runs the script on standard input, from the network of a file or from that of the text before the script.
fn run_net(
    threads: &(impl Threads + Wait + Sync),
    net: &str,
    workers: u32,
    manner: Manner<'_>,
) -> Result<Ended, Stop>
    requires { workers ≤ 32 }
{
    if net == "-" {
        return Ok(run_whole(threads, workers, manner));
    }
    let loaded = load_file(manner.teller, net)?;
    Ok(run_from(threads, net, loaded, workers, manner))
}

/// The same for the script on standard input: saves the network if a file is named, and says how the run ended.
pub fn run(
    threads: &(impl Threads + Wait + Sync),
    net: &str,
    workers: u32,
    manner: Manner<'_>,
) -> Done
    requires { workers ≤ 32 }
{
    let saving = Saving::new(manner.teller, manner.saved)?;
    let ended = run_net(threads, net, workers, manner)?;
    finish(&ended, saving, manner.teller)
}
