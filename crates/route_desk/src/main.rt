//! The program `route_desk`: the settled routing state of a Signalling System No. 7 network, asked by a script.
//!
//! 1. `route_desk run NET` loads the network of the file NET, reads a script from standard input and answers it on
//!    standard output. `route_desk run -` reads the network text from standard input too, up to the line `%%`. With
//!    `--save FILE` the network after all accepted events is written to that file after a script that ended without a
//!    fault; a file that was there stays as it was if that fails, and whether it can be written is tried before anything is read.
//!    With `--workers N`, from 0 to 32, that many threads settle jobs beside the script.
//!    With `--explain` each refused line and a fault has a sentence on standard error too: what was expected, what stands against an
//!    edit, where an entry stands and what to do, or the system's reason; so have the faults of `check`, `survey`, `picture`, `report`, `import`
//!    and `export`. With `--json` each answer is an object of JSON on a line of its own, as are what `check`, `survey` and `explain` write. With
//!    `--strict` nothing is saved if a line was refused.
//! 2. `route_desk play NET STEPS` does the same with the script of the file STEPS, which is opened once the network is
//!    loaded.
//! 3. `route_desk serve NET SEATS` answers many sessions at one desk over the network of the file NET, each with the input and the
//!    output that the file SEATS says, in a thread of its own. `--workers N` is 1 if it isn't given. A FIFO that a session reads is
//!    opened again when its writers have gone, if SEATS doesn't say otherwise, and what was cut off in the middle of a line is dropped.
//!    A fault of one session ends that session alone. Once all have ended the network is saved, if a file is named.
//! 4. `route_desk check NET` works out the tables of all planned destinations of that network, by as many threads as
//!    there are processors, checks each by the local rule, and writes `ok P` for P plans, or `bad X Y c` for the first
//!    wrong one. With `--warn` it also writes what a planner should look at, a line each, and how many of them there are.
//!    `route_desk survey NET` writes what the failure of each link set alone would take, with `--points` of each transfer point, tried
//!    by as many threads; if standard error is a terminal it says there how far it has come.
//! 5. `route_desk picture NET` writes the network as a Graphviz DOT text, or with `--svg` as an SVG document; with `--about X`
//!    it shows how traffic goes to the destination X. The words `picture FILE` and `picture FILE X` of a script write the picture of
//!    what is published then to a file, and `save FILE` the network after all accepted events; with `--no-files` the commands `run`,
//!    `play` and `serve` refuse them.
//!    `route_desk report NET` writes a report of the network as one page of HTML, with that picture, and one of each destination if it
//!    has at most sixty points.
//! 6. `route_desk import DIR` writes the network text that the tables network.csv, points.csv, sets.csv and routes.csv of a folder say;
//!    `route_desk export NET DIR` writes these tables, with `--ranks` the ranks of rows too.
//! 7. If standard input is a terminal, `run NET` says on standard error how large the network is, and prompts for each line there.
//! 8. `route_desk explain WHAT` writes what the refusal, fault, cause or complaint of that number or name means and what
//!    to do; without WHAT the title and the meaning of each, a line each.
//! 9. It exits with 0 if the script was answered to its end: a refused line is no fault of a run, but with `--strict`; or if all
//!    sessions were, if all tables are right, or if what was asked for is explained, drawn or written.
//! 10. It exits with 1 if a table is wrong, if the network or SEATS isn't loaded, if there is no picture, or where memory, reading,
//!    writing or the want of a place for a reader ended the run or one of its sessions; in all but the first of these standard error
//!    has one line, `route_desk: ` and the fault, but nothing if whoever read standard output went away. Each session that a fault
//!    ended has such a line with its name. Memory that is wanting while the arguments are fetched is such a fault.
//! 11. It exits with 2 where the command line isn't read, with `clap`'s text on standard error, or one line if an argument
//!    isn't UTF-8, N is no number from 0 to 32, X is no signalling point code, or nothing is called WHAT. Help and the version are
//!    printed on standard output, with 0.
//!
//! Stands on `net_saving`, `net_sheets`, `pictures`, `console`, `beside`, `serving`, `explanations`, `json_answers`, `command_line`, `clap`. Nothing else changes with it.
#![tactic(auto)]

mod checks;
mod clerks;
mod drawing;
mod endings;
mod explaining;
mod files;
mod findings;
mod fresh;
mod held_lines;
mod keys;
mod loading;
mod meanings;
mod net_sentences;
mod notes;
mod page;
mod places;
mod planning;
mod reasons;
mod reports;
mod runs;
mod saying;
mod seat_ends;
mod seat_faults;
mod seat_files;
mod seat_inputs;
mod seat_outputs;
mod seat_reasons;
mod seat_reports;
mod seat_text;
mod seating;
mod sections;
mod sentences;
mod sheets;
mod standing;
mod streams;
mod surveying;
mod targets;
mod terminal;
mod tried;

ghost use Rattle.std.specs.Prelude.{◌≤◌};
ghost use Rattle.command_line.specs.Words.{IsWithin};

use checks::check;
use clap::Error;
use clerks::Files;
use command_line::{Options, Order, Task, WordFault, read_words};
use console::Fault;
use drawing::draw;
use json_answers::Form;
use meanings::explain;
use net_building::Surveyed;
use planning::report_net;
use reports::{Done, Stop, Teller, end};
use runs::{Manner, play, run};
use saying::write_lines;
use seating::serve_seats;
use sheets::{export, import};
use std::alloc::{AllocError, Global};
use std::io::ErrorKind;
use std::process::ExitCode;
use std::sync::Wait;
use std::thread::Threads;
use std::{env, io};
use surveying::survey;

/// The words of the command line, the program's name first. It fails with `InvalidData` where one isn't UTF-8, and with
/// `OutOfMemory`.
fn fetch_words(rt: &HostRuntime) -> io::Result<Vec<String>> {
    Ok(env::args(rt)?.collect(rt.alloc())?)
}

/// The words of a command line as texts.
fn texts(alloc: Global, words: &[String]) -> Result<Vec<&str>, AllocError> {
    let mut texts = Vec::with_capacity(alloc, words.len())?;
    for word in words {
        texts.push(word.as_str())?;
    }
    Ok(texts)
}

/// The text of `clap`'s that says why the command line isn't read, or that is asked for.
fn text_of(alloc: Global, error: &Error) -> Result<Vec<u8>, AllocError> {
    let text = format!(in alloc; "{error}")?;
    Ok(write_lines(alloc, text.as_str())?.into_bytes())
}

/// Says why the command line isn't read, or gives the help that it asks for.
fn refuse(rt: &HostRuntime, error: &Error) -> io::Result<ExitCode> {
    let text = text_of(rt.alloc(), error);
    if !error.use_stderr() {
        let teller = Teller::brief(rt);
        return end(teller, teller.tell_bytes(text));
    }
    match text {
        Ok(text) => rt.eprint(str::from_utf8(text.as_slice()).unwrap_or(""))?,
        Err(_) => error.print(rt)?,
    }
    Ok(ExitCode::from(2))
}

/// How a script or the answer to a question is told, by what the command line wants.
fn manner_of<'a>(teller: Teller<'a>, options: Options<'a>) -> Manner<'a> {
    Manner {
        teller,
        form: if options.json {
            Form::Objects
        } else {
            Form::Text
        },
        strict: options.strict,
        saved: options.save,
        allowed: Files::of(options.no_files),
    }
}

/// What is surveyed, by whether it is to be transfer points.
fn surveyed_of(points: bool) -> Surveyed {
    if points {
        return Surveyed::Points;
    }
    Surveyed::Sets
}

/// Does what the words of the command line ask for; a check, workers and sessions take threads.
fn obey(teller: Teller<'_>, threads: &(impl Threads + Wait + Sync), order: Order<'_>) -> Done
    requires { IsWithin order }
{
    let manner = manner_of(teller, order.options);
    match order.task {
        Task::Run { net, workers } => run(threads, net, workers, manner),
        Task::Play { net, steps } => play(net, steps, manner),
        Task::Serve {
            net,
            seats,
            workers,
        } => serve_seats(threads, net, seats, workers, manner),
        Task::Check { net, warned } => check(teller, threads, net, warned, manner.form),
        Task::Survey { net, points } => {
            survey(teller, threads, net, surveyed_of(points), manner.form)
        }
        Task::Picture { net, about, svg } => draw(teller, net, about, svg),
        Task::Report { net, about } => report_net(teller, threads, net, about),
        Task::Import { dir } => import(teller, dir),
        Task::Export { net, dir, ranks } => export(teller, net, dir, ranks),
        Task::Explain { what } => explain(teller, what, order.options.json),
    }
}

/// Why the number of workers is none: which numbers there are is said if faults are explained.
fn no_workers(teller: Teller<'_>) -> Stop {
    teller.say(&["N is a number from 0 to 32, without sign or leading zeros, as --workers 4"]);
    Stop::NoWorkers
}

/// Reads the words of the command line, and does what they ask for.
fn follow(
    rt: &HostRuntime,
    threads: &(impl Threads + Wait + Sync),
    words: &[&str],
) -> io::Result<ExitCode> {
    match read_words(rt.alloc(), words) {
        Ok(order) => {
            let explained = order.options.explained;
            let teller = Teller { rt, explained };
            end(teller, obey(teller, threads, order))
        }
        Err(WordFault::Clap(error)) => refuse(rt, &error),
        Err(WordFault::Workers { explained }) => {
            let teller = Teller { rt, explained };
            end(teller, Err(no_workers(teller)))
        }
    }
}

/// Why the words of the command line can't be fetched.
fn unfetched(error: &io::Error) -> Stop {
    if error.kind() == ErrorKind::InvalidData {
        return Stop::NotUtf8;
    }
    Stop::Fault(Fault::OutOfMemory)
}

fn main(rt: HostRuntime) -> io::Result<ExitCode> {
    let words = match fetch_words(&rt) {
        Ok(words) => words,
        Err(error) => return end(Teller::brief(&rt), Err(unfetched(&error))),
    };
    match texts(rt.alloc(), words.as_slice()) {
        Ok(texts) => follow(&rt, &rt, texts.as_slice()),
        Err(refused) => end(Teller::brief(&rt), Err(refused.into())),
    }
}
