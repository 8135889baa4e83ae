//! The order `serve`: many sessions at one desk, each with its own input and output.

ghost use Rattle.std.specs.Prelude.{◌≤◌};

use crate::clerks::Files;
use crate::endings::Saving;
use crate::loading::load_file;
use crate::notes::Notes;
use crate::reports::{Done, Stop, Teller};
use crate::runs::Manner;
use crate::seat_ends::SeatEnds;
use crate::seat_files::{InputKind, OutputKind, hold_closed, inputs_of, outputs_of};
use crate::seat_inputs::SeatInput;
use crate::seat_outputs::{SeatClerk, SeatOutput};
use crate::seat_reports::{SeatsText, refuse_streams, wrong_text};
use crate::seat_text::{SeatEntry, read_seats};
use crate::streams::{Seen, SeenReader, SeenWriter};
use answers::{SeatNames, Text};
use console::Fault;
use json_answers::{Filing, Form};
use net_data::Net;
use serving::{Channel, DeskEnd, Farewell, Rules, run_seats};
use sessions::UntilQuit;
use std::alloc::{AllocError, Global};
use std::fs;
use std::io::ErrorKind;
use std::process::ExitCode;
use std::sync::Wait;
use std::thread::Threads;
use worker_pool::Plain;

/// How the sessions of a desk are answered.
#[derive(Clone, Copy)]
struct SeatManner<'a> {
    /// Whether each refused line and a fault is explained on standard error.
    explained: bool,
    /// The form of the answers, if a seat doesn't say it otherwise.
    form: Form,
    /// Which files may be written.
    allowed: Files<'a>,
}

/// The lines of a seat up to its line `quit`, of which it is seen why they can't be read.
type Lines<'a> = UntilQuit<SeenReader<'a, SeatInput<'a>>>;

/// Where the answers of a seat go, of which it is seen why they can't be written.
type Output<'a> = SeenWriter<'a, SeatOutput<'a>>;

/// The session of a seat.
type SeatChannel<'a> = Channel<Lines<'a>, Output<'a>, Filing<SeatClerk<'a>>>;

/// The names of all seats.
fn seat_names(alloc: Global, entries: &[SeatEntry]) -> Result<SeatNames, AllocError> {
    let mut names = Vec::with_capacity(alloc, entries.len())?;
    for entry in entries {
        let name = String::from_str(alloc, entry.name.as_str())?;
        names.push(Text::from_string(name))?;
    }
    SeatNames::from_vec(alloc, names)
}

/// Who tells the answers of a seat.
fn telling_of<'a>(
    rt: &'a HostRuntime,
    entry: &'a SeatEntry,
    manner: SeatManner<'a>,
) -> Filing<SeatClerk<'a>> {
    let explained = manner.explained;
    Filing {
        form: entry.form.unwrap_or(manner.form),
        clerk: SeatClerk {
            rt,
            allowed: manner.allowed,
            seat: entry.name.as_str(),
            notes: Notes::of_script(Teller { rt, explained }),
        },
    }
}

/// The session of a seat.
fn channel_of<'a>(
    rt: &'a HostRuntime,
    entry: &'a SeatEntry,
    input: InputKind,
    output: OutputKind,
    seen: &'a Seen,
    manner: SeatManner<'a>,
    names: SeatNames,
) -> SeatChannel<'a> {
    Channel {
        reader: UntilQuit::new(SeenReader::new(seen, SeatInput::new(rt, entry, input))),
        writer: SeenWriter::new(seen, SeatOutput::new(rt, entry, output)),
        telling: telling_of(rt, entry, manner),
        rules: Rules {
            posts: entry.posts,
            collector: entry.collector,
            names,
        },
    }
}

/// The sessions of all seats.
fn channels_of<'a>(
    rt: &'a HostRuntime,
    entries: &'a [SeatEntry],
    inputs: &[InputKind],
    outputs: Vec<OutputKind>,
    seen: &'a [Seen],
    manner: SeatManner<'a>,
) -> Result<Vec<SeatChannel<'a>>, AllocError> {
    let names = seat_names(rt.alloc(), entries)?;
    let mut channels = Vec::with_capacity(rt.alloc(), entries.len())?;
    let mut outputs = outputs.into_iter();
    for (place, entry) in entries.iter().enumerate() {
        let (Some(input), Some(output), Some(seen)) = (
            inputs.get(place),
            outputs.next(),
            seen.get(place),
        ) else {
            break;
        };
        let channel = channel_of(rt, entry, *input, output, seen, manner, names.share()?);
        if channels.push(channel).is_err() {
            return Err(AllocError);
        }
    }
    Ok(channels)
}

/// What is seen of each of so many seats: nothing yet.
fn unseen(alloc: Global, count: usize) -> Result<Vec<Seen>, AllocError> {
    let mut seen = Vec::with_capacity(alloc, count)?;
    for _ in 0..count {
        seen.push(Seen::new())?;
    }
    Ok(seen)
}

/// Ends a desk that was run, of whose seats some may have ended early: saves its network if a file is named.
fn finish_seats(
    rt: &HostRuntime,
    net: Option<&Net>,
    is_any: bool,
    saving: Option<Saving<'_>>,
    explained: bool,
) -> Done {
    let saved = match (net, saving) {
        (_, None) => ExitCode::SUCCESS,
        (Some(net), Some(saving)) => saving.save(Teller { rt, explained }, net)?,
        (None, Some(_)) => return Err(Stop::Fault(Fault::OutOfMemory)),
    };
    if is_any {
        return Ok(ExitCode::from(1));
    }
    Ok(saved)
}

/// Why a desk ends with a fault, which is explained if that is wanted.
fn stop_of(rt: &HostRuntime, fault: &Fault, explained: bool) -> Stop {
    let teller = Teller { rt, explained };
    teller.explain_fault(*fault);
    Stop::Fault(*fault)
}

/// Runs the sessions of all seats at a desk over a network, beside that many workers.
fn run_channels<'a>(
    alloc: Global,
    threads: &(impl Threads + Wait + Sync),
    farewell: &(impl Farewell + Sync),
    net: Net,
    workers: u32,
    channels: Result<Vec<SeatChannel<'a>>, AllocError>,
) -> Result<DeskEnd<Lines<'a>, Output<'a>>, Fault>
    requires { workers ≤ 32 }
{
    let Ok(channels) = channels else {
        return Err(Fault::OutOfMemory);
    };
    if channels.is_empty() {
        return Err(Fault::OutOfMemory);
    }
    run_seats(threads, alloc, workers, &Plain, farewell, net, channels)
}

/// Runs the seats of a text whose files are open, and ends the desk.
fn run_open(
    rt: &HostRuntime,
    threads: &(impl Threads + Wait + Sync),
    entries: &[SeatEntry],
    inputs: &[InputKind],
    outputs: Vec<OutputKind>,
    net: Net,
    workers: u32,
    saving: Option<Saving<'_>>,
    manner: SeatManner<'_>,
) -> Done
    requires { workers ≤ 32 }
{
    let seen = unseen(rt.alloc(), entries.len())?;
    let seen = seen.as_slice();
    let channels = channels_of(rt, entries, inputs, outputs, seen, manner);
    let ends = SeatEnds::new(rt, threads, entries, seen, manner.explained);
    match run_channels(rt.alloc(), threads, &ends, net, workers, channels) {
        Ok(end) => finish_seats(
            rt,
            end.net.as_ref(),
            ends.is_any(),
            saving,
            manner.explained,
        ),
        Err(fault) => Err(stop_of(rt, &fault, manner.explained)),
    }
}

/// The names of the files that a desk itself reads, or saves to.
fn own_names<'a>(net: &'a str, text: &'a str, saving: Option<Saving<'a>>) -> [&'a str; 3] {
    match saving {
        Some(saving) => [net, text, saving.name],
        None => [net, text, net],
    }
}

/// Runs the seats of a text over the network of a file, once their inputs are known. Outputs are cut once the network is loaded.
fn run_over(
    rt: &HostRuntime,
    threads: &(impl Threads + Wait + Sync),
    net: &str,
    text: SeatsText<'_>,
    entries: &[SeatEntry],
    inputs: &[InputKind],
    workers: u32,
    saving: Option<Saving<'_>>,
    manner: SeatManner<'_>,
) -> Done
    requires { workers ≤ 32 }
{
    let explained = manner.explained;
    let loaded = load_file(Teller { rt, explained }, net)?;
    let own = own_names(net, text.name, saving);
    match outputs_of(rt, entries, &own) {
        Ok(outputs) => run_open(
            rt, threads, entries, inputs, outputs, loaded, workers, saving, manner,
        ),
        Err(fault) => refuse_streams(Teller { rt, explained }, text, entries, &fault),
    }
}

/// The names of the files, besides that of the network, that a desk reads or writes: those of the seats of a text and of the text, and
/// the one that it saves to.
fn names_of<'a>(
    alloc: Global,
    saving: Option<Saving<'a>>,
    text: &'a str,
    entries: &'a [SeatEntry],
) -> Result<Vec<&'a str>, AllocError> {
    let mut names = Vec::new(alloc);
    names.push(text)?;
    if let Some(saving) = saving {
        names.push(saving.name)?;
    }
    for entry in entries {
        names.push(entry.input.as_str())?;
        names.push(entry.output.as_str())?;
    }
    Ok(names)
}

/// Runs the seats of a text over the network of a file.
fn run_text(
    rt: &HostRuntime,
    threads: &(impl Threads + Wait + Sync),
    net: &str,
    text: SeatsText<'_>,
    workers: u32,
    saving: Option<Saving<'_>>,
    manner: SeatManner<'_>,
) -> Done
    requires { workers ≤ 32 }
{
    let explained = manner.explained;
    let entries = match read_seats(rt.alloc(), text.bytes) {
        Ok(entries) => entries,
        Err(fault) => return Err(wrong_text(Teller { rt, explained }, text, fault)),
    };
    let entries = entries.as_slice();
    let names = names_of(rt.alloc(), saving, text.name, entries)?;
    let manner = SeatManner {
        allowed: manner.allowed.over(Some(net), names.as_slice()),
        ..manner
    };
    match inputs_of(rt, entries) {
        Ok(inputs) => run_over(
            rt,
            threads,
            net,
            text,
            entries,
            inputs.as_slice(),
            workers,
            saving,
            manner,
        ),
        Err(fault) => refuse_streams(Teller { rt, explained }, text, entries, &fault),
    }
}

/// The bytes of the text SEATS.
fn read_text(teller: Teller<'_>, name: &str) -> Result<Vec<u8>, Fault> {
    match fs::read(teller.rt, name) {
        Ok(bytes) => Ok(bytes),
        Err(error) if error.kind() == ErrorKind::OutOfMemory => Err(Fault::OutOfMemory),
        Err(error) => {
            teller.explain_file(name, &error);
            Err(Fault::Read)
        }
    }
}

/// Answers the sessions that the text of a file says, at one desk over the network of another.
pub fn serve_seats(
    threads: &(impl Threads + Wait + Sync),
    net: &str,
    seats: &str,
    workers: u32,
    manner: Manner<'_>,
) -> Done
    requires { workers ≤ 32 }
{
    let teller = manner.teller;
    let _held = hold_closed(teller.rt)?;
    let saving = Saving::new(teller, manner.saved)?;
    let bytes = read_text(teller, seats)?;
    let text = SeatsText {
        name: seats,
        bytes: bytes.as_slice(),
    };
    let manner = SeatManner {
        explained: teller.explained,
        form: manner.form,
        allowed: manner.allowed,
    };
    run_text(teller.rt, threads, net, text, workers, saving, manner)
}
