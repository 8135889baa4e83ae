//! Network texts, scripts, and the words of the command line.

ghost use Rattle.std.specs.Prelude.{◌≡◌, ◌<◌, vec_len};
ghost use Rattle.std.specs.Option.{IfSome};

use crate::samples::{WORKED, code, frozen, worked};
use route_state::excerpt::Frozen;
use route_state::nets::{Kind, Net};
use route_state::pools::Plain;
use route_state::scripts::{
    Channel, Rules, ScriptEnd, SessionEnd, Silent, Task, check_given, check_net, check_tables,
    read_net, read_words, run_beside, run_input, run_input_beside, run_script, run_seats,
    tables_of,
};
use route_state::tables::Table;
use route_state::texts::{load, read_code, read_id, read_kind, read_row, read_slc, save};
use route_state::told::{Form, SeatNames, Text};
use std::alloc::Global;
use std::sync::Wait;
use std::thread::Threads;

/// The words of a text, each read alone.
fn reads_words(alloc: Global) -> Option<bool> {
    let row = read_row(alloc, b"2-10-1:1:2-1-2:m".as_slice()).ok()??;
    let numbers = (
        read_id(b"4".as_slice()),
        read_slc(b"15".as_slice()),
        row.rank,
    );
    Some(
        numbers == (Some(4), Some(15), 1)
            && read_kind(b"stp".as_slice()) == Some(Kind::Stp)
            && read_code(b"2-1-2".as_slice()) == code("2-1-2"),
    )
}

/// Whether a text is loaded as a network.
fn is_loaded(alloc: Global, text: &[u8], net: &Net) -> Option<bool> {
    let again = load(alloc, text).ok()?;
    Some(again.equals(net))
}

/// Whether a text is read as a network.
fn is_read(alloc: Global, text: &[u8], net: &Net) -> Option<bool> {
    let mut reader = text;
    let again = read_net(alloc, &mut reader).ok()?;
    Some(again.equals(net))
}

/// A network that is saved, and loaded and read again.
fn saves(alloc: Global, net: &Net) -> Option<bool> {
    let text = save(alloc, net).ok()?;
    Some(is_loaded(alloc, text.as_bytes(), net)? && is_read(alloc, text.as_bytes(), net)?)
}

/// The worked network, saved, and the words of a text.
pub(crate) fn texts(alloc: Global) -> Option<bool> {
    let saved = saves(alloc, &worked(alloc)?);
    Some(saved? && reads_words(alloc)?)
}

/// What is asked in a script.
const SCRIPT: &str = "fail 4 0\nsync\nstatus 2-10-2 2-1-2\n";

/// What it is answered.
const ANSWERS: &str = "taken 1\nsynced 1\nstatus restricted class 5 by 2-10-1\n";

/// The script of a session, which asks who is there.
const SEAT_SCRIPT: &str = "fail 4 0\nsync\nwho\n";

/// What it is answered.
const SEAT_ANSWERS: &str = "taken 1\nsynced 1\nwho desk:1\n";

/// Whether a run answered the script; None if a fault cut it off, with a beginning of the answers written.
fn is_answered(end: &ScriptEnd, written: &[u8]) -> Option<bool> {
    let answers = ANSWERS.as_bytes();
    if end.fault.is_some() {
        return if answers.starts_with(written) && end.net.is_none() {
            None
        } else {
            Some(false)
        };
    }
    Some(end.lines == 3 && end.net.is_some() && written == answers)
}

/// The script in line, from a network.
fn runs_in_line(alloc: Global) -> Option<bool> {
    let net = worked(alloc)?;
    let mut reader = SCRIPT.as_bytes();
    let mut written: Vec<u8> = Vec::new(alloc);
    let end = run_script(alloc, &Form::Text, &mut reader, &mut written, net);
    is_answered(&end, written.as_slice())
}

/// The same behind the text of the network.
fn runs_behind_text(alloc: Global) -> Option<bool> {
    let text = format!(in alloc; "{WORKED}%%\n{SCRIPT}").ok()?;
    let mut reader = text.as_bytes();
    let mut written: Vec<u8> = Vec::new(alloc);
    let end = run_input(alloc, &Form::Text, &mut reader, &mut written);
    is_answered(&end, written.as_slice())
}

/// The same beside two workers.
fn runs_beside<R: Threads + Wait + Sync>(rt: &R, alloc: Global) -> Option<bool> {
    let written: Vec<u8> = Vec::new(alloc);
    let net = worked(alloc)?;
    let end = run_beside(
        rt,
        alloc,
        2,
        &Plain,
        &Form::Text,
        SCRIPT.as_bytes(),
        written,
        net,
    );
    is_answered(&end.end, end.writer.as_slice())
}

/// The same behind the text of the network.
fn runs_text_beside<R: Threads + Wait + Sync>(rt: &R, alloc: Global) -> Option<bool> {
    let text = format!(in alloc; "{WORKED}%%\n{SCRIPT}").ok()?;
    let written: Vec<u8> = Vec::new(alloc);
    let end = run_input_beside(rt, alloc, 2, &Plain, &Form::Text, text.as_bytes(), written);
    is_answered(&end.end, end.writer.as_slice())
}

/// The name of the only session.
fn names(alloc: Global) -> Option<SeatNames> {
    let name = String::from_str(alloc, "desk").ok()?;
    let names = vec![in alloc; Text::from_string(name)].ok()?;
    SeatNames::from_vec(alloc, names).ok()
}

/// A session over a script of its own, which asks who is there.
fn new_session(alloc: Global) -> Option<Vec<Channel<&'static [u8], Vec<u8>, Form>>>
    ensures { IfSome result (λ channels. vec_len channels ≡ 1) }
{
    let names = names(alloc)?;
    let channel = Channel {
        reader: SEAT_SCRIPT.as_bytes(),
        writer: Vec::new(alloc),
        telling: Form::Text,
        rules: Rules {
            posts: true,
            collector: 0,
            names,
        },
    };
    match vec![in alloc; channel] {
        Ok(channels) => Some(channels),
        Err(_) => None,
    }
}

/// Whether the only session was answered; None if a fault cut it off.
fn is_told(ends: &[SessionEnd<&'static [u8], Vec<u8>>]) -> Option<bool> {
    match ends {
        [session] if session.fault.is_none() => {
            Some(session.writer.as_slice() == SEAT_ANSWERS.as_bytes())
        }
        _ => None,
    }
}

/// A session at a desk over a network.
fn seats<R: Threads + Wait + Sync>(
    rt: &R,
    alloc: Global,
    net: Net,
    channels: Vec<Channel<&'static [u8], Vec<u8>, Form>>,
) -> Option<bool>
    requires { vec_len channels ≡ 1 }
{
    match run_seats(rt, alloc, 1, &Plain, &Silent, net, channels) {
        Ok(end) => is_told(end.ends.as_slice()),
        Err(_) => None,
    }
}

/// A session over the script at a desk of its own.
fn runs_session<R: Threads + Wait + Sync>(rt: &R, alloc: Global) -> Option<bool> {
    let channels = new_session(alloc)?;
    match worked(alloc) {
        Some(net) => seats(rt, alloc, net, channels),
        None => None,
    }
}

/// The words of a command line.
fn reads_order(alloc: Global) -> Option<bool> {
    let words = ["route_desk", "run", "net.toml", "--workers", "4"];
    match read_words(alloc, &words).ok()?.task {
        Task::Run { net, workers } => Some((net, workers) == ("net.toml", 4)),
        _ => Some(false),
    }
}

/// Whether the tables of a network are told to be right.
fn are_right<R: Threads + Sync>(
    rt: &R,
    alloc: Global,
    net: &Frozen,
    tables: &[Table],
) -> Option<bool> {
    let wrong = check_tables(rt, alloc, net, tables).ok()?;
    let given = check_given(rt, alloc, net, tables).ok()?;
    Some(tables.len() == 1 && wrong.is_none() && given.wrong.is_none())
}

/// All tables of a network, checked.
fn checks_tables<R: Threads + Sync>(rt: &R, alloc: Global, net: &Frozen) -> Option<bool> {
    let tables = tables_of(rt, alloc, net).ok()?;
    are_right(rt, alloc, net, tables.as_slice())
}

/// The same at once.
fn checks_net<R: Threads + Sync>(rt: &R, alloc: Global, net: &Frozen) -> Option<bool> {
    let end = check_net(rt, alloc, net).ok()?;
    let said = end.write(alloc).ok()?;
    Some(end.wrong.is_none() && said.as_str() == "ok 1")
}

/// All tables of the worked network, in both ways.
fn checks<R: Threads + Sync>(rt: &R, alloc: Global) -> Option<bool> {
    let net = frozen(alloc)?;
    let tables = checks_tables(rt, alloc, &net);
    let all = checks_net(rt, alloc, &net);
    Some(tables? && all?)
}

/// Runs of scripts by one thread.
fn runs_alone(alloc: Global) -> Option<bool> {
    Some(runs_in_line(alloc)? && runs_behind_text(alloc)?)
}

/// Runs of scripts beside others.
fn runs_by_threads<R: Threads + Wait + Sync>(rt: &R, alloc: Global) -> Option<bool> {
    Some(runs_beside(rt, alloc)? && runs_text_beside(rt, alloc)? && runs_session(rt, alloc)?)
}

/// Runs of scripts, the words of the command line, and all tables.
pub(crate) fn scripts<R: Threads + Wait + Sync>(rt: &R, alloc: Global) -> Option<bool> {
    let runs = runs_alone(alloc)? && runs_by_threads(rt, alloc)?;
    Some(runs && reads_order(alloc)? && checks(rt, alloc)?)
}
