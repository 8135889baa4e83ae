//! A run of a script from a reader to a writer.

ghost use Rattle.desk_console.specs.Commands.{Commands};
ghost use Rattle.desk_console.specs.Console.{opening};
ghost use Rattle.sessions.specs.Run.{Ran};
ghost use Rattle.console.specs.Headline.{RanRight};
ghost use Rattle.console.specs.InLine.{LeavesInLine};

use crate::in_line::InLine;
use answers::Telling;
use net_data::Net;
use sessions::{Fault, ScriptEnd, ended_by, run_lines};
use std::alloc::Global;
use std::io::{Read, Write};

/// Reads a script to its end, and answers each line from a new desk over a network before more is read. The network that
/// comes back is the one after all accepted events. Each answer is written as it is told by who tells it.
///
/// - `ran`: what is read, what is written, how it ends, and by which fault.
/// - `right`: at each line the published version is the one of its number: its events are the accepted ones since the
///   version before, its network is that after the accepted events up to it, and what it keeps of each planned destination
///   is what the profile gives for that network from scratch. Accepted are the events of the lines that are answered
///   `taken`.
pub fn run_script<T: Telling, R: Read, W: Write>(
    alloc: Global,
    telling: &T,
    reader: &mut R,
    writer: &mut W,
    net: Net,
) -> ScriptEnd
    ensures ran { Ran (T.tells telling.now) Commands LeavesInLine ⊥ (opening net) (R.remaining reader.old) (R.remaining reader.new)
        (W.contents writer.old) (W.contents writer.new) result.fault result.lines result.net }
    ensures right { RanRight (T.tells telling.now) net (R.remaining reader.old) (R.remaining reader.new) (W.contents writer.old) (W.contents writer.new) }
{
    match InLine::start(alloc, net) {
        Ok(console) => run_lines(alloc, telling, reader, writer, console),
        Err(_) => ended_by(Fault::OutOfMemory, 0),
    }
}
