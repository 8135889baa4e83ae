//! A run of an input that starts with the network text.

ghost use Rattle.std.specs.Prelude.{MatchResult, Ok};
ghost use Rattle.net_data.specs.Network.{Network};
ghost use Rattle.net_text.specs.Reading.{Says};
ghost use Rattle.desk_console.specs.Commands.{Commands};
ghost use Rattle.sessions.specs.Input.{IsLoadFault, RanInput};
ghost use Rattle.console.specs.Headline.{RanInputRight};
ghost use Rattle.console.specs.InLine.{LeavesInLine, StartsInLine};

use crate::in_line::InLine;
use answers::Telling;
use sessions::{Fault, ScriptEnd, ended_by, load_text, read_text};
use std::alloc::Global;
use std::io::{Read, Write};

/// A new desk over the network that a text says, worked on in line.
fn open_text(alloc: Global, text: &[u8]) -> Result<InLine, Fault>
    ensures { MatchResult result (λ c. (net : Network) × Says text.now (Ok net) × StartsInLine net c) (IsLoadFault text.now) }
{
    let net = load_text(alloc, text)?;
    match InLine::start(alloc, net) {
        Ok(console) => Ok(console),
        Err(_) => Err(Fault::OutOfMemory),
    }
}

/// Reads a network text up to the line `%%`, and then a script to its end, whose lines are answered from a new desk over
/// that network before more is read. Without that line the whole input is the network text. Nothing is written unless the network
/// text was read and loaded.
///
/// - `ran`: what is read, what is written, how it ends, and by which fault.
/// - `right`: at each line the published version is the one of its number, as `run_script` says it.
pub fn run_input<T: Telling, R: Read, W: Write>(
    alloc: Global,
    telling: &T,
    reader: &mut R,
    writer: &mut W,
) -> ScriptEnd
    ensures ran { RanInput StartsInLine (T.tells telling.now) Commands LeavesInLine ⊥ (R.remaining reader.old) (R.remaining reader.new)
        (W.contents writer.old) (W.contents writer.new) result.fault result.lines result.net }
    ensures right { RanInputRight (T.tells telling.now) (R.remaining reader.old) (R.remaining reader.new) (W.contents writer.old) (W.contents writer.new) }
{
    let opening = match read_text(alloc, reader) {
        Ok(opening) => opening,
        Err(fault) => return ended_by(fault, 0),
    };
    match open_text(alloc, &opening.bytes[..opening.text]) {
        Ok(console) => opening.run(alloc, telling, reader, writer, console),
        Err(fault) => ended_by(fault, 0),
    }
}
