//! A console whose desk is worked on in line.

ghost use Rattle.std.specs.Prelude.{◌≡◌, IfOk};
ghost use Rattle.desk_console.specs.Console.{opening};

use answers::{Answer, Asked, Reason, Telling};
use desk_console::Console;
use net_data::Net;
use sessions::{Answering, Fault};
use std::alloc::{AllocError, Global};
use std::marker::Model;

/// A console whose desk is worked on in line, by the script's own thread. Contracts see what stands at it.
#[derive(Drop)]
pub struct InLine {
    console: Console,
}

impl Model for InLine {
    ghost use Rattle.desk_console.specs.Console.{ConsoleValue};

    ghost Value = { ConsoleValue };

    ghost view = { λ i. i.console };
}

impl InLine {
    /// A new desk over a network, and empty slots.
    pub(crate) fn start(alloc: Global, net: Net) -> Result<InLine, AllocError>
        ensures { IfOk result (λ i. i ≡ opening net) }
    {
        let console = Console::start(alloc, net)?;
        Ok(InLine { console })
    }
}

impl Answering for InLine {
    ghost use Rattle.desk_console.specs.Commands.{Commands};
    ghost use Rattle.console.specs.InLine.{LeavesInLine};

    ghost commands = { Commands };

    ghost fails = { λ line old new. Unit {0} };

    ghost leaves = { LeavesInLine };

    ghost needs_place = { ⊥ };

    fn answer(&mut self, alloc: Global, line: &[u8]) -> Result<Answer, Fault> {
        Ok(self.console.answer(alloc, line)?)
    }

    fn show_net<T: Telling>(&self, alloc: Global, telling: &T, asked: Asked<'_>, why: Reason) {
        telling.explain(alloc, asked, why, self.console.desk().net_now());
    }

    fn into_net(self, _alloc: Global) -> Result<Net, Fault> {
        Ok(self.console.into_net())
    }
}
