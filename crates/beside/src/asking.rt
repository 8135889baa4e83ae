//! What is asked of the published version: it is answered from a look, without the lock. And what moved up to a `sync`.

ghost use Rattle.std.specs.Prelude.{◌≡◌, ◌||◌, true, IfErr, IfOk};
ghost use Rattle.sessions.specs.Run.{CutsOff};
ghost use Rattle.script_words.specs.Commands.{IsWithin};
ghost use Rattle.desk_console.specs.Asked.{is_asked};
ghost use Rattle.beside.specs.Seats.{StaysSeated};
ghost use Rattle.beside.specs.Beside.{AsksBeside, DoesBeside, is_of_changes};

use crate::visitor::Visitor;
use answers::Answer;
use desk_console::answer_asked;
use script_words::Command;
use sessions::Fault;
use std::alloc::Global;
use versions::Naming;

impl<N: Naming> Visitor<N> {
    /// What a command asks, of the published version or of what moved up to a `sync`.
    pub(crate) fn tell(&mut self, alloc: Global, command: &Command) -> Result<Answer, Fault>
        requires within { IsWithin command.now }
        requires asked { (is_asked command.now || is_of_changes command.now) ≡ true }
        ensures does { IfOk result (λ answer. DoesBeside N.seats command.now self.old answer self.new) }
        ensures stays { StaysSeated self.old self.new }
        ensures fault { IfErr result (CutsOff (Unit {0})) }
    {
        match command {
            Command::Changes(_, _) | Command::Watch(_) => self.ask_changes(alloc, command),
            _ => self.ask(alloc, command),
        }
    }

    /// What a command asks of the published version.
    fn ask(&mut self, alloc: Global, command: &Command) -> Result<Answer, Fault>
        requires within { IsWithin command.now }
        requires asked { is_asked command.now ≡ true }
        ensures answer { IfOk result (λ answer. AsksBeside command.now self.old answer self.new) }
        ensures stays { StaysSeated self.old self.new }
        ensures fault { IfErr result (CutsOff (Unit {0})) }
    {
        self.refresh()?;
        Ok(answer_asked(alloc, self.newest(), command)?)
    }

    /// What moved up to the last `sync`, or that it is told behind each from now on, or no more.
    fn ask_changes(&mut self, alloc: Global, command: &Command) -> Result<Answer, Fault>
        requires { is_of_changes command.now ≡ true }
        ensures does { IfOk result (λ answer. DoesBeside N.seats command.now self.old answer self.new) }
        ensures stays { StaysSeated self.old self.new }
        ensures fault { IfErr result (CutsOff (Unit {0})) }
    {
        match command {
            Command::Changes(since, which) => Ok(self.changes(alloc, *which, *since)?),
            Command::Watch(is_on) => Ok(self.set_watch(*is_on)),
            _ => unreachable!(),
        }
    }
}
