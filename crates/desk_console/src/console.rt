//! The console.

ghost use Rattle.std.specs.Prelude.{◌≡◌, None, IfOk, map, replicate};
ghost use Rattle.desk_console.specs.Commands.{Commands};
ghost use Rattle.desk_console.specs.Console.{net_of, opening};

use crate::watching::Watch;
use answers::{Answer, answer_other};
use desk_core::Desk;
use net_data::Net;
use script_words::read_line;
use std::alloc::{AllocError, Global};
use std::marker::Model;
use work_units::Settled;

/// How many slots there are.
const SLOT_COUNT: usize = 32;

/// A desk, slots for the results of jobs, and what is kept to tell what a publication changed.
#[derive(Drop)]
pub struct Console {
    pub(crate) desk: Desk,
    pub(crate) slots: Vec<Option<Settled>>,
    pub(crate) watch: Watch,
}

impl Model for Console {
    ghost use Rattle.std.specs.Prelude.{◌≡◌, length};
    ghost use Rattle.desk_console.specs.Console.{ConsoleValue};

    ghost Value = { ConsoleValue };

    ghost view = { λ c. record { desk = c.desk; slots = c.slots.items; watch = c.watch } };

    ghost invariant = { λ c. length c.slots.items ≡ 32 };
}

/// Empty slots.
fn empty_slots(alloc: Global) -> Result<Vec<Option<Settled>>, AllocError>
    ensures { IfOk result (λ v. v.items ≡ replicate 32 None) }
{
    let mut slots = Vec::with_capacity(alloc, SLOT_COUNT)?;
    for _ in 0..SLOT_COUNT {
        slots.push(None)?;
    }
    Ok(slots)
}

impl Console {
    /// A new desk over a network, and empty slots.
    pub fn start(alloc: Global, net: Net) -> Result<Console, AllocError>
        ensures { IfOk result (λ c. c ≡ opening net) }
    {
        let slots = empty_slots(alloc)?;
        let desk = Desk::start(alloc, net)?;
        Ok(Console {
            desk,
            slots,
            watch: Watch::new(),
        })
    }

    /// The desk.
    pub fn desk(&self) -> &Desk
        ensures { result.now ≡ self.now.desk }
    {
        &self.desk
    }

    /// The network after all accepted events, given away.
    pub fn into_net(self) -> Net
        ensures { result ≡ net_of self }
    {
        self.desk.into_net()
    }

    /// Does what a line says, and gives its answer. It fails if memory is refused.
    pub fn answer(&mut self, alloc: Global, line: &[u8]) -> Result<Answer, AllocError>
        ensures { IfOk result (λ answer. Commands line.now self.old answer self.new) }
    {
        match read_line(alloc, line)? {
            Some(command) => self.obey(alloc, command),
            None => answer_other(alloc, line),
        }
    }
}
