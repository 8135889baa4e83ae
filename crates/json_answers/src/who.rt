//! The seats of a desk with many sessions.

ghost use Rattle.std.specs.Prelude.{OnOk};
ghost use Rattle.json_answers.specs.Members.{Adds, member_tokens};
ghost use Rattle.json_answers.specs.Objects.{who_members};

use crate::members::{put_number, put_text, put_word};
use crate::told::{Told, put_list};
use answers::{SeatCount, SeatCounts};
use json::Writer;
use std::alloc::{AllocError, Global};

impl Told for SeatCount {
    ghost use Rattle.json_answers.specs.Objects.{seat_members};

    ghost members = { seat_members };

    fn put_members(&self, _alloc: Global, writer: &mut Writer) -> Result<(), AllocError> {
        put_text(writer, "name", self.name.as_str())?;
        put_number(writer, "events", self.events)
    }
}

/// Writes each seat, with how many events were accepted through it.
pub fn put_who(alloc: Global, writer: &mut Writer, counts: &SeatCounts) -> Result<(), AllocError>
    ensures { OnOk result (Adds writer.old writer.new (member_tokens (who_members counts.now))) }
{
    put_word(writer, "who")?;
    put_list(alloc, writer, "seats", counts.as_slice())
}
