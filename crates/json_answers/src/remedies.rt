//! The commands that restore links.

ghost use Rattle.std.specs.Prelude.{◌∷◌, [], OnOk};
ghost use Rattle.json_answers.specs.Members.{Adds, member_tokens};
ghost use Rattle.json_answers.specs.Objects.{command_members, remedy_member};

use crate::members::{put_code_if, put_null, put_text};
use crate::told::{Told, put_list};
use answers::{Action, Remedy, write_command};
use json::Writer;
use profile::LinkRef;
use std::alloc::{AllocError, Global};

/// Writes the command of a change, and the point that makes it.
fn put_command(alloc: Global, writer: &mut Writer, action: &Action) -> Result<(), AllocError>
    ensures { OnOk result (Adds writer.old writer.new (member_tokens (command_members action.now))) }
{
    let command = write_command(alloc, *action)?;
    put_text(writer, "command", command.as_str())?;
    put_code_if(alloc, writer, "by", action.by)
}

impl Told for Action {
    ghost use Rattle.json_answers.specs.Objects.{action_members};

    ghost members = { action_members };

    fn put_members(&self, alloc: Global, writer: &mut Writer) -> Result<(), AllocError> {
        let link = LinkRef {
            id: self.id,
            slc: self.slc,
        };
        link.put_members(alloc, writer)?;
        put_command(alloc, writer, self)
    }
}

/// Writes the changes that restore links, null if no restoring does it.
pub fn put_remedy(
    alloc: Global,
    writer: &mut Writer,
    remedy: &Option<Remedy>,
) -> Result<(), AllocError>
    ensures { OnOk result (Adds writer.old writer.new (member_tokens (remedy_member remedy.now ∷ []))) }
{
    match remedy {
        Some(remedy) => put_list(alloc, writer, "commands", remedy.as_slice()),
        None => put_null(writer, "commands"),
    }
}
