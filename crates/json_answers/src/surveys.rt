//! What single failures would take, and single repairs bring back.

ghost use Rattle.std.specs.Prelude.{◌∷◌, [], OnOk, codes};
ghost use Rattle.answers.specs.Surveys.{surveyed_text};
ghost use Rattle.json_answers.specs.Members.{Adds, member_tokens};
ghost use Rattle.json_answers.specs.Objects.{single_member, survey_members};
ghost use Rattle.json_answers.specs.Values.{text_member};

use crate::members::{put_code, put_number, put_text};
use crate::told::{Told, put_list};
use answers::surveyed_word;
use json::Writer;
use std::alloc::{AllocError, Global};
use what_if::{Effect, Single, Survey};

/// Writes the set or the point that fails or is restored.
fn put_single(alloc: Global, writer: &mut Writer, single: Single) -> Result<(), AllocError>
    ensures { OnOk result (Adds writer.old writer.new (member_tokens (single_member single ∷ []))) }
{
    match single {
        Single::SetFails(id) | Single::SetRestored(id) => put_number(writer, "set", u64::from(id)),
        Single::PointFails(code) => put_code(alloc, writer, "point", code),
    }
}

impl Told for Effect {
    ghost use Rattle.json_answers.specs.Objects.{effect_members};

    ghost members = { effect_members };

    fn put_members(&self, alloc: Global, writer: &mut Writer) -> Result<(), AllocError> {
        put_single(alloc, writer, self.single)?;
        put_number(writer, "pairs", self.pairs as u64)
    }
}

/// Writes what is surveyed.
fn put_surveyed(writer: &mut Writer, survey: &Survey) -> Result<(), AllocError>
    ensures { OnOk result (Adds writer.old writer.new (member_tokens (text_member (codes "surveyed") (surveyed_text survey.now.surveyed) ∷ []))) }
{
    put_text(writer, "surveyed", surveyed_word(survey.surveyed))
}

/// Writes a survey.
pub fn put_survey(alloc: Global, writer: &mut Writer, survey: &Survey) -> Result<(), AllocError>
    ensures { OnOk result (Adds writer.old writer.new (member_tokens (survey_members survey.now))) }
{
    put_surveyed(writer, survey)?;
    put_number(writer, "tried", survey.tried as u64)?;
    put_list(alloc, writer, "effects", survey.effects.as_slice())
}
