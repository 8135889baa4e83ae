//! The answer to `survey`, and how it is told.

ghost use Rattle.std.specs.Prelude.{◌≡◌, ◌++◌, IfOk, OnOk, string_bytes};
ghost use Rattle.std.specs.List.{flat_map};
ghost use Rattle.what_if.specs.Survey.{survey_listed as the_survey};
ghost use Rattle.answers.specs.Surveys.{effect_text, single_text, survey_answer, survey_text, surveyed_text};

use crate::answer::{Answer, NetAnswer, Reason};
use crate::boxed::Boxed;
use crate::codes::{put_number, put_numbered, write_code};
use net_building::{Listed, Surveyed};
use net_versions::Version;
use std::alloc::{AllocError, Global};
use what_if::{Effect, Single, Survey, survey_listed};

/// The word of what is surveyed.
pub fn surveyed_word(what: Surveyed) -> &'static str
    ensures { result.now ≡ surveyed_text what }
{
    match what {
        Surveyed::Sets => "sets",
        Surveyed::Points => "points",
        Surveyed::Down => "down",
    }
}

/// Adds the set or the point that fails or is restored.
fn put_single(text: &mut String, single: Single) -> Result<(), AllocError>
    ensures { OnOk result (string_bytes text.new ≡ string_bytes text.old ++ single_text single) }
{
    match single {
        Single::SetFails(id) | Single::SetRestored(id) => put_number(text, id),
        Single::PointFails(code) => write_code(text, code),
    }
}

/// Adds what has an effect after a space.
fn put_effect(text: &mut String, effect: &Effect) -> Result<(), AllocError>
    ensures { OnOk result (string_bytes text.new ≡ string_bytes text.old ++ effect_text effect.now) }
{
    text.push(' ')?;
    put_single(text, effect.single)?;
    put_numbered(text, ":", effect.pairs as u64)
}

/// Adds all that has an effect, each after a space.
fn put_effects(text: &mut String, effects: &[Effect]) -> Result<(), AllocError>
    ensures { OnOk result (string_bytes text.new ≡ string_bytes text.old ++ flat_map effect_text effects.now) }
{
    for effect in effects {
        put_effect(text, effect)?;
    }
    Ok(())
}

/// Adds a survey. It takes no memory but that of the text.
pub(crate) fn put_survey(text: &mut String, survey: &Survey) -> Result<(), AllocError>
    ensures { OnOk result (string_bytes text.new ≡ string_bytes text.old ++ survey_text survey.now) }
{
    text.push_str("survey ")?;
    text.push_str(surveyed_word(survey.surveyed))?;
    put_numbered(text, " ", survey.tried as u64)?;
    put_effects(text, survey.effects.as_slice())
}

/// What each single failure would take, or each single repair bring back, of the network of a version after a list of events, which may
/// be empty. The first entry that is refused is told, with its place (own, after Q.704 clause 10). It fails if memory is refused.
pub fn answer_survey(
    alloc: Global,
    version: &Version,
    what: Surveyed,
    entries: &[Listed],
) -> Result<Answer, AllocError>
    ensures { IfOk result (λ answer. answer ≡ survey_answer (the_survey what version.now.network entries.now)) }
{
    match survey_listed(alloc, version, what, entries)? {
        Ok(survey) => Ok(Answer::Net(NetAnswer::Survey(Boxed::new(alloc, survey)?))),
        Err(refused) => Ok(Answer::Refused(Reason::Event(refused))),
    }
}
