//! An explanation, and how it is written.

ghost use Rattle.std.specs.Prelude.{◌≡◌, ◌++◌, IfOk, OnOk, string_bytes};
ghost use Rattle.explanations.specs.Written.{gap_before as the_gap, end_after as the_end, meaning_text, action_text, explanation_text, title_line, titles_text};

use std::alloc::{AllocError, Global};

/// What a refusal, a fault, a cause, a complaint or a warning means, and what to do.
#[derive(Clone, Copy)]
pub struct Explanation {
    /// What is printed of it: its number and its name, or its letter and its name, or a name alone.
    pub title: &'static str,
    /// The values that are printed behind the title, by the names that the other texts give them; empty if there are none.
    pub values: &'static str,
    /// What these values are, as a sentence; empty if there are none.
    pub legend: &'static str,
    /// What it means, as a sentence.
    pub meaning: &'static str,
    /// What to do about it, as a sentence.
    pub action: &'static str,
}

/// What an explanation without values leaves empty.
pub(crate) const PLAIN: Explanation = Explanation {
    title: "",
    values: "",
    legend: "",
    meaning: "",
    action: "",
};

/// What stands between a title and its values.
fn gap_before(values: &str) -> &'static str
    ensures { result.now ≡ the_gap values.now }
{
    if values.is_empty() { "" } else { " " }
}

/// What ends a line, of a text that is left out if it is empty.
fn end_after(text: &str) -> &'static str
    ensures { result.now ≡ the_end text.now }
{
    if text.is_empty() { "" } else { "\n" }
}

/// The title of an explanation with its values, and the meaning, in a line each.
fn write_meaning(alloc: Global, explanation: &Explanation) -> Result<String, AllocError>
    ensures { IfOk result (λ text. string_bytes text ≡ meaning_text explanation.now) }
{
    let Explanation {
        title,
        values,
        meaning,
        ..
    } = *explanation;
    let gap = gap_before(values);
    format!(in alloc; "{title}{gap}{values}\n{meaning}\n")
}

/// What the values are if there are any, and what to do, in a line each.
fn write_action(alloc: Global, explanation: &Explanation) -> Result<String, AllocError>
    ensures { IfOk result (λ text. string_bytes text ≡ action_text explanation.now) }
{
    let Explanation { legend, action, .. } = *explanation;
    let end = end_after(legend);
    format!(in alloc; "{legend}{end}What to do: {action}\n")
}

/// An explanation in text: the title with its values, the meaning, what the values are if there are any, and what to do, in a
/// line each.
pub fn write_explanation(alloc: Global, explanation: &Explanation) -> Result<String, AllocError>
    ensures { IfOk result (λ text. string_bytes text ≡ explanation_text explanation.now) }
{
    let mut text = write_meaning(alloc, explanation)?;
    let action = write_action(alloc, explanation)?;
    text.push_str(action.as_str())?;
    Ok(text)
}

/// Adds the title and the meaning of an explanation as a line.
fn put_title(alloc: Global, text: &mut String, explanation: &Explanation) -> Result<(), AllocError>
    ensures { OnOk result (string_bytes text.new ≡ string_bytes text.old ++ title_line explanation.now) }
{
    let Explanation { title, meaning, .. } = *explanation;
    let line = format!(in alloc; "{title}: {meaning}\n")?;
    text.push_str(line.as_str())
}

/// The titles and the meanings of a list of explanations, a line each.
pub fn write_titles(alloc: Global, list: &[Explanation]) -> Result<String, AllocError>
    ensures { IfOk result (λ text. string_bytes text ≡ titles_text list.now) }
{
    let mut text = String::new(alloc);
    for explanation in list {
        put_title(alloc, &mut text, explanation)?;
    }
    Ok(text)
}
