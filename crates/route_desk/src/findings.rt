//! The sections of a report that tell what surveys found.

use crate::net_sentences::set_of;
use crate::page::Page;
use crate::sections::put_ends;
use answers::{name_of_warning, put_warning};
use explanations::explain_warning;
use net_data::Net;
use std::alloc::AllocError;
use what_if::{Effect, Single, Survey, Warning};

/// Adds what failed alone, and between which points it is, if it is a set.
fn put_single(page: &mut Page, net: &Net, single: Single) -> Result<(), AllocError> {
    match single {
        Single::SetFails(id) | Single::SetRestored(id) => {
            page.put_number_cell(usize::from(id))?;
            match set_of(net, id) {
                Some(set) => put_ends(page, set),
                None => page.put_cell(""),
            }
        }
        Single::PointFails(code) => page.put_code_cell(code),
    }
}

/// Adds what a single failure takes.
fn put_effect(page: &mut Page, net: &Net, effect: &Effect) -> Result<(), AllocError> {
    page.put("<tr>")?;
    put_single(page, net, effect.single)?;
    page.put_number_cell(effect.pairs)?;
    page.put("</tr>\n")
}

/// Adds what a survey found, below the heads of its table.
fn put_survey(
    page: &mut Page,
    net: &Net,
    survey: &Survey,
    heads: &str,
    kind: &str,
) -> Result<(), AllocError> {
    let effects = survey.effects.as_slice();
    let (count, tried) = (effects.len(), survey.tried);
    let text = format!(in page.alloc;
        "{count} of {tried} {kind} take something if they fail alone."
    )?;
    page.put_paragraph(text.as_str())?;
    if effects.is_empty() {
        return Ok(());
    }
    page.begin_table(heads)?;
    for effect in effects {
        put_effect(page, net, effect)?;
    }
    page.end_table()
}

/// Adds what single failures take.
pub fn put_failures(
    page: &mut Page,
    net: &Net,
    sets: &Survey,
    points: &Survey,
) -> Result<(), AllocError> {
    page.put_heading("Single failures")?;
    page.put_paragraph(
        "What is taken is told in pairs of a point and a destination: the point leads its traffic there, and would lead it no more.",
    )?;
    put_survey(
        page,
        net,
        sets,
        "<tr><th class=\"n\">Set</th><th>between</th><th class=\"n\">Pairs</th></tr>\n",
        "link sets",
    )?;
    put_survey(
        page,
        net,
        points,
        "<tr><th>Transfer point</th><th class=\"n\">Pairs</th></tr>\n",
        "transfer points",
    )
}

/// Whether a warning isn't of a single failure, which has a section of its own.
fn is_of_shape(warning: &Warning) -> bool {
    !matches!(warning, Warning::SetFails(_, _) | Warning::PointFails(_, _))
}

/// Adds a warning.
fn put_warned(page: &mut Page, warning: &Warning) -> Result<(), AllocError> {
    let mut told = String::new(page.alloc);
    put_warning(&mut told, warning)?;
    page.put_element("<tr><td>", told.as_str(), "</td></tr>\n")
}

/// Adds what a kind of warning means.
fn put_meaning(page: &mut Page, warning: &Warning) -> Result<(), AllocError> {
    let explanation = explain_warning(warning);
    page.put_element("<dt>", explanation.title, " ")?;
    page.put_words(explanation.values)?;
    page.put_element("</dt><dd>", explanation.meaning, "</dd>\n")
}

/// Adds what each kind of warning means that is among these, once.
fn put_meanings(page: &mut Page, warnings: &[Warning]) -> Result<(), AllocError> {
    let mut told = Vec::new(page.alloc);
    page.put("<dl>\n")?;
    for warning in warnings {
        let name = name_of_warning(warning);
        if is_of_shape(warning) && !told.as_slice().contains(&name) {
            told.push(name)?;
            put_meaning(page, warning)?;
        }
    }
    page.put("</dl>\n")
}

/// Adds what a planner should look at, besides single failures.
pub fn put_warnings(page: &mut Page, warnings: &[Warning]) -> Result<(), AllocError> {
    let count = warnings
        .iter()
        .filter(|warning| is_of_shape(*warning))
        .count();
    let text = format!(in page.alloc; "{count} warnings besides the single failures.")?;
    page.put_heading("Warnings")?;
    page.put_paragraph(text.as_str())?;
    if count == 0 {
        return Ok(());
    }
    put_meanings(page, warnings)?;
    page.begin_table("")?;
    for warning in warnings {
        if is_of_shape(warning) {
            put_warned(page, warning)?;
        }
    }
    page.end_table()
}
