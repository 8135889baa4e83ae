//! The sections of a report.

use crate::net_sentences::set_of;
use crate::page::Page;
use answers::{Answer, NetSize, Shown, StatusCounts, answer_shown};
use link_state::Marks;
use net_data::Net;
use net_items::LinkSet;
use net_versions::Version;
use pictures::write_svg;
use point_codes::PointCode;
use script_words::Show;
use std::alloc::{AllocError, Global};
use what_if::SetLink;

/// So many points a network has at most whose report has a picture for each destination.
const MOST_DRAWN: usize = 60;

/// So many points a network has at most whose picture can be read in the width of the page.
const MOST_FITTED: usize = 100;

/// Adds how large a network is.
fn put_size(page: &mut Page, size: &NetSize) -> Result<(), AllocError> {
    let NetSize {
        points,
        sets,
        links,
        down,
        plans,
        tfr,
    } = *size;
    let messages = if tfr { "on" } else { "off" };
    let text = format!(in page.alloc;
        "Points: {points}. Link sets: {sets}, with links: {links}; not available: {down}. Planned destinations: {plans}. Transfer-restricted messages: {messages}."
    )?;
    page.put_paragraph(text.as_str())
}

/// What a picture stands in, which is moved sideways where it is too wide.
fn picture_box(net: &Net) -> &'static str {
    if net.points().len() > MOST_FITTED {
        return "<div class=\"wide large\">\n";
    }
    "<div class=\"wide\">\n"
}

/// Adds the picture of a version's network, about a destination if one is named.
fn put_picture(
    page: &mut Page,
    version: &Version,
    about: Option<PointCode>,
) -> Result<(), AllocError> {
    match write_svg(page.alloc, version.net(), about, None) {
        Ok(picture) => {
            page.put(picture_box(version.net().net()))?;
            page.put(picture.as_str())?;
            page.put("</div>\n")
        }
        Err(_) => Err(AllocError),
    }
}

/// Adds how large a network is, by the answer to that.
fn put_size_shown(page: &mut Page, answer: &Answer) -> Result<(), AllocError> {
    let Answer::Shown(shown) = answer else {
        return Ok(());
    };
    match shown.get() {
        Shown::Size(size) => put_size(page, size),
        _ => Ok(()),
    }
}

/// Adds how large a version's network is.
fn put_size_of(page: &mut Page, version: &Version) -> Result<(), AllocError> {
    let answer = answer_shown(page.alloc, version, Show::Size)?;
    put_size_shown(page, &answer)
}

/// Adds size and picture of a version's network.
pub fn put_overview(
    page: &mut Page,
    version: &Version,
    about: Option<PointCode>,
) -> Result<(), AllocError> {
    put_size_of(page, version)?;
    put_picture(page, version, about)
}

/// Adds a mark of a link that an end set, if it did.
fn put_mark(
    alloc: Global,
    text: &mut String,
    is_set: bool,
    mark: &str,
    by: PointCode,
) -> Result<(), AllocError> {
    if !is_set {
        return Ok(());
    }
    if !text.is_empty() {
        text.push_str(", ")?;
    }
    text.push_str(mark)?;
    by.put_text(alloc, text)
}

/// The marks of a link in words, with the ends that set them.
fn write_marks(alloc: Global, marks: Marks, set: &LinkSet) -> Result<String, AllocError> {
    let mut text = String::new(alloc);
    if marks.failed {
        text.push_str("failed")?;
    }
    put_mark(alloc, &mut text, marks.blocked_a, "blocked by ", set.a)?;
    put_mark(alloc, &mut text, marks.blocked_b, "blocked by ", set.b)?;
    put_mark(alloc, &mut text, marks.inhibited_a, "inhibited by ", set.a)?;
    put_mark(alloc, &mut text, marks.inhibited_b, "inhibited by ", set.b)?;
    Ok(text)
}

/// Adds a cell with the two ends of a set.
pub fn put_ends(page: &mut Page, set: &LinkSet) -> Result<(), AllocError> {
    let (a, b) = (set.a, set.b);
    let ends = format!(in page.alloc; "{a} and {b}")?;
    page.put_cell(ends.as_str())
}

/// Adds a link that isn't available.
fn put_down_link(page: &mut Page, net: &Net, link: &SetLink) -> Result<(), AllocError> {
    let Some(set) = set_of(net, link.id) else {
        return Ok(());
    };
    let marks = write_marks(page.alloc, link.link.marks, set)?;
    page.put("<tr>")?;
    page.put_number_cell(usize::from(link.id))?;
    put_ends(page, set)?;
    page.put_number_cell(usize::from(link.link.slc))?;
    page.put_cell(marks.as_str())?;
    page.put("</tr>\n")
}

/// Adds links that aren't available.
fn put_down_links(page: &mut Page, net: &Net, links: &[SetLink]) -> Result<(), AllocError> {
    if links.is_empty() {
        return page.put_paragraph("Each link is available.");
    }
    page.begin_table(
        "<tr><th class=\"n\">Set</th><th>between</th><th class=\"n\">Link</th><th>is</th></tr>\n",
    )?;
    for link in links {
        put_down_link(page, net, link)?;
    }
    page.end_table()
}

/// Adds which links aren't available, by the answer to that.
fn put_down_shown(page: &mut Page, net: &Net, answer: &Answer) -> Result<(), AllocError> {
    let Answer::Shown(shown) = answer else {
        return Ok(());
    };
    match shown.get() {
        Shown::Down(links) => put_down_links(page, net, links.as_slice()),
        _ => Ok(()),
    }
}

/// Adds which links of a version's network aren't available.
pub fn put_down(page: &mut Page, version: &Version) -> Result<(), AllocError> {
    page.put_heading("Links that aren't available")?;
    let answer = answer_shown(page.alloc, version, Show::Down)?;
    put_down_shown(page, version.net().net(), &answer)
}

/// Adds how many points reach a destination.
fn put_counts(page: &mut Page, dest: PointCode, counts: &StatusCounts) -> Result<(), AllocError> {
    page.put("<tr>")?;
    page.put_code_cell(dest)?;
    page.put_number_cell(counts.allowed)?;
    page.put_number_cell(counts.restricted)?;
    page.put_number_cell(counts.prohibited)?;
    page.put("</tr>\n")
}

/// Adds how many points reach a destination, by the answer to that.
fn put_counts_shown(page: &mut Page, dest: PointCode, answer: &Answer) -> Result<(), AllocError> {
    let Answer::Shown(shown) = answer else {
        return Ok(());
    };
    match shown.get() {
        Shown::Statuses(counts, _) => put_counts(page, dest, counts),
        _ => Ok(()),
    }
}

/// Adds how many points of its plan reach a destination.
fn put_destination(page: &mut Page, version: &Version, dest: PointCode) -> Result<(), AllocError> {
    let answer = answer_shown(page.alloc, version, Show::Statuses(dest))?;
    put_counts_shown(page, dest, &answer)
}

/// Adds how many points reach each destination.
pub fn put_destinations(page: &mut Page, version: &Version) -> Result<(), AllocError> {
    page.put_heading("Destinations")?;
    page.put(
        "<div class=\"wide\"><table><caption>How many points lead their traffic to each: allowed, restricted (over a way that others had better not use), or not at all</caption>\n",
    )?;
    page.put(
        "<tr><th>Destination</th><th class=\"n\">allowed</th><th class=\"n\">restricted</th><th class=\"n\">not at all</th></tr>\n",
    )?;
    let plans = version.net().net().plans();
    for position in 0..plans.len() {
        put_destination(page, version, plans.at(position).dest)?;
    }
    page.end_table()
}

/// Adds the picture of a destination, to be opened.
fn put_folded(page: &mut Page, version: &Version, dest: PointCode) -> Result<(), AllocError> {
    let summary = format!(in page.alloc; "Traffic to {dest}")?;
    page.put_element("<details><summary>", summary.as_str(), "</summary>\n")?;
    put_picture(page, version, Some(dest))?;
    page.put("</details>\n")
}

/// Adds a picture for each destination, if the network isn't too large for that.
pub fn put_pictures(page: &mut Page, version: &Version) -> Result<(), AllocError> {
    let net = version.net().net();
    if net.points().len() > MOST_DRAWN {
        return Ok(());
    }
    page.put_heading("How traffic goes")?;
    let plans = net.plans();
    for position in 0..plans.len() {
        put_folded(page, version, plans.at(position).dest)?;
    }
    Ok(())
}
