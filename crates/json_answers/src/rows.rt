//! What is told of a row.

ghost use Rattle.std.specs.Prelude.{◌≡◌, ◌∷◌, [], true, OnOk, codes, map};
ghost use Rattle.std.specs.List.{flat_map};
ghost use Rattle.json.specs.Json.{array};
ghost use Rattle.json.specs.Tree.{json_tokens};
ghost use Rattle.json.specs.Value.{items_of};
ghost use Rattle.json_answers.specs.Members.{Adds, item_tokens, member_tokens};
ghost use Rattle.json_answers.specs.Values.{word_member};
ghost use Rattle.json_answers.specs.Objects.{link_items, links_value, mend_member, octet_value, octets_value, row_members, row_values, row_word, unused_members, used_members, via_items};

use crate::members::{put_code, put_null, put_number, put_set, put_text, put_word};
use crate::remedies::put_remedy;
use crate::told::{Told, put_list, put_object};
use crate::ways::put_why;
use answers::{RowAnswer, far_word, hex_digit, kind_word};
use json::Writer;
use point_codes::PointCode;
use profile::{LinkRef, Message, RowLinks};
use route_choice::Choice;
use std::alloc::{AllocError, Global};
use tokens::write_marked;
use what_if::{Mend, SetLink};

/// Writes a point as an item, none at a place without one.
fn put_via(alloc: Global, writer: &mut Writer, via: Option<PointCode>) -> Result<(), AllocError>
    ensures { OnOk result (Adds writer.old writer.new (item_tokens (via_items via))) }
{
    let Some(code) = via else {
        return Ok(());
    };
    let text = format!(in alloc; "{code}")?;
    writer.string(text.as_str())
}

/// Writes points as an array.
fn put_vias(
    alloc: Global,
    writer: &mut Writer,
    vias: &[Option<PointCode>],
) -> Result<(), AllocError>
    ensures { OnOk result (Adds writer.old writer.new (json_tokens (array (items_of (flat_map via_items vias.now))))) }
{
    writer.begin_array()?;
    for via in vias {
        put_via(alloc, writer, *via)?;
    }
    writer.end_array()
}

/// Writes that a row uses no class.
fn put_unused(writer: &mut Writer) -> Result<(), AllocError>
    ensures { OnOk result (Adds writer.old writer.new (member_tokens unused_members)) }
{
    put_text(writer, "status", "prohibited")?;
    put_null(writer, "class")?;
    writer.key("by")?;
    writer.begin_array()?;
    writer.end_array()
}

/// Writes the class that a row uses.
fn put_used(alloc: Global, writer: &mut Writer, choice: &Choice) -> Result<(), AllocError>
    ensures { OnOk result (Adds writer.old writer.new (member_tokens (used_members choice.now))) }
{
    put_text(writer, "status", far_word(choice.status))?;
    put_number(writer, "class", u64::from(choice.class))?;
    writer.key("by")?;
    put_vias(alloc, writer, &choice.members)
}

impl Told for Choice {
    ghost use Rattle.json_answers.specs.Objects.{choice_members};

    ghost members = { choice_members };

    fn put_members(&self, alloc: Global, writer: &mut Writer) -> Result<(), AllocError> {
        if self.class == 0 {
            return put_unused(writer);
        }
        put_used(alloc, writer, self)
    }
}

impl Told for LinkRef {
    ghost use Rattle.json_answers.specs.Objects.{link_members};

    ghost members = { link_members };

    fn put_members(&self, _alloc: Global, writer: &mut Writer) -> Result<(), AllocError> {
        put_set(writer, self.id)?;
        put_number(writer, "link", u64::from(self.slc))
    }
}

/// Writes the link of a signalling link selection as an item, none if there is none.
fn put_selected(alloc: Global, writer: &mut Writer, link: Option<LinkRef>) -> Result<(), AllocError>
    ensures { OnOk result (Adds writer.old writer.new (item_tokens (link_items link))) }
{
    match link {
        Some(link) => put_object(alloc, writer, &link),
        None => Ok(()),
    }
}

/// Writes the sixteen links as an array.
fn put_each_link(alloc: Global, writer: &mut Writer, links: &RowLinks) -> Result<(), AllocError>
    ensures { OnOk result (Adds writer.old writer.new (json_tokens (array (items_of (flat_map link_items links.now))))) }
{
    links.validity();
    writer.begin_array()?;
    for s in 0..16u8 {
        put_selected(alloc, writer, links.at(s))?;
    }
    writer.end_array()
}

/// Writes the links of a row of a class.
fn put_links(
    alloc: Global,
    writer: &mut Writer,
    class: u8,
    links: &RowLinks,
) -> Result<(), AllocError>
    ensures { OnOk result (Adds writer.old writer.new (member_tokens ((codes "links", links_value class links.now) ∷ []))) }
{
    if class == 0 {
        return put_null(writer, "links");
    }
    writer.key("links")?;
    put_each_link(alloc, writer, links)
}

impl Told for Message {
    ghost use Rattle.json_answers.specs.Objects.{message_members};

    ghost members = { message_members };

    fn put_members(&self, alloc: Global, writer: &mut Writer) -> Result<(), AllocError> {
        put_text(writer, "message", kind_word(self.kind))?;
        put_code(alloc, writer, "to", self.to)
    }
}

/// Writes an octet in two hexadecimal digits.
fn put_octet(alloc: Global, writer: &mut Writer, octet: u8) -> Result<(), AllocError>
    ensures { OnOk result (Adds writer.old writer.new (json_tokens (octet_value octet))) }
{
    let mut digits = String::new(alloc);
    digits.push(hex_digit(octet / 16))?;
    digits.push(hex_digit(octet % 16))?;
    writer.string(digits.as_str())
}

/// Writes octets as an array.
fn put_each_octet(alloc: Global, writer: &mut Writer, octets: &[u8]) -> Result<(), AllocError>
    ensures { OnOk result (Adds writer.old writer.new (json_tokens (array (items_of (map octet_value octets.now))))) }
{
    writer.begin_array()?;
    for octet in octets {
        put_octet(alloc, writer, *octet)?;
    }
    writer.end_array()
}

/// Writes the octets of a message, null if there is none.
fn put_octets(
    alloc: Global,
    writer: &mut Writer,
    octets: &Option<[u8; 8]>,
) -> Result<(), AllocError>
    ensures { OnOk result (Adds writer.old writer.new (member_tokens ((codes "octets", octets_value octets.now) ∷ []))) }
{
    let Some(octets) = octets else {
        return put_null(writer, "octets");
    };
    writer.key("octets")?;
    put_each_octet(alloc, writer, octets)
}

impl Told for SetLink {
    ghost use Rattle.json_answers.specs.Marked.{mend_members};

    ghost members = { mend_members };

    fn put_members(&self, alloc: Global, writer: &mut Writer) -> Result<(), AllocError> {
        let marked = write_marked(alloc, &self.link)?;
        put_set(writer, self.id)?;
        put_text(writer, "marked", marked.as_str())
    }
}

/// Writes the links that have to be restored, null if no restoring does it.
fn put_mend(alloc: Global, writer: &mut Writer, mend: &Option<Mend>) -> Result<(), AllocError>
    ensures { OnOk result (Adds writer.old writer.new (member_tokens (mend_member mend.now ∷ []))) }
{
    match mend {
        Some(mend) => put_list(alloc, writer, "links", mend.as_slice()),
        None => put_null(writer, "links"),
    }
}

/// Writes the word of what is told of a row.
fn put_row_word(writer: &mut Writer, row: &RowAnswer) -> Result<(), AllocError>
    ensures { OnOk result (Adds writer.old writer.new (member_tokens (word_member (row_word row.now) ∷ []))) }
{
    put_word(
        writer,
        match row {
            RowAnswer::Status(_) => "status",
            RowAnswer::Links(_, _) => "sls",
            RowAnswer::Messages(_) => "messages",
            RowAnswer::Octets(_) => "octets",
            RowAnswer::Why(_, _) => "why",
            RowAnswer::Mend(_) => "mend",
            RowAnswer::Remedy(_) => "remedy",
        },
    )
}

/// Writes what is told of a row behind its word.
fn put_row_values(alloc: Global, writer: &mut Writer, row: &RowAnswer) -> Result<(), AllocError>
    ensures { OnOk result (Adds writer.old writer.new (member_tokens (row_values row.now))) }
{
    match row {
        RowAnswer::Status(choice) => choice.put_members(alloc, writer),
        RowAnswer::Links(class, links) => put_links(alloc, writer, *class, links),
        RowAnswer::Messages(messages) => {
            put_list(alloc, writer, "messages", messages.as_slice())
        }
        RowAnswer::Octets(octets) => put_octets(alloc, writer, octets),
        RowAnswer::Why(far, ways) => put_why(alloc, writer, *far, ways),
        RowAnswer::Mend(mend) => put_mend(alloc, writer, mend),
        RowAnswer::Remedy(remedy) => put_remedy(alloc, writer, remedy),
    }
}

/// Writes what is told of a row.
pub fn put_row(alloc: Global, writer: &mut Writer, row: &RowAnswer) -> Result<(), AllocError>
    ensures { OnOk result (Adds writer.old writer.new (member_tokens (row_members row.now))) }
{
    put_row_word(writer, row)?;
    put_row_values(alloc, writer, row)
}
