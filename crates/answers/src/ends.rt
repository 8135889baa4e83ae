//! Links with their marks, each mark by the end of the set that it is of.

ghost use Rattle.std.specs.Prelude.{◌≡◌, ◌++◌, ◌∷◌, OnOk, string_bytes};
ghost use Rattle.std.specs.List.{flat_map};
ghost use Rattle.answers.specs.Ends.{link_word, links_words, mark_word, marks_word};

use crate::codes::{put_number, write_code};
use link_state::Marks;
use net_items::{Link, LinkSet};
use point_codes::PointCode;
use std::alloc::AllocError;
use tokens::put_if;

/// Adds a mark of an end, if it is there: its name, and the code of that end.
fn put_mark(
    text: &mut String,
    name: &str,
    code: PointCode,
    is_there: bool,
) -> Result<(), AllocError>
    ensures { OnOk result (string_bytes text.new ≡ string_bytes text.old ++ mark_word name.now code is_there) }
{
    if !is_there {
        return Ok(());
    }
    text.push_str(name)?;
    write_code(text, code)
}

/// Adds the marks of a link between two ends.
fn put_marks(text: &mut String, a: PointCode, b: PointCode, marks: Marks) -> Result<(), AllocError>
    ensures { OnOk result (string_bytes text.new ≡ string_bytes text.old ++ marks_word a b marks) }
{
    put_if(text, marks.failed, ":failed")?;
    put_mark(text, ":blocked@", a, marks.blocked_a)?;
    put_mark(text, ":blocked@", b, marks.blocked_b)?;
    put_mark(text, ":inhibited@", a, marks.inhibited_a)?;
    put_mark(text, ":inhibited@", b, marks.inhibited_b)
}

/// Adds a link between two ends, with its marks. It takes no memory but that of the text.
pub(crate) fn put_link(
    text: &mut String,
    a: PointCode,
    b: PointCode,
    link: Link,
) -> Result<(), AllocError>
    ensures { OnOk result (string_bytes text.new ≡ string_bytes text.old ++ link_word a b link) }
{
    put_number(text, u16::from(link.slc))?;
    put_marks(text, a, b, link.marks)
}

/// Adds the links of a set with their marks, each after a space. It takes no memory but that of the text.
pub(crate) fn put_links_of(text: &mut String, set: &LinkSet) -> Result<(), AllocError>
    ensures { OnOk result (string_bytes text.new ≡ string_bytes text.old ++ links_words set.now) }
{
    let links = set.links.listed();
    for link in links.as_slice() {
        text.push(' ')?;
        put_link(text, set.a, set.b, *link)?;
    }
    Ok(())
}
