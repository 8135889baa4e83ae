//! The answer to `sls`.

ghost use Rattle.std.specs.Prelude.{◌≡◌, ◌++◌, OnOk, Some, string_bytes};
ghost use Rattle.std.specs.List.{flat_map};
ghost use Rattle.answers.specs.Links.{link_text, links_text};

use crate::codes::put_number;
use profile::{LinkRef, RowLinks};
use std::alloc::AllocError;

/// Adds a link after a space, by its set and its signalling link code. It takes no memory but that of the text.
pub(crate) fn put_link(text: &mut String, link: LinkRef) -> Result<(), AllocError>
    ensures { OnOk result (string_bytes text.new ≡ string_bytes text.old ++ link_text (Some link)) }
{
    text.push(' ')?;
    put_number(text, link.id)?;
    text.push(':')?;
    put_number(text, u16::from(link.slc))
}

/// Adds a link after a space, or nothing if there is none.
fn put_selected(text: &mut String, link: Option<LinkRef>) -> Result<(), AllocError>
    ensures { OnOk result (string_bytes text.new ≡ string_bytes text.old ++ link_text link) }
{
    match link {
        Some(link) => put_link(text, link),
        None => Ok(()),
    }
}

/// Adds the sixteen links, each after a space.
fn put_each(text: &mut String, links: &RowLinks) -> Result<(), AllocError>
    ensures { OnOk result (string_bytes text.new ≡ string_bytes text.old ++ flat_map link_text links.now) }
{
    links.validity();
    for s in 0..16u8 {
        put_selected(text, links.at(s))?;
    }
    Ok(())
}

/// Adds the links of a row of a class, in rising signalling link selection.
pub(crate) fn put_links(text: &mut String, class: u8, links: &RowLinks) -> Result<(), AllocError>
    ensures { OnOk result (string_bytes text.new ≡ string_bytes text.old ++ links_text class links.now) }
{
    if class == 0 {
        return text.push_str("sls none");
    }
    text.push_str("sls")?;
    put_each(text, links)
}
