//! The answer to `mend`.

ghost use Rattle.std.specs.Prelude.{◌≡◌, ◌++◌, OnOk, string_bytes};
ghost use Rattle.std.specs.List.{flat_map};
ghost use Rattle.answers.specs.Mend.{mend_text, set_link_word};

use crate::codes::put_number;
use std::alloc::{AllocError, Global};
use tokens::write_marked;
use what_if::{Mend, SetLink};

/// Adds a link with its set and its marks after a space.
fn put_set_link(alloc: Global, text: &mut String, link: SetLink) -> Result<(), AllocError>
    ensures { OnOk result (string_bytes text.new ≡ string_bytes text.old ++ set_link_word link) }
{
    let word = write_marked(alloc, &link.link)?;
    text.push_str(" ")?;
    put_number(text, link.id)?;
    text.push_str(":")?;
    text.push_str(word.as_str())?;
    Ok(())
}

/// Adds links with their sets and marks, each after a space.
pub(crate) fn put_set_links(
    alloc: Global,
    text: &mut String,
    links: &[SetLink],
) -> Result<(), AllocError>
    ensures { OnOk result (string_bytes text.new ≡ string_bytes text.old ++ flat_map set_link_word links.now) }
{
    for link in links {
        put_set_link(alloc, text, *link)?;
    }
    Ok(())
}

/// Adds the links that have to be restored, if restoring does it.
pub(crate) fn put_mend(
    alloc: Global,
    text: &mut String,
    mend: &Option<Mend>,
) -> Result<(), AllocError>
    ensures { OnOk result (string_bytes text.new ≡ string_bytes text.old ++ mend_text mend.now) }
{
    let Some(mend) = mend else {
        return text.push_str("mend none");
    };
    let links = mend.as_slice();
    if links.is_empty() {
        return text.push_str("mend ok");
    }
    text.push_str("mend")?;
    put_set_links(alloc, text, links)
}
