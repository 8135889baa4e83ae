//! Why a row uses what it uses: its ways.

ghost use Rattle.std.specs.Prelude.{◌≡◌, ◌∷◌, [], OnOk, codes, map};
ghost use Rattle.json.specs.Json.{array, boolean};
ghost use Rattle.json.specs.Tree.{json_tokens};
ghost use Rattle.json.specs.Value.{items_of};
ghost use Rattle.answers.specs.Status.{far_text};
ghost use Rattle.json_answers.specs.Members.{Adds, member_tokens};
ghost use Rattle.json_answers.specs.Values.{list_member, text_member};
ghost use Rattle.json_answers.specs.Objects.{down_members, offer_members, offer_reason, way_members};
ghost use Rattle.json_answers.specs.Marked.{marked_value};

use crate::members::{put_code, put_number, put_text};
use crate::shown::put_set_members;
use crate::told::{Told, put_list};
use answers::{Offer, Way, Ways, far_word};
use json::Writer;
use net_items::{Link, LinkSet};
use route_choice::Far;
use std::alloc::{AllocError, Global};
use tokens::write_marked;

/// The reason of a way over a point that an available set reaches.
fn reason_word(far: Far) -> &'static str
    ensures { result.now ≡ offer_reason far }
{
    match far {
        Far::Allowed => "ok",
        Far::Restricted => "restricted",
        Far::Prohibited => "prohibited",
    }
}

/// Writes a link with its marks.
fn put_marked(alloc: Global, writer: &mut Writer, link: Link) -> Result<(), AllocError>
    ensures { OnOk result (Adds writer.old writer.new (json_tokens (marked_value link))) }
{
    let text = write_marked(alloc, &link)?;
    writer.string(text.as_str())
}

/// Writes links with their marks as an array.
fn put_each_marked(alloc: Global, writer: &mut Writer, links: &[Link]) -> Result<(), AllocError>
    ensures { OnOk result (Adds writer.old writer.new (json_tokens (array (items_of (map marked_value links.now))))) }
{
    writer.begin_array()?;
    for link in links {
        put_marked(alloc, writer, *link)?;
    }
    writer.end_array()
}

/// Writes the links of a set with their marks.
pub fn put_marked_links(
    alloc: Global,
    writer: &mut Writer,
    links: &[Link],
) -> Result<(), AllocError>
    ensures { OnOk result (Adds writer.old writer.new (member_tokens ((codes "links", array (items_of (map marked_value links.now))) ∷ []))) }
{
    writer.key("links")?;
    put_each_marked(alloc, writer, links)
}

/// Writes a set that is down, and the status of the point beyond it.
fn put_down_set(
    alloc: Global,
    writer: &mut Writer,
    set: &LinkSet,
    far: Far,
) -> Result<(), AllocError>
    ensures { OnOk result (Adds writer.old writer.new (member_tokens (down_members set.now far))) }
{
    put_set_members(alloc, writer, set)?;
    put_text(writer, "far", far_word(far))
}

/// Writes the reason of a way over a set that is down.
fn put_down(alloc: Global, writer: &mut Writer, set: &LinkSet, far: Far) -> Result<(), AllocError>
    ensures { OnOk result (Adds writer.old writer.new (member_tokens (offer_members (Offer.Down set.now far)))) }
{
    put_text(writer, "reason", "down")?;
    put_down_set(alloc, writer, set, far)
}

/// Writes the reason of a way.
fn put_offer(alloc: Global, writer: &mut Writer, offer: &Offer) -> Result<(), AllocError>
    ensures { OnOk result (Adds writer.old writer.new (member_tokens (offer_members offer.now))) }
{
    match offer {
        Offer::Far(far) => put_text(writer, "reason", reason_word(*far)),
        Offer::Down(set, far) => put_down(alloc, writer, set, *far),
        Offer::Unjoined => Ok(()),
    }
}

/// Writes whether a way is used.
fn put_is_used(writer: &mut Writer, used: bool) -> Result<(), AllocError>
    ensures { OnOk result (Adds writer.old writer.new (member_tokens ((codes "used", boolean used) ∷ []))) }
{
    writer.key("used")?;
    writer.boolean(used)
}

impl Told for Way {
    ghost use Rattle.json_answers.specs.Objects.{way_members};

    ghost members = { way_members };

    fn put_members(&self, alloc: Global, writer: &mut Writer) -> Result<(), AllocError> {
        put_number(writer, "class", u64::from(self.class))?;
        put_code(alloc, writer, "via", self.over)?;
        put_offer(alloc, writer, &self.offer)?;
        put_is_used(writer, self.used)
    }
}

/// Writes the status of a row, and its ways.
pub fn put_why(alloc: Global, writer: &mut Writer, far: Far, ways: &Ways) -> Result<(), AllocError>
    ensures { OnOk result (Adds writer.old writer.new (member_tokens (text_member (codes "status") (far_text far) ∷ list_member (codes "ways") way_members ways.now ∷ []))) }
{
    put_text(writer, "status", far_word(far))?;
    put_list(alloc, writer, "ways", ways.as_slice())
}
