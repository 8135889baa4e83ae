//! How it is told why a point uses what it uses.

ghost use Rattle.std.specs.Prelude.{◌≡◌, ◌++◌, OnOk, string_bytes};
ghost use Rattle.std.specs.List.{flat_map};
ghost use Rattle.answers.specs.Why.{class_text, down_text, far_reason, offer_text, way_text, why_text};

use crate::codes::{put_number, write_code};
use crate::ends::put_links_of;
use crate::status::far_word;
use crate::ways::{Offer, Way, Ways};
use net_items::LinkSet;
use route_choice::Far;
use std::alloc::AllocError;
use tokens::put_if;

/// What is told of a point that an available set reaches.
fn reason_word(far: Far) -> &'static str
    ensures { result.now ≡ far_reason far }
{
    match far {
        Far::Allowed => "ok",
        Far::Restricted => "far restricted",
        Far::Prohibited => "far prohibited",
    }
}

/// Adds a set that is down, with its links, and the status of the point beyond it.
fn put_down(text: &mut String, set: &LinkSet, far: Far) -> Result<(), AllocError>
    ensures { OnOk result (string_bytes text.new ≡ string_bytes text.old ++ down_text set.now far) }
{
    text.push_str("down ")?;
    put_number(text, set.id)?;
    put_links_of(text, set)?;
    text.push_str(" far ")?;
    text.push_str(far_word(far))
}

/// Adds what a point is offered over an adjacent one.
fn put_offer(text: &mut String, offer: &Offer) -> Result<(), AllocError>
    ensures { OnOk result (string_bytes text.new ≡ string_bytes text.old ++ offer_text offer.now) }
{
    match offer {
        Offer::Far(far) => text.push_str(reason_word(*far)),
        Offer::Down(set, far) => put_down(text, set, *far),
        Offer::Unjoined => Ok(()),
    }
}

/// Adds what a way is called, by its class.
fn put_class(text: &mut String, class: u8) -> Result<(), AllocError>
    ensures { OnOk result (string_bytes text.new ≡ string_bytes text.old ++ class_text class) }
{
    if class == 5 {
        return text.push_str("mate");
    }
    text.push_str("class ")?;
    put_number(text, u16::from(class))
}

/// Adds a way.
fn put_way(text: &mut String, way: &Way) -> Result<(), AllocError>
    ensures { OnOk result (string_bytes text.new ≡ string_bytes text.old ++ way_text way.now) }
{
    text.push_str(" ; ")?;
    put_class(text, way.class)?;
    text.push(' ')?;
    write_code(text, way.over)?;
    text.push(' ')?;
    put_offer(text, &way.offer)?;
    put_if(text, way.used, " used")
}

/// Adds ways, one after the other.
fn put_ways(text: &mut String, ways: &[Way]) -> Result<(), AllocError>
    ensures { OnOk result (string_bytes text.new ≡ string_bytes text.old ++ flat_map way_text ways.now) }
{
    for way in ways {
        put_way(text, way)?;
    }
    Ok(())
}

/// Adds why a point uses what it uses: its status, and its ways. It takes no memory but that of the text.
pub(crate) fn put_why(text: &mut String, far: Far, ways: &Ways) -> Result<(), AllocError>
    ensures { OnOk result (string_bytes text.new ≡ string_bytes text.old ++ why_text far ways.now) }
{
    text.push_str("why ")?;
    text.push_str(far_word(far))?;
    put_ways(text, ways.as_slice())
}
