//! The answer to `status`.

ghost use Rattle.std.specs.Prelude.{◌≡◌, ◌++◌, OnOk, string_bytes};
ghost use Rattle.std.specs.List.{flat_map};
ghost use Rattle.answers.specs.Status.{far_text, member_text, status_text};

use crate::codes::{put_number, write_code};
use point_codes::PointCode;
use route_choice::{Choice, Far};
use std::alloc::AllocError;

/// A status.
pub fn far_word(far: Far) -> &'static str
    ensures { result.now ≡ far_text far }
{
    match far {
        Far::Allowed => "allowed",
        Far::Restricted => "restricted",
        Far::Prohibited => "prohibited",
    }
}

/// Adds a member after a space.
fn put_member(text: &mut String, member: Option<PointCode>) -> Result<(), AllocError>
    ensures { OnOk result (string_bytes text.new ≡ string_bytes text.old ++ member_text member) }
{
    let Some(code) = member else {
        return Ok(());
    };
    text.push(' ')?;
    write_code(text, code)
}

/// Adds the members of a choice.
fn put_members(text: &mut String, members: &[Option<PointCode>]) -> Result<(), AllocError>
    ensures { OnOk result (string_bytes text.new ≡ string_bytes text.old ++ flat_map member_text members.now) }
{
    for member in members {
        put_member(text, *member)?;
    }
    Ok(())
}

/// Adds what a point uses towards a destination: its status, its class and the members of the class. It takes no memory but that of
/// the text.
pub(crate) fn put_status(text: &mut String, choice: &Choice) -> Result<(), AllocError>
    ensures { OnOk result (string_bytes text.new ≡ string_bytes text.old ++ status_text choice.now) }
{
    if choice.class == 0 {
        return text.push_str("status prohibited");
    }
    text.push_str("status ")?;
    text.push_str(far_word(choice.status))?;
    text.push_str(" class ")?;
    put_number(text, u16::from(choice.class))?;
    text.push_str(" by")?;
    put_members(text, &choice.members)
}
