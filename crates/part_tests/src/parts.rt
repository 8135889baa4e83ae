//! The codes, links and sets that the tests start from.

ghost use Rattle.std.specs.Prelude.{◌≡◌};

use link_state::Marks;
use net_items::{Link, LinkSet, Links};
use point_codes::{BadCode, PointCode};
use std::test::Fail;

/// The marks of a link in service.
pub(crate) const CLEAR: Marks = Marks {
    failed: false,
    blocked_a: false,
    blocked_b: false,
    inhibited_a: false,
    inhibited_b: false,
};

/// The code that a text is.
pub(crate) fn code(text: &str) -> Result<PointCode, BadCode> {
    PointCode::parse(text.as_bytes())
}

/// A link with this code and these marks.
pub(crate) fn link(slc: u8, marks: Marks) -> Link
    ensures { result.slc ≡ slc }
{
    Link { slc, marks }
}

/// A set between two points of the links 0 and 3 with these marks.
pub(crate) fn set_between(id: u16, a: &str, b: &str, marks: [Marks; 2]) -> Result<LinkSet, Fail> {
    let (a, b) = (code(a)?, code(b)?);
    let mut links = Links::none();
    links.put(link(0, marks[0]));
    links.put(link(3, marks[1]));
    Ok(LinkSet { id, a, b, links })
}

/// A set whose link 0 is failed.
pub(crate) fn half_a_set() -> Result<LinkSet, Fail> {
    set_between(1, "0-0-1", "0-0-2", [Marks::FAILED, CLEAR])
}

/// A set of sixteen links, as many as a set may have. All are in service.
pub(crate) fn set_of_sixteen() -> Result<LinkSet, Fail> {
    let end = code("0-0-1")?;
    let mut links = Links::none();
    for slc in 0..16u8 {
        links.put(link(slc, CLEAR));
    }
    Ok(LinkSet {
        id: 1,
        a: end,
        b: end,
        links,
    })
}
