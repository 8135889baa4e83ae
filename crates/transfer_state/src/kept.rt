//! What is kept of what a row uses: a byte a row. The members are found again in the row and its mate.

ghost use Rattle.std.specs.Prelude.{◌≡◌, ◌<◌};
ghost use Rattle.excerpts.specs.Excerpt.{source_of};
ghost use Rattle.transfer_state.specs.Kept.{member_in, used_member, opened, status_number};

use excerpts::Excerpt;
use net_items::Row;
use point_codes::PointCode;
use route_choice::{Choice, Far};
use std::marker::Model;

/// What is kept of a row's choice: the class that it uses, which of its members, and the status (own).
#[derive(Clone, Copy, PartialEq, Eq, Drop)]
pub struct Kept {
    /// The class in four bits, a bit for each place of a member, and the status in two.
    byte: u8,
}

impl Model for Kept {
    ghost use Rattle.std.specs.Prelude.{◌<◌, ◌%◌};
    ghost use Rattle.transfer_state.specs.Kept.{KeptValue, packed, unpacked};

    ghost Value = { KeptValue };

    ghost view = { λ k. unpacked k.byte };

    ghost invariant = { λ k. k.byte % 4 < 3 };

    ghost inverse = { λ v. record { byte = packed v } };
}

/// The number that stands for a status.
fn number_of(status: Far) -> u8
    ensures { result ≡ status_number status }
{
    match status {
        Far::Allowed => 0,
        Far::Restricted => 1,
        Far::Prohibited => 2,
    }
}

impl Kept {
    ghost use Rattle.transfer_state.specs.Kept.{kept, kept_first};

    /// What is kept of a choice, whose class is below 16.
    pub fn of(choice: &Choice) -> Kept
        requires { choice.now.class < 16 }
        ensures { result ≡ kept choice.now }
    {
        let first = u8::from(choice.members[0].is_some());
        let second = u8::from(choice.members[1].is_some());
        Kept {
            byte: choice.class * 16 + first * 8 + second * 4 + number_of(choice.status),
        }
    }

    /// What is kept of the first class with an allowed via, which of its two vias are used.
    pub(crate) fn of_first(first: bool, second: bool) -> Kept
        ensures { result ≡ kept_first first second }
    {
        Kept {
            byte: 16 + u8::from(first) * 8 + u8::from(second) * 4,
        }
    }

    /// The class in use, 0 to 5.
    pub(crate) fn class(self) -> u8
        ensures { result ≡ self.class }
    {
        self.byte / 16
    }

    /// Whether the member in the first place is used.
    pub(crate) fn uses_first(self) -> bool
        ensures { result ≡ self.first }
    {
        self.byte / 8 % 2 == 1
    }

    /// Whether the member in the second place is used.
    pub(crate) fn uses_second(self) -> bool
        ensures { result ≡ self.second }
    {
        self.byte / 4 % 2 == 1
    }

    /// The status.
    pub(crate) fn status(self) -> Far
        ensures { result ≡ self.status }
    {
        match self.byte % 4 {
            0 => Far::Allowed,
            1 => Far::Restricted,
            _ => Far::Prohibited,
        }
    }
}

/// The member that a row has in a place of a class, 0 or 1: the mate in class 5, and a via of the class else.
fn member_of(e: &Excerpt, row: &Row, class: u8, position: usize) -> Option<PointCode>
    ensures { result ≡ member_in (source_of e.now) row.now class position }
{
    if class == 5 {
        return e.mate_of(row.point);
    }
    let at = usize::from(class).saturating_sub(1);
    let vias = row.classes.as_slice().get(at)?;
    vias.as_slice().get(position).copied()
}

/// The member that a row uses in a place of a class, 0 or 1.
pub(crate) fn used(
    e: &Excerpt,
    row: &Row,
    class: u8,
    is_used: bool,
    position: usize,
) -> Option<PointCode>
    ensures { result ≡ used_member (source_of e.now) row.now class is_used position }
{
    if is_used {
        member_of(e, row, class, position)
    } else {
        None
    }
}

/// The choice of a row by what is kept of it.
pub(crate) fn opened_choice(e: &Excerpt, row: &Row, kept: Kept) -> Choice
    ensures { result ≡ opened (source_of e.now) row.now kept }
{
    let class = kept.class();
    Choice {
        class,
        members: [
            used(e, row, class, kept.uses_first(), 0),
            used(e, row, class, kept.uses_second(), 1),
        ],
        status: kept.status(),
    }
}
