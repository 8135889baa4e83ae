//! What the rows of a plan are looked at with.

ghost use Rattle.std.specs.Prelude.{◌≡◌};
ghost use Rattle.plan_rows.specs.Settings.{IsSetting};
ghost use Rattle.plan_rows.specs.Rows.{has_lower_row, has_equal_row};
ghost use Rattle.net_items.specs.Lookups.{is_stp as stp, mate_of as mate};

use crate::ranks::{has_lower, has_same};
use net_items::lookups::mate_of;
use net_items::{Point, Row};
use point_codes::PointCode;
use std::marker::Model;

/// A plan's destination and rows, and the points, with a table of the transfer points and one of the least ranks.
#[derive(Drop)]
pub struct Setting<'a> {
    points: &'a [Point],
    transfers: &'a [bool],
    dest: PointCode,
    rows: &'a [Row],
    ranks: &'a [u16],
}

impl<'a> Model for Setting<'a> {
    ghost use Rattle.plan_rows.specs.Settings.{SettingValue, IsSetting};

    ghost Value = { SettingValue };

    ghost view = { λ s. record { points = s.points.now; dest = s.dest; rows = s.rows.now } };

    ghost invariant = { λ s. IsSetting s.points.now s.transfers.now s.rows.now s.ranks.now };
}

impl<'a> Setting<'a> {
    /// The setting of a plan, with its tables.
    pub fn new(
        points: &'a [Point],
        transfers: &'a [bool],
        dest: PointCode,
        rows: &'a [Row],
        ranks: &'a [u16],
    ) -> Setting<'a>
        requires { IsSetting points.now transfers.now rows.now ranks.now }
        ensures { result ≡ record { points = points.entry.now; dest = dest; rows = rows.entry.now } }
    {
        Setting {
            points,
            transfers,
            dest,
            rows,
            ranks,
        }
    }

    /// The destination.
    pub fn dest(&self) -> PointCode
        ensures { result ≡ self.now.dest }
    {
        self.dest
    }

    /// Whether a point is a transfer point.
    pub fn is_stp(&self, point: PointCode) -> bool
        ensures { result ≡ stp self.now.points point }
    {
        self.transfers[point.number() as usize]
    }

    /// The mate of a point.
    pub fn mate_of(&self, point: PointCode) -> Option<PointCode>
        ensures { result ≡ mate self.now.points point }
    {
        if self.is_stp(point) {
            mate_of(self.points, point)
        } else {
            None
        }
    }

    /// Whether a point has a row of lower rank.
    pub fn has_lower_row(&self, point: PointCode, rank: u8) -> bool
        ensures { result ≡ has_lower_row self.now.rows point rank }
    {
        has_lower(self.ranks, self.rows, point, rank)
    }

    /// Whether a point has a row of that rank.
    pub fn has_equal_row(&self, point: PointCode, rank: u8) -> bool
        ensures { result ≡ has_equal_row self.now.rows point rank }
    {
        has_same(self.ranks, self.rows, point, rank)
    }
}
