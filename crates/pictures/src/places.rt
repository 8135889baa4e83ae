//! Where the points stand in a picture.

ghost use Rattle.std.specs.Prelude.{◌≡◌, ◌≤◌, ◌<◌, ◌==◌, IfOk, find, length};
ghost use Rattle.std.specs.Option.{option_copied, IfSome};
ghost use Rattle.pictures.specs.Layout.{end_spot as spot_of_end, frame_of, hub_spot as spot_of_hub, hub_x as x_of_hub, index_of as the_index, is_above as stands_above, lone_spot as spot_of_lone, paired_spot as spot_of_paired, place_in as the_place_in, places_of as the_places, rank_spot as spot_in_rank, rank_x as x_in_rank, side_count as count_on_side, side_of as the_side, spot_at as the_spot_at, spot_of as the_spot, stp_spot as spot_of_stp, transit_spot as spot_of_transit};

use crate::frame::Frame;
use crate::stands::{Stand, end_count, ends_before, is_transfer};
use net_items::Point;
use point_codes::PointCode;
use std::alloc::{AllocError, Global};
use std::fmt;

/// A spot in a picture, in pixels from its upper left corner.
#[derive(Clone, Copy)]
pub(crate) struct Spot {
    /// How far to the right.
    pub(crate) x: u32,
    /// How far down.
    pub(crate) y: u32,
}

impl fmt::Display for Spot {
    ghost use Rattle.std.specs.Prelude.{Some};
    ghost use Rattle.pictures.specs.Curves.{spot_text};

    ghost output = { λ s. Some (spot_text s) };

    fn fmt<W: fmt::Write>(&self, f: &mut fmt::Formatter<W>) -> fmt::Result {
        let x = self.x;
        let y = self.y;
        write!(f, "{x} {y}")
    }
}

/// A point with its spot.
#[derive(Clone, Copy)]
pub(crate) struct Place {
    /// The point.
    pub(crate) code: PointCode,
    /// Where it stands.
    pub(crate) spot: Spot,
}

/// The upper left corner.
const CORNER: Spot = Spot { x: 0, y: 0 };

/// The place of a pair in a list.
fn index_of(pairs: &[PointCode], head: PointCode) -> Option<usize>
    ensures value { result ≡ the_index pairs.now head }
    ensures within { IfSome result (λ i. i < length pairs.now) }
{
    pairs.iter().position(|pair| *pair == head)
}

/// How far to the right a transfer point stands of where its pair begins.
fn side_of(point: &Point) -> usize
    ensures value { result ≡ the_side point.now }
    ensures within { result ≤ 180 }
{
    match point.mate {
        Some(mate) if point.code.number() < mate.number() => 0,
        Some(_) => 180,
        None => 90,
    }
}

/// Whether a pair stands above the middle.
fn is_above(frame: &Frame, at: usize) -> bool
    ensures { result ≡ stands_above frame.now at }
{
    at < frame.half()
}

/// The place of a pair among those on its side of the middle.
fn place_in(frame: &Frame, at: usize) -> usize
    requires { at ≤ 1024 }
    ensures value { result ≡ the_place_in frame.now at }
    ensures few { result ≤ 1024 }
{
    if at < frame.half() {
        at
    } else {
        at - frame.half()
    }
}

/// How many pairs stand on its side of the middle.
fn side_count(frame: &Frame, at: usize) -> usize
    ensures value { result ≡ count_on_side frame.now at }
    ensures few { result ≤ 1024 }
{
    if at < frame.half() {
        frame.half()
    } else {
        frame.rest()
    }
}

/// The middle of the place of a pair with end points.
fn hub_x(frame: &Frame, at: usize) -> usize
    requires { at ≤ 1024 }
    ensures value { result ≡ x_of_hub frame.now at }
    ensures low { result ≤ 40000 }
    ensures inside { 225 ≤ result }
{
    let wide = frame.cell_width();
    frame.cell_left(wide, place_in(frame, at), side_count(frame, at)) + wide / 2
}

/// Where a transfer point of a pair that has end points stands.
fn hub_spot(frame: &Frame, point: &Point, at: usize) -> Spot
    requires { at ≤ 1024 }
    ensures { result ≡ spot_of_hub frame.now point.now at }
{
    Spot {
        x: (hub_x(frame, at) + side_of(point) - 90) as u32,
        y: frame.hub_y(is_above(frame, at), place_in(frame, at)),
    }
}

/// Where one of a pair that has none stands.
fn transit_spot(frame: &Frame, point: &Point, at: usize) -> Spot
    requires { at ≤ 1024 }
    ensures { result ≡ spot_of_transit frame.now point.now at }
{
    let left = frame.cell_left(300, at, frame.transits().len());
    Spot {
        x: (left + 60 + side_of(point)) as u32,
        y: frame.transit_y(at),
    }
}

/// How far to the right one of so many end points of a pair stands.
fn rank_x(frame: &Frame, at: usize, end: usize, count: usize) -> u32
    requires at { at ≤ 1024 }
    requires end { end ≤ 1024 }
    ensures { result ≡ x_in_rank frame.now at end count }
{
    let columns = count.saturating_sub(24 * (end / 24)).min(24);
    let half = frame.spread(columns.saturating_sub(1)) / 2;
    (hub_x(frame, at) + frame.spread(end % 24)).saturating_sub(half) as u32
}

/// Where one of so many end points of a pair stands.
fn rank_spot(frame: &Frame, at: usize, end: usize, count: usize) -> Spot
    requires at { at ≤ 1024 }
    requires end { end ≤ 1024 }
    ensures { result ≡ spot_in_rank frame.now at end count }
{
    let rank = frame.rank_of(end);
    Spot {
        x: rank_x(frame, at, end, count),
        y: frame.rank_y(is_above(frame, at), place_in(frame, at), rank),
    }
}

/// Where an end point that belongs to no pair stands.
fn lone_spot(frame: &Frame, at: usize) -> Spot
    requires { at ≤ 1024 }
    ensures { result ≡ spot_of_lone frame.now at }
{
    Spot {
        x: (60 + 90 * (at % 12)) as u32,
        y: frame.bands_end() + 30 + 60 * (at / 12) as u32,
    }
}

/// Where a transfer point of a pair stands.
fn stp_spot(frame: &Frame, point: &Point, head: PointCode) -> Spot
    ensures { result ≡ spot_of_stp frame.now point.now head }
{
    if let Some(index) = index_of(frame.hubs(), head) {
        return hub_spot(frame, point, index);
    }
    match index_of(frame.transits(), head) {
        Some(index) => transit_spot(frame, point, index),
        None => CORNER,
    }
}

/// Where an end point of a pair stands.
fn end_spot(frame: &Frame, stands: &[Stand], code: PointCode, head: PointCode) -> Spot
    requires { length stands.now ≤ 1024 }
    ensures { result ≡ spot_of_end frame.now stands.now code head }
{
    match index_of(frame.hubs(), head) {
        Some(at) => {
            let end = ends_before(stands, Some(head), code);
            rank_spot(frame, at, end, end_count(stands, Some(head)))
        }
        None => CORNER,
    }
}

/// Where a point of a pair stands.
fn paired_spot(frame: &Frame, stands: &[Stand], point: &Point, head: PointCode) -> Spot
    requires { length stands.now ≤ 1024 }
    ensures { result ≡ spot_of_paired frame.now stands.now point.now head }
{
    if is_transfer(point.kind) {
        stp_spot(frame, point, head)
    } else {
        end_spot(frame, stands, point.code, head)
    }
}

/// Where a point stands.
#[tactic(auto, unfolding(crate::specs::Layout::spot_of))]
fn spot_of(frame: &Frame, stands: &[Stand], stand: &Stand) -> Spot
    requires { length stands.now ≤ 1024 }
    ensures { result ≡ the_spot frame.now stands.now stand.now }
{
    match stand.pair {
        Some(head) => paired_spot(frame, stands, &stand.point, head),
        None => lone_spot(frame, ends_before(stands, None, stand.point.code)),
    }
}

/// All points with their places, in rising code.
pub(crate) fn places_of(
    alloc: Global,
    frame: &Frame,
    stands: &[Stand],
) -> Result<Vec<Place>, AllocError>
    requires few { length stands.now ≤ 1024 }
    requires framed { frame.now ≡ frame_of stands.now }
    ensures { IfOk result (λ places. places.items ≡ the_places stands.now) }
{
    let mut places = Vec::with_capacity(alloc, stands.len())?;
    for stand in stands {
        places.push(Place {
            code: stand.point.code,
            spot: spot_of(frame, stands, stand),
        })?;
    }
    Ok(places)
}

/// The place of a code.
fn find_place(places: &[Place], code: PointCode) -> Option<&Place>
    ensures { option_copied result ≡ find (λ p. p.code == code) places.now }
{
    places.iter().find(|place| place.code == code)
}

/// Where a point stands.
pub(crate) fn spot_at(places: &[Place], code: PointCode) -> Spot
    ensures { result ≡ the_spot_at places.now code }
{
    match find_place(places, code) {
        Some(place) => place.spot,
        None => CORNER,
    }
}
