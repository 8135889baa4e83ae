//! What the rows of a plan ask of each other's ranks.

ghost use Rattle.std.specs.Prelude.{◌≡◌, ◌++◌, [], IfOk, OnOk};
ghost use Rattle.std.specs.List.{flat_map, position};
ghost use Rattle.net_items.specs.Keyed.{IsRising};
ghost use Rattle.plan_ranks.specs.Ranks.{place_of as the_place, via_needs, mate_needs, row_needs, needs_of as the_needs};

use net_items::lookups::mate_of;
use net_items::{Point, Row, Vias};
use point_codes::PointCode;
use std::alloc::{AllocError, Global};

/// The row at one place has to be at least so much higher than the row at another.
#[derive(Clone, Copy)]
pub(crate) struct Need {
    /// The place of the higher row.
    pub upper: usize,
    /// The place of the lower row.
    pub lower: usize,
    /// By how much: 1 for a via, 0 for a mate.
    pub by: u8,
}

/// The place of the first row of a point.
fn place_of(rows: &[Row], point: PointCode) -> Option<usize>
    ensures { result ≡ the_place rows.now point }
{
    rows.iter().position(|row| row.point == point)
}

/// Adds what a row needs for the vias of a class.
fn put_vias(
    needs: &mut Vec<Need>,
    rows: &[Row],
    dest: PointCode,
    place: usize,
    vias: &[PointCode],
) -> Result<(), AllocError>
    ensures { OnOk result (needs.new.items ≡ needs.old.items ++ flat_map (via_needs rows.now dest place) vias.now) }
{
    for via in vias {
        if *via == dest {
            continue;
        }
        if let Some(lower) = place_of(rows, *via) {
            needs.push(Need {
                upper: place,
                lower,
                by: 1,
            })?;
        }
    }
    Ok(())
}

/// Adds what a row needs for the vias of its classes.
fn put_classes(
    needs: &mut Vec<Need>,
    rows: &[Row],
    dest: PointCode,
    place: usize,
    classes: &[Vias],
) -> Result<(), AllocError>
    ensures { OnOk result (needs.new.items ≡ needs.old.items ++ flat_map (λ vias. flat_map (via_needs rows.now dest place) vias) classes.now) }
{
    for vias in classes {
        put_vias(needs, rows, dest, place, vias.as_slice())?;
    }
    Ok(())
}

/// Adds what a row needs for a mate.
fn put_mate(
    needs: &mut Vec<Need>,
    rows: &[Row],
    place: usize,
    mate: PointCode,
) -> Result<(), AllocError>
    ensures { OnOk result (needs.new.items ≡ needs.old.items ++ mate_needs rows.now place mate) }
{
    if let Some(other) = place_of(rows, mate) {
        needs.push(Need {
            upper: place,
            lower: other,
            by: 0,
        })?;
        needs.push(Need {
            upper: other,
            lower: place,
            by: 0,
        })?;
    }
    Ok(())
}

/// Adds what a row needs.
fn put_row(
    needs: &mut Vec<Need>,
    points: &[Point],
    dest: PointCode,
    rows: &[Row],
    place: usize,
    row: &Row,
) -> Result<(), AllocError>
    requires { IsRising (λ p. p.code) points.now }
    ensures { OnOk result (needs.new.items ≡ needs.old.items ++ row_needs points.now dest rows.now place row.now) }
{
    put_classes(needs, rows, dest, place, row.classes.as_slice())?;
    if row.mate {
        if let Some(mate) = mate_of(points, row.point) {
            return put_mate(needs, rows, place, mate);
        }
    }
    Ok(())
}

/// What the rows of a plan need.
pub(crate) fn needs_of(
    alloc: Global,
    points: &[Point],
    dest: PointCode,
    rows: &[Row],
) -> Result<Vec<Need>, AllocError>
    requires { IsRising (λ p. p.code) points.now }
    ensures { IfOk result (λ needs. needs.items ≡ the_needs points.now dest rows.now) }
{
    let mut needs = Vec::new(alloc);
    for (place, row) in rows.iter().enumerate() {
        put_row(&mut needs, points, dest, rows, place, row)?;
    }
    Ok(needs)
}
