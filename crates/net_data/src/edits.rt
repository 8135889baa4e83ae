//! Edits of the points of a network.

ghost use Rattle.std.specs.Prelude.{◌≡◌, OnOk, OnErr, true};
ghost use Rattle.net_items.specs.Keyed.{IsRising, IsFoundAt, IsGapAt, put, edit, without};
ghost use Rattle.net_items.specs.Lookups.{has_point};
ghost use Rattle.net_data.specs.Edits.{set_mate as mate_set};

use net_items::Point;
use net_items::lookups::position_of_point;
use point_codes::PointCode;
use std::alloc::AllocError;

/// Puts in a point, in the place of one of its code.
pub fn put_point(points: &mut Vec<Point>, point: Point) -> Result<(), AllocError>
    requires { IsRising (λ p. p.code) points.old.items }
    ensures ok { OnOk result (points.new.items ≡ put (λ p. p.code) point points.old.items) }
    ensures err { OnErr result (points.new.items ≡ points.old.items) }
{
    match position_of_point(points, point.code) {
        Ok(at) => {
            points[at] = point;
        }
        Err(at) => {
            points.insert(at, point)?;
        }
    }
    Ok(())
}

/// Changes a point's mate.
pub fn set_mate(points: &mut Vec<Point>, code: PointCode, mate: Option<PointCode>)
    requires rising { IsRising (λ p. p.code) points.old.items }
    requires there { has_point points.old.items code ≡ true }
    ensures { points.new.items ≡ mate_set code mate points.old.items }
{
    match position_of_point(points, code) {
        Ok(at) => {
            let point = points[at];
            points[at] = Point {
                code: point.code,
                kind: point.kind,
                mate,
            };
        }
        Err(_) => unreachable!(),
    }
}

/// Removes the point of a code that is there.
pub fn remove_point(points: &mut Vec<Point>, code: PointCode)
    requires rising { IsRising (λ p. p.code) points.old.items }
    requires there { has_point points.old.items code ≡ true }
    ensures { points.new.items ≡ without (λ p. p.code) code points.old.items }
{
    match position_of_point(points, code) {
        Ok(at) => {
            points.remove(at);
        }
        Err(_) => unreachable!(),
    }
}
