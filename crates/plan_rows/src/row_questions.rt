//! What is asked of a row of a plan.

ghost use Rattle.std.specs.Prelude.{◌≡◌, length, ◌==◌, ◌||◌, not, false};
ghost use Rattle.std.specs.List.{list_all};
ghost use Rattle.std.specs.Option.{option_map_or};
ghost use Rattle.net_items.specs.Keyed.{IsRising, IsFoundAt, IsGapAt};
ghost use Rattle.net_items.specs.Lookups.{point_at, has_point, is_stp as stp, mate_of as the_mate, set_between, adjacent, row_at};
ghost use Rattle.plan_rows.specs.Rows.{all_vias, is_mate as mate_is, is_lower as lower, is_free as free, is_small_class as small_class, has_mate_row as mate_row, is_small_row as small_row, is_right_via as right_via};

use crate::settings::Setting;
use net_items::lookups::mate_of;
use net_items::{Point, Row, Vias};
use net_sets::{Around, Sets};
use point_codes::PointCode;

/// Whether a point is the mate of another.
pub fn is_mate(points: &[Point], point: PointCode, other: PointCode) -> bool
    requires { IsRising (λ p. p.code) points.now }
    ensures { result ≡ mate_is points.now point other }
{
    match mate_of(points, point) {
        Some(mate) => mate == other,
        None => false,
    }
}

fn are_adjacent(around: &Around<'_>, vias: &[PointCode]) -> bool
    ensures { result ≡ list_all (adjacent around.now.sets around.now.point) vias.now }
{
    vias.iter().all(|z| around.is_adjacent(*z))
}

fn are_classes_joined(around: &Around<'_>, classes: &[Vias]) -> bool
    ensures { result ≡ list_all (λ vias. list_all (adjacent around.now.sets around.now.point) vias) classes.now }
{
    classes
        .iter()
        .all(|vias| are_adjacent(around, vias.as_slice()))
}

/// Whether a set joins the row's point, which has these sets around it, with each of its vias.
pub fn are_vias_joined(around: &Around<'_>, row: &Row) -> bool
    requires { around.now.point ≡ row.now.point }
    ensures { result ≡ all_vias (adjacent around.now.sets row.now.point) row.now }
{
    are_classes_joined(around, row.classes.as_slice())
}

/// Whether a via leads to the destination, or to a transfer point with a row of lower rank.
fn is_lower(setting: &Setting<'_>, row: &Row, via: PointCode) -> bool
    ensures { result ≡ lower setting.now.points setting.now.dest setting.now.rows row.now via }
{
    if via == setting.dest() {
        return true;
    }
    if !setting.is_stp(via) {
        return false;
    }
    setting.has_lower_row(via, row.rank)
}

fn are_lower(setting: &Setting<'_>, row: &Row, vias: &[PointCode]) -> bool
    ensures { result ≡ list_all (lower setting.now.points setting.now.dest setting.now.rows row.now) vias.now }
{
    vias.iter().all(|z| is_lower(setting, row, *z))
}

fn are_classes_lower(setting: &Setting<'_>, row: &Row, classes: &[Vias]) -> bool
    ensures { result ≡ list_all (λ vias. list_all (lower setting.now.points setting.now.dest setting.now.rows row.now) vias) classes.now }
{
    classes
        .iter()
        .all(|vias| are_lower(setting, row, vias.as_slice()))
}

/// Whether each via leads to the destination, or to a transfer point with a row of lower rank.
pub fn are_vias_lower(setting: &Setting<'_>, row: &Row) -> bool
    ensures { result ≡ all_vias (lower setting.now.points setting.now.dest setting.now.rows row.now) row.now }
{
    are_classes_lower(setting, row, row.classes.as_slice())
}

/// Whether a point is the destination, or isn't that mate.
fn is_free_of(mate: Option<PointCode>, dest: PointCode, via: PointCode) -> bool
    ensures { result ≡ (via == dest || not (option_map_or (λ m. m == via) mate false)) }
{
    match mate {
        Some(mate) => via == dest || mate != via,
        None => true,
    }
}

fn are_no_mates(mate: Option<PointCode>, dest: PointCode, vias: &[PointCode]) -> bool
    ensures { result ≡ list_all (λ z. z == dest || not (option_map_or (λ m. m == z) mate false)) vias.now }
{
    vias.iter().all(|z| is_free_of(mate, dest, *z))
}

fn are_classes_no_mates(mate: Option<PointCode>, dest: PointCode, classes: &[Vias]) -> bool
    ensures { result ≡ list_all (λ vias. list_all (λ z. z == dest || not (option_map_or (λ m. m == z) mate false)) vias) classes.now }
{
    classes
        .iter()
        .all(|vias| are_no_mates(mate, dest, vias.as_slice()))
}

/// Whether a via of a row is right: a set joins it to the row's point, it leads to the destination or to a transfer point with a
/// row of lower rank, and it isn't the point's mate, unless that is the destination.
fn is_right_via(
    setting: &Setting<'_>,
    around: &Around<'_>,
    row: &Row,
    mate: Option<PointCode>,
    via: PointCode,
) -> bool
    requires { mate ≡ the_mate setting.now.points row.now.point }
    ensures { result ≡ right_via setting.now.points around.now setting.now.dest setting.now.rows row.now via }
{
    around.is_adjacent(via) && is_lower(setting, row, via) && is_free_of(mate, setting.dest(), via)
}

fn are_right(
    setting: &Setting<'_>,
    around: &Around<'_>,
    row: &Row,
    mate: Option<PointCode>,
    vias: &[PointCode],
) -> bool
    requires { mate ≡ the_mate setting.now.points row.now.point }
    ensures { result ≡ list_all (right_via setting.now.points around.now setting.now.dest setting.now.rows row.now) vias.now }
{
    vias.iter()
        .all(|z| is_right_via(setting, around, row, mate, *z))
}

fn are_classes_right(
    setting: &Setting<'_>,
    around: &Around<'_>,
    row: &Row,
    mate: Option<PointCode>,
    classes: &[Vias],
) -> bool
    requires { mate ≡ the_mate setting.now.points row.now.point }
    ensures { result ≡ list_all (λ vias. list_all (right_via setting.now.points around.now setting.now.dest setting.now.rows row.now) vias) classes.now }
{
    classes.iter().all(|vias| are_right(setting, around, row, mate, vias.as_slice()))
}

/// Whether each via of a row is right, whose point has these sets around it: each is looked at once.
pub fn are_vias_right(setting: &Setting<'_>, around: &Around<'_>, row: &Row) -> bool
    ensures { result ≡ all_vias (right_via setting.now.points around.now setting.now.dest setting.now.rows row.now) row.now }
{
    let mate = setting.mate_of(row.point);
    are_classes_right(setting, around, row, mate, row.classes.as_slice())
}

/// Whether no via is the row point's mate, unless that is the destination.
pub fn are_vias_no_mates(setting: &Setting<'_>, row: &Row) -> bool
    ensures { result ≡ all_vias (free setting.now.points setting.now.dest row.now.point) row.now }
{
    let mate = setting.mate_of(row.point);
    are_classes_no_mates(mate, setting.dest(), row.classes.as_slice())
}

/// Whether the row's point is a transfer point whose mate is joined to it, is not the destination and has a row of the
/// same rank.
pub fn has_mate_row(setting: &Setting<'_>, sets: &Sets, row: &Row) -> bool
    ensures { result ≡ mate_row setting.now.points sets.now setting.now.dest setting.now.rows row.now }
{
    if !setting.is_stp(row.point) {
        return false;
    }
    match setting.mate_of(row.point) {
        None => false,
        Some(mate) => {
            if !sets.is_adjacent(row.point, mate) || mate == setting.dest() {
                return false;
            }
            setting.has_equal_row(mate, row.rank)
        }
    }
}

/// Whether a class has one or two vias (own).
pub fn is_small_class(vias: &[PointCode]) -> bool
    ensures { result ≡ small_class vias.now }
{
    match vias {
        [] => false,
        [_, ..] => vias.len() <= 2,
    }
}

fn are_small_classes(classes: &[Vias]) -> bool
    ensures { result ≡ list_all small_class classes.now }
{
    classes.iter().all(|vias| is_small_class(vias.as_slice()))
}

/// Whether a row is within the limits (own): a rank from 1, and at most four classes, each of one or two vias.
pub fn is_small_row(row: &Row) -> bool
    ensures { result ≡ small_row row.now }
{
    let rank = row.rank;
    rank != 0
        && rank <= 255
        && row.classes.as_slice().len() <= 4
        && are_small_classes(row.classes.as_slice())
}
