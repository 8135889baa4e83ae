//! Which sets the table of a plan reads, as marks.

ghost use Rattle.std.specs.Prelude.{◌≡◌, ◌<◌, ◌==◌, ◌&&◌, ◌||◌, ℕ, ◌∷◌, [], true, false, is_some, All};
ghost use Rattle.std.specs.List.{list_any};
ghost use Rattle.std.specs.Option.{option_map_or};
ghost use Rattle.net_items.specs.Keyed.{IsRising};
ghost use Rattle.net_items.specs.Lookups.{joins, row_at, set_at, is_stp as stp_is};
ghost use Rattle.excerpts.specs.Excerpt.{is_read_by, leads as row_leads};
ghost use Rattle.dirty_sets.specs.Bits.{is_marked};
ghost use Rattle.dirty_sets.specs.Index.{LeadsOn};

use crate::bits::{Codes, SetIds};
use excerpts::reading::is_read;
use net_items::{LinkSet, Plan, Point, Row};
use plan_rows::uses::is_via;
use point_codes::PointCode;

/// Whether a row of a point leads to another.
fn leads(row: &Row, point: PointCode, via: PointCode) -> bool
    ensures { result ≡ row_leads (row.now ∷ []) point via }
{
    row.point == point && is_via(row, via)
}

/// Whether a set joins a row's point with one of its vias.
fn row_joins(row: &Row, set: &LinkSet) -> bool
    ensures { result ≡ list_any (λ vias. list_any (λ via. joins row.now.point via set.now) vias) row.now.classes }
{
    leads(row, set.a, set.b) || leads(row, set.b, set.a)
}

/// Whether a set joins the point of one of the rows with one of its vias.
fn joins_via(rows: &[Row], set: &LinkSet) -> bool
    ensures { result ≡ list_any (λ row. list_any (λ vias. list_any (λ via. joins row.point via set.now) vias) row.classes) rows.now }
{
    let mut rest = rows;
    while let Some((row, others)) = rest.split_first() {
        if row_joins(row, set) {
            return true;
        }
        rest = others;
    }
    false
}

/// The transfer points with a row, marked, among the transfer points.
fn planned_transfers(transfers: &Codes, rows: &[Row]) -> Codes
    ensures { (x : ℕ) → is_marked result x ≡ (is_marked transfers.now x && is_some (row_at rows.now x)) }
{
    let mut codes = Codes::new();
    let mut rest = rows;
    while let Some((row, others)) = rest.split_first() {
        codes.mark_if(row.point, transfers.has(row.point));
        rest = others;
    }
    codes
}

/// Whether an end of a set is that point.
fn ends_at(set: &LinkSet, point: PointCode) -> bool
    ensures { result ≡ (set.now.a == point || set.now.b == point) }
{
    set.a == point || set.b == point
}

/// Whether a set without a transfer point that has a row joins the point of a row with one of its vias. Only the sets of the
/// destination come into question. It is faster if the rows are told to rise.
fn joins_via_of(points: &[Point], plan: &Plan, rises: bool, set: &LinkSet) -> bool
    requires points_rise { IsRising (λ p. p.code) points.now }
    requires rows_rise { rises ≡ true → IsRising (λ r. r.point) plan.now.rows }
    requires leads { LeadsOn points.now plan.now }
    requires first_end { (stp_is points.now set.now.a && is_some (row_at plan.now.rows set.now.a)) ≡ false }
    requires second_end { (stp_is points.now set.now.b && is_some (row_at plan.now.rows set.now.b)) ≡ false }
    ensures some { result ≡ true → is_read_by points.now plan.now set.now ≡ true }
    ensures none { result ≡ false → list_any (λ row. list_any (λ vias. list_any (λ via. joins row.point via set.now) vias) row.classes) plan.now.rows ≡ false }
{
    if !ends_at(set, plan.dest) {
        return false;
    }
    if rises {
        is_read(points, plan, set)
    } else {
        joins_via(plan.rows.as_slice(), set)
    }
}

/// Whether the table of a plan reads a set, where its transfer points with a row are marked.
fn is_read_by_plan(
    points: &[Point],
    plan: &Plan,
    rises: bool,
    planned: &Codes,
    set: &LinkSet,
) -> bool
    requires points_rise { IsRising (λ p. p.code) points.now }
    requires rows_rise { rises ≡ true → IsRising (λ r. r.point) plan.now.rows }
    requires leads { LeadsOn points.now plan.now }
    requires marked { (x : ℕ) → x < 16384 → is_marked planned.now x ≡ (stp_is points.now x && is_some (row_at plan.now.rows x)) }
    ensures { result ≡ is_read_by points.now plan.now set.now }
{
    // The proof reads the codes' ranges from these.
    let _first = set.a.number();
    let _second = set.b.number();
    planned.has(set.a) || planned.has(set.b) || joins_via_of(points, plan, rises, set)
}

/// The sets that the table of a plan reads, where the transfer points are marked. It is faster if the rows are told to rise.
pub fn sets_read(
    points: &[Point],
    transfers: &Codes,
    plan: &Plan,
    rises: bool,
    sets: &[LinkSet],
) -> SetIds
    requires points_rise { IsRising (λ p. p.code) points.now }
    requires transfers { (x : ℕ) → x < 16384 → is_marked transfers.now x ≡ stp_is points.now x }
    requires rows_rise { rises ≡ true → IsRising (λ r. r.point) plan.now.rows }
    requires leads { LeadsOn points.now plan.now }
    requires sets_rise { IsRising (λ s. s.id) sets.now }
    requires small { All (λ s. s.id < 4096) sets.now }
    ensures { (n : ℕ) → is_marked result n ≡ option_map_or (is_read_by points.now plan.now) (set_at sets.now n) false }
{
    let mut ids = SetIds::new();
    let planned = planned_transfers(transfers, plan.rows.as_slice());
    for set in sets {
        let reads = is_read_by_plan(points, plan, rises, &planned, set);
        ids.put(set.id, reads);
    }
    ids
}
