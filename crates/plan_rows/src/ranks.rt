//! A table of the least ranks of a plan's rows by code.

ghost use Rattle.std.specs.Prelude.{◌≡◌, List, [], ◌∷◌, ◌++◌, ◌<◌, ◌≤◌, ◌≢◌, ◌+◌, ◌&&◌, ℕ, ◌==◌, length, slice_index_or};
ghost use Rattle.std.specs.List.{list_any};
ghost use Rattle.net_items.specs.declared.lists.Row.{Row};
ghost use Rattle.plan_rows.specs.Rows.{has_lower_row, has_equal_row};
ghost use Rattle.plan_rows.specs.Ranks.{IsRanks};

use net_items::Row;
use point_codes::PointCode;

/// The lesser of what is noted of a point, 0 for nothing, and one more than a rank.
fn lesser(noted: u16, rank: u8) -> u16
    ensures none { noted ≡ 0 → result ≡ rank + 1 }
    ensures less { noted ≢ 0 → rank + 1 < noted → result ≡ rank + 1 }
    ensures kept { noted ≢ 0 → noted ≤ rank + 1 → result ≡ noted }
{
    let wanted = u16::from(rank) + 1;
    if noted == 0 || wanted < noted {
        wanted
    } else {
        noted
    }
}

fn note_rank(ranks: &mut [u16], row: &Row)
    requires { length ranks.old ≡ 16384 }
    ensures { (done : List Row) → IsRanks ranks.old done → IsRanks ranks.new (done ++ row.now ∷ []) }
{
    let at = row.point.number() as usize;
    ranks[at] = lesser(ranks[at], row.rank);
}

/// Notes the least rank of each point that has rows, in a blank table.
pub fn note_ranks(ranks: &mut [u16], rows: &[Row])
    requires long { length ranks.old ≡ 16384 }
    requires blank { (z : ℕ) → z < 16384 → slice_index_or ranks.old z 0 ≡ 0 }
    ensures { IsRanks ranks.new rows.now }
{
    for row in rows {
        note_rank(ranks, row);
    }
}

/// Whether the point has a row of lower rank than that.
pub fn has_lower(ranks: &[u16], rows: &[Row], point: PointCode, rank: u8) -> bool
    requires long { length ranks.now ≡ 16384 }
    requires ranks { IsRanks ranks.now rows.now }
    ensures { result ≡ has_lower_row rows.now point rank }
{
    let noted = ranks[point.number() as usize];
    noted != 0 && noted <= u16::from(rank)
}

/// Whether a row of the point with that rank is among these.
fn find_equal(rows: &[Row], point: PointCode, rank: u8) -> bool
    ensures { result ≡ has_equal_row rows.now point rank }
{
    rows.iter()
        .any(|row| row.point == point && row.rank == rank)
}

/// Whether the point has a row of that rank.
pub fn has_same(ranks: &[u16], rows: &[Row], point: PointCode, rank: u8) -> bool
    requires long { length ranks.now ≡ 16384 }
    requires ranks { IsRanks ranks.now rows.now }
    ensures { result ≡ has_equal_row rows.now point rank }
{
    let noted = ranks[point.number() as usize];
    let wanted = u16::from(rank) + 1;
    if noted == wanted {
        return true;
    }
    if noted == 0 {
        return false;
    }
    if wanted < noted {
        return false;
    }
    // A lower rank is noted: a row of this rank is there only if the point has two.
    find_equal(rows, point, rank)
}
