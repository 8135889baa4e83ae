//! A table of the transfer points by code, for many questions about the vias of a plan.

ghost use Rattle.std.specs.Prelude.{◌≡◌, ◌<◌, ◌++◌, ◌∷◌, [], List, ℕ, false, length, slice_index_or};
ghost use Rattle.net_items.specs.declared.items.Point.{Point};
ghost use Rattle.net_items.specs.Keyed.{IsRising};
ghost use Rattle.plan_rows.specs.Transfers.{IsTransfers};
ghost use Rattle.net_items.specs.Lookups.{has_point};

use net_items::{Kind, Point};

fn note_point(transfers: &mut [bool], point: &Point)
    requires { length transfers.old ≡ 16384 }
    ensures { (done : List Point) → has_point done point.now.code ≡ false → IsTransfers transfers.old done → IsTransfers transfers.new (done ++ point.now ∷ []) }
{
    let at = point.code.number() as usize;
    match point.kind {
        Kind::Sep => {}
        Kind::Stp => transfers[at] = true,
    }
}

/// Notes the transfer points among these in a blank table.
pub fn note_transfers(transfers: &mut [bool], points: &[Point])
    requires rising { IsRising (λ p. p.code) points.now }
    requires long { length transfers.old ≡ 16384 }
    requires blank { (z : ℕ) → z < 16384 → slice_index_or transfers.old z false ≡ false }
    ensures { IsTransfers transfers.new points.now }
{
    for point in points {
        note_point(transfers, point);
    }
}
