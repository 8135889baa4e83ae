//! How many signalling link selections a row leads over a point.

ghost use Rattle.std.specs.Prelude.{◌≡◌, ◌<◌};
ghost use Rattle.profile.specs.Local.{is_at as is_at_of};
ghost use Rattle.profile.specs.Valid.{IsSmall};
ghost use Rattle.profile.specs.Whole.{carrier as carrier_of};
ghost use Rattle.pictures.specs.Shown.{row_share};

use net_items::Row;
use point_codes::PointCode;
use route_choice::Choice;
use sls_share::member_for;
use transfer_state::size_of;

/// The via that carries a signalling link selection, 0 to 15.
fn carrier(row: &Row, choice: &Choice, s: u8) -> Option<PointCode>
    requires small { IsSmall row.now }
    requires sls { s < 16 }
    ensures { result ≡ carrier_of row.now choice.now s }
{
    let used = [choice.members[0].is_some(), choice.members[1].is_some()];
    let (position, _) = member_for(size_of(row, choice.class), used, s);
    choice.members[usize::from(position)]
}

/// Whether a via is this point.
pub(crate) fn is_at(point: PointCode, via: Option<PointCode>) -> bool
    ensures { result ≡ is_at_of point via }
{
    match via {
        Some(via) => via == point,
        None => false,
    }
}

/// How many of the sixteen signalling link selections a row leads over a point (Q.704 clause 2.3).
#[tactic(auto, using(crate::proofs::ShareLemmas::share_more), unfolding(crate::specs::Shown::row_share))]
pub(crate) fn share_over(row: &Row, choice: &Choice, point: PointCode) -> u64
    requires { IsSmall row.now }
    ensures { result ≡ row_share row.now choice.now point }
{
    let mut count = 0;
    for s in 0..16 {
        if is_at(point, carrier(row, choice, s)) {
            count += 1;
        }
    }
    count
}
