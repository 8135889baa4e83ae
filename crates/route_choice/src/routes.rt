//! What a row uses, from what it is offered over each via and over its mate.

ghost use Rattle.std.specs.Prelude.{◌≡◌, ◌≢◌, ◌<◌, ◌≤◌, ◌∷◌, [], length, All};
ghost use Rattle.route_choice.specs.Routes.{offered, offered_in, mate_of_pair, best as best_of, best_in as best_in_class, has_via as offers_it, member_at, direct_status as status_with, lowest as lowest_of, direct as direct_of, direct_choice as direct_choice_of, choose as choice_of};

use crate::choices::{Choice, Far};
use net_items::{Row, Vias};
use point_codes::PointCode;

/// The best status that a class is offered.
fn best_in(vias: &[PointCode], fars: &[Far; 2]) -> Far
    requires { length vias.now ≤ 2 }
    ensures { result ≡ best_in_class (offered_in vias.now fars.now) }
{
    match vias {
        [] => Far::Prohibited,
        [_] => fars[0],
        _ => fars[0].better_of(fars[1]),
    }
}

/// Whether a via of the class offers this status.
fn has_via(best: Far, vias: &[PointCode], fars: &[Far; 2]) -> bool
    requires { length vias.now ≤ 2 }
    ensures { result ≡ offers_it best (offered_in vias.now fars.now) }
{
    match vias {
        [] => false,
        [_] => fars[0].is_same_as(best),
        _ => fars[0].is_same_as(best) || fars[1].is_same_as(best),
    }
}

/// The vias of the class that offer this status, each at its place.
fn members(best: Far, vias: &[PointCode], fars: &[Far; 2]) -> [Option<PointCode>; 2]
    requires { length vias.now ≤ 2 }
    ensures { result ≡ member_at best (offered_in vias.now fars.now) 0 ∷ member_at best (offered_in vias.now fars.now) 1 ∷ [] }
{
    let mut members = [None, None];
    if let [first, ..] = vias
        && fars[0].is_same_as(best)
    {
        members[0] = Some(*first);
    }
    if let [_, second] = vias
        && fars[1].is_same_as(best)
    {
        members[1] = Some(*second);
    }
    members
}

/// The best status that a row is offered.
fn best(classes: &[Vias], fars: &[[Far; 2]; 4]) -> Far
    requires few { length classes.now ≤ 4 }
    requires small { All (λ vias. length vias ≤ 2) classes.now }
    ensures { result ≡ best_of (offered classes.now fars.now) }
{
    let mut best = Far::Prohibited;
    for (i, class) in classes.iter().enumerate() {
        best = best.better_of(best_in(class.as_slice(), &fars[i]));
    }
    best
}

/// The lowest class with a via that offers this status, with its members and the direct status.
fn lowest(classes: &[Vias], fars: &[[Far; 2]; 4], best: Far, tfr: bool) -> Choice
    requires few { length classes.now ≤ 4 }
    requires small { All (λ vias. length vias ≤ 2) classes.now }
    ensures { result ≡ lowest_of tfr best 1 (offered classes.now fars.now) }
{
    for (i, class) in classes.iter().enumerate() {
        let vias = class.as_slice();
        if has_via(best, vias, &fars[i]) {
            let number = (i + 1) as u8;
            return Choice {
                class: number,
                members: members(best, vias, &fars[i]),
                status: direct_status(best, number, tfr),
            };
        }
    }
    Choice::NONE
}

/// The direct status that goes with a best far status and a class (Q.704 clauses 13.2 to 13.4).
fn direct_status(best: Far, class: u8, tfr: bool) -> Far
    ensures { result ≡ status_with tfr best class }
{
    match best {
        Far::Allowed if !tfr || class == 1 => Far::Allowed,
        Far::Allowed => Far::Restricted,
        Far::Restricted if tfr => Far::Restricted,
        Far::Restricted => Far::Allowed,
        Far::Prohibited => Far::Prohibited,
    }
}

/// The direct class of a row with its members and status.
fn direct_choice(row: &Row, fars: &[[Far; 2]; 4], tfr: bool) -> Choice
    requires few { length row.now.classes ≤ 4 }
    requires small { All (λ vias. length vias ≤ 2) row.now.classes }
    ensures { result ≡ direct_choice_of tfr (offered row.now.classes fars.now) }
{
    let classes = row.classes.as_slice();
    match best(classes, fars) {
        Far::Prohibited => Choice::NONE,
        best => lowest(classes, fars, best, tfr),
    }
}

/// The direct status of a row: what it offers without its mate (own, after Q.704 clauses 13.2 to 13.4).
///
/// `fars[i][j]` is what via j of class i + 1 offers: its status, or prohibited if it cannot be reached. `tfr` is the
/// transfer-restricted option.
pub fn direct(row: &Row, fars: &[[Far; 2]; 4], tfr: bool) -> Far
    requires few { length row.now.classes ≤ 4 }
    requires small { All (λ vias. length vias ≤ 2) row.now.classes }
    ensures { result ≡ direct_of tfr (offered row.now.classes fars.now) }
{
    direct_choice(row, fars, tfr).status
}

/// What a row uses: the mate where its direct status is better than all that the vias offer, and else the direct class
/// (own, after Q.704 clauses 13.2 to 13.4). The rest is given as to `direct`.
pub fn choose(row: &Row, fars: &[[Far; 2]; 4], mate: Option<(PointCode, Far)>, tfr: bool) -> Choice
    requires few { length row.now.classes ≤ 4 }
    requires small { All (λ vias. length vias ≤ 2) row.now.classes }
    ensures { result ≡ choice_of tfr (offered row.now.classes fars.now) (mate_of_pair mate) }
{
    if let Some((point, status)) = mate
        && status.is_better_than(best(row.classes.as_slice(), fars))
    {
        return Choice {
            class: 5,
            members: [Some(point), None],
            status: if tfr { Far::Restricted } else { Far::Allowed },
        };
    }
    direct_choice(row, fars, tfr)
}
