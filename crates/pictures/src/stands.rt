//! Which points belong together in a picture.

ghost use Rattle.std.specs.Prelude.{◌≡◌, ◌≤◌, IfOk, find, length};
ghost use Rattle.net_items.specs.Lookups.{kind_is_stp};
ghost use Rattle.std.specs.Option.{option_copied};
ghost use Rattle.pictures.specs.Layout.{end_count as end_count_of, ends_before as ends_before_of, first_stp as first_stp_of, lower_of_mates as the_head, heads_of as heads_in, is_head_in, is_end_of as is_end_in, is_same_pair as is_same, head_of_pair as the_pair, reaches_stp as reaches, stands_of as the_stands};

use crate::shares::is_at;
use link_sets::other_end;
use net_data::Net;
use net_items::lookups::is_stp;
use net_items::{Kind, LinkSet, Point};
use point_codes::PointCode;
use std::alloc::{AllocError, Global};

/// A point, with the pair that it belongs to: the lower code of a transfer point and its mate.
#[derive(Clone, Copy)]
pub(crate) struct Stand {
    /// The point.
    pub(crate) point: Point,
    /// Its pair, if it has one.
    pub(crate) pair: Option<PointCode>,
}

/// Whether a point of this kind is a transfer point.
pub(crate) fn is_transfer(kind: Kind) -> bool
    ensures { result ≡ kind_is_stp kind }
{
    match kind {
        Kind::Sep => false,
        Kind::Stp => true,
    }
}

/// The lower code of a transfer point and its mate.
fn head_of(net: &Net, code: PointCode) -> PointCode
    ensures { result ≡ the_head net.now.points code }
{
    match net.mate_of(code) {
        Some(mate) if mate.number() < code.number() => mate,
        _ => code,
    }
}

/// Whether a set joins a transfer point to another point.
fn reaches_stp(net: &Net, set: &LinkSet, point: PointCode) -> bool
    ensures { result ≡ reaches net.now.points point set.now }
{
    net.validity();
    match other_end(set, point) {
        Some(other) => is_stp(net.points(), other),
        None => false,
    }
}

/// The first set that joins a transfer point to a point.
fn first_set(net: &Net, point: PointCode) -> Option<&LinkSet>
    ensures { option_copied result ≡ find (reaches net.entry.now.points point) net.entry.now.sets }
{
    net.sets().iter().find(|set| reaches_stp(net, set, point))
}

/// The first transfer point, in the order of the sets, that a set joins to a point.
fn first_stp(net: &Net, point: PointCode) -> Option<PointCode>
    ensures { result ≡ first_stp_of net.now point }
{
    match first_set(net, point) {
        Some(set) => other_end(set, point),
        None => None,
    }
}

/// The pair that a point belongs to.
fn pair_of(net: &Net, point: &Point) -> Option<PointCode>
    ensures { result ≡ the_pair net.now point.now }
{
    if is_transfer(point.kind) {
        return Some(head_of(net, point.code));
    }
    let other = first_stp(net, point.code)?;
    Some(head_of(net, other))
}

/// All points with their pairs, in rising code.
pub(crate) fn stands_of(alloc: Global, net: &Net) -> Result<Vec<Stand>, AllocError>
    ensures { IfOk result (λ stands. stands.items ≡ the_stands net.now) }
{
    let mut stands = Vec::with_capacity(alloc, net.points().len())?;
    for point in net.points() {
        stands.push(Stand {
            point: *point,
            pair: pair_of(net, point),
        })?;
    }
    Ok(stands)
}

/// Whether two pairs are the same, or there is none twice.
fn is_same_pair(one: Option<PointCode>, other: Option<PointCode>) -> bool
    ensures { result ≡ is_same one other }
{
    match one {
        Some(head) => is_at(head, other),
        None => other.is_none(),
    }
}

/// Whether it is an end point that belongs to this pair, or to none.
fn is_end_of(pair: Option<PointCode>, stand: &Stand) -> bool
    ensures { result ≡ is_end_in pair stand.now }
{
    !is_transfer(stand.point.kind) && is_same_pair(pair, stand.pair)
}

/// How many end points belong to a pair, or to none.
pub(crate) fn end_count(stands: &[Stand], pair: Option<PointCode>) -> usize
    ensures value { result ≡ end_count_of stands.now pair }
    ensures few { result ≤ length stands.now }
{
    stands.iter().filter(|stand| is_end_of(pair, stand)).count()
}

/// How many of them have a code below one.
pub(crate) fn ends_before(stands: &[Stand], pair: Option<PointCode>, code: PointCode) -> usize
    ensures value { result ≡ ends_before_of stands.now pair code }
    ensures few { result ≤ length stands.now }
{
    stands
        .iter()
        .filter(|stand| is_end_of(pair, stand) && stand.point.code.number() < code.number())
        .count()
}

/// Whether a point stands for its pair, and that has end points or not, as asked.
#[tactic(auto, unfolding(crate::specs::Layout::is_head_in))]
fn is_head(stands: &[Stand], inhabited: bool, stand: &Stand) -> bool
    ensures { result ≡ is_head_in stands.now inhabited stand.now }
{
    is_transfer(stand.point.kind)
        && is_at(stand.point.code, stand.pair)
        && (end_count(stands, stand.pair) > 0) == inhabited
}

/// The pairs that have end points, or those that have none.
pub(crate) fn heads_of(
    alloc: Global,
    stands: &[Stand],
    inhabited: bool,
) -> Result<Vec<PointCode>, AllocError>
    ensures value { IfOk result (λ heads. heads.items ≡ heads_in stands.now inhabited) }
    ensures few { IfOk result (λ heads. length heads.items ≤ length stands.now) }
{
    let mut heads = Vec::new(alloc);
    for stand in stands {
        if is_head(stands, inhabited, stand) {
            heads.push(stand.point.code)?;
        }
    }
    Ok(heads)
}
