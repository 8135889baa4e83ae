//! Which links have to be restored for the status of a point to be as wanted.

ghost use Rattle.std.specs.Prelude.{◌≡◌, ◌++◌, ◌+◌, ◌<◌, All, IfOk, OnOk, MatchOption, None, Some, length, map, option_to_list, replicate, slice_set, true, false, []};
ghost use Rattle.std.specs.Option.{option_copied, option_map};
ghost use Rattle.excerpts.specs.Excerpt.{source_of};
ghost use Rattle.profile.specs.Status.{mate_row as the_mate_row, source_row, status};
ghost use Rattle.profile.specs.Valid.{IsValidRow};
ghost use Rattle.what_if.specs.Mending.{IsKnown, IsMend, KnowsMends, between as the_between, cheaper, classes_wanted as the_classes, least_of, meets, mend as the_mend, over, mend_over_mate as the_over_mate, over_vias as the_over_vias, row_mend as the_row_mend};

use crate::costs::{is_cheaper, least_link};
use crate::wanted::Wanted;
use excerpts::Excerpt;
use net_items::{Link, Listing, Row, Vias};
use point_codes::PointCode;
use std::alloc::{AllocError, Global};
use transfer_state::Routing;

/// A link, with the id of the set that it belongs to.
#[derive(Clone, Copy, Debug, PartialEq, Eq)]
pub struct SetLink {
    /// The id of the set.
    pub id: u16,
    /// The link, with its marks.
    pub link: Link,
}

/// Links that have to be restored.
pub type Mend = Listing<SetLink>;

/// A link, if there is one, and then these.
fn joined(alloc: Global, front: Option<SetLink>, back: &[SetLink]) -> Result<Mend, AllocError>
    ensures { IfOk result (λ mend. mend ≡ option_to_list front ++ back.now) }
{
    let mut links = Vec::new(alloc);
    if let Some(link) = front {
        links.push(link)?;
    }
    links.extend_from_slice(back)?;
    Ok(Mend::from_vec(links))
}

/// What points need for what is wanted, as far as it is worked out: that of a row stands at the row's position.
#[derive(Debug, Drop)]
struct Mends {
    wanted: Wanted,
    list: Vec<Option<Mend>>,
}

impl Mends {
    /// A place for what each of so many rows needs.
    fn places(alloc: Global, wanted: Wanted, count: usize) -> Result<Mends, AllocError>
        ensures wanted { IfOk result (λ mends. mends.wanted ≡ wanted) }
        ensures places { IfOk result (λ mends. mends.list.items ≡ replicate count None) }
    {
        let mut list = Vec::with_capacity(alloc, count)?;
        for _ in 0..count {
            list.push(None)?;
        }
        Ok(Mends { wanted, list })
    }

    /// Puts what a row needs in its place.
    fn put(&mut self, position: usize, mend: Option<Mend>)
        requires { position < length self.old.list.items }
        ensures wanted { self.new.wanted ≡ self.old.wanted }
        ensures list { self.new.list.items ≡ slice_set self.old.list.items position mend }
    {
        self.list[position] = mend;
    }
}

/// The row of the mate, if a row may use it.
pub fn mate_row<'a>(excerpt: &'a Excerpt, row: &Row) -> Option<&'a Row>
    ensures { option_copied result ≡ the_mate_row (source_of excerpt.entry.now) row.now }
{
    if !row.mate {
        return None;
    }
    excerpt.row(excerpt.mate_of(row.point)?)
}

/// What has to be restored between two points, if a set joins them: nothing, or the link of the set that takes least.
fn between(excerpt: &Excerpt, point: PointCode, other: PointCode) -> Option<Option<SetLink>>
    ensures { option_map option_to_list result ≡ the_between (source_of excerpt.now) point other }
{
    if excerpt.is_connected(point, other) {
        return Some(None);
    }
    let link = least_link(excerpt.set_between(point, other)?)?;
    Some(Some(link))
}

/// What a point needs, if that of the rows stands at their positions: nothing at the destination.
fn mend_of<'a>(excerpt: &Excerpt, mends: &'a Mends, point: PointCode) -> Option<&'a [SetLink]>
    requires together { length mends.now.list.items ≡ length excerpt.now.plan.rows }
    requires known { IsKnown (source_of excerpt.now) mends.now.wanted mends.now.list.items point }
    ensures { MatchOption result (the_mend (source_of excerpt.now) mends.now.wanted point ≡ None) (λ links. the_mend (source_of excerpt.now) mends.now.wanted point ≡ Some links.now) }
{
    excerpt.validity();
    if point == excerpt.dest() {
        return Some(&[]);
    }
    match excerpt.position_of_row(point) {
        Ok(at) => match &mends.list[at] {
            Some(mend) => Some(mend.as_slice()),
            None => None,
        },
        Err(_) => None,
    }
}

/// Takes a link, if there is one, and some more in the place of what was the least so far, if they take less.
fn take_cheaper(
    alloc: Global,
    least: &mut Option<Mend>,
    front: Option<SetLink>,
    back: &[SetLink],
) -> Result<(), AllocError>
    ensures { OnOk result (least.new ≡ cheaper least.old (Some (option_to_list front ++ back.now))) }
{
    if let Some(others) = least {
        if !is_cheaper(front, back, others.as_slice()) {
            return Ok(());
        }
    }
    *least = Some(joined(alloc, front, back)?);
    Ok(())
}

/// Looks at one via of a point.
fn add_via(
    alloc: Global,
    excerpt: &Excerpt,
    mends: &Mends,
    point: PointCode,
    via: PointCode,
    least: &mut Option<Mend>,
) -> Result<(), AllocError>
    requires together { length mends.now.list.items ≡ length excerpt.now.plan.rows }
    requires known { IsKnown (source_of excerpt.now) mends.now.wanted mends.now.list.items via }
    ensures { OnOk result (least.new ≡ cheaper least.old (over (source_of excerpt.now) point via (the_mend (source_of excerpt.now) mends.now.wanted via))) }
{
    let Some(front) = between(excerpt, point, via) else {
        return Ok(());
    };
    match mend_of(excerpt, mends, via) {
        Some(back) => take_cheaper(alloc, least, front, back),
        None => Ok(()),
    }
}

/// Looks at the vias of one class of a point.
fn add_class(
    alloc: Global,
    excerpt: &Excerpt,
    mends: &Mends,
    point: PointCode,
    vias: &[PointCode],
    least: &mut Option<Mend>,
) -> Result<(), AllocError>
    requires together { length mends.now.list.items ≡ length excerpt.now.plan.rows }
    requires known { All (IsKnown (source_of excerpt.now) mends.now.wanted mends.now.list.items) vias.now }
    ensures { OnOk result (least.new ≡ cheaper least.old (least_of (map (λ z. over (source_of excerpt.now) point z (the_mend (source_of excerpt.now) mends.now.wanted z)) vias.now))) }
{
    for via in vias {
        add_via(alloc, excerpt, mends, point, *via, least)?;
    }
    Ok(())
}

/// The classes of vias of a row that lead to what is wanted.
fn classes_wanted<'a>(excerpt: &Excerpt, wanted: Wanted, row: &'a Row) -> &'a [Vias]
    ensures { result.now ≡ the_classes (source_of excerpt.now) wanted row.now }
{
    let classes = row.classes.as_slice();
    if wanted.is_strict(excerpt) {
        return &classes[..classes.len().min(1)];
    }
    classes
}

/// What a row needs over its vias.
fn over_vias(
    alloc: Global,
    excerpt: &Excerpt,
    mends: &Mends,
    row: &Row,
) -> Result<Option<Mend>, AllocError>
    requires together { length mends.now.list.items ≡ length excerpt.now.plan.rows }
    requires known { All (All (IsKnown (source_of excerpt.now) mends.now.wanted mends.now.list.items)) row.now.classes }
    ensures { IfOk result (λ m. m ≡ the_over_vias (source_of excerpt.now) mends.now.wanted (the_mend (source_of excerpt.now) mends.now.wanted) row.now) }
{
    let mut least = None;
    for vias in classes_wanted(excerpt, mends.wanted, row) {
        add_class(
            alloc,
            excerpt,
            mends,
            row.point,
            vias.as_slice(),
            &mut least,
        )?;
    }
    Ok(least)
}

/// Looks at the mate of a row, if it may use it.
fn add_mate(
    alloc: Global,
    excerpt: &Excerpt,
    mends: &Mends,
    row: &Row,
    least: &mut Option<Mend>,
) -> Result<(), AllocError>
    requires together { length mends.now.list.items ≡ length excerpt.now.plan.rows }
    requires row { IsValidRow (source_of excerpt.now) row.now }
    requires known { KnowsMends (source_of excerpt.now) mends.now.wanted mends.now.list.items row.now.rank }
    ensures { OnOk result (least.new ≡ cheaper least.old (the_over_mate (source_of excerpt.now) mends.now.wanted (the_mend (source_of excerpt.now) mends.now.wanted) row.now)) }
{
    excerpt.validity();
    if mends.wanted.is_strict(excerpt) {
        return Ok(());
    }
    let Some(mate) = mate_row(excerpt, row) else {
        return Ok(());
    };
    let Some(front) = between(excerpt, row.point, mate.point) else {
        return Ok(());
    };
    match over_vias(alloc, excerpt, mends, mate)? {
        Some(back) => take_cheaper(alloc, least, front, back.as_slice()),
        None => Ok(()),
    }
}

/// What a row needs, where that of the rows of lower rank stands in their places.
fn row_mend(
    alloc: Global,
    excerpt: &Excerpt,
    mends: &Mends,
    row: &Row,
) -> Result<Option<Mend>, AllocError>
    requires together { length mends.now.list.items ≡ length excerpt.now.plan.rows }
    requires row { IsValidRow (source_of excerpt.now) row.now }
    requires known { KnowsMends (source_of excerpt.now) mends.now.wanted mends.now.list.items row.now.rank }
    ensures { IfOk result (λ m. m ≡ the_row_mend (source_of excerpt.now) mends.now.wanted (the_mend (source_of excerpt.now) mends.now.wanted) row.now) }
{
    excerpt.validity();
    let mut least = over_vias(alloc, excerpt, mends, row)?;
    add_mate(alloc, excerpt, mends, row, &mut least)?;
    Ok(least)
}

/// Whether the status of a point is one that is wanted.
fn reaches(routing: &Routing, wanted: Wanted, point: PointCode) -> bool
    ensures yes { result ≡ true → the_mend (source_of routing.now.excerpt) wanted point ≡ Some [] }
    ensures no { result ≡ false → meets wanted (status (source_of routing.now.excerpt) point) ≡ false }
{
    routing.excerpt().validity();
    wanted.is_met_by(routing.status(point))
}

/// What the point of a row needs, where that of the rows of lower rank stands in their places.
fn point_mend(
    alloc: Global,
    routing: &Routing,
    mends: &Mends,
    row: &Row,
) -> Result<Option<Mend>, AllocError>
    requires together { length mends.now.list.items ≡ length routing.now.excerpt.plan.rows }
    requires row { source_row (source_of routing.now.excerpt) row.now.point ≡ Some row.now }
    requires known { KnowsMends (source_of routing.now.excerpt) mends.now.wanted mends.now.list.items row.now.rank }
    ensures { IfOk result (λ m. m ≡ the_mend (source_of routing.now.excerpt) mends.now.wanted row.now.point) }
{
    routing.excerpt().validity();
    if reaches(routing, mends.wanted, row.point) {
        return Ok(Some(joined(alloc, None, &[])?));
    }
    row_mend(alloc, routing.excerpt(), mends, row)
}

/// The rows of a routing's plan.
fn rows_of<'a>(routing: &'a Routing) -> &'a [Row]
    ensures { result.now ≡ routing.now.excerpt.plan.rows }
{
    routing.excerpt().plan().rows.as_slice()
}

/// Puts what the rows of one rank need in their places, where that of those of lower rank stands.
fn sweep_rank(
    alloc: Global,
    routing: &Routing,
    mends: &mut Mends,
    rank: u8,
) -> Result<(), AllocError>
    requires together { length mends.old.list.items ≡ length routing.now.excerpt.plan.rows }
    requires below { KnowsMends (source_of routing.now.excerpt) mends.old.wanted mends.old.list.items rank }
    ensures wanted { mends.new.wanted ≡ mends.old.wanted }
    ensures together { length mends.new.list.items ≡ length mends.old.list.items }
    ensures below { OnOk result (KnowsMends (source_of routing.now.excerpt) mends.new.wanted mends.new.list.items (rank + 1)) }
{
    routing.excerpt().validity();
    let rows = rows_of(routing);
    for i in 0..rows.len() {
        let row = &rows[i];
        if row.rank == rank {
            let mend = point_mend(alloc, routing, mends, row)?;
            mends.put(i, mend);
        }
    }
    Ok(())
}

/// What the rows below a rank need, in their places.
fn mends_below(
    alloc: Global,
    routing: &Routing,
    wanted: Wanted,
    rank: u8,
) -> Result<Mends, AllocError>
    ensures wanted { IfOk result (λ mends. mends.wanted ≡ wanted) }
    ensures together { IfOk result (λ mends. length mends.list.items ≡ length routing.now.excerpt.plan.rows) }
    ensures below { IfOk result (λ mends. KnowsMends (source_of routing.now.excerpt) mends.wanted mends.list.items rank) }
{
    routing.excerpt().validity();
    let mut mends = Mends::places(alloc, wanted, rows_of(routing).len())?;
    for below in 1..rank {
        sweep_rank(alloc, routing, &mut mends, below)?;
    }
    Ok(mends)
}

/// What a point needs.
fn point_needs(
    alloc: Global,
    routing: &Routing,
    wanted: Wanted,
    point: PointCode,
) -> Result<Option<Mend>, AllocError>
    ensures { IfOk result (λ m. m ≡ the_mend (source_of routing.now.excerpt) wanted point) }
{
    routing.excerpt().validity();
    if reaches(routing, wanted, point) {
        return Ok(Some(joined(alloc, None, &[])?));
    }
    match routing.excerpt().row(point) {
        Some(row) => {
            let mends = mends_below(alloc, routing, wanted, row.rank)?;
            point_mend(alloc, routing, &mends, row)
        }
        None => Ok(None),
    }
}

/// The links that have to be restored for the status of a point to be as wanted: none of them if it is, and nothing if no
/// restoring does it, as where the point has no row.
///
/// Told are the fewest links; of several ways with as many the one with the fewest failed links, since each wants a repair; of those
/// the one with the fewest marks; and of those the first: vias class by class, and the mate last. Of a set the link that takes least in
/// this order is told, the first by its code. It fails if memory is refused.
pub fn find_mend(
    alloc: Global,
    routing: &Routing,
    wanted: Wanted,
    point: PointCode,
) -> Result<Option<Mend>, AllocError>
    ensures made { IfOk result (λ m. m ≡ the_mend (source_of routing.now.excerpt) wanted point) }
    ensures least { IfOk result (λ m. IsMend (source_of routing.now.excerpt) wanted point m) }
{
    routing.excerpt().validity();
    point_needs(alloc, routing, wanted, point)
}
