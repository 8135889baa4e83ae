//! Copies of sets, plans and rows, and what is put into lists.

use crate::parts::{CLEAR, code, link, set_between};
use link_state::Marks;
use net_items::copies::{copy_plan, copy_row, copy_rows, copy_set, copy_sets, copy_slcs, put_row};
use net_items::equals::{are_same_sets, are_same_slcs, is_same_plan, is_same_set};
use net_items::{Classes, LinkSet, Links, Plan, Row, Rows, Slcs, Vias};
use point_codes::{BadCode, PointCode};
use std::alloc::{AllocError, Global};
use std::test::Fail;
use tokens::read_row;

/// The ids and the ends of six sets between five points, each with the marks of its first link.
const SIX: [(u16, &str, &str, Marks); 6] = [
    (1, "2-1-1", "2-10-1", CLEAR),
    (2, "2-1-1", "2-10-2", CLEAR),
    (3, "2-10-1", "2-1-2", CLEAR),
    (4, "2-10-2", "2-1-2", CLEAR),
    (5, "2-10-1", "2-10-2", CLEAR),
    (6, "2-10-1", "2-1-3", Marks::FAILED),
];

/// The sets of these ids and ends, each with these marks of its first link.
fn sets_of(alloc: Global, parts: &[(u16, &str, &str, Marks)]) -> Result<Vec<LinkSet>, Fail> {
    let mut sets = Vec::new(alloc);
    for (id, a, b, first) in parts {
        sets.push(set_between(*id, *a, *b, [*first, CLEAR])?)?;
    }
    Ok(sets)
}

/// Whether the copy of a set equals it, and another.
fn equal_sets(alloc: Global) -> Result<(bool, bool), Fail> {
    let sets = sets_of(alloc, &SIX[..2])?;
    match sets.as_slice() {
        [one, two] => {
            let copy = copy_set(one);
            Ok((is_same_set(&copy, one), is_same_set(&copy, two)))
        }
        _ => Ok((false, false)),
    }
}

#[test]
fn a_copy_of_a_set_is_equal(rt: HostRuntime) -> Result<(), Fail> {
    assert_eq!(rt; equal_sets(rt.alloc())?, (true, false));
    Ok(())
}

/// How many copies there are of the six sets, and whether they equal them.
fn equal_copies(alloc: Global) -> Result<(usize, bool), Fail> {
    let sets = sets_of(alloc, &SIX)?;
    let copies = copy_sets(alloc, sets.as_slice())?;
    let are_same = are_same_sets(copies.as_slice(), sets.as_slice());
    Ok((copies.len(), are_same))
}

#[test]
fn copies_of_sets_are_equal(rt: HostRuntime) -> Result<(), Fail> {
    assert_eq!(rt; equal_copies(rt.alloc())?, (6, true));
    Ok(())
}

/// The row that a text is.
fn row_of(alloc: Global, text: &str) -> Result<Row, Fail> {
    Ok(read_row(alloc, text.as_bytes())?.ok_or("no row")?)
}

/// The plan of 2-1-2 for an end point and two mated transfer points.
fn new_plan(alloc: Global) -> Result<Plan, Fail> {
    let dest = code("2-1-2")?;
    let mut rows = Vec::new(alloc);
    for text in [
        "2-1-1:2:2-10-1+2-10-2",
        "2-10-1:1:2-1-2:m",
        "2-10-2:1:2-1-2:m",
    ] {
        rows.push(row_of(alloc, text)?)?;
    }
    let rows = Rows::from_vec(alloc, rows)?;
    Ok(Plan { dest, rows })
}

#[test]
fn a_copy_of_a_plan_is_equal(rt: HostRuntime) -> Result<(), Fail> {
    let plan = new_plan(rt.alloc())?;
    let copy = copy_plan(rt.alloc(), &plan)?;
    assert!(rt; is_same_plan(&copy, &plan));
    Ok(())
}

/// Copies of rows, made at once.
fn copies_at_once(alloc: Global, rows: &[Row]) -> Result<Rows, AllocError> {
    let copies = copy_rows(alloc, rows)?;
    Rows::from_vec(alloc, copies)
}

#[test]
fn copies_of_rows_are_equal(rt: HostRuntime) -> Result<(), Fail> {
    let plan = new_plan(rt.alloc())?;
    let dest = plan.dest;
    let rows = copies_at_once(rt.alloc(), plan.rows.as_slice())?;
    assert!(rt; is_same_plan(&Plan { dest, rows }, &plan));
    Ok(())
}

/// Copies of rows, made one by one.
fn copies_of(alloc: Global, rows: &[Row]) -> Result<Rows, AllocError> {
    let mut copies = Vec::new(alloc);
    for row in rows {
        copies.push(copy_row(alloc, row)?)?;
    }
    Rows::from_vec(alloc, copies)
}

#[test]
fn a_copy_of_a_row_is_equal(rt: HostRuntime) -> Result<(), Fail> {
    let plan = new_plan(rt.alloc())?;
    let dest = plan.dest;
    let rows = copies_of(rt.alloc(), plan.rows.as_slice())?;
    assert!(rt; is_same_plan(&Plan { dest, rows }, &plan));
    Ok(())
}

/// A row without routes.
fn row(point: PointCode, rank: u8) -> Row {
    Row {
        point,
        rank,
        classes: Classes::new(),
        mate: false,
    }
}

/// The rows that two rows of those points and ranks make, one put after the other.
fn put_both(
    alloc: Global,
    one: (PointCode, u8),
    two: (PointCode, u8),
) -> Result<Vec<Row>, AllocError> {
    let mut rows = Vec::new(alloc);
    put_row(&mut rows, row(one.0, one.1))?;
    put_row(&mut rows, row(two.0, two.1))?;
    Ok(rows)
}

/// The points of rows, by number, and their ranks.
fn points_and_ranks(alloc: Global, rows: &[Row]) -> Result<Vec<(u16, u8)>, AllocError> {
    let mut said = Vec::new(alloc);
    for row in rows {
        said.push((row.point.number(), row.rank))?;
    }
    Ok(said)
}

/// The points, by number, and the ranks of the rows that `put_both` makes.
fn rows_of_both(alloc: Global, one: (&str, u8), two: (&str, u8)) -> Result<Vec<(u16, u8)>, Fail> {
    let (first, second) = (code(one.0)?, code(two.0)?);
    let rows = put_both(alloc, (first, one.1), (second, two.1))?;
    Ok(points_and_ranks(alloc, rows.as_slice())?)
}

#[test]
fn a_row_takes_the_place_of_one_of_its_point(rt: HostRuntime) -> Result<(), Fail> {
    let rows = rows_of_both(rt.alloc(), ("2-1-1", 1), ("2-1-1", 2))?;
    assert_eq!(rt; rows.as_slice(), [(4105, 2)].as_slice());
    Ok(())
}

#[test]
fn a_row_goes_before_one_of_a_higher_point(rt: HostRuntime) -> Result<(), Fail> {
    let rows = rows_of_both(rt.alloc(), ("2-1-2", 1), ("2-1-1", 2))?;
    assert_eq!(rt; rows.as_slice(), [(4105, 2), (4106, 1)].as_slice());
    Ok(())
}

/// Whether a link of code 3, one of code 1 and one of code 3 again, put one after the other, make the last two.
fn make_two(first: Marks, one: Marks, last: Marks) -> bool {
    let mut links = Links::none();
    links.put(link(3, first));
    links.put(link(1, one));
    links.put(link(3, last));
    let list = links.listed();
    list.as_slice() == [link(1, one), link(3, last)].as_slice()
}

#[test]
fn a_link_takes_the_place_of_one_of_its_code(rt: HostRuntime) -> Result<(), Fail> {
    assert!(rt; make_two(CLEAR, CLEAR, Marks::FAILED));
    Ok(())
}

/// Two vias, and a third put behind them.
fn three_vias(alloc: Global, [a, b, c]: [PointCode; 3]) -> Result<Vias, AllocError> {
    let mut vias = Vias::from_slice(alloc, &[a, b])?;
    vias.push(alloc, c)?;
    Ok(vias)
}

/// Three points.
fn three_points() -> Result<[PointCode; 3], BadCode> {
    Ok([code("2-1-1")?, code("2-1-2")?, code("2-1-3")?])
}

/// Whether the vias are those that were put in.
fn hold_three(alloc: Global) -> Result<bool, Fail> {
    let points = three_points()?;
    let vias = three_vias(alloc, points)?;
    Ok(vias.as_slice() == points.as_slice())
}

#[test]
fn vias_hold_what_was_put_in(rt: HostRuntime) -> Result<(), Fail> {
    assert!(rt; hold_three(rt.alloc())?);
    Ok(())
}

#[test]
fn a_copy_of_link_codes_is_equal(rt: HostRuntime) -> Result<(), Fail> {
    let slcs = Slcs::from_vec(rt.alloc(), vec![in rt.alloc(); 0, 5, 15]?)?;
    let copy = copy_slcs(rt.alloc(), &slcs)?;
    assert!(rt; are_same_slcs(copy.as_slice(), &[0, 5, 15]));
    Ok(())
}

#[test]
fn link_codes_are_given_back(rt: HostRuntime) -> Result<(), Fail> {
    let slcs = Slcs::from_vec(rt.alloc(), vec![in rt.alloc(); 0, 5, 15]?)?;
    let given = slcs.into_vec();
    assert_eq!(rt; given.as_slice(), [0, 5, 15].as_slice());
    Ok(())
}
