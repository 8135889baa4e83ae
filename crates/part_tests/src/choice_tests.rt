//! A row with a class of two vias and a class of one.

ghost use Rattle.std.specs.Prelude.{◌≤◌, All, IfOk, length};

use crate::parts::code;
use net_items::lookups::find_row;
use net_items::{Classes, Row, Vias};
use point_codes::PointCode;
use route_choice::{Choice, Far, choose, direct};
use std::alloc::{AllocError, Global};
use std::test::Fail;

/// A row of a point with a class of two vias and a class of one.
fn row_of(
    alloc: Global,
    point: PointCode,
    both: [PointCode; 2],
    one: PointCode,
) -> Result<Row, AllocError>
    ensures few { IfOk result (λ row. length row.classes ≤ 4) }
    ensures small { IfOk result (λ row. All (λ vias. length vias ≤ 2) row.classes) }
{
    let first = Vias::from_slice(alloc, &both)?;
    let second = Vias::from_slice(alloc, &[one])?;
    Ok(Row {
        point,
        rank: 2,
        classes: Classes::of_two(alloc, first, second)?,
        mate: true,
    })
}

/// The row of 0-0-1 with the classes 0-0-2+0-0-3 and 0-0-4.
fn new_row(alloc: Global) -> Result<Row, Fail>
    ensures few { IfOk result (λ row. length row.classes ≤ 4) }
    ensures small { IfOk result (λ row. All (λ vias. length vias ≤ 2) row.classes) }
{
    let both = [code("0-0-2")?, code("0-0-3")?];
    Ok(row_of(alloc, code("0-0-1")?, both, code("0-0-4")?)?)
}

/// The choice of the row where only its second class is allowed, and its status without restriction.
fn chosen_of_second(alloc: Global) -> Result<(Choice, Far), Fail> {
    let mate = code("0-1-1")?;
    let row = new_row(alloc)?;
    let mut fars = [[Far::Prohibited; 2]; 4];
    fars[0][1] = Far::Restricted;
    fars[1][0] = Far::Allowed;
    let choice = choose(&row, &fars, Some((mate, Far::Allowed)), true);
    Ok((choice, direct(&row, &fars, false)))
}

#[test]
fn leaves_the_first_class(rt: HostRuntime) -> Result<(), Fail> {
    let four = code("0-0-4")?;
    let wanted = Choice {
        class: 2,
        members: [Some(four), None],
        status: Far::Restricted,
    };
    let said = chosen_of_second(rt.alloc())?;
    assert_eq!(rt; said, (wanted, Far::Allowed));
    Ok(())
}

/// The choice of the row where its mate alone offers something.
fn chosen_of_mate(alloc: Global, mate: PointCode) -> Result<Choice, Fail> {
    let row = new_row(alloc)?;
    let fars = [[Far::Prohibited; 2]; 4];
    Ok(choose(&row, &fars, Some((mate, Far::Restricted)), true))
}

#[test]
fn uses_the_mate(rt: HostRuntime) -> Result<(), Fail> {
    let mate = code("0-1-1")?;
    let wanted = Choice {
        class: 5,
        members: [Some(mate), None],
        status: Far::Restricted,
    };
    assert_eq!(rt; chosen_of_mate(rt.alloc(), mate)?, wanted);
    Ok(())
}

/// Whether the row of 0-0-1 is found for this point.
fn is_found(alloc: Global, point: &str) -> Result<bool, Fail> {
    let rows = [new_row(alloc)?];
    Ok(find_row(&rows, code(point)?).is_some())
}

#[test]
fn finds_the_row_of_a_point(rt: HostRuntime) -> Result<(), Fail> {
    let own = is_found(rt.alloc(), "0-0-1")?;
    let other = is_found(rt.alloc(), "0-0-2")?;
    assert_eq!(rt; (own, other), (true, false));
    Ok(())
}
