//! Each call that allocates once, and tokens with their values worked out by hand.

use link_state::Marks;
use net_items::{Kind, Link};
use point_codes::PointCode;
use std::alloc::Global;
use std::test::Fail;
use tokens::{
    Format, read_code, read_id, read_kind, read_marked, read_rank, read_row, read_slc, split_words,
};

#[test]
fn words(rt: HostRuntime) -> Result<(), Fail> {
    let words = split_words(rt.alloc(), b"  pair 2-1-1 ".as_slice())?;
    let wanted = [b"pair".as_slice(), b"2-1-1".as_slice()];
    assert_eq!(rt; words.as_slice(), wanted.as_slice());
    Ok(())
}

/// What the row that a text is says: its point by number, its rank, how many classes it has, and whether it may use its
/// mate.
fn row_parts(alloc: Global, text: &str) -> Result<Option<(u16, u8, usize, bool)>, Fail> {
    Ok(match read_row(alloc, text.as_bytes())? {
        Some(row) => {
            let classes = row.classes.as_slice().len();
            Some((row.point.number(), row.rank, classes, row.mate))
        }
        None => None,
    })
}

#[test]
fn rows(rt: HostRuntime) -> Result<(), Fail> {
    let alloc = rt.alloc();
    let said = [
        row_parts(alloc, "2-1-1:2:2-10-1+2-10-2/2-1-3")?,
        row_parts(alloc, "2-10-1:1::m")?,
        row_parts(alloc, "2-10-1:1:/2-1-1")?,
    ];
    let wanted = [Some((4105, 2, 2, false)), Some((4177, 1, 0, true)), None];
    assert_eq!(rt; said, wanted);
    Ok(())
}

#[test]
fn numbers(rt: HostRuntime) {
    let code = read_code(b"2-1-1".as_slice());
    let id = read_id(b"65535".as_slice());
    let slc = read_slc(b"256".as_slice());
    let rank = read_rank(b"01".as_slice());
    let kind = read_kind(b"stp".as_slice());
    let wanted = (
        PointCode::new(4105),
        Some(65535),
        None,
        None,
        Some(Kind::Stp),
    );
    assert_eq!(rt; (code, id, slc, rank, kind), wanted);
}

#[test]
fn links(rt: HostRuntime) {
    let link = Link {
        slc: 10,
        marks: Marks {
            failed: false,
            blocked_a: true,
            blocked_b: false,
            inhibited_a: false,
            inhibited_b: true,
        },
    };
    let read = [
        read_marked(Format::Two, b"10baib".as_slice()),
        read_marked(Format::One, b"10baib".as_slice()),
        read_marked(Format::Two, b"10bbba".as_slice()),
    ];
    assert_eq!(rt; read, [Some(link), None, None]);
}
