//! What the local check of a table says: of the table of its network, of those of other networks, and of tables that no
//! network has.

use crate::samples::{Edit, new_table, point, two_ends_excerpt, two_ends_table, worked_excerpt};
use crate::wrong_tables::{choosing, first_rows, over, telling, without_links};
use link_state::LinkChange;
use point_codes::{MsgKind, PointCode};
use route_choice::{Choice, Far};
use std::alloc::Global;
use std::process::Abort;
use transfer_state::{
    Clause, Complaint, Message, Messages, RowLinks, RowState, RowStates, Table, check,
};

/// What a check says.
type Said = Result<(), Complaint>;

/// The check complains of a clause at a point.
fn expect_complaint(rt: &impl Abort, said: Said, text: &str, clause: Clause) {
    let point = point(rt, text);
    assert_eq!(rt; said, Err(Complaint { point, clause }));
}

/// What the check says of a table between two ends.
fn said_of(rt: &impl Abort, alloc: Global, table: &Table) -> Said {
    let excerpt = two_ends_excerpt(rt, alloc);
    check(&excerpt.excerpt(), table)
}

#[test]
fn passes_its_table(rt: HostRuntime) {
    let table = two_ends_table(&rt, rt.alloc());
    assert_eq!(rt; said_of(&rt, rt.alloc(), &table), Ok(()));
}

/// What the check says of a table of some rows, and of another destination.
fn said_with(rt: &impl Abort, alloc: Global, count: usize, dest: &str) -> Said {
    let dest = point(rt, dest);
    let rows = first_rows(rt, alloc, &two_ends_table(rt, alloc), count);
    said_of(rt, alloc, &Table { dest, rows })
}

#[test]
fn finds_wrong_points(rt: HostRuntime) {
    let alloc = rt.alloc();
    expect_complaint(
        &rt,
        said_with(&rt, alloc, 1, "2-1-2"),
        "2-1-2",
        Clause::Points,
    );
    expect_complaint(
        &rt,
        said_with(&rt, alloc, 2, "2-1-1"),
        "2-1-2",
        Clause::Points,
    );
}

#[test]
fn finds_a_wrong_choice(rt: HostRuntime) {
    let alloc = rt.alloc();
    let (a, p) = (point(&rt, "2-1-1"), point(&rt, "2-10-1"));
    let table = two_ends_table(&rt, alloc);
    let back = choosing(&rt, alloc, &table, p, over(a, Far::Allowed));
    expect_complaint(&rt, said_of(&rt, alloc, &back), "2-10-1", Clause::Route);
    let restricted = choosing(&rt, alloc, &back, a, over(p, Far::Restricted));
    expect_complaint(
        &rt,
        said_of(&rt, alloc, &restricted),
        "2-1-1",
        Clause::Status,
    );
}

#[test]
fn finds_wrong_links_and_messages(rt: HostRuntime) {
    let alloc = rt.alloc();
    let (a, p) = (point(&rt, "2-1-1"), point(&rt, "2-10-1"));
    let sent = telling(&rt, alloc, a, MsgKind::Tfa, p);
    expect_complaint(&rt, said_of(&rt, alloc, &sent), "2-1-1", Clause::Messages);
    let cut = without_links(&rt, alloc, &sent, a);
    expect_complaint(&rt, said_of(&rt, alloc, &cut), "2-1-1", Clause::Links);
}

/// A row is wrong by what it hears, and not by what its via knows.
#[test]
fn finds_a_route_that_no_message_allows(rt: HostRuntime) {
    let (a, p) = (point(&rt, "2-1-1"), point(&rt, "2-10-1"));
    let told = telling(&rt, rt.alloc(), p, MsgKind::Tfp, a);
    expect_complaint(&rt, said_of(&rt, rt.alloc(), &told), "2-1-1", Clause::Route);
}

const FAIL_3_0: Edit = (3, 0, LinkChange::Fail);

const FAIL_3_1: Edit = (3, 1, LinkChange::Fail);

const FAIL_4_0: Edit = (4, 0, LinkChange::Fail);

const RESTORE_6_0: Edit = (6, 0, LinkChange::Restore);

/// The table of 2-1-2 in the worked network after those edits.
fn table_after(rt: &impl Abort, alloc: Global, edits: &[Edit]) -> Table {
    let excerpt = worked_excerpt(rt, alloc, edits);
    new_table(rt, alloc, &excerpt.excerpt())
}

/// What the check says of the table after some edits, on the excerpt after others.
fn check_after(rt: &impl Abort, alloc: Global, made: &[Edit], read: &[Edit]) -> Said {
    let table = table_after(rt, alloc, made);
    let excerpt = worked_excerpt(rt, alloc, read);
    check(&excerpt.excerpt(), &table)
}

#[test]
fn a_table_is_that_of_its_network(rt: HostRuntime) {
    assert_eq!(rt; check_after(&rt, rt.alloc(), &[], &[]), Ok(()));
}

#[test]
fn a_table_is_not_that_of_another_state(rt: HostRuntime) {
    let alloc = rt.alloc();
    expect_complaint(
        &rt,
        check_after(&rt, alloc, &[FAIL_4_0], &[]),
        "2-10-2",
        Clause::Route,
    );
    expect_complaint(
        &rt,
        check_after(&rt, alloc, &[], &[FAIL_4_0]),
        "2-10-2",
        Clause::Route,
    );
    expect_complaint(
        &rt,
        check_after(&rt, alloc, &[], &[RESTORE_6_0]),
        "2-10-1",
        Clause::Messages,
    );
}

/// The links of a point in the table after those edits.
fn links_after(rt: &impl Abort, alloc: Global, point: PointCode, edits: &[Edit]) -> RowLinks {
    let table = table_after(rt, alloc, edits);
    table.row(point).expect(rt, "a row").links.copy()
}

/// A row with a restricted choice.
fn restricted(
    point: PointCode,
    class: u8,
    members: [Option<PointCode>; 2],
    links: RowLinks,
    messages: Messages,
) -> RowState {
    RowState {
        point,
        choice: Choice {
            class,
            members,
            status: Far::Restricted,
        },
        links,
        messages,
    }
}

/// The messages of a transfer point that uses its mate: to the end point 2-1-1, and to the mate.
fn messages_over(rt: &impl Abort, alloc: Global, mate: PointCode) -> Messages {
    let to_end = Message {
        kind: MsgKind::Tfr,
        to: point(rt, "2-1-1"),
    };
    let to_mate = Message {
        kind: MsgKind::Tfp,
        to: mate,
    };
    Messages::from_vec(Vec::from_slice(alloc, &[to_end, to_mate]).expect(rt, "memory"))
}

/// The row of a transfer point that uses its mate, with its links where the edits leave it the mate alone.
fn over_mate(
    rt: &impl Abort,
    alloc: Global,
    point: PointCode,
    mate: PointCode,
    edits: &[Edit],
) -> RowState {
    let links = links_after(rt, alloc, point, edits);
    let messages = messages_over(rt, alloc, mate);
    restricted(point, 5, [Some(mate), None], links, messages)
}

/// The table of 2-1-2 in which each transfer point uses the other.
fn round_table(rt: &impl Abort, alloc: Global) -> Table {
    let (a, p, q) = (point(rt, "2-1-1"), point(rt, "2-10-1"), point(rt, "2-10-2"));
    let none = Messages::from_vec(Vec::new(alloc));
    let end = restricted(
        a,
        1,
        [Some(p), Some(q)],
        links_after(rt, alloc, a, &[]),
        none,
    );
    let first = over_mate(rt, alloc, p, q, &[FAIL_3_0, FAIL_3_1]);
    let second = over_mate(rt, alloc, q, p, &[FAIL_4_0]);
    let rows = vec![in alloc; end, first, second].expect(rt, "memory");
    Table {
        dest: point(rt, "2-1-2"),
        rows: RowStates::from_vec(rows),
    }
}

#[test]
fn mates_do_not_use_each_other(rt: HostRuntime) {
    let table = round_table(&rt, rt.alloc());
    let excerpt = worked_excerpt(&rt, rt.alloc(), &[FAIL_3_0, FAIL_3_1, FAIL_4_0]);
    expect_complaint(
        &rt,
        check(&excerpt.excerpt(), &table),
        "2-10-1",
        Clause::Route,
    );
}

/// What the check says of a table of some rows of the worked network, and of another destination.
fn check_with(rt: &impl Abort, alloc: Global, count: usize, dest: &str) -> Said {
    let dest = point(rt, dest);
    let rows = first_rows(rt, alloc, &table_after(rt, alloc, &[]), count);
    let excerpt = worked_excerpt(rt, alloc, &[]);
    check(&excerpt.excerpt(), &Table { dest, rows })
}

#[test]
fn a_table_has_the_points_of_its_plan(rt: HostRuntime) {
    let alloc = rt.alloc();
    expect_complaint(
        &rt,
        check_with(&rt, alloc, 2, "2-1-2"),
        "2-1-2",
        Clause::Points,
    );
    expect_complaint(
        &rt,
        check_with(&rt, alloc, 3, "2-1-3"),
        "2-1-2",
        Clause::Points,
    );
}
