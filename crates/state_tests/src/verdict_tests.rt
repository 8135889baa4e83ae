//! What `check` says of wrong tables, letter by letter, and `audit` of what is wrongly kept: the calls that they make are handed what no
//! network has.

use crate::samples::{frozen, point, two_ends_excerpt, two_ends_net, two_ends_table};
use crate::wrong_tables::{choosing, first_rows, over, telling, without_links};
use console::{CheckEnd, check_given};
use point_codes::MsgKind;
use route_choice::{Choice, Far};
use std::alloc::Global;
use std::process::Abort;
use std::thread::Threads;
use transfer_state::{Clause, Complaint, Kept, Table, check_kept};

/// What the check of the network of two ends says of tables.
fn verdict_on(rt: &(impl Threads + Sync + Abort), alloc: Global, tables: &[Table]) -> CheckEnd {
    let net = frozen(rt, alloc, two_ends_net(rt, alloc));
    check_given(rt, alloc, &net, tables).expect(rt, "memory")
}

/// It says this of one table.
fn expect_said(
    rt: &(impl Threads + Sync + Abort),
    alloc: Global,
    table: Table,
    text: &str,
    right: bool,
) {
    let tables = vec![in alloc; table].expect(rt, "memory");
    let end = verdict_on(rt, alloc, tables.as_slice());
    let said = end.write(alloc).expect(rt, "memory");
    assert_eq!(rt; (said.as_str(), end.wrong.is_none()), (text, right));
}

/// The table of these ends without its last row.
fn short_table(rt: &impl Abort, alloc: Global) -> Table {
    let table = two_ends_table(rt, alloc);
    Table {
        dest: table.dest,
        rows: first_rows(rt, alloc, &table, 1),
    }
}

/// The table in which a point uses this.
fn table_with(rt: &impl Abort, alloc: Global, text: &str, choice: Choice) -> Table {
    choosing(
        rt,
        alloc,
        &two_ends_table(rt, alloc),
        point(rt, text),
        choice,
    )
}

#[test]
fn check_says_what_is_right(rt: HostRuntime) {
    let table = two_ends_table(&rt, rt.alloc());
    expect_said(&rt, rt.alloc(), table, "ok 1", true);
}

#[test]
fn check_says_what_is_wrong_with_points_and_routes(rt: HostRuntime) {
    let (a, p) = (point(&rt, "2-1-1"), point(&rt, "2-10-1"));
    let short = short_table(&rt, rt.alloc());
    expect_said(&rt, rt.alloc(), short, "bad 2-1-2 2-1-2 a", false);
    let back = table_with(&rt, rt.alloc(), "2-10-1", over(a, Far::Allowed));
    expect_said(&rt, rt.alloc(), back, "bad 2-1-2 2-10-1 b", false);
    let told = table_with(&rt, rt.alloc(), "2-1-1", over(p, Far::Restricted));
    expect_said(&rt, rt.alloc(), told, "bad 2-1-2 2-1-1 c", false);
}

#[test]
fn check_says_what_is_wrong_with_links_and_messages(rt: HostRuntime) {
    let (a, p) = (point(&rt, "2-1-1"), point(&rt, "2-10-1"));
    let table = two_ends_table(&rt, rt.alloc());
    let cut = without_links(&rt, rt.alloc(), &table, a);
    expect_said(&rt, rt.alloc(), cut, "bad 2-1-2 2-1-1 d", false);
    let sent = telling(&rt, rt.alloc(), a, MsgKind::Tfa, p);
    expect_said(&rt, rt.alloc(), sent, "bad 2-1-2 2-1-1 e", false);
}

/// What is kept of the choices of a table.
fn kept_of(rt: &impl Abort, alloc: Global, table: &Table) -> Vec<Kept> {
    let mut kept = Vec::new(alloc);
    for row in table.rows.as_slice() {
        assert!(rt; row.choice.class < 16);
        kept.push(Kept::of(&row.choice)).expect(rt, "memory");
    }
    kept
}

/// The audit says this of what is kept of a table's choices.
fn expect_kept(rt: &impl Abort, alloc: Global, table: &Table, said: Result<(), Complaint>) {
    let kept = kept_of(rt, alloc, table);
    let excerpt = two_ends_excerpt(rt, alloc);
    assert_eq!(rt; check_kept(&excerpt.excerpt(), kept.as_slice()), said);
}

/// A complaint about a point.
fn complaint(rt: &impl Abort, text: &str, clause: Clause) -> Result<(), Complaint> {
    Err(Complaint {
        point: point(rt, text),
        clause,
    })
}

/// The choice of no class.
const NOWHERE: Choice = Choice {
    class: 0,
    members: [None, None],
    status: Far::Prohibited,
};

#[test]
fn the_audit_passes_what_is_rightly_kept(rt: HostRuntime) {
    let table = two_ends_table(&rt, rt.alloc());
    expect_kept(&rt, rt.alloc(), &table, Ok(()));
}

#[test]
fn the_audit_finds_what_is_wrongly_kept(rt: HostRuntime) {
    let short = short_table(&rt, rt.alloc());
    let points = complaint(&rt, "2-1-2", Clause::Points);
    expect_kept(&rt, rt.alloc(), &short, points);
    let cut = table_with(&rt, rt.alloc(), "2-1-1", NOWHERE);
    let route = complaint(&rt, "2-1-1", Clause::Route);
    expect_kept(&rt, rt.alloc(), &cut, route);
    let told = over(point(&rt, "2-10-1"), Far::Restricted);
    let told = table_with(&rt, rt.alloc(), "2-1-1", told);
    let status = complaint(&rt, "2-1-1", Clause::Status);
    expect_kept(&rt, rt.alloc(), &told, status);
}
