//! A network in text, as tables.

ghost use Rattle.std.specs.Prelude.{◌≡◌, ◌++◌, IfOk, OnOk, string_bytes};
ghost use Rattle.std.specs.List.{flat_map};
ghost use Rattle.net_sheets.specs.About.{network_header, flag_text, entry_record, bare_dest, bare_of, plan_ranks, ranks_of, ranks_told, network_text};
ghost use Rattle.plan_ranks.specs.Given.{row_rank};
ghost use Rattle.net_sheets.specs.Tables.{line_text, point_record, set_record, route_record, class_routes, row_routes, plan_routes, routes_of, links_text, points_text, sets_text, routes_text};

use crate::about::Entry;
use crate::routes::Route;
use net_data::{Net, Plans};
use net_items::{Link, LinkSet, Plan, Point, Row, Vias};
use plan_ranks::RowRank;
use point_codes::PointCode;
use std::alloc::{AllocError, Global};
use tokens::{point_kind_word, put_links, write_marked};

/// The line of a point.
fn point_line(alloc: Global, point: &Point) -> Result<String, AllocError>
    ensures { IfOk result (λ text. string_bytes text ≡ line_text (point_record point.now)) }
{
    let code = point.code;
    let kind = point_kind_word(point.kind);
    match point.mate {
        Some(mate) => {
            let line = format!(in alloc; "{code},{kind},{mate}\n")?;
            Ok(line)
        }
        None => {
            let line = format!(in alloc; "{code},{kind},\n")?;
            Ok(line)
        }
    }
}

/// Links with their marks, between spaces.
fn write_links(alloc: Global, links: &[Link]) -> Result<String, AllocError>
    ensures { IfOk result (λ text. string_bytes text ≡ links_text links.now) }
{
    match links {
        [link, others @ ..] => {
            let mut text = write_marked(alloc, link)?;
            put_links(alloc, &mut text, others)?;
            Ok(text)
        }
        [] => Ok(String::new(alloc)),
    }
}

/// The line of a set.
fn set_line(alloc: Global, set: &LinkSet) -> Result<String, AllocError>
    ensures { IfOk result (λ text. string_bytes text ≡ line_text (set_record set.now)) }
{
    let id = set.id;
    let a = set.a;
    let b = set.b;
    let links = set.links.listed();
    let links = write_links(alloc, links.as_slice())?;
    let links = links.as_str();
    let line = format!(in alloc; "{id},{a},{b},{links}\n")?;
    Ok(line)
}

/// Adds the lines of the vias of a class.
fn put_vias(
    alloc: Global,
    text: &mut String,
    dest: PointCode,
    point: PointCode,
    class: usize,
    vias: &[PointCode],
) -> Result<(), AllocError>
    ensures { OnOk result (string_bytes text.new ≡ string_bytes text.old ++ flat_map (λ z. line_text (route_record (Route.Via dest point class z))) vias.now) }
{
    for via in vias {
        let via = *via;
        let line = format!(in alloc; "{dest},{point},{class},{via}\n")?;
        text.push_str(line.as_str())?;
    }
    Ok(())
}

/// Adds the lines of the vias of classes.
fn put_classes(
    alloc: Global,
    text: &mut String,
    dest: PointCode,
    point: PointCode,
    classes: &[Vias],
) -> Result<(), AllocError>
    ensures { OnOk result (string_bytes text.new ≡ string_bytes text.old ++ flat_map (λ r. line_text (route_record r)) (class_routes dest point 1 classes.now)) }
{
    for (place, vias) in classes.iter().enumerate() {
        put_vias(alloc, text, dest, point, place + 1, vias.as_slice())?;
    }
    Ok(())
}

/// Adds the lines of a row.
fn put_row(alloc: Global, text: &mut String, dest: PointCode, row: &Row) -> Result<(), AllocError>
    ensures { OnOk result (string_bytes text.new ≡ string_bytes text.old ++ flat_map (λ r. line_text (route_record r)) (row_routes dest row.now)) }
{
    let point = row.point;
    put_classes(alloc, text, dest, point, row.classes.as_slice())?;
    if row.mate {
        let line = format!(in alloc; "{dest},{point},mate,\n")?;
        text.push_str(line.as_str())?;
    }
    Ok(())
}

/// Adds the lines of a plan.
fn put_plan(alloc: Global, text: &mut String, plan: &Plan) -> Result<(), AllocError>
    ensures { OnOk result (string_bytes text.new ≡ string_bytes text.old ++ flat_map (λ r. line_text (route_record r)) (plan_routes plan.now)) }
{
    for row in plan.rows.as_slice() {
        put_row(alloc, text, plan.dest, row)?;
    }
    Ok(())
}

/// Adds the lines of plans.
fn put_plans(alloc: Global, text: &mut String, plans: &Plans) -> Result<(), AllocError>
    ensures { OnOk result (string_bytes text.new ≡ string_bytes text.old ++ flat_map (λ r. line_text (route_record r)) (routes_of plans.now)) }
{
    for place in 0..plans.len() {
        put_plan(alloc, text, plans.at(place))?;
    }
    Ok(())
}

/// `true` or `false`.
fn flag_word(flag: bool) -> &'static str
    ensures { result.now ≡ flag_text flag }
{
    if flag { "true" } else { "false" }
}

/// The header of the table of a network, and the lines of the network indicator and of the option.
fn write_head(alloc: Global, ni: u8, tfr: bool) -> Result<String, AllocError>
    ensures { IfOk result (λ text. string_bytes text ≡ line_text network_header ++ (line_text (entry_record (Entry.Ni ni)) ++ line_text (entry_record (Entry.Tfr tfr)))) }
{
    let tfr = flag_word(tfr);
    let text = format!(in alloc; "key,value\nni,{ni}\ntfr,{tfr}\n")?;
    Ok(text)
}

/// Adds the line of a plan without rows.
fn put_bare_line(alloc: Global, text: &mut String, dest: PointCode) -> Result<(), AllocError>
    ensures { OnOk result (string_bytes text.new ≡ string_bytes text.old ++ line_text (entry_record (Entry.Bare dest))) }
{
    let line = format!(in alloc; "plan,{dest}\n")?;
    text.push_str(line.as_str())?;
    Ok(())
}

/// Adds the line of a plan, if it has no row.
fn put_bare(alloc: Global, text: &mut String, plan: &Plan) -> Result<(), AllocError>
    ensures { OnOk result (string_bytes text.new ≡ string_bytes text.old ++ flat_map (λ dest. line_text (entry_record (Entry.Bare dest))) (bare_dest plan.now)) }
{
    match plan.rows.as_slice() {
        [] => put_bare_line(alloc, text, plan.dest),
        [_, ..] => Ok(()),
    }
}

/// Adds the lines of plans that have no row.
fn put_all_bare(alloc: Global, text: &mut String, plans: &Plans) -> Result<(), AllocError>
    ensures { OnOk result (string_bytes text.new ≡ string_bytes text.old ++ flat_map (λ dest. line_text (entry_record (Entry.Bare dest))) (bare_of plans.now)) }
{
    for place in 0..plans.len() {
        put_bare(alloc, text, plans.at(place))?;
    }
    Ok(())
}

/// Adds the line of the rank of a row.
fn put_rank(alloc: Global, text: &mut String, given: RowRank) -> Result<(), AllocError>
    ensures { OnOk result (string_bytes text.new ≡ string_bytes text.old ++ line_text (entry_record (Entry.Rank given))) }
{
    let RowRank { dest, point, rank } = given;
    let line = format!(in alloc; "rank,{dest} {point} {rank}\n")?;
    text.push_str(line.as_str())?;
    Ok(())
}

/// Adds the lines of the ranks of a plan's rows.
fn put_plan_ranks(alloc: Global, text: &mut String, plan: &Plan) -> Result<(), AllocError>
    ensures { OnOk result (string_bytes text.new ≡ string_bytes text.old ++ flat_map (λ r. line_text (entry_record (Entry.Rank r))) (plan_ranks plan.now)) }
{
    for row in plan.rows.as_slice() {
        let given = RowRank {
            dest: plan.dest,
            point: row.point,
            rank: row.rank,
        };
        put_rank(alloc, text, given)?;
    }
    Ok(())
}

/// Adds the lines of the ranks of plans' rows, if they are wanted.
fn put_ranks(
    alloc: Global,
    text: &mut String,
    plans: &Plans,
    wanted: bool,
) -> Result<(), AllocError>
    ensures { OnOk result (string_bytes text.new ≡ string_bytes text.old ++ flat_map (λ r. line_text (entry_record (Entry.Rank r))) (ranks_told wanted plans.now)) }
{
    if !wanted {
        return Ok(());
    }
    for place in 0..plans.len() {
        put_plan_ranks(alloc, text, plans.at(place))?;
    }
    Ok(())
}

/// The table of the network itself: `key,value`, with the ranks of its rows if they are wanted. It fails if memory is refused.
pub fn write_network(alloc: Global, net: &Net, ranked: bool) -> Result<String, AllocError>
    ensures { IfOk result (λ text. string_bytes text ≡ network_text ranked net.now) }
{
    let mut text = write_head(alloc, net.ni(), net.tfr())?;
    put_all_bare(alloc, &mut text, net.plans())?;
    put_ranks(alloc, &mut text, net.plans(), ranked)?;
    Ok(text)
}

/// The table of points: `code,kind,mate`. It fails if memory is refused.
pub fn write_points(alloc: Global, net: &Net) -> Result<String, AllocError>
    ensures { IfOk result (λ text. string_bytes text ≡ points_text net.now) }
{
    let mut text = String::from_str(alloc, "code,kind,mate\n")?;
    for point in net.points() {
        let line = point_line(alloc, point)?;
        text.push_str(line.as_str())?;
    }
    Ok(text)
}

/// The table of sets: `id,a,b,links`. It fails if memory is refused.
pub fn write_sets(alloc: Global, net: &Net) -> Result<String, AllocError>
    ensures { IfOk result (λ text. string_bytes text ≡ sets_text net.now) }
{
    let mut text = String::from_str(alloc, "id,a,b,links\n")?;
    for set in net.sets() {
        let line = set_line(alloc, set)?;
        text.push_str(line.as_str())?;
    }
    Ok(text)
}

/// The table of routes: `destination,point,class,via`. It fails if memory is refused.
pub fn write_routes(alloc: Global, net: &Net) -> Result<String, AllocError>
    ensures { IfOk result (λ text. string_bytes text ≡ routes_text net.now) }
{
    let mut text = String::from_str(alloc, "destination,point,class,via\n")?;
    put_plans(alloc, &mut text, net.plans())?;
    Ok(text)
}
