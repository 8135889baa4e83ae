//! How the entries of a network text are written: points, pairs, sets and plans.

ghost use Rattle.std.specs.Prelude.{◌≡◌, ◌++◌, ◌∷◌, IfOk, OnOk, string_bytes};
ghost use Rattle.std.specs.List.{flat_map};
ghost use Rattle.point_codes.specs.Codes.{code_text};
ghost use Rattle.tokens.specs.Rows.{row_text, vias_text, classes_text};
ghost use Rattle.tokens.specs.Entries.{pair_text, plan_text, point_text, set_text};

use crate::kinds::point_kind_word;
use crate::marked::put_links;
use crate::words::put_if;
use net_items::{LinkSet, Plan, Point, Row, Vias};
use point_codes::PointCode;
use std::alloc::{AllocError, Global};

/// Adds vias, each after a `+`.
fn put_vias(alloc: Global, text: &mut String, vias: &[PointCode]) -> Result<(), AllocError>
    ensures { OnOk result (string_bytes text.new ≡ string_bytes text.old ++ flat_map (λ x. 43 ∷ code_text x) vias.now) }
{
    for via in vias {
        text.push_str("+")?;
        via.put_text(alloc, text)?;
    }
    Ok(())
}

/// A class in text.
fn write_vias(alloc: Global, vias: &Vias) -> Result<String, AllocError>
    ensures { IfOk result (λ text. string_bytes text ≡ vias_text vias.now) }
{
    match vias.as_slice() {
        [via, others @ ..] => {
            let via = *via;
            let mut text = format!(in alloc; "{via}")?;
            put_vias(alloc, &mut text, others)?;
            Ok(text)
        }
        [] => Ok(String::new(alloc)),
    }
}

/// Adds classes, each after a `/`.
fn put_classes(alloc: Global, text: &mut String, classes: &[Vias]) -> Result<(), AllocError>
    ensures { OnOk result (string_bytes text.new ≡ string_bytes text.old ++ flat_map (λ x. 47 ∷ vias_text x) classes.now) }
{
    for class in classes {
        let word = write_vias(alloc, class)?;
        text.push_str("/")?;
        text.push_str(word.as_str())?;
    }
    Ok(())
}

/// Classes in text.
fn write_classes(alloc: Global, classes: &[Vias]) -> Result<String, AllocError>
    ensures { IfOk result (λ text. string_bytes text ≡ classes_text classes.now) }
{
    match classes {
        [class, others @ ..] => {
            let mut text = write_vias(alloc, class)?;
            put_classes(alloc, &mut text, others)?;
            Ok(text)
        }
        [] => Ok(String::new(alloc)),
    }
}

/// A row in text.
fn write_row(alloc: Global, row: &Row) -> Result<String, AllocError>
    ensures { IfOk result (λ text. string_bytes text ≡ row_text row.now) }
{
    let point = row.point;
    let rank = row.rank;
    let classes = write_classes(alloc, row.classes.as_slice())?;
    let classes = classes.as_str();
    let mut text = format!(in alloc; "{point}:{rank}:{classes}")?;
    put_if(&mut text, row.mate, ":m")?;
    Ok(text)
}

/// Adds rows, each after a space.
fn put_rows(alloc: Global, text: &mut String, rows: &[Row]) -> Result<(), AllocError>
    ensures { OnOk result (string_bytes text.new ≡ string_bytes text.old ++ flat_map (λ x. 32 ∷ row_text x) rows.now) }
{
    for row in rows {
        let word = write_row(alloc, row)?;
        text.push_str(" ")?;
        text.push_str(word.as_str())?;
    }
    Ok(())
}

/// The entry of a point, `CODE KIND`. It fails if memory is refused.
pub fn write_point(alloc: Global, point: &Point) -> Result<String, AllocError>
    ensures { IfOk result (λ text. string_bytes text ≡ point_text point.now) }
{
    let code = point.code;
    let kind = point_kind_word(point.kind);
    let text = format!(in alloc; "{code} {kind}")?;
    Ok(text)
}

/// The entry of a mated pair, `CODE CODE`. It fails if memory is refused.
pub fn write_pair(alloc: Global, one: PointCode, other: PointCode) -> Result<String, AllocError>
    ensures { IfOk result (λ text. string_bytes text ≡ pair_text one other) }
{
    let text = format!(in alloc; "{one} {other}")?;
    Ok(text)
}

/// The entry of a set, `ID CODE CODE MARKED MARKED ..`, in format 2. It fails if memory is refused.
pub fn write_set(alloc: Global, set: &LinkSet) -> Result<String, AllocError>
    ensures { IfOk result (λ text. string_bytes text ≡ set_text set.now) }
{
    let id = set.id;
    let a = set.a;
    let b = set.b;
    let mut text = format!(in alloc; "{id} {a} {b}")?;
    let links = set.links.listed();
    put_links(alloc, &mut text, links.as_slice())?;
    Ok(text)
}

/// The entry of a plan, `CODE ROW ROW ..`. It fails if memory is refused.
pub fn write_plan(alloc: Global, plan: &Plan) -> Result<String, AllocError>
    ensures { IfOk result (λ text. string_bytes text ≡ plan_text plan.now) }
{
    let dest = plan.dest;
    let mut text = format!(in alloc; "{dest}")?;
    put_rows(alloc, &mut text, plan.rows.as_slice())?;
    Ok(text)
}
