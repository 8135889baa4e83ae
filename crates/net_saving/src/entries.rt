//! The entries of the arrays of a network text.

ghost use Rattle.std.specs.Prelude.{◌≡◌, map, IfOk};
ghost use Rattle.std.specs.List.{flat_map};
ghost use Rattle.toml.specs.Data.{string};
ghost use Rattle.toml.specs.View.{view};
ghost use Rattle.tokens.specs.Entries.{plan_text, point_text, set_text};
ghost use Rattle.net_saving.specs.Writing.{pair_texts};

use net_data::Plans;
use net_items::{LinkSet, Point};
use std::alloc::{AllocError, Global};
use tokens::{write_pair, write_plan, write_point, write_set};
use toml::Value;

/// The entries of points.
pub(crate) fn write_points(alloc: Global, points: &[Point]) -> Result<Vec<Value>, AllocError>
    ensures { IfOk result (λ values. map view values.items ≡ map (λ x. string (point_text x)) points.now) }
{
    let mut values = Vec::with_capacity(alloc, points.len())?;
    for point in points {
        let text = write_point(alloc, point)?;
        values.push(Value::String(text))?;
    }
    Ok(values)
}

/// The entries of mated pairs, each at the point of the lower code.
pub(crate) fn write_pairs(alloc: Global, points: &[Point]) -> Result<Vec<Value>, AllocError>
    ensures { IfOk result (λ values. map view values.items ≡ map string (flat_map pair_texts points.now)) }
{
    let mut values = Vec::new(alloc);
    for point in points {
        if let Some(mate) = point.mate {
            if point.code.number() < mate.number() {
                let text = write_pair(alloc, point.code, mate)?;
                values.push(Value::String(text))?;
            }
        }
    }
    Ok(values)
}

/// The entries of sets.
pub(crate) fn write_sets(alloc: Global, sets: &[LinkSet]) -> Result<Vec<Value>, AllocError>
    ensures { IfOk result (λ values. map view values.items ≡ map (λ x. string (set_text x)) sets.now) }
{
    let mut values = Vec::with_capacity(alloc, sets.len())?;
    for set in sets {
        let text = write_set(alloc, set)?;
        values.push(Value::String(text))?;
    }
    Ok(values)
}

/// The entries of plans.
pub(crate) fn write_plans(alloc: Global, plans: &Plans) -> Result<Vec<Value>, AllocError>
    ensures { IfOk result (λ values. map view values.items ≡ map (λ x. string (plan_text x)) plans.now) }
{
    let mut values = Vec::with_capacity(alloc, plans.len())?;
    for place in 0..plans.len() {
        let text = write_plan(alloc, plans.at(place))?;
        values.push(Value::String(text))?;
    }
    Ok(values)
}
