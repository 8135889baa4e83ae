//! Edits of points, pairs, sets, links, plans and the option.

ghost use Rattle.std.specs.Prelude.{◌≡◌, map, IfOk};
ghost use Rattle.point_codes.specs.Codes.{code_of};
ghost use Rattle.tokens.specs.Numbers.{id_of};
ghost use Rattle.script_words.specs.Events.{added_point_of, dropped_point_of, point_event_of, pair_of, unpaired_of, set_from, added_set_of, dropped_set_of, set_event_of, added_link_of, dropped_link_of, link_event_of, plan_of, dropped_plan_of, plan_event_of, tfr_of};

use crate::lists::{read_rows, read_slcs};
use crate::words::is_word;
use net_data::Event;
use net_items::{GivenPlan, Plan, Slcs};
use std::alloc::{AllocError, Global};
use tokens::{read_code, read_id, read_kind, read_slc};

/// The event of the words `CODE KIND`: a point comes. `None` if the words have another form.
pub fn read_added_point(words: &[&[u8]]) -> Option<Event>
    ensures { result ≡ added_point_of (map (λ w. w.now) words.now) }
{
    match words {
        [code, kind] => {
            let code = read_code(*code)?;
            let kind = read_kind(*kind)?;
            Some(Event::AddPoint(code, kind))
        }
        [] => None,
        [_] => None,
        [_, _, _, ..] => None,
    }
}

/// `CODE`.
fn read_dropped_point(words: &[&[u8]]) -> Option<Event>
    ensures { result ≡ dropped_point_of (map (λ w. w.now) words.now) }
{
    match words {
        [code] => {
            let code = read_code(*code)?;
            Some(Event::RemovePoint(code))
        }
        [] => None,
        [_, _, ..] => None,
    }
}

/// `add CODE KIND` or `drop CODE`.
pub fn read_point_event(words: &[&[u8]]) -> Option<Event>
    ensures { result ≡ point_event_of (map (λ w. w.now) words.now) }
{
    match words {
        [what, rest @ ..] => {
            if is_word(*what, "add") {
                return read_added_point(rest);
            }
            if is_word(*what, "drop") {
                return read_dropped_point(rest);
            }
            None
        }
        [] => None,
    }
}

/// The event of the words `CODE CODE`: two points become mates. `None` if the words have another form.
pub fn read_pair(words: &[&[u8]]) -> Option<Event>
    ensures { result ≡ pair_of (map (λ w. w.now) words.now) }
{
    match words {
        [one, other] => {
            let one = read_code(*one)?;
            let other = read_code(*other)?;
            Some(Event::Pair(one, other))
        }
        [] => None,
        [_] => None,
        [_, _, _, ..] => None,
    }
}

/// `CODE`.
pub fn read_unpaired(words: &[&[u8]]) -> Option<Event>
    ensures { result ≡ unpaired_of (map (λ w. w.now) words.now) }
{
    match words {
        [code] => {
            let code = read_code(*code)?;
            Some(Event::Unpair(code))
        }
        [] => None,
        [_, _, ..] => None,
    }
}

/// The new set of these words, with these link codes.
fn set_with(id: &[u8], a: &[u8], b: &[u8], slcs: Slcs) -> Option<Event>
    ensures { result ≡ set_from slcs (id_of id.now) (code_of a.now) (code_of b.now) }
{
    let id = read_id(id)?;
    let a = read_code(a)?;
    let b = read_code(b)?;
    Some(Event::AddSet(id, a, b, slcs))
}

/// `ID CODE CODE SLC SLC ..`.
fn read_added_set(alloc: Global, words: &[&[u8]]) -> Result<Option<Event>, AllocError>
    ensures { IfOk result (λ event. event ≡ added_set_of (map (λ w. w.now) words.now)) }
{
    match words {
        [id, a, b, slcs @ ..] => {
            if slcs.is_empty() {
                return Ok(None);
            }
            match read_slcs(alloc, slcs)? {
                Some(slcs) => Ok(set_with(*id, *a, *b, slcs)),
                None => Ok(None),
            }
        }
        [] => Ok(None),
        [_] => Ok(None),
        [_, _] => Ok(None),
    }
}

/// `ID`.
fn read_dropped_set(words: &[&[u8]]) -> Option<Event>
    ensures { result ≡ dropped_set_of (map (λ w. w.now) words.now) }
{
    match words {
        [id] => {
            let id = read_id(*id)?;
            Some(Event::RemoveSet(id))
        }
        [] => None,
        [_, _, ..] => None,
    }
}

/// `add ID CODE CODE SLC SLC ..` or `drop ID`.
pub fn read_set_event(alloc: Global, words: &[&[u8]]) -> Result<Option<Event>, AllocError>
    ensures { IfOk result (λ event. event ≡ set_event_of (map (λ w. w.now) words.now)) }
{
    match words {
        [what, rest @ ..] => {
            if is_word(*what, "add") {
                return read_added_set(alloc, rest);
            }
            if is_word(*what, "drop") {
                return Ok(read_dropped_set(rest));
            }
            Ok(None)
        }
        [] => Ok(None),
    }
}

/// `ID SLC`.
fn read_added_link(words: &[&[u8]]) -> Option<Event>
    ensures { result ≡ added_link_of (map (λ w. w.now) words.now) }
{
    match words {
        [id, slc] => {
            let id = read_id(*id)?;
            let slc = read_slc(*slc)?;
            Some(Event::AddLink(id, slc))
        }
        [] => None,
        [_] => None,
        [_, _, _, ..] => None,
    }
}

/// `ID SLC`.
fn read_dropped_link(words: &[&[u8]]) -> Option<Event>
    ensures { result ≡ dropped_link_of (map (λ w. w.now) words.now) }
{
    match words {
        [id, slc] => {
            let id = read_id(*id)?;
            let slc = read_slc(*slc)?;
            Some(Event::RemoveLink(id, slc))
        }
        [] => None,
        [_] => None,
        [_, _, _, ..] => None,
    }
}

/// `add ID SLC` or `drop ID SLC`.
pub fn read_link_event(words: &[&[u8]]) -> Option<Event>
    ensures { result ≡ link_event_of (map (λ w. w.now) words.now) }
{
    match words {
        [what, rest @ ..] => {
            if is_word(*what, "add") {
                return read_added_link(rest);
            }
            if is_word(*what, "drop") {
                return read_dropped_link(rest);
            }
            None
        }
        [] => None,
    }
}

/// The event of the words `CODE ROW ROW ..`: the plan of a destination is set, an empty one if there is no ROW. `None` if
/// the words have another form. It fails if memory is refused.
pub fn read_plan(alloc: Global, words: &[&[u8]]) -> Result<Option<Event>, AllocError>
    ensures { IfOk result (λ event. event ≡ plan_of (map (λ w. w.now) words.now)) }
{
    match words {
        [dest, rows @ ..] => {
            let Some(dest) = read_code(*dest) else {
                return Ok(None);
            };
            match read_rows(alloc, rows)? {
                Some(rows) => Ok(Some(Event::SetPlan(GivenPlan::new(alloc, Plan { dest, rows })?))),
                None => Ok(None),
            }
        }
        [] => Ok(None),
    }
}

/// `CODE`.
fn read_dropped_plan(words: &[&[u8]]) -> Option<Event>
    ensures { result ≡ dropped_plan_of (map (λ w. w.now) words.now) }
{
    match words {
        [code] => {
            let code = read_code(*code)?;
            Some(Event::DropPlan(code))
        }
        [] => None,
        [_, _, ..] => None,
    }
}

/// `set CODE ROW ROW ..` or `drop CODE`.
pub fn read_plan_event(alloc: Global, words: &[&[u8]]) -> Result<Option<Event>, AllocError>
    ensures { IfOk result (λ event. event ≡ plan_event_of (map (λ w. w.now) words.now)) }
{
    match words {
        [what, rest @ ..] => {
            if is_word(*what, "set") {
                return read_plan(alloc, rest);
            }
            if is_word(*what, "drop") {
                return Ok(read_dropped_plan(rest));
            }
            Ok(None)
        }
        [] => Ok(None),
    }
}

/// `on` or `off`.
pub fn read_tfr(words: &[&[u8]]) -> Option<Event>
    ensures { result ≡ tfr_of (map (λ w. w.now) words.now) }
{
    match words {
        [what] => {
            if is_word(*what, "on") {
                return Some(Event::SetTfr(true));
            }
            if is_word(*what, "off") {
                return Some(Event::SetTfr(false));
            }
            None
        }
        [] => None,
        [_, _, ..] => None,
    }
}
