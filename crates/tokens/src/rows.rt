//! ROW: a row of a plan.

ghost use Rattle.std.specs.Prelude.{◌≡◌, ◌<◌, ◌≤◌, ◌++◌, ◌∷◌, [], true, false, codes, length, option_map, Ok, None, Some, IfOk};
ghost use Rattle.std.specs.Fmt.{decimal};
ghost use Rattle.std.specs.List.{AllByRecursion};
ghost use Rattle.std.specs.Option.{IfSome};
ghost use Rattle.net_items.specs.declared.lists.Row.{Row};
ghost use Rattle.point_codes.specs.Codes.{code_text, split_of};
ghost use Rattle.tokens.specs.Pieces.{pieces_of};
ghost use Rattle.tokens.specs.Rows.{vias_of, classes_of, flag_of, parts_of, row_of, vias_text, classes_text, IsClass};
ghost use Rattle.tokens.specs.Words.{word_if};

use crate::numbers::{read_code, read_rank};
use net_items::{Classes, Row, Vias};
use point_codes::{PointCode, split_at_byte};
use std::alloc::{AllocError, Global};

/// The vias of a class: codes joined by `+`.
fn read_vias(alloc: Global, text: &[u8]) -> Result<Option<Vias>, AllocError>
    ensures { IfOk result (λ vias. vias ≡ vias_of text.now) }
{
    let mut vias = Vias::new();
    let mut rest = text;
    while let Some((first, after)) = split_at_byte(rest, b'+') {
        match read_code(first) {
            Some(code) => vias.push(alloc, code)?,
            None => return Ok(None),
        }
        rest = after;
    }
    match read_code(rest) {
        Some(code) => vias.push(alloc, code)?,
        None => return Ok(None),
    }
    Ok(Some(vias))
}

/// One class.
fn read_class(alloc: Global, text: &[u8]) -> Result<Option<Classes>, AllocError>
    requires { split_of 47 text.now ≡ None }
    ensures { IfOk result (λ classes. classes ≡ pieces_of 47 vias_of text.now) }
{
    match read_vias(alloc, text)? {
        Some(vias) => Ok(Some(Classes::of_one(vias))),
        None => Ok(None),
    }
}

/// Adds the class that a text is. `false` if it is none.
fn add_class(alloc: Global, classes: &mut Vec<Vias>, text: &[u8]) -> Result<bool, AllocError>
    ensures added { result ≡ Ok true → option_map (λ vias. classes.old.items ++ vias ∷ []) (vias_of text.now) ≡ Some classes.new.items }
    ensures none { result ≡ Ok false → vias_of text.now ≡ None }
{
    match read_vias(alloc, text)? {
        Some(vias) => {
            classes.push(vias)?;
            Ok(true)
        }
        None => Ok(false),
    }
}

/// How many classes are joined by `/`. A search from stroke to stroke is faster than a look at each byte.
fn count_classes(text: &[u8]) -> usize {
    let mut count = 1usize;
    let mut rest = text;
    while let Some((_, after)) = split_at_byte(rest, b'/') {
        count = count.saturating_add(1);
        rest = after;
    }
    count
}

/// Classes joined by `/`.
fn read_joined_classes(alloc: Global, text: &[u8]) -> Result<Option<Classes>, AllocError>
    ensures { IfOk result (λ classes. classes ≡ pieces_of 47 vias_of text.now) }
{
    let mut classes = Vec::with_capacity(alloc, count_classes(text))?;
    let mut rest = text;
    while let Some((first, after)) = split_at_byte(rest, b'/') {
        let added = add_class(alloc, &mut classes, first)?;
        if !added {
            return Ok(None);
        }
        rest = after;
    }
    let added = add_class(alloc, &mut classes, rest)?;
    if !added {
        return Ok(None);
    }
    Ok(Some(Classes::from_vec(alloc, classes)?))
}

/// The classes of a row: none, or joined by `/`.
fn read_classes(alloc: Global, text: &[u8]) -> Result<Option<Classes>, AllocError>
    ensures { IfOk result (λ classes. classes ≡ classes_of text.now) }
{
    if text.is_empty() {
        return Ok(Some(Classes::new()));
    }
    // Most rows have one class.
    match split_at_byte(text, b'/') {
        None => read_class(alloc, text),
        Some(_) => read_joined_classes(alloc, text),
    }
}

/// The text of the classes, and whether `:m` comes after it.
fn take_flag(text: &[u8]) -> Option<(&[u8], bool)>
    ensures { option_map (λ p. (p.0.now, p.1)) result ≡ flag_of text.entry.now }
{
    match split_at_byte(text, b':') {
        Some((classes, flag)) => {
            if flag == b"m".as_slice() {
                Some((classes, true))
            } else {
                None
            }
        }
        None => Some((text, false)),
    }
}

/// The parts of a row.
fn split_row(text: &[u8]) -> Option<(PointCode, u8, &[u8], bool)>
    ensures { option_map (λ p. (p.0, p.1, p.2.now, p.3)) result ≡ parts_of text.entry.now }
{
    let (code, rest) = split_at_byte(text, b':')?;
    let (rank, tail) = split_at_byte(rest, b':')?;
    let (classes, mate) = take_flag(tail)?;
    let point = read_code(code)?;
    let rank = read_rank(rank)?;
    Some((point, rank, classes, mate))
}

/// How long the code is that a text begins with, by where its second `-` stands.
fn code_length(text: &[u8]) -> Option<usize>
    ensures { IfSome result (λ n. n ≤ length text.now) }
{
    match text {
        [_, _, _, b'-', _, ..] => Some(5),
        [_, _, _, _, b'-', _, ..] => Some(6),
        [_, _, _, _, _, b'-', _, ..] => Some(7),
        _ => None,
    }
}

/// The code that a text begins with, and what comes after it.
fn take_code(text: &[u8]) -> Option<(PointCode, &[u8])>
    ensures code { IfSome result (λ p. p.0 < 16384) }
    ensures text { IfSome result (λ p. text.entry.now ≡ code_text p.0 ++ p.1.now) }
{
    let (code, rest) = text.split_at(code_length(text)?);
    Some((read_code(code)?, rest))
}

/// What comes after a byte that a text begins with. `None` if it begins with another.
fn take_byte(text: &[u8], byte: u8) -> Option<&[u8]>
    ensures { IfSome result (λ rest. text.entry.now ≡ byte ∷ rest.now) }
{
    match text {
        [first, rest @ ..] if *first == byte => Some(rest),
        _ => None,
    }
}

/// The point and the rank that a row begins with, and what comes after them.
fn take_head(text: &[u8]) -> Option<(PointCode, u8, &[u8])>
    ensures code { IfSome result (λ p. p.0 < 16384) }
    ensures rank { IfSome result (λ p. p.1 ≤ 255) }
    ensures text { IfSome result (λ p. text.entry.now ≡ code_text p.0 ++ (58 ∷ (decimal p.1 ++ (58 ∷ p.2.now)))) }
{
    // Not by `?`, which the prover doesn't cover for a pair of a code and a text.
    let Some(head) = take_code(text) else {
        return None;
    };
    let rest = take_byte(head.1, b':')?;
    let (rank, rest) = split_at_byte(rest, b':')?;
    Some((head.0, read_rank(rank)?, rest))
}

/// The class of one or two vias that a text begins with, and what comes after it.
fn take_class(text: &[u8]) -> Option<(Vias, &[u8])>
    ensures class { IfSome result (λ p. IsClass p.0) }
    ensures text { IfSome result (λ p. text.entry.now ≡ vias_text p.0 ++ p.1.now) }
{
    let Some((first, rest)) = take_code(text) else {
        return None;
    };
    let Some(more) = take_byte(rest, b'+') else {
        return Some((Vias::of_one(first), rest));
    };
    let Some((second, rest)) = take_code(more) else {
        return None;
    };
    Some((Vias::of_two(first, second), rest))
}

/// The one or two classes that a text begins with, and what comes after them.
fn take_classes(alloc: Global, text: &[u8]) -> Result<Option<(Classes, &[u8])>, AllocError>
    ensures classes { IfOk result (λ o. IfSome o (λ p. AllByRecursion IsClass p.0)) }
    ensures text { IfOk result (λ o. IfSome o (λ p. text.entry.now ≡ classes_text p.0 ++ p.1.now)) }
{
    let Some((first, rest)) = take_class(text) else {
        return Ok(None);
    };
    let Some(more) = take_byte(rest, b'/') else {
        return Ok(Some((Classes::of_one(first), rest)));
    };
    let Some((second, rest)) = take_class(more) else {
        return Ok(None);
    };
    Ok(Some((Classes::of_two(alloc, first, second)?, rest)))
}

/// Whether what comes after the classes of a row is the mate flag. `None` if it is neither that nor nothing.
fn read_end(text: &[u8]) -> Option<bool>
    ensures { IfSome result (λ mate. text.now ≡ word_if mate (codes ":m")) }
{
    match text {
        [] => Some(false),
        [b':', b'm'] => Some(true),
        _ => None,
    }
}

/// The row that a token is, if it is written as most are, with one or two classes of one or two vias: it is read from the front, and
/// no byte is searched for but the colon after the rank. `None` tells nothing.
fn read_plain_row(alloc: Global, text: &[u8]) -> Result<Option<Row>, AllocError>
    ensures { IfOk result (λ o. IfSome o (λ row. row_of text.now ≡ Some row)) }
{
    let Some(head) = take_head(text) else {
        return Ok(None);
    };
    let Some((classes, rest)) = take_classes(alloc, head.2)? else {
        return Ok(None);
    };
    let Some(mate) = read_end(rest) else {
        return Ok(None);
    };
    Ok(Some(Row {
        point: head.0,
        rank: head.1,
        classes,
        mate,
    }))
}

/// The row that a token is, whatever its form.
fn read_any_row(alloc: Global, text: &[u8]) -> Result<Option<Row>, AllocError>
    ensures { IfOk result (λ row. row ≡ row_of text.now) }
{
    match split_row(text) {
        Some((point, rank, classes, mate)) => match read_classes(alloc, classes)? {
            Some(classes) => Ok(Some(Row {
                point,
                rank,
                classes,
                mate,
            })),
            None => Ok(None),
        },
        None => Ok(None),
    }
}

/// The row that a token is.
pub fn read_row(alloc: Global, text: &[u8]) -> Result<Option<Row>, AllocError>
    ensures { IfOk result (λ row. row ≡ row_of text.now) }
{
    match read_plain_row(alloc, text)? {
        Some(row) => Ok(Some(row)),
        None => read_any_row(alloc, text),
    }
}
