//! Entries of sets: a set with its links.

ghost use Rattle.std.specs.Prelude.{◌≡◌, map, option_map, IfOk};
ghost use Rattle.point_codes.specs.Codes.{code_of};
ghost use Rattle.tokens.specs.Numbers.{id_of};
ghost use Rattle.tokens.specs.Marked.{marked_of};
ghost use Rattle.tokens.specs.Pieces.{all_of};
ghost use Rattle.net_text.specs.Entries.{set_of, set_from};

use net_building::GivenSet;
use net_items::Link;
use std::alloc::{AllocError, Global};
use tokens::{Format, read_code, read_id, read_marked};

/// The links of a set, with their marks. `None` if a word is no MARKED.
fn read_links(
    alloc: Global,
    format: Format,
    words: &[&[u8]],
) -> Result<Option<Vec<Link>>, AllocError>
    ensures { IfOk result (λ links. option_map (λ v. v.items) links ≡ all_of (marked_of format) (map (λ w. w.now) words.now)) }
{
    let mut links = Vec::with_capacity(alloc, words.len())?;
    for word in words {
        match read_marked(format, *word) {
            Some(link) => links.push(link)?,
            None => return Ok(None),
        }
    }
    Ok(Some(links))
}

/// A set of these words, with these links.
fn set_with(id: &[u8], a: &[u8], b: &[u8], links: Vec<Link>) -> Option<GivenSet>
    ensures { result ≡ set_from links.items (id_of id.now) (code_of a.now) (code_of b.now) }
{
    let id = read_id(id)?;
    let a = read_code(a)?;
    let b = read_code(b)?;
    Some(GivenSet::new(id, a, b, links))
}

/// An entry `ID CODE CODE MARKED MARKED ..`.
pub fn read_set(
    alloc: Global,
    format: Format,
    words: &[&[u8]],
) -> Result<Option<GivenSet>, AllocError>
    ensures { IfOk result (λ set. set ≡ set_of format (map (λ w. w.now) words.now)) }
{
    match words {
        [id, a, b, links @ ..] => {
            if links.is_empty() {
                return Ok(None);
            }
            match read_links(alloc, format, links)? {
                Some(links) => Ok(set_with(*id, *a, *b, links)),
                None => Ok(None),
            }
        }
        [] => Ok(None),
        [_] => Ok(None),
        [_, _] => Ok(None),
    }
}
