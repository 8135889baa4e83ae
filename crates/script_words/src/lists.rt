//! Lists of link codes and of rows.

ghost use Rattle.std.specs.Prelude.{◌≡◌, map, IfOk};
ghost use Rattle.tokens.specs.Numbers.{slc_of};
ghost use Rattle.tokens.specs.Pieces.{all_of};
ghost use Rattle.tokens.specs.Rows.{row_of};

use net_items::{Rows, Slcs};
use std::alloc::{AllocError, Global};
use tokens::{read_row, read_slc};

/// The link codes of a set. `None` if a word is no SLC.
pub fn read_slcs(alloc: Global, words: &[&[u8]]) -> Result<Option<Slcs>, AllocError>
    ensures { IfOk result (λ slcs. slcs ≡ all_of slc_of (map (λ w. w.now) words.now)) }
{
    let mut slcs = Vec::with_capacity(alloc, words.len())?;
    for word in words {
        match read_slc(*word) {
            Some(slc) => slcs.push(slc)?,
            None => return Ok(None),
        }
    }
    Ok(Some(Slcs::from_vec(alloc, slcs)?))
}

/// The rows of a plan. `None` if a word is no ROW.
pub fn read_rows(alloc: Global, words: &[&[u8]]) -> Result<Option<Rows>, AllocError>
    ensures { IfOk result (λ rows. rows ≡ all_of row_of (map (λ w. w.now) words.now)) }
{
    let mut rows = Vec::with_capacity(alloc, words.len())?;
    for word in words {
        match read_row(alloc, *word)? {
            Some(row) => rows.push(row)?,
            None => return Ok(None),
        }
    }
    Ok(Some(Rows::from_vec(alloc, rows)?))
}
