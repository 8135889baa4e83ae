//! Events between words `;`.

ghost use Rattle.std.specs.Prelude.{◌≡◌, ◌<◌, ◌++◌, ◌∷◌, [], true, false, length, map, position, codes, option_map, Ok, Some, None, IfOk, IfSome};
ghost use Rattle.std.specs.Str.{bytes_eq};
ghost use Rattle.script_words.specs.Wholes.{listed_of};
ghost use Rattle.script_words.specs.Commands.{events_of};

use crate::commands::Events;
use crate::wholes::read_listed;
use net_building::Listed;
use std::alloc::{AllocError, Global};

/// Where the first word `;` stands.
fn find_stop(words: &[&[u8]]) -> Option<usize>
    ensures place { result ≡ position (λ w. bytes_eq w.now (codes ";")) words.now }
    ensures within { IfSome result (λ i. i < length words.now) }
{
    words.iter().position(|word| *word == b";".as_slice())
}

/// Adds what words say that may stand in a list of events. `false` if they say nothing such.
fn add_listed(alloc: Global, list: &mut Vec<Listed>, words: &[&[u8]]) -> Result<bool, AllocError>
    ensures added { result ≡ Ok true → option_map (λ entry. list.old.items ++ entry ∷ []) (listed_of (map (λ w. w.now) words.now)) ≡ Some list.new.items }
    ensures none { result ≡ Ok false → listed_of (map (λ w. w.now) words.now) ≡ None }
{
    match read_listed(alloc, words)? {
        Some(entry) => {
            list.push(entry)?;
            Ok(true)
        }
        None => Ok(false),
    }
}

/// `EVENT ; EVENT ..`: all that stands there, or nothing if a piece is neither an event nor the change of a whole set or point.
pub fn read_events(alloc: Global, words: &[&[u8]]) -> Result<Option<Events>, AllocError>
    ensures { IfOk result (λ events. events ≡ events_of (map (λ w. w.now) words.now)) }
{
    let mut list = Vec::new(alloc);
    let mut start = 0;
    while let Some(size) = find_stop(&words[start..]) {
        let added = add_listed(alloc, &mut list, &words[start..start + size])?;
        if !added {
            return Ok(None);
        }
        start += size + 1;
    }
    let added = add_listed(alloc, &mut list, &words[start..])?;
    if !added {
        return Ok(None);
    }
    Ok(Some(Events::from_vec(list)))
}
