//! Pictures and networks for files.

ghost use Rattle.std.specs.Prelude.{◌≡◌, map, IfOk, IfSome};
ghost use Rattle.script_words.specs.Commands.{IsWithin, destination_of, name_of, picture_of, save_of};

use crate::commands::{Command, FileName};
use point_codes::PointCode;
use std::alloc::{AllocError, Global};
use tokens::read_code;

/// The name of a file.
fn read_name(alloc: Global, word: &[u8]) -> Result<Option<FileName>, AllocError>
    ensures { IfOk result (λ name. name ≡ name_of word.now) }
{
    match str::from_utf8(word) {
        Ok(text) => Ok(Some(FileName::from_string(String::from_str(alloc, text)?))),
        Err(_) => Ok(None),
    }
}

/// No word, or `X`. `None` if it is neither.
fn read_destination(words: &[&[u8]]) -> Option<Option<PointCode>>
    ensures { result ≡ destination_of (map (λ w. w.now) words.now) }
{
    match words {
        [] => Some(None),
        [dest] => read_code(*dest).map(Some),
        [_, _, ..] => None,
    }
}

/// `FILE` or `FILE X`.
pub fn read_picture(alloc: Global, words: &[&[u8]]) -> Result<Option<Command>, AllocError>
    ensures value { IfOk result (λ command. command ≡ picture_of (map (λ w. w.now) words.now)) }
    ensures within { IfOk result (λ command. IfSome command IsWithin) }
{
    let [file, rest @ ..] = words else {
        return Ok(None);
    };
    let Some(about) = read_destination(rest) else {
        return Ok(None);
    };
    match read_name(alloc, *file)? {
        Some(name) => Ok(Some(Command::Picture(name, about))),
        None => Ok(None),
    }
}

/// `FILE`.
pub fn read_save(alloc: Global, words: &[&[u8]]) -> Result<Option<Command>, AllocError>
    ensures value { IfOk result (λ command. command ≡ save_of (map (λ w. w.now) words.now)) }
    ensures within { IfOk result (λ command. IfSome command IsWithin) }
{
    match words {
        [file] => Ok(read_name(alloc, *file)?.map(Command::Save)),
        [] => Ok(None),
        [_, _, ..] => Ok(None),
    }
}
