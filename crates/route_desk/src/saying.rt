//! Sentences on standard error. What could steer a terminal is written escaped, since names and lines are anyone's.

use std::alloc::{AllocError, Global};

/// Whether a letter could steer a terminal: a control, or one that turns the direction of writing round.
fn steers(letter: char) -> bool {
    matches!(
        letter,
        '\u{0}'..='\u{1f}'
            | '\u{7f}'..='\u{9f}'
            | '\u{200e}'..='\u{200f}'
            | '\u{2028}'..='\u{202e}'
            | '\u{2066}'..='\u{2069}'
    )
}

/// Adds a text, and what could steer a terminal escaped: `\x1b` for a byte, `\u{9b}` for a letter of more.
fn put_escaped(alloc: Global, text: &mut String, piece: &str) -> Result<(), AllocError> {
    for letter in piece.chars() {
        if !steers(letter) {
            text.push(letter)?;
            continue;
        }
        let code = letter as u32;
        let escape = if code < 128 {
            format!(in alloc; "\\x{code:02x}")?
        } else {
            format!(in alloc; "\\u{{{code:x}}}")?
        };
        text.push_str(escape.as_str())?;
    }
    Ok(())
}

/// Bytes as a text: those that aren't UTF-8 escaped, as `\xff`.
pub fn write_bytes(alloc: Global, bytes: &[u8]) -> Result<String, AllocError> {
    let mut text = String::new(alloc);
    for chunk in bytes.utf8_chunks() {
        text.push_str(chunk.valid())?;
        for byte in chunk.invalid() {
            let escape = format!(in alloc; "\\x{byte:02x}")?;
            text.push_str(escape.as_str())?;
        }
    }
    Ok(text)
}

/// Lines of a text, each escaped.
pub fn write_lines(alloc: Global, lines: &str) -> Result<String, AllocError> {
    let mut text = String::new(alloc);
    for line in lines.split_inclusive('\n') {
        match line.strip_suffix('\n') {
            Some(line) => {
                put_escaped(alloc, &mut text, line)?;
                text.push('\n')?;
            }
            None => put_escaped(alloc, &mut text, line)?,
        }
    }
    Ok(text)
}

/// Pieces as one text, escaped.
fn write_sentence(alloc: Global, pieces: &[&str]) -> Result<String, AllocError> {
    let mut text = String::new(alloc);
    for piece in pieces {
        put_escaped(alloc, &mut text, piece)?;
    }
    Ok(text)
}

/// Says a sentence on standard error, in one line. Where there is no memory for it nothing is said.
pub fn say(rt: &HostRuntime, pieces: &[&str]) {
    if let Ok(sentence) = write_sentence(rt.alloc(), pieces) {
        let sentence = sentence.as_str();
        let _ = eprintln!(rt; "{sentence}");
    }
}
