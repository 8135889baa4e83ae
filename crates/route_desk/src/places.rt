//! Where an entry of a network text stands, or a seat of SEATS and its keys.

/// A place in a text: its line, and its byte in the line, both from 1.
#[derive(Clone, Copy)]
pub struct Place {
    pub line: u64,
    pub column: u64,
}

/// What a byte of an array stands in.
#[derive(Clone, Copy)]
enum Inside {
    /// The array itself.
    Array,
    /// A text in double quotes.
    Text,
    /// The same, after a backslash.
    Escape,
    /// A text in single quotes.
    Literal,
    /// A comment.
    Comment,
}

/// What some editors put before a text in UTF-8, a byte order mark.
const MARK: &[u8] = b"\xef\xbb\xbf";

/// A text without the byte order mark before it.
fn without_mark(text: &[u8]) -> &[u8] {
    text.strip_prefix(MARK).unwrap_or(text)
}

/// A text without the spaces before it.
fn without_spaces(text: &[u8]) -> &[u8] {
    match text.iter().position(|byte| *byte != b' ') {
        Some(at) => text.get(at..).unwrap_or(&[]),
        None => &[],
    }
}

/// A text without a bracket before it and the spaces before that and behind it, if there is one.
fn without_bracket(text: &[u8]) -> &[u8] {
    let text = without_spaces(text);
    match text.strip_prefix(b"[") {
        Some(after) => without_spaces(after),
        None => text,
    }
}

/// What follows a key that a line begins with, or that it is the header of.
fn after_key<'a>(line: &'a [u8], key: &str) -> Option<&'a [u8]> {
    let front = without_bracket(without_bracket(line));
    match front.strip_prefix(key.as_bytes()) {
        Some(after) => Some(without_spaces(after)),
        None => None,
    }
}

/// Whether a line begins with a key, or is the header of its table.
fn begins_with(line: &[u8], key: &str) -> bool {
    match after_key(line, key) {
        Some(after) => after.starts_with(b"=") || after.starts_with(b"]"),
        None => false,
    }
}

/// Whether a line is a header of a table.
fn is_header(line: &[u8]) -> bool {
    without_spaces(line).starts_with(b"[")
}

/// A part of a text, and how many lines come before it.
#[derive(Clone, Copy)]
pub struct Section<'a> {
    pub bytes: &'a [u8],
    pub before: u64,
}

impl Section<'_> {
    /// The place in the whole text of a place in the part.
    pub fn place(&self, place: Place) -> Place {
        Place {
            line: place.line.saturating_add(self.before),
            column: place.column,
        }
    }
}

/// A part of a text up to the next header behind its first line.
fn up_to_header(bytes: &[u8], before: u64) -> Section<'_> {
    let mut end = 0usize;
    for line in bytes.split(|byte| *byte == b'\n') {
        if end > 0 && is_header(line) {
            break;
        }
        end = end.saturating_add(line.len()).saturating_add(1);
    }
    Section {
        bytes: bytes.get(..end).unwrap_or(bytes),
        before,
    }
}

/// The part of a text from a header of a table on, by its position among those of the same name, up to the next header.
pub fn section_of<'a>(text: &'a [u8], name: &str, position: usize) -> Option<Section<'a>> {
    let text = without_mark(text);
    let (mut bytes, mut lines, mut left) = (0usize, 0u64, position);
    for line in text.split(|byte| *byte == b'\n') {
        if is_header(line) && begins_with(line, name) {
            if left == 0 {
                return Some(up_to_header(text.get(bytes..).unwrap_or(&[]), lines));
            }
            left = left.saturating_sub(1);
        }
        lines = lines.saturating_add(1);
        bytes = bytes.saturating_add(line.len()).saturating_add(1);
    }
    None
}

/// The line that begins with a key, from 1, and all from there on.
fn find_key<'a>(text: &'a [u8], key: &str) -> Option<(u64, &'a [u8])> {
    let text = without_mark(text);
    let (mut bytes, mut lines) = (0usize, 0u64);
    for line in text.split(|byte| *byte == b'\n') {
        lines = lines.saturating_add(1);
        if begins_with(line, key) {
            return Some((lines, text.get(bytes..).unwrap_or(&[])));
        }
        bytes = bytes.saturating_add(line.len()).saturating_add(1);
    }
    None
}

/// What the next byte stands in, after a byte.
fn inside_after(inside: Inside, byte: u8) -> Inside {
    match (inside, byte) {
        (Inside::Array, b'"') => Inside::Text,
        (Inside::Array, b'\'') => Inside::Literal,
        (Inside::Array, b'#') => Inside::Comment,
        (Inside::Text, b'"') | (Inside::Literal, b'\'') | (Inside::Comment, b'\n') => Inside::Array,
        (Inside::Text, b'\\') => Inside::Escape,
        (Inside::Escape, _) => Inside::Text,
        _ => inside,
    }
}

/// The place after a byte.
fn place_after(place: Place, byte: u8) -> Place {
    if byte == b'\n' {
        return Place {
            line: place.line.saturating_add(1),
            column: 1,
        };
    }
    Place {
        line: place.line,
        column: place.column.saturating_add(1),
    }
}

/// Whether a byte begins a text.
fn begins_text(inside: Inside, byte: u8) -> bool {
    matches!((inside, byte), (Inside::Array, b'"' | b'\''))
}

/// The place of a byte of a text.
pub fn place_at(text: &[u8], position: usize) -> Place {
    let shown = without_mark(text);
    let position = position.saturating_sub(text.len().saturating_sub(shown.len()));
    let mut place = Place { line: 1, column: 1 };
    for byte in shown.get(..position).unwrap_or(shown) {
        place = place_after(place, *byte);
    }
    place
}

/// The place of an entry of a key's array, from 1. Of the key itself for 0, or if its array has fewer, and none if no line begins with
/// the key.
pub fn place_of(text: &[u8], key: &str, entry: usize) -> Option<Place> {
    let (line, rest) = find_key(text, key)?;
    let mut place = Place { line, column: 1 };
    let mut inside = Inside::Array;
    let mut begun = 0usize;
    for byte in rest {
        if begins_text(inside, *byte) {
            begun = begun.saturating_add(1);
            if begun == entry {
                return Some(place);
            }
        }
        inside = inside_after(inside, *byte);
        place = place_after(place, *byte);
    }
    Some(Place { line, column: 1 })
}
