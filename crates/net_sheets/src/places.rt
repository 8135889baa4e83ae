//! Lines and columns of a text, as an editor counts them: a line feed ends a line, and a column is a character.

ghost use Rattle.std.specs.Prelude.{◌≡◌, ◌≢◌, ◌<◌, ◌≤◌, ◌-◌, ℕ, length, slice_index, count_by, true};
ghost use Rattle.net_sheets.specs.Places.{is_line_feed, is_line_end as ends_line, is_first_byte as begins_character, IsLineStart, IsPlace};

/// Where a record of a table stands in its text, or one of its fields.
#[derive(Clone, Copy)]
pub(crate) struct Spot {
    /// How many bytes come before the record and the ends of lines right before it.
    pub byte: usize,
    /// The number of the field from 1, or 0 for the whole record.
    pub field: u8,
}

/// A line of a text and a column in it, each counted from 1.
#[derive(Clone, Copy)]
pub(crate) struct Place {
    /// The line.
    pub line: usize,
    /// The column.
    pub column: usize,
}

/// Where in a field a byte stands.
#[derive(Clone, Copy)]
enum Part {
    /// At its start.
    Start,
    /// In it, and in no quotes.
    Plain,
    /// In its quotes.
    Quoted,
    /// Behind a quote that may have ended them.
    Closed,
}

/// The start of a text.
pub(crate) fn start_of_text() -> Spot {
    Spot { byte: 0, field: 0 }
}

/// A text without a byte order mark.
fn without_mark(text: &[u8]) -> &[u8] {
    match text {
        [0xEF, 0xBB, 0xBF, rest @ ..] => rest,
        _ => text,
    }
}

/// Whether a byte is of the end of a line.
fn is_line_end(byte: u8) -> bool
    ensures { result ≡ ends_line byte }
{
    byte == b'\r' || byte == b'\n'
}

/// The first byte from a place on that ends no line, or the end of the text.
fn record_start(text: &[u8], from: usize) -> usize
    ensures within { result ≤ length text.now }
    ensures skipped { (k : ℕ) → from ≤ k → k < result → ends_line (slice_index text.now k) ≡ true }
{
    for i in from..text.len() {
        if !is_line_end(text[i]) {
            return i;
        }
    }
    text.len()
}

/// Where the byte after a quote stands.
fn part_after_quote(part: Part) -> Part {
    match part {
        Part::Plain => Part::Plain,
        Part::Quoted => Part::Closed,
        _ => Part::Quoted,
    }
}

/// Where the byte after one that is no quote stands.
fn part_after_other(part: Part, byte: u8) -> Part {
    match part {
        Part::Quoted => Part::Quoted,
        _ => {
            if byte == b',' {
                Part::Start
            } else {
                Part::Plain
            }
        }
    }
}

/// Where the byte after one of a record stands.
fn part_after(part: Part, byte: u8) -> Part {
    if byte == b'"' {
        return part_after_quote(part);
    }
    part_after_other(part, byte)
}

/// The first byte of a field of the record that begins at a place, or the end of the text.
fn field_start(text: &[u8], record: usize, field: u8) -> usize
    ensures { result ≤ length text.now }
{
    let mut part = Part::Start;
    let mut left = field.saturating_sub(1);
    for i in record..text.len() {
        if left == 0 {
            return i;
        }
        part = part_after(part, text[i]);
        if let Part::Start = part {
            left -= 1;
        }
    }
    text.len()
}

/// How many lines end in a text.
fn lines_in(text: &[u8]) -> usize
    ensures lines { result ≡ count_by is_line_feed text.now }
    ensures within { result ≤ length text.now }
{
    text.iter().filter(|byte| **byte == b'\n').count()
}

/// Whether a byte is the first of a character.
fn is_first_byte(byte: u8) -> bool
    ensures { result ≡ begins_character byte }
{
    byte < 128 || byte >= 192
}

/// How many characters begin in a text.
fn characters_in(text: &[u8]) -> usize
    ensures characters { result ≡ count_by begins_character text.now }
    ensures within { result ≤ length text.now }
{
    text.iter().filter(|byte| is_first_byte(**byte)).count()
}

/// Where the last line of a text begins.
fn line_start(text: &[u8]) -> usize
    ensures { IsLineStart text.now result }
{
    let mut start = text.len();
    while start > 0 {
        if text[start - 1] == b'\n' {
            return start;
        }
        start -= 1;
    }
    0
}

/// The line and the column of a byte.
fn place_at(text: &[u8], at: usize) -> Place
    requires { at ≤ length text.now }
    ensures { IsPlace text.now at result.line result.column }
{
    let before = &text[..at];
    let start = line_start(before);
    Place {
        line: lines_in(before) + 1,
        column: characters_in(&before[start..]) + 1,
    }
}

/// The line and the column of a spot: the first character of the record or of the field.
pub(crate) fn place_of(text: &[u8], spot: Spot) -> Place {
    let body = without_mark(text);
    let mark = text.len().saturating_sub(body.len());
    let record = record_start(body, spot.byte.saturating_sub(mark));
    place_at(body, field_start(body, record, spot.field))
}
