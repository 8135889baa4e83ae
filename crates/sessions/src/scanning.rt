//! Bytes of a text, looked for in many places at once.

ghost use Rattle.std.specs.Prelude.{◌≡◌, ◌≤◌, length, option_map};
ghost use Rattle.point_codes.specs.Codes.{split_of};
ghost use Rattle.sessions.specs.Lines.{line_count};

use memchr::memchr;

/// The most bytes among which lines are counted in a byte, of which many are added at once.
const SHORT: usize = 255;

/// How many lines a short text ends.
fn count_in_short(text: &[u8]) -> u8
    requires { length text.now ≤ 255 }
    ensures { result ≡ line_count text.now }
{
    let mut count = 0;
    for byte in text {
        count += u8::from(*byte == b'\n');
    }
    count
}

/// How many lines a text ends.
pub(crate) fn count_lines(text: &[u8]) -> usize
    ensures { result ≡ line_count text.now }
{
    let mut count = 0;
    let mut rest = text;
    while rest.len() > SHORT {
        let (front, behind) = rest.split_at(SHORT);
        count += usize::from(count_in_short(front));
        rest = behind;
    }
    count + usize::from(count_in_short(rest))
}

/// The first line of a text, without the line feed that ends it, and what comes behind. `None` if no line ends.
pub(crate) fn split_line(text: &[u8]) -> Option<(&[u8], &[u8])>
    ensures { option_map (λ p. (p.0.now, p.1.now)) result ≡ split_of 10 text.entry.now }
{
    match memchr(b'\n', text) {
        Some(at) => Some((&text[..at], &text[at + 1..])),
        None => None,
    }
}
