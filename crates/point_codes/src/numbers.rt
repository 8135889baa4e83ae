//! Decimal numbers in text, and the parts of a text around a byte.

ghost use Rattle.std.specs.Prelude.{◌≡◌, ◌<◌, ◌==◌, length, option_map, Some, IfSome, position};
ghost use Rattle.point_codes.specs.Numbers.{number_of};
ghost use Rattle.point_codes.specs.Codes.{split_of};

/// The number that a text is: decimal, without sign or leading zeros, and at most `most`. `None` for any other text.
pub fn read_number(text: &[u8], most: u32) -> Option<u32>
    ensures { result ≡ number_of most text.now }
{
    match text {
        [] => return None,
        [b'0', _, ..] => return None,
        _ => {}
    }
    if text.len() > 10 {
        return None;
    }
    let mut value = 0u64;
    for byte in text {
        if !byte.is_ascii_digit() {
            return None;
        }
        value = value * 10 + u64::from(*byte - b'0');
    }
    if value <= u64::from(most) {
        Some(value as u32)
    } else {
        None
    }
}

/// Where this byte first stands.
fn find_byte(text: &[u8], byte: u8) -> Option<usize>
    ensures place { result ≡ position (λ b. b == byte) text.now }
    ensures within { IfSome result (λ i. i < length text.now) }
{
    text.iter().position(|b| *b == byte)
}

/// The parts before and after the first of this byte. `None` where the text doesn't have it.
pub fn split_at_byte<'a>(text: &'a [u8], byte: u8) -> Option<(&'a [u8], &'a [u8])>
    ensures { option_map (λ p. (p.0.now, p.1.now)) result ≡ split_of byte text.entry.now }
{
    match find_byte(text, byte) {
        Some(i) => Some((&text[..i], &text[i + 1..])),
        None => None,
    }
}
