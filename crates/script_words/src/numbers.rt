//! The numbers of commands: collectors, sequence numbers, slots and signalling link selections.

ghost use Rattle.std.specs.Prelude.{◌≡◌, ◌<◌, Some, IfSome};
ghost use Rattle.script_words.specs.Numbers.{collector_of, digits_in, sequence_of, slot_of, selection_of};

use point_codes::read_number;

/// The collector that a token is, from 0 to 255.
pub fn read_collector(text: &[u8]) -> Option<u8>
    ensures { result ≡ collector_of text.now }
{
    let collector = read_number(text, 255)?;
    Some(collector as u8)
}

/// The slot that a token is, from 0 to 31.
pub fn read_slot(text: &[u8]) -> Option<u8>
    ensures value { result ≡ slot_of text.now }
    ensures within { IfSome result (λ slot. slot < 32) }
{
    let slot = read_number(text, 31)?;
    Some(slot as u8)
}

/// The signalling link selection that a token is, from 0 to 15 (Q.704 clause 2.2).
pub fn read_selection(text: &[u8]) -> Option<u8>
    ensures value { result ≡ selection_of text.now }
    ensures within { IfSome result (λ selection. selection < 16) }
{
    let selection = read_number(text, 15)?;
    Some(selection as u8)
}

/// The number of these digits. `None` if a byte is no digit, or if the number is 2^64 or more.
fn read_digits(text: &[u8]) -> Option<u64>
    ensures { result ≡ digits_in text.now }
{
    let mut value = 0u64;
    for byte in text {
        if !byte.is_ascii_digit() {
            return None;
        }
        let tens = value.checked_mul(10)?;
        value = tens.checked_add(u64::from(*byte - b'0'))?;
    }
    Some(value)
}

/// The sequence number that a token is: decimal, without sign or leading zeros, and below 2^64.
pub fn read_sequence(text: &[u8]) -> Option<u64>
    ensures { result ≡ sequence_of text.now }
{
    match text {
        [] => None,
        [b'0', _, ..] => None,
        _ => read_digits(text),
    }
}
