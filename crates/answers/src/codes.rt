//! Codes and short numbers in answers. Their digits are pushed one by one: so few aren't worth a text of their own.

ghost use Rattle.std.specs.Prelude.{◌≡◌, ◌<◌, ◌++◌, OnOk, string_bytes};
ghost use Rattle.std.specs.Fmt.{decimal};
ghost use Rattle.point_codes.specs.Codes.{code_text};

use itoa::Buffer;
use point_codes::PointCode;
use std::alloc::AllocError;

/// Adds a digit.
#[tactic(auto, using(crate::proofs::DigitLemmas::one_digit))]
fn put_digit(text: &mut String, digit: u8) -> Result<(), AllocError>
    requires { digit < 10 }
    ensures { OnOk result (string_bytes text.new ≡ string_bytes text.old ++ decimal digit) }
{
    text.push(char::from(b'0' + digit))
}

/// Adds a number of at most five digits. It takes no memory but that of the text.
#[tactic(auto, using(crate::proofs::DigitLemmas::last_digit))]
pub(crate) fn put_number(text: &mut String, number: u16) -> Result<(), AllocError>
    ensures { OnOk result (string_bytes text.new ≡ string_bytes text.old ++ decimal number) }
{
    if number < 10 {
        return put_digit(text, number as u8);
    }
    put_number(text, number / 10)?;
    text.push(char::from(b'0' + (number % 10) as u8))
}

/// Adds a code as its zone, area and point (Q.708). It takes no memory but that of the text.
pub fn write_code(text: &mut String, code: PointCode) -> Result<(), AllocError>
    ensures { OnOk result (string_bytes text.new ≡ string_bytes text.old ++ code_text code) }
{
    put_digit(text, code.zone())?;
    text.push('-')?;
    put_number(text, u16::from(code.area()))?;
    text.push('-')?;
    put_digit(text, code.point())
}

/// Adds a word and a number. It takes no memory but that of the text.
pub(crate) fn put_numbered(text: &mut String, word: &str, number: u64) -> Result<(), AllocError>
    ensures { OnOk result (string_bytes text.new ≡ string_bytes text.old ++ (word.now ++ decimal number)) }
{
    let mut digits = Buffer::new();
    text.push_str(word)?;
    text.push_str(digits.format(number))
}
