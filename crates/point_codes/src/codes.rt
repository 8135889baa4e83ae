//! A point code, its number and its text.

ghost use Rattle.std.specs.Prelude.{◌≡◌, ◌≢◌, ◌<◌, ◌↔◌, ◌/◌, ◌%◌, ◌++◌, ◌∷◌, [], ℕ, Some, None, IsSome, IfSome, MatchResult, OnOk, OnErr, string_bytes};
ghost use Rattle.point_codes.specs.Codes.{code_of, code_text};
ghost use Rattle.point_codes.specs.Numbers.{number_of};

use std::alloc::{AllocError, Global};
use std::fmt;
use std::marker::Model;
use thiserror::Error;

/// A signalling point code of 14 bits.
#[derive(Clone, Copy, Debug, Default, PartialEq, Eq, PartialOrd, Ord)]
pub struct PointCode {
    number: u16,
}

/// The text is no point code.
#[derive(Clone, Copy, Debug, PartialEq, Eq, Error)]
#[error("not a point code")]
pub struct BadCode;

impl Model for PointCode {
    ghost Value = { ℕ };

    ghost view = { λ p. p.number };

    ghost invariant = { λ p. p.number < 16384 };

    ghost inverse = { λ n. record { number = n } };
}

impl PointCode {
    /// The code of a number, which has to be below 16,384 (Q.704 clause 2.2).
    pub fn new(number: u16) -> Option<PointCode>
        ensures valid { IsSome result ↔ (number < 16384) }
        ensures value { IfSome result (λ p. p ≡ number) }
    {
        if number < 16384 {
            Some(PointCode { number })
        } else {
            None
        }
    }

    /// The code that a text is, `zone-area-point` in decimal (Q.708). The error is `BadCode` for any other text: a part
    /// out of range, with a sign or a leading zero, a space, a part too many or too few.
    pub fn parse(text: &[u8]) -> Result<PointCode, BadCode>
        ensures { MatchResult result (λ p. code_of text.now ≡ Some p) (λ _. code_of text.now ≡ None) }
    {
        match read_parts(text) {
            Some(code) => Ok(code),
            None => Err(BadCode),
        }
    }

    /// The code's number, from 0 to 16,383.
    pub fn number(self) -> u16
        ensures value { result ≡ self }
        ensures in_range { result < 16384 }
    {
        self.number
    }

    /// The zone, from 0 to 7 (Q.708).
    pub fn zone(self) -> u8
        ensures value { result ≡ self / 2048 }
        ensures in_range { result < 8 }
    {
        (self.number / 2048) as u8
    }

    /// The area, from 0 to 255 (Q.708).
    pub fn area(self) -> u8
        ensures { result ≡ self / 8 % 256 }
    {
        (self.number / 8 % 256) as u8
    }

    /// The point within the area, from 0 to 7 (Q.708).
    pub fn point(self) -> u8
        ensures value { result ≡ self % 8 }
        ensures in_range { result < 8 }
    {
        (self.number % 8) as u8
    }

    /// Appends the code's text. Where memory runs out, the text stays as it was.
    pub fn put_text(&self, alloc: Global, text: &mut String) -> Result<(), AllocError>
        ensures ok { OnOk result (string_bytes text.new ≡ string_bytes text.old ++ code_text self.now) }
        ensures err { OnErr result (string_bytes text.new ≡ string_bytes text.old) }
    {
        let code = format!(in alloc; "{self}")?;
        text.push_str(code.as_str())
    }
}

impl fmt::Display for PointCode {
    ghost use Rattle.std.specs.Prelude.{Some};
    ghost use Rattle.point_codes.specs.Codes.{code_text};

    ghost output = { λ p. Some (code_text p) };

    fn fmt<W: fmt::Write>(&self, f: &mut fmt::Formatter<W>) -> fmt::Result {
        let zone = self.zone();
        let area = self.area();
        let point = self.point();
        write!(f, "{zone}-{area}-{point}")
    }
}

/// The code that a text is. Zone and point have one digit each, so they are read at the text's two ends.
#[tactic(auto, using(crate::proofs::PartLemmas::code_at_ends, crate::proofs::PartLemmas::no_code))]
fn read_parts(text: &[u8]) -> Option<PointCode>
    ensures { result ≡ code_of text.now }
{
    match text {
        [zone, b'-', area @ .., b'-', point] => {
            let z = read_digit(*zone, 7)?;
            let a = read_area(area)?;
            let p = read_digit(*point, 7)?;
            PointCode::new(z * 2048 + a * 8 + p)
        }
        _ => None,
    }
}

/// The number up to `most` that a byte is as a text of its own.
fn read_digit(byte: u8, most: u8) -> Option<u16>
    ensures { result ≡ number_of most (byte ∷ []) }
{
    match byte {
        b'0'..=b'9' if byte - b'0' <= most => Some(u16::from(byte - b'0')),
        _ => None,
    }
}

/// The number from 0 to 255 that a text is. It has three digits at most, so each length is read by itself.
#[tactic(auto, using(crate::proofs::PartLemmas::area_short))]
fn read_area(text: &[u8]) -> Option<u16>
    ensures { result ≡ number_of 255 text.now }
{
    match text {
        [ones] => read_digit(*ones, 9),
        [b'0', ..] => None,
        [tens, ones] => Some(read_digit(*tens, 9)? * 10 + read_digit(*ones, 9)?),
        [hundreds, tens, ones] => read_long_area(*hundreds, *tens, *ones),
        _ => None,
    }
}

/// The number up to 255 that three bytes are, of which the first is no zero.
fn read_long_area(hundreds: u8, tens: u8, ones: u8) -> Option<u16>
    requires { hundreds ≢ 48 }
    ensures { result ≡ number_of 255 (hundreds ∷ tens ∷ ones ∷ []) }
{
    let value = read_digit(hundreds, 9)? * 100 + read_digit(tens, 9)? * 10 + read_digit(ones, 9)?;
    if value <= 255 { Some(value) } else { None }
}
