//! CODE, ID, SLC and RANK.

ghost use Rattle.std.specs.Prelude.{◌≡◌, Some};
ghost use Rattle.point_codes.specs.Codes.{code_of};
ghost use Rattle.tokens.specs.Numbers.{id_of, slc_of, rank_of};

use point_codes::{PointCode, read_number};

/// The point code that a token is (Q.708).
pub fn read_code(text: &[u8]) -> Option<PointCode>
    ensures { result ≡ code_of text.now }
{
    match PointCode::parse(text) {
        Ok(code) => Some(code),
        Err(_) => None,
    }
}

/// The link set id that a token is, from 0 to 65,535.
pub fn read_id(text: &[u8]) -> Option<u16>
    ensures { result ≡ id_of text.now }
{
    let id = read_number(text, 65535)?;
    Some(id as u16)
}

/// The signalling link code that a token is, from 0 to 255.
pub fn read_slc(text: &[u8]) -> Option<u8>
    ensures { result ≡ slc_of text.now }
{
    let slc = read_number(text, 255)?;
    Some(slc as u8)
}

/// The rank that a token is, from 0 to 255.
pub fn read_rank(text: &[u8]) -> Option<u8>
    ensures { result ≡ rank_of text.now }
{
    let rank = read_number(text, 255)?;
    Some(rank as u8)
}
