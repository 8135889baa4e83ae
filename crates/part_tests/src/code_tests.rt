//! Codes with their numbers and messages with their octets, worked out by hand, and texts that are no codes.

use crate::parts::code;
use point_codes::{BadCode, MsgKind, tfm_octets};
use std::alloc::Global;
use std::test::Fail;

/// The number of the code that a text is, and a word with the code's text put behind it.
fn number_and_text(alloc: Global, text: &str) -> Result<(u16, String), Fail> {
    let code = code(text)?;
    let mut written = String::from_str(alloc, "at ")?;
    code.put_text(alloc, &mut written)?;
    Ok((code.number(), written))
}

/// The first of the texts that isn't of the code of that number, or isn't written so.
fn first_other<'a>(alloc: Global, texts: &[(&'a str, u16, &str)]) -> Result<Option<&'a str>, Fail> {
    for (text, number, wanted) in texts {
        let (read, written) = number_and_text(alloc, *text)?;
        if read != *number || written.as_str() != *wanted {
            return Ok(Some(*text));
        }
    }
    Ok(None)
}

#[test]
fn reads_and_writes(rt: HostRuntime) -> Result<(), Fail> {
    let texts = [
        ("0-0-0", 0, "at 0-0-0"),
        ("2-1-1", 4105, "at 2-1-1"),
        ("2-10-2", 4178, "at 2-10-2"),
        ("7-255-7", 16383, "at 7-255-7"),
    ];
    assert_eq!(rt; first_other(rt.alloc(), &texts)?, None);
    Ok(())
}

/// The first of the texts that is a code.
fn first_code<'a>(texts: &[&'a str]) -> Option<&'a str> {
    for text in texts {
        if code(*text).is_ok() {
            return Some(*text);
        }
    }
    None
}

#[test]
fn refuses(rt: HostRuntime) {
    let texts = [
        "", "2-1", "2-01-1", "8-0-0", "2-256-1", "2-1-8", "2-1-1 ", "2-1-1-1", "+2-1-1", "2--1",
    ];
    assert_eq!(rt; first_code(&texts), None);
}

/// The octets of a message in a network of indicator 2: to a point, from one, of a kind, about a destination.
fn octets(to: &str, from: &str, kind: MsgKind, about: &str) -> Result<[u8; 8], BadCode> {
    Ok(tfm_octets(2, code(to)?, code(from)?, kind, code(about)?))
}

/// The octets of a message of each kind.
fn octets_of_each() -> Result<[[u8; 8]; 3], BadCode> {
    Ok([
        octets("2-10-1", "2-10-2", MsgKind::Tfp, "2-1-2")?,
        octets("2-1-1", "2-10-2", MsgKind::Tfr, "2-1-2")?,
        octets("2-1-1", "2-10-1", MsgKind::Tfa, "2-1-2")?,
    ])
}

#[test]
fn writes_messages(rt: HostRuntime) -> Result<(), Fail> {
    let wanted = [
        [0x80, 0x51, 0x90, 0x14, 0x04, 0x14, 0x0A, 0x10],
        [0x80, 0x09, 0x90, 0x14, 0x04, 0x34, 0x0A, 0x10],
        [0x80, 0x09, 0x50, 0x14, 0x04, 0x54, 0x0A, 0x10],
    ];
    assert_eq!(rt; octets_of_each()?, wanted);
    Ok(())
}

#[test]
fn writes_the_first_and_the_last_code(rt: HostRuntime) -> Result<(), Fail> {
    let (first, last) = (code("0-0-0")?, code("7-255-7")?);
    assert_eq!(rt;
        tfm_octets(0, last, first, MsgKind::Tfa, first),
        [0x00, 0xFF, 0x3F, 0x00, 0x00, 0x54, 0x00, 0x00]
    );
    Ok(())
}
