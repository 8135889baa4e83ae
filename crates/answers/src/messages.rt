//! The answers to `messages` and `octets`.

ghost use Rattle.std.specs.Prelude.{◌≡◌, ◌++◌, ◌<◌, OnOk, true, string_bytes};
ghost use Rattle.std.specs.List.{flat_map};
ghost use Rattle.std.specs.Fmt.{digit_glyph};
ghost use Rattle.answers.specs.Messages.{message_kind_text, message_text, messages_text, octet_text, octets_text};

use crate::codes::write_code;
use point_codes::MsgKind;
use profile::{Message, Messages};
use std::alloc::AllocError;

/// The kind of a message.
pub fn kind_word(kind: MsgKind) -> &'static str
    ensures { result.now ≡ message_kind_text kind }
{
    match kind {
        MsgKind::Tfp => "TFP",
        MsgKind::Tfr => "TFR",
        MsgKind::Tfa => "TFA",
    }
}

/// Adds a message after a space.
fn put_message(text: &mut String, message: Message) -> Result<(), AllocError>
    ensures { OnOk result (string_bytes text.new ≡ string_bytes text.old ++ message_text message) }
{
    let word = kind_word(message.kind);
    text.push(' ')?;
    text.push_str(word)?;
    text.push('>')?;
    write_code(text, message.to)
}

/// Adds messages, each after a space.
fn put_each(text: &mut String, messages: &[Message]) -> Result<(), AllocError>
    ensures { OnOk result (string_bytes text.new ≡ string_bytes text.old ++ flat_map message_text messages.now) }
{
    for message in messages {
        put_message(text, *message)?;
    }
    Ok(())
}

/// Adds the messages in force from a point, in rising code of the receiver.
pub(crate) fn put_messages(text: &mut String, messages: &Messages) -> Result<(), AllocError>
    ensures { OnOk result (string_bytes text.new ≡ string_bytes text.old ++ messages_text messages.now) }
{
    text.push_str("messages")?;
    put_each(text, messages.as_slice())
}

/// The hexadecimal digit of a value below 16, in upper case.
pub fn hex_digit(value: u8) -> char
    requires { value < 16 }
    ensures { result ≡ digit_glyph true value }
{
    let first = if value < 10 { b'0' } else { b'A' - 10 };
    char::from(first + value)
}

/// Adds an octet after a space.
fn put_octet(text: &mut String, octet: u8) -> Result<(), AllocError>
    ensures { OnOk result (string_bytes text.new ≡ string_bytes text.old ++ octet_text octet) }
{
    text.push(' ')?;
    text.push(hex_digit(octet / 16))?;
    text.push(hex_digit(octet % 16))
}

/// Adds octets, each after a space.
fn put_each_octet(text: &mut String, octets: &[u8]) -> Result<(), AllocError>
    ensures { OnOk result (string_bytes text.new ≡ string_bytes text.old ++ flat_map octet_text octets.now) }
{
    for octet in octets {
        put_octet(text, *octet)?;
    }
    Ok(())
}

/// Adds the octets of the message in force to a point, if one is.
pub(crate) fn put_octets(text: &mut String, octets: &Option<[u8; 8]>) -> Result<(), AllocError>
    ensures { OnOk result (string_bytes text.new ≡ string_bytes text.old ++ octets_text octets.now) }
{
    match octets {
        Some(octets) => {
            text.push_str("octets")?;
            put_each_octet(text, octets)
        }
        None => text.push_str("octets none"),
    }
}
