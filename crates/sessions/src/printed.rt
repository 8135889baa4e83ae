//! How faults are printed.

ghost use Rattle.std.specs.Prelude.{◌≡◌, IfOk, string_bytes};
ghost use Rattle.sessions.specs.Faults.{key_text, load_text, fault_text};

use crate::faults::Fault;
use answers::put_refusal;
use net_data::Refusal;
use net_text::{Key, LoadFault};
use std::alloc::{AllocError, Global};

/// A key of a network text.
fn key_word(key: Key) -> &'static str
    ensures { result.now ≡ key_text key }
{
    match key {
        Key::Format => "format",
        Key::Ni => "ni",
        Key::Tfr => "tfr",
        Key::Points => "points",
        Key::Pairs => "pairs",
        Key::Sets => "sets",
        Key::Plans => "plans",
        Key::Unknown => "unknown",
    }
}

/// A refused entry of a network text.
fn write_refused(
    alloc: Global,
    key: Key,
    place: usize,
    refusal: Refusal,
) -> Result<String, AllocError>
    ensures { IfOk result (λ text. string_bytes text ≡ load_text (LoadFault.Refused key place refusal)) }
{
    let word = key_word(key);
    let mut text = format!(in alloc; "{word} {place}: ")?;
    put_refusal(alloc, &mut text, &refusal)?;
    Ok(text)
}

/// A fault of a network text.
fn write_load_fault(alloc: Global, fault: LoadFault) -> Result<String, AllocError>
    ensures { IfOk result (λ text. string_bytes text ≡ load_text fault) }
{
    match fault {
        LoadFault::NotToml => String::from_str(alloc, "60 NotToml"),
        LoadFault::BadKey(key) => {
            let word = key_word(key);
            format!(in alloc; "61 BadKey {word}")
        }
        LoadFault::BadLine(key, place) => {
            let word = key_word(key);
            format!(in alloc; "62 BadLine {word} {place}")
        }
        LoadFault::Refused(key, place, refusal) => write_refused(alloc, key, place, refusal),
        LoadFault::Read => String::from_str(alloc, "63 Read"),
        LoadFault::OutOfMemory => String::from_str(alloc, "1 OutOfMemory"),
    }
}

/// A fault of a run, as its number, its name and its values.
pub fn write_fault(alloc: Global, fault: Fault) -> Result<String, AllocError>
    ensures { IfOk result (λ text. string_bytes text ≡ fault_text fault) }
{
    match fault {
        Fault::OutOfMemory => String::from_str(alloc, "1 OutOfMemory"),
        Fault::Read => String::from_str(alloc, "63 Read"),
        Fault::Write => String::from_str(alloc, "64 Write"),
        Fault::NoPlace => String::from_str(alloc, "50 NoPlace"),
        Fault::Load(fault) => write_load_fault(alloc, fault),
    }
}
