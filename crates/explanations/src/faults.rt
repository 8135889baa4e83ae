//! What the faults of a run and of a network text mean.

ghost use Rattle.std.specs.Prelude.{◌≡◌, true};
ghost use Rattle.explanations.specs.Names.{load_name, fault_name};
ghost use Rattle.explanations.specs.Titles.{is_listed};

use crate::edits::explain_edit;
use crate::explanation::{Explanation, PLAIN};
use crate::lines::BAD_LINE;
use net_text::LoadFault;
use sessions::Fault;

pub(crate) const OUT_OF_MEMORY: Explanation = Explanation {
    title: "1 OutOfMemory",
    meaning: "Memory was refused.",
    action: "Give it more memory; nothing that was accepted is half done.",
    ..PLAIN
};

pub(crate) const NOT_TOML: Explanation = Explanation {
    title: "60 NotToml",
    meaning: "The network text is no TOML document.",
    action: "Mend the text.",
    ..PLAIN
};

pub(crate) const BAD_KEY: Explanation = Explanation {
    title: "61 BadKey",
    values: "KEY",
    legend: "KEY is the key, or the word unknown.",
    meaning: "A key is unknown, missing, or of another type or value than it must be.",
    action: "Compare it with NETWORK.md.",
};

pub(crate) const READ: Explanation = Explanation {
    title: "63 Read",
    meaning: "A file or standard input can't be read, or a network text is longer than 134,217,728 bytes.",
    action: "Mend the name or the file.",
    ..PLAIN
};

pub(crate) const WRITE: Explanation = Explanation {
    title: "64 Write",
    meaning: "Standard output, the file of `--save` or that of a line can't be written.",
    action: "Make room for it, or name another file.",
    ..PLAIN
};

pub(crate) const NO_PLACE: Explanation = Explanation {
    title: "50 NoPlace",
    meaning: "Beside workers alone: there was no memory for the places of readers, or a version could be shared no further.",
    action: "Give it more memory; without `--workers` it doesn't come.",
    ..PLAIN
};

/// What a fault of a network text means; of an entry that is refused, what that refusal means.
pub fn explain_load(fault: &LoadFault) -> &'static Explanation
    ensures title { result.now.title.now ≡ load_name fault.now }
    ensures listed { is_listed result.now.title.now ≡ true }
{
    match fault {
        LoadFault::NotToml => &NOT_TOML,
        LoadFault::BadKey(_) => &BAD_KEY,
        LoadFault::BadLine(_, _) => &BAD_LINE,
        LoadFault::Refused(_, _, refusal) => explain_edit(refusal),
        LoadFault::Read => &READ,
        LoadFault::OutOfMemory => &OUT_OF_MEMORY,
    }
}

/// What a fault of a run means.
pub fn explain_fault(fault: &Fault) -> &'static Explanation
    ensures title { result.now.title.now ≡ fault_name fault.now }
    ensures listed { is_listed result.now.title.now ≡ true }
{
    match fault {
        Fault::OutOfMemory => &OUT_OF_MEMORY,
        Fault::Read => &READ,
        Fault::Write => &WRITE,
        Fault::NoPlace => &NO_PLACE,
        Fault::Load(fault) => explain_load(fault),
    }
}
