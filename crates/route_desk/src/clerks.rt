//! Who files the pictures and networks of a script and sees what its lines are answered.

use crate::files::{Devices, save_text};
use crate::notes::Notes;
use crate::reasons::write_reason;
use crate::streams::Seen;
use crate::targets::{is_same_file, leads_to_any, own_file};
use answers::{Answer, Asked, Reason};
use json_answers::{Clerk, Content, Outcome};
use net_data::Net;
use net_saving::save;
use std::alloc::{AllocError, Global};
use std::cell::{RefCell, RefMut};
use std::io;
use std::io::ErrorKind;
use std::path::Path;

/// Where the lines of a script come from, and where its answers go, if no files are named for them.
const STREAMS: &[&str] = &["/dev/stdin", "/dev/stdout"];

/// Which files a run reads or writes itself.
#[derive(Clone, Copy)]
pub struct OwnFiles<'a> {
    /// The file of its network, if it has one.
    net: Option<&'a str>,
    /// The other names.
    others: &'a [&'a str],
}

/// Which files the lines of a script may have written.
#[derive(Clone, Copy)]
pub enum Files<'a> {
    /// All but those that the run reads or writes itself. In the place of its network a network goes, if that is named as the run was
    /// given it.
    Allowed(OwnFiles<'a>),
    /// None.
    Forbidden,
}

impl<'a> Files<'a> {
    /// Which files may be written, or that none may be.
    pub fn of(no_files: bool) -> Files<'static> {
        if no_files {
            return Files::Forbidden;
        }
        Files::Allowed(OwnFiles {
            net: None,
            others: &[],
        })
    }

    /// The same for a run over the network of this file, which reads or writes those of other names itself.
    pub fn over(self, net: Option<&'a str>, others: &'a [&'a str]) -> Files<'a> {
        match self {
            Files::Allowed(_) => Files::Allowed(OwnFiles { net, others }),
            Files::Forbidden => Files::Forbidden,
        }
    }
}

/// The endings of the names of pictures.
const ENDINGS: &[&str] = &["svg", "dot", "gv"];

/// Whether a file has the name of a picture.
fn is_picture(file: &str) -> bool {
    match Path::new(file).extension() {
        Some(ending) => ENDINGS
            .iter()
            .any(|known| ending.eq_ignore_ascii_case(known)),
        None => false,
    }
}

impl<'a> OwnFiles<'a> {
    /// Whether a file is that of the run's network.
    fn has_as_net(self, rt: &HostRuntime, file: &str) -> bool {
        match self.net {
            Some(net) => is_same_file(rt, file, net),
            None => false,
        }
    }

    /// Writes a text to a file, unless it has one of the other names, or is that of standard input or output.
    fn write_sparing(self, rt: &HostRuntime, file: &str, text: &str) -> io::Result<()> {
        if leads_to_any(rt, file, self.others) || leads_to_any(rt, file, STREAMS) {
            return Err(own_file());
        }
        save_text(rt, file, text, Devices::Refused)
    }

    /// Writes a picture to its file, unless that has another ending or the run reads or writes it itself.
    fn write_picture(self, rt: &HostRuntime, file: &str, picture: &str) -> io::Result<()> {
        if !is_picture(file) {
            return Err(io::Error::new(
                ErrorKind::InvalidInput,
                "a picture's name ends in .svg, .dot or .gv",
            ));
        }
        if self.has_as_net(rt, file) {
            return Err(own_file());
        }
        self.write_sparing(rt, file, picture)
    }

    /// Writes a network to its file, unless the run reads or writes that itself; in the place of the run's own network it goes by that
    /// name alone.
    fn write_net(self, rt: &HostRuntime, file: &str, net: &Net) -> io::Result<()> {
        if self.net.is_some_and(|own| own != file) && self.has_as_net(rt, file) {
            return Err(own_file());
        }
        let text = save(rt.alloc(), net)?;
        self.write_sparing(rt, file, text.as_str())
    }

    /// Puts what a line asks for into a file.
    fn write_content(self, rt: &HostRuntime, file: &str, content: Content<'_>) -> io::Result<()> {
        match content {
            Content::Picture(picture) => self.write_picture(rt, file, picture),
            Content::Net(net) => self.write_net(rt, file, net),
        }
    }
}

/// What became of something for a file, and why it isn't there, if it isn't.
#[derive(Drop)]
pub struct Filed {
    /// What became of it.
    pub outcome: Outcome,
    /// Why it isn't in the file, if it isn't.
    pub reason: Option<Result<String, AllocError>>,
}

/// Puts what a line asks for into a file. It fails if memory was refused.
pub fn put_content(
    rt: &HostRuntime,
    files: Files<'_>,
    file: &str,
    content: Content<'_>,
) -> Result<Filed, AllocError> {
    let Files::Allowed(own) = files else {
        return Ok(Filed {
            outcome: Outcome::Forbidden,
            reason: Some(String::from_str(rt.alloc(), "no file is written: --no-files is given")),
        });
    };
    match own.write_content(rt, file, content) {
        Ok(()) => Ok(Filed {
            outcome: Outcome::Written,
            reason: None,
        }),
        Err(error) if error.kind() == ErrorKind::OutOfMemory => Err(AllocError),
        Err(error) => Ok(Filed {
            outcome: Outcome::Failed,
            reason: Some(write_reason(rt.alloc(), file, &error)),
        }),
    }
}

/// Who files the pictures and networks of a script, counts its refused lines if that is wanted, and notes why each is refused if that is explained.
#[derive(Drop)]
pub struct ScriptClerk<'a> {
    /// What the files are written by.
    pub rt: &'a HostRuntime,
    /// Which files may be written.
    pub allowed: Files<'a>,
    /// Where refused lines are counted, none if they aren't.
    pub counted: Option<&'a Seen>,
    /// Where it is noted why lines are refused, if that is explained.
    pub notes: Option<&'a RefCell<Notes>>,
}

impl<'a> ScriptClerk<'a> {
    /// The notes of the script, if its lines are explained.
    fn notes(&self) -> Option<RefMut<'a, Notes>> {
        self.notes?.try_borrow_mut().ok()
    }
}

impl<'a> Clerk for ScriptClerk<'a> {
    fn explains(&self) -> bool {
        self.notes.is_some()
    }

    fn explain(&self, _alloc: Global, asked: Asked<'_>, why: Reason, net: &Net) {
        if let Some(mut notes) = self.notes() {
            notes.explain(asked, why, net);
        }
    }

    fn put(
        &self,
        _alloc: Global,
        asked: Asked<'_>,
        file: &str,
        content: Content<'_>,
    ) -> Result<Outcome, AllocError> {
        let filed = put_content(self.rt, self.allowed, file, content)?;
        if let (Some(reason), Some(mut notes)) = (filed.reason, self.notes()) {
            notes.give_reason(asked, reason);
        }
        Ok(filed.outcome)
    }

    fn see(&self, _alloc: Global, asked: Asked<'_>, answer: &Answer) {
        if let (Answer::Refused(_), Some(seen)) = (answer, self.counted) {
            seen.count_refusal();
        }
        if let Some(mut notes) = self.notes() {
            notes.see(asked, answer);
        }
    }
}
