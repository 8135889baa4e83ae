//! Where the answers of a seat go, and who files its pictures and networks.

use crate::clerks::{Files, put_content};
use crate::notes::Notes;
use crate::saying::say;
use crate::seat_files::OutputKind;
use crate::seat_text::SeatEntry;
use answers::{Answer, Asked, Reason};
use json_answers::{Clerk, Content, Outcome};
use net_data::Net;
use std::alloc::{AllocError, Global};
use std::cell::{RefCell, RefMut};
use std::fs::{File, OpenOptions};
use std::io;
use std::io::{ErrorKind, Printer, Write};

/// A FIFO or a device, which is opened at the first write: to open a FIFO waits for a reader.
#[derive(Drop)]
pub struct LaterOutput<'a> {
    rt: &'a HostRuntime,
    name: &'a str,
    file: Option<File>,
}

impl<'a> LaterOutput<'a> {
    /// The file, opened if it isn't yet. It is neither made nor cut.
    fn opened(&mut self) -> io::Result<&mut File> {
        if self.file.is_none() {
            let mut how = OpenOptions::new();
            how.write(true);
            self.file = Some(how.open(self.rt, self.name)?);
        }
        match &mut self.file {
            Some(file) => Ok(file),
            None => Err(io::Error::from(ErrorKind::NotFound)),
        }
    }
}

/// Where the answers of a seat go.
#[derive(Drop)]
pub enum SeatOutput<'a> {
    /// Standard output.
    Standard(Printer<'a, HostRuntime>),
    /// A regular file.
    Open(File),
    /// A FIFO or a device.
    Later(LaterOutput<'a>),
}

impl<'a> SeatOutput<'a> {
    /// The output of an entry.
    pub fn new(rt: &'a HostRuntime, entry: &'a SeatEntry, kind: OutputKind) -> SeatOutput<'a> {
        match kind {
            OutputKind::Standard => SeatOutput::Standard(io::writer(rt)),
            OutputKind::File(file) => SeatOutput::Open(file),
            OutputKind::Later => SeatOutput::Later(LaterOutput {
                rt,
                name: entry.output.as_str(),
                file: None,
            }),
        }
    }
}

impl<'a> io::Write for SeatOutput<'a> {
    fn write(&mut self, buf: &[u8]) -> io::Result<usize> {
        match self {
            SeatOutput::Standard(output) => output.write(buf),
            SeatOutput::Open(file) => file.write(buf),
            SeatOutput::Later(output) => output.opened()?.write(buf),
        }
    }

    fn flush(&mut self) -> io::Result<()> {
        Ok(())
    }
}

/// Who files the pictures and networks of a seat, and says why its lines are refused, if that is explained.
#[derive(Drop)]
pub struct SeatClerk<'a> {
    /// What the files are written by.
    pub rt: &'a HostRuntime,
    /// Which files may be written.
    pub allowed: Files<'a>,
    /// The name of the seat.
    pub seat: &'a str,
    /// What there is to say of the seat's refused lines, if they are explained.
    pub notes: Option<RefCell<Notes>>,
}

impl<'a> SeatClerk<'a> {
    /// The notes of the seat, if its lines are explained.
    fn notes(&self) -> Option<RefMut<'_, Notes>> {
        self.notes.as_ref()?.try_borrow_mut().ok()
    }
}

impl<'a> Clerk for SeatClerk<'a> {
    fn explains(&self) -> bool {
        self.notes.is_some()
    }

    fn explain(&self, _alloc: Global, asked: Asked<'_>, why: Reason, net: &Net) {
        if let Some(mut notes) = self.notes() {
            notes.explain(asked, why, net);
        }
    }

    fn put(
        &self,
        _alloc: Global,
        asked: Asked<'_>,
        file: &str,
        content: Content<'_>,
    ) -> Result<Outcome, AllocError> {
        let filed = put_content(self.rt, self.allowed, file, content)?;
        if let (Some(reason), Some(mut notes)) = (filed.reason, self.notes()) {
            notes.give_reason(asked, reason);
        }
        Ok(filed.outcome)
    }

    fn see(&self, _alloc: Global, asked: Asked<'_>, answer: &Answer) {
        if let Some(mut notes) = self.notes() {
            notes.see(asked, answer);
            for sentence in notes.take_unsaid().as_str().lines() {
                say(self.rt, &[self.seat, ": ", sentence]);
            }
        }
    }
}
