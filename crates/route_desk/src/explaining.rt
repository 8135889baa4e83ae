//! A run whose refused lines are explained: what is read of its network text is noted, and once answers were written it is said on standard
//! error why lines were refused.

use crate::notes::Notes;
use crate::saying::say;
use std::cell::RefCell;
use std::io;

/// A reader of which it is noted what was read, if there are notes.
#[derive(Drop)]
pub struct NotedReader<'a, R: io::Read> {
    notes: Option<&'a RefCell<Notes>>,
    reader: R,
}

impl<'a, R: io::Read> NotedReader<'a, R> {
    /// A reader, with the notes that it keeps.
    pub fn new(notes: Option<&'a RefCell<Notes>>, reader: R) -> NotedReader<'a, R> {
        NotedReader { notes, reader }
    }
}

/// Notes what was read.
fn note_read(notes: &RefCell<Notes>, bytes: &[u8]) {
    if let Ok(mut notes) = notes.try_borrow_mut() {
        notes.read(bytes);
    }
}

impl<'a, R: io::Read> io::Read for NotedReader<'a, R> {
    ghost remaining = { λ p. R.remaining p.reader };

    fn read(&mut self, buf: &mut [u8]) -> io::Result<usize> {
        let read = self.reader.read(buf);
        if let (Some(notes), Ok(count)) = (self.notes, &read) {
            note_read(notes, &buf[..*count]);
        }
        read
    }
}

/// A writer of answers, behind which it is said why lines were refused, if there are notes.
#[derive(Drop)]
pub struct ExplainingWriter<'a, W: io::Write> {
    rt: &'a HostRuntime,
    notes: Option<&'a RefCell<Notes>>,
    writer: W,
}

impl<'a, W: io::Write> ExplainingWriter<'a, W> {
    /// A writer, with the notes of its script.
    pub fn new(
        rt: &'a HostRuntime,
        notes: Option<&'a RefCell<Notes>>,
        writer: W,
    ) -> ExplainingWriter<'a, W> {
        ExplainingWriter { rt, notes, writer }
    }
}

/// Says what there is to say.
fn say_noted(rt: &HostRuntime, notes: &RefCell<Notes>) {
    let Ok(mut notes) = notes.try_borrow_mut() else {
        return;
    };
    for sentence in notes.take_unsaid().as_str().lines() {
        say(rt, &[sentence]);
    }
}

impl<'a, W: io::Write> io::Write for ExplainingWriter<'a, W> {
    ghost contents = { λ p. W.contents p.writer };

    fn write(&mut self, buf: &[u8]) -> io::Result<usize> {
        let written = self.writer.write(buf);
        if let (Some(notes), Ok(_)) = (self.notes, &written) {
            say_noted(self.rt, notes);
        }
        written
    }

    fn flush(&mut self) -> io::Result<()> {
        self.writer.flush()
    }
}
