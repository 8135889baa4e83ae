//! Networks and scripts that are read from files, with a sentence about why one isn't, if that is wanted.

use crate::notes::Notes;
use crate::reasons::explain_text;
use crate::reports::Teller;
use console::{Fault, read_net};
use net_data::Net;
use net_text::LoadFault;
use std::cell::RefCell;
use std::fs::File;
use std::{fs, io};

/// A reader of which a copy is kept, and the system's number of why it failed. What it reads from may be gone once it was read.
#[derive(Drop)]
struct CopyingReader<R: io::Read> {
    reader: R,
    copy: Vec<u8>,
    failed: Option<i32>,
}

impl<R: io::Read> io::Read for CopyingReader<R> {
    ghost remaining = { λ p. R.remaining p.reader };

    fn read(&mut self, buf: &mut [u8]) -> io::Result<usize> {
        let read = self.reader.read(buf);
        match &read {
            // where there is no memory for the copy, the place of a fault isn't told
            Ok(count) => {
                let _ = self.copy.extend_from_slice(&buf[..*count]);
            }
            Err(error) => self.failed = error.raw_os_error(),
        }
        read
    }
}

/// Opens a file that is to be read.
pub fn open_file(teller: Teller<'_>, name: &str) -> Result<File, Fault> {
    match fs::open(teller.rt, name) {
        Ok(file) => Ok(file),
        Err(error) => {
            teller.explain_file(name, &error);
            Err(Fault::Read)
        }
    }
}

/// Says why a file can't be read to its end: the system's reason, or that it is too long.
fn explain_reading(teller: Teller<'_>, name: &str, failed: Option<i32>) {
    match failed {
        Some(number) => teller.explain_file(name, &io::Error::from_raw_os_error(number)),
        None => teller.say(&[name, ": a network text has at most 134,217,728 bytes"]),
    }
}

/// Says why the network of a file isn't loaded: the system's reason, or what is wrong with its text, and where.
fn explain_load(teller: Teller<'_>, name: &str, read: &CopyingReader<File>, fault: Fault) {
    match fault {
        Fault::Read | Fault::Load(LoadFault::Read) => explain_reading(teller, name, read.failed),
        _ => explain_text(teller, name, read.copy.as_slice(), fault),
    }
}

/// Loads the network of a file, and says why it isn't loaded.
fn load_explained(teller: Teller<'_>, name: &str, file: File) -> Result<Net, Fault> {
    let mut reader = CopyingReader {
        reader: file,
        copy: Vec::new(teller.alloc()),
        failed: None,
    };
    let net = read_net(teller.alloc(), &mut reader);
    if let Err(fault) = &net {
        explain_load(teller, name, &reader, *fault);
    }
    net
}

/// Loads the network of a file.
pub fn load_file(teller: Teller<'_>, name: &str) -> Result<Net, Fault> {
    let mut file = open_file(teller, name)?;
    if teller.explained {
        return load_explained(teller, name, file);
    }
    read_net(teller.alloc(), &mut file)
}

/// Says what is wrong with the network text of an input, by what was noted of it.
pub fn explain_input(teller: Teller<'_>, notes: &RefCell<Notes>, fault: Fault) {
    if let Ok(notes) = notes.try_borrow() {
        explain_text(teller, "standard input", notes.text(), fault);
    }
}
