//! What is said at a terminal: a first line, and a prompt before each line. Both go to standard error, so that what is piped stays
//! as it is.

use net_data::Net;
use std::{fs, io};

/// Whether a standard stream is a terminal, by the file that the system shows it as.
pub fn is_terminal(rt: &HostRuntime, stream: &str) -> bool {
    match fs::canonicalize(rt, stream) {
        Ok(file) => {
            let name = file.as_str();
            name.starts_with("/dev/pts/") || name.starts_with("/dev/tty")
        }
        Err(_) => false,
    }
}

/// Says how large a network is, and what tells the words.
pub fn greet(rt: &HostRuntime, net: &Net) {
    let (points, sets, plans) = (net.points().len(), net.sets().len(), net.plans().len());
    let _ = eprintln!(rt; "points {points}, sets {sets}, plans {plans}; help tells the words");
}

/// Standard input, with a prompt before each read if that is wanted.
#[derive(Drop)]
pub struct Prompting<'a, R: io::Read> {
    rt: &'a HostRuntime,
    reader: R,
    wanted: bool,
}

impl<'a, R: io::Read> Prompting<'a, R> {
    /// A reader, with prompts if they are wanted.
    pub fn new(rt: &'a HostRuntime, reader: R, wanted: bool) -> Prompting<'a, R> {
        Prompting { rt, reader, wanted }
    }
}

impl<'a, R: io::Read> io::Read for Prompting<'a, R> {
    ghost remaining = { λ p. R.remaining p.reader };

    fn read(&mut self, buf: &mut [u8]) -> io::Result<usize> {
        if self.wanted {
            let _ = eprint!(self.rt; "> ");
        }
        let read = self.reader.read(buf);
        if let (true, Ok(0)) = (self.wanted, &read) {
            let _ = eprintln!(self.rt; "");
        }
        read
    }
}
