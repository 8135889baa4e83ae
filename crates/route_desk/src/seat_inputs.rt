//! Where the lines of a seat come from. A file is opened at the first read, in the thread of its session, since to open a FIFO may
//! wait for a writer.

ghost use Rattle.std.specs.Io.{ReadsAtMost};

use crate::held_lines::HeldLines;
use crate::saying::say;
use crate::seat_files::InputKind;
use crate::seat_text::SeatEntry;
use std::fs::{File, OpenOptions};
use std::io::{ErrorKind, Read, StdinLock};
use std::os::unix::fs::FileTypeExt;
use std::{fs, io};

/// The system's number of what it doesn't take (EINVAL).
const NOT_TAKEN: i32 = 22;

/// A file that is read to its end.
#[derive(Drop)]
pub struct NamedInput<'a> {
    rt: &'a HostRuntime,
    name: &'a str,
    file: Option<File>,
}

impl<'a> NamedInput<'a> {
    /// The file, opened if it isn't yet.
    fn opened(&mut self) -> io::Result<&mut File> {
        if self.file.is_none() {
            self.file = Some(fs::open(self.rt, self.name)?);
        }
        match &mut self.file {
            Some(file) => Ok(file),
            None => Err(io::Error::from(ErrorKind::NotFound)),
        }
    }
}

/// A FIFO that is opened again when its writers have gone. It hands on whole lines alone.
#[derive(Drop)]
pub struct FifoInput<'a> {
    rt: &'a HostRuntime,
    /// The name of the seat.
    seat: &'a str,
    name: &'a str,
    file: Option<File>,
    /// The same, open for writing too until something comes: so it has a writer, and a read waits. It is never written.
    waiting: Option<File>,
    held: HeldLines,
}

impl<'a> FifoInput<'a> {
    /// Opens the FIFO, for writing too or for reading alone, which waits for a writer if there is none. What isn't a FIFO any more is
    /// refused: it would be read from its front again and again.
    fn open(&self, is_written: bool) -> io::Result<File> {
        let mut how = OpenOptions::new();
        how.read(true);
        how.write(is_written);
        let file = how.open(self.rt, self.name)?;
        if !file.metadata()?.file_type().is_fifo() {
            return Err(io::Error::from_raw_os_error(NOT_TAKEN));
        }
        Ok(file)
    }

    /// Opens the FIFO again, so that a read waits for the next writer. What was open stays open meanwhile: nothing is lost of a writer
    /// who comes before. Where this program mayn't write the FIFO, the opening waits in the place of the read.
    fn open_again(&mut self) -> io::Result<()> {
        let waiting = match self.open(true) {
            Ok(file) => Some(file),
            Err(error) if error.kind() == ErrorKind::OutOfMemory => return Err(error),
            Err(_) => None,
        };
        self.file = Some(self.open(false)?);
        self.waiting = waiting;
        Ok(())
    }

    /// Says that the end of a line is missing.
    fn tell_dropped(&self, dropped: usize) {
        if dropped == 0 {
            return;
        }
        if let Ok(text) = format!(in self.rt.alloc();
            ": dropped {dropped} bytes of a line that was cut off"
        ) {
            say(self.rt, &["route_desk: ", self.seat, text.as_str()]);
        }
    }

    /// Ends what its writers left in the middle of a line, and opens the FIFO for the next writer.
    fn end_visit(&mut self) -> io::Result<()> {
        let dropped = self.held.cut_off()?;
        self.tell_dropped(dropped);
        if self.held.is_ready() {
            return Ok(());
        }
        self.open_again()
    }

    /// Takes what was read. From now on the end is seen when its writers have gone.
    fn take(&mut self, bytes: &[u8]) -> io::Result<()> {
        self.waiting = None;
        Ok(self.held.take(bytes)?)
    }

    /// Reads once, by way of a buffer.
    fn fetch(&mut self, buf: &mut [u8]) -> io::Result<()> {
        let Some(file) = &mut self.file else {
            return self.open_again();
        };
        match file.read(buf) {
            Ok(0) => self.end_visit(),
            Ok(count) => self.take(&buf[..count]),
            Err(error) => Err(error),
        }
    }

    /// Reads until there is something to hand on.
    fn read_on(&mut self, buf: &mut [u8]) -> io::Result<usize>
        ensures { ReadsAtMost result buf.new }
    {
        for _turn in 0..u64::MAX {
            let count = self.held.hand_on(buf);
            if count > 0 || buf.is_empty() {
                return Ok(count);
            }
            if let Err(error) = self.fetch(buf) {
                return Err(error);
            }
        }
        Ok(0)
    }
}

/// Where the lines of a seat come from.
#[derive(Drop)]
pub enum SeatInput<'a> {
    /// Standard input.
    Standard(StdinLock<'a>),
    /// A file, or a FIFO whose end is the end.
    Named(NamedInput<'a>),
    /// A FIFO that is opened again when its writers have gone.
    Fifo(FifoInput<'a>),
}

impl<'a> SeatInput<'a> {
    /// The input of an entry.
    pub fn new(rt: &'a HostRuntime, entry: &'a SeatEntry, kind: InputKind) -> SeatInput<'a> {
        let name = entry.input.as_str();
        match kind {
            InputKind::Standard => SeatInput::Standard(rt.reader()),
            InputKind::File => SeatInput::Named(NamedInput {
                rt,
                name,
                file: None,
            }),
            InputKind::Fifo => SeatInput::Fifo(FifoInput {
                rt,
                seat: entry.name.as_str(),
                name,
                file: None,
                waiting: None,
                held: HeldLines::new(rt.alloc()),
            }),
        }
    }
}

impl<'a> io::Read for SeatInput<'a> {
    fn read(&mut self, buf: &mut [u8]) -> io::Result<usize> {
        match self {
            SeatInput::Standard(input) => input.read(buf),
            SeatInput::Named(input) => input.opened()?.read(buf),
            SeatInput::Fifo(input) => input.read_on(buf),
        }
    }
}
