//! The files of seats: what each is, and what is surely wrong with one, found out before anything is run.

use crate::seat_faults::Flaw;
use crate::seat_text::SeatEntry;
use crate::targets::{Target, leads_to_any, own_file, target_of};
use console::Fault;
use std::alloc::{AllocError, AllocFailed};
use std::fs::{File, Metadata, OpenOptions};
use std::io::ErrorKind;
use std::os::fd::AsRawFd;
use std::os::unix::fs::{FileTypeExt, MetadataExt};
use std::{fs, io};

/// What a seat reads.
#[derive(Clone, Copy, PartialEq, Eq)]
pub enum InputKind {
    /// Standard input.
    Standard,
    /// A file, or a FIFO whose end is the end.
    File,
    /// A FIFO that is opened again when its writers have gone.
    Fifo,
}

/// What a seat writes.
#[derive(Drop)]
pub enum OutputKind {
    /// Standard output.
    Standard,
    /// A regular file, which is open.
    File(File),
    /// A FIFO or a device, which is opened at the first write: to open a FIFO waits for a reader.
    Later,
}

/// Why seats can't be run.
#[derive(Drop)]
pub enum StreamFault {
    /// The entry in this place, counted from 0, is wrong.
    Entry(usize, Flaw),
    /// The input or the output of the seat in this place fails with this fault, for what the system says.
    File(usize, Fault, io::Error),
    /// Memory was refused.
    OutOfMemory,
}

impl From<AllocError> for StreamFault {
    fn from(_refused: AllocError) -> StreamFault {
        StreamFault::OutOfMemory
    }
}

impl<T: Drop> From<AllocFailed<T>> for StreamFault {
    fn from(_refused: AllocFailed<T>) -> StreamFault {
        StreamFault::OutOfMemory
    }
}

impl StreamFault {
    /// The fault of the seat in this place whose input or output fails so, or of the want of memory for that.
    fn of(place: usize, fault: Fault, error: io::Error) -> StreamFault {
        if error.kind() == ErrorKind::OutOfMemory {
            return StreamFault::OutOfMemory;
        }
        StreamFault::File(place, fault, error)
    }
}

/// What has no content, and can be opened by anyone.
const NOTHING: &str = "/dev/null";

/// The greatest number of a standard stream.
const LAST_STANDARD: i32 = 2;

/// Opens what has no content, to be read or to be written.
fn open_nothing(rt: &HostRuntime, is_read: bool) -> io::Result<File> {
    let mut how = OpenOptions::new();
    how.read(is_read);
    how.write(!is_read);
    how.open(rt, NOTHING)
}

/// A file that has the least number that is free, if that is the number of a standard stream: it can't be used as that one.
fn hold_next(rt: &HostRuntime) -> io::Result<Option<File>> {
    let file = open_nothing(rt, false)?;
    let number = file.as_raw_fd();
    if number > LAST_STANDARD {
        return Ok(None);
    }
    if number == 0 {
        return Ok(Some(file));
    }
    drop(file);
    Ok(Some(open_nothing(rt, true)?))
}

/// Holds the numbers of those standard streams that are closed: a file of a seat that got one would be read or written in its place.
pub fn hold_closed(rt: &HostRuntime) -> Result<Vec<File>, AllocError> {
    let mut held = Vec::new(rt.alloc());
    for _number in 0..=LAST_STANDARD {
        let file = match hold_next(rt) {
            Ok(Some(file)) => file,
            Err(error) if error.kind() == ErrorKind::OutOfMemory => return Err(AllocError),
            _ => break,
        };
        held.push(file)?;
    }
    Ok(held)
}

/// What a name leads to, none if that can't be told; an error is want of memory.
fn find(rt: &HostRuntime, name: &str) -> io::Result<Option<Metadata>> {
    match fs::metadata(rt, name) {
        Ok(it) => Ok(Some(it)),
        Err(error) if error.kind() == ErrorKind::OutOfMemory => Err(error),
        Err(_) => Ok(None),
    }
}

/// Whether a name leads to a FIFO; an error is want of memory.
fn is_fifo(rt: &HostRuntime, name: &str) -> io::Result<bool> {
    match find(rt, name)? {
        Some(it) => Ok(it.file_type().is_fifo()),
        None => Ok(false),
    }
}

/// Tries whether an input can be read, as far as that is known without waiting for a writer.
fn try_input(rt: &HostRuntime, name: &str) -> io::Result<()> {
    if name == "-" {
        return Ok(());
    }
    let kind = fs::metadata(rt, name)?.file_type();
    if kind.is_dir() {
        return Err(io::Error::new(ErrorKind::IsADirectory, "a folder isn't read"));
    }
    if kind.is_socket() {
        return Err(io::Error::new(ErrorKind::InvalidInput, "a socket isn't read"));
    }
    if kind.is_file() {
        let _file = fs::open(rt, name)?;
    }
    Ok(())
}

/// What the input of an entry is, which may be a FIFO.
fn kind_of(entry: &SeatEntry, is_fifo: bool) -> Result<InputKind, Flaw> {
    match (is_fifo, entry.reopen) {
        (true, Some(false)) => Ok(InputKind::File),
        (true, _) => Ok(InputKind::Fifo),
        (false, Some(_)) => Err(Flaw::NoFifo),
        (false, None) if entry.input.as_str() == "-" => Ok(InputKind::Standard),
        (false, None) => Ok(InputKind::File),
    }
}

/// Whether an input is a FIFO, if it can be read as far as that is known.
fn tried_input(rt: &HostRuntime, name: &str) -> io::Result<bool> {
    try_input(rt, name)?;
    Ok(name != "-" && is_fifo(rt, name)?)
}

/// What the inputs of all entries are.
pub fn inputs_of(rt: &HostRuntime, entries: &[SeatEntry]) -> Result<Vec<InputKind>, StreamFault> {
    let mut kinds = Vec::with_capacity(rt.alloc(), entries.len())?;
    for (place, entry) in entries.iter().enumerate() {
        let is_fifo = match tried_input(rt, entry.input.as_str()) {
            Ok(is_fifo) => is_fifo,
            Err(error) => return Err(StreamFault::of(place, Fault::Read, error)),
        };
        match kind_of(entry, is_fifo) {
            Ok(kind) => kinds.push(kind)?,
            Err(flaw) => return Err(StreamFault::Entry(place, flaw)),
        }
    }
    Ok(kinds)
}

/// Opens a regular file that is there, or makes one that isn't. What has come into its place meanwhile, and is none, is left alone.
fn open_regular(rt: &HostRuntime, path: &str, is_there: bool) -> io::Result<OutputKind> {
    let mut how = OpenOptions::new();
    how.write(true);
    how.create_new(!is_there);
    let file = how.open(rt, path)?;
    if !file.metadata()?.is_file() {
        return Err(io::Error::new(ErrorKind::InvalidInput, "this is no file"));
    }
    Ok(OutputKind::File(file))
}

/// Opens an output, if that doesn't wait.
fn open_output(rt: &HostRuntime, name: &str) -> io::Result<OutputKind> {
    if name == "-" {
        return Ok(OutputKind::Standard);
    }
    if is_fifo(rt, name)? {
        return Ok(OutputKind::Later);
    }
    match target_of(rt, name)? {
        Target::Device => Ok(OutputKind::Later),
        Target::File { path, there } => open_regular(rt, path.as_str(), there.is_some()),
    }
}

/// Opens the outputs of all entries, if that doesn't wait.
fn open_outputs(rt: &HostRuntime, entries: &[SeatEntry]) -> Result<Vec<OutputKind>, StreamFault> {
    let mut outputs = Vec::with_capacity(rt.alloc(), entries.len())?;
    for (place, entry) in entries.iter().enumerate() {
        match open_output(rt, entry.output.as_str()) {
            Ok(output) => outputs.push(output)?,
            Err(error) => return Err(StreamFault::of(place, Fault::Write, error)),
        }
    }
    Ok(outputs)
}

/// Which file a name leads to.
#[derive(Clone, Copy, PartialEq, Eq)]
struct Identity {
    device: u64,
    node: u64,
}

/// Whether what is there is read or written by one seat alone: a device may serve several under its names.
fn is_own(it: &Metadata) -> bool {
    it.is_file() || it.file_type().is_fifo()
}

/// Which regular file or FIFO a name leads to, none if it is another thing.
fn identity_of(rt: &HostRuntime, name: &str) -> Result<Option<Identity>, AllocError> {
    if name == "-" {
        return Ok(None);
    }
    match find(rt, name) {
        Ok(Some(it)) if is_own(&it) => Ok(Some(Identity {
            device: it.dev(),
            node: it.ino(),
        })),
        Ok(_) => Ok(None),
        Err(_) => Err(AllocError),
    }
}

/// Notes which file a name leads to; whether that was noted before.
fn is_noted(rt: &HostRuntime, noted: &mut Vec<Identity>, name: &str) -> Result<bool, AllocError> {
    let Some(identity) = identity_of(rt, name)? else {
        return Ok(false);
    };
    if noted.as_slice().contains(&identity) {
        return Ok(true);
    }
    noted.push(identity)?;
    Ok(false)
}

/// The first entry with a file that is that of another, or of its other key, under whatever name.
fn find_doubled(rt: &HostRuntime, entries: &[SeatEntry]) -> Result<(), StreamFault> {
    let mut noted = Vec::new(rt.alloc());
    for (place, entry) in entries.iter().enumerate() {
        if is_noted(rt, &mut noted, entry.input.as_str())? {
            return Err(StreamFault::Entry(place, Flaw::FileTwice("in")));
        }
        if is_noted(rt, &mut noted, entry.output.as_str())? {
            return Err(StreamFault::Entry(place, Flaw::FileTwice("out")));
        }
    }
    Ok(())
}

/// The first entry whose output is a file that the run reads, or writes itself: one of these names leads to it.
fn find_own(rt: &HostRuntime, entries: &[SeatEntry], own: &[&str]) -> Result<(), StreamFault> {
    for (place, entry) in entries.iter().enumerate() {
        let name = entry.output.as_str();
        if name != "-" && leads_to_any(rt, name, own) {
            return Err(StreamFault::File(place, Fault::Write, own_file()));
        }
    }
    Ok(())
}

/// Cuts the open files to nothing.
fn cut(outputs: &[OutputKind]) -> Result<(), StreamFault> {
    for (place, output) in outputs.iter().enumerate() {
        if let OutputKind::File(file) = output {
            if let Err(error) = file.set_len(0) {
                return Err(StreamFault::of(place, Fault::Write, error));
            }
        }
    }
    Ok(())
}

/// Opens the outputs of all entries: regular files are made, or cut to nothing once it is known that nothing is wrong with any file, and
/// that none is one that the run reads, or writes itself, by these names.
pub fn outputs_of(
    rt: &HostRuntime,
    entries: &[SeatEntry],
    own: &[&str],
) -> Result<Vec<OutputKind>, StreamFault> {
    let outputs = match open_outputs(rt, entries) {
        Ok(outputs) => outputs,
        Err(fault) => return Err(fault),
    };
    if let Err(fault) = find_doubled(rt, entries) {
        return Err(fault);
    }
    if let Err(fault) = find_own(rt, entries, own) {
        return Err(fault);
    }
    match cut(outputs.as_slice()) {
        Ok(()) => Ok(outputs),
        Err(fault) => Err(fault),
    }
}
