//! What the name of a file leads to.

use std::io::ErrorKind;
use std::os::unix::fs::{FileTypeExt, MetadataExt};
use std::{fs, io};

/// So many symbolic links in a row are followed, as the system does.
const MOST_LINKS: u32 = 40;

/// What a name leads to.
#[derive(Drop)]
pub enum Target {
    /// A file of this name, or none yet: links are followed.
    File {
        path: String,
        /// The file that is there.
        there: Option<fs::Metadata>,
    },
    /// A device.
    Device,
}

/// Which file a name leads to, how long that is, and when it was last changed.
#[derive(Clone, Copy, PartialEq, Eq)]
pub struct Stamp {
    device: u64,
    node: u64,
    length: u64,
    seconds: i64,
    nanoseconds: i64,
}

/// The stamp of the file that a name leads to, none if no file is there.
pub fn stamp_of(rt: &HostRuntime, name: &str) -> Option<Stamp> {
    match fs::metadata(rt, name) {
        Ok(it) if it.is_file() => Some(Stamp {
            device: it.dev(),
            node: it.ino(),
            length: it.len(),
            seconds: it.mtime(),
            nanoseconds: it.mtime_nsec(),
        }),
        _ => None,
    }
}

/// Whether two names lead to the same file.
pub fn is_same_file(rt: &HostRuntime, one: &str, other: &str) -> bool {
    match (stamp_of(rt, one), stamp_of(rt, other)) {
        (Some(one), Some(other)) => one.device == other.device && one.node == other.node,
        _ => false,
    }
}

/// Whether a name leads to the file that one of some names leads to.
pub fn leads_to_any(rt: &HostRuntime, name: &str, names: &[&str]) -> bool {
    names.iter().any(|other| is_same_file(rt, name, other))
}

/// What stands against writing a file that the run reads or writes itself.
pub fn own_file() -> io::Error {
    io::Error::new(
        ErrorKind::PermissionDenied,
        "this run reads it, or writes it itself",
    )
}

/// The folder that a file stands in, by its name.
pub fn folder_of(path: &str) -> &str {
    match path.rsplit_once('/') {
        Some(("", _)) => "/",
        Some((folder, _)) => folder,
        None => ".",
    }
}

/// What the system says of a name, none if it says that nothing is there.
fn found(told: io::Result<fs::Metadata>) -> io::Result<Option<fs::Metadata>> {
    match told {
        Ok(it) => Ok(Some(it)),
        Err(error) if error.kind() == ErrorKind::NotFound => Ok(None),
        Err(error) => Err(error),
    }
}

/// Whether a name is that of a symbolic link.
fn is_link(rt: &HostRuntime, name: &str) -> io::Result<bool> {
    match found(fs::symlink_metadata(rt, name))? {
        Some(it) => Ok(it.is_symlink()),
        None => Ok(false),
    }
}

/// The name that a symbolic link says, which counts from the link's folder.
fn next_of(rt: &HostRuntime, link: &str) -> io::Result<String> {
    let said = fs::read_link(rt, link)?;
    let said = said.as_str();
    if said.starts_with('/') {
        return Ok(String::from_str(rt.alloc(), said)?);
    }
    let folder = folder_of(link);
    Ok(format!(in rt.alloc(); "{folder}/{said}")?)
}

/// The name of the file that a name makes where nothing is there yet: links that lead to nothing are followed.
fn end_of(rt: &HostRuntime, name: &str) -> io::Result<String> {
    let mut path = String::from_str(rt.alloc(), name)?;
    for _ in 0..MOST_LINKS {
        if !is_link(rt, path.as_str())? {
            return Ok(path);
        }
        path = next_of(rt, path.as_str())?;
    }
    Err(io::Error::from(ErrorKind::FilesystemLoop))
}

/// The name of a file that is there: that of the file which a link leads to, if it is a link.
fn path_of(rt: &HostRuntime, name: &str) -> io::Result<String> {
    if !is_link(rt, name)? {
        return Ok(String::from_str(rt.alloc(), name)?);
    }
    let path = fs::canonicalize(rt, name)?;
    Ok(String::from_str(rt.alloc(), path.as_str())?)
}

/// What stands against writing what a name leads to, if it is neither a file nor a device.
fn refusal_of(kind: fs::FileType) -> io::Error {
    if kind.is_fifo() {
        return io::Error::new(ErrorKind::InvalidInput, "a pipe isn't written");
    }
    if kind.is_dir() {
        return io::Error::new(ErrorKind::IsADirectory, "a folder isn't written");
    }
    io::Error::new(ErrorKind::InvalidInput, "this is no file")
}

/// What a name leads to that is there.
fn target_there(rt: &HostRuntime, name: &str, there: fs::Metadata) -> io::Result<Target> {
    let kind = there.file_type();
    if kind.is_file() {
        return Ok(Target::File {
            path: path_of(rt, name)?,
            there: Some(there),
        });
    }
    if kind.is_char_device() || kind.is_block_device() {
        return Ok(Target::Device);
    }
    Err(refusal_of(kind))
}

/// What a name leads to, if it can be written.
///
/// # Errors
///
/// What the system says; a folder, a pipe and a socket aren't written.
pub fn target_of(rt: &HostRuntime, name: &str) -> io::Result<Target> {
    if name.is_empty() {
        return Err(io::Error::from(ErrorKind::NotFound));
    }
    match found(fs::metadata(rt, name))? {
        Some(there) => target_there(rt, name, there),
        None => Ok(Target::File {
            path: end_of(rt, name)?,
            there: None,
        }),
    }
}
