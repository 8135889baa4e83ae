//! Files that are written: each is made beside the one whose place it takes, so that one that was there stays as it was where
//! writing fails. What others made is never opened for writing, removed or followed, but for the name that the user gives.

use crate::fresh::{Fresh, Kept};
use crate::saying::say;
use crate::targets::{Target, target_of};
use console::Fault;
use std::fs::{Metadata, OpenOptions};
use std::io::{ErrorKind, Write};
use std::{fs, io};

/// What is done with a device.
#[derive(Clone, Copy, PartialEq, Eq)]
pub enum Devices {
    /// It is written straight away: the user named it on the command line.
    Written,
    /// It is refused.
    Refused,
}

/// Says what a file that took the place of another has not of it.
fn tell_kept(rt: &HostRuntime, name: &str, kept: Kept) {
    match kept {
        Kept::All => {}
        Kept::NotOwner => say(
            rt,
            &["route_desk: ", name, ": its owner or its group isn't kept"],
        ),
        Kept::NotMode => say(rt, &["route_desk: ", name, ": its mode isn't kept"]),
    }
}

/// Writes a text into a file that was just made, and puts it in the place of another.
fn fill_and_put(
    rt: &HostRuntime,
    fresh: &mut Fresh,
    path: &str,
    there: Option<&Metadata>,
    text: &str,
) -> io::Result<Kept> {
    let kept = fresh.fill(text, there)?;
    fresh.put(rt, path)?;
    Ok(kept)
}

/// Puts a text in the place of a file. If that fails, what this run made is taken away again.
fn replace(rt: &HostRuntime, path: &str, there: Option<&Metadata>, text: &str) -> io::Result<Kept> {
    let mut fresh = Fresh::beside(rt, path, there)?;
    let kept = fill_and_put(rt, &mut fresh, path, there, text);
    if kept.is_err() {
        fresh.remove(rt);
    }
    kept
}

/// Writes a text to a device.
fn write_device(rt: &HostRuntime, name: &str, text: &str) -> io::Result<()> {
    let mut how = OpenOptions::new();
    how.write(true);
    let mut device = how.open(rt, name)?;
    device.write_all(text.as_bytes())
}

/// What stands against a device where none is written.
fn no_device() -> io::Error {
    io::Error::new(ErrorKind::InvalidInput, "a device isn't written")
}

/// Puts a text in the place of the file that a name leads to. What a new file has not of the one whose place it takes is said on
/// standard error.
///
/// # Errors
///
/// What the system says; the file is then as it was.
pub fn save_text(rt: &HostRuntime, name: &str, text: &str, devices: Devices) -> io::Result<()> {
    match target_of(rt, name)? {
        Target::Device if devices == Devices::Written => write_device(rt, name, text),
        Target::Device => Err(no_device()),
        Target::File { path, there } => {
            let kept = replace(rt, path.as_str(), there.as_ref(), text)?;
            tell_kept(rt, name, kept);
            Ok(())
        }
    }
}

/// A text and the name of the file that it goes to.
#[derive(Drop)]
pub struct FileText {
    /// The name.
    pub name: String,
    /// The text.
    pub text: String,
}

/// Why texts aren't saved.
#[derive(Drop)]
pub struct NotSaved {
    /// The place of the one that can't be.
    pub place: usize,
    /// What the system says.
    pub error: io::Error,
}

/// A text that is written whole beside the place that it will take.
#[derive(Drop)]
struct Draft {
    path: String,
    there: Option<Metadata>,
    fresh: Fresh,
    kept: Kept,
    /// The file that stood in the place, under another name.
    aside: Option<Fresh>,
    is_put: bool,
}

/// Writes a text whole into a file that is made beside the one that a name leads to.
fn draft_of(rt: &HostRuntime, file: &FileText) -> io::Result<Draft> {
    let Target::File { path, there } = target_of(rt, file.name.as_str())? else {
        return Err(no_device());
    };
    let mut fresh = Fresh::beside(rt, path.as_str(), there.as_ref())?;
    match fresh.fill(file.text.as_str(), there.as_ref()) {
        Ok(kept) => Ok(Draft {
            path,
            there,
            fresh,
            kept,
            aside: None,
            is_put: false,
        }),
        Err(error) => {
            fresh.remove(rt);
            Err(error)
        }
    }
}

/// Gives the file that stands in the place of a draft another name, if there is one.
fn set_aside(rt: &HostRuntime, draft: &mut Draft) -> io::Result<()> {
    if draft.there.is_none() {
        return Ok(());
    }
    let aside = Fresh::beside(rt, draft.path.as_str(), draft.there.as_ref())?;
    if let Err(error) = aside.set_aside(rt, draft.path.as_str()) {
        aside.remove(rt);
        return Err(error);
    }
    draft.aside = Some(aside);
    Ok(())
}

/// Puts a draft in its place. What stood there is kept under another name.
fn put_draft(rt: &HostRuntime, draft: &mut Draft) -> io::Result<()> {
    set_aside(rt, draft)?;
    draft.fresh.put(rt, draft.path.as_str())?;
    draft.is_put = true;
    Ok(())
}

/// Takes a draft away again, and gives the place back to what stood there.
fn take_back(rt: &HostRuntime, draft: &Draft) {
    if !draft.is_put {
        draft.fresh.remove(rt);
    }
    match &draft.aside {
        Some(aside) => {
            let _ = aside.put(rt, draft.path.as_str());
        }
        None if draft.is_put => {
            let _ = fs::remove_file(rt, draft.path.as_str());
        }
        None => {}
    }
}

/// Writes texts whole, each beside the place that it will take.
fn draft_all(
    rt: &HostRuntime,
    files: &[FileText],
    drafts: &mut Vec<Draft>,
) -> Result<(), NotSaved> {
    for (place, file) in files.iter().enumerate() {
        match draft_of(rt, file) {
            Ok(draft) => {
                if drafts.push(draft).is_err() {
                    let error = io::Error::from(ErrorKind::OutOfMemory);
                    return Err(NotSaved { place, error });
                }
            }
            Err(error) => return Err(NotSaved { place, error }),
        }
    }
    Ok(())
}

/// Puts drafts in their places, one after the other.
fn put_all(rt: &HostRuntime, drafts: &mut [Draft]) -> Result<(), NotSaved> {
    for (place, draft) in drafts.iter_mut().enumerate() {
        if let Err(error) = put_draft(rt, draft) {
            return Err(NotSaved { place, error });
        }
    }
    Ok(())
}

/// Writes texts and puts them in their places.
fn make_all(rt: &HostRuntime, files: &[FileText], drafts: &mut Vec<Draft>) -> Result<(), NotSaved> {
    if drafts.reserve(files.len()).is_err() {
        let error = io::Error::from(ErrorKind::OutOfMemory);
        return Err(NotSaved { place: 0, error });
    }
    draft_all(rt, files, drafts)?;
    put_all(rt, drafts.as_mut_slice())
}

/// Removes what stood in the place of a draft, and says what the new file has not of it.
fn settle(rt: &HostRuntime, file: &FileText, draft: &Draft) {
    if let Some(aside) = &draft.aside {
        aside.remove(rt);
    }
    tell_kept(rt, file.name.as_str(), draft.kept);
}

/// Puts texts in the places of the files that their names lead to, all of them or none. Each is written whole before the first
/// takes its place. If one can't, those before it give their places back to what stood there.
///
/// # Errors
///
/// What the system says of the first that can't be saved; all files are then as they were.
pub fn save_together(rt: &HostRuntime, files: &[FileText]) -> Result<(), NotSaved> {
    let mut drafts = Vec::new(rt.alloc());
    let made = make_all(rt, files, &mut drafts);
    if made.is_ok() {
        for (file, draft) in files.iter().zip(drafts.iter()) {
            settle(rt, file, draft);
        }
    } else {
        for draft in drafts.iter().rev() {
            take_back(rt, draft);
        }
    }
    made
}

/// Tries whether a file can be made beside the one that is there, and whether it may take its place.
fn try_beside(rt: &HostRuntime, path: &str, there: Option<&Metadata>) -> io::Result<()> {
    let fresh = Fresh::beside(rt, path, there)?;
    let may_replace = match there {
        Some(there) => fresh.may_replace(rt, path, there),
        None => Ok(true),
    };
    fresh.remove(rt);
    if !may_replace? {
        return Err(io::Error::from(ErrorKind::PermissionDenied));
    }
    Ok(())
}

/// Tries whether a file can be written, before there is anything to lose: a file is made in its folder, and taken away again.
///
/// # Errors
///
/// What the system says.
pub fn try_saving(rt: &HostRuntime, name: &str) -> io::Result<()> {
    match target_of(rt, name)? {
        Target::Device => Ok(()),
        Target::File { path, there } => try_beside(rt, path.as_str(), there.as_ref()),
    }
}

/// The fault of a run whose file can't be written.
pub fn fault_of(error: &io::Error) -> Fault {
    if error.kind() == ErrorKind::OutOfMemory {
        return Fault::OutOfMemory;
    }
    Fault::Write
}
