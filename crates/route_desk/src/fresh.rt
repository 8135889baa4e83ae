//! A file that this run makes beside another, whose place it takes once it is written.

use crate::targets::folder_of;
use std::fs::{File, Metadata, OpenOptions, Permissions};
use std::io::{ErrorKind, Write};
use std::os::unix::fs::{MetadataExt, OpenOptionsExt, PermissionsExt, fchown};
use std::{fs, io, process};

/// So many names are tried.
const MOST_NAMES: u32 = 1000;

/// Who may read and write a new file, before the system's own mask.
const ANYONE: u32 = 0o666;

/// Who may read and write a file that takes the place of another until it has that one's mode.
const OWNER_ALONE: u32 = 0o600;

/// The bits of a mode.
const MODE_BITS: u32 = 0o7777;

/// Those of them that say who may read, write and run a file.
const RIGHTS: u32 = 0o777;

/// What the new file has of the one whose place it takes.
#[derive(Clone, Copy, PartialEq, Eq)]
pub enum Kept {
    /// All: its owner, its group and its mode.
    All,
    /// Not its owner or its group: the system doesn't let this run give a file to them.
    NotOwner,
    /// Not its mode.
    NotMode,
}

/// A file that this run made under a name that wasn't there.
#[derive(Drop)]
pub struct Fresh {
    path: String,
    file: File,
}

/// Makes a file that wasn't there, with a mode. It is never one that is there, nor what a link leads to.
fn make(rt: &HostRuntime, path: &str, mode: u32) -> io::Result<File> {
    let mut how = OpenOptions::new();
    how.write(true);
    how.create_new(true);
    how.mode(mode);
    how.open(rt, path)
}

impl Fresh {
    /// Makes a file in the folder of another, under the first name of its own that isn't taken.
    fn with_mode(rt: &HostRuntime, beside: &str, mode: u32) -> io::Result<Fresh> {
        let (folder, run) = (folder_of(beside), process::id(rt.process()));
        for count in 0..MOST_NAMES {
            let path = format!(in rt.alloc(); "{folder}/.route_desk-{run}-{count}")?;
            match make(rt, path.as_str(), mode) {
                Ok(file) => return Ok(Fresh { path, file }),
                Err(error) if error.kind() == ErrorKind::AlreadyExists => {}
                Err(error) => return Err(error),
            }
        }
        Err(io::Error::from(ErrorKind::AlreadyExists))
    }

    /// Makes a file in the folder of another. Until it has that one's mode nobody else may read it.
    pub fn beside(rt: &HostRuntime, path: &str, there: Option<&Metadata>) -> io::Result<Fresh> {
        let mode = match there {
            Some(_) => OWNER_ALONE,
            None => ANYONE,
        };
        Fresh::with_mode(rt, path, mode)
    }

    /// Takes it away.
    pub fn remove(&self, rt: &HostRuntime) {
        let _ = fs::remove_file(rt, self.path.as_str());
    }

    /// Whether the system would let this run put a file in the place of one that is there: in a folder like /tmp only its owner may.
    pub fn may_replace(&self, rt: &HostRuntime, path: &str, there: &Metadata) -> io::Result<bool> {
        let (folder, user) = (
            fs::metadata(rt, folder_of(path))?,
            self.file.metadata()?.uid(),
        );
        let is_sticky = folder.mode() & 0o1000 != 0;
        Ok(!is_sticky || user == 0 || user == folder.uid() || user == there.uid())
    }

    /// Gives it the owner and the group of a file, or at least the group; whether it has the owner, and the group.
    fn take_owner(&self, like: &Metadata) -> io::Result<(bool, bool)> {
        let own = self.file.metadata()?;
        if (own.uid(), own.gid()) == (like.uid(), like.gid()) {
            return Ok((true, true));
        }
        if fchown(&self.file, Some(like.uid()), Some(like.gid())).is_ok() {
            return Ok((true, true));
        }
        let has_group = own.gid() == like.gid()
            || fchown(&self.file, None, Some(like.gid())).is_ok();
        Ok((own.uid() == like.uid(), has_group))
    }

    /// Gives it owner, group and mode of a file, as far as the system lets it. A group that isn't the file's may do no more than
    /// anyone.
    fn take_rights(&self, like: &Metadata) -> io::Result<Kept> {
        let (has_owner, has_group) = self.take_owner(like)?;
        let is_kept = has_owner && has_group;
        let mode = like.mode() & if is_kept { MODE_BITS } else { RIGHTS };
        let given = if has_group {
            mode
        } else {
            mode & (0o707 | (mode & 0o007) << 3)
        };
        if self
            .file
            .set_permissions(Permissions::from_mode(given))
            .is_err()
        {
            return Ok(Kept::NotMode);
        }
        if is_kept {
            return Ok(Kept::All);
        }
        Ok(Kept::NotOwner)
    }

    /// Writes a text into it, and gives it the rights of the file whose place it takes, if there is one.
    pub fn fill(&mut self, text: &str, there: Option<&Metadata>) -> io::Result<Kept> {
        self.file.write_all(text.as_bytes())?;
        let kept = match there {
            Some(like) => self.take_rights(like)?,
            None => Kept::All,
        };
        self.file.sync_all()?;
        Ok(kept)
    }

    /// Moves a file that is there into its place, which nothing was written to.
    pub fn set_aside(&self, rt: &HostRuntime, path: &str) -> io::Result<()> {
        fs::rename(rt, path, self.path.as_str())
    }

    /// Puts it in the place of a file, and has the system keep that, where it can.
    pub fn put(&self, rt: &HostRuntime, path: &str) -> io::Result<()> {
        fs::rename(rt, self.path.as_str(), path)?;
        if let Ok(folder) = fs::open(rt, folder_of(path)) {
            let _ = folder.sync_all();
        }
        Ok(())
    }
}
