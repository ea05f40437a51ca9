//! Files that are being written, beside the ones that they become, and what a run that was killed
//! left of them.
//!
//! A file that is being written is locked, and only its owner may write to it, and nobody read from
//! it. Other programs make no file of that mode. So where such a file isn't locked, the run that made
//! it is dead.

ghost use Rattle.std.specs.Prelude.{◌≡◌, ◌↔◌, IsTrue};
ghost use Rattle.std.specs.Fs.{metadata_len};

use crate::locks::LockFiles;
use std::alloc::{AllocError, Global};
use std::fs::{Metadata, OpenFile, OpenOptions, Permissions};
use std::os::unix::fs::{MetadataExt, OpenOptionsExt, PermissionsExt};
use std::path::Path;
use std::rt::Files;
use std::{fs, io};

/// How many names are tried for a file that is being written.
const MAX_NAMES: u32 = 10_000;

/// How many of these names are looked at for what a run that was killed left.
const SEARCHED_NAMES: u32 = 8;

/// How many bytes of a file's name are in the name of one that is written beside it: a name has 255
/// at most.
const MAX_NAME_LEN: usize = 200;

/// The mode of a file that is being written.
const UNFINISHED: u32 = 0o200;

/// The bits of a mode that aren't the kind of a file.
const MODE_BITS: u32 = 0o7777;

/// The path of a file that is being written, beside the one that it becomes.
fn path_beside(alloc: Global, path: &str, number: u32) -> Result<String, AllocError> {
    let path = Path::new(path);
    let name = path.file_name().unwrap_or("");
    let (front, _) = name.split_at(name.floor_char_boundary(MAX_NAME_LEN));
    let name = format!(in alloc; "{front}.unfinished-{number}")?;
    Ok(path.with_file_name(alloc, name.as_str())?.into_string())
}

/// Makes a file, where none is: its owner alone may read it where `is_private`.
fn create_new<R: Files>(rt: &R, path: &str, is_private: bool) -> io::Result<R::File> {
    let mut options = OpenOptions::new();
    options.write(true).create_new(true);
    if is_private {
        options.mode(0o600);
    }
    options.open(rt, path)
}

/// Makes the file with this number beside the one that it becomes; none where one has its name.
fn try_beside<R: Files + AllocGlobal>(
    rt: &R,
    path: &str,
    is_private: bool,
    number: u32,
) -> io::Result<Option<(String, R::File)>> {
    let beside = path_beside(rt.alloc(), path, number)?;
    match create_new(rt, beside.as_str(), is_private) {
        Ok(file) => Ok(Some((beside, file))),
        Err(error) if error.kind() == io::ErrorKind::AlreadyExists => Ok(None),
        Err(error) => Err(error),
    }
}

/// Makes a file under a name that none has, beside the one that it becomes.
fn create_beside<R: Files + AllocGlobal>(
    rt: &R,
    path: &str,
    is_private: bool,
) -> io::Result<(String, R::File)> {
    for number in 0..MAX_NAMES {
        match try_beside(rt, path, is_private, number) {
            Ok(Some(created)) => return Ok(created),
            Ok(None) => {}
            Err(error) => return Err(error),
        }
    }
    Err(io::Error::from(io::ErrorKind::AlreadyExists))
}

/// Whether a file has the mode of one that is being written.
fn is_unfinished(metadata: &Metadata) -> bool {
    metadata.is_file() && metadata.mode() & MODE_BITS == UNFINISHED
}

/// Whether both are one file.
fn is_same(metadata: &Metadata, other: &Metadata) -> bool {
    metadata.dev() == other.dev() && metadata.ino() == other.ino()
}

/// Whether the file that is open is the one at a path, and isn't being written any more.
fn is_dead<R: LockFiles>(rt: &R, path: &str, file: &R::File) -> io::Result<bool> {
    match rt.try_lock(file) {
        Ok(true) => {}
        Ok(false) => return Ok(false),
        Err(error) => return Err(error),
    }
    let opened = file.metadata()?;
    // Now that it is locked, nothing but its mode or its name can be another than before.
    let found = fs::symlink_metadata(rt, path)?;
    Ok(is_unfinished(&found) && is_same(&opened, &found))
}

/// Removes the file at this path where a run that was killed left it.
fn remove_dead<R: LockFiles>(rt: &R, path: &str) -> io::Result<()> {
    // What is no file, as a pipe or a link, isn't opened.
    let found = fs::symlink_metadata(rt, path)?;
    if !is_unfinished(&found) {
        return Ok(());
    }
    let file = OpenOptions::new().append(true).open(rt, path)?;
    match is_dead(rt, path, &file) {
        Ok(true) => fs::remove_file(rt, path),
        Ok(false) => Ok(()),
        Err(error) => Err(error),
    }
}

/// Removes what runs that were killed left beside a file.
fn remove_all_dead<R: LockFiles + AllocGlobal>(rt: &R, path: &str) -> Result<(), AllocError> {
    for number in 0..SEARCHED_NAMES {
        match path_beside(rt.alloc(), path, number) {
            // What can't be removed stays, and another name is taken.
            Ok(beside) => {
                let _ = remove_dead(rt, beside.as_str());
            }
            Err(error) => return Err(error),
        }
    }
    Ok(())
}

/// Locks a file that is being written, and gives it the mode of such a file. Returns a handle that
/// keeps the lock, and the mode that the file had.
fn lock<R: LockFiles>(rt: &R, file: &R::File) -> io::Result<(R::File, Permissions)> {
    let permissions = file.metadata()?.permissions();
    let handle = file.try_clone()?;
    match rt.try_lock(&handle) {
        Ok(true) => {}
        Ok(false) => return Err(io::Error::from(io::ErrorKind::WouldBlock)),
        Err(error) => return Err(error),
    }
    match handle.set_permissions(Permissions::from_mode(UNFINISHED)) {
        Ok(()) => Ok((handle, permissions)),
        Err(error) => Err(error),
    }
}

/// Gives a file these permissions.
fn permit<F: OpenFile>(file: &F, permissions: Option<Permissions>) -> io::Result<()> {
    match permissions {
        Some(permissions) => file.set_permissions(permissions),
        None => Ok(()),
    }
}

/// Whether a file has so many bytes.
fn has_length(metadata: &Metadata, count: u64) -> bool
    ensures { IsTrue result ↔ metadata_len metadata.now ≡ count }
{
    metadata.len() == count
}

/// Checks that the file at a path has the bytes that were written to it, after it was closed: what
/// closing it reports is lost, and some file systems say only then that bytes are.
///
/// # Errors
///
/// Where it has more or fewer, or isn't there.
pub(crate) fn check_length(rt: &impl Files, path: &str, count: u64) -> io::Result<()> {
    let metadata = fs::metadata(rt, path)?;
    match has_length(&metadata, count) {
        true => Ok(()),
        false => Err(io::Error::new(
            io::ErrorKind::WriteZero,
            "the file doesn't have the length of what was written",
        )),
    }
}

/// A file that is being written, beside the one that it becomes.
#[derive(Drop)]
pub(crate) struct Unfinished<F> {
    /// Its path.
    path: String,
    /// What is written to.
    pub file: F,
    /// Keeps its lock; none where it isn't locked.
    lock: Option<F>,
    /// The mode that it is to have, if not the one that it has.
    permissions: Option<Permissions>,
}

/// A file that is written and closed, and is to be put in its place.
#[derive(Drop)]
pub(crate) struct Finished<F> {
    /// Its path.
    pub path: String,
    /// Keeps its lock; none where it isn't locked.
    lock: Option<F>,
}

impl<F: Drop + OpenFile> Unfinished<F> {
    /// Locks a new file.
    fn new<R: LockFiles<File = F>>(
        rt: &R,
        path: String,
        file: F,
        permissions: Option<Permissions>,
    ) -> Unfinished<F> {
        match lock(rt, &file) {
            Ok((handle, own)) => Unfinished {
                path,
                file,
                lock: Some(handle),
                permissions: Some(permissions.unwrap_or(own)),
            },
            Err(_) => Unfinished {
                path,
                file,
                lock: None,
                permissions,
            },
        }
    }

    /// Makes a file beside the one that it becomes, which will have these permissions, or where there
    /// are none those of a new file; and removes what runs that were killed left there.
    ///
    /// # Errors
    ///
    /// Where it can't be created, or memory runs out.
    pub fn create<R: LockFiles<File = F> + AllocGlobal>(
        rt: &R,
        place: &str,
        permissions: Option<Permissions>,
    ) -> io::Result<Unfinished<F>> {
        remove_all_dead(rt, place)?;
        match create_beside(rt, place, permissions.is_some()) {
            Ok((path, file)) => Ok(Unfinished::new(rt, path, file, permissions)),
            Err(error) => Err(error),
        }
    }

    /// Closes the file, and checks that it has the bytes that were written, of which there are so
    /// many. Its lock is kept.
    ///
    /// # Errors
    ///
    /// Where it hasn't, or doesn't get its mode. The file is then removed.
    pub fn close(self, rt: &impl Files, count: u64) -> io::Result<Finished<F>> {
        let Unfinished {
            path,
            file,
            lock,
            permissions,
        } = self;
        let permitted = permit(&file, permissions);
        drop(file);
        let checked = match permitted {
            Ok(()) => check_length(rt, path.as_str(), count),
            Err(error) => Err(error),
        };
        match checked {
            Ok(()) => Ok(Finished { path, lock }),
            Err(error) => {
                let _ = fs::remove_file(rt, path.as_str());
                Err(error)
            }
        }
    }

    /// Removes the file.
    pub fn remove(self, rt: &impl Files) {
        let Unfinished {
            path,
            file,
            lock,
            permissions: _,
        } = self;
        let _ = fs::remove_file(rt, path.as_str());
        // Only now is it closed, and no more locked.
        drop(file);
        drop(lock);
    }
}
