//! Files in whose place no other can be put, which are written over.

ghost use Rattle.std.specs.Prelude.{◌≡◌, true, IsOk};

use crate::unfinished::check_length;
use std::fs::{OpenFile, OpenOptions};
use std::io::Read;
use std::rt::Files;
use std::{fs, io};

/// Whether an error of making a file beside another says that its folder isn't to be written to.
pub(crate) fn is_denied(kind: io::ErrorKind) -> bool {
    matches!(
        kind,
        io::ErrorKind::PermissionDenied | io::ErrorKind::ReadOnlyFilesystem
    )
}

/// Whether an error of renaming says that nothing is put in a file's place, though the file itself
/// may be written to: it is mounted by itself, or belongs to another in a folder for all.
fn stays_at_place(kind: io::ErrorKind) -> bool {
    matches!(
        kind,
        io::ErrorKind::ResourceBusy
            | io::ErrorKind::CrossesDevices
            | io::ErrorKind::PermissionDenied
    )
}

/// Whether the system refuses that the file at a path is written to.
fn is_protected(rt: &impl Files, path: &str) -> bool {
    match OpenOptions::new().append(true).open(rt, path) {
        Ok(_) => false,
        Err(error) => error.kind() == io::ErrorKind::PermissionDenied,
    }
}

/// Checks that the file at a path isn't write-protected, unless it is to be replaced all the same.
pub(crate) fn check_protection(rt: &impl Files, path: &str, is_forced: bool) -> io::Result<()>
    ensures { is_forced ≡ true → IsOk result }
{
    match !is_forced && is_protected(rt, path) {
        true => Err(io::Error::new(
            io::ErrorKind::PermissionDenied,
            "it is write-protected: use --force",
        )),
        false => Ok(()),
    }
}

/// Writes all that a reader gives over the file at a path, which is there.
///
/// # Errors
///
/// Where that can't be done. What was in the file is then lost.
pub(crate) fn write_over<R: Files, S: Read>(rt: &R, path: &str, source: &mut S) -> io::Result<()> {
    let mut file = OpenOptions::new().write(true).open(rt, path)?;
    let count = copy_all::<R, S>(&mut file, source)?;
    drop(file);
    check_length(rt, path, count)
}

/// Writes all that a reader gives to a file, which ends there then, and returns how many bytes that
/// are.
fn copy_all<R: Files, S: Read>(file: &mut R::File, source: &mut S) -> io::Result<u64> {
    let count = io::copy(source, file)?;
    file.set_len(count)?;
    Ok(count)
}

/// Writes a file's bytes over another, and removes the first.
fn move_over<R: Files>(rt: &R, from: &str, place: &str) -> io::Result<()> {
    let mut file = fs::open(rt, from)?;
    match write_over(rt, place, &mut file) {
        Ok(()) => fs::remove_file(rt, from),
        Err(error) => Err(error),
    }
}

/// Puts a file in the place of another, in one step; or, where the other can't be replaced but may be
/// written to, writes its bytes over that.
///
/// # Errors
///
/// Where that can't be done. The file is then removed; but where it couldn't be written over the
/// other whole, it stays.
pub(crate) fn put(rt: &impl Files, from: &str, place: &str) -> io::Result<()> {
    match fs::rename(rt, from, place) {
        Ok(()) => Ok(()),
        Err(error) if stays_at_place(error.kind()) && !is_protected(rt, place) => {
            move_over(rt, from, place)
        }
        Err(error) => {
            let _ = fs::remove_file(rt, from);
            Err(error)
        }
    }
}
