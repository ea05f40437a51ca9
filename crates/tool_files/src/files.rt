//! Files that are read whole, and written whole or not at all. The path `-` is standard input or
//! output.

ghost use Rattle.std.specs.Prelude.{◌≡◌, ◌≤◌, false, length, IfOk, IfErr};
ghost use Rattle.tool_words.specs.Endings.{IsMemoryOr};
ghost use Rattle.tool_words.specs.declared.ending.Attempt.TheVariants as attempt;

use crate::in_place::{check_protection, is_denied, put, write_over};
use crate::locks::LockFiles;
use crate::places::resolve;
use crate::unfinished::{Finished, Unfinished};
use std::fs::{Metadata, OpenFile, Permissions};
use std::io::{Read, Write};
use std::rt::Files;
use std::{fs, io};
use tool_words::{Attempt, ProgramFailure};

/// Appends the bytes of a file.
fn read_into<'w, R: Files + Input>(
    rt: &R,
    path: &'w str,
    bytes: &mut Vec<u8>,
) -> Result<(), ProgramFailure<'w>> {
    let read = match path {
        "-" => rt.reader().read_to_end(bytes),
        path => match fs::open(rt, path) {
            Ok(mut file) => file.read_to_end(bytes),
            Err(error) => return Err(ProgramFailure::file(path, Attempt::Open, error)),
        },
    };
    match read {
        Ok(_) => Ok(()),
        Err(error) => Err(ProgramFailure::file(path, Attempt::Read, error)),
    }
}

/// The bytes of a file, which take no more memory than they need.
///
/// # Errors
///
/// Where it can't be opened or read, or memory runs out.
pub fn read_file<'w, R: Files + Input + AllocGlobal>(
    rt: &R,
    path: &'w str,
) -> Result<Vec<u8>, ProgramFailure<'w>> {
    let mut bytes = Vec::new(rt.alloc());
    match read_into(rt, path, &mut bytes) {
        Ok(()) => {
            bytes.shrink_to_fit();
            Ok(bytes)
        }
        Err(failure) => Err(failure),
    }
}

/// What is at a path.
#[derive(Drop)]
enum AtPath {
    /// A file, with these permissions.
    File(Permissions),
    Nothing,
    /// Something that isn't a file, as a device, in whose place no file is put.
    Special,
}

impl AtPath {
    fn at(rt: &impl Files, path: &str) -> io::Result<AtPath> {
        match fs::metadata(rt, path) {
            Ok(metadata) => Ok(AtPath::of(&metadata)),
            Err(error) if error.kind() == io::ErrorKind::NotFound => Ok(AtPath::Nothing),
            Err(error) => Err(error),
        }
    }

    fn of(metadata: &Metadata) -> AtPath {
        match metadata.is_file() {
            true => AtPath::File(metadata.permissions()),
            false => AtPath::Special,
        }
    }
}

/// Where the bytes are that are written.
#[derive(Drop)]
enum Store<F> {
    /// In standard output.
    Output,
    /// In a device or a pipe.
    Direct(F),
    /// In a file beside its place.
    Beside(Unfinished<F>, String),
    /// In memory, until they are written at their place, where no file can be put.
    Memory(Vec<u8>, String),
}

/// Where the bytes are that are written whole.
#[derive(Drop)]
enum Whole<F> {
    /// At their place.
    Placed,
    /// In a file beside its place.
    Beside(Finished<F>, String),
    /// In memory, until they are written at their place.
    Memory(Vec<u8>, String),
}

/// Closes what is written to, and checks that a file has as many bytes as were written.
fn close<F: Drop + OpenFile>(rt: &impl Files, store: Store<F>, count: u64) -> io::Result<Whole<F>> {
    match store {
        Store::Output | Store::Direct(_) => Ok(Whole::Placed),
        Store::Beside(unfinished, place) => match unfinished.close(rt, count) {
            Ok(finished) => Ok(Whole::Beside(finished, place)),
            Err(error) => Err(error),
        },
        Store::Memory(bytes, place) => Ok(Whole::Memory(bytes, place)),
    }
}

/// Puts what is written whole in its place.
fn place<R: Files>(rt: &R, whole: Whole<R::File>) -> io::Result<()> {
    match whole {
        Whole::Placed => Ok(()),
        // Its lock is kept until it is in its place.
        Whole::Beside(finished, place) => put(rt, finished.path.as_str(), place.as_str()),
        Whole::Memory(bytes, place) => {
            let mut rest = bytes.as_slice();
            write_over(rt, place.as_str(), &mut rest)
        }
    }
}

/// A file that is being written, beside the one that it becomes; or standard output.
#[derive(Drop)]
pub struct Target<'w, R: Files> {
    rt: &'w R,
    /// The path that was given.
    path: &'w str,
    store: Store<R::File>,
    /// How many bytes were written.
    count: u64,
    /// Whether writing failed.
    has_failed: bool,
}

/// A file that is written and closed, and is to be put in its place.
#[derive(Drop)]
struct Closed<'w, R: Files> {
    rt: &'w R,
    /// The path that was given.
    path: &'w str,
    whole: Whole<R::File>,
}

impl<'w, R: LockFiles + AllocGlobal> Target<'w, R> {
    /// What is written here.
    fn new(rt: &'w R, path: &'w str, store: Store<R::File>) -> Target<'w, R>
        ensures path { result.path.now ≡ path.entry.now }
        ensures fresh { result.has_failed ≡ false }
        ensures count { result.count ≡ 0 }
    {
        Target {
            rt,
            path,
            store,
            count: 0,
            has_failed: false,
        }
    }

    /// What is written to this path, which is no device, nor standard output.
    fn create_file(
        rt: &'w R,
        path: &'w str,
        permissions: Option<Permissions>,
    ) -> io::Result<Target<'w, R>>
        ensures path { IfOk result (λ target. target.path.now ≡ path.entry.now) }
        ensures fresh { IfOk result (λ target. target.has_failed ≡ false) }
    {
        let place = resolve(rt, path)?;
        let replaces = permissions.is_some();
        let store = match Unfinished::create(rt, place.as_str(), permissions) {
            Ok(unfinished) => Store::Beside(unfinished, place),
            Err(error) if replaces && is_denied(error.kind()) => {
                Store::Memory(Vec::new(rt.alloc()), place)
            }
            Err(error) => return Err(error),
        };
        Ok(Target::new(rt, path, store))
    }

    /// What is written to this path, where a file with these permissions is.
    fn replace_file(
        rt: &'w R,
        path: &'w str,
        permissions: Permissions,
        is_forced: bool,
    ) -> io::Result<Target<'w, R>>
        ensures path { IfOk result (λ target. target.path.now ≡ path.entry.now) }
        ensures fresh { IfOk result (λ target. target.has_failed ≡ false) }
    {
        match check_protection(rt, path, is_forced) {
            Ok(()) => Target::create_file(rt, path, Some(permissions)),
            Err(error) => Err(error),
        }
    }

    fn try_create(rt: &'w R, path: &'w str, is_forced: bool) -> io::Result<Target<'w, R>>
        ensures path { IfOk result (λ target. target.path.now ≡ path.entry.now) }
        ensures fresh { IfOk result (λ target. target.has_failed ≡ false) }
    {
        if path == "-" {
            return Ok(Target::new(rt, path, Store::Output));
        }
        match AtPath::at(rt, path) {
            Ok(AtPath::File(permissions)) => {
                Target::replace_file(rt, path, permissions, is_forced)
            }
            Ok(AtPath::Nothing) => Target::create_file(rt, path, None),
            Ok(AtPath::Special) => match fs::create(rt, path) {
                Ok(file) => Ok(Target::new(rt, path, Store::Direct(file))),
                Err(error) => Err(error),
            },
            Err(error) => Err(error),
        }
    }

    /// A file that is to be written to this path. What is there stays until it is closed. Through a
    /// link the file that it leads to is replaced; a new file has the mode of the one that it
    /// replaces. A write-protected file is replaced only where `is_forced`.
    ///
    /// # Errors
    ///
    /// Where it can't be created, or memory runs out. What is there is then as before.
    pub fn create(
        rt: &'w R,
        path: &'w str,
        is_forced: bool,
    ) -> Result<Target<'w, R>, ProgramFailure<'w>>
        ensures path { IfOk result (λ target. target.path.now ≡ path.entry.now) }
        ensures fresh { IfOk result (λ target. target.has_failed ≡ false) }
        ensures refused { IfErr result (IsMemoryOr attempt.Create path.entry.now) }
    {
        match Target::try_create(rt, path, is_forced) {
            Ok(target) => Ok(target),
            Err(error) => Err(ProgramFailure::file(path, Attempt::Create, error)),
        }
    }

    /// Whether it is the one that failed, of those that were written.
    pub fn has_failed(&self) -> bool
        ensures { result ≡ self.now.has_failed }
    {
        self.has_failed
    }

    /// How many bytes were written.
    pub fn count(&self) -> u64
        ensures { result ≡ self.now.count }
    {
        self.count
    }

    /// The path that was given.
    pub fn path(&self) -> &'w str
        ensures { result.now ≡ self.now.path.now }
    {
        self.path
    }

    /// Closes the file, and checks that all that was written is there.
    fn close(self) -> Result<Closed<'w, R>, ProgramFailure<'w>>
        ensures path { IfOk result (λ closed. closed.path.now ≡ self.entry.path.now) }
        ensures refused { IfErr result (IsMemoryOr attempt.Write self.entry.path.now) }
    {
        let Target {
            rt,
            path,
            store,
            count,
            has_failed: _,
        } = self;
        match close(rt, store, count) {
            Ok(whole) => Ok(Closed { rt, path, whole }),
            Err(error) => Err(ProgramFailure::file(path, Attempt::Write, error)),
        }
    }

    /// Removes the file, so that what is at its place stays.
    pub fn discard(self) {
        let Target {
            rt,
            path: _,
            store,
            count: _,
            has_failed: _,
        } = self;
        match store {
            Store::Beside(unfinished, _) => unfinished.remove(rt),
            Store::Output | Store::Direct(_) | Store::Memory(_, _) => {}
        }
    }

    /// Puts the file in its place where it is written whole, and removes it where it isn't.
    ///
    /// # Errors
    ///
    /// Why it isn't written whole, as is handed in; or where what was written isn't there after the
    /// file is closed, or can't be put in its place.
    pub fn end(self, written: Result<(), ProgramFailure<'w>>) -> Result<(), ProgramFailure<'w>> {
        if let Err(failure) = written {
            self.discard();
            return Err(failure);
        }
        match self.close() {
            Ok(closed) => closed.keep(),
            Err(failure) => Err(failure),
        }
    }
}

impl<'w, R: Files> Closed<'w, R> {
    /// Puts the file in its place.
    ///
    /// # Errors
    ///
    /// Where that can't be done. The file is then removed, and what is at its place stays; but where
    /// no file can be put there, what was there is lost if it can't be written over whole.
    fn keep(self) -> Result<(), ProgramFailure<'w>>
        ensures { IfErr result (IsMemoryOr attempt.Rename self.entry.path.now) }
    {
        let Closed { rt, path, whole } = self;
        match place(rt, whole) {
            Ok(()) => Ok(()),
            Err(error) => Err(ProgramFailure::file(path, Attempt::Rename, error)),
        }
    }
}

impl<R: Files + Print> Write for Target<'_, R> {
    fn write(&mut self, bytes: &[u8]) -> io::Result<usize> {
        let written = match &mut self.store {
            Store::Output => self.rt.write_some(bytes),
            Store::Direct(file) => file.write(bytes),
            Store::Beside(unfinished, _) => unfinished.file.write(bytes),
            Store::Memory(list, _) => list.write(bytes),
        };
        match written {
            Ok(count) => {
                self.count = self.count.saturating_add(count as u64);
                Ok(count)
            }
            Err(error) => {
                self.has_failed = error.kind() != io::ErrorKind::Interrupted;
                Err(error)
            }
        }
    }

    fn flush(&mut self) -> io::Result<()> {
        match &mut self.store {
            Store::Direct(file) => file.flush(),
            Store::Beside(unfinished, _) => unfinished.file.flush(),
            Store::Output | Store::Memory(_, _) => Ok(()),
        }
    }
}
