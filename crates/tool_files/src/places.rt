//! Where paths lead: two of them may be one file.

ghost use Rattle.std.specs.Prelude.{◌≡◌, ◌↔◌, IsTrue, IsNone, IsOk, IfOk, IfErr, IfSome};
ghost use Rattle.tool_files.specs.Places.{IsSamePlace, IsOtherPath, IsRefusedTask};
ghost use Rattle.tool_words.specs.declared.ending.Attempt.TheVariants as attempt;
ghost use Rattle.tool_words.specs.Endings.{IsMemoryOr};

use std::alloc::{AllocError, Global};
use std::fs;
use std::fs::Metadata;
use std::os::unix::fs::{FileTypeExt, MetadataExt};
use std::path::Path;
use std::rt::Files;
use tool_words::{Attempt, ProgramFailure, Task, UsageError};

/// The number of the device `/dev/null`.
const NULL: u64 = 0x103;

/// How many links are followed, one after the other.
const MAX_LINKS: u8 = 40;

/// Where a path leads: to a file that is there, or, with a name, to one in a folder that isn't.
#[derive(Clone, Copy)]
pub(crate) struct Place {
    device: u64,
    node: u64,
    /// Whether a file is there that holds what is written to it.
    is_file: bool,
}

impl Place {
    /// The place of something that is there; none for what can be written to from anywhere.
    fn of(metadata: &Metadata) -> Option<Place> {
        if metadata.file_type().is_char_device() && metadata.rdev() == NULL {
            return None;
        }
        Some(Place {
            device: metadata.dev(),
            node: metadata.ino(),
            is_file: metadata.is_file(),
        })
    }

    /// The place of what has a name in this folder.
    fn in_folder(folder: &Metadata) -> Place {
        Place {
            device: folder.dev(),
            node: folder.ino(),
            is_file: true,
        }
    }
}

/// Whether both are one. The name is empty of a file that is there.
fn is_same(place: Option<Place>, name: &str, other: Option<Place>, other_name: &str) -> bool
    ensures { IsTrue result ↔ IsSamePlace place name.now other other_name.now }
{
    match (place, other) {
        (Some(a), Some(b)) => a.device == b.device && a.node == b.node && name == other_name,
        _ => false,
    }
}

/// The text of a path in the place of a link: what the link says, from where it is.
fn link_target(alloc: Global, link: &str, target: &str) -> Result<String, AllocError> {
    match Path::new(link).parent() {
        Some(folder) => Ok(folder.join(alloc, target)?.into_string()),
        None => String::from_str(alloc, target),
    }
}

/// The path after the link at its end is followed; none where it isn't a link.
fn followed<R: Files + AllocGlobal>(rt: &R, path: &str) -> Result<Option<String>, AllocError> {
    let Ok(target) = fs::read_link(rt, path) else {
        return Ok(None);
    };
    match link_target(rt.alloc(), path, target.as_str()) {
        Ok(path) => Ok(Some(path)),
        Err(error) => Err(error),
    }
}

/// The path after links at its end are followed, which may lead to nothing.
pub(crate) fn resolve<R: Files + AllocGlobal>(rt: &R, path: &str) -> Result<String, AllocError> {
    let mut resolved = String::from_str(rt.alloc(), path)?;
    for _ in 0..MAX_LINKS {
        match followed(rt, resolved.as_str()) {
            Ok(Some(next)) => resolved = next,
            Ok(None) => break,
            Err(error) => return Err(error),
        }
    }
    Ok(resolved)
}

/// The place of a file that isn't there, whose links were followed; its name is appended.
fn new_place(
    rt: &impl Files,
    resolved: &str,
    name: &mut String,
) -> Result<Option<Place>, AllocError> {
    let path = Path::new(resolved);
    let Some(last) = path.file_name() else {
        return Ok(None);
    };
    name.push_str(last)?;
    let folder = match path.parent() {
        Some(folder) if folder.as_str() != "" => folder.as_str(),
        _ => ".",
    };
    match fs::metadata(rt, folder) {
        Ok(folder) => Ok(Some(Place::in_folder(&folder))),
        Err(_) => Ok(None),
    }
}

/// Where a path leads, or this stream for `-`; the name of a file that isn't there is appended.
pub(crate) fn place_of<R: Files + AllocGlobal>(
    rt: &R,
    path: &str,
    stream: &str,
    name: &mut String,
) -> Result<Option<Place>, AllocError> {
    let path = if path == "-" { stream } else { path };
    if let Ok(metadata) = fs::metadata(rt, path) {
        return Ok(Place::of(&metadata));
    }
    let resolved = resolve(rt, path)?;
    new_place(rt, resolved.as_str(), name)
}

/// The file that a path leads to, for writing.
#[derive(Clone, Copy)]
pub(crate) struct Written<'n> {
    /// The file, or the folder of one that doesn't exist yet; none if writing there takes no file's place.
    pub place: Option<Place>,
    /// The name of the new file in that folder; empty if the file exists.
    pub name: &'n str,
}

impl Written<'_> {
    /// Whether another path leads there too, or this stream for `-`; a stream counts where a file is
    /// read from it, or `is_any` says that any does.
    pub fn is_at<R: Files + AllocGlobal>(
        self,
        rt: &R,
        path: &str,
        stream: &str,
        is_any: bool,
    ) -> Result<bool, AllocError> {
        let mut name = String::new(rt.alloc());
        let place = place_of(rt, path, stream, &mut name)?;
        let counts = is_any || matches!(place, Some(Place { is_file: true, .. }));
        Ok(counts && is_same(self.place, self.name, place, name.as_str()))
    }

    /// The path of the task that leads there too: that of the module that is written, or of the one
    /// that is read.
    fn other_path<'w, R: Files + AllocGlobal>(
        self,
        rt: &R,
        task: &Task<'w>,
    ) -> Result<Option<&'w str>, AllocError>
        ensures { IfOk result (λ found. IfSome found (λ path. IsOtherPath task.now path.now)) }
    {
        if let Some(output) = task.output
            && self.is_at(rt, output, "/dev/stdout", true)?
        {
            return Ok(Some(output));
        }
        match self.is_at(rt, task.input, "/dev/stdin", false) {
            Ok(true) => Ok(Some(task.input)),
            Ok(false) => Ok(None),
            Err(error) => Err(error),
        }
    }
}

/// The path of the task that leads where the location map would go, if one does.
fn path_of_map<'w, R: Files + AllocGlobal>(
    rt: &R,
    task: &Task<'w>,
    map: &str,
) -> Result<Option<&'w str>, AllocError>
    ensures { IfOk result (λ found. IfSome found (λ path. IsOtherPath task.now path.now)) }
{
    let mut name = String::new(rt.alloc());
    let place = place_of(rt, map, "/dev/stdout", &mut name)?;
    let name = name.as_str();
    Written { place, name }.other_path(rt, task)
}

/// Checks that standard output is open where a path is `-`: else the next file that is opened gets
/// its number, and what is written to both.
pub(crate) fn check_stdout<'w>(rt: &impl Files, path: &'w str) -> Result<(), ProgramFailure<'w>>
    ensures { IfErr result (IsMemoryOr attempt.Write path.entry.now) }
{
    if path != "-" {
        return Ok(());
    }
    match fs::metadata(rt, "/dev/stdout") {
        Ok(_) => Ok(()),
        Err(error) => Err(ProgramFailure::file(path, Attempt::Write, error)),
    }
}

/// Checks that both paths that are written, of which each may be `-`, have what they require.
fn check_streams<'w>(
    rt: &impl Files,
    task: &Task<'w>,
    map: &'w str,
) -> Result<(), ProgramFailure<'w>>
    ensures { IfErr result (IsRefusedTask task.now) }
{
    match check_stdout(rt, map) {
        Ok(()) => {}
        Err(failure) => return Err(failure),
    }
    match task.output {
        Some(output) => check_stdout(rt, output),
        None => Ok(()),
    }
}

/// Checks the files of a task before any is opened: the location map has a file of its own, and a
/// path of `-` an open standard output. The module may be written onto the one that is read.
///
/// # Errors
///
/// Wrong use, with the two words; standard output that is closed; or that memory ran out.
pub fn check_files<'w, R: Files + AllocGlobal>(
    rt: &R,
    task: &Task<'w>,
) -> Result<(), ProgramFailure<'w>>
    ensures free { IsNone task.now.map → IsOk result }
    ensures refused { IfErr result (IsRefusedTask task.now) }
{
    let Some(map) = task.map else {
        return Ok(());
    };
    if let Some(output) = task.output
        && map == "-"
        && output == "-"
    {
        return Err(ProgramFailure::UsageError(UsageError::SameFile(map, output)));
    }
    match path_of_map(rt, task, map) {
        Ok(Some(path)) => Err(ProgramFailure::UsageError(UsageError::SameFile(map, path))),
        Ok(None) => check_streams(rt, task, map),
        Err(_) => Err(ProgramFailure::Memory),
    }
}
