//! Whether the files of source maps are others than all that are read and written.

use crate::places::{Written, check_stdout, place_of};
use std::alloc::AllocError;
use std::rt::Files;
use tool_words::{MapPaths, ProgramFailure, Task, UsageError};

/// Two paths of a task, of which the first is written.
#[derive(Clone, Copy)]
struct Two<'w> {
    written: Option<&'w str>,
    other: Option<&'w str>,
    /// Whether the second is written too; else it is read.
    are_written: bool,
}

/// Whether what is written to a path would be lost or mixed with what is written to another, or take
/// the place of what is read from it.
fn is_one_file<R: Files + AllocGlobal>(
    rt: &R,
    written: &str,
    other: &str,
    are_written: bool,
) -> Result<bool, AllocError> {
    if are_written && written == "-" && other == "-" {
        return Ok(true);
    }
    let mut name = String::new(rt.alloc());
    let place = place_of(rt, written, "/dev/stdout", &mut name)?;
    let name = name.as_str();
    let stream = match are_written {
        true => "/dev/stdout",
        false => "/dev/stdin",
    };
    Written { place, name }.is_at(rt, other, stream, are_written)
}

impl<'w> Two<'w> {
    /// Both are written.
    fn written(written: Option<&'w str>, other: Option<&'w str>) -> Two<'w> {
        Two {
            written,
            other,
            are_written: true,
        }
    }

    /// The first is written, and the second is read.
    fn read(written: Option<&'w str>, other: Option<&'w str>) -> Two<'w> {
        Two {
            written,
            other,
            are_written: false,
        }
    }

    /// Checks that they are two, if both are asked for.
    fn check<R: Files + AllocGlobal>(self, rt: &R) -> Result<(), ProgramFailure<'w>> {
        let (Some(written), Some(other)) = (self.written, self.other) else {
            return Ok(());
        };
        match is_one_file(rt, written, other, self.are_written) {
            Ok(false) => Ok(()),
            Ok(true) => Err(ProgramFailure::UsageError(UsageError::SameFile(written, other))),
            Err(_) => Err(ProgramFailure::Memory),
        }
    }
}

/// Checks that each two of these are two.
fn check_all<'w, R: Files + AllocGlobal>(
    rt: &R,
    all: &[Two<'w>],
) -> Result<(), ProgramFailure<'w>> {
    for two in all {
        match two.check(rt) {
            Ok(()) => {}
            Err(failure) => return Err(failure),
        }
    }
    Ok(())
}

/// The pairs of a task's paths of which one is that of a source map.
fn pairs<'w>(task: &Task<'w>, paths: MapPaths<'w>) -> [Two<'w>; 5] {
    let (input, output) = (Some(paths.input), Some(paths.output));
    [
        Two::written(output, task.output),
        Two::written(output, task.map),
        Two::read(output, Some(task.input)),
        Two::read(task.output, input),
        Two::read(task.map, input),
    ]
}

/// Checks that standard output is open where a path that is written is `-`.
fn check_streams<'w>(
    rt: &impl Files,
    task: &Task<'w>,
    paths: MapPaths<'w>,
) -> Result<(), ProgramFailure<'w>> {
    match check_stdout(rt, paths.output) {
        Ok(()) => {}
        Err(failure) => return Err(failure),
    }
    match task.output {
        Some(output) => check_stdout(rt, output),
        None => Ok(()),
    }
}

/// Checks the files of source maps before any file is opened: the one that is written is no other
/// file of the task, but may be the one that is read, which is written by nothing else; and where its
/// path is `-` standard output is open. Standard input is read once.
///
/// # Errors
///
/// Wrong use, with the two words; standard output that is closed; or that memory ran out.
pub fn check_source_maps<'w, R: Files + AllocGlobal>(
    rt: &R,
    task: &Task<'w>,
) -> Result<(), ProgramFailure<'w>> {
    let Some(paths) = task.source_map else {
        return Ok(());
    };
    if paths.input == "-" && task.input == "-" {
        return Err(ProgramFailure::UsageError(UsageError::SameFile(paths.input, task.input)));
    }
    match check_all(rt, &pairs(task, paths)) {
        Ok(()) => check_streams(rt, task, paths),
        Err(failure) => Err(failure),
    }
}
