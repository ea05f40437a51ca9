//! Writing a module without what nothing reaches, its location map, and its source map.

use crate::left_bodies::LeftModule;
use source_map::SourceMap;
use std::io::{BufWriter, Write};
use tool_files::{LockFiles, Target};
use tool_words::{Attempt, ProgramFailure, Task};
use tool_writing::{Moves, MovesAndLines, create_target, write_source_map};
use wasm_module::{MapLines, MapSink, ParsedModule, WriteError};

/// What is written for a task: a module, and the source map that follows it, if there is one.
#[derive(Clone, Copy)]
struct LeftWriting<'w, 'm, R> {
    rt: &'w R,
    task: &'m Task<'w>,
    module: LeftModule<'m>,
    source: &'m Option<SourceMap>,
}

impl<'w, 'm, R: LockFiles + Print + AllocGlobal + Drop> LeftWriting<'w, 'm, R> {
    /// Writes the lines of the location map to a buffer that is lent, and moves the mappings of the source map.
    fn write_lines<M: Write>(
        &self,
        parsed: &mut ParsedModule<'_>,
        moves: Moves<'m>,
        map: &mut M,
    ) -> Result<Moves<'m>, WriteError> {
        let lines = MapLines(&mut *map);
        let mut sink = MovesAndLines { moves, lines };
        match self.module.tell(self.rt.alloc(), parsed, &mut sink) {
            Ok(()) => {}
            Err(error) => return Err(error),
        }
        let MovesAndLines { moves, .. } = sink;
        match map.flush() {
            Ok(()) => Ok(moves),
            Err(error) => Err(WriteError::Io(error)),
        }
    }

    /// Writes the location map, buffered, and moves the mappings of the source map.
    fn write_map_buffered<W: Write>(
        &self,
        parsed: &mut ParsedModule<'_>,
        moves: Moves<'m>,
        target: &mut W,
    ) -> Result<Moves<'m>, WriteError> {
        match BufWriter::new(self.rt.alloc(), target) {
            Ok(mut map) => self.write_lines(parsed, moves, &mut map),
            Err(error) => Err(WriteError::Io(error)),
        }
    }

    /// Why the location map isn't written to this path.
    fn map_failure(&self, path: &'w str, error: WriteError) -> ProgramFailure<'w> {
        match error {
            WriteError::Module(error) => {
                ProgramFailure::refused(self.rt.alloc(), self.task.input, None, &error)
            }
            WriteError::Io(error) => ProgramFailure::file(path, Attempt::Write, error),
        }
    }

    /// Writes the location map to a target that is lent, and then the source map, if there is one.
    fn write_map_to(
        &self,
        parsed: &mut ParsedModule<'_>,
        moves: Moves<'m>,
        map: &mut Target<'w, R>,
    ) -> Result<(), ProgramFailure<'w>> {
        match self.write_map_buffered(parsed, moves, map) {
            Ok(moves) => write_source_map(self.rt, self.task, moves),
            Err(error) => Err(self.map_failure(map.path(), error)),
        }
    }

    /// Writes the location map, and then the source map, if there is one.
    fn write_map(
        &self,
        parsed: &mut ParsedModule<'_>,
        moves: Moves<'m>,
        path: &'w str,
    ) -> Result<(), ProgramFailure<'w>> {
        let mut map = match create_target(self.rt, self.task, path) {
            Ok(map) => map,
            Err(failure) => return Err(failure),
        };
        let written = self.write_map_to(parsed, moves, &mut map);
        map.end(written)
    }

    /// Writes the source map, if there is one.
    fn write_moved(
        &self,
        parsed: &mut ParsedModule<'_>,
        mut moves: Moves<'m>,
    ) -> Result<(), ProgramFailure<'w>> {
        if !moves.needs_pairs() {
            return Ok(());
        }
        match self.module.tell(self.rt.alloc(), parsed, &mut moves) {
            Ok(()) => write_source_map(self.rt, self.task, moves),
            Err(error) => Err(self.map_failure(self.task.input, error)),
        }
    }

    /// Writes what follows the module, if that is asked for.
    fn write_followers(&self, parsed: &mut ParsedModule<'_>) -> Result<(), ProgramFailure<'w>> {
        let Ok(moves) = Moves::new(self.rt.alloc(), self.source, false) else {
            return Err(ProgramFailure::Memory);
        };
        match self.task.map {
            Some(path) => self.write_map(parsed, moves, path),
            None => self.write_moved(parsed, moves),
        }
    }

    /// Writes the module to a target that is lent, and what follows it.
    fn write_to(
        &self,
        parsed: &mut ParsedModule<'_>,
        target: &mut Target<'w, R>,
    ) -> Result<(), ProgramFailure<'w>> {
        match target.write_all(self.module.made) {
            Ok(()) => self.write_followers(parsed),
            Err(error) => Err(ProgramFailure::file(target.path(), Attempt::Write, error)),
        }
    }
}

/// Writes a module without what nothing reaches, and its location map and the source map that follows it where these are asked for, each
/// whole or not at all. Returns how many bytes the module has.
///
/// # Errors
///
/// Where one of them can't be written. All files are then as before; but where one of them can't be put in its place at the very end, those
/// before it are new: first the source map, then the location map, then the module.
pub fn write_left<'w, R: LockFiles + Print + AllocGlobal + Drop>(
    rt: &'w R,
    task: &Task<'w>,
    parsed: &mut ParsedModule<'_>,
    module: LeftModule<'_>,
    source: &Option<SourceMap>,
    output: &'w str,
) -> Result<u64, ProgramFailure<'w>> {
    let mut target = match create_target(rt, task, output) {
        Ok(target) => target,
        Err(failure) => return Err(failure),
    };
    let writing = LeftWriting {
        rt,
        task,
        module,
        source,
    };
    let written = writing.write_to(parsed, &mut target);
    let count = target.count();
    match target.end(written) {
        Ok(()) => Ok(count),
        Err(failure) => Err(failure),
    }
}
