//! What follows the operators of a module that is written: the mappings of its source map, and the places that its debug
//! information follows.

ghost use Rattle.std.specs.Prelude.{◌||◌, true, is_some};
ghost use Rattle.module_debug.specs.Places.{wants_places};

use crate::writing::create_target;
use module_debug::OperatorPlaces;
use source_map::{MappingsError, Move, MovingSourceMap, SourceMap};
use std::alloc::{AllocError, Global};
use std::io;
use std::io::Write;
use std::rt::Files;
use tool_files::{LockFiles, read_file};
use tool_words::{Attempt, ProgramFailure, Task};
use wasm_module::{MapLines, MapSink, WrittenBody};

/// The source map that follows a module, if one is wanted, as far as bodies were written. Its mappings
/// move along with the operators of the source that are kept. Beside it the places of operators, if they are wanted.
#[derive(Drop)]
pub struct Moves<'s> {
    text: Option<MovingSourceMap<'s>>,
    places: OperatorPlaces,
    /// The greatest old place of an operator so far.
    last: u32,
}

/// A place that fits 32 bits, as those of a source map do.
fn short_place(place: usize) -> io::Result<u32> {
    match u32::try_from(place) {
        Ok(place) => Ok(place),
        Err(_) => Err(io::Error::from(io::ErrorKind::FileTooLarge)),
    }
}

/// The error of a listener. A source map that was read can be read again.
fn error_of(error: MappingsError) -> io::Error {
    match error {
        MappingsError::Memory => io::Error::from(io::ErrorKind::OutOfMemory),
        MappingsError::Fault(_) => io::Error::from(io::ErrorKind::InvalidData),
    }
}

impl<'s> Moves<'s> {
    /// None of the operators of this source map is named yet.
    ///
    /// # Errors
    ///
    /// Out of memory.
    pub fn new(
        alloc: Global,
        source: &'s Option<SourceMap>,
        wants_places: bool,
    ) -> Result<Moves<'s>, AllocError> {
        let text = match source {
            None => None,
            Some(map) => match MovingSourceMap::new(alloc, map) {
                Ok(text) => Some(text),
                Err(_) => return Err(AllocError),
            },
        };
        Ok(Moves {
            text,
            places: OperatorPlaces::new(alloc, wants_places),
            last: 0,
        })
    }

    /// Names an operator that is kept. One that was before the last one in the source is passed over,
    /// so that the old places ascend.
    fn add(&mut self, step: Move) -> io::Result<()> {
        if step.old < self.last {
            return Ok(());
        }
        self.last = step.old;
        match &mut self.text {
            None => Ok(()),
            Some(text) => match text.add(step) {
                Ok(()) => Ok(()),
                Err(error) => Err(error_of(error)),
            },
        }
    }

    /// Names the operators of a body that are ones of the source.
    fn add_body(&mut self, written: WrittenBody<'_>) -> io::Result<()> {
        let body = short_place(written.old_start)?;
        for (location, place) in written.pairs {
            if !location.is_default() {
                let new = short_place(written.start.saturating_add(*place))?;
                let old = location.data();
                self.add(Move { old, new, body })?;
            }
        }
        Ok(())
    }
}

impl MapSink for Moves<'_> {
    ghost records = { λ a b body. Unit {0} };

    ghost needs = { λ moves. is_some moves.text || wants_places moves.places };

    fn needs_pairs(&self) -> bool {
        self.text.is_some() || self.places.is_wanted()
    }

    fn record_body(&mut self, body: WrittenBody<'_>) -> io::Result<()> {
        match self.places.record(body) {
            Ok(()) => {}
            Err(error) => return Err(error),
        }
        match self.text.is_some() {
            true => self.add_body(body),
            false => Ok(()),
        }
    }

    ghost joins = { λ a b c body more p q. tt };
}

/// A listener that records the places of operators.
pub(crate) trait RecordsPlaces: MapSink {
    /// The places.
    fn places(&self) -> &OperatorPlaces;
}

impl RecordsPlaces for Moves<'_> {
    fn places(&self) -> &OperatorPlaces {
        &self.places
    }
}

impl<M: Write> RecordsPlaces for MovesAndLines<'_, '_, M> {
    fn places(&self) -> &OperatorPlaces {
        &self.moves.places
    }
}

/// A listener that moves the mappings of a source map, and writes the lines of a location map.
#[derive(Drop)]
pub struct MovesAndLines<'m, 's, M> {
    /// The source map, whose mappings move along.
    pub moves: Moves<'s>,
    /// The lines of the location map.
    pub lines: MapLines<'m, M>,
}

impl<M: Write> MapSink for MovesAndLines<'_, '_, M> {
    ghost records = { λ a b body. Unit {0} };

    ghost needs = { λ _. true };

    fn needs_pairs(&self) -> bool {
        true
    }

    fn record_body(&mut self, body: WrittenBody<'_>) -> io::Result<()> {
        self.moves.record_body(body)?;
        self.lines.record_body(body)
    }

    ghost joins = { λ a b c body more p q. tt };
}

/// Reads a source map.
fn read_source_map<'w, R: Files + Input + AllocGlobal>(
    rt: &R,
    path: &'w str,
) -> Result<SourceMap, ProgramFailure<'w>> {
    let bytes = match read_file(rt, path) {
        Ok(bytes) => bytes,
        Err(failure) => return Err(failure),
    };
    match SourceMap::read(rt.alloc(), &bytes) {
        Ok(map) => Ok(map),
        Err(error) => Err(ProgramFailure::source_map(rt.alloc(), path, error)),
    }
}

/// The source map that is read, if one is.
pub fn given_source_map<'w, R: LockFiles + Input + AllocGlobal>(
    rt: &R,
    task: &Task<'w>,
) -> Result<Option<SourceMap>, ProgramFailure<'w>> {
    let Some(paths) = task.source_map else {
        return Ok(None);
    };
    match read_source_map(rt, paths.input) {
        Ok(map) => Ok(Some(map)),
        Err(failure) => Err(failure),
    }
}

/// Writes a text to a file, whole or not at all.
fn write_text<'w, R: LockFiles + Print + AllocGlobal + Drop>(
    rt: &'w R,
    task: &Task<'w>,
    path: &'w str,
    text: &[u8],
) -> Result<(), ProgramFailure<'w>> {
    let mut target = match create_target(rt, task, path) {
        Ok(target) => target,
        Err(failure) => return Err(failure),
    };
    let written = match target.write_all(text) {
        Ok(()) => Ok(()),
        Err(error) => Err(ProgramFailure::file(path, Attempt::Write, error)),
    };
    target.end(written)
}

/// Writes the source map that follows a module, if one is asked for.
pub fn write_source_map<'w, R: LockFiles + Print + AllocGlobal + Drop>(
    rt: &'w R,
    task: &Task<'w>,
    moves: Moves<'_>,
) -> Result<(), ProgramFailure<'w>> {
    let (Some(text), Some(paths)) = (moves.text, task.source_map) else {
        return Ok(());
    };
    match text.finish() {
        Ok(text) => write_text(rt, task, paths.output, &text),
        Err(_) => Err(ProgramFailure::Memory),
    }
}
