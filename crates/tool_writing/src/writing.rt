//! Writing the module that a program makes, its location map, and its source map.
ghost use Rattle.std.specs.Prelude.{◌≡◌, ◌++◌, [], ℕ, List, OnOk, MatchOption};
ghost use Rattle.std.specs.Io.Buffered.{writer_contents, writer_inner};
ghost use Rattle.std.specs.Io.KnownBytes.{Appends, Keeps};
ghost use Rattle.wasm_sections.specs.Sections.{section as whole_section};
ghost use Rattle.wasm_module.specs.WrittenModules.{IsWrittenModule, url_contents};
ghost use Rattle.module_debug.specs.Sections.{AreDebugSections as AreSections};

use crate::source_maps::{Moves, MovesAndLines, RecordsPlaces, write_source_map};
use dwarf_bytes::DebugError;
use module_debug::{DebugFailure, DebugSection, OperatorPlaces, move_debug, write_debug};
use source_map::SourceMap;
use std::alloc::{AllocError, Global};
use std::io::{BufWriter, Write};
use tool_files::{LockFiles, Target};
use tool_words::{Attempt, ProgramFailure, Task};
use wasm_module::{
    BodyWriter, MapLines, ModuleError, ParsedModule, RewrittenModule, WriteError,
    write_source_map_url,
};

/// Writes what a buffer still holds.
fn flush<W: Write>(out: &mut W) -> Result<(), WriteError>
    ensures { Keeps (W.contents out.old) (W.contents out.new) }
{
    match out.flush() {
        Ok(()) => Ok(()),
        Err(error) => Err(WriteError::Io(error)),
    }
}

/// Writes the section that says where the source map is, if that is given.
fn write_url<W: Write>(alloc: Global, url: Option<&str>, out: &mut W) -> Result<(), WriteError>
    ensures { OnOk result ((section : List ℕ)
        × MatchOption url.entry (section ≡ []) (λ u. section ≡ whole_section 0 (url_contents u.now))
        × Appends (W.contents out.old) (W.contents out.new) section) }
{
    match url {
        Some(url) => write_source_map_url(alloc, url, out),
        None => Ok(()),
    }
}

/// A file that is written to this path for a task.
pub fn create_target<'w, R: LockFiles + AllocGlobal>(
    rt: &'w R,
    task: &Task<'w>,
    path: &'w str,
) -> Result<Target<'w, R>, ProgramFailure<'w>> {
    Target::create(rt, path, task.is_forced)
}

/// Why a module that was read from one file isn't written to another.
fn failure_of<'w>(
    alloc: Global,
    input: &'w str,
    output: &'w str,
    error: WriteError,
) -> ProgramFailure<'w> {
    match error {
        WriteError::Module(error) => ProgramFailure::refused(alloc, input, None, &error),
        WriteError::Io(error) => ProgramFailure::file(output, Attempt::Write, error),
    }
}

/// What is written for a task: a module, the debug information that follows its code, after it, and the source map that follows it, if
/// there is one.
#[derive(Clone, Copy)]
struct Writing<'w, 'm, 'a, R, B> {
    rt: &'w R,
    task: &'m Task<'w>,
    module: &'m RewrittenModule<'a, B>,
    debug: &'m [DebugSection<'a>],
    source: &'m Option<SourceMap>,
}

impl<'w, R, B: BodyWriter> Writing<'w, '_, '_, R, B>
where
    R: LockFiles + Print + AllocGlobal + Drop,
{
    /// Writes the debug information of a module that was written as these bytes, with its operators at these places: moved, or as it
    /// is, and returns why, if it can't be moved.
    fn write_moved_debug<W: Write>(
        &self,
        parsed: &ParsedModule<'_>,
        made: &[u8],
        places: &OperatorPlaces,
        out: &mut W,
    ) -> Result<Option<DebugFailure>, WriteError>
        ensures { OnOk result ((debug : List ℕ) × AreSections self.now.debug.now debug
            × Appends (W.contents out.old) (W.contents out.new) debug) }
    {
        let alloc = self.rt.alloc();
        let (moved, failure) = match move_debug(alloc, parsed, self.debug, made, places) {
            Ok(moved) => (Some(moved), None),
            Err(failure) if failure.error == DebugError::Memory => {
                return Err(WriteError::Module(ModuleError::from(AllocError)));
            }
            Err(failure) => (None, Some(failure)),
        };
        match write_debug(alloc, self.debug, moved.as_ref(), out) {
            Ok(()) => Ok(failure),
            Err(error) => Err(error),
        }
    }

    /// Writes the module, and the debug information that follows its code, after it. Returns why that can't be moved, if it can't.
    fn write_made<W: Write, T: RecordsPlaces>(
        &self,
        parsed: &mut ParsedModule<'_>,
        sink: &mut T,
        out: &mut W,
    ) -> Result<Option<DebugFailure>, WriteError>
        ensures { OnOk result ((made debug : List ℕ)
            × IsWrittenModule (B.writes self.now.module.now.bodies) parsed.old
            self.now.module.now.changes self.now.module.now.omitted made
            × AreSections self.now.debug.now debug
            × Appends (W.contents out.old) (W.contents out.new) (made ++ debug)) }
    {
        if self.debug.is_empty() {
            return match parsed.write_module_with_sink(self.module, sink, out) {
                Ok(()) => Ok(None),
                Err(error) => Err(error),
            };
        }
        let mut made = Vec::new(self.rt.alloc());
        match parsed.write_module_with_sink(self.module, sink, &mut made) {
            Ok(()) => {}
            Err(error) => return Err(error),
        }
        match out.write_all(&made) {
            Ok(()) => self.write_moved_debug(parsed, &made, sink.places(), out),
            Err(error) => Err(WriteError::Io(error)),
        }
    }

    /// Writes the module, its debug information, and the section that says where its source map is. Returns why the debug information
    /// can't be moved, if it can't.
    fn write_out<W: Write, T: RecordsPlaces>(
        &self,
        parsed: &mut ParsedModule<'_>,
        sink: &mut T,
        out: &mut W,
    ) -> Result<Option<DebugFailure>, WriteError>
        // A module that is written as the library says, its debug information, and the section that was asked for.
        ensures { OnOk result ((made debug section : List ℕ)
            × IsWrittenModule (B.writes self.now.module.now.bodies) parsed.old
            self.now.module.now.changes self.now.module.now.omitted made
            × AreSections self.now.debug.now debug
            × MatchOption self.now.task.now.source_map_url (section ≡ [])
            (λ u. section ≡ whole_section 0 (url_contents u.now))
            × Appends (W.contents out.old) (W.contents out.new)
            ((made ++ debug) ++ section)) }
    {
        let failure = match self.write_made(parsed, sink, out) {
            Ok(failure) => failure,
            Err(error) => return Err(error),
        };
        match write_url(self.rt.alloc(), self.task.source_map_url, out) {
            Ok(()) => Ok(failure),
            Err(error) => Err(error),
        }
    }

    /// The same, to a buffer, in which nothing is left.
    fn write_through<W: Write + Drop, T: RecordsPlaces>(
        &self,
        parsed: &mut ParsedModule<'_>,
        sink: &mut T,
        out: &mut BufWriter<W>,
    ) -> Result<Option<DebugFailure>, WriteError>
        // All of it has gone to the writer inside.
        ensures { OnOk result ((made debug section : List ℕ)
            × IsWrittenModule (B.writes self.now.module.now.bodies) parsed.old
            self.now.module.now.changes self.now.module.now.omitted made
            × AreSections self.now.debug.now debug
            × MatchOption self.now.task.now.source_map_url (section ≡ [])
            (λ u. section ≡ whole_section 0 (url_contents u.now))
            × Appends (writer_contents W.contents out.old) (W.contents (writer_inner out.new))
            ((made ++ debug) ++ section)) }
    {
        let failure = match self.write_out(parsed, sink, out) {
            Ok(failure) => failure,
            Err(error) => return Err(error),
        };
        match out.flush() {
            Ok(()) => Ok(failure),
            Err(error) => Err(WriteError::Io(error)),
        }
    }

    /// Writes the module, buffered, and tells of its bodies.
    fn write_buffered<W: Write, T: RecordsPlaces>(
        &self,
        parsed: &mut ParsedModule<'_>,
        sink: &mut T,
        target: &mut W,
    ) -> Result<Option<DebugFailure>, WriteError> {
        match BufWriter::new(self.rt.alloc(), target) {
            Ok(mut out) => self.write_through(parsed, sink, &mut out),
            Err(error) => Err(WriteError::Io(error)),
        }
    }

    /// Writes the module, and its location map to a buffer that is lent, and what that still holds.
    fn write_with_lines<'s, W: Write, M: Write>(
        &self,
        parsed: &mut ParsedModule<'_>,
        moves: Moves<'s>,
        target: &mut W,
        map: &mut M,
    ) -> Result<(Moves<'s>, Option<DebugFailure>), WriteError> {
        let lines = MapLines(&mut *map);
        let mut sink = MovesAndLines { moves, lines };
        let failure = match self.write_buffered(parsed, &mut sink, target) {
            Ok(failure) => failure,
            Err(error) => return Err(error),
        };
        let MovesAndLines { moves, .. } = sink;
        match flush(map) {
            Ok(()) => Ok((moves, failure)),
            Err(error) => Err(error),
        }
    }

    /// Writes the module and its location map, buffered.
    fn write_both_buffered<'s, W: Write>(
        &self,
        parsed: &mut ParsedModule<'_>,
        moves: Moves<'s>,
        target: &mut W,
        map_target: &mut W,
    ) -> Result<(Moves<'s>, Option<DebugFailure>), WriteError> {
        match BufWriter::new(self.rt.alloc(), map_target) {
            Ok(mut map) => self.write_with_lines(parsed, moves, target, &mut map),
            Err(error) => Err(WriteError::Io(error)),
        }
    }

    /// Writes the module to a target that is lent, and then its source map, if one follows it.
    fn write_to(
        &self,
        parsed: &mut ParsedModule<'_>,
        target: &mut Target<'w, R>,
    ) -> Result<Option<DebugFailure>, ProgramFailure<'w>> {
        let (rt, task) = (self.rt, self.task);
        let Ok(mut moves) = Moves::new(rt.alloc(), self.source, !self.debug.is_empty()) else {
            return Err(ProgramFailure::Memory);
        };
        let failure = match self.write_buffered(parsed, &mut moves, target) {
            Ok(failure) => failure,
            Err(error) => return Err(failure_of(rt.alloc(), task.input, target.path(), error)),
        };
        match write_source_map(rt, task, moves) {
            Ok(()) => Ok(failure),
            Err(failure) => Err(failure),
        }
    }

    /// Writes the module and its location map to two targets that are lent, and then its source map, if
    /// one follows it.
    fn write_both_to(
        &self,
        parsed: &mut ParsedModule<'_>,
        target: &mut Target<'w, R>,
        map: &mut Target<'w, R>,
    ) -> Result<Option<DebugFailure>, ProgramFailure<'w>> {
        let (rt, task) = (self.rt, self.task);
        let Ok(moves) = Moves::new(rt.alloc(), self.source, !self.debug.is_empty()) else {
            return Err(ProgramFailure::Memory);
        };
        match self.write_both_buffered(parsed, moves, target, map) {
            Ok((moves, failure)) => match write_source_map(rt, task, moves) {
                Ok(()) => Ok(failure),
                Err(failure) => Err(failure),
            },
            Err(error) => {
                let failed = match map.has_failed() {
                    true => map.path(),
                    false => target.path(),
                };
                Err(failure_of(rt.alloc(), task.input, failed, error))
            }
        }
    }

    /// Writes the module to a target that is lent, and its location map, which is put in its place.
    fn write_with_map(
        &self,
        parsed: &mut ParsedModule<'_>,
        target: &mut Target<'w, R>,
        map: &'w str,
    ) -> Result<Option<DebugFailure>, ProgramFailure<'w>> {
        let mut map = match create_target(self.rt, self.task, map) {
            Ok(map) => map,
            Err(failure) => return Err(failure),
        };
        let (written, failure) = match self.write_both_to(parsed, target, &mut map) {
            Ok(failure) => (Ok(()), failure),
            Err(failed) => (Err(failed), None),
        };
        match map.end(written) {
            Ok(()) => Ok(failure),
            Err(failed) => Err(failed),
        }
    }
}

/// Writes a module, and its location map and the source map that follows it where these are asked
/// for, each whole or not at all. These sections with debug information follow its code, and are written after it. Returns how many
/// bytes the module has, and why its debug information can't be moved, if it can't.
///
/// # Errors
///
/// Where one of them can't be written. All files are then as before; but where one of them can't be
/// put in its place at the very end, those before it are new: first the source map, then the
/// location map, then the module.
pub fn write_module<'w, R: LockFiles + Print + AllocGlobal + Drop, B: BodyWriter>(
    rt: &'w R,
    parsed: &mut ParsedModule<'_>,
    module: &RewrittenModule<'_, B>,
    debug: &[DebugSection<'_>],
    task: &Task<'w>,
    source: &Option<SourceMap>,
    output: &'w str,
) -> Result<(u64, Option<DebugFailure>), ProgramFailure<'w>> {
    let mut target = match create_target(rt, task, output) {
        Ok(target) => target,
        Err(failure) => return Err(failure),
    };
    let writing = Writing {
        rt,
        task,
        module,
        debug,
        source,
    };
    let written = match task.map {
        Some(map) => writing.write_with_map(parsed, &mut target, map),
        None => writing.write_to(parsed, &mut target),
    };
    let count = target.count();
    let (written, failure) = match written {
        Ok(failure) => (Ok(()), failure),
        Err(failed) => (Err(failed), None),
    };
    match target.end(written) {
        Ok(()) => Ok((count, failure)),
        Err(failed) => Err(failed),
    }
}
