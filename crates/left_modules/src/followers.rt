//! What comes after the code of a module that is left: debug information, and the section that says where its source map is.

ghost use Rattle.std.specs.Prelude.{◌≡◌, ◌++◌, [], ℕ, List, IfOk, OnOk, MatchOption};
ghost use Rattle.wasm_sections.specs.Sections.{section as whole_section};
ghost use Rattle.wasm_module.specs.WrittenModules.{url_contents};
ghost use Rattle.module_debug.specs.Sections.{AreDebugSections as AreSections};

use crate::left_debug::{debug_bytes, left_debug};
use crate::left_sections::{chosen, notes_of, push_carried};
use crate::removing::module_of_left;
use module_debug::{DebugFailure, DebugSection};
use module_removal::Remainder;
use std::alloc::{AllocError, Global};
use tool_words::Task;
use tool_writing::{CodeChange, following_debug};
use wasm_module::{ModuleError, Note, ParsedModule, WriteError, write_source_map_url};

/// What comes after the code of a module that is left.
#[derive(Drop)]
pub struct Followers<'a> {
    /// The sections with debug information that follow the code.
    pub debug: Vec<DebugSection<'a>>,
    /// Why they don't, if they don't.
    pub failure: Option<DebugFailure>,
    /// How the code of the module differs from that of its source.
    pub code: CodeChange,
    /// The custom sections of the source that say where code is.
    pub notes: Vec<Note<'a>>,
}

/// The error of a module that is written to memory.
fn in_memory(error: WriteError) -> ModuleError {
    match error {
        WriteError::Module(error) => error,
        // A list in memory can't fail otherwise.
        WriteError::Io(_) => ModuleError::from(AllocError),
    }
}

/// The sections with debug information, to be written after the module that was made, of which this is left; and why they can't follow the
/// code, if they can't.
fn debug_of(
    alloc: Global,
    parsed: &mut ParsedModule<'_>,
    remainder: &Remainder,
    code: CodeChange,
    debug: &[DebugSection<'_>],
    made: &[u8],
) -> Result<(Vec<u8>, Option<DebugFailure>), WriteError>
    ensures { IfOk result (λ written. AreSections debug.now written.0.items) }
{
    if code.changes {
        return left_debug(alloc, parsed, remainder, made, debug);
    }
    match debug_bytes(alloc, debug, None) {
        Ok(bytes) => Ok((bytes, None)),
        Err(error) => Err(error),
    }
}

/// Adds the sections with debug information to the module that was made, of which this is left. Returns why they can't follow the code, if
/// they can't.
fn push_debug(
    alloc: Global,
    parsed: &mut ParsedModule<'_>,
    remainder: &Remainder,
    code: CodeChange,
    debug: &[DebugSection<'_>],
    made: &mut Vec<u8>,
) -> Result<Option<DebugFailure>, WriteError>
    ensures { OnOk result ((sections : List ℕ) × AreSections debug.now sections
        × (made.new.items ≡ made.old.items ++ sections)) }
{
    if debug.is_empty() {
        return Ok(None);
    }
    let (sections, failure) = match debug_of(alloc, parsed, remainder, code, debug, made) {
        Ok(moved) => moved,
        Err(error) => return Err(error),
    };
    match made.extend_from_slice(&sections) {
        Ok(()) => Ok(failure),
        Err(error) => Err(WriteError::from(ModuleError::from(error))),
    }
}

/// Adds the section that says where the source map is, if that is given.
fn push_url(alloc: Global, url: Option<&str>, made: &mut Vec<u8>) -> Result<(), WriteError>
    ensures { OnOk result ((section : List ℕ)
        × MatchOption url.entry (section ≡ []) (λ u. section ≡ whole_section 0 (url_contents u.now))
        × (made.new.items ≡ made.old.items ++ section)) }
{
    match url {
        Some(url) => write_source_map_url(alloc, url, made),
        None => Ok(()),
    }
}

/// Adds the sections after the others: with debug information, and of where the source map is.
///
/// # Errors
///
/// `TooGreat` if the size of a section doesn't fit 32 bits; or `Memory`.
pub fn push_followers<'a>(
    alloc: Global,
    task: &Task<'_>,
    parsed: &mut ParsedModule<'a>,
    remainder: &Remainder,
    failure: Option<DebugFailure>,
    made: &mut Vec<u8>,
) -> Result<Followers<'a>, ModuleError>
    // What is carried over, debug information that follows the code, and the section that was asked for.
    ensures { IfOk result (λ followers. (carried debug section : List ℕ)
        × AreSections followers.debug.items debug
        × MatchOption task.now.source_map_url (section ≡ [])
        (λ u. section ≡ whole_section 0 (url_contents u.now))
        × (made.new.items ≡ ((made.old.items ++ carried) ++ debug) ++ section)) }
{
    let code = CodeChange::between(parsed.bytes(), made)?;
    let notes = notes_of(alloc, parsed)?;
    let mut debug = following_debug(alloc, task, parsed)?;
    if failure.is_some() {
        debug.clear();
    }
    push_carried(task, parsed, &debug, made)?;
    let own = match push_debug(alloc, parsed, remainder, code, &debug, made) {
        Ok(own) => own,
        Err(error) => return Err(in_memory(error)),
    };
    match push_url(alloc, task.source_map_url, made) {
        Ok(()) => Ok(Followers {
            debug,
            failure: failure.or(own),
            code,
            notes,
        }),
        Err(error) => Err(in_memory(error)),
    }
}

/// The module of which this is left, without what the task leaves out.
///
/// # Errors
///
/// Those of `module_of_left`.
pub fn made_of_left(
    alloc: Global,
    task: &Task<'_>,
    parsed: &mut ParsedModule<'_>,
    remainder: &Remainder,
) -> Result<Vec<u8>, ModuleError> {
    match module_of_left(alloc, parsed, remainder) {
        Ok(made) => chosen(alloc, task, made),
        Err(error) => Err(error),
    }
}
