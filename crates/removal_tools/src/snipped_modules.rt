//! A module from which bodies of functions are taken away, in memory, to be read again.

use dwarf_bytes::DebugError;
use left_modules::{Origins, Recording};
use module_debug::{DebugFailure, DebugSection, OperatorPlaces, move_debug, write_debug};
use module_tools::snip;
use std::alloc::{AllocError, Global};
use tool_words::Task;
use tool_writing::{CodeChange, following_debug};
use walrus_ir::{FunctionId, IdHashSet};
use wasm_module::{ModuleError, ParsedModule, WriteError};

/// A module that was made of another one.
#[derive(Drop)]
pub(crate) struct SnippedModule {
    /// Its bytes.
    pub bytes: Vec<u8>,
    /// Where its operators come from.
    pub origins: Origins,
    /// Why its debug information doesn't follow the code, if it doesn't.
    pub failure: Option<DebugFailure>,
    /// How its code differs from that of the other module.
    pub code: CodeChange,
}

/// Adds the sections with debug information after the module that was made, and returns why they can't be moved, if they can't.
fn push_debug(
    alloc: Global,
    parsed: &ParsedModule<'_>,
    debug: &[DebugSection<'_>],
    places: &OperatorPlaces,
    made: &mut Vec<u8>,
) -> Result<Option<DebugFailure>, WriteError> {
    if debug.is_empty() {
        return Ok(None);
    }
    let (moved, failure) = match move_debug(alloc, parsed, debug, made, places) {
        Ok(moved) => (Some(moved), None),
        Err(failure) if failure.error == DebugError::Memory => {
            return Err(WriteError::Module(ModuleError::from(AllocError)));
        }
        Err(failure) => (None, Some(failure)),
    };
    match write_debug(alloc, debug, moved.as_ref(), made) {
        Ok(()) => Ok(failure),
        Err(error) => Err(error),
    }
}

/// The module without the bodies of these functions, and its debug information after it.
fn written(
    alloc: Global,
    task: &Task<'_>,
    parsed: &mut ParsedModule<'_>,
    functions: IdHashSet<FunctionId>,
) -> Result<SnippedModule, WriteError> {
    let debug = following_debug(alloc, task, parsed)?;
    let mut module = snip(alloc, parsed, functions)?;
    let code = CodeChange {
        changes: module.changes_code(),
        moves: module.moves_code(),
    };
    let count = if code.changes { debug.len() } else { 0 };
    let debug = &debug[..count];
    for section in debug {
        module.omit_custom_section(section.name)?;
    }
    let mut recording = Recording {
        origins: Origins::new(alloc),
        places: OperatorPlaces::new(alloc, !debug.is_empty()),
    };
    let mut bytes = Vec::new(alloc);
    parsed.write_module_with_sink(&module, &mut recording, &mut bytes)?;
    let Recording { origins, places } = recording;
    match push_debug(alloc, parsed, debug, &places, &mut bytes) {
        Ok(failure) => Ok(SnippedModule {
            bytes,
            origins,
            failure,
            code,
        }),
        Err(error) => Err(error),
    }
}

/// The module with `unreachable` in the place of the bodies of these functions. It has all custom sections, but those with debug information
/// that the task doesn't leave out come last, where they follow the code.
///
/// # Errors
///
/// The first fault of a body, with its place, or `Memory`.
pub(crate) fn snipped(
    alloc: Global,
    task: &Task<'_>,
    parsed: &mut ParsedModule<'_>,
    functions: IdHashSet<FunctionId>,
) -> Result<SnippedModule, ModuleError> {
    match written(alloc, task, parsed, functions) {
        Ok(module) => Ok(module),
        Err(WriteError::Module(error)) => Err(error),
        // A list in memory can't fail otherwise.
        Err(WriteError::Io(_)) => Err(ModuleError::from(AllocError)),
    }
}
