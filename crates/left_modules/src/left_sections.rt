//! The custom sections of a module without what nothing reaches: those that a task leaves out, and those that are carried over.

ghost use Rattle.std.specs.Prelude.{◌≡◌, ◌++◌, ℕ, List, OnOk};

use module_debug::DebugSection;
use std::alloc::Global;
use tool_words::Task;
use wasm_module::{ModuleError, Note, NoteKind, ParsedModule, SectionKind, Sections};
use wasm_sections::{PREAMBLE, names_debug, names_source_map};

/// Adds the sections that the task doesn't leave out.
fn push_chosen(task: &Task<'_>, made: &[u8], out: &mut Vec<u8>) -> Result<(), ModuleError> {
    out.extend_from_slice(&PREAMBLE)?;
    for section in Sections::new(made)? {
        let section = section?;
        if section.kind != SectionKind::Custom || !task.leaves_out(section.name()?, false) {
            out.extend_from_slice(section.whole)?;
        }
    }
    Ok(())
}

/// The module that was made, which has no debug information, without the custom sections that the task leaves out.
///
/// # Errors
///
/// `Memory`.
pub(crate) fn chosen(
    alloc: Global,
    task: &Task<'_>,
    made: Vec<u8>,
) -> Result<Vec<u8>, ModuleError> {
    if task.sections.is_empty() {
        return Ok(made);
    }
    let mut out = Vec::new(alloc);
    match push_chosen(task, &made, &mut out) {
        Ok(()) => Ok(out),
        Err(error) => Err(error),
    }
}

/// Whether the section of this name with debug information is carried over as it is.
fn is_carried(task: &Task<'_>, debug: &[DebugSection<'_>], name: &str) -> bool {
    let is_replaced = names_source_map(name) && task.source_map_url.is_some();
    names_debug(name)
        && !is_replaced
        && !task.leaves_out(name, true)
        && !debug.iter().any(|section| section.name == name)
}

/// Adds the custom sections with debug information that are carried over as they are: those that the task doesn't leave out, but for these,
/// which follow the code.
///
/// # Errors
///
/// `Memory`.
pub(crate) fn push_carried(
    task: &Task<'_>,
    parsed: &ParsedModule<'_>,
    debug: &[DebugSection<'_>],
    out: &mut Vec<u8>,
) -> Result<(), ModuleError>
    ensures { OnOk result ((carried : List ℕ) × (out.new.items ≡ out.old.items ++ carried)) }
{
    'sections: for section in parsed.sections()? {
        let section = section?;
        if section.kind == SectionKind::Custom && is_carried(task, debug, section.name()?) {
            out.extend_from_slice(section.whole)?;
        }
    }
    Ok(())
}

/// What is wrong with the section of this name if it is carried over though the code changes, if something is.
fn note_kind(name: &str) -> Option<NoteKind> {
    match name {
        "sourceMappingURL" => Some(NoteKind::SourceMap),
        "external_debug_info"
        | ".debug_addr"
        | ".debug_aranges"
        | ".debug_frame"
        | ".debug_info"
        | ".debug_line"
        | ".debug_loc"
        | ".debug_loclists"
        | ".debug_ranges"
        | ".debug_rnglists" => Some(NoteKind::DebugInfo),
        _ => None,
    }
}

/// Notes on the custom sections of a module that say where code is.
///
/// # Errors
///
/// `Memory`.
pub(crate) fn notes_of<'a>(
    alloc: Global,
    parsed: &ParsedModule<'a>,
) -> Result<Vec<Note<'a>>, ModuleError> {
    let mut notes = Vec::new(alloc);
    for section in parsed.sections()? {
        let section = section?;
        if section.kind != SectionKind::Custom {
            continue;
        }
        let name = section.name()?;
        if let Some(kind) = note_kind(name) {
            notes.push(Note { name, kind })?;
        }
    }
    Ok(notes)
}
