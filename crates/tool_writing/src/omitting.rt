//! Custom sections that a task leaves out of a module, or keeps.

use module_debug::{DebugSection, debug_sections};
use std::alloc::Global;
use tool_words::{SectionChoice, Task};
use wasm_module::{BodyWriter, ModuleError, ParsedModule, RewrittenModule, SectionKind};

/// The name of a custom section of a module that has this name; none if no section has it.
fn name_in<'a>(parsed: &ParsedModule<'a>, wanted: &str) -> Result<Option<&'a str>, ModuleError> {
    for section in parsed.sections()? {
        let section = section?;
        if section.kind == SectionKind::Custom {
            let name = section.name()?;
            if name == wanted {
                return Ok(Some(name));
            }
        }
    }
    Ok(None)
}

/// The sections with debug information that follow the code, if it changes: those that the task neither leaves out nor keeps as they
/// are. None if no section among them says where code is.
pub fn following_debug<'a>(
    alloc: Global,
    task: &Task<'_>,
    parsed: &ParsedModule<'a>,
) -> Result<Vec<DebugSection<'a>>, ModuleError> {
    let mut sections = debug_sections(alloc, parsed)?;
    sections.retain(|section| !task.leaves_out(section.name, true));
    if task.keeps_debug() || !sections.iter().any(|section| section.names_code()) {
        sections.clear();
    }
    Ok(sections)
}

/// Leaves out custom sections, or keeps them, but for those that are written after the module.
fn choose<'a, B: BodyWriter>(
    section: SectionChoice<'_>,
    parsed: &ParsedModule<'a>,
    debug: &[DebugSection<'a>],
    module: &mut RewrittenModule<'a, B>,
) -> Result<(), ModuleError> {
    match section {
        SectionChoice::LeaveOutAll => module.omit_custom_sections(),
        SectionChoice::LeaveOutDebug => module.omit_debug(),
        SectionChoice::LeaveOut(wanted) => {
            if let Some(name) = name_in(parsed, wanted)? {
                module.omit_custom_section(name)?;
            }
        }
        SectionChoice::Keep(wanted) if debug.iter().any(|other| other.name == wanted) => {}
        SectionChoice::Keep(wanted) => {
            if let Some(name) = name_in(parsed, wanted)? {
                module.keep_custom_section(name)?;
            }
        }
        SectionChoice::KeepDebug => {}
    }
    Ok(())
}

/// Leaves out what the task asks to leave out, and these sections with debug information, which are written after the module; and keeps
/// what the task asks to keep.
pub fn omit<'a, B: BodyWriter>(
    task: &Task<'_>,
    parsed: &ParsedModule<'a>,
    debug: &[DebugSection<'a>],
    module: &mut RewrittenModule<'a, B>,
) -> Result<(), ModuleError> {
    for section in &task.sections {
        choose(*section, parsed, debug, module)?;
    }
    for section in debug {
        module.omit_custom_section(section.name)?;
    }
    if task.source_map_url.is_some() {
        module.omit_source_map_url();
    }
    Ok(())
}
