//! A whole module is validated.
ghost use Rattle.std.specs.Prelude.{◌≡◌};
ghost use Rattle.wasm_sections.specs.Parts.{GivesUnlessMemory};
ghost use Rattle.module_context.specs.ReadContexts.{read_setting};
ghost use Rattle.module_context.specs.SectionSteps.{through_module};
ghost use Rattle.module_validator.specs.ModuleRules.{section_rule, module_validity};

use crate::scratch::Scratch;
use crate::sections::check_section;
use module_context::ModuleContext;
use std::alloc::Global;
use wasm_sections::{ModuleError, Sections};

/// Checks all sections.
fn check_sections(
    alloc: Global,
    setting: &ModuleContext,
    bytes: &[u8],
    scratch: &mut Scratch,
) -> Result<(), ModuleError>
    ensures { GivesUnlessMemory (λ u. u) result (through_module
        (section_rule (read_setting setting.now)) tt bytes.now) }
{
    let sections = match Sections::new(bytes) {
        Ok(sections) => sections,
        Err(error) => return Err(error),
    };
    'sections: for section in sections {
        match section {
            Ok(section) => match check_section(alloc, setting, &section, scratch) {
                Ok(()) => {}
                Err(error) => return Err(error),
            },
            Err(error) => return Err(error),
        }
    }
    Ok(())
}

/// Checks all sections, with lists of their own.
fn check_module(alloc: Global, setting: &ModuleContext, bytes: &[u8]) -> Result<(), ModuleError>
    ensures { GivesUnlessMemory (λ u. u) result (through_module
        (section_rule (read_setting setting.now)) tt bytes.now) }
{
    let mut scratch = Scratch::new(alloc);
    check_sections(alloc, setting, bytes, &mut scratch)
}

/// Validates a module with these bytes.
///
/// # Errors
///
/// Out of memory, or the first fault, with its place: of what the module declares, and then of the rules, each in
/// the order of the bytes.
pub fn validate(alloc: Global, bytes: &[u8]) -> Result<(), ModuleError>
    ensures { GivesUnlessMemory (λ u. u) result (module_validity bytes.now) }
{
    match ModuleContext::read(alloc, bytes) {
        Ok(setting) => check_module(alloc, &setting, bytes),
        Err(error) => Err(error),
    }
}
