//! Limits that engines have, and the standard doesn't (WebAssembly JavaScript interface, implementation-defined limits). They are
//! no part of validity.
ghost use Rattle.std.specs.Prelude.{◌≡◌, ◌≢◌, true};
ghost use Rattle.wasm_numbers.specs.Results.{Gives};
ghost use Rattle.wasm_sections.specs.declared.fault.ModuleFault.TheVariants.{Memory};
ghost use Rattle.wasm_sections.specs.Parts.{GivesUnlessMemory};
ghost use Rattle.wasm_sections.specs.Sections.{section_id};
ghost use Rattle.module_context.specs.ReadContexts.{read_setting};
ghost use Rattle.module_context.specs.SectionSteps.{through_module};
ghost use Rattle.module_validator.specs.EngineLimits.{is_engine_limit, most_items, count_limit, section_limits, engine_limits, limited_validity};

use crate::faults::{only_if, placed};
use crate::limited_bodies::check_bodies;
use crate::limited_types::check_types;
use crate::validation::validate;
use module_context::ModuleContext;
use module_context::faults::{LARGE_MODULE, TOO_MANY_ITEMS};
use std::alloc::Global;
use wasm_body::ParseError;
use wasm_sections::{ModuleError, ModuleFault, Section, SectionKind, Sections};

/// The most bytes of a module.
const MODULE_BYTES: usize = 1 << 30;

/// The most items of a section of this kind, if it has a limit.
fn most_items(kind: SectionKind) -> Option<u32>
    ensures { result ≡ most_items (section_id kind) }
{
    match kind {
        SectionKind::Import
        | SectionKind::Function
        | SectionKind::Global
        | SectionKind::Export
        | SectionKind::Tag => Some(1_000_000),
        SectionKind::Table | SectionKind::Data => Some(100_000),
        SectionKind::Memory => Some(100),
        _ => None,
    }
}

/// Checks how many items a section has.
fn check_count(section: &Section<'_>) -> Result<(), ModuleError>
    ensures { Gives (λ _. tt) result (count_limit (section_id section.now.kind)
        section.now.contents.end section.now.contents.rest.now) }
{
    let Some(most) = most_items(section.kind) else {
        return Ok(());
    };
    let mut input = section.contents;
    match input.number() {
        Ok(count) => placed(&section.contents, only_if(count <= most, TOO_MANY_ITEMS)),
        Err(error) => Err(error),
    }
}

/// Checks a section.
fn check_section(
    alloc: Global,
    setting: &ModuleContext,
    section: &Section<'_>,
) -> Result<(), ModuleError>
    ensures { GivesUnlessMemory (λ _. tt) result (section_limits (read_setting setting.now)
        (section_id section.now.kind) tt section.now.contents.end
        section.now.contents.rest.now) }
{
    match check_count(section) {
        Ok(()) => {}
        Err(error) => return Err(error),
    }
    match section.kind {
        SectionKind::Type => placed(&section.contents, check_types(&setting.context)),
        SectionKind::Code => check_bodies(alloc, setting, section.contents),
        _ => Ok(()),
    }
}

/// Checks all sections of a module with this context.
fn check_sections(alloc: Global, setting: &ModuleContext, bytes: &[u8]) -> Result<(), ModuleError>
    ensures { GivesUnlessMemory (λ u. u) result (through_module
        (section_limits (read_setting setting.now)) tt bytes.now) }
{
    let sections = match Sections::new(bytes) {
        Ok(sections) => sections,
        Err(error) => return Err(error),
    };
    'sections: for section in sections {
        match section {
            Ok(section) => match check_section(alloc, setting, &section) {
                Ok(()) => {}
                Err(error) => return Err(error),
            },
            Err(error) => return Err(error),
        }
    }
    Ok(())
}

/// Checks that a module with these bytes is within limits that engines have: of the WebAssembly JavaScript interface
/// those of the module's size, of numbers of items, of types, of bodies and of locals. The sizes of tables and what is in an
/// operator aren't checked. This takes linear time.
///
/// # Errors
///
/// Out of memory, or the first limit that it is above, with its place; or a fault of a module that isn't read, or of what a
/// body declares, if that comes first (`is_engine_limit`).
pub fn check_engine_limits(alloc: Global, bytes: &[u8]) -> Result<(), ModuleError>
    ensures { GivesUnlessMemory (λ u. u) result (engine_limits bytes.now) }
{
    if bytes.len() > MODULE_BYTES {
        return Err(ModuleError {
            fault: LARGE_MODULE,
            at: 0,
        });
    }
    match ModuleContext::read(alloc, bytes) {
        Ok(setting) => check_sections(alloc, &setting, bytes),
        Err(error) => Err(error),
    }
}

/// Whether a fault is that of a module above a limit of engines, and so none of validity: one of `TOO_MANY_TYPES` to
/// `LARGE_MODULE` of `module_context::faults`.
pub fn is_engine_limit(fault: ModuleFault) -> bool
    ensures { result ≡ is_engine_limit fault }
{
    matches!(fault, ModuleFault::Parse(ParseError::Checked(8..=14)))
}

/// Whether a fault of a check of limits is the last word, and not that of validation.
fn decides(fault: ModuleFault) -> bool
    ensures limit { fault ≢ Memory → result ≡ is_engine_limit fault }
    ensures memory { fault ≡ Memory → result ≡ true }
{
    match fault {
        ModuleFault::Memory => true,
        fault => is_engine_limit(fault),
    }
}

/// Validates a module with these bytes, after the limits of engines were checked. So one with types that engines refuse, with
/// which validation would take long, is refused in linear time.
///
/// # Errors
///
/// Out of memory, or the first limit that the module is above, as of `check_engine_limits`; else as of `validate`.
pub fn validate_within_limits(alloc: Global, bytes: &[u8]) -> Result<(), ModuleError>
    ensures { GivesUnlessMemory (λ u. u) result (limited_validity bytes.now) }
{
    match check_engine_limits(alloc, bytes) {
        Ok(()) => validate(alloc, bytes),
        Err(error) if decides(error.fault) => Err(error),
        Err(_) => validate(alloc, bytes),
    }
}
