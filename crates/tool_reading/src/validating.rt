//! Modules that were read are validated.

ghost use Rattle.std.specs.Prelude.{◌≡◌, true, Ok, OnOk};
ghost use Rattle.wasm_sections.specs.Parts.{GivesUnlessMemory};
ghost use Rattle.module_validator.specs.EngineLimits.{limited_validity};
ghost use Rattle.module_validator.specs.ModuleRules.{module_validity};

use crate::checking::refused;
use module_validator::{refusal_text, validate, validate_within_limits};
use std::alloc::Global;
use tool_words::{ProgramFailure, Task};
use wasm_module::{ModuleError, ParsedModule};

/// Validates a module as it was read (WebAssembly core specification 3.0, validation, modules). What was added to it since isn't
/// validated. `refusal_text` has the text of an error, from `parsed.bytes()`.
///
/// # Errors
///
/// Out of memory, or the first fault, with its place: of what the module declares, and then of the rules, each in
/// the order of the bytes.
pub fn validate_module(alloc: Global, parsed: &ParsedModule<'_>) -> Result<(), ModuleError>
    ensures { GivesUnlessMemory (λ u. u) result (module_validity parsed.now.bytes.now) }
{
    validate(alloc, parsed.bytes())
}

/// The same after the limits of engines were checked (WebAssembly JavaScript interface, implementation-defined limits), in
/// linear time: so the types of a module of which nothing is known don't make validation take long.
///
/// # Errors
///
/// Out of memory, or the first limit that the module is above, with its place; else as of `validate_module`.
pub fn validate_module_within_limits(
    alloc: Global,
    parsed: &ParsedModule<'_>,
) -> Result<(), ModuleError>
    ensures { GivesUnlessMemory (λ u. u) result (limited_validity parsed.now.bytes.now) }
{
    validate_within_limits(alloc, parsed.bytes())
}

/// Why a module that was read from these bytes isn't valid, where validation returns this error.
fn not_valid<'w>(
    alloc: Global,
    parsed: &ParsedModule<'_>,
    path: &'w str,
    bytes: &[u8],
    error: &ModuleError,
) -> ProgramFailure<'w> {
    let failure = refused(alloc, parsed, path, error);
    let ProgramFailure::Refused(mut fault) = failure else {
        return failure;
    };
    match refusal_text(alloc, bytes, error) {
        Ok(text) => {
            fault.fault = text;
            ProgramFailure::Refused(fault)
        }
        Err(_) => ProgramFailure::Memory,
    }
}

/// Validates the module with these bytes, where that is asked for, and first checks the limits of engines, if these are too.
fn validate_asked(alloc: Global, task: &Task<'_>, bytes: &[u8]) -> Result<(), ModuleError>
    ensures valid { OnOk result (task.now.validates ≡ true → module_validity bytes.now ≡ Ok tt) }
    ensures limited { OnOk result (task.now.validates ≡ true → task.now.has_limits ≡ true
        → limited_validity bytes.now ≡ Ok tt) }
{
    match (task.validates, task.has_limits) {
        (true, true) => validate_within_limits(alloc, bytes),
        (true, false) => validate(alloc, bytes),
        (false, _) => Ok(()),
    }
}

/// Refuses a module that was read from these bytes and isn't valid, or is above a limit of engines, where that is asked for.
pub fn check_validity<'w>(
    alloc: Global,
    task: &Task<'w>,
    bytes: &[u8],
    parsed: &ParsedModule<'_>,
) -> Result<(), ProgramFailure<'w>>
    ensures valid { OnOk result (task.now.validates ≡ true → module_validity bytes.now ≡ Ok tt) }
    ensures limited { OnOk result (task.now.validates ≡ true → task.now.has_limits ≡ true
        → limited_validity bytes.now ≡ Ok tt) }
{
    match validate_asked(alloc, task, bytes) {
        Ok(()) => Ok(()),
        Err(error) => Err(not_valid(alloc, parsed, task.input, bytes, &error)),
    }
}
