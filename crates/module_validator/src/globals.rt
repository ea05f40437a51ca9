//! Globals (WebAssembly core specification 3.0, validation, modules, globals).
ghost use Rattle.std.specs.Prelude.{◌≡◌, ◌+◌};
ghost use Rattle.wasm_numbers.specs.Results.{Gives};
ghost use Rattle.wasm_context.specs.Contexts.{without_locals};
ghost use Rattle.wasm_sections.specs.Format.{global_type_part};
ghost use Rattle.wasm_sections.specs.Parts.{checked, GivesUnlessMemory};
ghost use Rattle.module_context.specs.ReadContexts.{read_setting};
ghost use Rattle.module_validator.specs.Checks.{globals_contents};
ghost use Rattle.module_validator.specs.ModuleRules.{kept_if, global_type_rule, global_rule};

use crate::constant::check_constant;
use crate::scratch::Scratch;
use crate::types::check_global_type;
use module_context::ModuleContext;
use wasm_context::Context;
use wasm_sections::{GlobalType, Input, ModuleError};

/// The type of a global, which is valid.
fn global_type(context: &Context, input: &mut Input<'_>) -> Result<GlobalType, ModuleError>
    ensures same_end { input.new.end ≡ input.old.end }
    ensures is { Gives (λ ty. (ty, input.new.rest.now)) result (checked global_type_part
        (kept_if (global_type_rule (without_locals context.now))) input.old.end
        input.old.rest.now) }
{
    let begin = *input;
    let ty = match input.global_type() {
        Ok(ty) => ty,
        Err(error) => return Err(error),
    };
    match check_global_type(context, ty) {
        Ok(()) => Ok(ty),
        Err(fault) => Err(begin.fault(fault)),
    }
}

/// Checks a global that comes after so many.
fn check_global(
    setting: &ModuleContext,
    before: usize,
    input: &mut Input<'_>,
    scratch: &mut Scratch,
) -> Result<(), ModuleError>
    ensures same_end { input.new.end ≡ input.old.end }
    ensures is { GivesUnlessMemory (λ _. (before + 1, input.new.rest.now)) result
        (global_rule (read_setting setting.now) before input.old.end input.old.rest.now) }
{
    match global_type(&setting.context, input) {
        Ok(ty) => check_constant(setting, before, ty.value, input, scratch),
        Err(error) => Err(error),
    }
}

/// Checks the global with this number among those that the module defines. Memory has no room for as many globals
/// as a `usize` can't count.
fn check_own_global(
    setting: &ModuleContext,
    number: u32,
    input: &mut Input<'_>,
    scratch: &mut Scratch,
) -> Result<(), ModuleError>
    ensures same_end { input.new.end ≡ input.old.end }
    ensures is { GivesUnlessMemory (λ _. (setting.now.imported_globals + number + 1, input.new.rest.now))
        result (global_rule (read_setting setting.now) (setting.now.imported_globals + number)
        input.old.end input.old.rest.now) }
{
    match setting.imported_globals.checked_add(number as usize) {
        Some(before) => check_global(setting, before, input, scratch),
        None => Err(ModuleError::MEMORY),
    }
}

/// Checks the globals of a global section with these contents.
pub(crate) fn check_globals(
    setting: &ModuleContext,
    mut input: Input<'_>,
    scratch: &mut Scratch,
) -> Result<(), ModuleError>
    ensures { GivesUnlessMemory (λ _. tt) result (globals_contents (read_setting setting.now)
        input.entry.end input.entry.rest.now) }
{
    let count = match input.number() {
        Ok(count) => count,
        Err(error) => return Err(error),
    };
    'globals: for index in 0..count {
        match check_own_global(setting, index, &mut input, scratch) {
            Ok(()) => {}
            Err(error) => return Err(error),
        }
    }
    input.finish()
}
