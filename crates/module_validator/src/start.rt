//! The start function (WebAssembly core specification 3.0, validation, modules, start function).
ghost use Rattle.std.specs.Prelude.{◌≡◌};
ghost use Rattle.wasm_numbers.specs.Results.{Gives};
ghost use Rattle.wasm_context.specs.Contexts.{without_locals};
ghost use Rattle.wasm_sections.specs.Parts.{checked, number, whole_part};
ghost use Rattle.module_validator.specs.Checks.{start_type_rule};
ghost use Rattle.module_validator.specs.ModuleRules.{start_rule};

use crate::faults::{only_if, placed};
use crate::types::is_empty;
use module_context::faults::{INVALID_TYPE, START_TYPE};
use wasm_context::Context;
use wasm_ops::Space;
use wasm_sections::{Input, ModuleError, ModuleFault};

/// `INVALID_TYPE` if no function type has this index; `START_TYPE` if it has parameters or results.
fn check_start_type(context: &Context, ty: u32) -> Result<(), ModuleFault>
    ensures { result ≡ start_type_rule (without_locals context.now) ty }
{
    match context.function_type(ty) {
        Some((params, results)) => only_if(is_empty(params) && is_empty(results), START_TYPE),
        None => Err(INVALID_TYPE),
    }
}

/// Checks the type of the start function: `IndexOutOfRange` if no function has this index.
fn check_start(context: &Context, function: u32) -> Result<(), ModuleFault>
    ensures { result ≡ start_rule (without_locals context.now) function }
{
    match context.function_of(function) {
        Some(ty) => check_start_type(context, ty),
        None => Err(ModuleFault::IndexOutOfRange {
            space: Space::Funcs,
            index: function,
        }),
    }
}

/// Checks the contents of a start section.
pub(crate) fn check_start_section(
    context: &Context,
    mut input: Input<'_>,
) -> Result<(), ModuleError>
    ensures { Gives (λ _. tt) result (whole_part (checked number
        (start_rule (without_locals context.now))) input.entry.end input.entry.rest.now) }
{
    let begin = input;
    let checked = match input.number() {
        Ok(function) => placed(&begin, check_start(context, function)),
        Err(error) => return Err(error),
    };
    match checked {
        Ok(()) => input.finish(),
        Err(error) => Err(error),
    }
}
