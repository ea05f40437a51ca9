//! Tables (WebAssembly core specification 3.0, validation, modules, tables).
ghost use Rattle.std.specs.Prelude.{◌≡◌, option_map, IfSome};
ghost use Rattle.wasm_numbers.specs.Results.{Gives};
ghost use Rattle.wasm_context.specs.Contexts.{without_locals};
ghost use Rattle.wasm_sections.specs.Format.{table_type_part, after_table_mark};
ghost use Rattle.wasm_sections.specs.Parts.{checked, GivesUnlessMemory};
ghost use Rattle.module_context.specs.ReadContexts.{read_setting};
ghost use Rattle.module_validator.specs.ModuleRules.{kept_if, table_type_rule, default_rule, initialized_table_rule, table_rule};

use crate::constant::check_constant;
use crate::faults::{only_if, placed};
use crate::scratch::Scratch;
use crate::types::check_table_type;
use module_context::ModuleContext;
use module_context::faults::NO_INITIAL_VALUE;
use wasm_context::{Context, has_default};
use wasm_sections::{Input, ModuleError, ModuleFault, TableType};

/// Checks the type of a table without an initial value: `NO_INITIAL_VALUE` if its elements have no default one.
fn check_default(context: &Context, ty: TableType) -> Result<(), ModuleFault>
    ensures { result ≡ default_rule (without_locals context.now) ty }
{
    match check_table_type(context, ty) {
        Ok(()) => only_if(has_default(ty.element), NO_INITIAL_VALUE),
        Err(fault) => Err(fault),
    }
}

/// Checks a table without an initial value.
fn check_uninitialized(context: &Context, input: &mut Input<'_>) -> Result<(), ModuleError>
    ensures same_end { input.new.end ≡ input.old.end }
    ensures is { Gives (λ _. (tt, input.new.rest.now)) result (checked table_type_part
        (default_rule (without_locals context.now)) input.old.end input.old.rest.now) }
{
    let begin = *input;
    match input.table_type() {
        Ok(ty) => placed(&begin, check_default(context, ty)),
        Err(error) => Err(error),
    }
}

/// The type of a table, which is valid.
fn table_type(context: &Context, input: &mut Input<'_>) -> Result<TableType, ModuleError>
    ensures same_end { input.new.end ≡ input.old.end }
    ensures is { Gives (λ ty. (ty, input.new.rest.now)) result (checked table_type_part
        (kept_if (table_type_rule (without_locals context.now))) input.old.end
        input.old.rest.now) }
{
    let begin = *input;
    let ty = match input.table_type() {
        Ok(ty) => ty,
        Err(error) => return Err(error),
    };
    match check_table_type(context, ty) {
        Ok(()) => Ok(ty),
        Err(fault) => Err(begin.fault(fault)),
    }
}

/// Checks a table with an initial value, after the bytes that it begins with.
fn check_initialized(
    setting: &ModuleContext,
    input: &mut Input<'_>,
    scratch: &mut Scratch,
) -> Result<(), ModuleError>
    ensures same_end { input.new.end ≡ input.old.end }
    ensures is { GivesUnlessMemory (λ _. (tt, input.new.rest.now)) result
        (initialized_table_rule (read_setting setting.now) input.old.end input.old.rest.now) }
{
    match table_type(&setting.context, input) {
        Ok(ty) => check_constant(
            setting,
            setting.imported_globals,
            ty.element,
            input,
            scratch,
        ),
        Err(error) => Err(error),
    }
}

/// The bytes that follow those two with which a table with an initial value begins; `None` if it doesn't begin with
/// them.
fn after_mark<'a>(input: &Input<'a>) -> Option<Input<'a>>
    ensures same_end { IfSome result (λ after. after.end ≡ input.now.end) }
    ensures is { option_map (λ after. after.rest.now) result ≡ after_table_mark input.now.rest.now }
{
    let mut after = *input;
    match after.byte() {
        Ok(0x40) => match after.byte() {
            Ok(0x00) => Some(after),
            _ => None,
        },
        _ => None,
    }
}

/// Checks a table.
pub(crate) fn check_table(
    setting: &ModuleContext,
    input: &mut Input<'_>,
    scratch: &mut Scratch,
) -> Result<(), ModuleError>
    ensures same_end { input.new.end ≡ input.old.end }
    ensures is { GivesUnlessMemory (λ _. (tt, input.new.rest.now)) result
        (table_rule (read_setting setting.now) input.old.end input.old.rest.now) }
{
    match after_mark(input) {
        Some(after) => {
            *input = after;
            check_initialized(setting, input, scratch)
        }
        None => check_uninitialized(&setting.context, input),
    }
}
