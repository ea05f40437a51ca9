//! The types of tables, globals, tags and imports (WebAssembly core specification 3.0, validation, types).
ghost use Rattle.std.specs.Prelude.{◌≡◌};
ghost use Rattle.wasm_context.specs.Contexts.{without_locals};
ghost use Rattle.module_context.specs.declared.items.ImportType.TheVariants.{Function};
ghost use Rattle.module_validator.specs.ModuleRules.{value_rule, table_type_rule, global_type_rule, is_empty_list, tag_rule, import_rule};

use crate::faults::only_if;
use crate::limits::{are_within, check_memory, most_elements};
use module_context::ImportType;
use module_context::faults::{INVALID_LIMITS, INVALID_TYPE, TAG_RESULTS};
use wasm_context::Context;
use wasm_ops::RawValType;
use wasm_sections::{GlobalType, ModuleFault, TableType};

/// `INVALID_TYPE` if a value type names a type that isn't there.
pub(crate) fn check_value(context: &Context, ty: RawValType) -> Result<(), ModuleFault>
    ensures { result ≡ value_rule (without_locals context.now) ty }
{
    only_if(context.is_valid_value(ty), INVALID_TYPE)
}

/// `INVALID_LIMITS` if a table can't have these limits, or is shared; `INVALID_TYPE`, as for a value.
pub(crate) fn check_table_type(context: &Context, ty: TableType) -> Result<(), ModuleFault>
    ensures { result ≡ table_type_rule (without_locals context.now) ty }
{
    let limits = ty.limits;
    if !limits.is_shared && are_within(most_elements(limits.is_64), limits) {
        check_value(context, ty.element)
    } else {
        Err(INVALID_LIMITS)
    }
}

/// `INVALID_TYPE`, as for a value.
pub(crate) fn check_global_type(context: &Context, ty: GlobalType) -> Result<(), ModuleFault>
    ensures { result ≡ global_type_rule (without_locals context.now) ty }
{
    check_value(context, ty.value)
}

/// Whether there are no types in a list.
pub(crate) fn is_empty(types: &[RawValType]) -> bool
    ensures { result ≡ is_empty_list types.now }
{
    match types {
        [] => true,
        _ => false,
    }
}

/// `INVALID_TYPE` if no function type has this index; `TAG_RESULTS` if it has results.
pub(crate) fn check_tag(context: &Context, ty: u32) -> Result<(), ModuleFault>
    ensures { result ≡ tag_rule (without_locals context.now) ty }
{
    match context.function_type(ty) {
        Some((_, results)) => only_if(is_empty(results), TAG_RESULTS),
        None => Err(INVALID_TYPE),
    }
}

/// `INVALID_TYPE` if no function type has this index.
fn check_function(context: &Context, ty: u32) -> Result<(), ModuleFault>
    ensures { result ≡ import_rule (without_locals context.now) (Function ty) }
{
    match context.function_type(ty) {
        Some(_) => Ok(()),
        None => Err(INVALID_TYPE),
    }
}

/// Checks the type of an import.
pub(crate) fn check_import(context: &Context, ty: ImportType) -> Result<(), ModuleFault>
    ensures { result ≡ import_rule (without_locals context.now) ty }
{
    match ty {
        ImportType::Function(ty) => check_function(context, ty),
        ImportType::Table(ty) => check_table_type(context, ty),
        ImportType::Memory(limits) => check_memory(limits),
        ImportType::Global(ty) => check_global_type(context, ty),
        ImportType::Tag(ty) => check_tag(context, ty),
    }
}
