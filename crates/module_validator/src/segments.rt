//! Element and data segments (WebAssembly core specification 3.0, validation, modules).
ghost use Rattle.std.specs.Prelude.{◌≡◌, option_map, nat_le};
ghost use Rattle.wasm_numbers.specs.Results.{Gives};
ghost use Rattle.wasm_context.specs.Contexts.{without_locals, table_of};
ghost use Rattle.wasm_sections.specs.Parts.{checked, number, repeated, ◌>=>◌, GivesUnlessMemory};
ghost use Rattle.module_context.specs.DeclaredItems.{element_reference_part};
ghost use Rattle.module_context.specs.ReadContexts.{read_setting};
ghost use Rattle.module_validator.specs.Checks.{function_rule, elements_rule, after_offset_rule, after_flags_rule};
ghost use Rattle.module_validator.specs.ModuleRules.{active_offset_rule, offset_rule, table_takes, segment_type_rule, element_rule, index_if, element_segment_rule, data_offset_rule, data_segment_rule};

use crate::constant::check_segment_constant;
use crate::faults::{only_if, placed};
use crate::scratch::Scratch;
use crate::types::check_value;
use module_context::faults::SEGMENT_TYPE;
use module_context::{ModuleContext, element_reference};
use wasm_context::{AddressType, Context, RawRefType, TableType};
use wasm_ops::Space;
use wasm_sections::{Input, ModuleError, ModuleFault};
use wasm_types::ValType;

/// An index, if it is there, and else 0.
fn index_if(input: &mut Input<'_>, is_there: bool) -> Result<u32, ModuleError>
    ensures same_end { input.new.end ≡ input.old.end }
    ensures is { Gives (λ index. (index, input.new.rest.now)) result (index_if is_there
        input.old.end input.old.rest.now) }
{
    if is_there { input.number() } else { Ok(0) }
}

/// Checks the offset of an active segment of this table. Returns the type of the table.
fn check_active_offset(
    setting: &ModuleContext,
    table: u32,
    input: &mut Input<'_>,
    scratch: &mut Scratch,
) -> Result<Option<TableType>, ModuleError>
    ensures same_end { input.new.end ≡ input.old.end }
    ensures is { GivesUnlessMemory (λ ty. (option_map table_of ty, input.new.rest.now)) result
        (active_offset_rule (read_setting setting.now) table input.old.end input.old.rest.now) }
{
    let Some(ty) = setting.context.table(table) else {
        return Err(input.fault(ModuleFault::IndexOutOfRange {
            space: Space::Tables,
            index: table,
        }));
    };
    match check_segment_constant(setting, ty.address.value(), input, scratch) {
        Ok(()) => Ok(Some(ty)),
        Err(error) => Err(error),
    }
}

/// Checks the offset of a segment with these flags, if it is active. Returns the type of its table.
fn check_offset(
    setting: &ModuleContext,
    flags: u32,
    table: u32,
    input: &mut Input<'_>,
    scratch: &mut Scratch,
) -> Result<Option<TableType>, ModuleError>
    ensures same_end { input.new.end ≡ input.old.end }
    ensures is { GivesUnlessMemory (λ ty. (option_map table_of ty, input.new.rest.now)) result
        (offset_rule (read_setting setting.now) flags table input.old.end input.old.rest.now) }
{
    if flags % 2 == 0 {
        check_active_offset(setting, table, input, scratch)
    } else {
        Ok(None)
    }
}

/// `SEGMENT_TYPE` if references of this type don't match the elements of the table, if there is one.
fn check_taken(
    context: &Context,
    table: Option<TableType>,
    ty: RawRefType,
) -> Result<(), ModuleFault>
    ensures { Gives (λ _. ty) result (table_takes (without_locals context.now)
        (option_map table_of table) ty) }
{
    match table {
        Some(table) => only_if(context.matches_reference(ty, table.element), SEGMENT_TYPE),
        None => Ok(()),
    }
}

/// The same, and `INVALID_TYPE`, as for a value.
fn check_segment_type(
    context: &Context,
    table: Option<TableType>,
    ty: RawRefType,
) -> Result<(), ModuleFault>
    ensures { Gives (λ _. ty) result (segment_type_rule (without_locals context.now)
        (option_map table_of table) ty) }
{
    match check_value(context, ValType::Ref(ty)) {
        Ok(()) => check_taken(context, table, ty),
        Err(fault) => Err(fault),
    }
}

/// The type of the elements of a segment with these flags, which is valid and which the table takes.
fn segment_type(
    context: &Context,
    flags: u32,
    table: Option<TableType>,
    input: &mut Input<'_>,
) -> Result<RawRefType, ModuleError>
    ensures same_end { input.new.end ≡ input.old.end }
    ensures is { Gives (λ ty. (ty, input.new.rest.now)) result (checked
        (element_reference_part flags) (segment_type_rule (without_locals context.now)
        (option_map table_of table)) input.old.end input.old.rest.now) }
{
    let begin = *input;
    let ty = match element_reference(input, flags) {
        Ok(ty) => ty,
        Err(error) => return Err(error),
    };
    match check_segment_type(context, table, ty) {
        Ok(()) => Ok(ty),
        Err(fault) => Err(begin.fault(fault)),
    }
}

/// Reads past the index of a function; `IndexOutOfRange` if no function has it.
fn check_function_index(context: &Context, input: &mut Input<'_>) -> Result<(), ModuleError>
    ensures same_end { input.new.end ≡ input.old.end }
    ensures is { Gives (λ _. (tt, input.new.rest.now)) result (checked number
        (function_rule (without_locals context.now)) input.old.end input.old.rest.now) }
{
    let begin = *input;
    let index = match input.number() {
        Ok(index) => index,
        Err(error) => return Err(error),
    };
    match context.function_of(index) {
        Some(_) => Ok(()),
        None => Err(begin.fault(ModuleFault::IndexOutOfRange {
            space: Space::Funcs,
            index,
        })),
    }
}

/// Checks an element of this type: an expression, or the index of a function.
fn check_element(
    setting: &ModuleContext,
    is_expression: bool,
    ty: RawRefType,
    input: &mut Input<'_>,
    scratch: &mut Scratch,
) -> Result<(), ModuleError>
    ensures same_end { input.new.end ≡ input.old.end }
    ensures is { GivesUnlessMemory (λ _. (tt, input.new.rest.now)) result (element_rule
        (read_setting setting.now) is_expression ty input.old.end input.old.rest.now) }
{
    if is_expression {
        check_segment_constant(setting, ValType::Ref(ty), input, scratch)
    } else {
        check_function_index(&setting.context, input)
    }
}

/// Checks the elements of a segment.
fn check_elements(
    setting: &ModuleContext,
    are_expressions: bool,
    ty: RawRefType,
    input: &mut Input<'_>,
    scratch: &mut Scratch,
) -> Result<(), ModuleError>
    ensures same_end { input.new.end ≡ input.old.end }
    ensures is { GivesUnlessMemory (λ _. (tt, input.new.rest.now)) result
        (elements_rule (read_setting setting.now) are_expressions ty input.old.end
        input.old.rest.now) }
{
    let count = match input.number() {
        Ok(count) => count,
        Err(error) => return Err(error),
    };
    'elements: for _ in 0..count {
        match check_element(setting, are_expressions, ty, input, scratch) {
            Ok(()) => {}
            Err(error) => return Err(error),
        }
    }
    Ok(())
}

/// Checks what follows the offset of a segment with these flags.
fn check_after_offset(
    setting: &ModuleContext,
    flags: u32,
    table: Option<TableType>,
    input: &mut Input<'_>,
    scratch: &mut Scratch,
) -> Result<(), ModuleError>
    ensures same_end { input.new.end ≡ input.old.end }
    ensures is { GivesUnlessMemory (λ _. (tt, input.new.rest.now)) result
        (after_offset_rule (read_setting setting.now) flags (option_map table_of table)
        input.old.end input.old.rest.now) }
{
    match segment_type(&setting.context, flags, table, input) {
        Ok(ty) => check_elements(setting, flags >= 4, ty, input, scratch),
        Err(error) => Err(error),
    }
}

/// Checks what follows the flags of an element segment.
fn check_after_flags(
    setting: &ModuleContext,
    flags: u32,
    input: &mut Input<'_>,
    scratch: &mut Scratch,
) -> Result<(), ModuleError>
    ensures same_end { input.new.end ≡ input.old.end }
    ensures is { GivesUnlessMemory (λ _. (tt, input.new.rest.now)) result
        (after_flags_rule (read_setting setting.now) flags input.old.end input.old.rest.now) }
{
    let index = match index_if(input, flags % 4 == 2) {
        Ok(index) => index,
        Err(error) => return Err(error),
    };
    match check_offset(setting, flags, index, input, scratch) {
        Ok(table) => check_after_offset(setting, flags, table, input, scratch),
        Err(error) => Err(error),
    }
}

/// Checks an element segment.
pub(crate) fn check_element_segment(
    setting: &ModuleContext,
    input: &mut Input<'_>,
    scratch: &mut Scratch,
) -> Result<(), ModuleError>
    ensures same_end { input.new.end ≡ input.old.end }
    ensures is { GivesUnlessMemory (λ _. (tt, input.new.rest.now)) result
        (element_segment_rule (read_setting setting.now) input.old.end input.old.rest.now) }
{
    match input.segment_flags(7) {
        Ok(flags) => check_after_flags(setting, flags, input, scratch),
        Err(error) => Err(error),
    }
}

/// Checks the offset of an active data segment of this memory.
fn check_memory_offset(
    setting: &ModuleContext,
    memory: u32,
    input: &mut Input<'_>,
    scratch: &mut Scratch,
) -> Result<(), ModuleError>
    ensures same_end { input.new.end ≡ input.old.end }
    ensures is { GivesUnlessMemory (λ _. (tt, input.new.rest.now)) result
        (data_offset_rule (read_setting setting.now) 0 memory input.old.end input.old.rest.now) }
{
    match setting.context.memory(memory) {
        Some(address) => check_segment_constant(setting, address.value(), input, scratch),
        None => Err(input.fault(ModuleFault::IndexOutOfRange {
            space: Space::Memories,
            index: memory,
        })),
    }
}

/// Checks the offset of a data segment with these flags, if it has one.
fn check_data_offset(
    setting: &ModuleContext,
    flags: u32,
    memory: u32,
    input: &mut Input<'_>,
    scratch: &mut Scratch,
) -> Result<(), ModuleError>
    ensures same_end { input.new.end ≡ input.old.end }
    ensures is { GivesUnlessMemory (λ _. (tt, input.new.rest.now)) result
        (data_offset_rule (read_setting setting.now) flags memory input.old.end
        input.old.rest.now) }
{
    if flags == 1 {
        Ok(())
    } else {
        check_memory_offset(setting, memory, input, scratch)
    }
}

/// Checks a data segment.
pub(crate) fn check_data_segment(
    setting: &ModuleContext,
    input: &mut Input<'_>,
    scratch: &mut Scratch,
) -> Result<(), ModuleError>
    ensures same_end { input.new.end ≡ input.old.end }
    ensures is { GivesUnlessMemory (λ _. (tt, input.new.rest.now)) result
        (data_segment_rule (read_setting setting.now) input.old.end input.old.rest.now) }
{
    let flags = match input.segment_flags(2) {
        Ok(flags) => flags,
        Err(error) => return Err(error),
    };
    let memory = match index_if(input, flags == 2) {
        Ok(memory) => memory,
        Err(error) => return Err(error),
    };
    match check_data_offset(setting, flags, memory, input, scratch) {
        Ok(()) => {}
        Err(error) => return Err(error),
    }
    match input.bytes() {
        Ok(_) => Ok(()),
        Err(error) => Err(error),
    }
}
