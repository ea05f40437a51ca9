//! The types of imports and of element segments (WebAssembly core specification 3.0, binary format, modules).

ghost use Rattle.std.specs.Prelude.{◌≡◌};
ghost use Rattle.wasm_context.specs.Contexts.{address_of};
ghost use Rattle.wasm_numbers.specs.Results.{Gives};
ghost use Rattle.wasm_sections.specs.Format.{import_kind, element_offset_part};
ghost use Rattle.wasm_sections.specs.Parts.{checked, one_byte, ◌>=>◌};
ghost use Rattle.module_context.specs.DeclaredItems.{import_type_of, import_type_part, function_reference_type, reference_of, element_reference_part, segment_type_part};
ghost use Rattle.module_context.specs.ModuleContexts.{address_type};

use wasm_context::{AddressType, RawRefType};
use wasm_operators::RawValType;
use wasm_sections::{GlobalType, Input, Limits, ModuleError, ModuleFault, TableType};
use wasm_types::{AbstractHeapType, HeapType, RefType, ValType};

/// The type of an import ("externtype").
#[derive(Clone, Copy)]
pub enum ImportType {
    /// A function, with the index of its type.
    Function(u32),
    /// A table.
    Table(TableType),
    /// A memory, with its limits.
    Memory(Limits),
    /// A global.
    Global(GlobalType),
    /// A tag, with the index of its type.
    Tag(u32),
}

/// What is imported, without its names.
fn external_type(input: &mut Input<'_>) -> Result<ImportType, ModuleError>
    ensures same_end { input.new.end ≡ input.old.end }
    ensures is { Gives (λ ty. (ty, input.new.rest.now)) result
        ((checked one_byte import_kind >=> import_type_of) input.old.end input.old.rest.now) }
{
    let begin = *input;
    match input.byte()? {
        0 => {
            let ty = input.number()?;
            Ok(ImportType::Function(ty))
        }
        1 => {
            let ty = input.table_type()?;
            Ok(ImportType::Table(ty))
        }
        2 => {
            let limits = input.limits()?;
            Ok(ImportType::Memory(limits))
        }
        3 => {
            let ty = input.global_type()?;
            Ok(ImportType::Global(ty))
        }
        4 => {
            let ty = input.tag()?;
            Ok(ImportType::Tag(ty))
        }
        _ => Err(begin.fault(ModuleFault::BadImportKind)),
    }
}

/// The type of an import; its names are passed.
pub fn import_type(input: &mut Input<'_>) -> Result<ImportType, ModuleError>
    ensures same_end { input.new.end ≡ input.old.end }
    ensures is { Gives (λ ty. (ty, input.new.rest.now)) result (import_type_part input.old.end
        input.old.rest.now) }
{
    input.name()?;
    input.name()?;
    external_type(input)
}

/// The type of references to functions.
fn function_reference_type(nullable: bool) -> RawRefType
    ensures { result ≡ function_reference_type nullable }
{
    RefType {
        nullable,
        heap_type: HeapType::Abstract(AbstractHeapType::Func),
    }
}

/// The reference type that a value type is.
pub(crate) fn reference_of(ty: RawValType) -> RawRefType
    ensures { result ≡ reference_of ty }
{
    match ty {
        ValType::Ref(reference) => reference,
        _ => function_reference_type(true),
    }
}

/// The type of an address.
pub(crate) fn address_type(is_64: bool) -> AddressType
    ensures { address_of result ≡ address_type is_64 }
{
    if is_64 {
        AddressType::Address64
    } else {
        AddressType::Address32
    }
}

/// The type of the elements of a segment with these flags, which follows its offset.
pub fn element_reference(input: &mut Input<'_>, flags: u32) -> Result<RawRefType, ModuleError>
    ensures same_end { input.new.end ≡ input.old.end }
    ensures is { Gives (λ ty. (ty, input.new.rest.now)) result (element_reference_part flags
        input.old.end input.old.rest.now) }
{
    if flags % 4 == 0 {
        return Ok(function_reference_type(flags >= 4));
    }
    if flags >= 4 {
        return match input.reference_type() {
            Ok(ty) => Ok(reference_of(ty)),
            Err(error) => Err(error),
        };
    }
    let begin = *input;
    match input.byte() {
        Ok(0) => Ok(function_reference_type(false)),
        Ok(_) => Err(begin.fault(ModuleFault::BadElementKind)),
        Err(error) => Err(error),
    }
}

/// Reads past the offset of a segment with these flags, if it has one.
fn pass_offset(input: &mut Input<'_>, flags: u32) -> Result<(), ModuleError>
    ensures same_end { input.new.end ≡ input.old.end }
    ensures is { Gives (λ _. (tt, input.new.rest.now)) result (element_offset_part flags
        input.old.end input.old.rest.now) }
{
    if flags % 2 != 0 {
        return Ok(());
    }
    match input.constant() {
        Ok(_) => Ok(()),
        Err(error) => Err(error),
    }
}

/// The type of the elements of a segment, which is passed.
pub(crate) fn segment_type(input: &mut Input<'_>) -> Result<RawRefType, ModuleError>
    ensures same_end { input.new.end ≡ input.old.end }
    ensures is { Gives (λ ty. (ty, input.new.rest.now)) result (segment_type_part input.old.end
        input.old.rest.now) }
{
    let flags = match input.element_flags() {
        Ok(flags) => flags,
        Err(error) => return Err(error),
    };
    match pass_offset(input, flags) {
        Ok(()) => {}
        Err(error) => return Err(error),
    }
    let reference = match element_reference(input, flags) {
        Ok(reference) => reference,
        Err(error) => return Err(error),
    };
    match input.elements(flags >= 4) {
        Ok(()) => Ok(reference),
        Err(error) => Err(error),
    }
}
