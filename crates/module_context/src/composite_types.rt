//! Composite types, and types as they are declared (WebAssembly core specification 3.0, binary format, types).

ghost use Rattle.std.specs.Prelude.{◌≡◌, map};
ghost use Rattle.wasm_numbers.specs.Results.{Gives};
ghost use Rattle.wasm_context.specs.Contexts.{storage_of, field_of, composite_in};
ghost use Rattle.wasm_context.specs.Declarations.{declared_of};
ghost use Rattle.wasm_sections.specs.Format.{value_part};
ghost use Rattle.wasm_sections.specs.Parts.{checked, number, vector_of, GivesUnlessMemory};
ghost use Rattle.module_context.specs.TypeSections.{storage_type_part, field_type_part, function_lists_part, composite_type_part, only_supertype, subtype_with, declared_type_part};

use crate::faults::INVALID_TYPE;
use std::alloc::Global;
use wasm_context::{CompositeType, DeclaredType, FieldType, StorageType};
use wasm_operators::RawValType;
use wasm_ops::ReadFault;
use wasm_sections::{Input, ModuleError, ModuleFault};

/// A vector of value types.
fn value_types(alloc: Global, input: &mut Input<'_>) -> Result<Vec<RawValType>, ModuleError>
    ensures same_end { input.new.end ≡ input.old.end }
    ensures is { GivesUnlessMemory (λ types. (types.items, input.new.rest.now)) result
        (vector_of value_part input.old.end input.old.rest.now) }
{
    let count = match input.number() {
        Ok(count) => count,
        Err(error) => return Err(error),
    };
    let mut types = Vec::new(alloc);
    'types: for _ in 0..count {
        match input.value_type() {
            Ok(ty) => types.push(ty)?,
            Err(error) => return Err(error),
        }
    }
    Ok(types)
}

/// What a field holds: an integer of 8 or 16 bits, or a value.
fn storage_type(input: &mut Input<'_>) -> Result<StorageType, ModuleError>
    ensures same_end { input.new.end ≡ input.old.end }
    ensures is { Gives (λ storage. (storage_of storage, input.new.rest.now)) result
        (storage_type_part input.old.end input.old.rest.now) }
{
    if !matches!(input.rest(), [0x77 | 0x78, ..]) {
        return match input.value_type() {
            Ok(ty) => Ok(StorageType::Value(ty)),
            Err(error) => Err(error),
        };
    }
    match input.byte() {
        Ok(0x78) => Ok(StorageType::I8),
        Ok(_) => Ok(StorageType::I16),
        Err(error) => Err(error),
    }
}

/// The type of a field.
fn field_type(input: &mut Input<'_>) -> Result<FieldType, ModuleError>
    ensures same_end { input.new.end ≡ input.old.end }
    ensures is { Gives (λ field. (field_of field, input.new.rest.now)) result
        (field_type_part input.old.end input.old.rest.now) }
{
    let storage = match storage_type(input) {
        Ok(storage) => storage,
        Err(error) => return Err(error),
    };
    match input.mutability() {
        Ok(mutable) => Ok(FieldType { mutable, storage }),
        Err(error) => Err(error),
    }
}

/// A vector of types of fields.
fn field_types(alloc: Global, input: &mut Input<'_>) -> Result<Vec<FieldType>, ModuleError>
    ensures same_end { input.new.end ≡ input.old.end }
    ensures is { GivesUnlessMemory (λ fields. (map field_of fields.items, input.new.rest.now)) result
        (vector_of field_type_part input.old.end input.old.rest.now) }
{
    let count = match input.number() {
        Ok(count) => count,
        Err(error) => return Err(error),
    };
    let mut fields = Vec::new(alloc);
    'fields: for _ in 0..count {
        match field_type(input) {
            Ok(field) => fields.push(field)?,
            Err(error) => return Err(error),
        }
    }
    Ok(fields)
}

/// The lists of a function type.
fn function_type(alloc: Global, input: &mut Input<'_>) -> Result<CompositeType, ModuleError>
    ensures same_end { input.new.end ≡ input.old.end }
    ensures is { GivesUnlessMemory (λ ty. (composite_in ty, input.new.rest.now)) result
        (function_lists_part input.old.end input.old.rest.now) }
{
    let params = match value_types(alloc, input) {
        Ok(params) => params,
        Err(error) => return Err(error),
    };
    match value_types(alloc, input) {
        Ok(results) => Ok(CompositeType::Function { params, results }),
        Err(error) => Err(error),
    }
}

/// What a type is.
fn composite_type(alloc: Global, input: &mut Input<'_>) -> Result<CompositeType, ModuleError>
    ensures same_end { input.new.end ≡ input.old.end }
    ensures is { GivesUnlessMemory (λ ty. (composite_in ty, input.new.rest.now)) result
        (composite_type_part input.old.end input.old.rest.now) }
{
    let begin = *input;
    match input.byte() {
        Ok(0x60) => function_type(alloc, input),
        Ok(0x5f) => match field_types(alloc, input) {
            Ok(fields) => Ok(CompositeType::Struct(fields)),
            Err(error) => Err(error),
        },
        Ok(0x5e) => match field_type(input) {
            Ok(element) => Ok(CompositeType::Array(element)),
            Err(error) => Err(error),
        },
        Ok(_) => Err(begin.fault(ModuleFault::Read(ReadFault::BadType))),
        Err(error) => Err(error),
    }
}

/// A vector of the supertypes that a type declares: `INVALID_TYPE` if there are more than one.
fn supertype(input: &mut Input<'_>) -> Result<Option<u32>, ModuleError>
    ensures same_end { input.new.end ≡ input.old.end }
    ensures is { Gives (λ index. (index, input.new.rest.now)) result
        (checked (vector_of number) only_supertype input.old.end input.old.rest.now) }
{
    let begin = *input;
    let count = match input.number() {
        Ok(count) => count,
        Err(error) => return Err(error),
    };
    let mut last = None;
    'supertypes: for _ in 0..count {
        match input.number() {
            Ok(index) => last = Some(index),
            Err(error) => return Err(error),
        }
    }
    if count > 1 {
        return Err(begin.fault(INVALID_TYPE));
    }
    Ok(last)
}

/// A declared type, after the byte that says whether it is final.
fn subtype(
    alloc: Global,
    input: &mut Input<'_>,
    is_final: bool,
) -> Result<DeclaredType, ModuleError>
    ensures same_end { input.new.end ≡ input.old.end }
    ensures is { GivesUnlessMemory (λ ty. (declared_of ty, input.new.rest.now)) result
        (subtype_with is_final input.old.end input.old.rest.now) }
{
    let supertype = match supertype(input) {
        Ok(supertype) => supertype,
        Err(error) => return Err(error),
    };
    match composite_type(alloc, input) {
        Ok(composite) => Ok(DeclaredType {
            is_final,
            supertype,
            composite,
        }),
        Err(error) => Err(error),
    }
}

/// A type as it is declared.
pub(crate) fn declared_type(
    alloc: Global,
    input: &mut Input<'_>,
) -> Result<DeclaredType, ModuleError>
    ensures same_end { input.new.end ≡ input.old.end }
    ensures is { GivesUnlessMemory (λ ty. (declared_of ty, input.new.rest.now)) result
        (declared_type_part input.old.end input.old.rest.now) }
{
    if !matches!(input.rest(), [0x4f | 0x50, ..]) {
        return match composite_type(alloc, input) {
            Ok(composite) => Ok(DeclaredType {
                is_final: true,
                supertype: None,
                composite,
            }),
            Err(error) => Err(error),
        };
    }
    match input.byte() {
        Ok(mark) => subtype(alloc, input, mark == 0x4f),
        Err(error) => Err(error),
    }
}
