//! Keys of groups of types: numbers that two groups share if and only if they are equal.
ghost use Rattle.std.specs.Prelude.{◌≡◌, ◌++◌, ◌<◌, ◌^◌, length, map, OnOk, IfOk};
ghost use Rattle.wasm_types.specs.TypeOrder.{rank_of, nullable_rank};
ghost use Rattle.wasm_context.specs.Contexts.{composite_in, field_of, storage_of};
ghost use Rattle.wasm_context.specs.Declarations.{declared_of, firsts_in, id_key, heap_key, value_key, storage_key, field_key, each_key, composite_key, supertype_key, declared_key, group_key};

use crate::declared_type::DeclaredType;
use crate::types::{CompositeType, DefinedType, FieldType, StorageType};
use std::alloc::{AllocError, Global};
use wasm_operators::{RawHeapType, RawValType};
use wasm_types::{AbstractHeapType, HeapType, ValType};

/// The number of an abstract heap type.
fn rank(heap: AbstractHeapType) -> u32
    ensures { result ≡ rank_of heap }
{
    match heap {
        AbstractHeapType::NoExn => 0,
        AbstractHeapType::NoFunc => 1,
        AbstractHeapType::NoExtern => 2,
        AbstractHeapType::None => 3,
        AbstractHeapType::Func => 4,
        AbstractHeapType::Extern => 5,
        AbstractHeapType::Any => 6,
        AbstractHeapType::Eq => 7,
        AbstractHeapType::I31 => 8,
        AbstractHeapType::Struct => 9,
        AbstractHeapType::Array => 10,
        AbstractHeapType::Exn => 11,
    }
}

/// The number of a truth value.
fn bool_number(flag: bool) -> u32
    ensures { result ≡ nullable_rank flag }
{
    if flag { 1 } else { 0 }
}

/// Appends the key of an index, where these types are those before the group: one of these by the first index of
/// the same type, another one by its position after these.
fn push_id(types: &[DefinedType], index: u32, key: &mut Vec<u32>) -> Result<(), AllocError>
    ensures { OnOk result
        (key.new.items ≡ key.old.items ++ id_key (firsts_in types.now) index) }
{
    match types.get(index as usize) {
        Some(ty) => key.extend_from_slice(&[1, ty.first]),
        None => key.extend_from_slice(&[0, index - types.len() as u32]),
    }
}

/// Appends the key of a heap type.
fn push_heap(types: &[DefinedType], heap: RawHeapType, key: &mut Vec<u32>) -> Result<(), AllocError>
    ensures { OnOk result
        (key.new.items ≡ key.old.items ++ heap_key (firsts_in types.now) heap) }
{
    match heap {
        HeapType::Abstract(kind) => key.extend_from_slice(&[2, rank(kind)]),
        HeapType::Concrete(index) => push_id(types, index, key),
    }
}

/// Appends the key of a value type.
fn push_value(types: &[DefinedType], ty: RawValType, key: &mut Vec<u32>) -> Result<(), AllocError>
    ensures { OnOk result
        (key.new.items ≡ key.old.items ++ value_key (firsts_in types.now) ty) }
{
    match ty {
        ValType::I32 => key.extend_from_slice(&[0]),
        ValType::I64 => key.extend_from_slice(&[1]),
        ValType::F32 => key.extend_from_slice(&[2]),
        ValType::F64 => key.extend_from_slice(&[3]),
        ValType::V128 => key.extend_from_slice(&[4]),
        ValType::Ref(reference) => {
            key.extend_from_slice(&[5, bool_number(reference.nullable)])?;
            push_heap(types, reference.heap_type, key)
        }
    }
}

/// Appends the keys of value types, each after a 1, and a 0.
fn push_values(
    types: &[DefinedType],
    values: &[RawValType],
    key: &mut Vec<u32>,
) -> Result<(), AllocError>
    ensures { OnOk result (key.new.items
        ≡ key.old.items ++ each_key (value_key (firsts_in types.now)) values.now) }
{
    for value in values {
        key.push(1)?;
        push_value(types, *value, key)?;
    }
    key.push(0)?;
    Ok(())
}

/// Appends the key of a field.
fn push_field(types: &[DefinedType], field: FieldType, key: &mut Vec<u32>) -> Result<(), AllocError>
    ensures { OnOk result
        (key.new.items ≡ key.old.items ++ field_key (firsts_in types.now) (field_of field)) }
{
    key.push(bool_number(field.mutable))?;
    match field.storage {
        StorageType::I8 => key.extend_from_slice(&[0]),
        StorageType::I16 => key.extend_from_slice(&[1]),
        StorageType::Value(ty) => {
            key.push(2)?;
            push_value(types, ty, key)
        }
    }
}

/// Appends the keys of fields, each after a 1, and a 0.
fn push_fields(
    types: &[DefinedType],
    fields: &[FieldType],
    key: &mut Vec<u32>,
) -> Result<(), AllocError>
    ensures { OnOk result (key.new.items
        ≡ key.old.items ++ each_key (field_key (firsts_in types.now)) (map field_of fields.now)) }
{
    for field in fields {
        key.push(1)?;
        push_field(types, *field, key)?;
    }
    key.push(0)?;
    Ok(())
}

/// Appends the key of what a type is.
fn push_composite(
    types: &[DefinedType],
    composite: &CompositeType,
    key: &mut Vec<u32>,
) -> Result<(), AllocError>
    ensures { OnOk result (key.new.items
        ≡ key.old.items ++ composite_key (firsts_in types.now) (composite_in composite.now)) }
{
    match composite {
        CompositeType::Function { params, results } => {
            key.push(0)?;
            push_values(types, params, key)?;
            push_values(types, results, key)
        }
        CompositeType::Struct(fields) => {
            key.push(1)?;
            push_fields(types, fields, key)
        }
        CompositeType::Array(element) => {
            key.push(2)?;
            push_field(types, *element, key)
        }
    }
}

/// Appends the key of a declared type.
fn push_declared(
    types: &[DefinedType],
    declared: &DeclaredType,
    key: &mut Vec<u32>,
) -> Result<(), AllocError>
    ensures { OnOk result (key.new.items
        ≡ key.old.items ++ declared_key (firsts_in types.now) (declared_of declared.now)) }
{
    key.push(bool_number(declared.is_final))?;
    match declared.supertype {
        Some(index) => push_id(types, index, key)?,
        None => key.push(2)?,
    }
    push_composite(types, &declared.composite, key)
}

/// The key of a group of types after these.
pub(crate) fn group_key(
    alloc: Global,
    types: &[DefinedType],
    group: &[DeclaredType],
) -> Result<Vec<u32>, AllocError>
    requires { length group.now < 2 ^ 32 }
    ensures { IfOk result
        (λ key. key.items ≡ group_key (firsts_in types.now) (map declared_of group.now)) }
{
    let mut key = Vec::new(alloc);
    key.push(group.len() as u32)?;
    for declared in group {
        key.push(1)?;
        push_declared(types, declared, &mut key)?;
    }
    key.push(0)?;
    Ok(key)
}
