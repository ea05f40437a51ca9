//! Types as they are declared, and which types of the module they name.
ghost use Rattle.std.specs.Prelude.{◌≡◌, map};
ghost use Rattle.std.specs.List.{list_all};
ghost use Rattle.wasm_context.specs.Contexts.{composite_in, field_of};
ghost use Rattle.wasm_context.specs.ValidTypes.{value_within, field_within, composite_within};
ghost use Rattle.wasm_context.specs.Declarations.{declared_of, supertype_within, declared_within};

use crate::types::{CompositeType, FieldType, StorageType};
use wasm_operators::RawValType;
use wasm_types::{HeapType, ValType};

/// A type as it is declared.
#[derive(Drop)]
pub struct DeclaredType {
    /// Whether no type may declare it as its supertype.
    pub is_final: bool,
    /// The index of the type that it declares as its supertype, if it declares one.
    pub supertype: Option<u32>,
    /// What it is.
    pub composite: CompositeType,
}

/// Whether the index of the type that a value type names, if it names one, is below this one.
fn value_below(ty: RawValType, end: u32) -> bool
    ensures { value_within end ty ≡ result }
{
    match ty {
        ValType::Ref(reference) => match reference.heap_type {
            HeapType::Abstract(_) => true,
            HeapType::Concrete(index) => index < end,
        },
        _ => true,
    }
}

/// The same of all value types of a list.
fn values_below(types: &[RawValType], end: u32) -> bool
    ensures { list_all (value_within end) types.now ≡ result }
{
    for ty in types {
        if !value_below(*ty, end) {
            return false;
        }
    }
    true
}

/// The same of a field.
fn field_below(field: FieldType, end: u32) -> bool
    ensures { field_within end (field_of field) ≡ result }
{
    match field.storage {
        StorageType::Value(ty) => value_below(ty, end),
        _ => true,
    }
}

/// The same of all fields.
fn fields_below(fields: &[FieldType], end: u32) -> bool
    ensures { list_all (field_within end) (map field_of fields.now) ≡ result }
{
    for field in fields {
        if !field_below(*field, end) {
            return false;
        }
    }
    true
}

/// The same of what a type is.
fn composite_below(composite: &CompositeType, end: u32) -> bool
    ensures { composite_within end (composite_in composite.now) ≡ result }
{
    match composite {
        CompositeType::Function { params, results } => {
            values_below(params, end) && values_below(results, end)
        }
        CompositeType::Struct(fields) => fields_below(fields, end),
        CompositeType::Array(element) => field_below(*element, end),
    }
}

/// Whether the indices of all types that the declarations name are below this one.
pub fn are_below(types: &[DeclaredType], end: u32) -> bool
    ensures { list_all (declared_within end) (map declared_of types.now) ≡ result }
{
    for ty in types {
        if !is_below(ty, end) {
            return false;
        }
    }
    true
}

/// The same of a declared type.
fn is_below(ty: &DeclaredType, end: u32) -> bool
    ensures { declared_within end (declared_of ty.now) ≡ result }
{
    let supertype_below = match ty.supertype {
        Some(index) => index < end,
        None => true,
    };
    supertype_below && composite_below(&ty.composite, end)
}
