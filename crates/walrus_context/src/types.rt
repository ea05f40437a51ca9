//! Types in operators, with their old indices looked up.
ghost use Rattle.std.specs.Prelude.{◌≡◌};
ghost use Rattle.wasm_body.specs.Translation.{translate_heap, translate_value};
ghost use Rattle.walrus_context.specs.Placing.{ids_at};

use walrus_ir::{HeapType, RefType, ValType};
use walrus_maps::IndicesToIds;
use wasm_body::ParseError;
use wasm_operators::{RawHeapType, RawValType};

/// A heap type of an instruction: an old index of a type is replaced by the id. The error is
/// `Index` if the index has no id. Allocates nothing.
pub fn heap_type_of(indices: &IndicesToIds, ty: RawHeapType) -> Result<HeapType, ParseError>
    ensures { result ≡ translate_heap (ids_at indices.now) ty }
{
    match ty {
        HeapType::Abstract(ty) => Ok(HeapType::Abstract(ty)),
        HeapType::Concrete(index) => Ok(HeapType::Concrete(indices.get_type(index)?)),
    }
}

/// A value type of an instruction: an old index of a type in it is replaced by the id. The error is
/// `Index` if the index has no id. Allocates nothing.
pub fn value_type(indices: &IndicesToIds, ty: RawValType) -> Result<ValType, ParseError>
    ensures { result ≡ translate_value (ids_at indices.now) ty }
{
    match ty {
        ValType::I32 => Ok(ValType::I32),
        ValType::I64 => Ok(ValType::I64),
        ValType::F32 => Ok(ValType::F32),
        ValType::F64 => Ok(ValType::F64),
        ValType::V128 => Ok(ValType::V128),
        ValType::Ref(
            RefType {
                nullable,
                heap_type,
            },
        ) => match heap_type_of(indices, heap_type) {
            Ok(heap_type) => Ok(ValType::Ref(RefType {
                nullable,
                heap_type,
            })),
            Err(error) => Err(error),
        },
    }
}
