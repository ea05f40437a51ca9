//! Types whose indices are translated.
ghost use Rattle.std.specs.Prelude.{◌≡◌};
ghost use Rattle.wasm_body.specs.Translation.{translate_heap, translate_value};

use crate::translate::Translate;
use walrus_ir::{HeapType, RefType, ValType};
use wasm_operators::{RawHeapType, RawValType, Space};

/// A heap type with the number for the index of its type, if it names one.
pub(crate) fn heap_type<T: Translate>(with: &T, ty: RawHeapType) -> Result<RawHeapType, T::Fault>
    ensures { result ≡ translate_heap (T.changes with.now).index ty }
{
    match ty {
        HeapType::Abstract(ty) => Ok(HeapType::Abstract(ty)),
        HeapType::Concrete(index) => match with.index(Space::Types, index) {
            Ok(number) => Ok(HeapType::Concrete(number)),
            Err(fault) => Err(fault),
        },
    }
}

/// A value type with the number for the index of its type, if it names one.
pub(crate) fn value_type<T: Translate>(with: &T, ty: RawValType) -> Result<RawValType, T::Fault>
    ensures { result ≡ translate_value (T.changes with.now).index ty }
{
    match ty {
        ValType::I32 => Ok(ValType::I32),
        ValType::I64 => Ok(ValType::I64),
        ValType::F32 => Ok(ValType::F32),
        ValType::F64 => Ok(ValType::F64),
        ValType::V128 => Ok(ValType::V128),
        ValType::Ref(
            RefType {
                nullable,
                heap_type: referent,
            },
        ) => match heap_type(with, referent) {
            Ok(heap_type) => Ok(ValType::Ref(RefType {
                nullable,
                heap_type,
            })),
            Err(fault) => Err(fault),
        },
    }
}
