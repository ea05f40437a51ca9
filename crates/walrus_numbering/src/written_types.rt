//! The types in a tree, with the numbers that are written for them.
ghost use Rattle.std.specs.Prelude.{◌≡◌};
ghost use Rattle.wasm_body.specs.Bytes.{numbered_block, numbers_in_32_bits};
ghost use Rattle.wasm_body.specs.Translation.{translate_heap, translate_value};
ghost use Rattle.walrus_numbering.specs.NumberMaps.{numbers_of};

use crate::number_maps::NumberMaps;
use walrus_ir::{HeapType, InstrSeqType, RefType, ValType};
use wasm_body::EmitError;
use wasm_operators::{BlockType, RawHeapType, RawValType};

/// A heap type with the number of its type, if it is one of the module.
pub fn heap_type(numbers: &NumberMaps<'_>, ty: HeapType) -> Result<RawHeapType, EmitError>
    ensures { result
        ≡ translate_heap (numbers_in_32_bits (numbers_of numbers.now)).number_of ty }
{
    match ty {
        HeapType::Abstract(ty) => Ok(HeapType::Abstract(ty)),
        HeapType::Concrete(id) => Ok(HeapType::Concrete(numbers.ids.get_type_index(id)?)),
    }
}

/// A value type with the numbers of its types.
pub fn value_type(numbers: &NumberMaps<'_>, ty: ValType) -> Result<RawValType, EmitError>
    ensures { result
        ≡ translate_value (numbers_in_32_bits (numbers_of numbers.now)).number_of ty }
{
    match ty {
        ValType::I32 => Ok(ValType::I32),
        ValType::I64 => Ok(ValType::I64),
        ValType::F32 => Ok(ValType::F32),
        ValType::F64 => Ok(ValType::F64),
        ValType::V128 => Ok(ValType::V128),
        ValType::Ref(
            RefType {
                nullable,
                heap_type: referent,
            },
        ) => match heap_type(numbers, referent) {
            Ok(heap_type) => Ok(ValType::Ref(RefType {
                nullable,
                heap_type,
            })),
            Err(error) => Err(error),
        },
    }
}

/// The block type of a construct whose sequence has this type.
pub fn block_type(numbers: &NumberMaps<'_>, ty: InstrSeqType) -> Result<BlockType, EmitError>
    ensures { result ≡ numbered_block (numbers_of numbers.now) ty }
{
    match ty {
        InstrSeqType::Simple(ty) => match ty {
            None => Ok(BlockType::Empty),
            Some(ty) => Ok(BlockType::Value(value_type(numbers, ty)?)),
        },
        InstrSeqType::MultiValue(id) => Ok(BlockType::FuncType(numbers.ids.get_type_index(id)?)),
    }
}
