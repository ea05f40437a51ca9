//! Writing types (WebAssembly core specification 3.0, binary format, types).

ghost use Rattle.std.specs.Prelude.{◌≡◌, ◌++◌, OnOk, take, length};
ghost use Rattle.wasm_operators.specs.Shortest.{heap_byte as byte_of_heap, short_heap, short_reference, short_value, short_block};

use crate::number::{write_byte, write_integer};
use std::alloc::AllocError;
use wasm_operators::{BlockType, RawHeapType, RawValType};
use wasm_types::AbstractHeapType;

/// The byte of an abstract heap type.
fn heap_byte(heap: AbstractHeapType) -> u8
    ensures { result ≡ byte_of_heap heap }
{
    match heap {
        AbstractHeapType::NoExn => 0x74,
        AbstractHeapType::NoFunc => 0x73,
        AbstractHeapType::NoExtern => 0x72,
        AbstractHeapType::None => 0x71,
        AbstractHeapType::Func => 0x70,
        AbstractHeapType::Extern => 0x6f,
        AbstractHeapType::Any => 0x6e,
        AbstractHeapType::Eq => 0x6d,
        AbstractHeapType::I31 => 0x6c,
        AbstractHeapType::Struct => 0x6b,
        AbstractHeapType::Array => 0x6a,
        AbstractHeapType::Exn => 0x69,
    }
}

/// Appends a heap type.
pub(crate) fn write_heap_type(out: &mut Vec<u8>, heap: RawHeapType) -> Result<(), AllocError>
    ensures ok { OnOk result (out.new.items ≡ out.old.items ++ short_heap heap) }
    ensures unchanged { take (length out.old.items) out.new.items ≡ out.old.items }
{
    match heap {
        RawHeapType::Abstract(heap) => write_byte(out, heap_byte(heap)),
        RawHeapType::Concrete(index) => write_integer(out, index as i64),
    }
}

/// Appends a reference type. A nullable reference to an abstract heap type is written as one byte.
#[tactic(auto, using(crate::proofs::Appending::appending))]
fn write_reference(out: &mut Vec<u8>, nullable: bool, heap: RawHeapType) -> Result<(), AllocError>
    ensures ok { OnOk result (out.new.items ≡ out.old.items ++ short_reference nullable heap) }
    ensures unchanged { take (length out.old.items) out.new.items ≡ out.old.items }
{
    if !nullable {
        write_byte(out, 0x64)?;
        return write_heap_type(out, heap);
    }
    match heap {
        RawHeapType::Abstract(heap) => write_byte(out, heap_byte(heap)),
        RawHeapType::Concrete(index) => {
            write_byte(out, 0x63)?;
            write_integer(out, index as i64)
        }
    }
}

/// Appends the shortest bytes of a value type (WebAssembly core specification 3.0, binary format,
/// value types).
///
/// # Errors
///
/// `AllocError` if memory runs out: the bytes before stay, and some of the type may follow them.
pub fn write_value_type(out: &mut Vec<u8>, ty: RawValType) -> Result<(), AllocError>
    ensures ok { OnOk result (out.new.items ≡ out.old.items ++ short_value ty) }
    ensures unchanged { take (length out.old.items) out.new.items ≡ out.old.items }
{
    match ty {
        RawValType::I32 => write_byte(out, 0x7f),
        RawValType::I64 => write_byte(out, 0x7e),
        RawValType::F32 => write_byte(out, 0x7d),
        RawValType::F64 => write_byte(out, 0x7c),
        RawValType::V128 => write_byte(out, 0x7b),
        RawValType::Ref(reference) => write_reference(out, reference.nullable, reference.heap_type),
    }
}

/// Appends a block type.
pub(crate) fn write_block_type(out: &mut Vec<u8>, ty: BlockType) -> Result<(), AllocError>
    ensures ok { OnOk result (out.new.items ≡ out.old.items ++ short_block ty) }
    ensures unchanged { take (length out.old.items) out.new.items ≡ out.old.items }
{
    match ty {
        BlockType::Empty => write_byte(out, 0x40),
        BlockType::Value(ty) => write_value_type(out, ty),
        BlockType::FuncType(index) => write_integer(out, index as i64),
    }
}
