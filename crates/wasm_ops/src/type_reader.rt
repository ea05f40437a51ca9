//! Reading types (WebAssembly core specification 3.0, binary format, types).

ghost use Rattle.std.specs.Prelude.{◌≡◌, ◌||◌, ◌^◌, ◌<ℤ◌, pos, IfSome, Ok};
ghost use Rattle.wasm_numbers.specs.Results.{Gives};
ghost use Rattle.wasm_types.specs.declared.val_type.ValType.TheVariants.{Ref};
ghost use Rattle.wasm_operators.specs.Immediates.{selected};
ghost use Rattle.wasm_operators.specs.Types.{heap_at, value_at, nullable_at};
ghost use Rattle.wasm_operators.specs.Types.{heap_type, value_type, block_type};
ghost use Rattle.wasm_operators.specs.Types.{type_index as type_index_of, starts_value_type as is_value_byte};

use crate::row::made;
use wasm_numbers::{ReadFault, read_signed, read_u32};
use wasm_operators::{BlockType, RawHeapType, RawValType};
use wasm_types::{AbstractHeapType, RefType};

/// The abstract heap type that a byte spells.
#[tactic(auto, unfolding(wasm_operators::specs::Types::heap_at))]
fn heap_of(byte: u8) -> Option<AbstractHeapType>
    ensures { result ≡ heap_at byte }
{
    match byte {
        0x74 => Some(AbstractHeapType::NoExn),
        0x73 => Some(AbstractHeapType::NoFunc),
        0x72 => Some(AbstractHeapType::NoExtern),
        0x71 => Some(AbstractHeapType::None),
        0x70 => Some(AbstractHeapType::Func),
        0x6f => Some(AbstractHeapType::Extern),
        0x6e => Some(AbstractHeapType::Any),
        0x6d => Some(AbstractHeapType::Eq),
        0x6c => Some(AbstractHeapType::I31),
        0x6b => Some(AbstractHeapType::Struct),
        0x6a => Some(AbstractHeapType::Array),
        0x69 => Some(AbstractHeapType::Exn),
        _ => None,
    }
}

/// A reference to a heap type.
fn reference(nullable: bool, heap_type: RawHeapType) -> RawValType
    ensures { result ≡ Ref (record { nullable = nullable; heap_type = heap_type }) }
{
    RawValType::Ref(RefType {
        nullable,
        heap_type,
    })
}

/// The value type that one byte spells.
#[tactic(auto, unfolding(wasm_operators::specs::Types::value_at))]
fn value_of(byte: u8) -> Option<RawValType>
    ensures { result ≡ value_at byte }
{
    match byte {
        0x7f => Some(RawValType::I32),
        0x7e => Some(RawValType::I64),
        0x7d => Some(RawValType::F32),
        0x7c => Some(RawValType::F64),
        0x7b => Some(RawValType::V128),
        _ => match heap_of(byte) {
            Some(heap) => Some(reference(true, RawHeapType::Abstract(heap))),
            None => None,
        },
    }
}

/// Whether a reference is nullable, if this byte can come before its heap type.
#[tactic(auto, unfolding(wasm_operators::specs::Types::nullable_at))]
fn nullable_of(byte: u8) -> Option<bool>
    ensures { result ≡ nullable_at byte }
{
    match byte {
        0x63 => Some(true),
        0x64 => Some(false),
        _ => None,
    }
}

/// Whether the byte can be the first of a value type.
fn starts_value_type(byte: u8) -> bool
    ensures { result ≡ is_value_byte byte }
{
    value_of(byte).is_some() || nullable_of(byte).is_some()
}

/// Reads a heap type at the front. Returns it and the bytes that follow.
#[tactic(auto, unfolding(wasm_numbers::specs::Numbers::integer))]
pub(crate) fn read_heap_type(bytes: &[u8]) -> Result<(RawHeapType, &[u8]), ReadFault>
    ensures { Gives (λ x. (x.0, x.1.now)) result (heap_type bytes.now) }
{
    match bytes {
        [] => Err(ReadFault::Truncated),
        [byte, rest @ ..] => match heap_of(*byte) {
            Some(heap) => Ok((RawHeapType::Abstract(heap), rest)),
            None => {
                let (value, rest) = read_signed(33, bytes)?;
                Ok((RawHeapType::Concrete(type_index(value)?), rest))
            }
        },
    }
}

/// Reads a value type at the front (WebAssembly core specification 3.0, binary format, types).
/// Returns it and the bytes that follow. Allocates nothing.
///
/// # Errors
///
/// `Truncated` if the bytes end inside it; `BadType` if no value type begins with the first byte,
/// or if the type index in it is negative; `BadNumber` if that index is too long or too great.
pub fn read_value_type(bytes: &[u8]) -> Result<(RawValType, &[u8]), ReadFault>
    ensures { Gives (λ x. (x.0, x.1.now)) result (value_type bytes.now) }
{
    match bytes {
        [] => Err(ReadFault::Truncated),
        [byte, rest @ ..] => match nullable_of(*byte) {
            Some(nullable) => { made!(read_heap_type(rest), heap => reference(nullable, heap)) }
            None => match value_of(*byte) {
                Some(ty) => Ok((ty, rest)),
                None => Err(ReadFault::BadType),
            },
        },
    }
}

/// The type index that a signed number of 33 bits spells.
fn type_index(value: i64) -> Result<u32, ReadFault>
    requires { value <ℤ pos (2 ^ 32) }
    ensures { Gives (λ x. x) result (type_index_of value) }
{
    if value < 0 {
        Err(ReadFault::BadType)
    } else {
        Ok(value as u32)
    }
}

/// Reads a block type at the front. Returns it and the bytes that follow.
#[tactic(auto, unfolding(wasm_numbers::specs::Numbers::integer))]
pub(crate) fn read_block_type(bytes: &[u8]) -> Result<(BlockType, &[u8]), ReadFault>
    ensures { Gives (λ x. (x.0, x.1.now)) result (block_type bytes.now) }
{
    match bytes {
        [] => Err(ReadFault::Truncated),
        [0x40, rest @ ..] => Ok((BlockType::Empty, rest)),
        [byte, ..] => {
            if starts_value_type(*byte) {
                let (ty, rest) = read_value_type(bytes)?;
                Ok((BlockType::Value(ty), rest))
            } else {
                let (value, rest) = read_signed(33, bytes)?;
                Ok((BlockType::FuncType(type_index(value)?), rest))
            }
        }
    }
}

/// Reads the block type without parameters and results, if it is at the front. Returns it and the
/// bytes that follow.
#[inline(always)]
pub(crate) fn read_empty_block_type(bytes: &[u8]) -> Option<(BlockType, &[u8])>
    ensures { IfSome result (λ x. block_type bytes.now ≡ Ok (x.0, x.1.now)) }
{
    match bytes {
        [0x40, rest @ ..] => Some((BlockType::Empty, rest)),
        _ => None,
    }
}

/// Reads the one type of a `select` at the front, after a count, which must be 1. Returns it and
/// the bytes that follow.
#[tactic(auto, unfolding(wasm_operators::specs::Immediates::selected))]
pub(crate) fn read_selected(bytes: &[u8]) -> Result<(RawValType, &[u8]), ReadFault>
    ensures { Gives (λ x. (x.0, x.1.now)) result (selected bytes.now) }
{
    let (count, rest) = read_u32(bytes)?;
    if count == 1 {
        read_value_type(rest)
    } else {
        Err(ReadFault::BadSelect)
    }
}
