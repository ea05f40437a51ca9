//! Reading operators on references, structs and arrays: one row for each operator.

ghost use Rattle.std.specs.Prelude.{◌≤◌};
ghost use Rattle.wasm_numbers.specs.Results.{Gives};
ghost use Rattle.wasm_operators.specs.Immediates.{cast_flags as the_cast_flags, cast_parts};
ghost use Rattle.wasm_operators.specs.Meaning.{meaning};
ghost use Rattle.wasm_operators.specs.ReferenceOperations.{cast_of};
ghost use Rattle.wasm_operators.specs.Spelling.{operands};

use crate::row::{made, read_pair};
use crate::type_reader::read_heap_type;
use wasm_numbers::{ReadFault, read_byte, read_u32};
use wasm_operators::{Opcode, Operator, RawCast, ReferenceOp, reference_rows};

/// Whether the source and the target of a cast are nullable, according to the flags.
fn cast_flags(flags: u8) -> Result<(bool, bool), ReadFault>
    ensures { Gives (λ x. x) result (the_cast_flags flags) }
{
    match flags {
        0 => Ok((false, false)),
        1 => Ok((true, false)),
        2 => Ok((false, true)),
        3 => Ok((true, true)),
        _ => Err(ReadFault::BadCastFlags),
    }
}

/// Reads the immediates of a branch on a cast. Returns them and the bytes that follow.
#[tactic(auto, unfolding(wasm_operators::specs::Immediates::cast_parts))]
fn read_cast(bytes: &[u8]) -> Result<(RawCast, &[u8]), ReadFault>
    ensures { Gives (λ x. (cast_of x.0, x.1.now)) result (cast_parts bytes.now) }
{
    let (flags, rest) = read_byte(bytes)?;
    let (from_nullable, to_nullable) = cast_flags(flags)?;
    let (label, rest) = read_u32(rest)?;
    let (source, rest) = read_heap_type(rest)?;
    let (target, rest) = read_heap_type(rest)?;
    let cast = RawCast {
        from_nullable,
        to_nullable,
        label,
        source,
        target,
    };
    Ok((cast, rest))
}

/// Reads the operator with the immediates at the front. Returns it and the bytes that follow.
macro_rules! read_row {
    ($bytes:ident $name:ident Null $field:ident) => {
        made!(
            read_heap_type($bytes), $field => Operator::Reference(ReferenceOp::$name { $field })
        )
    };
    ($bytes:ident $name:ident $kind:ident $field:ident) => {
        made!(read_u32($bytes), $field => Operator::Reference(ReferenceOp::$name { $field }))
    };
    ($bytes:ident $name:ident $first:ident $one:ident $second:ident $two:ident) => {
        made!(
            read_pair($bytes), ($one, $two) => Operator::Reference(ReferenceOp::$name { $one, $two })
        )
    };
}

/// Reads the operator with this byte.
macro_rules! read_byte_row {
    (
        ($byte:ident $bytes:ident)
        $tests:tt
        $casts:tt
        (Byte)
        { $($row:literal $name:ident { $($field:ident $key:ident $kind:ident),* })* }
        { $($plain_row:literal $plain:ident)* }
        $prefixed:tt
        $others:tt
        $plain_others:tt
    ) => {
        match $byte {
            $($row => read_row!($bytes $name $($kind $field)*),)*
            $($plain_row => Ok((Operator::Reference(ReferenceOp::$plain), $bytes)),)*
            _ => unreachable!(),
        }
    };
}

/// Reads the operator with this number after 0xfb.
macro_rules! read_number_row {
    (
        ($code:ident $bytes:ident)
        { $($low:literal $high:literal $test:ident)* }
        { $($number:literal $cast:ident)* }
        (Byte)
        $of_bytes:tt
        $plain_of_bytes:tt
        (Prefixed 0xfb)
        { $($row:literal $name:ident { $($field:ident $key:ident $kind:ident),* })* }
        { $($plain_row:literal $plain:ident)* }
    ) => {
        match $code {
            $($row => read_row!($bytes $name $($kind $field)*),)*
            $($plain_row => Ok((Operator::Reference(ReferenceOp::$plain), $bytes)),)*
            $($low => made!(
                read_heap_type($bytes),
                heap_type => Operator::Reference(ReferenceOp::$test { nullable: false, heap_type })
            ),
            $high => made!(
                read_heap_type($bytes),
                heap_type => Operator::Reference(ReferenceOp::$test { nullable: true, heap_type })
            ),)*
            $($number => made!(
                read_cast($bytes), cast => Operator::Reference(ReferenceOp::$cast { cast })
            ),)*
            _ => Err(ReadFault::UnknownOperator),
        }
    };
}

/// Reads the rest of an operator with an opcode from 0xd0 to 0xd6.
#[tactic(auto, unfolding(wasm_operators::specs::Opcodes::kinds_of_byte))]
pub(crate) fn read_reference(byte: u8, bytes: &[u8]) -> Result<(Operator<'_>, &[u8]), ReadFault>
    requires low { 0xd0 ≤ byte }
    requires high { byte ≤ 0xd6 }
    ensures { Gives (λ x. (meaning x.0, x.1.now)) result (operands (Opcode.Byte byte) bytes.now) }
{
    reference_rows!(read_byte_row, byte bytes)
}

/// Reads the rest of an operator with 0xfb and a number.
#[tactic(auto, unfolding(wasm_operators::specs::Opcodes::kinds_after))]
pub(crate) fn read_after_fb(number: u32, bytes: &[u8]) -> Result<(Operator<'_>, &[u8]), ReadFault>
    ensures { Gives (λ x. (meaning x.0, x.1.now)) result
        (operands (Opcode.Prefixed 0xfb number) bytes.now) }
{
    reference_rows!(read_number_row, number bytes)
}
