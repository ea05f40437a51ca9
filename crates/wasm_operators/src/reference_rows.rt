//! Operators on references, structs and arrays: their opcodes and immediates, one row for each
//! operator.

ghost use Rattle.std.specs.Prelude.{◌≡◌};
ghost use Rattle.wasm_operators.specs.Parts.{reference_parts};
ghost use Rattle.wasm_operators.specs.ReferenceOperations.{by_null as the_opcode_by_null};
ghost use Rattle.wasm_operators.specs.ReferenceOperations.{reference_opcode as the_reference_opcode};
ghost use Rattle.wasm_operators.specs.ReferenceOperations.{reference_immediates as the_immediates};

use crate::immediates::ReferenceImmediates;
use crate::immediates::ReferenceImmediates::{
    Cast, Heap, Index, IndexNumber, Label, Nothing, Pair,
};
use crate::reference_operator::ReferenceOp;
use crate::types::Opcode::Prefixed;
use crate::types::{Opcode, Space};
use crate::{opcode_at, reference_rows};

/// The opcode of a test or cast: it has the second number if the reference may be null.
fn by_null(nullable: bool, number: u32, nullable_number: u32) -> Opcode
    ensures { result ≡ the_opcode_by_null nullable number nullable_number }
{
    if nullable {
        Prefixed(0xfb, nullable_number)
    } else {
        Prefixed(0xfb, number)
    }
}

/// The opcode of an operator.
macro_rules! opcode_row {
    (
        ($op:ident)
        { $($low:literal $high:literal $test:ident)* }
        { $($number:literal $cast:ident)* }
        $($form:tt
            { $($row:literal $name:ident { $($field:ident $key:ident $kind:ident),* })* }
            { $($plain_row:literal $plain:ident)* }
        )*
    ) => {
        match $op {
            $(ReferenceOp::$test { nullable, .. } => by_null(nullable, $low, $high),)*
            $(ReferenceOp::$cast { .. } => Prefixed(0xfb, $number),)*
            $($(ReferenceOp::$name { .. } => opcode_at!($form $row),)*
            $(ReferenceOp::$plain => opcode_at!($form $plain_row),)*)*
        }
    };
}

/// The immediates of an operator, from those of its row.
macro_rules! immediates_of {
    (Null $heap_type:ident) => {
        Heap($heap_type)
    };
    (Label $label:ident) => {
        Label($label)
    };
    ($space:ident $index:ident) => {
        Index(Space::$space, $index)
    };
    ($space:ident $index:ident Number $number:ident) => {
        IndexNumber(Space::$space, $index, $number)
    };
    ($first:ident $one:ident $second:ident $two:ident) => {
        Pair(Space::$first, $one, Space::$second, $two)
    };
}

/// The immediates of an operator.
macro_rules! immediates_row {
    (
        ($op:ident)
        { $($low:literal $high:literal $test:ident)* }
        { $($number:literal $cast:ident)* }
        $($form:tt
            { $($row:literal $name:ident { $($field:ident $key:ident $kind:ident),* })* }
            { $($plain_row:literal $plain:ident)* }
        )*
    ) => {
        match $op {
            $(ReferenceOp::$test { heap_type, .. } => Heap(heap_type),)*
            $(ReferenceOp::$cast { cast } => Cast(cast),)*
            $($(ReferenceOp::$name { $($field),* } => immediates_of!($($kind $field)*),)*
            $(ReferenceOp::$plain => Nothing,)*)*
        }
    };
}

/// The opcode of an operator on references, structs or arrays (WebAssembly core specification 3.0,
/// binary format, instructions).
pub fn reference_opcode(op: ReferenceOp) -> Opcode
    ensures { result ≡ the_reference_opcode op }
{
    reference_rows!(opcode_row, op)
}

/// The immediates of an operator on references, structs or arrays.
pub fn reference_immediates(op: ReferenceOp) -> ReferenceImmediates
    ensures { reference_parts result ≡ the_immediates op }
{
    reference_rows!(immediates_row, op)
}
