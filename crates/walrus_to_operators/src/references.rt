//! The operators of instructions on references, structs and arrays. Ids are looked up in the order
//! in which their numbers are written.
ghost use Rattle.std.specs.Prelude.{◌≡◌, true, IfOk};
ghost use Rattle.wasm_numbers.specs.Results.{Gives};
ghost use Rattle.walrus_ir.specs.declared.val_type.InstrSeqType.{InstrSeqType};
ghost use Rattle.wasm_operators.specs.ReferenceOperations.{reference_operation};
ghost use Rattle.wasm_encode.specs.Writable.{IsWritable};
ghost use Rattle.walrus_emit_state.specs.TreeWriting.Closers.{places_of};
ghost use Rattle.walrus_to_operators.specs.TreeWriting.References.{is_reference};
ghost use Rattle.walrus_numbering.specs.NumberMaps.{numbers_of};
ghost use Rattle.walrus_to_operators.specs.TreeWriting.Operators.{numbered_operator};

use crate::operators::index;
use walrus_emit_state::Scopes;
use walrus_ir::Instr;
use walrus_numbering::{NumberMaps, heap_type};
use wasm_body::EmitError;
use wasm_operators::{RawCast, ReferenceOp, Space, reference_rows};

/// An immediate, from a field of the instruction.
macro_rules! part {
    ($numbers:ident $scopes:ident Null $ty:expr) => {
        heap_type($numbers, $ty.heap_type)?
    };
    ($numbers:ident $scopes:ident Label $block:expr) => {
        $scopes.depth($block)?
    };
    ($numbers:ident $scopes:ident $space:ident $id:expr) => {
        index!($numbers $space $id)
    };
}

/// The operator with the immediates of a row. A number is read before an id is looked up.
macro_rules! from_row {
    (
        $numbers:ident $scopes:ident $x:ident $name:ident
        $field:ident $key:ident $space:ident, $number:ident $number_key:ident Number
    ) => {{
        let $number = $x.$number_key;
        Ok(ReferenceOp::$name {
            $field: index!($numbers $space $x.$key),
            $number,
        })
    }};
    (
        $numbers:ident $scopes:ident $x:ident $name:ident
        $($field:ident $key:ident $kind:ident),*
    ) => {
        Ok(ReferenceOp::$name {
            $($field: part!($numbers $scopes $kind $x.$key)),*
        })
    };
}

/// The operator of an instruction, from its row.
macro_rules! operator_row {
    (
        ($numbers:ident $scopes:ident $instr:ident)
        { $($low:literal $high:literal $test:ident)* }
        { $($number:literal $cast:ident)* }
        $($form:tt
            { $($row:literal $name:ident { $($field:ident $key:ident $kind:ident),* })* }
            { $($plain_row:literal $plain:ident)* }
        )*
    ) => {
        match $instr {
            $(Instr::$test(x) => Ok(ReferenceOp::$test {
                nullable: x.nullable,
                heap_type: heap_type($numbers, x.heap_type)?,
            }),)*
            $(Instr::$cast(x) => Ok(ReferenceOp::$cast {
                cast: RawCast {
                    from_nullable: x.from_nullable,
                    to_nullable: x.to_nullable,
                    label: $scopes.depth(x.block)?,
                    source: heap_type($numbers, x.from_heap_type)?,
                    target: heap_type($numbers, x.to_heap_type)?,
                },
            }),)*
            $($(Instr::$name(x) => from_row!(
                $numbers $scopes x $name $($field $key $kind),*
            ),)*
            $(Instr::$plain => Ok(ReferenceOp::$plain),)*)*
            _ => unreachable!(),
        }
    };
}

/// The operator of an instruction on references, structs or arrays.
pub(crate) fn reference_operator(
    instr: &Instr,
    scopes: &Scopes,
    numbers: &NumberMaps<'_>,
) -> Result<ReferenceOp, EmitError>
    requires { is_reference instr.now ≡ true }
    ensures writable { IfOk result (λ op. IsWritable (reference_operation op)) }
    ensures operator { (ty : InstrSeqType) → Gives reference_operation result
        (numbered_operator (numbers_of numbers.now) (places_of scopes.now.open_scopes)
        ty instr.now) }
{
    reference_rows!(operator_row, numbers scopes instr)
}
