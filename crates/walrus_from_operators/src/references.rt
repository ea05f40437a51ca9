//! The instructions of operators on references, structs and arrays. Old indices are looked up in
//! the order in which they are written.
ghost use Rattle.std.specs.Prelude.{◌≡◌, [], IfOk};
ghost use Rattle.walrus_ir.specs.Unfolding.{slots_in};
ghost use Rattle.wasm_numbers.specs.Results.{Gives};
ghost use Rattle.wasm_operators.specs.ReferenceOperations.{reference_operation};
ghost use Rattle.wasm_body.specs.InstructionTable.{operation_of, clauses_of_try};
ghost use Rattle.walrus_from_operators.specs.Placed.{cast_by, placed_by};

use crate::instructions::{branch_target, id};
use walrus_context::{ValidationContext, heap_type_of};
use walrus_ir::{HeapType, Id, Instr, InstrSeqId, RefType};
use wasm_body::ParseError;
use wasm_operators::{RawCast, ReferenceOp, Space, reference_rows};

/// The immediates of a branch on a cast: first the sequence of its label, then both types.
fn placed_cast(
    context: &ValidationContext<'_>,
    cast: RawCast,
) -> Result<(InstrSeqId, HeapType, HeapType), ParseError>
    ensures { Gives (λ x. record {
      from_nullable = cast.from_nullable;
      to_nullable = cast.to_nullable;
      label = x.0;
      source = x.1;
      target = x.2;
    }) result (cast_by context.now cast) }
{
    let indices = context.indices();
    let block = match branch_target(context, cast.label) {
        Ok(block) => block,
        Err(error) => return Err(error),
    };
    let source = match heap_type_of(indices, cast.source) {
        Ok(source) => source,
        Err(error) => return Err(error),
    };
    match heap_type_of(indices, cast.target) {
        Ok(target) => Ok((block, source, target)),
        Err(error) => Err(error),
    }
}

/// A field of an instruction, from an immediate.
macro_rules! part {
    ($context:ident $indices:ident Number $number:ident) => {
        $number
    };
    ($context:ident $indices:ident Null $heap_type:ident) => {
        RefType {
            nullable: true,
            heap_type: heap_type_of($indices, $heap_type)?,
        }
    };
    ($context:ident $indices:ident Label $label:ident) => {
        branch_target($context, $label)?
    };
    ($context:ident $indices:ident $space:ident $index:ident) => {
        id!($indices $space $index)
    };
}

/// The instruction of an operator, from its row.
macro_rules! instruction_row {
    (
        ($context:ident $indices:ident $op:ident)
        { $($low:literal $high:literal $test:ident)* }
        { $($number:literal $cast:ident)* }
        $($form:tt
            { $($row:literal $name:ident { $($field:ident $key:ident $kind:ident),* })* }
            { $($plain_row:literal $plain:ident)* }
        )*
    ) => {
        match *$op {
            $(ReferenceOp::$test { nullable, heap_type } => Ok(Instr::$test(walrus_ir::$test {
                nullable,
                heap_type: heap_type_of($indices, heap_type)?,
            })),)*
            $(ReferenceOp::$cast { cast } => {
                let (block, from_heap_type, to_heap_type) = placed_cast($context, cast)?;
                Ok(Instr::$cast(walrus_ir::$cast {
                    block,
                    from_nullable: cast.from_nullable,
                    from_heap_type,
                    to_nullable: cast.to_nullable,
                    to_heap_type,
                }))
            })*
            $($(ReferenceOp::$name { $($field),* } => Ok(Instr::$name(walrus_ir::$name {
                $($key: part!($context $indices $kind $field)),*
            })),)*
            $(ReferenceOp::$plain => Ok(Instr::$plain),)*)*
        }
    };
}

/// The instruction of an operator on references, structs or arrays.
pub(crate) fn reference(
    context: &ValidationContext<'_>,
    operator: &ReferenceOp,
) -> Result<Instr, ParseError>
    ensures placed { Gives operation_of result
        (placed_by context.now (reference_operation operator.now)) }
    ensures plain { IfOk result (λ i. (slots_in i ≡ []) × (clauses_of_try i ≡ [])) }
{
    let indices = context.indices();
    reference_rows!(instruction_row, context indices operator)
}
