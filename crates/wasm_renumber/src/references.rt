//! Operators on references, structs and arrays, translated.
ghost use Rattle.std.specs.Prelude.{◌≡◌};
ghost use Rattle.wasm_numbers.specs.Results.{Gives};
ghost use Rattle.wasm_operators.specs.ReferenceOperations.{cast_of, reference_operation};
ghost use Rattle.wasm_renumber.specs.Changes.{changed_operator, changed_cast};

use crate::translate::Translate;
use crate::types::heap_type;
use wasm_operators::{RawCast, ReferenceOp, Space, reference_rows};

/// The immediates of a branch on a cast: first its label, then both types.
fn cast_of<T: Translate>(with: &T, cast: RawCast) -> Result<RawCast, T::Fault>
    ensures { Gives cast_of result (changed_cast (T.changes with.now) cast) }
{
    let label = match with.label(cast.label) {
        Ok(label) => label,
        Err(fault) => return Err(fault),
    };
    let source = match heap_type(with, cast.source) {
        Ok(source) => source,
        Err(fault) => return Err(fault),
    };
    match heap_type(with, cast.target) {
        Ok(target) => Ok(RawCast {
            from_nullable: cast.from_nullable,
            to_nullable: cast.to_nullable,
            label,
            source,
            target,
        }),
        Err(fault) => Err(fault),
    }
}

/// An immediate, translated.
macro_rules! part {
    ($with:ident Number $number:ident) => {
        $number
    };
    ($with:ident Null $heap_type:ident) => {
        match heap_type($with, $heap_type) {
            Ok(heap_type) => heap_type,
            Err(fault) => return Err(fault),
        }
    };
    ($with:ident Label $label:ident) => {
        match $with.label($label) {
            Ok(label) => label,
            Err(fault) => return Err(fault),
        }
    };
    ($with:ident $space:ident $index:ident) => {
        match $with.index(Space::$space, $index) {
            Ok(number) => number,
            Err(fault) => return Err(fault),
        }
    };
}

/// An operator, from its row.
macro_rules! translated_row {
    (
        ($with:ident $op:ident)
        { $($low:literal $high:literal $test:ident)* }
        { $($number:literal $cast:ident)* }
        $($form:tt
            { $($row:literal $name:ident { $($field:ident $key:ident $kind:ident),* })* }
            { $($plain_row:literal $plain:ident)* }
        )*
    ) => {
        match $op {
            $(ReferenceOp::$test { nullable, heap_type: ty } => match heap_type($with, ty) {
                Ok(heap_type) => Ok(ReferenceOp::$test { nullable, heap_type }),
                Err(fault) => Err(fault),
            },)*
            $(ReferenceOp::$cast { cast } => match cast_of($with, cast) {
                Ok(cast) => Ok(ReferenceOp::$cast { cast }),
                Err(fault) => Err(fault),
            },)*
            $($(ReferenceOp::$name { $($field),* } => {
                $(let $field = part!($with $kind $field);)*
                Ok(ReferenceOp::$name { $($field),* })
            })*
            $(ReferenceOp::$plain => Ok(ReferenceOp::$plain),)*)*
        }
    };
}

/// An operator on references, structs or arrays.
pub(crate) fn translated_reference<T: Translate>(
    op: ReferenceOp,
    with: &T,
) -> Result<ReferenceOp, T::Fault>
    ensures { Gives reference_operation result
        (changed_operator (T.changes with.now) (reference_operation op)) }
{
    reference_rows!(translated_row, with op)
}
