//! Operators, translated. Parts are looked up in the order in which they are written.
ghost use Rattle.std.specs.Prelude.{◌≡◌, ◌⊎◌, Ok, Err, IfErr, IfOk};
ghost use Rattle.wasm_numbers.specs.Results.{each};
ghost use Rattle.wasm_operators.specs.Meaning.{meaning};
ghost use Rattle.wasm_operators.specs.declared.operator.Op.TheVariants as op;
ghost use Rattle.wasm_operators.specs.declared.types.Space.TheVariants.{Memories};
ghost use Rattle.wasm_encode.specs.Writable.{IsWritable};
ghost use Rattle.wasm_renumber.specs.Changes.{changed_operator, IsChangedOperator};

use crate::lists::{Lists, list_clauses, list_labels};
use crate::references::translated_reference;
use crate::translate::Translate;
use crate::types::value_type;
use wasm_encode::{OutClauses, OutOp, OutTable};
use wasm_operators::{
    BlockType, BrTable, CatchList, Operator, RawCatch, RawMemArg, Space, index_rows,
};

/// A memory argument with the number for its memory.
fn memory_argument<T: Translate>(with: &T, memarg: RawMemArg) -> Result<RawMemArg, T::Fault>
    ensures ok { IfOk result (λ m. (m.exponent ≡ memarg.exponent) × (m.offset ≡ memarg.offset)
        × ((T.changes with.now).index Memories memarg.memory ≡ Ok m.memory)) }
    ensures err { IfErr result (λ e. (T.changes with.now).index Memories memarg.memory ≡ Err e) }
{
    match with.index(Space::Memories, memarg.memory) {
        Ok(memory) => Ok(RawMemArg {
            exponent: memarg.exponent,
            memory,
            offset: memarg.offset,
        }),
        Err(fault) => Err(fault),
    }
}

/// A `br_table`. Its labels replace the contents of the list.
#[inline(never)]
fn translated_table<'t, T: Translate>(
    table: &BrTable<'_>,
    with: &T,
    labels: &'t mut Vec<u32>,
) -> Result<OutOp<'t>, T::Fault>
    ensures { IsChangedOperator T.memory (changed_operator (T.changes with.now) (meaning (op.BrTable table.now)))
        result }
{
    match list_labels(table, with, labels) {
        Ok(()) => {}
        Err(fault) => return Err(fault),
    }
    match with.label(table.default()) {
        Ok(default) => Ok(OutOp::BrTable(OutTable {
            targets: labels.as_slice(),
            default,
        })),
        Err(fault) => Err(fault),
    }
}

/// A `try_table`. Its clauses replace the contents of the list.
#[inline(never)]
fn translated_try_table<'t, T: Translate>(
    ty: BlockType,
    catches: &CatchList<'_>,
    with: &T,
    clauses: &'t mut Vec<RawCatch>,
) -> Result<OutOp<'t>, T::Fault>
    ensures { IsChangedOperator T.memory
        (changed_operator (T.changes with.now) (meaning (op.TryTable ty catches.now))) result }
{
    let ty = match with.block(ty) {
        Ok(ty) => ty,
        Err(fault) => return Err(fault),
    };
    match list_clauses(catches, with, clauses) {
        Ok(()) => Ok(OutOp::TryTable {
            ty,
            catches: OutClauses {
                clauses: clauses.as_slice(),
            },
        }),
        Err(fault) => Err(fault),
    }
}

/// An operator: the rows, and the other operators.
macro_rules! translated_row {
    (
        ($with:ident $op:ident, $($others:tt)*)
        $($form:tt {
            $($row:literal $name:ident { $($field:ident $id:ident $space:ident),* })*
        })*
    ) => {
        match *$op {
            $($others)*
            $($(Operator::$name { $($field),* } => {
                $(let $field = match $with.index(Space::$space, $field) {
                    Ok(number) => number,
                    Err(fault) => return Err(fault),
                };)*
                Ok(OutOp::$name { $($field),* })
            })*)*
        }
    };
}

/// An operator, each part translated. The labels of a `br_table` and the clauses of a `try_table`
/// replace the contents of their list.
///
/// # Errors
///
/// The fault of the first part, in the order of writing, that becomes nothing; or memory ran out.
pub fn translated<'t, T: Translate>(
    operator: &Operator<'_>,
    with: &T,
    lists: &'t mut Lists,
) -> Result<OutOp<'t>, T::Fault>
    requires { IsWritable (meaning operator.now) }
    ensures { IsChangedOperator T.memory (changed_operator (T.changes with.now) (meaning operator.now)) result }
{
    index_rows!(
        translated_row, with operator,
        Operator::Unreachable => Ok(OutOp::Unreachable),
        Operator::Nop => Ok(OutOp::Nop),
        Operator::Block { ty } => match with.block(ty) {
            Ok(ty) => Ok(OutOp::Block { ty }),
            Err(fault) => Err(fault),
        },
        Operator::Loop { ty } => match with.block(ty) {
            Ok(ty) => Ok(OutOp::Loop { ty }),
            Err(fault) => Err(fault),
        },
        Operator::If { ty } => match with.block(ty) {
            Ok(ty) => Ok(OutOp::If { ty }),
            Err(fault) => Err(fault),
        },
        Operator::Else => Ok(OutOp::Else),
        Operator::Try { ty } => match with.block(ty) {
            Ok(ty) => Ok(OutOp::Try { ty }),
            Err(fault) => Err(fault),
        },
        Operator::Catch { tag } => match with.index(Space::Tags, tag) {
            Ok(tag) => Ok(OutOp::Catch { tag }),
            Err(fault) => Err(fault),
        },
        Operator::Rethrow { depth } => match with.handler(depth) {
            Ok(depth) => Ok(OutOp::Rethrow { depth }),
            Err(fault) => Err(fault),
        },
        Operator::ThrowRef => Ok(OutOp::ThrowRef),
        Operator::End => Ok(OutOp::End),
        Operator::Br { label } => match with.label(label) {
            Ok(label) => Ok(OutOp::Br { label }),
            Err(fault) => Err(fault),
        },
        Operator::BrIf { label } => match with.label(label) {
            Ok(label) => Ok(OutOp::BrIf { label }),
            Err(fault) => Err(fault),
        },
        Operator::BrTable(ref table) => translated_table(table, with, &mut lists.labels),
        Operator::Return => Ok(OutOp::Return),
        Operator::Delegate { depth } => match with.outer(depth) {
            Ok(depth) => Ok(OutOp::Delegate { depth }),
            Err(fault) => Err(fault),
        },
        Operator::CatchAll => Ok(OutOp::CatchAll),
        Operator::Drop => Ok(OutOp::Drop),
        Operator::Select => Ok(OutOp::Select),
        Operator::TypedSelect { ty } => match value_type(with, ty) {
            Ok(ty) => Ok(OutOp::TypedSelect { ty }),
            Err(fault) => Err(fault),
        },
        Operator::TryTable { ty, ref catches } => {
            translated_try_table(ty, catches, with, &mut lists.clauses)
        }
        Operator::LocalGet { local } => match with.local(local) {
            Ok(local) => Ok(OutOp::LocalGet { local }),
            Err(fault) => Err(fault),
        },
        Operator::LocalSet { local } => match with.local(local) {
            Ok(local) => Ok(OutOp::LocalSet { local }),
            Err(fault) => Err(fault),
        },
        Operator::LocalTee { local } => match with.local(local) {
            Ok(local) => Ok(OutOp::LocalTee { local }),
            Err(fault) => Err(fault),
        },
        Operator::Load { kind, memarg } => match memory_argument(with, memarg) {
            Ok(memarg) => Ok(OutOp::Load { kind, memarg }),
            Err(fault) => Err(fault),
        },
        Operator::Store { kind, memarg } => match memory_argument(with, memarg) {
            Ok(memarg) => Ok(OutOp::Store { kind, memarg }),
            Err(fault) => Err(fault),
        },
        Operator::LoadSimd { kind, memarg } => match memory_argument(with, memarg) {
            Ok(memarg) => Ok(OutOp::LoadSimd { kind, memarg }),
            Err(fault) => Err(fault),
        },
        Operator::Atomic { kind, memarg } => match memory_argument(with, memarg) {
            Ok(memarg) => Ok(OutOp::Atomic { kind, memarg }),
            Err(fault) => Err(fault),
        },
        Operator::AtomicFence => Ok(OutOp::AtomicFence),
        Operator::I32Const { value } => Ok(OutOp::I32Const { value }),
        Operator::I64Const { value } => Ok(OutOp::I64Const { value }),
        Operator::F32Const { bits } => Ok(OutOp::F32Const { bits }),
        Operator::F64Const { bits } => Ok(OutOp::F64Const { bits }),
        Operator::Unop(op) => Ok(OutOp::Unop(op)),
        Operator::Binop(op) => Ok(OutOp::Binop(op)),
        Operator::TernOp(op) => Ok(OutOp::TernOp(op)),
        Operator::I64Add128 => Ok(OutOp::I64Add128),
        Operator::I64Sub128 => Ok(OutOp::I64Sub128),
        Operator::I64MulWideS => Ok(OutOp::I64MulWideS),
        Operator::I64MulWideU => Ok(OutOp::I64MulWideU),
        Operator::V128Const { bits } => Ok(OutOp::V128Const { bits }),
        Operator::I8x16Shuffle { indices } => Ok(OutOp::I8x16Shuffle { indices }),
        Operator::I8x16Swizzle => Ok(OutOp::I8x16Swizzle),
        Operator::V128Bitselect => Ok(OutOp::V128Bitselect),
        Operator::Reference(op) => match translated_reference(op, with) {
            Ok(op) => Ok(OutOp::Reference(op)),
            Err(fault) => Err(fault),
        },
    )
}
