//! The instructions of operators. Old indices are looked up in the order in which they are written.
ghost use Rattle.std.specs.Prelude.{◌≡◌, ◌⊎◌, ◌<◌, ◌^◌, [], true, IfOk, IfErr, Ok, Err};
ghost use Rattle.walrus_ir.specs.declared.instr.Instr.TheVariants as instr;
ghost use Rattle.walrus_ir.specs.Unfolding.{slots_in};
ghost use Rattle.wasm_numbers.specs.Results.{each};
ghost use Rattle.wasm_operators.specs.declared.operator.Op.TheVariants as op;
ghost use Rattle.wasm_operators.specs.Meaning.{meaning};
ghost use Rattle.wasm_encode.specs.Writable.{IsWritable};
ghost use Rattle.wasm_body.specs.declared.error.ParseError.{ParseError as ParseFault};
ghost use Rattle.wasm_operators.specs.AtomicOpcodes.{atomic_operation};
ghost use Rattle.wasm_body.specs.InstructionTable.{access_at, operation_of, clauses_of_try};
ghost use Rattle.walrus_from_operators.specs.OperatorKinds.{is_instruction};
ghost use Rattle.walrus_from_operators.specs.Placed.{placed_by, GivesOrMemory};
ghost use Rattle.walrus_context.specs.Placing.{place_at};

use crate::references::reference;
use crate::rethrow::rethrow;
use std::alloc::Global;
use walrus_context::{ValidationContext, push_or_fail, value_type};
use walrus_ir::{
    AtomicNotify, AtomicRmw, AtomicWait, Binop, Br, BrIf, Cmpxchg, Const, I8x16Shuffle, Id, Instr,
    InstrSeqId, Load, LoadSimd, LocalGet, LocalSet, LocalTee, MemArg, MemoryId, Select, Store,
    TernOp, Unop, Value,
};
use wasm_body::ParseError;
use wasm_operators::{AtomicKind, BrTable, Operator, RawMemArg, Space, index_rows};

/// A memory argument with its alignment as a number of bytes.
#[inline(always)]
pub fn memory_argument(memarg: RawMemArg) -> MemArg
    requires { memarg.exponent < 32 }
    ensures { (result.align ≡ 2 ^ memarg.exponent) × (result.offset ≡ memarg.offset) }
{
    MemArg {
        align: 1 << memarg.exponent,
        offset: memarg.offset,
    }
}

/// A constant (WebAssembly core specification 3.0, numeric and vector instructions).
#[inline(always)]
pub fn constant(value: Value) -> Instr
    ensures { result ≡ instr.Const (record { value = value }) }
{
    Instr::Const(Const { value })
}

/// An atomic access to a memory other than a plain load or store.
fn atomic(kind: AtomicKind, memory: MemoryId, arg: MemArg) -> Instr
    ensures operation { operation_of result ≡ atomic_operation kind (access_at memory arg) }
    ensures plain { (slots_in result ≡ []) × (clauses_of_try result ≡ []) }
{
    match kind {
        AtomicKind::Notify => Instr::AtomicNotify(AtomicNotify { memory, arg }),
        AtomicKind::Wait32 => Instr::AtomicWait(AtomicWait {
            memory,
            arg,
            sixty_four: false,
        }),
        AtomicKind::Wait64 => Instr::AtomicWait(AtomicWait {
            memory,
            arg,
            sixty_four: true,
        }),
        AtomicKind::Rmw(op, width) => Instr::AtomicRmw(AtomicRmw {
            memory,
            op,
            width,
            arg,
        }),
        AtomicKind::Cmpxchg(width) => Instr::Cmpxchg(Cmpxchg { memory, width, arg }),
    }
}

/// The id of an old index in a space.
macro_rules! id {
    ($indices:ident $space:ident $index:ident) => {
        Id::new($indices.id_at(Space::$space, $index)?)
    };
}

pub(crate) use id;

/// The instruction of an operator: the rows, and those of the other operators.
macro_rules! instruction_row {
    (
        ($indices:ident $op:ident, $($others:tt)*)
        $($form:tt {
            $($row:literal $name:ident { $($field:ident $id:ident $space:ident),* })*
        })*
    ) => {
        match *$op {
            $($others)*
            $($(Operator::$name { $($field),* } => Ok(Instr::$name(walrus_ir::$name {
                $($id: id!($indices $space $field)),*
            })),)*)*
        }
    };
}

/// The sequence that a label names.
#[inline(always)]
pub fn branch_target(context: &ValidationContext<'_>, depth: u32) -> Result<InstrSeqId, ParseError>
    ensures { result ≡ place_at context.now.frames depth }
{
    match context.control(depth as usize) {
        Ok(frame) => Ok(frame.block),
        Err(error) => Err(error),
    }
}

/// The sequences that the labels of a `br_table` name.
fn blocks(
    alloc: Global,
    context: &ValidationContext<'_>,
    table: &BrTable<'_>,
) -> Result<Vec<InstrSeqId>, ParseError>
    ensures ok { IfOk result (λ blocks.
        each (place_at context.now.frames) table.now.0 ≡ Ok blocks.items) }
    ensures err { IfErr result (λ e. (e ≡ ParseFault.Memory)
        ⊎ (each (place_at context.now.frames) table.now.0 ≡ Err e)) }
{
    let mut blocks = Vec::new(alloc);
    let mut targets = table.targets();
    'targets: while let Some(depth) = targets.next() {
        let block = match branch_target(context, depth) {
            Ok(block) => block,
            Err(error) => return Err(error),
        };
        match push_or_fail(&mut blocks, block) {
            Ok(()) => {}
            Err(error) => return Err(error),
        }
    }
    Ok(blocks)
}

/// The instruction of a `br_table`.
#[inline(never)]
fn branch_table(
    alloc: Global,
    context: &ValidationContext<'_>,
    table: &BrTable<'_>,
) -> Result<Instr, ParseError>
    ensures placed { GivesOrMemory operation_of result
        (placed_by context.now (meaning (op.BrTable table.now))) }
    ensures plain { IfOk result (λ i. (slots_in i ≡ []) × (clauses_of_try i ≡ [])) }
{
    let blocks = match blocks(alloc, context, table) {
        Ok(blocks) => blocks,
        Err(error) => return Err(error),
    };
    match branch_target(context, table.default()) {
        Ok(default) => Ok(Instr::BrTable(walrus_ir::BrTable { blocks, default })),
        Err(error) => Err(error),
    }
}

/// The instruction of an operator, other than `nop`, that makes one by itself.
pub fn instruction(
    alloc: Global,
    context: &ValidationContext<'_>,
    operator: &Operator<'_>,
) -> Result<Instr, ParseError>
    requires kind { is_instruction operator.now ≡ true }
    requires writable { IsWritable (meaning operator.now) }
    ensures placed { GivesOrMemory operation_of result
        (placed_by context.now (meaning operator.now)) }
    ensures plain { IfOk result (λ i. (slots_in i ≡ []) × (clauses_of_try i ≡ [])) }
{
    let indices = context.indices();
    index_rows!(
        instruction_row, indices operator,
        Operator::Unreachable => Ok(Instr::Unreachable),
        Operator::Rethrow { depth } => rethrow(context, depth),
        Operator::ThrowRef => Ok(Instr::ThrowRef),
        Operator::Br { label } => Ok(Instr::Br(Br {
            block: branch_target(context, label)?,
        })),
        Operator::BrIf { label } => Ok(Instr::BrIf(BrIf {
            block: branch_target(context, label)?,
        })),
        Operator::BrTable(ref table) => branch_table(alloc, context, table),
        Operator::Return => Ok(Instr::Return),
        Operator::Drop => Ok(Instr::Drop),
        Operator::Select => Ok(Instr::Select(Select { ty: None })),
        Operator::TypedSelect { ty } => Ok(Instr::Select(Select {
            ty: Some(value_type(indices, ty)?),
        })),
        Operator::I32Const { value } => Ok(constant(Value::I32(value))),
        Operator::I64Const { value } => Ok(constant(Value::I64(value))),
        Operator::F32Const { bits } => Ok(constant(Value::F32(bits))),
        Operator::F64Const { bits } => Ok(constant(Value::F64(bits))),
        Operator::Unop(op) => Ok(Instr::Unop(Unop { op })),
        Operator::Binop(op) => Ok(Instr::Binop(Binop { op })),
        Operator::TernOp(op) => Ok(Instr::TernOp(TernOp { op })),
        Operator::Load { kind, memarg } => Ok(Instr::Load(Load {
            memory: indices.get_memory(memarg.memory)?,
            kind,
            arg: memory_argument(memarg),
        })),
        Operator::Store { kind, memarg } => Ok(Instr::Store(Store {
            memory: indices.get_memory(memarg.memory)?,
            kind,
            arg: memory_argument(memarg),
        })),
        Operator::LoadSimd { kind, memarg } => Ok(Instr::LoadSimd(LoadSimd {
            memory: indices.get_memory(memarg.memory)?,
            kind,
            arg: memory_argument(memarg),
        })),
        Operator::Atomic { kind, memarg } => {
            let memory = indices.get_memory(memarg.memory)?;
            Ok(atomic(kind, memory, memory_argument(memarg)))
        }
        Operator::AtomicFence => Ok(Instr::AtomicFence),
        Operator::I64Add128 => Ok(Instr::I64Add128),
        Operator::I64Sub128 => Ok(Instr::I64Sub128),
        Operator::I64MulWideS => Ok(Instr::I64MulWideS),
        Operator::I64MulWideU => Ok(Instr::I64MulWideU),
        Operator::V128Const { bits } => Ok(constant(Value::V128(bits))),
        Operator::I8x16Swizzle => Ok(Instr::I8x16Swizzle),
        Operator::V128Bitselect => Ok(Instr::V128Bitselect),
        Operator::LocalGet { local } => Ok(Instr::LocalGet(LocalGet {
            local: context.local(local)?,
        })),
        Operator::LocalSet { local } => Ok(Instr::LocalSet(LocalSet {
            local: context.local(local)?,
        })),
        Operator::LocalTee { local } => Ok(Instr::LocalTee(LocalTee {
            local: context.local(local)?,
        })),
        Operator::I8x16Shuffle { indices: lanes } => {
            Ok(Instr::I8x16Shuffle(I8x16Shuffle { indices: lanes }))
        }
        Operator::Reference(ref operator) => reference(context, operator),
        Operator::Nop
        | Operator::Block { .. }
        | Operator::Loop { .. }
        | Operator::If { .. }
        | Operator::Else
        | Operator::Try { .. }
        | Operator::Catch { .. }
        | Operator::CatchAll
        | Operator::Delegate { .. }
        | Operator::End
        | Operator::TryTable { .. } => unreachable!(),
    )
}
