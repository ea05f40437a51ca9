//! The operators of instructions. Ids are looked up in the order in which their numbers are
//! written.
ghost use Rattle.std.specs.Prelude.{◌≡◌, IfOk};
ghost use Rattle.wasm_numbers.specs.Results.{Gives};
ghost use Rattle.wasm_operators.specs.Meaning.{meaning};
ghost use Rattle.wasm_encode.specs.Writable.{IsWritable};
ghost use Rattle.wasm_body.specs.InstructionTable.{wait_kind};
ghost use Rattle.walrus_emit_state.specs.TreeWriting.Closers.{places_of};
ghost use Rattle.walrus_numbering.specs.NumberMaps.{numbers_of};
ghost use Rattle.walrus_to_operators.specs.TreeWriting.Operators.{IsOperatorOf, numbered_closer};

use crate::lists::Lists;
use crate::references::reference_operator;
use walrus_emit_state::{Closer, Scopes, branch_table, table_clauses};
use walrus_ir::{Instr, InstrSeqType, LocalId, Rethrow, Select, Value};
use walrus_numbering::{NumberMaps, block_type, memory_argument, value_type};
use wasm_body::EmitError;
use wasm_encode::OutOp;
use wasm_operators::{AtomicKind, Space, index_rows};

/// The number of a local.
fn local_index(numbers: &NumberMaps<'_>, local: LocalId) -> Result<u32, EmitError>
    ensures { result ≡ (numbers_of numbers.now).local_number local }
{
    match numbers.locals.get(&local).copied() {
        Some(number) => Ok(number),
        None => Err(EmitError::UnnumberedLocal),
    }
}

/// `memory.atomic.wait64`, or `wait32`.
fn wait_kind(sixty_four: bool) -> AtomicKind
    ensures { result ≡ wait_kind sixty_four }
{
    if sixty_four {
        AtomicKind::Wait64
    } else {
        AtomicKind::Wait32
    }
}

/// The index of an id in a space.
macro_rules! index {
    ($numbers:ident $space:ident $id:expr) => {
        $numbers.ids.index_at(Space::$space, $id.index())?
    };
}

pub(crate) use index;

/// The operator of an instruction: the rows, and those of the other instructions.
macro_rules! operator_row {
    (
        ($numbers:ident $instr:ident $scopes:ident, $($others:tt)*)
        $($form:tt {
            $($row:literal $name:ident { $($field:ident $id:ident $space:ident),* })*
        })*
    ) => {
        match $instr {
            $($others)*
            $($(Instr::$name(x) => Ok(OutOp::$name {
                $($field: index!($numbers $space x.$id)),*
            }),)*)*
            _ => match reference_operator($instr, $scopes, $numbers) {
                Ok(op) => Ok(OutOp::Reference(op)),
                Err(fault) => Err(fault),
            },
        }
    };
}

/// The operator of an instruction whose first sequence, if it has one, has this type. The labels of
/// a `br_table` and the clauses of a `try_table` replace the contents of their list.
pub fn operator_of<'t>(
    instr: &Instr,
    ty: InstrSeqType,
    scopes: &Scopes,
    numbers: &NumberMaps<'_>,
    lists: &'t mut Lists,
) -> Result<OutOp<'t>, EmitError>
    ensures writable { IfOk result (λ op. IsWritable (meaning op)) }
    ensures operator { IsOperatorOf (numbers_of numbers.now) (places_of scopes.now.open_scopes)
        ty instr.now result }
{
    index_rows!(
        operator_row, numbers instr scopes,
        Instr::Unreachable => Ok(OutOp::Unreachable),
        Instr::Block(_) => Ok(OutOp::Block {
            ty: block_type(numbers, ty)?,
        }),
        Instr::Loop(_) => Ok(OutOp::Loop {
            ty: block_type(numbers, ty)?,
        }),
        Instr::IfElse(_) => Ok(OutOp::If {
            ty: block_type(numbers, ty)?,
        }),
        Instr::Try(_) => Ok(OutOp::Try {
            ty: block_type(numbers, ty)?,
        }),
        Instr::TryTable(construct) => {
            let ty = block_type(numbers, ty)?;
            match table_clauses(construct, scopes, numbers, &mut lists.clauses) {
                Ok(catches) => Ok(OutOp::TryTable { ty, catches }),
                Err(fault) => Err(fault),
            }
        }
        Instr::Rethrow(Rethrow { relative_depth }) => Ok(OutOp::Rethrow {
            depth: *relative_depth,
        }),
        Instr::ThrowRef => Ok(OutOp::ThrowRef),
        Instr::Br(branch) => Ok(OutOp::Br {
            label: scopes.depth(branch.block)?,
        }),
        Instr::BrIf(branch) => Ok(OutOp::BrIf {
            label: scopes.depth(branch.block)?,
        }),
        Instr::BrTable(table) => match branch_table(table, scopes, &mut lists.labels) {
            Ok(table) => Ok(OutOp::BrTable(table)),
            Err(fault) => Err(fault),
        },
        Instr::Return => Ok(OutOp::Return),
        Instr::Drop => Ok(OutOp::Drop),
        Instr::Select(select) => match select.ty {
            None => Ok(OutOp::Select),
            Some(ty) => Ok(OutOp::TypedSelect {
                ty: value_type(numbers, ty)?,
            }),
        },
        Instr::Const(constant) => match constant.value {
            Value::I32(value) => Ok(OutOp::I32Const { value }),
            Value::I64(value) => Ok(OutOp::I64Const { value }),
            Value::F32(bits) => Ok(OutOp::F32Const { bits }),
            Value::F64(bits) => Ok(OutOp::F64Const { bits }),
            Value::V128(bits) => Ok(OutOp::V128Const { bits }),
        },
        Instr::Unop(unop) => Ok(OutOp::Unop(unop.op)),
        Instr::Binop(binop) => Ok(OutOp::Binop(binop.op)),
        Instr::TernOp(ternop) => Ok(OutOp::TernOp(ternop.op)),
        Instr::Load(load) => Ok(OutOp::Load {
            kind: load.kind,
            memarg: memory_argument(load.arg, numbers.ids.get_memory_index(load.memory)?),
        }),
        Instr::LoadSimd(load) => Ok(OutOp::LoadSimd {
            kind: load.kind,
            memarg: memory_argument(load.arg, numbers.ids.get_memory_index(load.memory)?),
        }),
        Instr::AtomicRmw(rmw) => Ok(OutOp::Atomic {
            kind: AtomicKind::Rmw(rmw.op, rmw.width),
            memarg: memory_argument(rmw.arg, numbers.ids.get_memory_index(rmw.memory)?),
        }),
        Instr::Cmpxchg(cmpxchg) => Ok(OutOp::Atomic {
            kind: AtomicKind::Cmpxchg(cmpxchg.width),
            memarg: memory_argument(cmpxchg.arg, numbers.ids.get_memory_index(cmpxchg.memory)?),
        }),
        Instr::AtomicNotify(notify) => Ok(OutOp::Atomic {
            kind: AtomicKind::Notify,
            memarg: memory_argument(notify.arg, numbers.ids.get_memory_index(notify.memory)?),
        }),
        Instr::AtomicWait(wait) => Ok(OutOp::Atomic {
            kind: wait_kind(wait.sixty_four),
            memarg: memory_argument(wait.arg, numbers.ids.get_memory_index(wait.memory)?),
        }),
        Instr::AtomicFence => Ok(OutOp::AtomicFence),
        Instr::I64Add128 => Ok(OutOp::I64Add128),
        Instr::I64Sub128 => Ok(OutOp::I64Sub128),
        Instr::I64MulWideS => Ok(OutOp::I64MulWideS),
        Instr::I64MulWideU => Ok(OutOp::I64MulWideU),
        Instr::I8x16Swizzle => Ok(OutOp::I8x16Swizzle),
        Instr::I8x16Shuffle(shuffle) => Ok(OutOp::I8x16Shuffle {
            indices: shuffle.indices,
        }),
        Instr::LocalGet(get) => Ok(OutOp::LocalGet {
            local: local_index(numbers, get.local)?,
        }),
        Instr::LocalSet(set) => Ok(OutOp::LocalSet {
            local: local_index(numbers, set.local)?,
        }),
        Instr::LocalTee(tee) => Ok(OutOp::LocalTee {
            local: local_index(numbers, tee.local)?,
        }),
        Instr::V128Bitselect => Ok(OutOp::V128Bitselect),
        Instr::Store(store) => Ok(OutOp::Store {
            kind: store.kind,
            memarg: memory_argument(store.arg, numbers.ids.get_memory_index(store.memory)?),
        }),
    )
}

/// The operator that closes a sequence.
pub fn closing_operator(
    closer: Closer,
    numbers: &NumberMaps<'_>,
) -> Result<OutOp<'static>, EmitError>
    ensures writable { IfOk result (λ op. IsWritable (meaning op)) }
    ensures operator { Gives meaning result (numbered_closer (numbers_of numbers.now) closer) }
{
    match closer {
        Closer::End => Ok(OutOp::End),
        Closer::Else => Ok(OutOp::Else),
        Closer::Catch { tag } => match numbers.ids.get_tag_index(tag) {
            Ok(tag) => Ok(OutOp::Catch { tag }),
            Err(fault) => Err(EmitError::Index(fault)),
        },
        Closer::CatchAll => Ok(OutOp::CatchAll),
        Closer::Delegate { relative_depth } => Ok(OutOp::Delegate {
            depth: relative_depth,
        }),
    }
}
