//! Plain instructions: those that can be inserted anywhere.
ghost use Rattle.std.specs.Prelude.{◌≡◌};
ghost use Rattle.walrus_insertion.specs.PlainInstructions.{instr_of};

use walrus_ir::{
    ArrayCopy, ArrayFill, ArrayGet, ArrayGetS, ArrayGetU, ArrayInitData, ArrayInitElem, ArrayNew,
    ArrayNewData, ArrayNewDefault, ArrayNewElem, ArrayNewFixed, ArraySet, Binop, Call,
    CallIndirect, CallRef, Const, DataDrop, ElemDrop, GlobalGet, GlobalSet, I8x16Shuffle, Instr,
    LocalGet, LocalSet, LocalTee, MemoryCopy, MemoryFill, MemoryGrow, MemoryInit, MemorySize,
    RefFunc, Select, StructGet, StructGetS, StructGetU, StructNew, StructNewDefault, StructSet,
    TableCopy, TableFill, TableGet, TableGrow, TableInit, TableSet, TableSize, TernOp, Unop,
};

/// An instruction that contains no sequence and doesn't branch, return, throw or call a tail: whatever
/// it does otherwise, the next one comes after it, unless it traps or what it calls throws. Loads and
/// stores aren't among these, nor those with a value type or a heap type.
#[derive(Clone, Copy)]
pub enum PlainInstr {
    /// `call`.
    Call(Call),
    /// `call_indirect`.
    CallIndirect(CallIndirect),
    /// `call_ref`.
    CallRef(CallRef),
    /// `drop`.
    Drop,
    /// `select` without a type.
    Select,
    /// A constant, such as `i32.const`.
    Const(Const),
    /// A numeric or vector operator of one operand.
    Unop(Unop),
    /// A numeric or vector operator of two operands.
    Binop(Binop),
    /// A vector operator of three operands.
    TernOp(TernOp),
    /// `local.get`.
    LocalGet(LocalGet),
    /// `local.set`.
    LocalSet(LocalSet),
    /// `local.tee`.
    LocalTee(LocalTee),
    /// `global.get`.
    GlobalGet(GlobalGet),
    /// `global.set`.
    GlobalSet(GlobalSet),
    /// `atomic.fence`.
    AtomicFence,
    /// `memory.size`.
    MemorySize(MemorySize),
    /// `memory.grow`.
    MemoryGrow(MemoryGrow),
    /// `memory.fill`.
    MemoryFill(MemoryFill),
    /// `memory.init`.
    MemoryInit(MemoryInit),
    /// `memory.copy`.
    MemoryCopy(MemoryCopy),
    /// `data.drop`.
    DataDrop(DataDrop),
    /// `table.get`.
    TableGet(TableGet),
    /// `table.set`.
    TableSet(TableSet),
    /// `table.grow`.
    TableGrow(TableGrow),
    /// `table.size`.
    TableSize(TableSize),
    /// `table.fill`.
    TableFill(TableFill),
    /// `table.init`.
    TableInit(TableInit),
    /// `table.copy`.
    TableCopy(TableCopy),
    /// `elem.drop`.
    ElemDrop(ElemDrop),
    /// `ref.func`.
    RefFunc(RefFunc),
    /// `ref.is_null`.
    RefIsNull,
    /// `ref.as_non_null`.
    RefAsNonNull,
    /// `ref.eq`.
    RefEq,
    /// `ref.i31`.
    RefI31,
    /// `i31.get_s`.
    I31GetS,
    /// `i31.get_u`.
    I31GetU,
    /// `any.convert_extern`.
    AnyConvertExtern,
    /// `extern.convert_any`.
    ExternConvertAny,
    /// `struct.new`.
    StructNew(StructNew),
    /// `struct.new_default`.
    StructNewDefault(StructNewDefault),
    /// `struct.get`.
    StructGet(StructGet),
    /// `struct.get_s`.
    StructGetS(StructGetS),
    /// `struct.get_u`.
    StructGetU(StructGetU),
    /// `struct.set`.
    StructSet(StructSet),
    /// `array.new`.
    ArrayNew(ArrayNew),
    /// `array.new_default`.
    ArrayNewDefault(ArrayNewDefault),
    /// `array.new_fixed`.
    ArrayNewFixed(ArrayNewFixed),
    /// `array.new_data`.
    ArrayNewData(ArrayNewData),
    /// `array.new_elem`.
    ArrayNewElem(ArrayNewElem),
    /// `array.get`.
    ArrayGet(ArrayGet),
    /// `array.get_s`.
    ArrayGetS(ArrayGetS),
    /// `array.get_u`.
    ArrayGetU(ArrayGetU),
    /// `array.set`.
    ArraySet(ArraySet),
    /// `array.len`.
    ArrayLen,
    /// `array.fill`.
    ArrayFill(ArrayFill),
    /// `array.copy`.
    ArrayCopy(ArrayCopy),
    /// `array.init_data`.
    ArrayInitData(ArrayInitData),
    /// `array.init_elem`.
    ArrayInitElem(ArrayInitElem),
    /// `i8x16.shuffle`.
    I8x16Shuffle(I8x16Shuffle),
    /// `i8x16.swizzle`.
    I8x16Swizzle,
    /// `v128.bitselect`.
    V128Bitselect,
    /// `i64.add128`.
    I64Add128,
    /// `i64.sub128`.
    I64Sub128,
    /// `i64.mul_wide_s`.
    I64MulWideS,
    /// `i64.mul_wide_u`.
    I64MulWideU,
}

impl PlainInstr {
    /// The instruction.
    pub fn instr(self) -> Instr
        ensures { result ≡ instr_of self }
    {
        match self {
            PlainInstr::Call(x) => Instr::Call(x),
            PlainInstr::CallIndirect(x) => Instr::CallIndirect(x),
            PlainInstr::CallRef(x) => Instr::CallRef(x),
            PlainInstr::Drop => Instr::Drop,
            PlainInstr::Select => Instr::Select(Select { ty: None }),
            PlainInstr::Const(x) => Instr::Const(x),
            PlainInstr::Unop(x) => Instr::Unop(x),
            PlainInstr::Binop(x) => Instr::Binop(x),
            PlainInstr::TernOp(x) => Instr::TernOp(x),
            PlainInstr::LocalGet(x) => Instr::LocalGet(x),
            PlainInstr::LocalSet(x) => Instr::LocalSet(x),
            PlainInstr::LocalTee(x) => Instr::LocalTee(x),
            PlainInstr::GlobalGet(x) => Instr::GlobalGet(x),
            PlainInstr::GlobalSet(x) => Instr::GlobalSet(x),
            PlainInstr::AtomicFence => Instr::AtomicFence,
            PlainInstr::MemorySize(x) => Instr::MemorySize(x),
            PlainInstr::MemoryGrow(x) => Instr::MemoryGrow(x),
            PlainInstr::MemoryFill(x) => Instr::MemoryFill(x),
            PlainInstr::MemoryInit(x) => Instr::MemoryInit(x),
            PlainInstr::MemoryCopy(x) => Instr::MemoryCopy(x),
            PlainInstr::DataDrop(x) => Instr::DataDrop(x),
            PlainInstr::TableGet(x) => Instr::TableGet(x),
            PlainInstr::TableSet(x) => Instr::TableSet(x),
            PlainInstr::TableGrow(x) => Instr::TableGrow(x),
            PlainInstr::TableSize(x) => Instr::TableSize(x),
            PlainInstr::TableFill(x) => Instr::TableFill(x),
            PlainInstr::TableInit(x) => Instr::TableInit(x),
            PlainInstr::TableCopy(x) => Instr::TableCopy(x),
            PlainInstr::ElemDrop(x) => Instr::ElemDrop(x),
            PlainInstr::RefFunc(x) => Instr::RefFunc(x),
            PlainInstr::RefIsNull => Instr::RefIsNull,
            PlainInstr::RefAsNonNull => Instr::RefAsNonNull,
            PlainInstr::RefEq => Instr::RefEq,
            PlainInstr::RefI31 => Instr::RefI31,
            PlainInstr::I31GetS => Instr::I31GetS,
            PlainInstr::I31GetU => Instr::I31GetU,
            PlainInstr::AnyConvertExtern => Instr::AnyConvertExtern,
            PlainInstr::ExternConvertAny => Instr::ExternConvertAny,
            PlainInstr::StructNew(x) => Instr::StructNew(x),
            PlainInstr::StructNewDefault(x) => Instr::StructNewDefault(x),
            PlainInstr::StructGet(x) => Instr::StructGet(x),
            PlainInstr::StructGetS(x) => Instr::StructGetS(x),
            PlainInstr::StructGetU(x) => Instr::StructGetU(x),
            PlainInstr::StructSet(x) => Instr::StructSet(x),
            PlainInstr::ArrayNew(x) => Instr::ArrayNew(x),
            PlainInstr::ArrayNewDefault(x) => Instr::ArrayNewDefault(x),
            PlainInstr::ArrayNewFixed(x) => Instr::ArrayNewFixed(x),
            PlainInstr::ArrayNewData(x) => Instr::ArrayNewData(x),
            PlainInstr::ArrayNewElem(x) => Instr::ArrayNewElem(x),
            PlainInstr::ArrayGet(x) => Instr::ArrayGet(x),
            PlainInstr::ArrayGetS(x) => Instr::ArrayGetS(x),
            PlainInstr::ArrayGetU(x) => Instr::ArrayGetU(x),
            PlainInstr::ArraySet(x) => Instr::ArraySet(x),
            PlainInstr::ArrayLen => Instr::ArrayLen,
            PlainInstr::ArrayFill(x) => Instr::ArrayFill(x),
            PlainInstr::ArrayCopy(x) => Instr::ArrayCopy(x),
            PlainInstr::ArrayInitData(x) => Instr::ArrayInitData(x),
            PlainInstr::ArrayInitElem(x) => Instr::ArrayInitElem(x),
            PlainInstr::I8x16Shuffle(x) => Instr::I8x16Shuffle(x),
            PlainInstr::I8x16Swizzle => Instr::I8x16Swizzle,
            PlainInstr::V128Bitselect => Instr::V128Bitselect,
            PlainInstr::I64Add128 => Instr::I64Add128,
            PlainInstr::I64Sub128 => Instr::I64Sub128,
            PlainInstr::I64MulWideS => Instr::I64MulWideS,
            PlainInstr::I64MulWideU => Instr::I64MulWideU,
        }
    }
}
