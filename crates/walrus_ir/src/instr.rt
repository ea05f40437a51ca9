//! Instructions.

use crate::access::{
    AtomicNotify, AtomicRmw, AtomicWait, Cmpxchg, DataDrop, Load, LoadSimd, MemoryCopy, MemoryFill,
    MemoryGrow, MemoryInit, MemorySize, Store,
};
use crate::aggregate::{
    ArrayCopy, ArrayFill, ArrayGet, ArrayGetS, ArrayGetU, ArrayInitData, ArrayInitElem, ArrayNew,
    ArrayNewData, ArrayNewDefault, ArrayNewElem, ArrayNewFixed, ArraySet, StructGet, StructGetS,
    StructGetU, StructNew, StructNewDefault, StructSet,
};
use crate::call::{Call, CallIndirect, CallRef, ReturnCall, ReturnCallIndirect, ReturnCallRef};
use crate::control::{
    Block, Br, BrIf, BrOnCast, BrOnCastFail, BrOnNonNull, BrOnNull, BrTable, IfElse, Loop, Rethrow,
    Throw, Try, TryTable,
};
use crate::plain::{
    Binop, Const, GlobalGet, GlobalSet, I8x16Shuffle, LocalGet, LocalSet, LocalTee, Select, TernOp,
    Unop,
};
use crate::table::{
    ElemDrop, TableCopy, TableFill, TableGet, TableGrow, TableInit, TableSet, TableSize,
};
use wasm_types::{FunctionId, HeapType, RefType};

/// An instruction of the WebAssembly core specification 3.0, or of the proposals for legacy
/// exception handling, threads and wide arithmetic. Instructions that contain sequences refer to
/// them by their slots in the function's builder.
#[derive(Drop)]
pub enum Instr {
    // Structured control, branches and exceptions.
    /// `block`.
    Block(Block),
    /// `loop`.
    Loop(Loop),
    /// `if`, with its `else`.
    IfElse(IfElse),
    /// `try_table`.
    TryTable(TryTable),
    /// The legacy `try`.
    Try(Try),
    /// `br`.
    Br(Br),
    /// `br_if`.
    BrIf(BrIf),
    /// `br_table`.
    BrTable(BrTable),
    /// `br_on_null`.
    BrOnNull(BrOnNull),
    /// `br_on_non_null`.
    BrOnNonNull(BrOnNonNull),
    /// `br_on_cast`.
    BrOnCast(BrOnCast),
    /// `br_on_cast_fail`.
    BrOnCastFail(BrOnCastFail),
    /// `return`.
    Return,
    /// `unreachable`.
    Unreachable,
    /// `throw`.
    Throw(Throw),
    /// `throw_ref`.
    ThrowRef,
    /// The legacy `rethrow`.
    Rethrow(Rethrow),
    // Calls.
    /// `call`.
    Call(Call),
    /// `call_indirect`.
    CallIndirect(CallIndirect),
    /// `call_ref`.
    CallRef(CallRef),
    /// `return_call`.
    ReturnCall(ReturnCall),
    /// `return_call_indirect`.
    ReturnCallIndirect(ReturnCallIndirect),
    /// `return_call_ref`.
    ReturnCallRef(ReturnCallRef),
    // Operands, locals and globals.
    /// `drop`.
    Drop,
    /// `select`, with or without a type.
    Select(Select),
    /// A constant, such as `i32.const`.
    Const(Const),
    /// A numeric or vector operator of one operand.
    Unop(Unop),
    /// A numeric or vector operator of two operands.
    Binop(Binop),
    /// A vector operator of three operands.
    TernOp(TernOp),
    /// `local.get`.
    LocalGet(LocalGet),
    /// `local.set`.
    LocalSet(LocalSet),
    /// `local.tee`.
    LocalTee(LocalTee),
    /// `global.get`.
    GlobalGet(GlobalGet),
    /// `global.set`.
    GlobalSet(GlobalSet),
    // Memories.
    /// A load, such as `i32.load8_u`.
    Load(Load),
    /// A store, such as `i64.store32`.
    Store(Store),
    /// A vector access, such as `v128.load8_splat`.
    LoadSimd(LoadSimd),
    /// An atomic read-modify-write, such as `i32.atomic.rmw.add`.
    AtomicRmw(AtomicRmw),
    /// An atomic compare and exchange, such as `i32.atomic.rmw.cmpxchg`.
    Cmpxchg(Cmpxchg),
    /// `memory.atomic.notify`.
    AtomicNotify(AtomicNotify),
    /// `memory.atomic.wait32` or `memory.atomic.wait64`.
    AtomicWait(AtomicWait),
    /// `atomic.fence`.
    AtomicFence,
    /// `memory.size`.
    MemorySize(MemorySize),
    /// `memory.grow`.
    MemoryGrow(MemoryGrow),
    /// `memory.fill`.
    MemoryFill(MemoryFill),
    /// `memory.init`.
    MemoryInit(MemoryInit),
    /// `memory.copy`.
    MemoryCopy(MemoryCopy),
    /// `data.drop`.
    DataDrop(DataDrop),
    // Tables.
    /// `table.get`.
    TableGet(TableGet),
    /// `table.set`.
    TableSet(TableSet),
    /// `table.grow`.
    TableGrow(TableGrow),
    /// `table.size`.
    TableSize(TableSize),
    /// `table.fill`.
    TableFill(TableFill),
    /// `table.init`.
    TableInit(TableInit),
    /// `table.copy`.
    TableCopy(TableCopy),
    /// `elem.drop`.
    ElemDrop(ElemDrop),
    // References.
    /// `ref.null`.
    RefNull(RefNull),
    /// `ref.func`.
    RefFunc(RefFunc),
    /// `ref.test`.
    RefTest(RefTest),
    /// `ref.cast`.
    RefCast(RefCast),
    /// `ref.is_null`.
    RefIsNull,
    /// `ref.as_non_null`.
    RefAsNonNull,
    /// `ref.eq`.
    RefEq,
    /// `ref.i31`.
    RefI31,
    /// `i31.get_s`.
    I31GetS,
    /// `i31.get_u`.
    I31GetU,
    /// `any.convert_extern`.
    AnyConvertExtern,
    /// `extern.convert_any`.
    ExternConvertAny,
    // Structs and arrays.
    /// `struct.new`.
    StructNew(StructNew),
    /// `struct.new_default`.
    StructNewDefault(StructNewDefault),
    /// `struct.get`.
    StructGet(StructGet),
    /// `struct.get_s`.
    StructGetS(StructGetS),
    /// `struct.get_u`.
    StructGetU(StructGetU),
    /// `struct.set`.
    StructSet(StructSet),
    /// `array.new`.
    ArrayNew(ArrayNew),
    /// `array.new_default`.
    ArrayNewDefault(ArrayNewDefault),
    /// `array.new_fixed`.
    ArrayNewFixed(ArrayNewFixed),
    /// `array.new_data`.
    ArrayNewData(ArrayNewData),
    /// `array.new_elem`.
    ArrayNewElem(ArrayNewElem),
    /// `array.get`.
    ArrayGet(ArrayGet),
    /// `array.get_s`.
    ArrayGetS(ArrayGetS),
    /// `array.get_u`.
    ArrayGetU(ArrayGetU),
    /// `array.set`.
    ArraySet(ArraySet),
    /// `array.len`.
    ArrayLen,
    /// `array.fill`.
    ArrayFill(ArrayFill),
    /// `array.copy`.
    ArrayCopy(ArrayCopy),
    /// `array.init_data`.
    ArrayInitData(ArrayInitData),
    /// `array.init_elem`.
    ArrayInitElem(ArrayInitElem),
    // Vectors and wide arithmetic.
    /// `i8x16.shuffle`.
    I8x16Shuffle(I8x16Shuffle),
    /// `i8x16.swizzle`.
    I8x16Swizzle,
    /// `v128.bitselect`.
    V128Bitselect,
    /// `i64.add128`.
    I64Add128,
    /// `i64.sub128`.
    I64Sub128,
    /// `i64.mul_wide_s`.
    I64MulWideS,
    /// `i64.mul_wide_u`.
    I64MulWideU,
}

// Instructions that make and test references.

/// `ref.null`. Only the heap type is written to a module, not whether the type is nullable.
#[derive(Clone, Copy)]
pub struct RefNull {
    /// The type of the result.
    pub ty: RefType,
}

/// `ref.func`.
#[derive(Clone, Copy)]
pub struct RefFunc {
    /// The function that the result refers to.
    pub func: FunctionId,
}

/// `ref.test`.
#[derive(Clone, Copy)]
pub struct RefTest {
    /// Whether null passes the test.
    pub nullable: bool,
    /// The heap type that is tested for.
    pub heap_type: HeapType,
}

/// `ref.cast`.
#[derive(Clone, Copy)]
pub struct RefCast {
    /// Whether null passes the cast.
    pub nullable: bool,
    /// The heap type of the result.
    pub heap_type: HeapType,
}
