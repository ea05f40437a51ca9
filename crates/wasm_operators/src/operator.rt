//! Operators.

use crate::branch_table::BrTable;
use crate::catch_list::CatchList;
use crate::reference_operator::ReferenceOp;
use crate::types::{AtomicKind, BlockType, RawMemArg, RawValType};
use wasm_types::{BinaryOp, LoadKind, LoadSimdKind, StoreKind, TernaryOp, UnaryOp};

/// An operator as it is encoded (WebAssembly core specification 3.0, binary format, instructions):
/// with raw indices, and labels as depths. `T` is the type of a `br_table`'s labels, and `C` that
/// of a `try_table`'s clauses. The fields `tag`, `func`, `local`, `global`, `table`, `memory`,
/// `element` and `data` are indices; `ty` is a block type, the index of a type, or the type of a
/// `select`; `label` and `depth` are depths; `target` and `source` are indices of tables or of
/// memories.
#[derive(Drop)]
pub enum Op<T, C> {
    /// `unreachable`
    Unreachable,
    /// `nop`
    Nop,
    /// `block`
    Block {
        ty: BlockType,
    },
    /// `loop`
    Loop {
        ty: BlockType,
    },
    /// `if`
    If {
        ty: BlockType,
    },
    /// `else`
    Else,
    /// `try`
    Try {
        ty: BlockType,
    },
    /// `catch`
    Catch {
        tag: u32,
    },
    /// `throw`
    Throw {
        tag: u32,
    },
    /// `rethrow`, with the depth of an enclosing handler
    Rethrow {
        depth: u32,
    },
    /// `throw_ref`
    ThrowRef,
    /// `end`
    End,
    /// `br`
    Br {
        label: u32,
    },
    /// `br_if`
    BrIf {
        label: u32,
    },
    /// `br_table`
    BrTable(T),
    /// `return`
    Return,
    /// `call`
    Call {
        func: u32,
    },
    /// `call_indirect`
    CallIndirect {
        ty: u32,
        table: u32,
    },
    /// `return_call`
    ReturnCall {
        func: u32,
    },
    /// `return_call_indirect`
    ReturnCallIndirect {
        ty: u32,
        table: u32,
    },
    /// `call_ref`
    CallRef {
        ty: u32,
    },
    /// `return_call_ref`
    ReturnCallRef {
        ty: u32,
    },
    /// `delegate`, with the depth of an enclosing construct, counted from outside its own `try`
    Delegate {
        depth: u32,
    },
    /// `catch_all`
    CatchAll,
    /// `drop`
    Drop,
    /// `select`
    Select,
    /// `select` with the type of its operands
    TypedSelect {
        ty: RawValType,
    },
    /// `try_table`
    TryTable {
        ty: BlockType,
        catches: C,
    },
    /// `local.get`
    LocalGet {
        local: u32,
    },
    /// `local.set`
    LocalSet {
        local: u32,
    },
    /// `local.tee`
    LocalTee {
        local: u32,
    },
    /// `global.get`
    GlobalGet {
        global: u32,
    },
    /// `global.set`
    GlobalSet {
        global: u32,
    },
    /// `table.get`
    TableGet {
        table: u32,
    },
    /// `table.set`
    TableSet {
        table: u32,
    },
    /// a load, such as `i32.load8_s`
    Load {
        kind: LoadKind,
        memarg: RawMemArg,
    },
    /// a store, such as `i64.store`
    Store {
        kind: StoreKind,
        memarg: RawMemArg,
    },
    /// a vector access other than a plain load or store, such as `v128.load8_splat`
    LoadSimd {
        kind: LoadSimdKind,
        memarg: RawMemArg,
    },
    /// an atomic access other than a plain load or store, such as `i32.atomic.rmw.add`
    Atomic {
        kind: AtomicKind,
        memarg: RawMemArg,
    },
    /// `atomic.fence`
    AtomicFence,
    /// `memory.size`
    MemorySize {
        memory: u32,
    },
    /// `memory.grow`
    MemoryGrow {
        memory: u32,
    },
    /// `i32.const`
    I32Const {
        value: i32,
    },
    /// `i64.const`
    I64Const {
        value: i64,
    },
    /// `f32.const`, with its bits
    F32Const {
        bits: u32,
    },
    /// `f64.const`, with its bits
    F64Const {
        bits: u64,
    },
    /// an operator of one operand, such as `i32.eqz`
    Unop(UnaryOp),
    /// an operator of two operands, such as `i32.add`
    Binop(BinaryOp),
    /// an operator of three operands, such as `f32x4.relaxed_madd`
    TernOp(TernaryOp),
    /// `memory.init`
    MemoryInit {
        data: u32,
        memory: u32,
    },
    /// `data.drop`
    DataDrop {
        data: u32,
    },
    /// `memory.copy`
    MemoryCopy {
        target: u32,
        source: u32,
    },
    /// `memory.fill`
    MemoryFill {
        memory: u32,
    },
    /// `table.init`
    TableInit {
        element: u32,
        table: u32,
    },
    /// `elem.drop`
    ElemDrop {
        element: u32,
    },
    /// `table.copy`
    TableCopy {
        target: u32,
        source: u32,
    },
    /// `table.grow`
    TableGrow {
        table: u32,
    },
    /// `table.size`
    TableSize {
        table: u32,
    },
    /// `table.fill`
    TableFill {
        table: u32,
    },
    /// `i64.add128`
    I64Add128,
    /// `i64.sub128`
    I64Sub128,
    /// `i64.mul_wide_s`
    I64MulWideS,
    /// `i64.mul_wide_u`
    I64MulWideU,
    /// `v128.const`, with its bits
    V128Const {
        bits: u128,
    },
    /// `i8x16.shuffle`
    I8x16Shuffle {
        indices: [u8; 16],
    },
    /// `i8x16.swizzle`
    I8x16Swizzle,
    /// `v128.bitselect`
    V128Bitselect,
    /// an operator on references, structs or arrays, such as `ref.is_null`
    Reference(ReferenceOp),
}

/// An operator as it is read. Its lists are borrowed from the input. Two operators are equal if
/// they mean the same, even if they are encoded differently.
pub type Operator<'a> = Op<BrTable<'a>, CatchList<'a>>;
