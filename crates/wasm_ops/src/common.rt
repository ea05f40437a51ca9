//! The operators that most code consists of.
ghost use Rattle.std.specs.Prelude.{◌≡◌};
ghost use Rattle.wasm_ops.specs.CommonOperators.{common_listed};

use wasm_operators::{Operator, RawMemArg};
use wasm_types::{BinaryOp, LoadKind, StoreKind, UnaryOp};

/// One of the operators that most code consists of, with its immediates. It has no list and is
/// smaller than an `Operator`, so it passes from a reader to its caller in registers.
#[derive(Clone, Copy)]
pub enum CommonOperator {
    /// `local.get`
    LocalGet {
        /// The raw index of the local.
        local: u32,
    },
    /// `local.set`
    LocalSet {
        /// The raw index of the local.
        local: u32,
    },
    /// `local.tee`
    LocalTee {
        /// The raw index of the local.
        local: u32,
    },
    /// `i32.const`
    I32Const {
        /// The number.
        value: i32,
    },
    /// `i64.const`
    I64Const {
        /// The number.
        value: i64,
    },
    /// A numeric operator on one operand.
    Unop(UnaryOp),
    /// A numeric operator on two operands.
    Binop(BinaryOp),
    /// A load of a number.
    Load {
        /// What is loaded.
        kind: LoadKind,
        /// From where.
        memarg: RawMemArg,
    },
    /// A store of a number.
    Store {
        /// What is stored.
        kind: StoreKind,
        /// To where.
        memarg: RawMemArg,
    },
    /// `call`
    Call {
        /// The raw index of the function.
        func: u32,
    },
    /// `global.get`
    GlobalGet {
        /// The raw index of the global.
        global: u32,
    },
    /// `global.set`
    GlobalSet {
        /// The raw index of the global.
        global: u32,
    },
    /// `br`
    Br {
        /// The depth of the label.
        label: u32,
    },
    /// `br_if`
    BrIf {
        /// The depth of the label.
        label: u32,
    },
    /// `drop`
    Drop,
}

impl CommonOperator {
    /// The same operator among all.
    #[inline(always)]
    pub fn operator(self) -> Operator<'static>
        ensures { result ≡ common_listed self }
    {
        match self {
            CommonOperator::LocalGet { local } => Operator::LocalGet { local },
            CommonOperator::LocalSet { local } => Operator::LocalSet { local },
            CommonOperator::LocalTee { local } => Operator::LocalTee { local },
            CommonOperator::I32Const { value } => Operator::I32Const { value },
            CommonOperator::I64Const { value } => Operator::I64Const { value },
            CommonOperator::Unop(op) => Operator::Unop(op),
            CommonOperator::Binop(op) => Operator::Binop(op),
            CommonOperator::Load { kind, memarg } => Operator::Load { kind, memarg },
            CommonOperator::Store { kind, memarg } => Operator::Store { kind, memarg },
            CommonOperator::Call { func } => Operator::Call { func },
            CommonOperator::GlobalGet { global } => Operator::GlobalGet { global },
            CommonOperator::GlobalSet { global } => Operator::GlobalSet { global },
            CommonOperator::Br { label } => Operator::Br { label },
            CommonOperator::BrIf { label } => Operator::BrIf { label },
            CommonOperator::Drop => Operator::Drop,
        }
    }
}
