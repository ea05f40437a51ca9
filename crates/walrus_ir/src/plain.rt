//! Instructions on operands, locals and globals.

use crate::value::Value;
use wasm_types::{BinaryOp, GlobalId, LocalId, TernaryOp, UnaryOp, ValType};

/// A constant.
#[derive(Clone, Copy)]
pub struct Const {
    /// The value.
    pub value: Value,
}

/// An operator of one operand.
#[derive(Clone, Copy)]
pub struct Unop {
    /// The operator.
    pub op: UnaryOp,
}

/// An operator of two operands.
#[derive(Clone, Copy)]
pub struct Binop {
    /// The operator.
    pub op: BinaryOp,
}

/// An operator of three operands.
#[derive(Clone, Copy)]
pub struct TernOp {
    /// The operator.
    pub op: TernaryOp,
}

/// `i8x16.shuffle`: makes a vector of lanes of its two operands.
#[derive(Clone, Copy)]
pub struct I8x16Shuffle {
    /// For each lane of the result a lane: 0 to 15 of the first operand, 16 to 31 of the second.
    pub indices: [u8; 16],
}

/// `select`, without or with the type of its operands.
#[derive(Clone, Copy)]
pub struct Select {
    /// The type of the operands; `None` for the form without a type.
    pub ty: Option<ValType>,
}

/// `local.get`.
#[derive(Clone, Copy)]
pub struct LocalGet {
    /// The local that is read.
    pub local: LocalId,
}

/// `local.set`.
#[derive(Clone, Copy)]
pub struct LocalSet {
    /// The local that is set.
    pub local: LocalId,
}

/// `local.tee`.
#[derive(Clone, Copy)]
pub struct LocalTee {
    /// The local that is set.
    pub local: LocalId,
}

/// `global.get`.
#[derive(Clone, Copy)]
pub struct GlobalGet {
    /// The global that is read.
    pub global: GlobalId,
}

/// `global.set`.
#[derive(Clone, Copy)]
pub struct GlobalSet {
    /// The global that is set.
    pub global: GlobalId,
}
