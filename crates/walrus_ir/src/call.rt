//! Calls.

use wasm_types::{FunctionId, TableId, TypeId};

/// `call`.
#[derive(Clone, Copy)]
pub struct Call {
    /// The function that is called.
    pub func: FunctionId,
}

/// `return_call`: as `call`, as a tail call.
#[derive(Clone, Copy)]
pub struct ReturnCall {
    /// The function that is called.
    pub func: FunctionId,
}

/// `call_indirect`: calls a function of a table.
#[derive(Clone, Copy)]
pub struct CallIndirect {
    /// The type that the function must have.
    pub ty: TypeId,
    /// The table that contains the function.
    pub table: TableId,
}

/// `return_call_indirect`: as `call_indirect`, as a tail call.
#[derive(Clone, Copy)]
pub struct ReturnCallIndirect {
    /// The type that the function must have.
    pub ty: TypeId,
    /// The table that contains the function.
    pub table: TableId,
}

/// `call_ref`: calls the function that a reference refers to.
#[derive(Clone, Copy)]
pub struct CallRef {
    /// The type of the function.
    pub ty: TypeId,
}

/// `return_call_ref`: as `call_ref`, as a tail call.
#[derive(Clone, Copy)]
pub struct ReturnCallRef {
    /// The type of the function.
    pub ty: TypeId,
}
