//! The state of the validation algorithm, in a function.

use crate::frame::Frame;
use crate::operand::Operand;
use wasm_context::Context;
use wasm_locals::{LocalTypes, SetLocals};

/// The state of the algorithm, in a function.
#[derive(Drop)]
pub struct Validator<'a> {
    /// What the types of operators depend on.
    pub context: &'a Context,
    /// The types of the function's locals.
    pub locals: LocalTypes<'a>,
    /// The locals without a default value that are initialised.
    pub set: SetLocals,
    /// The operands, the topmost last.
    pub operands: Vec<Operand>,
    /// The innermost frame.
    pub inner: Frame,
    /// The frames around it, the innermost last.
    pub outer: Vec<Frame>,
    /// Whether the function's own frame was closed, so that there is no frame.
    pub ended: bool,
}
