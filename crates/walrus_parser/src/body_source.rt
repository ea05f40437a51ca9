//! What a body is parsed from.

use std::alloc::AllocError;
use walrus_ir::{FunctionId, Module, TypeId};
use walrus_maps::IndicesToIds;

/// The operators of a function's body, and what their indices mean.
pub struct BodySource<'a, F> {
    /// The module, with its types and tags.
    pub module: &'a Module,
    /// The ids of the indices that operators have.
    pub indices: &'a IndicesToIds,
    /// The function.
    pub function: FunctionId,
    /// The function's type.
    pub ty: TypeId,
    /// The bytes of the operators.
    pub ops: &'a [u8],
    /// The place of the first operator, a byte offset in the module; `ops[i]` is at the place
    /// `start + i`.
    pub start: usize,
    /// The location of the operator at a place. Without such a function it is the place itself.
    pub on_instr_pos: Option<&'a F>,
}

impl<F> Clone for BodySource<'_, F> {
    fn clone(&self) -> Result<Self, AllocError> {
        Ok(BodySource {
            module: self.module,
            indices: self.indices,
            function: self.function,
            ty: self.ty,
            ops: self.ops,
            start: self.start,
            on_instr_pos: self.on_instr_pos,
        })
    }
}

/// A source is copied whatever the location function is.
impl<F> Copy for BodySource<'_, F> {}
