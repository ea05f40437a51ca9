//! Writing the parts of a module.

use walrus_facts::EmitFacts;
use walrus_ir::{FunctionId, IdHashMap, InstrLocId, Module};
use walrus_maps::IdsToIndices;
use wasm_body::EmitError;

/// The context that the parts of a module are written into.
#[derive(Drop)]
pub struct EmitContext<'a> {
    /// The module that is written.
    pub module: &'a Module,
    /// The new indices of ids. Writing a section adds those of its items.
    pub indices: &'a mut IdsToIndices,
    /// The bytes that have been written so far.
    pub bytes: Vec<u8>,
    /// The facts of the functions' bodies.
    pub func_facts: IdHashMap<FunctionId, EmitFacts>,
    /// For each operator that has been written, its location and its place, which is the offset of
    /// its first byte in `bytes`.
    pub code_transform: Vec<(InstrLocId, usize)>,
}

/// A part of a module that can be written into a context.
pub trait Emit {
    ghost use Rattle.std.specs.Prelude.{◌≡◌, OnOk, OnErr, IfErr};
    ghost use Rattle.wasm_body.specs.declared.error.EmitError.{EmitError};
    ghost use Rattle.walrus_body.specs.declared.emit.EmitContext.{EmitContext};
    ghost use Rattle.walrus_body.specs.Emitting.{Written, AppendsSome, IsUnchanged};

    /// The data that this part appends to a context.
    ghost writes: { Self → EmitContext → Written → Type 0 };

    /// Another relation between the context before and after the call.
    ghost changes: { Self → EmitContext → EmitContext → Type 0 };

    /// The errors that are possible.
    ghost refuses: { Self → EmitContext → EmitError → Type 0 };

    /// Appends this part to the context.
    ///
    /// # Errors
    ///
    /// Those of the part. The context is then unchanged.
    fn emit(&self, cx: &mut EmitContext<'_>) -> Result<(), EmitError>
        ensures ok { OnOk result (AppendsSome (writes self.now cx.old) cx.old cx.new) }
        ensures changes { OnOk result (changes self.now cx.old cx.new) }
        ensures refused { IfErr result (refuses self.now cx.old) }
        ensures err { OnErr result (IsUnchanged cx.old cx.new) }
        ensures same_indices { cx.new.indices.ghost_name ≡ cx.old.indices.ghost_name };
}

/// A reference is written as its value.
impl<T: Emit> Emit for &T {
    ghost writes = { λ part. T.writes part.now };

    ghost changes = { λ part. T.changes part.now };

    ghost refuses = { λ part. T.refuses part.now };

    fn emit(&self, cx: &mut EmitContext<'_>) -> Result<(), EmitError> {
        T::emit(self, cx)
    }
}
