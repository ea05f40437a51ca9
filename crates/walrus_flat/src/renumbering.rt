//! Operators as they are read become operators with new numbers.
ghost use Rattle.std.specs.Prelude.{◌≡◌, ◌<◌, ◌^◌, IfOk};
ghost use Rattle.wasm_numbers.specs.Results.{some_or};
ghost use Rattle.wasm_body.specs.declared.error.EmitError.TheVariants.{UnnumberedLocal};
ghost use Rattle.walrus_numbering.specs.EmittedLocals.{number_in};
ghost use Rattle.walrus_flat.specs.UsedLocals.{entries_of};

use crate::local_numbers::NumberedLocals;
use walrus_ir::{FunctionId, InstrSeqType, LocalId, ModuleTypes};
use walrus_maps::{IdsToIndices, IndicesToIds};
use walrus_numbering::{NumberMaps, block_type};
use wasm_body::EmitError;
use wasm_operators::{BlockType, Space};
use wasm_renumber::Translate;

/// What is needed to write an operator of a function's body with new numbers.
#[derive(Clone, Copy)]
pub(crate) struct Renumbering<'a> {
    /// The ids of old indices.
    pub indices: &'a IndicesToIds,
    /// The function, whose locals have their own old indices.
    pub function: FunctionId,
    /// The module's types, which say where an `else` may be left out.
    pub types: &'a ModuleTypes,
    /// The new indices of the module's ids.
    pub ids: &'a IdsToIndices,
    /// The numbers of the function's locals.
    pub locals: &'a NumberedLocals,
    /// The type of the sequences of the construct that the operator opens, if it opens one.
    pub ty: InstrSeqType,
}

/// The number of a local.
fn local_number(locals: &NumberedLocals, local: LocalId) -> Result<u32, EmitError>
    ensures number { result ≡ some_or (number_in (entries_of locals.now) local) UnnumberedLocal }
    ensures fits { IfOk result (λ number. number < 2 ^ 32) }
{
    match locals.number(local) {
        Some(number) => Ok(number),
        None => Err(EmitError::UnnumberedLocal),
    }
}

impl Translate for Renumbering<'_> {
    type Fault = EmitError;

    ghost use Rattle.wasm_body.specs.declared.error.EmitError.TheVariants.{Memory};
    ghost use Rattle.walrus_flat.specs.Written.{changes_of_renumbering};

    ghost changes = { changes_of_renumbering };

    ghost memory = { Memory };

    fn index(&self, space: Space, index: u32) -> Result<u32, EmitError> {
        let id = self.indices.id_at(space, index)?;
        Ok(self.ids.index_at(space, id)?)
    }

    fn local(&self, index: u32) -> Result<u32, EmitError> {
        let id = self.indices.get_local(self.function, index)?;
        local_number(self.locals, id)
    }

    fn label(&self, depth: u32) -> Result<u32, EmitError> {
        Ok(depth)
    }

    fn handler(&self, depth: u32) -> Result<u32, EmitError> {
        Ok(depth)
    }

    fn outer(&self, depth: u32) -> Result<u32, EmitError> {
        Ok(depth)
    }

    fn block(&self, _ty: BlockType) -> Result<BlockType, EmitError> {
        let maps = NumberMaps {
            types: self.types,
            ids: self.ids,
            // No type names a local.
            locals: &self.locals.map,
        };
        block_type(&maps, self.ty)
    }

    fn out_of_memory(&self) -> EmitError {
        EmitError::Memory
    }
}
