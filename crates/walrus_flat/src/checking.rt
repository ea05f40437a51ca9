//! The parts of an operator that is checked.

use crate::open_sequence::OpenSequence;
use walrus_context::value_type;
use walrus_ir::{BlockKind, FunctionId, Module};
use walrus_maps::IndicesToIds;
use wasm_body::ParseError;
use wasm_operators::{BlockType, Space};
use wasm_renumber::Translate;

/// What is needed to check the parts of an operator, which stay as they are.
#[derive(Clone, Copy)]
pub(crate) struct Checking<'a> {
    /// The module, whose types block types name.
    pub module: &'a Module,
    /// The ids of old indices.
    pub indices: &'a IndicesToIds,
    /// The function, whose locals have their own old indices.
    pub function: FunctionId,
    /// The open sequences, the innermost last.
    pub open: &'a [OpenSequence],
}

impl Translate for Checking<'_> {
    type Fault = ParseError;

    ghost use Rattle.wasm_body.specs.declared.error.ParseError.TheVariants.{Memory};
    ghost use Rattle.walrus_flat.specs.Checked.{changes_of_checking};

    ghost changes = { changes_of_checking };

    ghost memory = { Memory };

    fn index(&self, space: Space, index: u32) -> Result<u32, ParseError> {
        self.indices.id_at(space, index)?;
        Ok(index)
    }

    fn local(&self, index: u32) -> Result<u32, ParseError> {
        self.indices.get_local(self.function, index)?;
        Ok(index)
    }

    fn label(&self, depth: u32) -> Result<u32, ParseError> {
        if (depth as usize) < self.open.len() {
            Ok(depth)
        } else {
            Err(ParseError::NoSuchLabel)
        }
    }

    fn handler(&self, depth: u32) -> Result<u32, ParseError> {
        let depth_in_open = depth as usize;
        if depth_in_open >= self.open.len() {
            return Err(ParseError::NoSuchLabel);
        }
        match self.open[self.open.len() - 1 - depth_in_open].kind {
            BlockKind::Catch | BlockKind::CatchAll => Ok(depth),
            _ => Err(ParseError::RethrowOutsideHandler),
        }
    }

    fn outer(&self, depth: u32) -> Result<u32, ParseError> {
        if self.open.len() > 1 && (depth as usize) < self.open.len() - 1 {
            Ok(depth)
        } else {
            Err(ParseError::NoSuchLabel)
        }
    }

    fn block(&self, ty: BlockType) -> Result<BlockType, ParseError> {
        match ty {
            BlockType::Empty => Ok(ty),
            BlockType::Value(value) => match value_type(self.indices, value) {
                Ok(_) => Ok(ty),
                Err(error) => Err(error),
            },
            BlockType::FuncType(index) => {
                let id = self.indices.get_type(index)?;
                if self.module.types.is_func(id) {
                    Ok(ty)
                } else {
                    Err(ParseError::NotAFunctionType)
                }
            }
        }
    }

    fn out_of_memory(&self) -> ParseError {
        ParseError::Memory
    }
}
