//! What blocks take and give.
ghost use Rattle.std.specs.Prelude.{◌≡◌, option_map};
ghost use Rattle.wasm_body.specs.Validity.{required};
ghost use Rattle.wasm_context.specs.Validation.{named_block_type};
ghost use Rattle.wasm_context.specs.Contexts.{Locals, context_of};
ghost use Rattle.wasm_context.specs.TypeLists.{signature_of_block};

use crate::context::Context;
use wasm_operators::{BlockType, RawValType};

/// A list of value types, which a context gives.
#[derive(Clone, Copy)]
pub enum TypeList {
    /// No types.
    Empty,
    /// One type.
    One(RawValType),
    /// The parameters of the function type with this index.
    Params(u32),
    /// The results of the function type with this index.
    Results(u32),
}

/// What a block takes, and what it gives.
#[derive(Clone, Copy)]
pub struct BlockTypes {
    /// What it takes.
    pub params: TypeList,
    /// What it gives.
    pub results: TypeList,
}

impl Context {
    /// What a block of this type takes and gives; `None` if the type names something that isn't there, or another
    /// type than that of functions.
    pub fn block_types(&self, ty: BlockType) -> Option<BlockTypes>
        ensures { (locals : Locals) → named_block_type (context_of self.now locals) ty
            ≡ required (option_map (signature_of_block self.now) result) }
    {
        match ty {
            BlockType::Empty => Some(BlockTypes {
                params: TypeList::Empty,
                results: TypeList::Empty,
            }),
            BlockType::Value(ty) => {
                if self.is_valid_value(ty) {
                    Some(BlockTypes {
                        params: TypeList::Empty,
                        results: TypeList::One(ty),
                    })
                } else {
                    None
                }
            }
            BlockType::FuncType(index) => match self.function_type(index) {
                Some(_) => Some(BlockTypes {
                    params: TypeList::Params(index),
                    results: TypeList::Results(index),
                }),
                None => None,
            },
        }
    }
}
