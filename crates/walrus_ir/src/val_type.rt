//! The types of sequences of instructions.

use crate::module_types::ModuleTypes;
use wasm_types::{TypeId, ValType};

/// The type of a sequence of instructions: the types of its operands and results (WebAssembly core
/// specification 3.0, block types).
#[derive(Clone, Copy, Debug, PartialEq, Eq, Hash)]
pub enum InstrSeqType {
    /// It has no operands, and no result or one.
    Simple(Option<ValType>),
    /// It has the parameters and results of a function type of the module.
    MultiValue(TypeId),
}

impl InstrSeqType {
    ghost use Rattle.std.specs.Prelude.{◌≡◌, IsSome, IsSomeAnd};
    ghost use Rattle.walrus_ir.specs.Types.{existing, pick, signature_of};

    /// The type of a sequence with these parameters and results. Without parameters and with at
    /// most one result it is simple; otherwise it is the first function type of the module, in the
    /// order of ids, with these lists, if there is one. This allocates nothing.
    pub fn existing(
        types: &ModuleTypes,
        params: &[ValType],
        results: &[ValType],
    ) -> Option<InstrSeqType>
        ensures { result ≡ existing types.now params.now results.now }
    {
        if params.is_empty() && results.len() < 2 {
            return Some(InstrSeqType::Simple(results.first().copied()));
        }
        types.find(params, results).map(InstrSeqType::MultiValue)
    }

    /// The type of a sequence with the parameters and results of this function type or entry type, as `existing`
    /// returns it. This allocates nothing, and takes no look-up for a function type.
    pub fn picked(types: &ModuleTypes, id: TypeId) -> Option<InstrSeqType>
        requires { IsSome (signature_of types.now id) }
        ensures { IsSomeAnd (signature_of types.now id) (λ s. result ≡ pick types.now s) }
    {
        let (params, results) = types.params_results(id);
        if params.is_empty() && results.len() < 2 {
            return Some(InstrSeqType::Simple(results.first().copied()));
        }
        types.first_alike(id).map(InstrSeqType::MultiValue)
    }
}
