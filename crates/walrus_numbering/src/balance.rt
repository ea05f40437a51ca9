//! Balanced types of sequences: their results are their parameters.
ghost use Rattle.std.specs.Prelude.{◌≡◌};
ghost use Rattle.walrus_ir.specs.Types.{same_types, signature_of_type};
ghost use Rattle.wasm_body.specs.NormalForm.{is_balanced_type};

use crate::local_numbers::are_same;
use walrus_ir::{InstrSeqType, ModuleTypes, ValType};

/// Whether the lists have the same types.
fn are_same_lists(a: &[ValType], b: &[ValType]) -> bool
    ensures { result ≡ same_types a.now b.now }
{
    let mut left = a;
    let mut right = b;
    'left: while let Some((first, left_rest)) = left.split_first() {
        let Some((second, right_rest)) = right.split_first() else {
            return false;
        };
        if !are_same(first, second) {
            return false;
        }
        left = left_rest;
        right = right_rest;
    }
    right.is_empty()
}

/// Whether the module has the type, and its results are its parameters.
pub fn is_balanced(types: &ModuleTypes, ty: InstrSeqType) -> bool
    ensures { result ≡ is_balanced_type (signature_of_type types.now ty) }
{
    match ty {
        InstrSeqType::Simple(result) => result.is_none(),
        InstrSeqType::MultiValue(id) => {
            if !types.is_func(id) {
                return false;
            }
            let (params, results) = types.params_results(id);
            are_same_lists(params, results)
        }
    }
}
