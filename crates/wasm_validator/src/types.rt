//! Lists of types that a context gives.
ghost use Rattle.std.specs.Prelude.{◌≡◌, [], ◌∷◌, ◌++◌, MatchOption};
ghost use Rattle.wasm_context.specs.TypeLists.{types_in};

use std::slice;
use wasm_context::{Context, TypeList};
use wasm_operators::RawValType;

/// The types of a list.
pub(crate) fn types_of<'c>(context: &'c Context, list: &'c TypeList) -> &'c [RawValType]
    ensures { result.now ≡ types_in context.now list.now }
{
    match list {
        TypeList::Empty => &[],
        TypeList::One(ty) => slice::from_ref(ty),
        TypeList::Params(index) => context.params_at(*index),
        TypeList::Results(index) => context.results_at(*index),
    }
}

/// The last type, and those before it, if there is one.
pub(crate) fn last_type(types: &[RawValType]) -> Option<(RawValType, &[RawValType])>
    ensures { MatchOption result (types.now ≡ []) (λ p. types.now ≡ p.1.now ++ p.0 ∷ []) }
{
    let count = types.len();
    if count == 0 {
        return None;
    }
    Some((types[count - 1], &types[..count - 1]))
}
