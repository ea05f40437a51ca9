//! The law of a tool that puts instructions before all others of a sequence.
ghost use Rattle.walrus_insertion.specs.InsertedInstructions.{PrependedTrees};
ghost use Rattle.walrus_insertion.specs.BegunBodies.{BegunTrees, BegunTexts};

/// Where one sequence of a function begins with plain instructions more, and all else is as it was,
/// each tree of a body is that tree with these inserted, as by `insert`. If it is the first sequence of
/// the tree, this is the normal form of the body that begins with their operators. What is written for
/// it is the source's, instrumented as `law_inserted_texts` of `wasm_insertion` says, and it is valid
/// where the source is if together they take no operands and leave none. `T` is what is known of an
/// operand.
pub fn law_prepended<T>()
    ensures edited { PrependedTrees }
    ensures trees { BegunTrees }
    ensures texts { BegunTexts T }
{}
