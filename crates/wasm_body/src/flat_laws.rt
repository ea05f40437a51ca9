//! The laws of writing without a tree, stated as the contract of a function that does nothing.
ghost use Rattle.wasm_body.specs.FlatLaws.{FlatIsRewritten, FlatIsText, FlatIsNumbered, OneWrittenMore, FaultsAnywhere, LocalsReadAreNamed, LocalsAnywhere};

/// What is written of a body, operator by operator, with one bit for each open sequence, is the text
/// of the rewritten body, and so that of the normal form; with numbers, it is the numbered text of
/// the tree, or its first fault. What is written of one operator more follows what was written
/// before, and its fault is that of the whole. The locals that live operators name are those that
/// the tree names. Neither these nor the first fault depend on locations.
pub fn law_flat()
    ensures rewritten { FlatIsRewritten }
    ensures text { FlatIsText }
    ensures numbered { FlatIsNumbered }
    ensures one_more { OneWrittenMore }
    ensures faults { FaultsAnywhere }
    ensures locals { LocalsReadAreNamed }
    ensures same_locals { LocalsAnywhere }
{}
