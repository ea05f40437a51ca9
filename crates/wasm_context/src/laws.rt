//! Laws of the definitions, each stated as the contract of a function that does nothing.
ghost use Rattle.wasm_context.specs.ValidationLaws.{SameNames, SameVerdicts};

/// In a module whose ids are its indices, an operator that has a name has the same one by its indices,
/// and the operators of an accepted body have the verdict of their names.
pub fn law_raw_validity()
    ensures names { SameNames }
    ensures verdicts { SameVerdicts }
{}
