//! The laws of renamed locals, each stated as the contract of a function that does nothing.
ghost use Rattle.renamed_locals.specs.RenamedLocals.{RenamedStayValid};
ghost use Rattle.renamed_locals.specs.DeclaredLocals.{WrittenAreRenamed, DeclarationsHaveTypes};

/// If locals are renamed, each to one of its type that is initialised if it was, what was valid by the rules of the standard stays valid.
pub fn law_renamed_locals()
    ensures { RenamedStayValid }
{}

/// The arguments of a function and the locals that it declares, by the numbers that are written for them, are its used locals, renamed as
/// `law_renamed_locals` requires it. The declarations have the types of these locals, if the number of each type is its id.
pub fn law_written_locals()
    ensures renamed { WrittenAreRenamed }
    ensures declarations { DeclarationsHaveTypes }
{}
