//! Laws of modules that are read from what was written, each stated as the contract of a function that does
//! nothing.

ghost use Rattle.std.specs.Prelude.{◌≡◌, ℕ, List, []};
ghost use Rattle.wasm_module.specs.declared.parsed.ParsedModule.{ParsedModule as Parsed};
ghost use Rattle.wasm_module.specs.ReadAgain.{HasSameItems, IsReadAgain, IsRewrittenUnchanged, HasUnchangedCode, IsWrittenAlike, HasNoFollowers};
ghost use Rattle.wasm_module.specs.ReadFrom.{IsModuleOf};
ghost use Rattle.wasm_module.specs.ReadModules.{components_of};
ghost use Rattle.wasm_module.specs.RewrittenCode.{IsRewrittenWith};
ghost use Rattle.wasm_module.specs.SameModules.{IsSameModule};
ghost use Rattle.wasm_module.specs.WrittenModules.{IsWrittenModule};
ghost use Rattle.wasm_sections.specs.Omissions.{OmitsNothing};
ghost use Rattle.wasm_sections.specs.declared.changes.Changes.{Changes as NewSections};
ghost use Rattle.wasm_sections.specs.declared.omissions.OmittedSections.{OmittedSections as Omitted};

use crate::body_writer::BodyWriter;

/// A module that was read from bytes that consist of the same as a source has the source's items: the same
/// types, functions and tags, each with the same index, id and number; and it has the source's
/// bodies as these write them. `law_written_module` says which bytes consist of the same.
pub fn law_read_again<B: BodyWriter>(bodies: &B)
    ensures { (source again : Parsed) (bytes new : List ℕ) → IsModuleOf bytes source
        → IsModuleOf new again
        → IsSameModule (B.writes bodies.now) source (components_of source) new
        → IsReadAgain (B.writes bodies.now) source again }
{}

/// What is written of a body by `Rewriting`, read as the body of the same function of a module with the
/// same items, is written unchanged; and so is what is written of a code section. `law_read_again` says
/// which modules have the same items.
pub fn law_rewritten_again()
    ensures bodies { (source again : Parsed) (bytes : List ℕ) → IsModuleOf bytes source
        → HasSameItems source again → IsRewrittenUnchanged source again }
    ensures code { (source again : Parsed) (bytes : List ℕ) → IsModuleOf bytes source
        → HasSameItems source again → HasUnchangedCode source again }
{}

/// A module that is written after `rewrite_all`, where no section is given contents, is read again and
/// written with the same sections, byte for byte, but for custom sections that are changed along with
/// the code, if none is left out the second time. Without such a section it is the same module.
pub fn law_written_again()
    ensures alike { (source again : Parsed) (bytes new new' : List ℕ) (changes changes' : NewSections)
        (omitted omitted' : Omitted) → IsModuleOf bytes source → changes.given.items ≡ []
        → IsWrittenModule IsRewrittenWith source changes omitted new → IsModuleOf new again
        → changes'.given.items ≡ [] → OmitsNothing omitted'
        → IsWrittenModule IsRewrittenWith again changes' omitted' new' → IsWrittenAlike new new' }
    ensures same { (old new : List ℕ) → IsWrittenAlike old new → HasNoFollowers old → new ≡ old }
{}
