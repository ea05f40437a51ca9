//! Laws of the sections and the functions of a module that is written, and of what is read of it, each stated
//! as the contract of a function that does nothing.

ghost use Rattle.std.specs.Prelude.{◌≡◌, ℕ, List, Some, Ok};
ghost use Rattle.wasm_module.specs.declared.parsed.ParsedModule.{ParsedModule as Parsed};
ghost use Rattle.wasm_module.specs.ChangedModules.{IsOneOf, IsChangedModule};
ghost use Rattle.wasm_module.specs.ReadFrom.{IsModuleOf};
ghost use Rattle.wasm_module.specs.ReadModules.{components_of};
ghost use Rattle.wasm_module.specs.ReadSections.{IsOfSections};
ghost use Rattle.wasm_module.specs.ToldBodies.{ToldBody};
ghost use Rattle.wasm_module.specs.WrittenModules.{IsWrittenModule};
ghost use Rattle.wasm_module.specs.WrittenSections.{IsReadAsWritten, HasWrittenBodies, HasBodiesAndAdded, GivesNoFunctions, HasSameFunctions};
ghost use Rattle.wasm_sections.specs.declared.changes.Changes.{Changes as NewSections};
ghost use Rattle.wasm_sections.specs.declared.omissions.OmittedSections.{OmittedSections as Omitted};
ghost use Rattle.wasm_sections.specs.Components.{Components, module_of};
ghost use Rattle.wasm_sections.specs.Sections.{SectionAt, IsModule};

use crate::body_writer::{BodyWriter, ChangeFunction};

/// What is written is a module with these sections, by their ids and contents: those of the source, of
/// which some have given contents or are left out, and given ones between them, by rank. What is read of
/// it is what these spell, one after the other.
pub fn law_written_sections<B: BodyWriter>(bodies: &B)
    ensures { (source : Parsed) (changes : NewSections) (omitted : Omitted) (new : List ℕ)
        → IsWrittenModule (B.writes bodies.now) source changes omitted new
        → IsReadAsWritten (B.writes bodies.now) source changes omitted new }
{}

/// The bodies of a module that is read from what was written for one with a code section are those of the
/// source, each as it is written, and then those that are added. Where no types, imports or functions are
/// given, it has the types of the source, and its functions, each with the same index and type.
pub fn law_written_functions<B: BodyWriter>(bodies: &B)
    ensures bodies { (source : Parsed) (bytes new : List ℕ) (code : ℕ × List ℕ)
        (changes : NewSections) (omitted : Omitted) (m : Components) → IsModuleOf bytes source
        → (components_of source).code ≡ Some code
        → IsWrittenModule (B.writes bodies.now) source changes omitted new → module_of new ≡ Ok m
        → HasWrittenBodies (B.writes bodies.now) source changes m }
    ensures functions { (source : Parsed) (bytes new : List ℕ) (changes : NewSections)
        (omitted : Omitted) (m : Components) → IsModuleOf bytes source
        → IsWrittenModule (B.writes bodies.now) source changes omitted new → module_of new ≡ Ok m
        → GivesNoFunctions changes → HasSameFunctions (components_of source) m }
{}

/// The same of a module that is written after its functions were changed: its bodies are as the changes made
/// them, in order, and then come those that are added.
pub fn law_changed_functions<C: ChangeFunction>()
    ensures sections { (source : Parsed) (new : List ℕ) (before after : C.State)
        (changes : NewSections) (omitted : Omitted) (told : List ToldBody)
        → (w : IsChangedModule C.changes source before changes omitted new told after)
        → IsReadAsWritten (IsOneOf w.bodies w.raws w.pairs) source changes omitted new }
    ensures bodies { (source : Parsed) (bytes new : List ℕ) (code : ℕ × List ℕ)
        (before after : C.State) (changes : NewSections) (omitted : Omitted) (told : List ToldBody)
        (m : Components) → IsModuleOf bytes source → (components_of source).code ≡ Some code
        → (w : IsChangedModule C.changes source before changes omitted new told after)
        → module_of new ≡ Ok m → HasBodiesAndAdded changes w.raws m }
    ensures functions { (source : Parsed) (bytes new : List ℕ) (before after : C.State)
        (changes : NewSections) (omitted : Omitted) (told : List ToldBody) (m : Components)
        → IsModuleOf bytes source
        → IsChangedModule C.changes source before changes omitted new told after
        → module_of new ≡ Ok m → GivesNoFunctions changes
        → HasSameFunctions (components_of source) m }
{}

/// The bytes of a module with sections in order, whose contents are read one after the other, spell what
/// these give: the converse of `law_sections`.
pub fn law_spelled_module(bytes: &[u8])
    ensures { (m : Components) (sections : List SectionAt) → IsModule bytes.now sections
        → IsOfSections bytes.now m sections → module_of bytes.now ≡ Ok m }
{}
