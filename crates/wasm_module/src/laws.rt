//! Laws of modules that are read and of bodies that are kept, each stated as the contract of a function
//! that does nothing.

ghost use Rattle.std.specs.Prelude.{◌≡◌, ℕ, List, [], Ok};
ghost use Rattle.wasm_module.specs.declared.changing.kept_bodies.KeptBodies.{KeptBodies as Kept};
ghost use Rattle.wasm_module.specs.declared.parsed.ParsedModule.{ParsedModule as Parsed};
ghost use Rattle.wasm_module.specs.ChangedModules.{IsChangedCode, IsChangedModule};
ghost use Rattle.wasm_module.specs.KeptCode.{IsKeptWith, AreKept, AreKeptAs, AreKeptWithAs, kept_or, kept_with_or, StaysWritten};
ghost use Rattle.wasm_module.specs.ModuleCode.{HasCode};
ghost use Rattle.wasm_module.specs.RewrittenCode.{Extends, IsRewrittenWith};
ghost use Rattle.wasm_module.specs.ReadModules.{HasOneSpelling};
ghost use Rattle.wasm_module.specs.ReadSections.{IsOfSections};
ghost use Rattle.wasm_module.specs.SameModules.{IsSameModule};
ghost use Rattle.wasm_sections.specs.declared.changes.Changes.{Changes as NewSections};
ghost use Rattle.wasm_sections.specs.declared.omissions.OmittedSections.{OmittedSections as Omitted};
ghost use Rattle.wasm_sections.specs.Components.{Components, module_of};
ghost use Rattle.wasm_sections.specs.Sections.{SectionAt, IsModule};
ghost use Rattle.wasm_module.specs.ToldModules.{module_told};
ghost use Rattle.wasm_module.specs.WrittenModules.{with_some_pairs, IsWrittenCode, IsWrittenModule};

use crate::body_writer::{BodyWriter, ChangeFunction};

/// The code section that `write_module` writes from what `change_all` kept is that of the source with
/// all functions changed, each once, in order, from the state of the change before `change_all` to
/// the one after it.
pub fn law_changed_code<C: ChangeFunction>()
    ensures { (source now : Parsed) (before after : C.State) (kept : Kept) (s : SectionAt)
        (code : List ℕ) → Extends source now → AreKept C.changes source before kept after
        → IsWrittenCode (IsKeptWith kept) now s code
        → IsChangedCode C.changes source before s code after }
{}

/// The module that is written thus has the bodies of these functions, and a listener is told of them,
/// each with the location pairs of the raw body of the changed function. So the location map that
/// `write_module_with_map` writes has the lines of these pairs.
pub fn law_changed_module<C: ChangeFunction>()
    ensures { (source now : Parsed) (before after : C.State) (kept : Kept) (changes : NewSections)
        (omitted : Omitted) (new : List ℕ) → Extends source now
        → AreKept C.changes source before kept after
        → (w : IsWrittenModule (IsKeptWith kept) now changes omitted new)
        → IsChangedModule C.changes source before changes omitted new
        (module_told (IsKeptWith kept) now changes omitted new w) after }
{}

/// What `write_module` writes from what `rewrite_with` kept, and of other bodies as these write them, is
/// what these write of all bodies, for the module as it was before: where what they write for it as it is
/// now is what they write for it as it was before, as of `Rewriting` (`law_rewritten_before`). Where
/// bodies are kept with their location pairs (`Kept::with_pairs`), a listener is told of the pairs of what
/// these write.
pub fn law_kept_module<B: BodyWriter>(bodies: &B)
    ensures module { (source now : Parsed) (kept : Kept) (changes : NewSections) (omitted : Omitted)
        (new : List ℕ) → Extends source now
        → AreKeptAs (with_some_pairs (B.writes bodies.now)) source kept
        → StaysWritten (B.writes bodies.now) source now
        → IsWrittenModule (kept_or kept (B.writes bodies.now)) now changes omitted new
        → IsWrittenModule (B.writes bodies.now) source changes omitted new }
    ensures code { (source now : Parsed) (kept : Kept) (s : SectionAt) (code : List ℕ)
        → Extends source now → AreKeptAs (with_some_pairs (B.writes bodies.now)) source kept
        → StaysWritten (B.writes bodies.now) source now
        → IsWrittenCode (kept_or kept (B.writes bodies.now)) now s code
        → IsWrittenCode (B.writes bodies.now) source s code }
    ensures pairs { (source now : Parsed) (kept : Kept) (changes : NewSections) (omitted : Omitted)
        (new : List ℕ) → Extends source now → AreKeptWithAs (B.writes bodies.now) source kept
        → StaysWritten (B.writes bodies.now) source now
        → (w : IsWrittenModule (kept_with_or kept (B.writes bodies.now)) now changes omitted new)
        → (v : IsWrittenModule (B.writes bodies.now) source changes omitted new)
        × (module_told (B.writes bodies.now) source changes omitted new v
        ≡ module_told (kept_with_or kept (B.writes bodies.now)) now changes omitted new w) }
{}

/// What is written for a body of a module that was rewritten is what was written for it before, with
/// the same location pairs.
pub fn law_rewritten_before()
    ensures { (source now : Parsed) → Extends source now
        → StaysWritten IsRewrittenWith source now }
{}

/// Bytes that spell a module are one list of sections, and no other.
pub fn law_module(bytes: &[u8])
    ensures { (m : Components) → module_of bytes.now ≡ Ok m → HasOneSpelling bytes.now }
{}

/// What the bytes of a module spell is what its sections spell, read one after the other; and they are
/// in order.
pub fn law_sections(bytes: &[u8])
    ensures { (m : Components) (sections : List SectionAt) → module_of bytes.now ≡ Ok m
        → IsModule bytes.now sections → IsOfSections bytes.now m sections }
{}

/// At most one of the sections of a module is a code section. The code that its bytes spell is that of
/// this section: a body for each function that isn't imported. Without such a section there is no code,
/// and no such function.
pub fn law_code(bytes: &[u8])
    ensures { (m : Components) (sections : List SectionAt) → module_of bytes.now ≡ Ok m
        → IsModule bytes.now sections → HasCode m sections }
{}

/// The module that is written for a source, without sections that are given contents, consists of
/// the same as the source: only its bodies are others, as these write them, and custom sections that
/// are changed along with them or are left out.
pub fn law_written_module<B: BodyWriter>(bodies: &B)
    ensures { (source : Parsed) (m : Components) (changes : NewSections) (omitted : Omitted)
        (new : List ℕ) → module_of source.bytes.now ≡ Ok m → changes.given.items ≡ []
        → IsWrittenModule (B.writes bodies.now) source changes omitted new
        → IsSameModule (B.writes bodies.now) source m new }
{}
