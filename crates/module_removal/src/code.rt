//! The code of what is left.

ghost use Rattle.std.specs.Prelude.{◌≡◌, OnOk};
ghost use Rattle.module_removal.specs.LeftParts.{ArePartsInOrder};

use crate::followed::{Followed, is_metadata};
use crate::names::local_names;
use crate::parts::done;
use std::alloc::Global;
use walrus_ir::{IdHashMap, InstrLocId, LocalId};
use wasm_sections::{Body, ModuleError, SectionKind, Sections, write_bytes};

/// The bodies of the functions that are left, written under the new indices.
#[derive(Drop)]
pub struct LeftCode {
    /// The bodies, each after its size.
    pub(crate) bodies: Vec<u8>,
    /// How many there are.
    pub(crate) count: usize,
    /// The operators that have metadata.
    pub(crate) operators: Followed,
    /// The locals that have names.
    pub(crate) locals: Followed,
}

/// Reads which operators have metadata, and which locals have names.
fn read_followed(code: &mut LeftCode, bytes: &[u8]) -> Result<(), ModuleError>
    ensures same { code.new ≡ record code.old { operators = code.new.operators; locals = code.new.locals } }
    ensures operators { OnOk result (ArePartsInOrder code.new.operators.parts.items) }
    ensures locals { OnOk result (ArePartsInOrder code.new.locals.parts.items) }
{
    'sections: for section in done!(Sections::new(bytes)) {
        let section = done!(section);
        if section.kind != SectionKind::Custom {
            continue;
        }
        let (name, contents) = done!(section.named_input());
        if is_metadata(name) {
            done!(code.operators.add(contents));
        } else if name == "name" {
            if let Some(locals) = done!(local_names(contents)) {
                done!(code.locals.add(locals));
            }
        }
    }
    code.operators.sort();
    code.locals.sort();
    Ok(())
}

impl LeftCode {
    ghost use Rattle.std.specs.Prelude.{◌≡◌, ◌++◌, [], OnOk, IfOk};
    ghost use Rattle.wasm_sections.specs.CodeSections.{entry};
    ghost use Rattle.module_removal.specs.ItemNumbers.{counted_more};
    ghost use Rattle.module_removal.specs.LeftParts.{ArePartsInOrder};

    /// The code of a module with these bytes, of which no body is written.
    ///
    /// # Errors
    ///
    /// The first fault of a section with names or with metadata of code, or `Memory`.
    pub fn new(alloc: Global, bytes: &[u8]) -> Result<LeftCode, ModuleError>
        ensures bodies { IfOk result (λ code. code.bodies.items ≡ []) }
        ensures count { IfOk result (λ code. code.count ≡ 0) }
        ensures operators { IfOk result (λ code. ArePartsInOrder code.operators.parts.items) }
        ensures locals { IfOk result (λ code. ArePartsInOrder code.locals.parts.items) }
    {
        let mut code = LeftCode {
            bodies: Vec::new(alloc),
            count: 0,
            operators: Followed::new(alloc),
            locals: Followed::new(alloc),
        };
        match read_followed(&mut code, bytes) {
            Ok(()) => Ok(code),
            Err(error) => Err(error),
        }
    }

    /// Whether the location pairs of this body are needed.
    pub fn needs_pairs(&self, body: &Body<'_>) -> bool {
        self.operators.has(body.func)
    }

    /// Whether the new indices of the locals of this body are needed.
    pub fn needs_locals(&self, body: &Body<'_>) -> bool {
        self.locals.has(body.func)
    }

    /// Sets the new indices of the locals of a body, by their old ones.
    pub fn set_locals(&mut self, body: &Body<'_>, numbers: &IdHashMap<LocalId, u32>)
        ensures same { self.new ≡ record self.old { locals = self.new.locals } }
        ensures order { ArePartsInOrder self.old.locals.parts.items → ArePartsInOrder self.new.locals.parts.items }
    {
        self.locals.pass_locals(body.func, numbers);
    }

    /// Adds the next body that is left, as it is written, with its location pairs: for each operator its place in the file,
    /// and its offset from the first byte that is written.
    ///
    /// # Errors
    ///
    /// `TooGreat` or `Memory`.
    pub fn add(
        &mut self,
        body: &Body<'_>,
        raw: &[u8],
        pairs: &[(InstrLocId, usize)],
    ) -> Result<(), ModuleError>
        ensures bodies { OnOk result (self.new.bodies.items ≡ self.old.bodies.items ++ entry raw.now) }
        ensures count { OnOk result (self.new.count ≡ counted_more self.old.count 1) }
        ensures locals { self.new.locals ≡ self.old.locals }
        ensures order { ArePartsInOrder self.old.operators.parts.items → ArePartsInOrder self.new.operators.parts.items }
    {
        self.operators
            .pass_operators(body.func, body.start(), pairs);
        self.count = self.count.saturating_add(1);
        write_bytes(&mut self.bodies, raw)
    }
}
