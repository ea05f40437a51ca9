//! The functions that a module names outside of bodies (WebAssembly core specification 3.0, validation,
//! modules).

ghost use Rattle.std.specs.Prelude.{◌≡◌, List, Ok, IfOk, IfErr};
ghost use Rattle.wasm_sections.specs.declared.fault.ModuleFault.TheVariants.{Memory};
ghost use Rattle.wasm_sections.specs.Components.{Components, module_of};
ghost use Rattle.wasm_sections.specs.References.{references_of};
ghost use Rattle.wasm_sections.specs.Sections.{SectionAt, IsModule};

use crate::parsed::ParsedModule;
use walrus_ir::FunctionId;
use wasm_sections::{ModuleError, Sections};

impl ParsedModule<'_> {
    /// The functions that the module names outside of bodies and custom sections, in the order of the
    /// sections, each as often as it is named: those of tables and globals, in constant expressions;
    /// those that are exported; the start function; and those of element segments, in lists of
    /// indices and in constant expressions, the offsets included. A function that isn't among them
    /// can be run only if a body names it.
    ///
    /// # Errors
    ///
    /// `Memory`.
    pub fn referenced_functions(&self) -> Result<Vec<FunctionId>, ModuleError>
        ensures found { (all : List SectionAt) → IsModule self.now.bytes.now all
            → IfOk result (λ found. references_of all ≡ Ok found.items) }
        ensures refused { (m : Components) → module_of self.now.bytes.now ≡ Ok m
            → IfErr result (λ error. error.fault ≡ Memory) }
    {
        let mut found = Vec::new(self.alloc);
        let sections = match Sections::new(self.bytes()) {
            Ok(sections) => sections,
            Err(error) => return Err(error),
        };
        'sections: for section in sections {
            let section = match section {
                Ok(section) => section,
                Err(error) => return Err(error),
            };
            match section.add_references(&mut found) {
                Ok(()) => {}
                Err(error) => return Err(error),
            }
        }
        Ok(found)
    }
}
