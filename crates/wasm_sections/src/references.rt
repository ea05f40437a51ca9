//! The functions to which the sections of a module refer (WebAssembly core specification 3.0,
//! validation, modules).

ghost use Rattle.std.specs.Prelude.{◌≡◌, ◌<◌, ◌++◌, ℕ, ◌∷◌, [], List, length, OnOk, IfErr};
ghost use Rattle.wasm_sections.specs.declared.fault.ModuleFault.TheVariants.{Memory as NoMemory};
ghost use Rattle.wasm_sections.specs.Format.{operator_part};
ghost use Rattle.wasm_sections.specs.Parts.{checked};
ghost use Rattle.wasm_sections.specs.References.{if_constant, constant_references, constant_references_if, index_references, table_references, global_references, export_references, element_references, elements_references, segment_references, item_references, references_of_each, contents_references, AddsReferences, AddsOperator};
ghost use Rattle.wasm_sections.specs.Sections.{section_id};

use crate::fault::ModuleError;
use crate::input::Input;
use crate::sections::{Section, SectionKind};
use walrus_ir::FunctionId;
use wasm_body::Space;

/// Adds the function with this index.
fn add(found: &mut Vec<FunctionId>, index: u32) -> Result<(), ModuleError>
    ensures ok { OnOk result (found.new.items ≡ found.old.items ++ index ∷ []) }
    ensures err { IfErr result (λ error. error.fault ≡ NoMemory) }
{
    found.push(FunctionId::new(index as usize))?;
    Ok(())
}

impl Input<'_> {
    /// Reads past an operator of a constant expression, and adds the function to which it refers.
    /// Returns whether it is the `end`.
    fn add_operator(&mut self, found: &mut Vec<FunctionId>) -> Result<bool, ModuleError>
        ensures same_end { self.new.end ≡ self.old.end }
        ensures shorter { OnOk result (length self.new.rest.now < length self.old.rest.now) }
        ensures is { AddsOperator found.old.items found.new.items self.new.rest.now result
            (checked operator_part if_constant self.old.end self.old.rest.now) }
    {
        let (function, is_end) = match self.constant_reference() {
            Ok(read) => read,
            Err(error) => return Err(error),
        };
        let Some(index) = function else {
            return Ok(is_end);
        };
        match add(found, index) {
            Ok(()) => Ok(is_end),
            Err(error) => Err(error),
        }
    }

    /// Reads past a constant expression, and adds the functions to which it refers.
    fn add_constant(&mut self, found: &mut Vec<FunctionId>) -> Result<(), ModuleError>
        ensures same_end { self.new.end ≡ self.old.end }
        ensures is { AddsReferences found.old.items found.new.items self.new.rest.now result
            (constant_references self.old.end self.old.rest.now) }
    {
        'operators: loop {
            match self.add_operator(found) {
                Ok(true) => return Ok(()),
                Ok(false) => {}
                Err(error) => return Err(error),
            }
        }
    }

    /// The same if it is there.
    fn add_constant_if(
        &mut self,
        is_there: bool,
        found: &mut Vec<FunctionId>,
    ) -> Result<(), ModuleError>
        ensures same_end { self.new.end ≡ self.old.end }
        ensures is { AddsReferences found.old.items found.new.items self.new.rest.now result
            (constant_references_if is_there self.old.end self.old.rest.now) }
    {
        if is_there {
            self.add_constant(found)
        } else {
            Ok(())
        }
    }

    /// Reads past the index of a function, and adds the function.
    fn add_index(&mut self, found: &mut Vec<FunctionId>) -> Result<(), ModuleError>
        ensures same_end { self.new.end ≡ self.old.end }
        ensures is { AddsReferences found.old.items found.new.items self.new.rest.now result
            (index_references self.old.end self.old.rest.now) }
    {
        match self.number() {
            Ok(index) => add(found, index),
            Err(error) => Err(error),
        }
    }

    /// Reads past a table, and adds the functions of its initial value.
    fn add_table(&mut self, found: &mut Vec<FunctionId>) -> Result<(), ModuleError>
        ensures same_end { self.new.end ≡ self.old.end }
        ensures is { AddsReferences found.old.items found.new.items self.new.rest.now result
            (table_references self.old.end self.old.rest.now) }
    {
        match self.table_front() {
            Ok(has_initial) => self.add_constant_if(has_initial, found),
            Err(error) => Err(error),
        }
    }

    /// Reads past a global, and adds the functions of its initial value.
    fn add_global(&mut self, found: &mut Vec<FunctionId>) -> Result<(), ModuleError>
        ensures same_end { self.new.end ≡ self.old.end }
        ensures is { AddsReferences found.old.items found.new.items self.new.rest.now result
            (global_references self.old.end self.old.rest.now) }
    {
        match self.global_type() {
            Ok(_) => self.add_constant(found),
            Err(error) => Err(error),
        }
    }

    /// Reads past an export, and adds the function that is exported, if it is one.
    fn add_export(&mut self, found: &mut Vec<FunctionId>) -> Result<(), ModuleError>
        ensures same_end { self.new.end ≡ self.old.end }
        ensures is { AddsReferences found.old.items found.new.items self.new.rest.now result
            (export_references self.old.end self.old.rest.now) }
    {
        let export = match self.read_export() {
            Ok(export) => export,
            Err(error) => return Err(error),
        };
        match export.space {
            Space::Funcs => add(found, export.index),
            _ => Ok(()),
        }
    }

    /// Reads past an element of a segment, and adds the functions of the expression, or the one with
    /// the index.
    fn add_element(
        &mut self,
        is_expression: bool,
        found: &mut Vec<FunctionId>,
    ) -> Result<(), ModuleError>
        ensures same_end { self.new.end ≡ self.old.end }
        ensures is { AddsReferences found.old.items found.new.items self.new.rest.now result
            (element_references is_expression self.old.end self.old.rest.now) }
    {
        if is_expression {
            self.add_constant(found)
        } else {
            self.add_index(found)
        }
    }

    /// Reads past the elements of a segment, and adds the functions of each.
    fn add_elements(
        &mut self,
        are_expressions: bool,
        found: &mut Vec<FunctionId>,
    ) -> Result<(), ModuleError>
        ensures same_end { self.new.end ≡ self.old.end }
        ensures is { AddsReferences found.old.items found.new.items self.new.rest.now result
            (references_of_each (element_references are_expressions) self.old.end
            self.old.rest.now) }
    {
        let count = match self.number() {
            Ok(count) => count,
            Err(error) => return Err(error),
        };
        'items: for _ in 0..count {
            match self.add_element(are_expressions, found) {
                Ok(()) => {}
                Err(error) => return Err(error),
            }
        }
        Ok(())
    }

    /// Reads past the type and the elements of a segment with these flags, and adds the functions of
    /// each element.
    fn add_typed_elements(
        &mut self,
        flags: u32,
        found: &mut Vec<FunctionId>,
    ) -> Result<(), ModuleError>
        ensures same_end { self.new.end ≡ self.old.end }
        ensures is { AddsReferences found.old.items found.new.items self.new.rest.now result
            (elements_references flags self.old.end self.old.rest.now) }
    {
        match self.element_type(flags) {
            Ok(()) => self.add_elements(flags >= 4, found),
            Err(error) => Err(error),
        }
    }

    /// Reads past an element segment, and adds the functions of its offset and of its elements.
    fn add_segment(&mut self, found: &mut Vec<FunctionId>) -> Result<(), ModuleError>
        ensures same_end { self.new.end ≡ self.old.end }
        ensures is { AddsReferences found.old.items found.new.items self.new.rest.now result
            (segment_references self.old.end self.old.rest.now) }
    {
        let flags = match self.element_flags() {
            Ok(flags) => flags,
            Err(error) => return Err(error),
        };
        // An active segment, whose bit 0 is clear, has an offset.
        match self.add_constant_if(flags % 2 == 0, found) {
            Ok(()) => self.add_typed_elements(flags, found),
            Err(error) => Err(error),
        }
    }

    /// Reads past an item of a section of this kind, and adds the functions to which it refers.
    fn add_item(
        &mut self,
        kind: SectionKind,
        found: &mut Vec<FunctionId>,
    ) -> Result<(), ModuleError>
        ensures same_end { self.new.end ≡ self.old.end }
        ensures is { AddsReferences found.old.items found.new.items self.new.rest.now result
            (item_references (section_id kind) self.old.end self.old.rest.now) }
    {
        match kind {
            SectionKind::Table => self.add_table(found),
            SectionKind::Global => self.add_global(found),
            SectionKind::Export => self.add_export(found),
            _ => self.add_segment(found),
        }
    }

    /// Reads past the items of a section of this kind, and adds the functions to which each refers.
    fn add_items(
        &mut self,
        kind: SectionKind,
        found: &mut Vec<FunctionId>,
    ) -> Result<(), ModuleError>
        ensures same_end { self.new.end ≡ self.old.end }
        ensures is { AddsReferences found.old.items found.new.items self.new.rest.now result
            (references_of_each (item_references (section_id kind)) self.old.end
            self.old.rest.now) }
    {
        let count = match self.number() {
            Ok(count) => count,
            Err(error) => return Err(error),
        };
        'items: for _ in 0..count {
            match self.add_item(kind, found) {
                Ok(()) => {}
                Err(error) => return Err(error),
            }
        }
        Ok(())
    }
}

impl Section<'_> {
    /// Adds the functions to which the section refers, in order and as often: those of tables and
    /// globals, in constant expressions; those that are exported; the start function; and those of
    /// element segments, in lists of indices and in constant expressions, the offsets included. Custom
    /// sections and bodies aren't looked at.
    ///
    /// # Errors
    ///
    /// The first fault of its contents, none for a section of a module that was read; or `Memory`.
    pub fn add_references(&self, found: &mut Vec<FunctionId>) -> Result<(), ModuleError>
        ensures { (following : List ℕ) × AddsReferences found.old.items found.new.items following result
            (contents_references (section_id self.now.kind) self.now.contents.end
            self.now.contents.rest.now) }
    {
        let mut contents = self.contents;
        match self.kind {
            SectionKind::Start => contents.add_index(found),
            SectionKind::Table | SectionKind::Global | SectionKind::Export | SectionKind::Element =>
                contents.add_items(self.kind, found),
            _ => Ok(()),
        }
    }
}
