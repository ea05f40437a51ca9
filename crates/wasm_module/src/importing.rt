//! Functions that are imported besides those of the source (WebAssembly core specification 3.0,
//! binary format, import section).

ghost use Rattle.std.specs.Prelude.{◌≡◌, ◌+◌, List, Ok, IfOk, IfErr, OnOk, OnErr, option_map};
ghost use Rattle.wasm_operators.specs.declared.types.Space.TheVariants.{Types};
ghost use Rattle.walrus_maps.specs.IndexMaps.{number_of};
ghost use Rattle.wasm_sections.specs.Additions.{IsTooMuch};
ghost use Rattle.wasm_sections.specs.MovedFunctions.{import_of};
ghost use Rattle.wasm_module.specs.ImportedFunctions.{contents_if, AreMovedIf, MovesSection, MoveSections, naming_functions, ImportsFunction, AddsImport, HasOneImportMore, IsNextFunction, IsWrittenFunction};
ghost use Rattle.wasm_sections.specs.Sections.{SectionAt, IsModule, section_id};

use crate::parsed::ParsedModule;
use std::alloc::Global;
use walrus_body::ParseError;
use walrus_ir::{FunctionId, TypeId};
use wasm_sections::{
    Changes, FunctionNumbers, ModuleError, ModuleFault, SectionKind, write_bytes, write_number,
};

/// The kind of imported functions (WebAssembly core specification 3.0, binary format, imports).
const IMPORTED_FUNCTION: u8 = 0;

/// An import of a function: the name of its module, its own name, and the index of its type.
fn import_item(alloc: Global, from: &str, name: &str, ty: u32) -> Result<Vec<u8>, ModuleError>
    ensures { IfOk result (λ item. item.items ≡ import_of from.now name.now ty) }
{
    let mut item = Vec::new(alloc);
    write_bytes(&mut item, from.as_bytes())?;
    write_bytes(&mut item, name.as_bytes())?;
    item.push(IMPORTED_FUNCTION)?;
    write_number(&mut item, ty as usize)?;
    Ok(item)
}

impl<'a> ParsedModule<'a> {
    /// How the indices of the source's functions change in the module that is written.
    pub(crate) fn function_numbers(&self) -> Result<FunctionNumbers, ModuleError> {
        FunctionNumbers::new(self.imported(), self.spaces.more_imports)
    }

    /// `InconsistentChange` unless all functions that were imported besides those of the source are
    /// imported by these changes.
    pub(crate) fn check_imports(&self, changes: &Changes) -> Result<(), ModuleError>
        ensures { OnOk result (changes.now.imports ≡ self.now.spaces.more_imports) }
    {
        if changes.imports == self.spaces.more_imports {
            return Ok(());
        }
        Err(ModuleError {
            fault: ModuleFault::InconsistentChange,
            at: 0,
        })
    }

    /// The index of a function in the module that is written: its id, unless functions were imported
    /// besides those of the source.
    pub(crate) fn written_function(&self, function: FunctionId) -> Result<usize, ModuleError>
        ensures index { IfOk result (IsWrittenFunction self.now function) }
        ensures refused { IfErr result IsTooMuch }
    {
        if self.spaces.more_imports == 0 {
            return Ok(function.index());
        }
        match self.spaces.numbers.get_func_index(function) {
            Ok(index) => Ok(index as usize),
            Err(error) => Err(ModuleError::of_index(error, 0)),
        }
    }

    /// The index of a function type in the module that is written.
    pub(crate) fn imported_type(&self, ty: TypeId) -> Result<u32, ModuleError>
        ensures { IfOk result (λ index. number_of self.now.spaces.numbers Types ty ≡ Ok index) }
    {
        if !self.module.types.is_func(ty) {
            return Err(ModuleError {
                fault: ModuleFault::Parse(ParseError::NotAFunctionType),
                at: 0,
            });
        }
        match self.spaces.numbers.get_type_index(ty) {
            Ok(index) => Ok(index),
            Err(error) => Err(ModuleError::of_index(error, 0)),
        }
    }

    /// The contents of the section of this kind: those that are given, or those of the source, if
    /// there are some.
    fn contents_if<'c>(
        &'c self,
        changes: &'c Changes,
        kind: SectionKind,
    ) -> Result<Option<&'c [u8]>, ModuleError>
        ensures { (all : List SectionAt) → IsModule self.now.bytes.now all → IfOk result
            (λ found. option_map (λ c. c.now) found ≡ contents_if all changes.now (section_id kind)) }
    {
        if let Some(contents) = changes.contents_of(kind) {
            return Ok(Some(contents));
        }
        match self.section(kind) {
            Ok(Some(section)) => Ok(Some(section.contents())),
            Ok(None) => Ok(None),
            Err(error) => Err(error),
        }
    }

    /// The contents of the section of this kind with new indices of functions, if there is one.
    fn moved_if(
        &self,
        changes: &Changes,
        kind: SectionKind,
        numbers: FunctionNumbers,
    ) -> Result<Option<Vec<u8>>, ModuleError>
        ensures { (all : List SectionAt) → IsModule self.now.bytes.now all → IfOk result
            (λ found. AreMovedIf numbers.imported numbers.added kind
            (contents_if all changes.now (section_id kind)) (option_map (λ v. v.items) found)) }
    {
        match self.contents_if(changes, kind) {
            Ok(Some(contents)) => match numbers.moved_contents(self.alloc, kind, contents) {
                Ok(moved) => Ok(Some(moved)),
                Err(error) => Err(error),
            },
            Ok(None) => Ok(None),
            Err(error) => Err(error),
        }
    }

    /// Changes the indices of functions in the section of this kind, if there is one.
    fn move_section(
        &self,
        changes: &mut Changes,
        kind: SectionKind,
        numbers: FunctionNumbers,
    ) -> Result<(), ModuleError>
        ensures { (all : List SectionAt) → IsModule self.now.bytes.now all → OnOk result
            (MovesSection numbers.imported numbers.added all kind changes.old changes.new) }
    {
        match self.moved_if(changes, kind, numbers) {
            Ok(Some(moved)) => changes.set_contents(kind, moved),
            Ok(None) => Ok(()),
            Err(error) => Err(error),
        }
    }

    /// Changes the indices of functions in all sections but the code section and custom ones. The
    /// offset of a data segment is a number, and no constant instruction makes a number from a
    /// function.
    fn move_sections(
        &self,
        changes: &mut Changes,
        numbers: FunctionNumbers,
    ) -> Result<(), ModuleError>
        ensures { (all : List SectionAt) → IsModule self.now.bytes.now all → OnOk result
            (MoveSections numbers.imported numbers.added all naming_functions
            changes.old changes.new) }
    {
        match self.move_section(changes, SectionKind::Table, numbers) {
            Ok(()) => {}
            Err(error) => return Err(error),
        }
        match self.move_section(changes, SectionKind::Global, numbers) {
            Ok(()) => {}
            Err(error) => return Err(error),
        }
        match self.move_section(changes, SectionKind::Export, numbers) {
            Ok(()) => {}
            Err(error) => return Err(error),
        }
        match self.move_section(changes, SectionKind::Start, numbers) {
            Ok(()) => {}
            Err(error) => return Err(error),
        }
        match self.move_section(changes, SectionKind::Element, numbers) {
            Ok(()) => Ok(()),
            Err(error) => Err(error),
        }
    }

    /// Appends an import of a function, whose index comes after those of all imported ones, to the
    /// import section, and changes the indices of functions in the other sections.
    fn write_import(
        &self,
        changes: &mut Changes,
        item: &[u8],
        numbers: FunctionNumbers,
    ) -> Result<(), ModuleError>
        ensures { (all : List SectionAt) → IsModule self.now.bytes.now all → OnOk result
            (ImportsFunction all numbers.imported numbers.added item.now
            changes.old changes.new) }
    {
        changes.imports = changes.imports.saturating_add(1);
        match self.move_sections(changes, numbers) {
            Ok(()) => {}
            Err(error) => return Err(error),
        }
        match self.add_item(changes, SectionKind::Import, item) {
            Ok(()) => Ok(()),
            Err(error) => Err(error),
        }
    }

    /// The numbers if one more function is imported, after those that are imported so far.
    fn next_numbers(&self) -> Result<FunctionNumbers, ModuleError>
        ensures imported { IfOk result (λ numbers. numbers.imported
            ≡ self.now.imported + self.now.spaces.more_imports) }
        ensures added { IfOk result (λ numbers. numbers.added ≡ 1) }
    {
        match self.imported().checked_add(self.spaces.more_imports) {
            Some(imported) => FunctionNumbers::new(imported, 1),
            None => Err(ModuleError {
                fault: ModuleFault::TooGreat,
                at: 0,
            }),
        }
    }

    /// Gives one more imported function its id and its index, and the functions with a body their
    /// new indices.
    fn renumber_functions(&mut self) -> Result<FunctionId, ModuleError>
        ensures ok { OnOk result (HasOneImportMore self.old self.new) }
        ensures id { IfOk result (IsNextFunction self.old) }
        ensures err { OnErr result (self.new ≡ self.old) }
    {
        let (alloc, total, imported) = (self.alloc, self.func_types.len(), self.imported());
        match self.spaces.import_func(alloc, total, imported) {
            Ok(id) => Ok(id),
            Err(error) => Err(ModuleError::of_index(error, 0)),
        }
    }

    /// Imports one more function: the item with this name from the module with the name `from`, of
    /// a function type of the module (WebAssembly core specification 3.0, structure, imports).
    /// Instructions may name it by the id that is returned. In the module that is written, its index
    /// is the number of functions that were imported so far, so that the index of each function with
    /// a body grows by one. All that names functions follows: code, exports, the start function,
    /// element segments, the constant expressions of globals and tables, and, when the module is
    /// rewritten, names of functions, of their locals and labels, and metadata of code.
    ///
    /// The ids of functions stay the indices of the source. Only the contents that the changes give
    /// contain indices of the module that is written, as it is then: this call changes them too.
    ///
    /// Functions with a body can be added only after all imports (`add_function`).
    ///
    /// From this call on the module can be rewritten and written only with these changes, and not if
    /// it was rewritten before.
    ///
    /// # Errors
    ///
    /// `InconsistentChange` if functions were imported with other changes; `LateImport` if a function
    /// was added; `NotAFunctionType` if the type isn't a function type of the module; the first fault of the contents of a section, with
    /// its place among them; `TooGreat` if the type has no index, or a number doesn't fit 32 bits; or
    /// `Memory`. The module is as before then, but if it isn't one of the first three, the changes can't
    /// be used any more.
    pub fn import_function(
        &mut self,
        changes: &mut Changes,
        from: &str,
        name: &str,
        ty: TypeId,
    ) -> Result<FunctionId, ModuleError>
        ensures ok { OnOk result (HasOneImportMore self.old self.new) }
        ensures id { IfOk result (IsNextFunction self.old) }
        ensures adds { (all : List SectionAt) → IsModule self.old.bytes.now all → OnOk result
            (AddsImport self.old from.now name.now ty all changes.old changes.new) }
        ensures err { OnErr result (self.new ≡ self.old) }
    {
        self.check_imports(changes)?;
        self.check_none_added()?;
        let index = self.imported_type(ty)?;
        let numbers = self.next_numbers()?;
        let item = import_item(self.alloc, from, name, index)?;
        self.write_import(changes, &item, numbers)?;
        match self.renumber_functions() {
            Ok(id) => Ok(id),
            Err(error) => Err(error),
        }
    }
}
