//! Items that are added to sections (WebAssembly core specification 3.0, binary format, modules).
ghost use Rattle.std.specs.Prelude.{◌≡◌, ◌≢◌, ◌+◌, ◌-◌, ◌++◌, ℕ, List, Ok, OnOk, OnErr, IfOk, IfErr, IsOk};
ghost use Rattle.wasm_operators.specs.declared.types.Space.TheVariants.{Funcs, Tables, Memories, Globals, Tags};
ghost use Rattle.wasm_sections.specs.Additions.{AreUnchanged, AddsItem, contents_with, source_contents, IsTooMuch, IsNotAdded};
ghost use Rattle.wasm_sections.specs.Components.{Components, module_of};
ghost use Rattle.wasm_sections.specs.Constants.{global_of};
ghost use Rattle.wasm_sections.specs.DefinedItems.{DefinesGlobal};
ghost use Rattle.wasm_sections.specs.GivenContents.{contents_in};
ghost use Rattle.wasm_sections.specs.declared.fault.ModuleFault.TheVariants.{ExportTaken};
ghost use Rattle.wasm_module.specs.AddedItems.{export_of, AddsExport, SectionExports, GivenExports, IsExported, ChangesNumbersAlone};
ghost use Rattle.wasm_module.specs.ImportedFunctions.{IsWrittenFunction};
ghost use Rattle.wasm_sections.specs.Sections.{SectionAt, IsModule, first_with, section_id};

mod data;
mod functions;
mod types;

use crate::parsed::ParsedModule;
use std::alloc::Global;
use walrus_body::Space;
use walrus_ir::{FunctionId, GlobalId, MemoryId, TableId, TagId, Value};
use wasm_sections::{
    Changes, Exports, Input, ModuleError, ModuleFault, SectionKind, export_kind, write_bytes,
    write_global, write_number,
};

/// `ExportTaken`, at this place.
fn export_taken(at: usize) -> ModuleError
    ensures { result.fault ≡ ExportTaken }
{
    ModuleError {
        fault: ModuleFault::ExportTaken,
        at,
    }
}

/// `ExportTaken`, without a place, if an export that is given has this name.
fn refuse_added_export(changes: &Changes, name: &str) -> Result<(), ModuleError>
    ensures free { OnOk result (¬ GivenExports name.now (contents_in changes.now.given.items 7)) }
    ensures taken { IfErr result (λ error. error.fault ≡ ExportTaken
        → GivenExports name.now (contents_in changes.now.given.items 7)) }
{
    match changes.contents_of(SectionKind::Export) {
        Some(contents) => match Exports::place_in(Input::new(contents), name) {
            Ok(Some(_)) => Err(export_taken(0)),
            Ok(None) => Ok(()),
            Err(error) => Err(error),
        },
        None => Ok(()),
    }
}

/// Appends an export: its name, the kind of what it names, and the index of that.
#[tactic(auto, using(wasm_encode::proofs::Appending::appending))]
fn write_export(out: &mut Vec<u8>, name: &str, kind: u8, index: usize) -> Result<(), ModuleError>
    ensures written { OnOk result (out.new.items ≡ out.old.items ++ export_of name.now kind index) }
    ensures refused { IfErr result IsTooMuch }
{
    match write_bytes(out, name.as_bytes()) {
        Ok(()) => {}
        Err(error) => return Err(error),
    }
    out.push(kind)?;
    write_number(out, index)
}

impl<'a> ParsedModule<'a> {
    /// The contents of the source's section of this kind, or no items.
    fn source_contents(&self, kind: SectionKind) -> Result<&'a [u8], ModuleError>
        ensures are { (all : List SectionAt) → IsModule self.now.bytes.now all → IfOk result
            (λ contents. contents.now ≡ source_contents (first_with (section_id kind) all)) }
        ensures never_refused { (m : Components) → module_of self.now.bytes.now ≡ Ok m
            → IsOk result }
    {
        match self.section(kind) {
            Ok(Some(section)) => Ok(section.contents()),
            Ok(None) => Ok(&[0]),
            Err(error) => Err(error),
        }
    }

    /// The contents of the section of this kind: those that are given, or those of the source, or no
    /// items.
    pub(crate) fn contents_with<'c>(
        &'c self,
        changes: &'c Changes,
        kind: SectionKind,
    ) -> Result<&'c [u8], ModuleError>
        ensures { (all : List SectionAt) → IsModule self.now.bytes.now all → IfOk result
            (λ contents. contents.now ≡ contents_with all changes.now (section_id kind)) }
    {
        match changes.contents_of(kind) {
            Some(contents) => Ok(contents),
            None => self.source_contents(kind),
        }
    }

    /// Appends an item to the section of this kind, or to a new one.
    pub(crate) fn add_item(
        &self,
        changes: &mut Changes,
        kind: SectionKind,
        item: &[u8],
    ) -> Result<(), ModuleError>
        ensures ok { (all : List SectionAt) → IsModule self.now.bytes.now all
            → OnOk result (AddsItem all changes.old changes.new (section_id kind) item.now) }
        ensures err { OnErr result (AreUnchanged changes.old changes.new) }
        ensures refused { (all : List SectionAt) (m : Components) → IsModule self.now.bytes.now all
            → module_of self.now.bytes.now ≡ Ok m
            → IfErr result (IsNotAdded (contents_with all changes.old (section_id kind))) }
    {
        let contents = self.source_contents(kind)?;
        match changes.add_after(kind, contents, item) {
            Ok(()) => Ok(()),
            Err(error) => Err(error),
        }
    }

    /// Adds a global after all others. Its bytes are its type and a constant expression. Changes of
    /// functions may name it by its id; no body of the source can, since it has no index there.
    ///
    /// # Errors
    ///
    /// The first fault of its bytes, with its place among them; `TooGreat` if there are too many
    /// globals; or `Memory`.
    pub fn add_global(
        &mut self,
        changes: &mut Changes,
        global: &[u8],
    ) -> Result<GlobalId, ModuleError>
        ensures ok { (all : List SectionAt) → IsModule self.old.bytes.now all
            → OnOk result (AddsItem all changes.old changes.new 6 global.now) }
        ensures err { OnErr result (AreUnchanged changes.old changes.new) }
        ensures defined { IfOk result (λ id. DefinesGlobal id self.old.spaces self.new.spaces) }
        ensures kept { ChangesNumbersAlone Globals self.old self.new }
    {
        let mut input = Input::new(global);
        match input.global() {
            Ok(_) => {}
            Err(error) => return Err(error),
        }
        match input.finish() {
            Ok(()) => self.push_global(changes, global),
            Err(error) => Err(error),
        }
    }

    /// Adds a global with this initial value after all others.
    ///
    /// # Errors
    ///
    /// `TooGreat` if there are too many globals; or `Memory`.
    pub fn add_value_global(
        &mut self,
        changes: &mut Changes,
        value: Value,
        is_mutable: bool,
    ) -> Result<GlobalId, ModuleError>
        ensures ok { (all : List SectionAt) → IsModule self.old.bytes.now all
            → OnOk result (AddsItem all changes.old changes.new 6 (global_of value is_mutable)) }
        ensures err { OnErr result (AreUnchanged changes.old changes.new) }
        ensures defined { IfOk result (λ id. DefinesGlobal id self.old.spaces self.new.spaces) }
        ensures kept { ChangesNumbersAlone Globals self.old self.new }
    {
        let mut global = Vec::new(self.alloc);
        match write_global(&mut global, value, is_mutable) {
            Ok(()) => {}
            Err(error) => return Err(error),
        }
        match self.push_global(changes, &global) {
            Ok(id) => Ok(id),
            Err(error) => Err(error),
        }
    }

    /// Adds a global with these bytes.
    fn push_global(&mut self, changes: &mut Changes, global: &[u8]) -> Result<GlobalId, ModuleError>
        ensures ok { (all : List SectionAt) → IsModule self.old.bytes.now all
            → OnOk result (AddsItem all changes.old changes.new 6 global.now) }
        ensures err { OnErr result (AreUnchanged changes.old changes.new) }
        ensures defined { IfOk result (λ id. DefinesGlobal id self.old.spaces self.new.spaces) }
        ensures kept { ChangesNumbersAlone Globals self.old self.new }
    {
        let id = match self.spaces.define_global() {
            Ok(id) => id,
            Err(error) => return Err(ModuleError::of_index(error, 0)),
        };
        match self.add_item(changes, SectionKind::Global, global) {
            Ok(()) => Ok(id),
            Err(error) => Err(error),
        }
    }

    /// `ExportTaken` if an export of the source has this name, with its place.
    fn refuse_export(&self, name: &str) -> Result<(), ModuleError>
        ensures free { (all : List SectionAt) → IsModule self.now.bytes.now all
            → OnOk result (¬ SectionExports name.now (first_with 7 all)) }
        ensures taken { (all : List SectionAt) (m : Components) → IsModule self.now.bytes.now all
            → module_of self.now.bytes.now ≡ Ok m → IfErr result
            (λ error. error.fault ≡ ExportTaken → SectionExports name.now (first_with 7 all)) }
    {
        match self.section(SectionKind::Export) {
            Ok(Some(section)) => match Exports::place_in(section.contents, name) {
                Ok(Some(at)) => Err(export_taken(at)),
                Ok(None) => Ok(()),
                Err(error) => Err(error),
            },
            Ok(None) => Ok(()),
            Err(error) => Err(error),
        }
    }

    /// `ExportTaken` if an export of the source has this name, with its place, or one that is given.
    fn refuse_taken(&self, changes: &Changes, name: &str) -> Result<(), ModuleError>
        ensures free { (all : List SectionAt) → IsModule self.now.bytes.now all
            → OnOk result (¬ IsExported all changes.now name.now) }
        ensures taken { (all : List SectionAt) (m : Components) → IsModule self.now.bytes.now all
            → module_of self.now.bytes.now ≡ Ok m → IfErr result
            (λ error. error.fault ≡ ExportTaken → IsExported all changes.now name.now) }
    {
        match self.refuse_export(name) {
            Ok(()) => refuse_added_export(changes, name),
            Err(error) => Err(error),
        }
    }

    /// Exports an item under a name that no export has: its kind, and its index.
    fn add_export(
        &self,
        changes: &mut Changes,
        name: &str,
        kind: u8,
        index: usize,
    ) -> Result<(), ModuleError>
        ensures ok { (all : List SectionAt) → IsModule self.now.bytes.now all → OnOk result
            (AddsItem all changes.old changes.new 7 (export_of name.now kind index)) }
        ensures err { OnErr result (AreUnchanged changes.old changes.new) }
        ensures refused { (all : List SectionAt) (m : Components) → IsModule self.now.bytes.now all
            → module_of self.now.bytes.now ≡ Ok m
            → IfErr result (λ error. error.fault ≢ ExportTaken) }
    {
        let mut item = Vec::new(self.alloc);
        match write_export(&mut item, name, kind, index) {
            Ok(()) => {}
            Err(error) => return Err(error),
        }
        match self.add_item(changes, SectionKind::Export, &item) {
            Ok(()) => Ok(()),
            Err(error) => Err(error),
        }
    }

    /// Exports an item under a name: the one with this index in this index space, in the module that
    /// is written. It isn't checked whether there is one.
    ///
    /// # Errors
    ///
    /// `BadExportKind` if nothing in this space can be exported; `ExportTaken` if another export
    /// has this name, with its place where it is of the source; `TooGreat` if the index or the number of exports doesn't
    /// fit 32 bits; or `Memory`.
    pub fn export(
        &self,
        changes: &mut Changes,
        name: &str,
        space: Space,
        index: usize,
    ) -> Result<(), ModuleError>
        ensures ok { (all : List SectionAt) → IsModule self.now.bytes.now all
            → OnOk result (AddsExport all changes.old changes.new name.now space index) }
        ensures err { OnErr result (AreUnchanged changes.old changes.new) }
        // No export has the name of another.
        ensures free { (all : List SectionAt) → IsModule self.now.bytes.now all
            → OnOk result (¬ IsExported all changes.old name.now) }
        ensures taken { (all : List SectionAt) (m : Components) → IsModule self.now.bytes.now all
            → module_of self.now.bytes.now ≡ Ok m → IfErr result
            (λ error. error.fault ≡ ExportTaken → IsExported all changes.old name.now) }
    {
        let Some(kind) = export_kind(space) else {
            return Err(ModuleError {
                fault: ModuleFault::BadExportKind,
                at: 0,
            });
        };
        match self.refuse_taken(changes, name) {
            Ok(()) => self.add_export(changes, name, kind, index),
            Err(error) => Err(error),
        }
    }

    /// Exports a function under a name. Functions that are imported besides those of the source may be
    /// imported before this call or after it.
    ///
    /// # Errors
    ///
    /// `ExportTaken` if another export has this name, with its place where it is of the source; `TooGreat` if the
    /// function's index or the number of exports doesn't fit 32 bits, or if functions were imported and
    /// the module has no such function; or `Memory`.
    pub fn export_function(
        &self,
        changes: &mut Changes,
        name: &str,
        function: FunctionId,
    ) -> Result<(), ModuleError>
        ensures ok { (all : List SectionAt) → IsModule self.now.bytes.now all
            → OnOk result ((index : ℕ) × IsWrittenFunction self.now function index
            × AddsExport all changes.old changes.new name.now Funcs index) }
        ensures err { OnErr result (AreUnchanged changes.old changes.new) }
        // No export has the name of another.
        ensures free { (all : List SectionAt) → IsModule self.now.bytes.now all
            → OnOk result (¬ IsExported all changes.old name.now) }
        ensures taken { (all : List SectionAt) (m : Components) → IsModule self.now.bytes.now all
            → module_of self.now.bytes.now ≡ Ok m → IfErr result
            (λ error. error.fault ≡ ExportTaken → IsExported all changes.old name.now) }
    {
        let index = match self.written_function(function) {
            Ok(index) => index,
            Err(error) => return Err(error),
        };
        match self.export(changes, name, Space::Funcs, index) {
            Ok(()) => Ok(()),
            Err(error) => Err(error),
        }
    }

    /// Exports a table under a name.
    ///
    /// # Errors
    ///
    /// `ExportTaken` if another export has this name, with its place where it is of the source; `TooGreat` if the
    /// table's index or the number of exports doesn't fit 32 bits; or `Memory`.
    pub fn export_table(
        &self,
        changes: &mut Changes,
        name: &str,
        table: TableId,
    ) -> Result<(), ModuleError>
        ensures ok { (all : List SectionAt) → IsModule self.now.bytes.now all
            → OnOk result (AddsExport all changes.old changes.new name.now Tables table) }
        ensures err { OnErr result (AreUnchanged changes.old changes.new) }
        // No export has the name of another.
        ensures free { (all : List SectionAt) → IsModule self.now.bytes.now all
            → OnOk result (¬ IsExported all changes.old name.now) }
        ensures taken { (all : List SectionAt) (m : Components) → IsModule self.now.bytes.now all
            → module_of self.now.bytes.now ≡ Ok m → IfErr result
            (λ error. error.fault ≡ ExportTaken → IsExported all changes.old name.now) }
    {
        self.export(changes, name, Space::Tables, table.index())
    }

    /// Exports a memory under a name.
    ///
    /// # Errors
    ///
    /// `ExportTaken` if another export has this name, with its place where it is of the source; `TooGreat` if the
    /// memory's index or the number of exports doesn't fit 32 bits; or `Memory`.
    pub fn export_memory(
        &self,
        changes: &mut Changes,
        name: &str,
        memory: MemoryId,
    ) -> Result<(), ModuleError>
        ensures ok { (all : List SectionAt) → IsModule self.now.bytes.now all
            → OnOk result (AddsExport all changes.old changes.new name.now Memories memory) }
        ensures err { OnErr result (AreUnchanged changes.old changes.new) }
        // No export has the name of another.
        ensures free { (all : List SectionAt) → IsModule self.now.bytes.now all
            → OnOk result (¬ IsExported all changes.old name.now) }
        ensures taken { (all : List SectionAt) (m : Components) → IsModule self.now.bytes.now all
            → module_of self.now.bytes.now ≡ Ok m → IfErr result
            (λ error. error.fault ≡ ExportTaken → IsExported all changes.old name.now) }
    {
        self.export(changes, name, Space::Memories, memory.index())
    }

    /// Exports a global under a name.
    ///
    /// # Errors
    ///
    /// `ExportTaken` if another export has this name, with its place where it is of the source; `TooGreat` if the
    /// global's index or the number of exports doesn't fit 32 bits; or `Memory`.
    pub fn export_global(
        &self,
        changes: &mut Changes,
        name: &str,
        global: GlobalId,
    ) -> Result<(), ModuleError>
        ensures ok { (all : List SectionAt) → IsModule self.now.bytes.now all
            → OnOk result (AddsExport all changes.old changes.new name.now Globals global) }
        ensures err { OnErr result (AreUnchanged changes.old changes.new) }
        // No export has the name of another.
        ensures free { (all : List SectionAt) → IsModule self.now.bytes.now all
            → OnOk result (¬ IsExported all changes.old name.now) }
        ensures taken { (all : List SectionAt) (m : Components) → IsModule self.now.bytes.now all
            → module_of self.now.bytes.now ≡ Ok m → IfErr result
            (λ error. error.fault ≡ ExportTaken → IsExported all changes.old name.now) }
    {
        self.export(changes, name, Space::Globals, global.index())
    }

    /// Exports a tag under a name.
    ///
    /// # Errors
    ///
    /// `ExportTaken` if another export has this name, with its place where it is of the source; `TooGreat` if the
    /// tag's index or the number of exports doesn't fit 32 bits; or `Memory`.
    pub fn export_tag(
        &self,
        changes: &mut Changes,
        name: &str,
        tag: TagId,
    ) -> Result<(), ModuleError>
        ensures ok { (all : List SectionAt) → IsModule self.now.bytes.now all
            → OnOk result (AddsExport all changes.old changes.new name.now Tags tag) }
        ensures err { OnErr result (AreUnchanged changes.old changes.new) }
        // No export has the name of another.
        ensures free { (all : List SectionAt) → IsModule self.now.bytes.now all
            → OnOk result (¬ IsExported all changes.old name.now) }
        ensures taken { (all : List SectionAt) (m : Components) → IsModule self.now.bytes.now all
            → module_of self.now.bytes.now ≡ Ok m → IfErr result
            (λ error. error.fault ≡ ExportTaken → IsExported all changes.old name.now) }
    {
        self.export(changes, name, Space::Tags, tag.index())
    }
}
