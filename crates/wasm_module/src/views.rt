//! Views of a module that was read: its sections by kind, and the items in them. They take no
//! memory.

ghost use Rattle.std.specs.Prelude.{◌≡◌, ℕ, List, length, option_map, Ok, IsOk, IfOk, IfSome, MatchOption};
ghost use Rattle.wasm_sections.specs.CodeSections.{body_at};
ghost use Rattle.wasm_sections.specs.Components.{Components, module_of};
ghost use Rattle.wasm_sections.specs.Parts.{number};
ghost use Rattle.wasm_sections.specs.Sections.{SectionAt, IsModule, first_with, section_id, section_at};
ghost use Rattle.wasm_sections.specs.Views.{HasItems, HasBodies, HasSomeItems, HasStart};
ghost use Rattle.wasm_module.specs.ModuleCode.{IsBodyOfFunction, HasNoFunctionBody};
ghost use Rattle.wasm_module.specs.ReadFrom.{IsModuleOf};
ghost use Rattle.wasm_module.specs.ReadModules.{components_of};

use crate::parsed::ParsedModule;
use walrus_ir::FunctionId;
use wasm_sections::{
    Bodies, Body, Exports, Functions, Globals, Imports, Items, Memories, ModuleError, Section,
    SectionKind, Sections, Tables, Tags,
};

impl<'a> ParsedModule<'a> {
    /// The section of this kind, if there is one. Of custom sections it is the first.
    ///
    /// # Errors
    ///
    /// None, since the sections were read before.
    pub fn section(&self, kind: SectionKind) -> Result<Option<Section<'a>>, ModuleError>
        ensures found { (all : List SectionAt) → IsModule self.now.bytes.now all
            → IfOk result (λ found. first_with (section_id kind) all ≡ option_map section_at found) }
        // The contents of each section begin with a number.
        ensures counted { (m : Components) → module_of self.now.bytes.now ≡ Ok m → IfOk result
            (λ found. IfSome found (λ s. IsOk (number s.contents.end s.contents.rest.now))) }
        ensures never_refused { (m : Components) → module_of self.now.bytes.now ≡ Ok m
            → IsOk result }
    {
        let id = kind.id();
        let sections = match Sections::new(self.bytes()) {
            Ok(sections) => sections,
            Err(error) => return Err(error),
        };
        'sections: for section in sections {
            let section = match section {
                Ok(section) => section,
                Err(error) => return Err(error),
            };
            let next = section.kind.id();
            if next == id {
                return Ok(Some(section));
            }
        }
        Ok(None)
    }

    /// The items of the section of this kind; none if there is no such section.
    pub(crate) fn items(&self, kind: SectionKind) -> Result<Items<'a>, ModuleError>
        ensures are { (all : List SectionAt) → IsModule self.now.bytes.now all
            → IfOk result (λ items. HasItems (first_with (section_id kind) all) items) }
        ensures never_refused { (m : Components) → module_of self.now.bytes.now ≡ Ok m
            → IsOk result }
    {
        match self.section(kind) {
            Ok(Some(section)) => Items::of_contents(section.contents),
            Ok(None) => Ok(Items::none()),
            Err(error) => Err(error),
        }
    }

    /// The number of items of the section of this kind, with which its contents begin; 0 if there
    /// is no such section. Items that are imported aren't counted, and of types it is the number of
    /// recursive groups. For `Start` and `DataCount` it is the number in the section, and it says
    /// nothing for `Custom`.
    ///
    /// # Errors
    ///
    /// None, since the sections were read before.
    pub fn item_count(&self, kind: SectionKind) -> Result<u32, ModuleError>
        ensures is { (all : List SectionAt) → IsModule self.now.bytes.now all
            → IfOk result (HasSomeItems (first_with (section_id kind) all)) }
        ensures never_refused { (m : Components) → module_of self.now.bytes.now ≡ Ok m
            → IsOk result }
    {
        match self.items(kind) {
            Ok(items) => Ok(items.count),
            Err(error) => Err(error),
        }
    }

    /// The start function, which the start section names, if there is one.
    ///
    /// # Errors
    ///
    /// None, since the sections were read before.
    pub fn start(&self) -> Result<Option<FunctionId>, ModuleError>
        ensures is { (all : List SectionAt) → IsModule self.now.bytes.now all
            → IfOk result (HasStart (first_with 8 all)) }
        ensures never_refused { (m : Components) → module_of self.now.bytes.now ≡ Ok m
            → IsOk result }
    {
        match self.section(SectionKind::Start) {
            Ok(Some(section)) => {
                let mut contents = section.contents;
                match contents.number() {
                    Ok(index) => Ok(Some(FunctionId::new(index as usize))),
                    Err(error) => Err(error),
                }
            }
            Ok(None) => Ok(None),
            Err(error) => Err(error),
        }
    }

    /// The exports, in order.
    ///
    /// # Errors
    ///
    /// None, since the sections were read before.
    pub fn exports(&self) -> Result<Exports<'a>, ModuleError>
        ensures are { (all : List SectionAt) → IsModule self.now.bytes.now all
            → IfOk result (λ exports. HasItems (first_with 7 all) exports.items) }
        ensures never_refused { (m : Components) → module_of self.now.bytes.now ≡ Ok m
            → IsOk result }
    {
        match self.items(SectionKind::Export) {
            Ok(items) => Ok(Exports { items }),
            Err(error) => Err(error),
        }
    }

    /// The imports, in order.
    ///
    /// # Errors
    ///
    /// None, since the sections were read before.
    pub fn imports(&self) -> Result<Imports<'a>, ModuleError>
        ensures are { (all : List SectionAt) → IsModule self.now.bytes.now all
            → IfOk result (λ imports. HasItems (first_with 2 all) imports.items) }
        ensures never_refused { (m : Components) → module_of self.now.bytes.now ≡ Ok m
            → IsOk result }
    {
        match self.items(SectionKind::Import) {
            Ok(items) => Ok(Imports { items }),
            Err(error) => Err(error),
        }
    }

    /// The globals that the module defines, in order. Imported ones, which have the first indices, aren't
    /// among them.
    ///
    /// # Errors
    ///
    /// None, since the sections were read before.
    pub fn globals(&self) -> Result<Globals<'a>, ModuleError>
        ensures are { (all : List SectionAt) → IsModule self.now.bytes.now all
            → IfOk result (λ globals. HasItems (first_with 6 all) globals.items) }
        ensures never_refused { (m : Components) → module_of self.now.bytes.now ≡ Ok m
            → IsOk result }
    {
        match self.items(SectionKind::Global) {
            Ok(items) => Ok(Globals { items }),
            Err(error) => Err(error),
        }
    }

    /// The tables that the module defines, in order. Imported ones, which have the first indices, aren't
    /// among them.
    ///
    /// # Errors
    ///
    /// None, since the sections were read before.
    pub fn tables(&self) -> Result<Tables<'a>, ModuleError>
        ensures are { (all : List SectionAt) → IsModule self.now.bytes.now all
            → IfOk result (λ tables. HasItems (first_with 4 all) tables.items) }
        ensures never_refused { (m : Components) → module_of self.now.bytes.now ≡ Ok m
            → IsOk result }
    {
        match self.items(SectionKind::Table) {
            Ok(items) => Ok(Tables { items }),
            Err(error) => Err(error),
        }
    }

    /// The memories that the module defines, in order. Imported ones, which have the first indices, aren't
    /// among them.
    ///
    /// # Errors
    ///
    /// None, since the sections were read before.
    pub fn memories(&self) -> Result<Memories<'a>, ModuleError>
        ensures are { (all : List SectionAt) → IsModule self.now.bytes.now all
            → IfOk result (λ memories. HasItems (first_with 5 all) memories.items) }
        ensures never_refused { (m : Components) → module_of self.now.bytes.now ≡ Ok m
            → IsOk result }
    {
        match self.items(SectionKind::Memory) {
            Ok(items) => Ok(Memories { items }),
            Err(error) => Err(error),
        }
    }

    /// The tags that the module defines, in order. Imported ones, which have the first indices, aren't
    /// among them.
    ///
    /// # Errors
    ///
    /// None, since the sections were read before.
    pub fn tags(&self) -> Result<Tags<'a>, ModuleError>
        ensures are { (all : List SectionAt) → IsModule self.now.bytes.now all
            → IfOk result (λ tags. HasItems (first_with 13 all) tags.items) }
        ensures never_refused { (m : Components) → module_of self.now.bytes.now ≡ Ok m
            → IsOk result }
    {
        match self.items(SectionKind::Tag) {
            Ok(items) => Ok(Tags { items }),
            Err(error) => Err(error),
        }
    }

    /// The functions by index, each with its type, and with its body unless it is imported.
    ///
    /// # Errors
    ///
    /// None, since the sections were read before.
    pub fn functions(&self) -> Result<Functions<'_, 'a>, ModuleError>
        ensures types { IfOk result (λ s. s.types.now ≡ self.now.func_types.items) }
        ensures total { IfOk result (λ s. s.total ≡ length self.now.func_types.items) }
        ensures imported { IfOk result (λ s. s.imported ≡ self.now.imported) }
        ensures bodies { (all : List SectionAt) → IsModule self.now.bytes.now all
            → IfOk result (λ s. HasBodies (first_with 10 all) self.now.imported s.bodies) }
        ensures never_refused { (m : Components) → module_of self.now.bytes.now ≡ Ok m
            → IsOk result }
    {
        match self.code_bodies() {
            Ok(bodies) => Ok(Functions {
                types: self.func_types.as_slice(),
                total: self.func_types.len(),
                imported: self.imported(),
                bodies,
            }),
            Err(error) => Err(error),
        }
    }

    /// The body of the function with this index, as `bodies` gives it; `None` if it is imported, or
    /// if there is no such function. It is found by going over the bodies before it: a tool that
    /// needs those of many functions goes over `bodies` once.
    pub fn body_of(&self, index: usize) -> Option<Body<'a>>
        ensures index { IfSome result (λ body. body.func ≡ index) }
        ensures is { (source : List ℕ) → IsModuleOf source self.now
            → MatchOption result (HasNoFunctionBody (components_of self.now) index)
            (λ body. IsBodyOfFunction (components_of self.now) index (body_at body)) }
    {
        'bodies: for body in self.bodies() {
            if body.func == index {
                return Some(body);
            }
        }
        None
    }

    /// The bodies of the code section; none if there is no code section.
    fn code_bodies(&self) -> Result<Bodies<'a>, ModuleError>
        ensures are { (all : List SectionAt) → IsModule self.now.bytes.now all
            → IfOk result (HasBodies (first_with 10 all) self.now.imported) }
        ensures never_refused { (m : Components) → module_of self.now.bytes.now ≡ Ok m
            → IsOk result }
    {
        match self.section(SectionKind::Code) {
            Ok(Some(section)) => match Bodies::of_section(section.contents, self.imported()) {
                Ok((_, bodies)) => Ok(bodies),
                Err(error) => Err(error),
            },
            Ok(None) => Ok(Bodies::none()),
            Err(error) => Err(error),
        }
    }
}
