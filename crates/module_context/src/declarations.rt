//! What the sections of a module declare, item by item (WebAssembly core specification 3.0, validation, modules).

ghost use Rattle.std.specs.Prelude.{◌≡◌, ◌+◌, ◌≤◌, vec_len};

use crate::groups::types_of;
use crate::items::{ImportType, address_type, import_type, reference_of, segment_type};
use crate::references::marks_of;
use std::alloc::Global;
use walrus_ir::FunctionId;
use wasm_context as context;
use wasm_context::{Context, RawRefType};
use wasm_sections::{
    GlobalType, Input, Limits, ModuleError, Section, SectionKind, Sections, TableType,
};

/// What was declared so far.
#[derive(Drop)]
pub(crate) struct Declarations {
    /// The types and the index spaces. No function is marked before the end.
    pub(crate) context: Context,
    /// The number of imported globals.
    pub(crate) imported_globals: usize,
    /// The functions that sections other than the start section name.
    named: Vec<FunctionId>,
    ghost counted: { imported_globals ≤ vec_len context.globals },
}

impl Declarations {
    ghost use Rattle.std.specs.Prelude.{Ok, OnOk};
    ghost use Rattle.wasm_numbers.specs.Results.{Gives};
    ghost use Rattle.wasm_sections.specs.Parts.{whole_part, GivesUnlessMemory};
    ghost use Rattle.wasm_sections.specs.Sections.{section_id};
    ghost use Rattle.module_context.specs.ModuleContexts.{nothing_declared, and_function, and_table, and_memory, and_global, and_element, and_tag, and_import, declared_item, declared_items, declared_contents, named_contents, declared_section, setting_with_references, module_setting};
    ghost use Rattle.module_context.specs.ReadContexts.{declared_so_far, setting_so_far};
    ghost use Rattle.module_context.specs.SectionSteps.{through_module};

    /// Nothing is declared. This allocates nothing.
    pub(crate) fn new(alloc: Global) -> Declarations
        ensures { declared_so_far result ≡ nothing_declared }
    {
        Declarations {
            context: Context {
                types: Vec::new(alloc),
                functions: Vec::new(alloc),
                referenced: Vec::new(alloc),
                tables: Vec::new(alloc),
                memories: Vec::new(alloc),
                globals: Vec::new(alloc),
                elements: Vec::new(alloc),
                data_segments: 0,
                tags: Vec::new(alloc),
            },
            imported_globals: 0,
            named: Vec::new(alloc),
        }
    }

    /// One more function, with the index of its type.
    fn add_function(&mut self, ty: u32) -> Result<(), ModuleError>
        ensures { GivesUnlessMemory (λ _. declared_so_far self.new) result
            (Ok (and_function (declared_so_far self.old) ty)) }
    {
        self.context.functions.push(ty)?;
        Ok(())
    }

    /// One more table.
    fn add_table(&mut self, ty: TableType) -> Result<(), ModuleError>
        ensures { GivesUnlessMemory (λ _. declared_so_far self.new) result
            (Ok (and_table (declared_so_far self.old) ty)) }
    {
        self.context.tables.push(context::TableType {
            address: address_type(ty.limits.is_64),
            element: reference_of(ty.element),
        })?;
        Ok(())
    }

    /// One more memory.
    fn add_memory(&mut self, limits: Limits) -> Result<(), ModuleError>
        ensures { GivesUnlessMemory (λ _. declared_so_far self.new) result
            (Ok (and_memory (declared_so_far self.old) limits)) }
    {
        self.context.memories.push(address_type(limits.is_64))?;
        Ok(())
    }

    /// One more global.
    fn add_global(&mut self, ty: GlobalType) -> Result<(), ModuleError>
        ensures more { OnOk result (vec_len self.new.context.globals
            ≡ vec_len self.old.context.globals + 1) }
        ensures is { GivesUnlessMemory (λ _. declared_so_far self.new) result
            (Ok (and_global (declared_so_far self.old) ty)) }
    {
        self.context.globals.push(context::GlobalType {
            mutable: ty.is_mutable,
            ty: ty.value,
        })?;
        Ok(())
    }

    /// One more element segment.
    fn add_element(&mut self, ty: RawRefType) -> Result<(), ModuleError>
        ensures { GivesUnlessMemory (λ _. declared_so_far self.new) result
            (Ok (and_element (declared_so_far self.old) ty)) }
    {
        self.context.elements.push(ty)?;
        Ok(())
    }

    /// One more tag, with the index of its type.
    fn add_tag(&mut self, ty: u32) -> Result<(), ModuleError>
        ensures { GivesUnlessMemory (λ _. declared_so_far self.new) result
            (Ok (and_tag (declared_so_far self.old) ty)) }
    {
        self.context.tags.push(ty)?;
        Ok(())
    }

    /// One more import of this type.
    fn add_import(&mut self, ty: ImportType) -> Result<(), ModuleError>
        ensures { GivesUnlessMemory (λ _. declared_so_far self.new) result
            (Ok (and_import (declared_so_far self.old) ty)) }
    {
        match ty {
            ImportType::Function(ty) => self.add_function(ty),
            ImportType::Table(ty) => self.add_table(ty),
            ImportType::Memory(limits) => self.add_memory(limits),
            ImportType::Global(ty) => match self.add_global(ty) {
                Ok(()) => {
                    self.imported_globals += 1;
                    Ok(())
                }
                Err(error) => Err(error),
            },
            ImportType::Tag(ty) => self.add_tag(ty),
        }
    }

    /// Reads an item of a section of this kind.
    fn read_item(&mut self, kind: SectionKind, input: &mut Input<'_>) -> Result<(), ModuleError>
        ensures same_end { input.new.end ≡ input.old.end }
        ensures is { GivesUnlessMemory (λ _. (declared_so_far self.new, input.new.rest.now)) result
            (declared_item (section_id kind) (declared_so_far self.old) input.old.end
            input.old.rest.now) }
    {
        match kind {
            SectionKind::Import => match import_type(input) {
                Ok(ty) => self.add_import(ty),
                Err(error) => Err(error),
            },
            SectionKind::Function => match input.number() {
                Ok(ty) => self.add_function(ty),
                Err(error) => Err(error),
            },
            SectionKind::Table => match input.table() {
                Ok(table) => self.add_table(table.ty),
                Err(error) => Err(error),
            },
            SectionKind::Memory => match input.limits() {
                Ok(limits) => self.add_memory(limits),
                Err(error) => Err(error),
            },
            SectionKind::Global => match input.global() {
                Ok(global) => self.add_global(global.ty),
                Err(error) => Err(error),
            },
            SectionKind::Element => match segment_type(input) {
                Ok(ty) => self.add_element(ty),
                Err(error) => Err(error),
            },
            _ => match input.tag() {
                Ok(ty) => self.add_tag(ty),
                Err(error) => Err(error),
            },
        }
    }

    /// Reads the items of a section of this kind.
    fn read_items(&mut self, kind: SectionKind, mut input: Input<'_>) -> Result<(), ModuleError>
        ensures { GivesUnlessMemory (λ _. declared_so_far self.new) result (whole_part
            (declared_items (section_id kind) (declared_so_far self.old)) input.entry.end
            input.entry.rest.now) }
    {
        let count = match input.number() {
            Ok(count) => count,
            Err(error) => return Err(error),
        };
        'items: for _ in 0..count {
            match self.read_item(kind, &mut input) {
                Ok(()) => {}
                Err(error) => return Err(error),
            }
        }
        input.finish()
    }

    /// Reads the contents of a data count section.
    fn read_data_count(&mut self, mut input: Input<'_>) -> Result<(), ModuleError>
        ensures { Gives (λ _. declared_so_far self.new) result (declared_contents 12
            (declared_so_far self.old) input.entry.end input.entry.rest.now) }
    {
        match input.number() {
            Ok(count) => {
                self.context.data_segments = count;
                input.finish()
            }
            Err(error) => Err(error),
        }
    }

    /// Reads the contents of a type section.
    fn read_types(&mut self, alloc: Global, input: Input<'_>) -> Result<(), ModuleError>
        ensures { GivesUnlessMemory (λ _. declared_so_far self.new) result (declared_contents 1
            (declared_so_far self.old) input.entry.end input.entry.rest.now) }
    {
        match types_of(alloc, input) {
            Ok(types) => {
                self.context.types = types;
                Ok(())
            }
            Err(error) => Err(error),
        }
    }

    /// Reads what a section declares.
    fn read_contents(&mut self, alloc: Global, section: &Section<'_>) -> Result<(), ModuleError>
        ensures { GivesUnlessMemory (λ _. declared_so_far self.new) result (declared_contents
            (section_id section.now.kind) (declared_so_far self.old) section.now.contents.end
            section.now.contents.rest.now) }
    {
        match section.kind {
            SectionKind::Type => self.read_types(alloc, section.contents),
            SectionKind::DataCount => self.read_data_count(section.contents),
            SectionKind::Import
            | SectionKind::Function
            | SectionKind::Table
            | SectionKind::Memory
            | SectionKind::Tag
            | SectionKind::Global
            | SectionKind::Element => self.read_items(section.kind, section.contents),
            _ => Ok(()),
        }
    }

    /// Reads which functions a section names, unless it is the start section.
    fn read_names(&mut self, section: &Section<'_>) -> Result<(), ModuleError>
        ensures { GivesUnlessMemory (λ _. declared_so_far self.new) result (named_contents
            (section_id section.now.kind) (declared_so_far self.old) section.now.contents.end
            section.now.contents.rest.now) }
    {
        match section.kind {
            SectionKind::Start => Ok(()),
            _ => section.add_references(&mut self.named),
        }
    }

    /// Reads a section.
    fn read_section(&mut self, alloc: Global, section: &Section<'_>) -> Result<(), ModuleError>
        ensures { GivesUnlessMemory (λ _. declared_so_far self.new) result (declared_section
            (section_id section.now.kind) (declared_so_far self.old) section.now.contents.end
            section.now.contents.rest.now) }
    {
        match self.read_contents(alloc, section) {
            Ok(()) => self.read_names(section),
            Err(error) => Err(error),
        }
    }

    /// Reads all sections of a module with these bytes.
    fn read_sections(&mut self, alloc: Global, bytes: &[u8]) -> Result<(), ModuleError>
        ensures { GivesUnlessMemory (λ _. declared_so_far self.new) result (through_module
            declared_section (declared_so_far self.old) bytes.now) }
    {
        let sections = match Sections::new(bytes) {
            Ok(sections) => sections,
            Err(error) => return Err(error),
        };
        'sections: for section in sections {
            match section {
                Ok(section) => match self.read_section(alloc, &section) {
                    Ok(()) => {}
                    Err(error) => return Err(error),
                },
                Err(error) => return Err(error),
            }
        }
        Ok(())
    }

    /// Reads a module with these bytes. Nothing is declared before.
    pub(crate) fn read(&mut self, alloc: Global, bytes: &[u8]) -> Result<(), ModuleError>
        ensures { declared_so_far self.old ≡ nothing_declared → GivesUnlessMemory
            (λ _. setting_so_far self.new) result (module_setting bytes.now) }
    {
        match self.read_sections(alloc, bytes) {
            Ok(()) => self.mark_named(alloc),
            Err(error) => Err(error),
        }
    }

    /// Marks the functions that are named, after all sections were read.
    fn mark_named(&mut self, alloc: Global) -> Result<(), ModuleError>
        ensures { GivesUnlessMemory (λ _. setting_so_far self.new) result
            (Ok (setting_with_references (declared_so_far self.old))) }
    {
        let count = self.context.functions.len();
        self.context.referenced = marks_of(alloc, &self.named, count)?;
        Ok(())
    }
}
