//! A module that was read.
ghost use Rattle.std.specs.Prelude.{◌≡◌, ◌<◌, ◌≤◌, ◌↔◌, [], ◌∷◌, ◌++◌, ℕ, List, length, nat_lt, ◌⊎◌, Ok, Err, IsTrue, IfOk, IfErr};
ghost use Rattle.wasm_sections.specs.declared.fault.ModuleFault.TheVariants.{Memory};
ghost use Rattle.wasm_sections.specs.Sections.{preamble, section_id, SectionAt, IsModule, next_rank};
ghost use Rattle.walrus_maps.specs.IndexMaps.{ids_in};
ghost use Rattle.wasm_numbers.specs.Results.{Gives, with_fault};
ghost use Rattle.wasm_operators.specs.declared.types.Space.TheVariants.{Types};
ghost use Rattle.wasm_sections.specs.Components.{no_components, function_type_of, with_one_function, with_one_tag, with_one_import, import_step, item_step, items_part, type_section_part, start_part, data_count_part, body_part, code_part, contents_of, counts_agree, module_of};
ghost use Rattle.wasm_sections.specs.Declarations.{first_numbers};
ghost use Rattle.wasm_sections.specs.Format.{type_read, next_group, types_part};
ghost use Rattle.wasm_sections.specs.NextItems.{AreIndices};
ghost use Rattle.wasm_sections.specs.Parts.{passed, repeated, whole_part, GivesUnlessMemory};
ghost use Rattle.wasm_module.specs.ReadModules.{components_of, IsReadSoFar, StepsTo, AddsTo, fault_at, index_error_at, counted_part, with_counted, AreBelow, HasTypesBelow, HasOtherTypes, HasOtherSpaces, IndexesTypes, with_value, HasBodiesOf};
ghost use Rattle.wasm_module.specs.WrittenModules.{count_bodies};

use std::alloc::Global;
use walrus_body::{IndexError, ParseError, Space, value_type};
use walrus_ir::{FunctionId, Module, ModuleLocals, ModuleTags, ModuleTypes, TypeId, ValType};
use wasm_ops::RawValType;
use wasm_sections::{
    Bodies, Imported, Input, ModuleError, ModuleFault, RANKS, Section, SectionKind, Sections,
    Spaces, TypeKind, TypeReader, count_types,
};

/// A module that was read: the data that is needed to parse the bodies of its functions, and their
/// places. All ids are the indices, and types that bodies need and the module lacks come after its
/// own when such a body is parsed. Places are byte offsets from the start of the file.
///
/// # Example
///
/// A module rewritten, as in `tests_module/src/whole_modules.rt`:
///
/// ```text
/// let mut parsed = ParsedModule::read(alloc, bytes)?;
/// let rewritten = parsed.rewrite_all()?;
/// parsed.write_module(&rewritten, &mut out)?;
/// ```
#[derive(Drop)]
pub struct ParsedModule<'a> {
    pub(crate) alloc: Global,
    pub(crate) bytes: &'a [u8],
    pub(crate) module: Module,
    pub(crate) spaces: Spaces,
    /// The types of all functions, by index.
    pub(crate) func_types: Vec<TypeId>,
    /// The number of imported functions.
    imported: usize,
    /// The contents of the code section.
    code: Option<Input<'a>>,
    /// The number in the data count section, and its place.
    data_count: Option<(u32, usize)>,
}

/// Success, or the error of an index map at this place.
fn added_at(returned: Result<(), IndexError>, place: usize) -> Result<(), ModuleError>
    ensures { result ≡ with_fault (index_error_at place) returned }
{
    match returned {
        Ok(()) => Ok(()),
        Err(error) => Err(ModuleError::of_index(error, place)),
    }
}

/// Reads past an item of a section of this kind, which isn't an import, export, function or tag.
fn pass_item(kind: SectionKind, input: &mut Input<'_>) -> Result<(), ModuleError>
    ensures same_end { input.new.end ≡ input.old.end }
    ensures is { Gives (λ _. (tt, input.new.rest.now)) result (counted_part (section_id kind)
        input.old.end input.old.rest.now) }
{
    match kind {
        SectionKind::Table => match input.table() {
            Ok(_) => Ok(()),
            Err(error) => Err(error),
        },
        SectionKind::Memory => match input.memory() {
            Ok(_) => Ok(()),
            Err(error) => Err(error),
        },
        SectionKind::Global => match input.global() {
            Ok(_) => Ok(()),
            Err(error) => Err(error),
        },
        SectionKind::Element => input.element_segment(),
        _ => input.data_segment(),
    }
}

/// Reads past a body: its size, and so many bytes.
fn pass_body(input: &mut Input<'_>) -> Result<(), ModuleError>
    ensures same_end { input.new.end ≡ input.old.end }
    ensures is { Gives (λ _. (tt, input.new.rest.now)) result (passed body_part input.old.end
        input.old.rest.now) }
{
    let len = match input.number() {
        Ok(len) => len,
        Err(error) => return Err(error),
    };
    match input.part(len as usize) {
        Ok(_) => Ok(()),
        Err(error) => Err(error),
    }
}

/// Reads past so many bodies.
fn pass_bodies(input: &mut Input<'_>, count: u32) -> Result<(), ModuleError>
    ensures same_end { input.new.end ≡ input.old.end }
    ensures is { Gives (λ _. (tt, input.new.rest.now)) result (repeated (λ u. passed body_part)
        count tt input.old.end input.old.rest.now) }
{
    'bodies: for _ in 0..count {
        match pass_body(input) {
            Ok(()) => {}
            Err(error) => return Err(error),
        }
    }
    Ok(())
}

/// The value, unless there is an error. A function that drops a large value itself takes long to
/// prove; here it has no parts.
fn value_if<T: Drop>(done: Result<(), ModuleError>, value: T) -> Result<T, ModuleError>
    ensures { result ≡ with_value done value }
{
    match done {
        Ok(()) => Ok(value),
        Err(error) => Err(error),
    }
}

/// The value in a box, unless there is an error.
fn in_box<T: Drop>(alloc: Global, made: Result<T, ModuleError>) -> Result<Box<T>, ModuleError>
    ensures value { IfOk result (λ boxed. made ≡ Ok boxed.value) }
    ensures error { IfErr result (λ e. (e.fault ≡ Memory) ⊎ (made ≡ Err e)) }
{
    match made {
        Ok(value) => Ok(Box::new(alloc, value)?),
        Err(error) => Err(error),
    }
}

impl<'a> ParsedModule<'a> {
    /// A module with these bytes, of which nothing is read.
    fn unread(alloc: Global, bytes: &'a [u8]) -> ParsedModule<'a>
        ensures bytes { result.bytes.now ≡ bytes.now }
        ensures components { components_of result ≡ no_components }
        ensures read { IsReadSoFar (components_of result) result.spaces }
    {
        ParsedModule {
            alloc,
            bytes,
            module: Module {
                types: ModuleTypes::new(alloc),
                tags: ModuleTags::new(alloc),
                locals: ModuleLocals::new(alloc),
                code_section_offset: 0,
            },
            spaces: Spaces::new(alloc),
            func_types: Vec::new(alloc),
            imported: 0,
            code: None,
            data_count: None,
        }
    }

    /// Reads a module, but not yet the bodies of its functions.
    ///
    /// # Errors
    ///
    /// The first fault of its sections, with its place, or `Memory`.
    pub fn read(alloc: Global, bytes: &'a [u8]) -> Result<ParsedModule<'a>, ModuleError>
        ensures bytes { IfOk result (λ parsed. parsed.bytes.now ≡ bytes.now) }
        // What the bytes spell; else the first fault, or out of memory.
        ensures is { GivesUnlessMemory components_of result (module_of bytes.now) }
        // Each id is the index of its item, and its number.
        ensures indices { IfOk result (λ parsed. AreIndices (components_of parsed) parsed.spaces) }
    {
        let mut parsed = ParsedModule::unread(alloc, bytes);
        let read = parsed.read_sections();
        // It has these bytes already. They are set here, so no contract of a function that reads
        // sections has to say so.
        parsed.bytes = bytes;
        value_if(read, parsed)
    }

    /// The same, in a box: a function of a proved program that owns a module itself takes long to
    /// prove.
    ///
    /// # Errors
    ///
    /// Those of `read`.
    pub fn read_in_box(alloc: Global, bytes: &'a [u8]) -> Result<Box<ParsedModule<'a>>, ModuleError>
        ensures bytes { IfOk result (λ parsed. parsed.value.bytes.now ≡ bytes.now) }
        ensures is { GivesUnlessMemory (λ parsed. components_of parsed.value) result
            (module_of bytes.now) }
        ensures indices { IfOk result
            (λ parsed. AreIndices (components_of parsed.value) parsed.value.spaces) }
    {
        in_box(alloc, ParsedModule::read(alloc, bytes))
    }

    /// The bytes that it was read from.
    pub fn bytes(&self) -> &'a [u8]
        ensures { result.now ≡ self.now.bytes.now }
    {
        self.bytes
    }

    /// Its sections, in order.
    ///
    /// # Errors
    ///
    /// None, since they were read before.
    pub fn sections(&self) -> Result<Sections<'a>, ModuleError>
        ensures rest { IfOk result (λ s. self.now.bytes.now ≡ preamble ++ s.left.rest.now) }
        ensures end { IfOk result (λ s. s.left.end ≡ length self.now.bytes.now) }
    {
        Sections::new(self.bytes)
    }

    /// The rank of its first section with a greater rank than this; `RANKS` if there is none.
    pub(crate) fn next_rank(&self, rank: u8) -> Result<u8, ModuleError>
        ensures { (all : List SectionAt) → IsModule self.now.bytes.now all
            → IfOk result (λ next. next ≡ next_rank rank all) }
    {
        'sections: for section in Sections::new(self.bytes())? {
            let next = section?.kind.rank();
            if rank < next {
                return Ok(next);
            }
        }
        Ok(RANKS)
    }

    /// The bodies of its functions that are not imported, in order.
    pub fn bodies(&self) -> Bodies<'a>
        ensures first { result.next ≡ self.now.imported }
        ensures bodies { HasBodiesOf (components_of self.now).code result }
    {
        let next = self.imported;
        let none = Bodies {
            left: Input::new(&[]),
            next,
        };
        let Some(contents) = self.code else {
            return none;
        };
        match Bodies::of_section(contents, next) {
            Ok((_, bodies)) => bodies,
            Err(_) => none,
        }
    }

    /// The number of imported functions.
    pub(crate) fn imported(&self) -> usize
        ensures { result ≡ self.now.imported }
    {
        self.imported
    }

    /// Whether an imported function has this index.
    pub fn is_imported(&self, index: usize) -> bool
        ensures { result ≡ nat_lt index self.now.imported }
    {
        index < self.imported
    }

    /// Whether a function with a body has this index; imported functions have the first indices.
    pub fn has_body(&self, index: usize) -> bool
        ensures { IsTrue result ↔ ((self.now.imported ≤ index)
            × (index < length self.now.func_types.items)) }
    {
        index >= self.imported && index < self.func_types.len()
    }

    /// The number of functions with a body.
    pub fn body_count(&self) -> usize
        ensures { result ≡ count_bodies self.now }
    {
        self.func_types.len().saturating_sub(self.imported)
    }

    /// Reads all sections, and checks that they agree with each other. Nothing is read before.
    fn read_sections(&mut self) -> Result<(), ModuleError>
        ensures { components_of self.old ≡ no_components
            → StepsTo (λ n. n) (components_of self.old) self.old.spaces result
            (module_of self.old.bytes.now) (components_of self.new) self.new.spaces }
    {
        let bytes = self.bytes;
        let sections = match Sections::new(bytes) {
            Ok(sections) => sections,
            Err(error) => return Err(error),
        };
        'sections: for section in sections {
            match section {
                Ok(section) => match self.read_section(section) {
                    Ok(()) => {}
                    Err(error) => return Err(error),
                },
                Err(error) => return Err(error),
            }
        }
        self.check_counts(bytes.len())
    }

    /// Reads a section. There are no types before the type section.
    fn read_section(&mut self, section: Section<'a>) -> Result<(), ModuleError>
        ensures { (section_id section.entry.kind ≡ 1 → self.old.«module».types ≡ [])
            → StepsTo (λ n. n) (components_of self.old) self.old.spaces result
            (contents_of (section_id section.entry.kind) (components_of self.old)
            section.entry.contents.end section.entry.contents.rest.now)
            (components_of self.new) self.new.spaces }
    {
        match section.kind {
            SectionKind::Custom => match section.named_input() {
                Ok(_) => Ok(()),
                Err(error) => Err(error),
            },
            SectionKind::Type => self.read_types(section.contents),
            SectionKind::Start => self.read_start(section.contents),
            SectionKind::DataCount => self.read_data_count(section.contents),
            SectionKind::Code => self.read_code(section.contents),
            kind => self.read_items(kind, section.contents),
        }
    }

    /// Reads the contents of a start section.
    fn read_start(&self, mut input: Input<'a>) -> Result<(), ModuleError>
        ensures { IsReadSoFar (components_of self.now) self.now.spaces
            → Gives (λ _. components_of self.now) result (whole_part (start_part
            (components_of self.now)) input.entry.end input.entry.rest.now) }
    {
        match input.index_in(&self.spaces.indices, Space::Funcs) {
            Ok(()) => input.finish(),
            Err(error) => Err(error),
        }
    }

    /// Reads the contents of a data count section.
    fn read_data_count(&mut self, mut input: Input<'a>) -> Result<(), ModuleError>
        ensures { StepsTo (λ n. n) (components_of self.old) self.old.spaces
            result (whole_part (data_count_part (components_of self.old)) input.entry.end
            input.entry.rest.now)
            (components_of self.new) self.new.spaces }
    {
        let place = input.at();
        match input.number() {
            Ok(count) => {
                self.data_count = Some((count, place));
                input.finish()
            }
            Err(error) => Err(error),
        }
    }

    /// Reads the items of a section of this kind.
    fn read_items(&mut self, kind: SectionKind, mut input: Input<'a>) -> Result<(), ModuleError>
        ensures { StepsTo (λ n. n) (components_of self.old) self.old.spaces
            result (whole_part (items_part (section_id kind) (components_of self.old))
            input.entry.end input.entry.rest.now)
            (components_of self.new) self.new.spaces }
    {
        let count = match input.number() {
            Ok(count) => count,
            Err(error) => return Err(error),
        };
        'items: for _ in 0..count {
            match self.read_item(kind, &mut input) {
                Ok(()) => {}
                Err(error) => return Err(error),
            }
        }
        input.finish()
    }

    /// Reads one item of a section of this kind.
    fn read_item(&mut self, kind: SectionKind, input: &mut Input<'a>) -> Result<(), ModuleError>
        ensures same_end { input.new.end ≡ input.old.end }
        ensures is { StepsTo (λ n. (n, input.new.rest.now)) (components_of self.old) self.old.spaces
            result (item_step (section_id kind) (components_of self.old) input.old.end
            input.old.rest.now)
            (components_of self.new) self.new.spaces }
    {
        let place = input.at();
        match kind {
            SectionKind::Import => self.read_import(input),
            SectionKind::Export => input.export(&self.spaces.indices),
            SectionKind::Function => match input.number() {
                Ok(index) => self.add_func(index, place),
                Err(error) => Err(error),
            },
            SectionKind::Tag => match input.tag() {
                Ok(index) => self.add_tag(index, place),
                Err(error) => Err(error),
            },
            _ => match pass_item(kind, input) {
                Ok(()) => added_at(self.count_item(kind), place),
                Err(error) => Err(error),
            },
        }
    }

    /// Gives the next index of its space to an item of a section of this kind.
    fn count_item(&mut self, kind: SectionKind) -> Result<(), IndexError>
        ensures { AddsTo (components_of self.old) self.old.spaces result
            (with_counted (section_id kind) (components_of self.old)) (components_of self.new)
            self.new.spaces }
    {
        match kind {
            SectionKind::Table => self.spaces.add_table(),
            SectionKind::Memory => self.spaces.add_memory(),
            SectionKind::Global => self.spaces.add_global(),
            SectionKind::Element => self.spaces.add_element(),
            _ if self.data_count.is_some() => self.spaces.add_data(),
            // No operator may name a data segment without a data count section.
            _ => Ok(()),
        }
    }

    fn read_import(&mut self, input: &mut Input<'a>) -> Result<(), ModuleError>
        ensures same_end { input.new.end ≡ input.old.end }
        ensures is { StepsTo (λ n. (n, input.new.rest.now)) (components_of self.old) self.old.spaces
            result (import_step (components_of self.old) input.old.end input.old.rest.now)
            (components_of self.new) self.new.spaces }
    {
        match input.import() {
            Ok((imported, place)) => self.add_import(imported, place),
            Err(error) => Err(error),
        }
    }

    fn add_import(&mut self, imported: Imported, place: usize) -> Result<(), ModuleError>
        ensures { StepsTo (λ n. n) (components_of self.old) self.old.spaces
            result (with_fault (fault_at place) (with_one_import (components_of self.old) imported))
            (components_of self.new) self.new.spaces }
    {
        match imported {
            Imported::Func(index) => match self.add_func(index, place) {
                Ok(()) => {
                    self.imported = self.func_types.len();
                    Ok(())
                }
                Err(error) => Err(error),
            },
            Imported::Tag(index) => self.add_tag(index, place),
            Imported::Table => added_at(self.spaces.add_table(), place),
            Imported::Memory => added_at(self.spaces.add_memory(), place),
            Imported::Global => added_at(self.spaces.add_global(), place),
        }
    }

    /// The function type with this index.
    fn func_type(&self, index: u32, place: usize) -> Result<TypeId, ModuleError>
        ensures { IsReadSoFar (components_of self.now) self.now.spaces
            → Gives (λ ty. ty) result (with_fault (fault_at place) (function_type_of
            (components_of self.now) index)) }
    {
        let id = match self.spaces.indices.get_type(index) {
            Ok(id) => id,
            Err(error) => return Err(ModuleError::of_index(error, place)),
        };
        if self.module.types.is_func(id) {
            return Ok(id);
        }
        Err(ModuleError {
            fault: ModuleFault::Parse(ParseError::NotAFunctionType),
            at: place,
        })
    }

    fn add_func(&mut self, index: u32, place: usize) -> Result<(), ModuleError>
        ensures { StepsTo (λ n. n) (components_of self.old) self.old.spaces
            result (with_fault (fault_at place) (with_one_function (components_of self.old) index))
            (components_of self.new) self.new.spaces }
    {
        let ty = match self.func_type(index, place) {
            Ok(ty) => ty,
            Err(error) => return Err(error),
        };
        let id = FunctionId::new(self.func_types.len());
        match self.spaces.add_func(id) {
            Ok(()) => {}
            Err(error) => return Err(ModuleError::of_index(error, place)),
        }
        self.func_types.push(ty)?;
        Ok(())
    }

    fn add_tag(&mut self, index: u32, place: usize) -> Result<(), ModuleError>
        ensures { StepsTo (λ n. n) (components_of self.old) self.old.spaces
            result (with_fault (fault_at place) (with_one_tag (components_of self.old) index))
            (components_of self.new) self.new.spaces }
    {
        let ty = match self.func_type(index, place) {
            Ok(ty) => ty,
            Err(error) => return Err(error),
        };
        match self.spaces.add_tag() {
            Ok(()) => {}
            Err(error) => return Err(ModuleError::of_index(error, place)),
        }
        self.module.tags.add(ty)?;
        Ok(())
    }

    /// Value types with the ids of the types that they name.
    fn value_types(&self, types: &[RawValType]) -> Result<Vec<ValType>, ModuleError>
        ensures { (limit : ℕ) → ids_in self.now.spaces.indices Types ≡ first_numbers limit
            → AreBelow limit types.now → GivesUnlessMemory (λ made. made.items) result
            (Ok types.now) }
    {
        let mut made = Vec::with_capacity(self.alloc, types.len())?;
        'types: for ty in types {
            match value_type(&self.spaces.indices, *ty) {
                Ok(ty) => made.push(ty)?,
                Err(error) => return Err(ModuleError::of_type(error, 0)),
            }
        }
        Ok(made)
    }

    /// Adds a type with these parameters and results, if it is a function type.
    fn add_type(
        &mut self,
        kind: TypeKind,
        params: &[RawValType],
        results: &[RawValType],
    ) -> Result<(), ModuleError>
        ensures others { HasOtherTypes self.old self.new }
        ensures is { (limit : ℕ) → ids_in self.old.spaces.indices Types ≡ first_numbers limit
            → HasTypesBelow limit (type_read kind params.now results.now)
            → GivesUnlessMemory (λ _. self.new.«module».types) result
            (Ok (self.old.«module».types ++ type_read kind params.now results.now ∷ [])) }
    {
        match kind {
            TypeKind::Func => {
                let params = match self.value_types(params) {
                    Ok(params) => params,
                    Err(error) => return Err(error),
                };
                let results = match self.value_types(results) {
                    Ok(results) => results,
                    Err(error) => return Err(error),
                };
                match self.module.types.add_func(&params, &results) {
                    Ok(_) => Ok(()),
                    Err(error) => Err(ModuleError::from(error)),
                }
            }
            TypeKind::Other => match self.module.types.add_other() {
                Ok(_) => Ok(()),
                Err(error) => Err(ModuleError::from(error)),
            },
        }
    }

    /// Gives each of so many types an index. There are none before.
    fn index_types(&mut self, count: usize) -> Result<(), ModuleError>
        ensures others { HasOtherSpaces self.old self.new }
        ensures is { self.old.«module».types ≡ []
            → IsReadSoFar (components_of self.old) self.old.spaces
            → IndexesTypes (components_of self.old) count result self.new.spaces }
    {
        'types: for index in 0..count {
            match self.spaces.add_type(TypeId::new(index)) {
                Ok(()) => {}
                Err(error) => return Err(ModuleError::of_index(error, 0)),
            }
        }
        Ok(())
    }

    /// Adds the types of a recursive group.
    fn read_group(&mut self, reader: &mut TypeReader<'_>) -> Result<(), ModuleError>
        ensures others { HasOtherTypes self.old self.new }
        ensures same_limit { reader.new.limit ≡ reader.old.limit }
        ensures same_end { reader.new.input.end ≡ reader.old.input.end }
        ensures is { ids_in self.old.spaces.indices Types ≡ first_numbers reader.old.limit
            → GivesUnlessMemory (λ _. (self.new.«module».types, reader.new.input.rest.now)) result
            (next_group reader.old.limit self.old.«module».types reader.old.input.end
            reader.old.input.rest.now) }
    {
        let members = match reader.members() {
            Ok(members) => members,
            Err(error) => return Err(error),
        };
        'group: for _ in 0..members {
            let kind = match reader.subtype() {
                Ok(kind) => kind,
                Err(error) => return Err(error),
            };
            match self.add_type(kind, reader.params(), reader.results()) {
                Ok(()) => {}
                Err(error) => return Err(error),
            }
        }
        Ok(())
    }

    /// Adds the types of all recursive groups. There are none before.
    fn read_groups(&mut self, reader: &mut TypeReader<'_>) -> Result<(), ModuleError>
        ensures others { HasOtherTypes self.old self.new }
        ensures is { ids_in self.old.spaces.indices Types ≡ first_numbers reader.old.limit
            → self.old.«module».types ≡ []
            → GivesUnlessMemory (λ _. (self.new.«module».types, reader.new.input.rest.now)) result
            (types_part reader.old.limit reader.old.input.end reader.old.input.rest.now) }
    {
        let groups = match reader.groups() {
            Ok(groups) => groups,
            Err(error) => return Err(error),
        };
        'groups: for _ in 0..groups {
            match self.read_group(reader) {
                Ok(()) => {}
                Err(error) => return Err(error),
            }
        }
        Ok(())
    }

    /// Adds the types of the type section. The entry types that bodies need are added when the first
    /// such body is parsed.
    ///
    /// # Errors
    ///
    /// The faults of `count_types`; else `IndexOutOfRange` if a type contains a type index that the
    /// section doesn't have; or `Memory`.
    fn read_types(&mut self, section: Input<'a>) -> Result<(), ModuleError>
        ensures { self.old.«module».types ≡ []
            → StepsTo (λ n. n) (components_of self.old) self.old.spaces
            result (type_section_part (components_of self.old) section.entry.end
            section.entry.rest.now)
            (components_of self.new) self.new.spaces }
    {
        // A type may name a later one, so that the number of types is needed first.
        let count = match count_types(self.alloc, section) {
            Ok(count) => count,
            Err(error) => return Err(error),
        };
        match self.index_types(count) {
            Ok(()) => {}
            Err(error) => return Err(error),
        }
        let mut reader = TypeReader::new(self.alloc, section, count);
        self.read_groups(&mut reader)
    }

    /// Records the place of the bodies of the code section, and reads past them.
    fn read_code(&mut self, mut input: Input<'a>) -> Result<(), ModuleError>
        ensures { StepsTo (λ n. n) (components_of self.old) self.old.spaces
            result (whole_part (code_part (components_of self.old)) input.entry.end
            input.entry.rest.now)
            (components_of self.new) self.new.spaces }
    {
        let begin = input;
        let count = match input.number() {
            Ok(count) => count,
            Err(error) => return Err(error),
        };
        if count as usize != self.body_count() {
            return Err(begin.fault(ModuleFault::BodyCount));
        }
        self.code = Some(begin);
        match pass_bodies(&mut input, count) {
            Ok(()) => input.finish(),
            Err(error) => Err(error),
        }
    }

    /// Checks that each function has its body, and that the data count is the number of data
    /// segments. The module ends at this place.
    fn check_counts(&self, end: usize) -> Result<(), ModuleError>
        ensures { Gives (λ _. components_of self.now) result (counts_agree (components_of self.now)
            end) }
    {
        if self.body_count() > 0 && self.code.is_none() {
            return Err(ModuleError {
                fault: ModuleFault::BodyCount,
                at: end,
            });
        }
        match self.data_count {
            Some((count, place)) if count as usize != self.spaces.data_segments() => {
                Err(ModuleError {
                    fault: ModuleFault::DataCount,
                    at: place,
                })
            }
            _ => Ok(()),
        }
    }
}
