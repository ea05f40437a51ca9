//! From the old indices of a module to ids.
ghost use Rattle.std.specs.Prelude.{◌≡◌, ◌<◌, length, IfOk, OnOk, OnErr};
ghost use Rattle.wasm_operators.specs.declared.types.Space.TheVariants.{Tables, Types, Funcs, Globals, Memories, Elements, Data, Tags};
ghost use Rattle.walrus_maps.specs.Growth.{GrowsFrom};
ghost use Rattle.walrus_maps.specs.IndexMaps.{no_ids, ids_in, with_next_id, with_id_at, id_of, locals_in, with_next_local, local_of};

use crate::function_locals::FunctionLocals;
use crate::id_list::IdList;
use std::alloc::Global;
use walrus_ir::{
    DataId, ElementId, FunctionId, GlobalId, LocalId, MemoryId, TableId, TagId, TypeId, kind,
};
use wasm_body::IndexError;
use wasm_operators::Space;

/// The ids of the old indices of a module: the indices in the bytes that it is read from. Each
/// space counts its indices from 0 on, and each function counts its locals from 0 on (WebAssembly
/// core specification 3.0, structure, modules, indices).
#[derive(Drop)]
pub struct IndicesToIds {
    tables: IdList<kind::Table>,
    types: IdList<kind::Type>,
    funcs: IdList<kind::Function>,
    globals: IdList<kind::Global>,
    memories: IdList<kind::Memory>,
    elements: IdList<kind::Element>,
    data: IdList<kind::Data>,
    tags: IdList<kind::Tag>,
    locals: FunctionLocals,
}

impl IndicesToIds {
    /// Maps in which no index has an id. This allocates nothing.
    pub fn new(alloc: Global) -> IndicesToIds
        ensures { result ≡ no_ids }
    {
        IndicesToIds {
            tables: IdList::new(alloc),
            types: IdList::new(alloc),
            funcs: IdList::new(alloc),
            globals: IdList::new(alloc),
            memories: IdList::new(alloc),
            elements: IdList::new(alloc),
            data: IdList::new(alloc),
            tags: IdList::new(alloc),
            locals: FunctionLocals::new(alloc),
        }
    }

    /// Adds a table, and returns its index: the next one. Errors: `TooMany` if there are 2^32
    /// tables, `Memory` if memory runs out.
    pub fn push_table(&mut self, id: TableId) -> Result<u32, IndexError>
        ensures index { IfOk result (λ n. n ≡ length (ids_in self.old Tables)) }
        ensures ok { OnOk result (self.new ≡ with_next_id Tables id self.old) }
        ensures err { OnErr result (self.new ≡ self.old) }
        ensures growth { GrowsFrom (length (ids_in self.old Tables)) result }
    {
        self.tables.push(id)
    }

    /// Adds a type, and returns its index: the next one. Errors: `TooMany` if there are 2^32 types,
    /// `Memory` if memory runs out.
    pub fn push_type(&mut self, id: TypeId) -> Result<u32, IndexError>
        ensures index { IfOk result (λ n. n ≡ length (ids_in self.old Types)) }
        ensures ok { OnOk result (self.new ≡ with_next_id Types id self.old) }
        ensures err { OnErr result (self.new ≡ self.old) }
        ensures growth { GrowsFrom (length (ids_in self.old Types)) result }
    {
        self.types.push(id)
    }

    /// Adds a function, and returns its index: the next one. Errors: `TooMany` if there are 2^32
    /// functions, `Memory` if memory runs out.
    pub fn push_func(&mut self, id: FunctionId) -> Result<u32, IndexError>
        ensures index { IfOk result (λ n. n ≡ length (ids_in self.old Funcs)) }
        ensures ok { OnOk result (self.new ≡ with_next_id Funcs id self.old) }
        ensures err { OnErr result (self.new ≡ self.old) }
        ensures growth { GrowsFrom (length (ids_in self.old Funcs)) result }
    {
        self.funcs.push(id)
    }

    /// Adds a global, and returns its index: the next one. Errors: `TooMany` if there are 2^32
    /// globals, `Memory` if memory runs out.
    pub fn push_global(&mut self, id: GlobalId) -> Result<u32, IndexError>
        ensures index { IfOk result (λ n. n ≡ length (ids_in self.old Globals)) }
        ensures ok { OnOk result (self.new ≡ with_next_id Globals id self.old) }
        ensures err { OnErr result (self.new ≡ self.old) }
        ensures growth { GrowsFrom (length (ids_in self.old Globals)) result }
    {
        self.globals.push(id)
    }

    /// Adds a memory, and returns its index: the next one. Errors: `TooMany` if there are 2^32
    /// memories, `Memory` if memory runs out.
    pub fn push_memory(&mut self, id: MemoryId) -> Result<u32, IndexError>
        ensures index { IfOk result (λ n. n ≡ length (ids_in self.old Memories)) }
        ensures ok { OnOk result (self.new ≡ with_next_id Memories id self.old) }
        ensures err { OnErr result (self.new ≡ self.old) }
        ensures growth { GrowsFrom (length (ids_in self.old Memories)) result }
    {
        self.memories.push(id)
    }

    /// Adds an element segment, and returns its index: the next one. Errors: `TooMany` if there are
    /// 2^32 element segments, `Memory` if memory runs out.
    pub fn push_element(&mut self, id: ElementId) -> Result<u32, IndexError>
        ensures index { IfOk result (λ n. n ≡ length (ids_in self.old Elements)) }
        ensures ok { OnOk result (self.new ≡ with_next_id Elements id self.old) }
        ensures err { OnErr result (self.new ≡ self.old) }
        ensures growth { GrowsFrom (length (ids_in self.old Elements)) result }
    {
        self.elements.push(id)
    }

    /// Adds a data segment, and returns its index: the next one. Errors: `TooMany` if there are
    /// 2^32 data segments, `Memory` if memory runs out.
    pub fn push_data(&mut self, id: DataId) -> Result<u32, IndexError>
        ensures index { IfOk result (λ n. n ≡ length (ids_in self.old Data)) }
        ensures ok { OnOk result (self.new ≡ with_next_id Data id self.old) }
        ensures err { OnErr result (self.new ≡ self.old) }
        ensures growth { GrowsFrom (length (ids_in self.old Data)) result }
    {
        self.data.push(id)
    }

    /// Adds a tag, and returns its index: the next one. Errors: `TooMany` if there are 2^32 tags,
    /// `Memory` if memory runs out.
    pub fn push_tag(&mut self, id: TagId) -> Result<u32, IndexError>
        ensures index { IfOk result (λ n. n ≡ length (ids_in self.old Tags)) }
        ensures ok { OnOk result (self.new ≡ with_next_id Tags id self.old) }
        ensures err { OnErr result (self.new ≡ self.old) }
        ensures growth { GrowsFrom (length (ids_in self.old Tags)) result }
    {
        self.tags.push(id)
    }

    /// Adds a local of a function, and returns its index: the next one of the function. Errors:
    /// `TooMany` if the function has 2^32 locals, `Memory` if memory runs out.
    pub fn push_local(&mut self, function: FunctionId, local: LocalId) -> Result<u32, IndexError>
        ensures index { IfOk result (λ n. n ≡ length (locals_in self.old function)) }
        ensures ok { OnOk result (self.new ≡ with_next_local function local self.old) }
        ensures err { OnErr result (self.new ≡ self.old) }
        ensures growth { GrowsFrom (length (locals_in self.old function)) result }
    {
        self.locals.push(function, local)
    }

    /// The table with this index, or the error `OutOfRange`. Allocates nothing.
    pub fn get_table(&self, index: u32) -> Result<TableId, IndexError>
        ensures { result ≡ id_of self.now Tables index }
    {
        self.tables.get_in(Space::Tables, index)
    }

    /// The type with this index, or the error `OutOfRange`. Allocates nothing.
    pub fn get_type(&self, index: u32) -> Result<TypeId, IndexError>
        ensures { result ≡ id_of self.now Types index }
    {
        self.types.get_in(Space::Types, index)
    }

    /// The function with this index, or the error `OutOfRange`. Allocates nothing.
    pub fn get_func(&self, index: u32) -> Result<FunctionId, IndexError>
        ensures { result ≡ id_of self.now Funcs index }
    {
        self.funcs.get_in(Space::Funcs, index)
    }

    /// The global with this index, or the error `OutOfRange`. Allocates nothing.
    pub fn get_global(&self, index: u32) -> Result<GlobalId, IndexError>
        ensures { result ≡ id_of self.now Globals index }
    {
        self.globals.get_in(Space::Globals, index)
    }

    /// The memory with this index, or the error `OutOfRange`. Allocates nothing.
    pub fn get_memory(&self, index: u32) -> Result<MemoryId, IndexError>
        ensures { result ≡ id_of self.now Memories index }
    {
        self.memories.get_in(Space::Memories, index)
    }

    /// The element segment with this index, or the error `OutOfRange`. Allocates nothing.
    pub fn get_element(&self, index: u32) -> Result<ElementId, IndexError>
        ensures { result ≡ id_of self.now Elements index }
    {
        self.elements.get_in(Space::Elements, index)
    }

    /// The data segment with this index, or the error `OutOfRange`. Allocates nothing.
    pub fn get_data(&self, index: u32) -> Result<DataId, IndexError>
        ensures { result ≡ id_of self.now Data index }
    {
        self.data.get_in(Space::Data, index)
    }

    /// The tag with this index, or the error `OutOfRange`. Allocates nothing.
    pub fn get_tag(&self, index: u32) -> Result<TagId, IndexError>
        ensures { result ≡ id_of self.now Tags index }
    {
        self.tags.get_in(Space::Tags, index)
    }

    /// The number of the id with this index in a space, or the error `OutOfRange`. Allocates nothing.
    #[inline(always)]
    pub fn id_at(&self, space: Space, index: u32) -> Result<usize, IndexError>
        ensures { result ≡ id_of self.now space index }
    {
        match space {
            Space::Tables => Ok(self.get_table(index)?.index()),
            Space::Types => Ok(self.get_type(index)?.index()),
            Space::Funcs => Ok(self.get_func(index)?.index()),
            Space::Globals => Ok(self.get_global(index)?.index()),
            Space::Memories => Ok(self.get_memory(index)?.index()),
            Space::Elements => Ok(self.get_element(index)?.index()),
            Space::Data => Ok(self.get_data(index)?.index()),
            Space::Tags => Ok(self.get_tag(index)?.index()),
        }
    }

    /// The local of a function with this index. Errors: `NoLocals` if the function has no locals,
    /// otherwise `LocalOutOfRange`. Allocates nothing.
    pub fn get_local(&self, function: FunctionId, index: u32) -> Result<LocalId, IndexError>
        ensures { result ≡ local_of self.now function index }
    {
        self.locals.get(function, index)
    }

    /// The locals of a function, by index. Allocates nothing.
    pub fn locals_of(&self, function: FunctionId) -> &[LocalId]
        ensures { result.now ≡ locals_in self.now function }
    {
        self.locals.list(function)
    }

    /// Replaces the type of an index that has one. This allocates nothing.
    pub fn remap_type(&mut self, index: u32, id: TypeId)
        requires { index < length (ids_in self.old Types) }
        ensures { self.new ≡ with_id_at Types index id self.old }
    {
        self.types.set(index, id);
    }
}
