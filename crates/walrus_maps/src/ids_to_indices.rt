//! From ids to new indices.
ghost use Rattle.std.specs.Prelude.{◌≡◌, OnOk, OnErr, IsErr, IsOkUnless};
ghost use Rattle.std.specs.HashMap.{IsEmpty};
ghost use Rattle.std.specs.FinMap as map;
ghost use Rattle.wasm_operators.specs.declared.types.Space.TheVariants.{Tables, Types, Funcs, Globals, Memories, Elements, Data, Tags};
ghost use Rattle.walrus_maps.specs.Growth.{GrowsFrom};
ghost use Rattle.walrus_maps.specs.IndexMaps.{numbers_in, with_numbers, with_number, with_next_number, number_of};
ghost use Rattle.walrus_maps.specs.Numbering.{PushesNumberInOrder};

use crate::id_numbers::IdNumbers;
use std::alloc::Global;
use std::mem;
use walrus_ir::{
    DataId, ElementId, FunctionId, GlobalId, Id, IdHashMap, LocalId, MemoryId, TableId, TagId,
    TypeId, kind,
};
use wasm_body::IndexError;
use wasm_operators::Space;

/// The new indices of ids: the numbers that are written for them. Each space has its own indices,
/// from 0 on (WebAssembly core specification 3.0, structure, modules, indices).
#[derive(Drop)]
pub struct IdsToIndices {
    tables: IdNumbers<kind::Table>,
    types: IdNumbers<kind::Type>,
    funcs: IdNumbers<kind::Function>,
    globals: IdNumbers<kind::Global>,
    memories: IdNumbers<kind::Memory>,
    elements: IdNumbers<kind::Element>,
    data: IdNumbers<kind::Data>,
    tags: IdNumbers<kind::Tag>,
    /// The new indices of the locals of each function, set by the code that numbers them.
    pub locals: IdHashMap<FunctionId, IdHashMap<LocalId, u32>>,
}

impl IdsToIndices {
    /// Maps in which no id has a new index. This allocates nothing.
    pub fn new(alloc: Global) -> IdsToIndices
        ensures numbers { (space : Space) → numbers_in result space ≡ map.empty }
        ensures locals { IsEmpty result.locals }
    {
        IdsToIndices {
            tables: IdNumbers::new(alloc),
            types: IdNumbers::new(alloc),
            funcs: IdNumbers::new(alloc),
            globals: IdNumbers::new(alloc),
            memories: IdNumbers::new(alloc),
            elements: IdNumbers::new(alloc),
            data: IdNumbers::new(alloc),
            tags: IdNumbers::new(alloc),
            locals: IdHashMap::new(alloc),
        }
    }

    /// Gives a table that has no new index the next one. Errors: `TooMany` if 2^32 tables have one,
    /// `Memory` if memory runs out.
    pub fn push_table(&mut self, id: TableId) -> Result<(), IndexError>
        requires { IsErr (number_of self.old Tables id) }
        ensures ok { OnOk result (self.new ≡ with_next_number Tables id self.old) }
        ensures err { OnErr result (self.new ≡ self.old) }
        ensures growth { GrowsFrom (map.len (numbers_in self.old Tables)) result }
    {
        self.tables.push(id)
    }

    /// Gives a type that has no new index the next one. Errors: `TooMany` if 2^32 types have one,
    /// `Memory` if memory runs out.
    pub fn push_type(&mut self, id: TypeId) -> Result<(), IndexError>
        requires { IsErr (number_of self.old Types id) }
        ensures ok { OnOk result (self.new ≡ with_next_number Types id self.old) }
        ensures err { OnErr result (self.new ≡ self.old) }
        ensures growth { GrowsFrom (map.len (numbers_in self.old Types)) result }
    {
        self.types.push(id)
    }

    /// Gives a function that has no new index the next one. Errors: `TooMany` if 2^32 functions
    /// have one, `Memory` if memory runs out.
    pub fn push_func(&mut self, id: FunctionId) -> Result<(), IndexError>
        requires { IsErr (number_of self.old Funcs id) }
        ensures ok { OnOk result (self.new ≡ with_next_number Funcs id self.old) }
        ensures err { OnErr result (self.new ≡ self.old) }
        ensures growth { GrowsFrom (map.len (numbers_in self.old Funcs)) result }
    {
        self.funcs.push(id)
    }

    /// Gives a global that has no new index the next one. Errors: `TooMany` if 2^32 globals have
    /// one, `Memory` if memory runs out.
    pub fn push_global(&mut self, id: GlobalId) -> Result<(), IndexError>
        requires { IsErr (number_of self.old Globals id) }
        ensures ok { OnOk result (self.new ≡ with_next_number Globals id self.old) }
        ensures err { OnErr result (self.new ≡ self.old) }
        ensures growth { GrowsFrom (map.len (numbers_in self.old Globals)) result }
    {
        self.globals.push(id)
    }

    /// Gives a memory that has no new index the next one. Errors: `TooMany` if 2^32 memories have
    /// one, `Memory` if memory runs out.
    pub fn push_memory(&mut self, id: MemoryId) -> Result<(), IndexError>
        requires { IsErr (number_of self.old Memories id) }
        ensures ok { OnOk result (self.new ≡ with_next_number Memories id self.old) }
        ensures err { OnErr result (self.new ≡ self.old) }
        ensures growth { GrowsFrom (map.len (numbers_in self.old Memories)) result }
    {
        self.memories.push(id)
    }

    /// Gives an element segment that has no new index the next one. Errors: `TooMany` if 2^32
    /// element segments have one, `Memory` if memory runs out.
    pub fn push_element(&mut self, id: ElementId) -> Result<(), IndexError>
        requires { IsErr (number_of self.old Elements id) }
        ensures ok { OnOk result (self.new ≡ with_next_number Elements id self.old) }
        ensures err { OnErr result (self.new ≡ self.old) }
        ensures growth { GrowsFrom (map.len (numbers_in self.old Elements)) result }
    {
        self.elements.push(id)
    }

    /// Gives a tag that has no new index the next one. Errors: `TooMany` if 2^32 tags have one,
    /// `Memory` if memory runs out.
    pub fn push_tag(&mut self, id: TagId) -> Result<(), IndexError>
        requires { IsErr (number_of self.old Tags id) }
        ensures ok { OnOk result (self.new ≡ with_next_number Tags id self.old) }
        ensures err { OnErr result (self.new ≡ self.old) }
        ensures growth { GrowsFrom (map.len (numbers_in self.old Tags)) result }
    {
        self.tags.push(id)
    }

    /// Gives a data segment this new index. It replaces the index that the segment may have. The
    /// only error is `Memory`, if memory runs out.
    pub fn set_data_index(&mut self, id: DataId, index: u32) -> Result<(), IndexError>
        ensures ok { OnOk result (self.new ≡ with_number Data id index self.old) }
        ensures err { OnErr result (self.new ≡ self.old) }
        ensures memory { IsOkUnless result IndexError.Memory }
    {
        self.data.set(id, index)
    }

    /// Exchanges the new indices of functions with those of other maps; all others stay. Allocates
    /// nothing.
    pub fn swap_funcs(&mut self, other: &mut IdsToIndices)
        ensures own { self.new ≡ with_numbers Funcs (numbers_in other.old Funcs) self.old }
        ensures others { other.new ≡ with_numbers Funcs (numbers_in self.old Funcs) other.old }
    {
        mem::swap(&mut self.funcs, &mut other.funcs);
    }

    /// The new index of a table, or the error `Unnumbered`. Allocates nothing.
    pub fn get_table_index(&self, id: TableId) -> Result<u32, IndexError>
        ensures { result ≡ number_of self.now Tables id }
    {
        self.tables.get_in(Space::Tables, id)
    }

    /// The new index of a type, or the error `Unnumbered`. Allocates nothing.
    pub fn get_type_index(&self, id: TypeId) -> Result<u32, IndexError>
        ensures { result ≡ number_of self.now Types id }
    {
        self.types.get_in(Space::Types, id)
    }

    /// The new index of a function, or the error `Unnumbered`. Allocates nothing.
    pub fn get_func_index(&self, id: FunctionId) -> Result<u32, IndexError>
        ensures { result ≡ number_of self.now Funcs id }
    {
        self.funcs.get_in(Space::Funcs, id)
    }

    /// The new index of a global, or the error `Unnumbered`. Allocates nothing.
    pub fn get_global_index(&self, id: GlobalId) -> Result<u32, IndexError>
        ensures { result ≡ number_of self.now Globals id }
    {
        self.globals.get_in(Space::Globals, id)
    }

    /// The new index of a memory, or the error `Unnumbered`. Allocates nothing.
    pub fn get_memory_index(&self, id: MemoryId) -> Result<u32, IndexError>
        ensures { result ≡ number_of self.now Memories id }
    {
        self.memories.get_in(Space::Memories, id)
    }

    /// The new index of an element segment, or the error `Unnumbered`. Allocates nothing.
    pub fn get_element_index(&self, id: ElementId) -> Result<u32, IndexError>
        ensures { result ≡ number_of self.now Elements id }
    {
        self.elements.get_in(Space::Elements, id)
    }

    /// The new index of a data segment, or the error `Unnumbered`. Allocates nothing.
    pub fn get_data_index(&self, id: DataId) -> Result<u32, IndexError>
        ensures { result ≡ number_of self.now Data id }
    {
        self.data.get_in(Space::Data, id)
    }

    /// The new index of a tag, or the error `Unnumbered`. Allocates nothing.
    pub fn get_tag_index(&self, id: TagId) -> Result<u32, IndexError>
        ensures { result ≡ number_of self.now Tags id }
    {
        self.tags.get_in(Space::Tags, id)
    }

    /// The new index of the id with this number in a space, or the error `Unnumbered`. Allocates
    /// nothing.
    #[inline(always)]
    pub fn index_at(&self, space: Space, id: usize) -> Result<u32, IndexError>
        ensures { result ≡ number_of self.now space id }
    {
        match space {
            Space::Tables => self.get_table_index(Id::new(id)),
            Space::Types => self.get_type_index(Id::new(id)),
            Space::Funcs => self.get_func_index(Id::new(id)),
            Space::Globals => self.get_global_index(Id::new(id)),
            Space::Memories => self.get_memory_index(Id::new(id)),
            Space::Elements => self.get_element_index(Id::new(id)),
            Space::Data => self.get_data_index(Id::new(id)),
            Space::Tags => self.get_tag_index(Id::new(id)),
        }
    }
}

/// Distinct ids that are pushed into a space in which no id has a new index are numbered in their
/// order, from 0 on without gaps. No other id gets a number, and no two get the same one.
pub fn law_numbers_of_pushes()
    ensures { PushesNumberInOrder }
{}
