//! The index spaces of a module: everything in them keeps its index, unless functions are imported.

ghost use Rattle.std.specs.Prelude.{◌≡◌, ◌<◌, ◌≤◌, ◌+◌, ◌-◌, ◌^◌, ℕ, Ok, length, IsErr, OnOk, OnErr, IfOk, IfErr, IfSome, IsNone};
ghost use Rattle.wasm_body.specs.declared.error.IndexError.TheVariants as index;
ghost use Rattle.wasm_operators.specs.declared.types.Space.TheVariants.{Types, Funcs, Tables, Memories, Globals, Tags, Elements, Data};
ghost use Rattle.walrus_maps.specs.IndexMaps.{no_ids, ids_in, locals_in, local_of, numbers_in, number_of, with_number, with_next_number};
ghost use Rattle.std.specs.FinMap.{empty};
ghost use Rattle.wasm_operators.specs.declared.types.Space.{Space};
ghost use Rattle.wasm_sections.specs.Declarations.{first_numbers};

use std::alloc::Global;
use walrus_ir::{
    DataId, ElementId, FunctionId, GlobalId, LocalId, MemoryId, TableId, TagId, TypeId,
};
use walrus_maps::{IdsToIndices, IndicesToIds};
use wasm_body::IndexError;

/// The number of items of each index space, except those of functions and locals.
#[derive(Clone, Copy, Default)]
pub struct Counts {
    /// The number of types.
    pub types: usize,
    /// The number of tables.
    pub tables: usize,
    /// The number of memories.
    pub memories: usize,
    /// The number of globals.
    pub globals: usize,
    /// The number of tags.
    pub tags: usize,
    /// The number of element segments.
    pub elements: usize,
    /// The number of data segments.
    pub data: usize,
}

/// The ids of a module's indices in the source, and the indices of its ids in the module that is
/// written. They are the same, unless functions are imported besides those of the source.
#[derive(Drop)]
pub struct Spaces {
    /// The ids of the indices.
    pub indices: IndicesToIds,
    /// The indices of the ids.
    pub numbers: IdsToIndices,
    /// The number of items of each other index space.
    pub counts: Counts,
    /// The number of functions that are imported besides those of the source.
    pub more_imports: usize,
    /// The number of functions with a body that are added to those of the source.
    pub more_functions: usize,
    /// The number of indices of locals with ids, which equal the indices.
    locals: usize,
    ghost local_ids: { locals_in indices 0 ≡ first_numbers locals },
}

/// Gives an id the next index of its space, in the source and in the module that is written. The
/// count of the space, if it has one, is then that of its indices.
macro_rules! add {
    ($spaces:ident, $id:expr, $push:ident, $number_of:ident $(, $count:ident)?) => {{
        let id = $id;
        let _index = match $spaces.indices.$push(id) {
            Ok(index) => index,
            Err(error) => return Err(error),
        };
        match $spaces.numbers.$number_of(id) {
            Ok(_) => {
                $($spaces.counts.$count = _index as usize + 1;)?
                Ok(())
            }
            Err(_) => match $spaces.numbers.$push(id) {
                Ok(()) => {
                    $($spaces.counts.$count = _index as usize + 1;)?
                    Ok(())
                }
                Err(error) => Err(error),
            },
        }
    }};
}

/// The sum of the numbers of functions of the source, of those that are imported besides, and of
/// those that are added, if there may be one more.
fn next_func(total: usize, imports: usize, functions: usize) -> Option<usize>
    ensures sum { IfSome result (λ next. next ≡ total + (imports + functions)) }
    ensures few { IfSome result (λ next. next < 2 ^ 64 - 1) }
    ensures none { IsNone result → 2 ^ 64 - 1 ≤ total + (imports + functions) }
{
    let next = total.checked_add(imports.checked_add(functions)?)?;
    next.checked_add(1)?;
    Some(next)
}

impl Spaces {
    ghost use Rattle.wasm_sections.specs.NextItems.{no_counts, HasNextIndex, HasNextNumber, HasItemsOfOthers, NoNextItem};
    ghost use Rattle.wasm_sections.specs.DefinedItems.{NoNextOwnNumber};
    ghost use Rattle.wasm_sections.specs.OtherLocals.{HasOtherLocals};

    /// Empty index spaces. This allocates nothing.
    pub fn new(alloc: Global) -> Spaces
        ensures indices { result.indices ≡ no_ids }
        ensures numbers { (space : Space) → numbers_in result.numbers space ≡ empty }
        ensures counts { result.counts ≡ no_counts }
        ensures more_imports { result.more_imports ≡ 0 }
        ensures more_functions { result.more_functions ≡ 0 }
    {
        Spaces {
            indices: IndicesToIds::new(alloc),
            numbers: IdsToIndices::new(alloc),
            counts: Counts::default(),
            more_imports: 0,
            more_functions: 0,
            locals: 0,
        }
    }

    /// Gives a type the next index.
    pub fn add_type(&mut self, id: TypeId) -> Result<(), IndexError>
        ensures number { IsErr (number_of self.old.numbers Types id) → OnOk result
            (self.new.numbers ≡ with_next_number Types id self.old.numbers) }
        ensures added { OnOk result (HasNextIndex Types id self.old self.new) }
        ensures numbered { OnOk result (HasNextNumber Types id self.old self.new) }
        ensures refused { IfErr result (NoNextItem Types self.old) }
        ensures kept { OnErr result (HasItemsOfOthers Types self.old self.new) }
    {
        add!(self, id, push_type, get_type_index, types)
    }

    /// Gives a function the next index.
    pub fn add_func(&mut self, id: FunctionId) -> Result<(), IndexError>
        ensures added { OnOk result (HasNextIndex Funcs id self.old self.new) }
        ensures numbered { OnOk result (HasNextNumber Funcs id self.old self.new) }
        ensures refused { IfErr result (NoNextItem Funcs self.old) }
        ensures kept { OnErr result (HasItemsOfOthers Funcs self.old self.new) }
    {
        add!(self, id, push_func, get_func_index)
    }

    /// Adds a function with a body after all functions, to a module whose source has `total`
    /// functions. Its id is its index in the module that is written, and comes after all others.
    ///
    /// # Errors
    ///
    /// `TooMany` if there are 2^32 functions; or `Memory`.
    pub fn define_func(&mut self, total: usize) -> Result<FunctionId, IndexError>
        ensures id { IfOk result (λ id. id
            ≡ total + (self.old.more_imports + self.old.more_functions)) }
        ensures number { IfOk result (λ id. number_of self.new.numbers Funcs id ≡ Ok id) }
        ensures numbers { IfOk result
            (λ id. self.new.numbers ≡ with_next_number Funcs id self.old.numbers) }
        ensures more { OnOk result (self.new.more_functions ≡ self.old.more_functions + 1) }
        ensures more_imports { self.new.more_imports ≡ self.old.more_imports }
        ensures indices { self.new.indices ≡ self.old.indices }
        ensures refused { IfErr result (NoNextOwnNumber Funcs
            (total + (self.old.more_imports + self.old.more_functions)) self.old) }
    {
        let Some(next) = next_func(total, self.more_imports, self.more_functions) else {
            return Err(IndexError::TooMany);
        };
        let id = FunctionId::new(next);
        match self.numbers.get_func_index(id) {
            Ok(_) => return Err(IndexError::TooMany),
            Err(_) => self.numbers.push_func(id)?,
        }
        match self.numbers.get_func_index(id) {
            Ok(index) if index as usize == id.index() => {
                self.more_functions += 1;
                Ok(id)
            }
            _ => Err(IndexError::TooMany),
        }
    }

    /// Adds a table, whose id is its index.
    pub fn add_table(&mut self) -> Result<(), IndexError>
        ensures added { OnOk result (HasNextIndex Tables self.old.counts.tables self.old self.new) }
        ensures numbered { OnOk result (HasNextNumber Tables self.old.counts.tables self.old self.new) }
        ensures refused { IfErr result (NoNextItem Tables self.old) }
        ensures kept { OnErr result (HasItemsOfOthers Tables self.old self.new) }
    {
        add!(
            self,
            TableId::new(self.counts.tables),
            push_table,
            get_table_index,
            tables
        )
    }

    /// Adds a memory, whose id is its index.
    pub fn add_memory(&mut self) -> Result<(), IndexError>
        ensures added { OnOk result (HasNextIndex Memories self.old.counts.memories self.old self.new) }
        ensures numbered { OnOk result (HasNextNumber Memories self.old.counts.memories self.old self.new) }
        ensures refused { IfErr result (NoNextItem Memories self.old) }
        ensures kept { OnErr result (HasItemsOfOthers Memories self.old self.new) }
    {
        add!(
            self,
            MemoryId::new(self.counts.memories),
            push_memory,
            get_memory_index,
            memories
        )
    }

    /// Adds a global, whose id is its index.
    pub fn add_global(&mut self) -> Result<(), IndexError>
        ensures added { OnOk result (HasNextIndex Globals self.old.counts.globals self.old self.new) }
        ensures numbered { OnOk result (HasNextNumber Globals self.old.counts.globals self.old self.new) }
        ensures refused { IfErr result (NoNextItem Globals self.old) }
        ensures kept { OnErr result (HasItemsOfOthers Globals self.old self.new) }
    {
        add!(
            self,
            GlobalId::new(self.counts.globals),
            push_global,
            get_global_index,
            globals
        )
    }

    /// Adds a tag, whose id is its index.
    pub fn add_tag(&mut self) -> Result<(), IndexError>
        ensures added { OnOk result (HasNextIndex Tags self.old.counts.tags self.old self.new) }
        ensures numbered { OnOk result (HasNextNumber Tags self.old.counts.tags self.old self.new) }
        ensures refused { IfErr result (NoNextItem Tags self.old) }
        ensures kept { OnErr result (HasItemsOfOthers Tags self.old self.new) }
    {
        add!(
            self,
            TagId::new(self.counts.tags),
            push_tag,
            get_tag_index,
            tags
        )
    }

    /// Adds an element segment, whose id is its index.
    pub fn add_element(&mut self) -> Result<(), IndexError>
        ensures added { OnOk result (HasNextIndex Elements self.old.counts.elements self.old self.new) }
        ensures numbered { OnOk result (HasNextNumber Elements self.old.counts.elements self.old self.new) }
        ensures refused { IfErr result (NoNextItem Elements self.old) }
        ensures kept { OnErr result (HasItemsOfOthers Elements self.old self.new) }
    {
        add!(
            self,
            ElementId::new(self.counts.elements),
            push_element,
            get_element_index,
            elements
        )
    }

    /// Adds a data segment, whose id is its index.
    pub fn add_data(&mut self) -> Result<(), IndexError>
        ensures added { OnOk result
            (HasNextIndex Data self.old.counts.«data» self.old self.new) }
        ensures numbered { OnOk result (self.new.numbers ≡ with_number Data
            self.old.counts.«data» (length (ids_in self.old.indices Data)) self.old.numbers) }
        ensures refused { IfErr result (NoNextItem Data self.old) }
        ensures kept { OnErr result (HasItemsOfOthers Data self.old self.new) }
    {
        let id = DataId::new(self.counts.data);
        let index = match self.indices.push_data(id) {
            Ok(index) => index,
            Err(error) => return Err(error),
        };
        match self.numbers.set_data_index(id, index) {
            Ok(()) => {
                self.counts.data = index as usize + 1;
                Ok(())
            }
            Err(error) => Err(error),
        }
    }

    /// The number of data segments with an index.
    pub fn data_segments(&self) -> usize
        ensures { result ≡ self.now.counts.«data» }
    {
        self.counts.data
    }

    /// The function whose list in the maps has the locals of all functions. They are numbered in
    /// the same way in each, so one list is enough.
    pub fn local_lists(&self) -> FunctionId
        ensures { result ≡ 0 }
    {
        FunctionId::new(0)
    }

    /// Gives each of the first `count` indices of locals an id, which equals the index.
    pub fn ensure_locals(&mut self, count: usize) -> Result<(), IndexError>
        ensures others { HasOtherLocals self.old self.new }
        ensures ids { OnOk result ((local : ℕ) → local < count
            → local_of self.new.indices 0 local ≡ Ok local) }
        ensures refused { count ≤ 2 ^ 32 → IfErr result (λ e. e ≡ index.Memory) }
    {
        let lists = self.local_lists();
        'locals: for index in self.locals..count {
            self.indices.push_local(lists, LocalId::new(index))?;
            self.locals = index + 1;
        }
        Ok(())
    }
}
