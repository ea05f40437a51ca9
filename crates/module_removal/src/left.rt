//! The items of a module that are left.

ghost use Rattle.std.specs.Prelude.{◌≡◌, IfOk, IfErr};
ghost use Rattle.wasm_sections.specs.declared.fault.ModuleFault.TheVariants.{Memory as NoMemory};
ghost use Rattle.item_sets.specs.ItemsLeft.{is_left};
ghost use Rattle.module_removal.specs.ItemNumbers.{AreMarksOf};

use crate::item::{Item, ItemCounts, SPACES};
use crate::parts::done;
use item_sets::ItemsLeft;
use std::alloc::Global;
use walrus_ir::{DataId, ElementId, FunctionId, GlobalId, MemoryId, TableId, TagId, TypeId};
use walrus_maps::IdsToIndices;
use wasm_body::IndexError;
use wasm_ops::Space;
use wasm_sections::ModuleError;

/// The items of a module that are left, in each index space, with their new indices.
#[derive(Drop)]
pub struct LeftItems {
    types: ItemsLeft,
    funcs: ItemsLeft,
    tables: ItemsLeft,
    memories: ItemsLeft,
    globals: ItemsLeft,
    tags: ItemsLeft,
    elements: ItemsLeft,
    data: ItemsLeft,
}

/// Whether this number has a mark that is set.
pub(crate) fn is_set(marks: &[bool], number: usize) -> bool
    ensures { result ≡ is_left marks.now number }
{
    marks.get(number).copied().unwrap_or(false)
}

/// The items of one space that have a mark that is set.
fn of_space(
    alloc: Global,
    counts: &ItemCounts,
    marks: &[bool],
    space: Space,
) -> Result<ItemsLeft, ModuleError>
    ensures ok { IfOk result (λ left. AreMarksOf counts.now marks.now space left.marks.items) }
    ensures err { IfErr result (λ error. error.fault ≡ NoMemory) }
{
    let first = counts.first(space);
    let mut left = Vec::new(alloc);
    'items: for index in 0..counts.of(space) {
        left.push(is_set(marks, first.saturating_add(index)))?;
    }
    match ItemsLeft::new(alloc, left) {
        Ok(left) => Ok(left),
        Err(_) => Err(ModuleError::MEMORY),
    }
}

/// Gives an id that has no number the next one of its space.
macro_rules! push {
    ($numbers:ident, $id:expr, $number_of:ident, $push:ident) => {{
        let id = $id;
        match $numbers.$number_of(id) {
            Ok(_) => Err(IndexError::TooMany),
            Err(_) => $numbers.$push(id),
        }
    }};
}

/// Gives the item with this old index its number, which is the next one of its space.
fn push_number(numbers: &mut IdsToIndices, item: Item, number: u32) -> Result<(), IndexError> {
    let index = item.index as usize;
    match item.space {
        Space::Types => push!(numbers, TypeId::new(index), get_type_index, push_type),
        Space::Funcs => push!(numbers, FunctionId::new(index), get_func_index, push_func),
        Space::Tables => push!(numbers, TableId::new(index), get_table_index, push_table),
        Space::Memories => push!(numbers, MemoryId::new(index), get_memory_index, push_memory),
        Space::Globals => push!(numbers, GlobalId::new(index), get_global_index, push_global),
        Space::Tags => push!(numbers, TagId::new(index), get_tag_index, push_tag),
        Space::Elements => push!(
            numbers,
            ElementId::new(index),
            get_element_index,
            push_element
        ),
        Space::Data => numbers.set_data_index(DataId::new(index), number),
    }
}

impl LeftItems {
    ghost use Rattle.std.specs.Prelude.{◌≡◌, OnOk, IfOk, IfErr};
    ghost use Rattle.item_sets.specs.ItemsLeft.{is_left};
    ghost use Rattle.wasm_operators.specs.declared.types.Space.{Space};
    ghost use Rattle.wasm_sections.specs.declared.fault.ModuleFault.TheVariants.{Memory as NoMemory};
    ghost use Rattle.module_removal.specs.LeftSpaces.{marks_of, marks_set, index_of, SetsMarks, AreMarked};

    /// No items. This allocates nothing.
    fn none(alloc: Global) -> LeftItems {
        LeftItems {
            types: ItemsLeft::none(alloc),
            funcs: ItemsLeft::none(alloc),
            tables: ItemsLeft::none(alloc),
            memories: ItemsLeft::none(alloc),
            globals: ItemsLeft::none(alloc),
            tags: ItemsLeft::none(alloc),
            elements: ItemsLeft::none(alloc),
            data: ItemsLeft::none(alloc),
        }
    }

    /// Sets the items of a space.
    fn set(&mut self, space: Space, left: ItemsLeft)
        ensures { (other : Space) → marks_of self.new other
            ≡ marks_set space left.marks.items (marks_of self.old) other }
    {
        match space {
            Space::Types => self.types = left,
            Space::Funcs => self.funcs = left,
            Space::Tables => self.tables = left,
            Space::Memories => self.memories = left,
            Space::Globals => self.globals = left,
            Space::Tags => self.tags = left,
            Space::Elements => self.elements = left,
            Space::Data => self.data = left,
        }
    }

    /// Sets the items of a space to those that have a mark that is set.
    fn set_marked(
        &mut self,
        alloc: Global,
        counts: &ItemCounts,
        marks: &[bool],
        space: Space,
    ) -> Result<(), ModuleError>
        ensures ok { OnOk result (SetsMarks counts.now marks.now space self.old self.new) }
        ensures err { IfErr result (λ error. error.fault ≡ NoMemory) }
    {
        match of_space(alloc, counts, marks, space) {
            Ok(left) => {
                self.set(space, left);
                Ok(())
            }
            Err(error) => Err(error),
        }
    }

    /// Sets the items of all spaces.
    fn set_all(
        &mut self,
        alloc: Global,
        counts: &ItemCounts,
        marks: &[bool],
    ) -> Result<(), ModuleError>
        ensures ok { OnOk result (AreMarked counts.now marks.now self.new) }
        ensures err { IfErr result (λ error. error.fault ≡ NoMemory) }
    {
        done!(self.set_marked(alloc, counts, marks, Space::Types));
        done!(self.set_marked(alloc, counts, marks, Space::Funcs));
        done!(self.set_marked(alloc, counts, marks, Space::Tables));
        done!(self.set_marked(alloc, counts, marks, Space::Memories));
        done!(self.set_marked(alloc, counts, marks, Space::Globals));
        done!(self.set_marked(alloc, counts, marks, Space::Tags));
        done!(self.set_marked(alloc, counts, marks, Space::Elements));
        self.set_marked(alloc, counts, marks, Space::Data)
    }

    /// The items that have a mark that is set, of a mark for each number.
    ///
    /// # Errors
    ///
    /// `Memory`.
    pub fn of_marks(
        alloc: Global,
        counts: &ItemCounts,
        marks: &[bool],
    ) -> Result<LeftItems, ModuleError>
        ensures ok { IfOk result (λ left. AreMarked counts.now marks.now left) }
        ensures err { IfErr result (λ error. error.fault ≡ NoMemory) }
    {
        let mut left = LeftItems::none(alloc);
        match left.set_all(alloc, counts, marks) {
            Ok(()) => Ok(left),
            Err(error) => Err(error),
        }
    }

    /// The items of a space.
    pub fn space(&self, space: Space) -> &ItemsLeft
        ensures { result.now.marks.items ≡ marks_of self.now space }
    {
        match space {
            Space::Types => &self.types,
            Space::Funcs => &self.funcs,
            Space::Tables => &self.tables,
            Space::Memories => &self.memories,
            Space::Globals => &self.globals,
            Space::Tags => &self.tags,
            Space::Elements => &self.elements,
            Space::Data => &self.data,
        }
    }

    /// Whether an item is left.
    pub fn has(&self, item: Item) -> bool
        ensures { result ≡ is_left (marks_of self.now item.space) item.index }
    {
        self.space(item.space).is_left(item.index as usize)
    }

    /// Whether the function with this index is left.
    pub fn has_function(&self, index: usize) -> bool
        ensures { result ≡ is_left self.now.funcs.marks.items index }
    {
        self.funcs.is_left(index)
    }

    /// The new index of an item; None if it isn't left.
    pub fn new_index(&self, item: Item) -> Option<u32>
        ensures { result ≡ index_of self.now item }
    {
        self.space(item.space).new_index(item.index)
    }

    /// Gives each item of a space that is left its number, in order.
    fn number_space(&self, space: Space, numbers: &mut IdsToIndices) -> Result<(), IndexError> {
        let left = self.space(space);
        for index in 0..left.items() {
            let Ok(index) = u32::try_from(index) else {
                return Err(IndexError::TooMany);
            };
            let Some(number) = left.new_index(index) else {
                continue;
            };
            match push_number(numbers, Item { space, index }, number) {
                Ok(()) => {}
                Err(error) => return Err(error),
            }
        }
        Ok(())
    }

    /// The same for all spaces.
    fn number_all(&self, numbers: &mut IdsToIndices) -> Result<(), IndexError> {
        for space in &SPACES {
            match self.number_space(*space, numbers) {
                Ok(()) => {}
                Err(error) => return Err(error),
            }
        }
        Ok(())
    }

    /// The numbers of the ids of the items that are left, which are their old indices. An id of what is removed has none.
    ///
    /// # Errors
    ///
    /// `Memory`, or `TooMany`.
    pub fn numbers(&self, alloc: Global) -> Result<IdsToIndices, IndexError> {
        let mut numbers = IdsToIndices::new(alloc);
        match self.number_all(&mut numbers) {
            Ok(()) => Ok(numbers),
            Err(error) => Err(error),
        }
    }
}
