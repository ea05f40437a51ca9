//! The items of a module: those of its index spaces, and the module itself.

use wasm_ops::Space;

/// An item of an index space.
#[derive(Clone, Copy, Debug, PartialEq, Eq)]
pub struct Item {
    /// Its index space.
    pub space: Space,
    /// Its index.
    pub index: u32,
}

/// The numbers of items of each index space. Each item of a module has a number: first comes the module itself, with
/// number 0, then all types, functions, tables, memories, globals, tags, element segments and data segments.
#[derive(Clone, Copy, Debug, Default)]
pub struct ItemCounts {
    /// The number of types.
    pub types: usize,
    /// The number of functions.
    pub funcs: usize,
    /// The number of tables.
    pub tables: usize,
    /// The number of memories.
    pub memories: usize,
    /// The number of globals.
    pub globals: usize,
    /// The number of tags.
    pub tags: usize,
    /// The number of element segments.
    pub elements: usize,
    /// The number of data segments.
    pub data: usize,
}

/// All index spaces, in the order in which their items are numbered.
pub const SPACES: [Space; 8] = [
    Space::Types,
    Space::Funcs,
    Space::Tables,
    Space::Memories,
    Space::Globals,
    Space::Tags,
    Space::Elements,
    Space::Data,
];

/// The number of the module itself.
pub const MODULE: u32 = 0;

impl ItemCounts {
    ghost use Rattle.std.specs.Prelude.{◌≡◌, ◌-◌, ◌^◌, min};
    ghost use Rattle.module_removal.specs.ItemNumbers.{count_of, first_number, all_numbers, number_of_item, with_more_items, no_items_counted};

    /// No items.
    pub fn none() -> ItemCounts
        ensures { result ≡ no_items_counted }
    {
        ItemCounts {
            types: 0,
            funcs: 0,
            tables: 0,
            memories: 0,
            globals: 0,
            tags: 0,
            elements: 0,
            data: 0,
        }
    }

    /// How many items a space has.
    pub fn of(&self, space: Space) -> usize
        ensures { result ≡ count_of self.now space }
    {
        match space {
            Space::Types => self.types,
            Space::Funcs => self.funcs,
            Space::Tables => self.tables,
            Space::Memories => self.memories,
            Space::Globals => self.globals,
            Space::Tags => self.tags,
            Space::Elements => self.elements,
            Space::Data => self.data,
        }
    }

    /// Adds an item to a space, and returns its index.
    pub fn add(&mut self, space: Space) -> usize
        ensures index { result ≡ count_of self.old space }
        ensures more { self.new ≡ with_more_items space 1 self.old }
    {
        let index = self.of(space);
        self.add_all(space, 1);
        index
    }

    /// Adds so many items to a space.
    pub fn add_all(&mut self, space: Space, more: usize)
        ensures { self.new ≡ with_more_items space more self.old }
    {
        let count = self.of(space).saturating_add(more);
        match space {
            Space::Types => self.types = count,
            Space::Funcs => self.funcs = count,
            Space::Tables => self.tables = count,
            Space::Memories => self.memories = count,
            Space::Globals => self.globals = count,
            Space::Tags => self.tags = count,
            Space::Elements => self.elements = count,
            Space::Data => self.data = count,
        }
    }

    /// The number of the first item of a space.
    pub fn first(&self, space: Space) -> usize
        ensures { result ≡ min (first_number self.now space) (2 ^ 64 - 1) }
    {
        let types: usize = 1;
        let funcs = types.saturating_add(self.types);
        let tables = funcs.saturating_add(self.funcs);
        let memories = tables.saturating_add(self.tables);
        let globals = memories.saturating_add(self.memories);
        let tags = globals.saturating_add(self.globals);
        let elements = tags.saturating_add(self.tags);
        match space {
            Space::Types => types,
            Space::Funcs => funcs,
            Space::Tables => tables,
            Space::Memories => memories,
            Space::Globals => globals,
            Space::Tags => tags,
            Space::Elements => elements,
            Space::Data => elements.saturating_add(self.elements),
        }
    }

    /// How many numbers items have, with that of the module itself.
    pub fn all(&self) -> usize
        ensures { result ≡ min (all_numbers self.now) (2 ^ 64 - 1) }
    {
        self.first(Space::Data).saturating_add(self.data)
    }

    /// The number of an item; None if the module has no such item, or more items than numbers.
    pub fn number(&self, item: Item) -> Option<u32>
        ensures { result ≡ number_of_item self.now item }
    {
        if item.index as usize >= self.of(item.space) {
            return None;
        }
        let number = self.first(item.space).saturating_add(item.index as usize);
        if number > u32::MAX as usize {
            return None;
        }
        Some(number as u32)
    }
}
