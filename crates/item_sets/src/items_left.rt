//! Which items of an index space are left, and the new index of each.

ghost use Rattle.std.specs.Prelude.{◌≡◌, ◌<◌, ℕ, length, take, slice_index};
ghost use Rattle.item_sets.specs.ItemsLeft.{left_count};

use std::alloc::{AllocError, Global};

/// Which items of an index space are left, and the new index of each.
#[derive(Drop)]
pub struct ItemsLeft {
    /// For each item, whether it is left.
    marks: Vec<bool>,
    /// For each item, how many are left of those before it.
    before: Vec<usize>,
    /// How many are left.
    count: usize,
    pub ghost counted: { (i : ℕ) → i < length marks.items → slice_index before.items i ≡ left_count (take i marks.items) },
    pub ghost each: { length before.items ≡ length marks.items },
    pub ghost all: { count ≡ left_count marks.items },
}

impl ItemsLeft {
    ghost use Rattle.std.specs.Prelude.{[], IfOk};
    ghost use Rattle.item_sets.specs.ItemsLeft.{is_left, index_left};

    /// The items of an empty index space. This allocates nothing.
    pub fn none(alloc: Global) -> ItemsLeft
        ensures { result.marks.items ≡ [] }
    {
        ItemsLeft {
            marks: Vec::new(alloc),
            before: Vec::new(alloc),
            count: 0,
        }
    }

    /// The items that have a mark that is set. Takes time and memory linear in the number of items.
    pub fn new(alloc: Global, marks: Vec<bool>) -> Result<ItemsLeft, AllocError>
        ensures { IfOk result (λ s. s.marks.items ≡ marks.items) }
    {
        let mut before = Vec::new(alloc);
        let mut count = 0;
        for is_left in &marks {
            before.push(count)?;
            if *is_left {
                count += 1;
            }
        }
        Ok(ItemsLeft {
            marks,
            before,
            count,
        })
    }

    /// How many items there were.
    pub fn items(&self) -> usize
        ensures { result ≡ length self.now.marks.items }
    {
        self.marks.len()
    }

    /// How many are left.
    pub fn count(&self) -> usize
        ensures { result ≡ left_count self.now.marks.items }
    {
        self.count
    }

    /// Whether the item is left. A number that isn't one of an item isn't.
    pub fn is_left(&self, item: usize) -> bool
        ensures { result ≡ is_left self.now.marks.items item }
    {
        self.marks.get(item).copied().unwrap_or(false)
    }

    /// The new index of an item, or None if it isn't left.
    pub fn new_index(&self, item: u32) -> Option<u32>
        ensures { result ≡ index_left self.now.marks.items item }
    {
        if !self.is_left(item as usize) {
            return None;
        }
        Some(self.before[item as usize] as u32)
    }
}
