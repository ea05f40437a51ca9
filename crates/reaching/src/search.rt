//! A search in a graph: what is marked, and where it has to go on.

ghost use Rattle.std.specs.Prelude.{◌≡◌, ◌<◌, ◌++◌, ◌∷◌, [], length, OnOk, IfOk};
ghost use Rattle.std.specs.Bool.{OnTrue};
ghost use Rattle.std.specs.List.{slice_set};
ghost use Rattle.reaching.specs.Searching.{is_set, is_unset};

use std::alloc::{AllocError, Global};

// Whether there is a mark for the item, and it isn't set.
fn is_unset(marks: &[bool], item: usize) -> bool
    ensures value { result ≡ is_unset marks.now item }
    ensures within { OnTrue result (item < length marks.now) }
{
    !marks.get(item).copied().unwrap_or(true)
}

/// A search in a graph.
#[derive(Drop)]
pub(crate) struct Search {
    /// For each item, whether it is reached.
    pub marks: Vec<bool>,
    /// Those that are reached, and whose edges haven't been followed.
    pub pending: Vec<u32>,
}

impl Search {
    ghost use Rattle.std.specs.Prelude.{ℕ, true, false, if◌then◌else◌};

    /// None of this many items is marked.
    pub fn new(alloc: Global, items: usize) -> Result<Search, AllocError>
        ensures items { IfOk result (λ s. length s.marks.items ≡ items) }
        ensures unmarked { IfOk result (λ s. (x : ℕ) → is_set s.marks.items x ≡ false) }
        ensures pending { IfOk result (λ s. s.pending.items ≡ []) }
    {
        let mut marks = Vec::new(alloc);
        marks.resize(items, false)?;
        Ok(Search {
            marks,
            pending: Vec::new(alloc),
        })
    }

    /// Marks an item, if there is one of this number and it isn't marked.
    pub fn mark(&mut self, item: u32) -> Result<(), AllocError>
        ensures marks { OnOk result (self.new.marks.items
            ≡ (if is_unset self.old.marks.items item then slice_set self.old.marks.items item true else self.old.marks.items)) }
        ensures pending { OnOk result (self.new.pending.items
            ≡ (if is_unset self.old.marks.items item then self.old.pending.items ++ item ∷ [] else self.old.pending.items)) }
    {
        if is_unset(&self.marks, item as usize) {
            self.pending.push(item)?;
            self.marks[item as usize] = true;
        }
        Ok(())
    }
}
