//! Items of functions in custom sections that follow the code: metadata of operators, such as branch hints, by the offsets
//! of these (the proposals for custom annotations of code and for branch hinting), and names of locals by their indices
//! (WebAssembly core specification 3.0, custom sections, name section).

ghost use Rattle.std.specs.Prelude.{◌≡◌, OnOk, IfOk};
ghost use Rattle.module_removal.specs.Entries.{entries_made};
ghost use Rattle.module_removal.specs.LeftParts.{with_item, items_vector_of, with_items_of, items_numbered};
ghost use Rattle.module_removal.specs.LeftSections.{names_metadata, names_names};

use crate::entries::Entries;
use crate::item::Item;
use crate::left::LeftItems;
use crate::parts::done;
use std::alloc::Global;
use walrus_ir::{IdHashMap, InstrLocId, LocalId};
use wasm_ops::Space;
use wasm_sections::{Input, ModuleError, write_bytes, write_number};

/// An operator or a local of a function, by its offset or index.
#[derive(Clone, Copy, Debug)]
struct Part {
    func: usize,
    old: u32,
    /// Its new offset or index, if it is written.
    new: Option<u32>,
}

/// Operators or locals of functions.
#[derive(Drop)]
pub(crate) struct Followed {
    /// By ascending function and number.
    parts: Vec<Part>,
}

/// Whether a custom section with this name has metadata of code.
pub(crate) fn is_metadata(name: &str) -> bool
    ensures { result ≡ names_metadata name.now }
{
    name.starts_with("metadata.code.")
}

/// Whether a custom section with this name has names.
pub(crate) fn is_names(name: &str) -> bool
    ensures { result ≡ names_names name.now }
{
    name == "name"
}

/// The location pairs from the one of the operator at this place on, or of a later one; none if there is none.
fn pairs_from(pairs: &[(InstrLocId, usize)], place: usize) -> &[(InstrLocId, usize)] {
    for (index, (location, _)) in pairs.iter().enumerate() {
        if location.data() as usize >= place && !location.is_default() {
            return &pairs[index..];
        }
    }
    &[]
}

/// Where the operator at this place is written, if it is that of the first of these location pairs.
fn new_offset(pairs: &[(InstrLocId, usize)], place: usize) -> Option<u32> {
    match pairs.first() {
        Some((location, new)) if location.data() as usize == place => u32::try_from(*new).ok(),
        _ => None,
    }
}

/// Adds an item with this new number, if it has one.
fn push_item<'a>(
    new: Option<u32>,
    bytes: &'a [u8],
    items: &mut Vec<(u32, &'a [u8])>,
) -> Result<(), ModuleError>
    ensures { OnOk result (items_numbered items.new.items ≡ with_item new bytes.now (items_numbered items.old.items)) }
{
    let Some(new) = new else {
        return Ok(());
    };
    items.push((new, bytes))?;
    Ok(())
}

/// The number of items, each with its new number, and the items.
fn items_vector(alloc: Global, items: &[(u32, &[u8])]) -> Result<Vec<u8>, ModuleError>
    ensures { IfOk result (λ vector. vector.items ≡ items_vector_of (items_numbered items.now)) }
{
    let mut vector = Vec::new(alloc);
    done!(write_number(&mut vector, items.len()));
    'items: for (number, bytes) in items {
        done!(write_number(&mut vector, *number as usize));
        done!(write_bytes(&mut vector, bytes));
    }
    Ok(vector)
}

/// Adds a function with this new index, if it has one, and these items, if there are any.
fn add_function(
    alloc: Global,
    index: Option<u32>,
    items: &[(u32, &[u8])],
    functions: &mut Entries,
) -> Result<(), ModuleError>
    ensures { OnOk result (entries_made functions.new ≡ with_items_of index (items_numbered items.now) (entries_made functions.old)) }
{
    if items.is_empty() {
        return Ok(());
    }
    let value = done!(items_vector(alloc, items));
    functions.add(index, &value)
}

impl Followed {
    ghost use Rattle.std.specs.Prelude.{◌≡◌, true, false, List, Ok, OnOk, IfOk};
    ghost use Rattle.std.specs.List.Sorted.{IsPermutation, IsNonDecreasingBy, IsPartitionPoint};
    ghost use Rattle.module_removal.specs.Entries.{entries_made};
    ghost use Rattle.module_removal.specs.LeftParts.{ArePartsInOrder, parts_numbered, is_part_before, new_number_in, FunctionItem, next_item, numbered_items, items_numbered, with_items_of, LeavesFunction, LeavesParts};

    /// None. This allocates nothing.
    pub fn new(alloc: Global) -> Followed {
        Followed {
            parts: Vec::new(alloc),
        }
    }

    /// Adds the parts of functions that have items in these contents: for each of some functions its index and a vector of
    /// items, each a number and a vector of bytes.
    pub fn add(&mut self, mut input: Input<'_>) -> Result<(), ModuleError> {
        let functions = done!(input.number());
        for _ in 0..functions {
            let func = done!(input.number()) as usize;
            let items = done!(input.number());
            for _ in 0..items {
                let old = done!(input.number());
                done!(input.bytes());
                self.parts.push(Part {
                    func,
                    old,
                    new: None,
                })?;
            }
        }
        Ok(())
    }

    /// Puts them in order, after all are added.
    pub fn sort(&mut self)
        ensures { ArePartsInOrder self.new.parts.items }
    {
        self.parts
            .sort_unstable_by_key(|part| (part.func, part.old));
    }

    /// Where the part of a function with this number is; or the next one, or the end.
    fn first_from(&self, func: usize, old: u32) -> usize
        ensures { ArePartsInOrder self.now.parts.items → IsPartitionPoint (λ p. is_part_before func old p ≡ true)
            (λ p. is_part_before func old p ≡ false) self.now.parts.items result }
    {
        self.parts.partition_point(|part| part.func < func || (part.func == func && part.old < old))
    }

    /// Where the first part of a function is, or the next one, or the end.
    fn first_of(&self, func: usize) -> usize {
        self.first_from(func, 0)
    }

    /// Whether this function has parts.
    pub fn has(&self, func: usize) -> bool {
        match self.parts.get(self.first_of(func)) {
            Some(part) => part.func == func,
            None => false,
        }
    }

    /// Sets the new number of a part.
    fn set_new(&mut self, index: usize, new: Option<u32>)
        ensures { parts_numbered self.new.parts.items ≡ parts_numbered self.old.parts.items }
    {
        if index < self.parts.len() {
            self.parts[index].new = new;
        }
    }

    /// The number of the part at this index, if it is one of this function.
    fn number_at(&self, index: usize, func: usize) -> Option<u32> {
        match self.parts.get(index) {
            Some(part) if part.func == func => Some(part.old),
            _ => None,
        }
    }

    /// The operators of a function are written, with these location pairs. Takes time linear in their number.
    pub fn pass_operators(&mut self, func: usize, start: usize, pairs: &[(InstrLocId, usize)])
        ensures { parts_numbered self.new.parts.items ≡ parts_numbered self.old.parts.items }
    {
        let mut left = pairs;
        'parts: for index in self.first_of(func)..self.parts.len() {
            let Some(old) = self.number_at(index, func) else {
                return;
            };
            if old == 0 {
                // No operator begins there: it is the whole function.
                self.set_new(index, Some(0));
                continue;
            }
            let place = start.saturating_add(old as usize);
            left = pairs_from(left, place);
            self.set_new(index, new_offset(left, place));
        }
    }

    /// The locals of a function are written, with these new indices.
    pub fn pass_locals(&mut self, func: usize, numbers: &IdHashMap<LocalId, u32>)
        ensures { parts_numbered self.new.parts.items ≡ parts_numbered self.old.parts.items }
    {
        'parts: for index in self.first_of(func)..self.parts.len() {
            let Some(old) = self.number_at(index, func) else {
                return;
            };
            self.set_new(index, numbers.get(&LocalId::new(old as usize)).copied());
        }
    }

    /// The new number of a part.
    fn new_number(&self, func: usize, old: u32) -> Option<u32>
        ensures { ArePartsInOrder self.now.parts.items → result ≡ new_number_in self.now.parts.items func old }
    {
        match self.parts.get(self.first_from(func, old)) {
            Some(part) if part.func == func && part.old == old => part.new,
            _ => None,
        }
    }

    /// Adds the next item of a function, under its new number, if it has one.
    fn add_item<'a>(
        &self,
        func: usize,
        input: &mut Input<'a>,
        items: &mut Vec<(u32, &'a [u8])>,
    ) -> Result<(), ModuleError>
        ensures same_end { input.new.end ≡ input.old.end }
        ensures is { ArePartsInOrder self.now.parts.items → OnOk result
            (next_item (new_number_in self.now.parts.items func) (items_numbered items.old.items) input.old.end input.old.rest.now
            ≡ Ok (items_numbered items.new.items, input.new.rest.now)) }
    {
        let old = done!(input.number());
        let bytes = done!(input.bytes());
        push_item(self.new_number(func, old), bytes, items)
    }

    /// The items of a function whose parts are written, by ascending new number.
    fn items_of<'a>(
        &self,
        alloc: Global,
        func: usize,
        input: &mut Input<'a>,
    ) -> Result<Vec<(u32, &'a [u8])>, ModuleError>
        ensures same_end { input.new.end ≡ input.old.end }
        ensures is { ArePartsInOrder self.now.parts.items → IfOk result (λ sorted. (items : List FunctionItem)
            × (numbered_items (new_number_in self.now.parts.items func) input.old.end input.old.rest.now ≡ Ok (items, input.new.rest.now))
            × IsPermutation items (items_numbered sorted.items)) }
        ensures ascending { IfOk result (λ sorted. IsNonDecreasingBy (λ x. x.0) (items_numbered sorted.items)) }
    {
        let mut items = Vec::new(alloc);
        let count = done!(input.number());
        'items: for _ in 0..count {
            done!(self.add_item(func, input, &mut items));
        }
        items.sort_unstable_by_key(|(new, _)| *new);
        Ok(items)
    }

    /// Adds the next function, if it is left and has items.
    fn put_function(
        &self,
        alloc: Global,
        left: &LeftItems,
        input: &mut Input<'_>,
        functions: &mut Entries,
    ) -> Result<(), ModuleError>
        ensures same_end { input.new.end ≡ input.old.end }
        ensures is { ArePartsInOrder self.now.parts.items → OnOk result (LeavesFunction left.now self.now.parts.items input.old.end
            (entries_made functions.old, input.old.rest.now) (entries_made functions.new, input.new.rest.now)) }
    {
        let index = done!(input.number());
        let items = done!(self.items_of(alloc, index as usize, input));
        let new = left.new_index(Item {
            space: Space::Funcs,
            index,
        });
        add_function(alloc, new, &items, functions)
    }

    /// The contents with the items of what is left.
    pub fn contents(
        &self,
        alloc: Global,
        left: &LeftItems,
        contents: Input<'_>,
    ) -> Result<Vec<u8>, ModuleError>
        ensures { ArePartsInOrder self.now.parts.items → IfOk result (λ made.
            LeavesParts left.now self.now.parts.items contents.entry.end contents.entry.rest.now made.items) }
    {
        let mut input = contents;
        let mut functions = Entries::new(alloc);
        let count = done!(input.number());
        'functions: for _ in 0..count {
            done!(self.put_function(alloc, left, &mut input, &mut functions));
        }
        functions.whole(alloc)
    }
}
