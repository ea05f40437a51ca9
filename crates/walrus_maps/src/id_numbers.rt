//! The numbers of the ids of one kind.
ghost use Rattle.std.specs.Prelude.{◌≡◌, ℕ, OnOk, OnErr, IsOkUnless, None, slice_get};
ghost use Rattle.std.specs.Ordering.{nat_cmp};
ghost use Rattle.std.specs.FinMap as map;
ghost use Rattle.wasm_numbers.specs.Results.{some_or};
ghost use Rattle.walrus_maps.specs.Growth.{GrowsFrom};

use crate::growth::index_after;
use std::alloc::Global;
use std::marker::Model;
use walrus_ir::{Id, IdHashMap};
use wasm_body::IndexError;
use wasm_operators::Space;

/// The numbers of the ids of one kind. In a contract, it is a finite map from id to number.
#[derive(Drop)]
pub(crate) struct IdNumbers<K> {
    /// Those of the first ids, by id. As long as ids get numbers in the order of the ids, from 0 on,
    /// all are here.
    table: Vec<u32>,
    /// Those of other ids.
    numbers: IdHashMap<Id<K>, u32>,
}

impl<K> Model for IdNumbers<K> {
    ghost use Rattle.std.specs.Prelude.{ℕ};
    ghost use Rattle.std.specs.Ordering.{nat_cmp};
    ghost use Rattle.std.specs.FinMap as map;
    ghost use Rattle.std.specs.Coded.{coded_ℕ};
    ghost use Rattle.walrus_maps.specs.IdTables.{with_table, IsOfOthers};

    ghost Value = { map.FinMap nat_cmp ℕ };

    ghost coded = { map.code coded_ℕ coded_ℕ };

    ghost view = { λ m. with_table 0 m.table.items (map.from_entries m.numbers.entries) };

    ghost invariant = { λ m. IsOfOthers m.table.items (map.from_entries m.numbers.entries) };
}

/// The number at an index of a table.
#[inline(always)]
fn number_at(table: &[u32], index: usize) -> Option<u32>
    ensures { result ≡ slice_get table.now index }
{
    table.get(index).copied()
}

/// The number of the id with this index in a hash map, or the error `Unnumbered` with this space.
#[inline(never)]
fn number_in<K>(
    numbers: &IdHashMap<Id<K>, u32>,
    space: Space,
    index: usize,
) -> Result<u32, IndexError>
    ensures { result ≡ some_or (map.get (map.from_entries {R = nat_cmp} numbers.now.entries) index)
        (IndexError.Unnumbered space) }
{
    numbers
        .get(&Id::new(index))
        .copied()
        .ok_or(IndexError::Unnumbered { space })
}

impl<K> IdNumbers<K> {
    /// The map in which no id has a number.
    pub fn new(alloc: Global) -> Self
        ensures { result ≡ map.empty }
    {
        IdNumbers {
            table: Vec::new(alloc),
            numbers: IdHashMap::new(alloc),
        }
    }

    // The number of ids that have a number.
    fn len(&self) -> usize
        ensures { result ≡ map.len self.now }
    {
        self.table.len() + self.numbers.len()
    }

    /// Gives an id that has no number the next one: the number of ids that have one.
    pub fn push(&mut self, id: Id<K>) -> Result<(), IndexError>
        requires { map.get self.old id ≡ None }
        ensures ok { OnOk result (self.new ≡ map.insert self.old id (map.len self.old)) }
        ensures err { OnErr result (self.new ≡ self.old) }
        ensures growth { GrowsFrom (map.len self.old) result }
    {
        let number = index_after(self.len())?;
        self.set(id, number)
    }

    /// Gives an id this number. It replaces the number that the id may have.
    pub fn set(&mut self, id: Id<K>, number: u32) -> Result<(), IndexError>
        ensures ok { OnOk result (self.new ≡ map.insert self.old id number) }
        ensures err { OnErr result (self.new ≡ self.old) }
        ensures memory { IsOkUnless result IndexError.Memory }
    {
        let index = id.index();
        if index < self.table.len() {
            self.table[index] = number;
            return Ok(());
        }
        if index == self.table.len() && !self.numbers.contains_key(&Id::new(index)) {
            self.table.push(number)?;
            return Ok(());
        }
        self.numbers.insert(Id::new(index), number)?;
        Ok(())
    }

    /// The number of an id, or the error `Unnumbered` with this space.
    #[inline(always)]
    pub fn get_in(&self, space: Space, id: Id<K>) -> Result<u32, IndexError>
        ensures { result ≡ some_or (map.get self.now id) (IndexError.Unnumbered space) }
    {
        let index = id.index();
        match number_at(&self.table, index) {
            Some(number) => Ok(number),
            None => number_in(&self.numbers, space, index),
        }
    }
}
