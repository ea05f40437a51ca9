//! The locals of each function, by old index.
ghost use Rattle.std.specs.Prelude.{◌≡◌, ℕ, List, [], ◌∷◌, length, IfOk, OnOk, OnErr};
ghost use Rattle.std.specs.Ordering.{nat_cmp};
ghost use Rattle.std.specs.FinMap as map;
ghost use Rattle.std.specs.Coded.{coded_ℕ, coded_list};
ghost use Rattle.walrus_maps.specs.Growth.{GrowsFrom};
ghost use Rattle.walrus_maps.specs.Locals.{list_of, with_local, local_in};

use crate::id_list::IdList;
use std::alloc::Global;
use std::marker::Model;
use walrus_ir::{FunctionId, IdHashMap, LocalId, kind};
use wasm_body::IndexError;

/// The locals of each function, by old index. In a contract, it is a finite map from function to
/// the list of its locals.
#[derive(Drop)]
pub(crate) struct FunctionLocals {
    lists: IdHashMap<FunctionId, IdList<kind::Local>>,
    alloc: Global,
}

impl Model for FunctionLocals {
    ghost Value = { map.FinMap nat_cmp (List ℕ) };

    ghost coded = { map.code coded_ℕ (coded_list coded_ℕ) };

    ghost view = { λ m. map.from_entries m.lists.entries };
}

impl FunctionLocals {
    /// The map in which no function has locals. This allocates nothing.
    pub fn new(alloc: Global) -> Self
        ensures { result ≡ map.empty }
    {
        FunctionLocals {
            lists: IdHashMap::new(alloc),
            alloc,
        }
    }

    /// Adds a local after the function's others, and returns its index.
    pub fn push(&mut self, function: FunctionId, local: LocalId) -> Result<u32, IndexError>
        ensures index { IfOk result (λ n. n ≡ length (list_of self.old function)) }
        ensures ok { OnOk result (self.new ≡ with_local function local self.old) }
        ensures err { OnErr result (self.new ≡ self.old) }
        ensures growth { GrowsFrom (length (list_of self.old function)) result }
    {
        match self.lists.get_mut(&function) {
            Some(list) => list.push(local),
            None => self.push_first(function, local),
        }
    }

    // The same for a function that has no list. The list is inserted after the local is in it, so
    // that no empty list is in the map after a refusal.
    fn push_first(&mut self, function: FunctionId, local: LocalId) -> Result<u32, IndexError>
        ensures index { IfOk result (λ n. n ≡ 0) }
        ensures ok { OnOk result (self.new ≡ map.insert self.old function (local ∷ [])) }
        ensures err { OnErr result (self.new ≡ self.old) }
        ensures growth { GrowsFrom 0 result }
    {
        let mut list = IdList::new(self.alloc);
        let index = list.push(local)?;
        self.lists.insert(function, list)?;
        Ok(index)
    }

    /// The locals of a function, by index. This allocates nothing.
    pub fn list(&self, function: FunctionId) -> &[LocalId]
        ensures { result.now ≡ list_of self.now function }
    {
        match self.lists.get(&function) {
            Some(list) => list.as_slice(),
            None => &[],
        }
    }

    /// The local with this index, or the error if there is none. This allocates nothing.
    pub fn get(&self, function: FunctionId, index: u32) -> Result<LocalId, IndexError>
        ensures { result ≡ local_in self.now function index }
    {
        self.lists
            .get(&function)
            .ok_or(IndexError::NoLocals { function })?
            .get(index)
            .ok_or(IndexError::LocalOutOfRange { function, index })
    }
}
