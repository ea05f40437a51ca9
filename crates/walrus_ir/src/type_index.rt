//! The ids of a module's types, by the types of their parameters and results.
ghost use Rattle.std.specs.Prelude.{◌≡◌, [], Some, None, cond, ◌&&◌, OnOk, OnErr};
ghost use Rattle.std.specs.Option.{option_or};
ghost use Rattle.walrus_ir.specs.Types.{same_types};
ghost use Rattle.walrus_ir.specs.TypeDigest.{func_digest, entry_digest};
ghost use Rattle.wasm_types.specs.declared.val_type.ValType.{ValType as ValueType};
ghost use Rattle.walrus_ir.specs.TypeIndex.{at_list, at_lists, at_digest, TakesDigest, TakesList, TakesLists, AddsFunc, AddsEntry};

use crate::type_digest::{entry_digest, func_digest};
use std::alloc::{AllocError, Global};
use std::collections::BTreeMap;
use std::marker::Model;
use wasm_types::{TypeId, ValType, law_type_order};

/// Ids by list of value types, in an ordered map, so that each list is found in logarithmic time.
/// In a contract, it is each list with its id.
#[derive(Drop)]
pub(crate) struct ListIds {
    ids: BTreeMap<Vec<ValType>, TypeId>,
    alloc: Global,
}

impl Model for ListIds {
    ghost use Rattle.std.specs.Prelude.{ℕ};
    ghost use Rattle.walrus_ir.specs.TypeIndex.{ByList, by_list};

    ghost Value = { ByList ℕ };

    ghost view = { λ m. by_list m.ids.entries };
}

impl ListIds {
    ghost use Rattle.std.specs.Prelude.{List, ℕ};

    /// No list has an id. This allocates nothing.
    pub fn new(alloc: Global) -> ListIds
        ensures { result ≡ [] }
    {
        ListIds {
            ids: BTreeMap::new(alloc),
            alloc,
        }
    }

    /// The id of this list. This allocates nothing.
    pub fn get(&self, list: &[ValType]) -> Option<TypeId>
        ensures { result ≡ at_list self.now list.now }
    {
        // By this law equal lists are those that the order doesn't tell apart.
        law_type_order();
        self.ids.get(list).copied()
    }

    /// Gives this list an id, unless it has one. If memory runs out nothing changes.
    pub fn add(&mut self, list: &[ValType], id: TypeId) -> Result<(), AllocError>
        ensures ok { OnOk result (TakesList list.now id self.old self.new) }
        ensures err { OnErr result (self.new ≡ self.old) }
    {
        if self.get(list).is_some() {
            return Ok(());
        }
        law_type_order();
        let list = Vec::from_slice(self.alloc, list)?;
        self.ids.insert(list, id)?;
        Ok(())
    }
}

/// Ids by two lists of value types: parameters and results. In a contract, it is each list of
/// parameters with the lists of results, and these with their ids.
#[derive(Drop)]
pub(crate) struct FuncIds {
    ids: BTreeMap<Vec<ValType>, ListIds>,
    alloc: Global,
}

impl Model for FuncIds {
    ghost use Rattle.std.specs.Prelude.{ℕ};
    ghost use Rattle.walrus_ir.specs.TypeIndex.{ByList, by_list};

    ghost Value = { ByList (ByList ℕ) };

    ghost view = { λ m. by_list m.ids.entries };
}

impl FuncIds {
    ghost use Rattle.std.specs.Prelude.{List, ℕ};

    /// No lists have an id. This allocates nothing.
    pub fn new(alloc: Global) -> FuncIds
        ensures { result ≡ [] }
    {
        FuncIds {
            ids: BTreeMap::new(alloc),
            alloc,
        }
    }

    /// The id of these lists. This allocates nothing.
    pub fn get(&self, params: &[ValType], results: &[ValType]) -> Option<TypeId>
        ensures { result ≡ at_lists self.now params.now results.now }
    {
        law_type_order();
        match self.ids.get(params) {
            Some(by_results) => by_results.get(results),
            None => None,
        }
    }

    /// Gives these lists an id, unless they have one. If memory runs out nothing changes.
    pub fn add(
        &mut self,
        params: &[ValType],
        results: &[ValType],
        id: TypeId,
    ) -> Result<(), AllocError>
        ensures ok { OnOk result (TakesLists params.now results.now id self.old self.new) }
        ensures err { OnErr result (self.new ≡ self.old) }
    {
        law_type_order();
        match self.ids.get_mut(params) {
            Some(by_results) => by_results.add(results, id),
            None => self.add_first(params, results, id),
        }
    }

    // The same if no type has these parameters. Their entry is added when it contains the id.
    fn add_first(
        &mut self,
        params: &[ValType],
        results: &[ValType],
        id: TypeId,
    ) -> Result<(), AllocError>
        ensures ok { OnOk result ((takes gives : List (ValueType ℕ)) → at_lists self.new takes gives
            ≡ cond (same_types params.now takes)
            (cond (same_types results.now gives) (Some id) None) (at_lists self.old takes gives)) }
        ensures err { OnErr result (self.new ≡ self.old) }
    {
        law_type_order();
        let mut by_results = ListIds::new(self.alloc);
        by_results.add(results, id)?;
        let params = Vec::from_slice(self.alloc, params)?;
        self.ids.insert(params, by_results)?;
        Ok(())
    }
}

/// Ids by digest. In a contract, it is each digest with its id.
#[derive(Drop)]
pub(crate) struct DigestIds {
    ids: BTreeMap<u64, TypeId>,
}

impl Model for DigestIds {
    ghost use Rattle.walrus_ir.specs.TypeIndex.{ByDigest};

    ghost Value = { ByDigest };

    ghost view = { λ m. m.ids.entries };
}

impl DigestIds {
    /// No digest has an id. This allocates nothing.
    pub fn new(alloc: Global) -> DigestIds
        ensures { result ≡ [] }
    {
        DigestIds {
            ids: BTreeMap::new(alloc),
        }
    }

    /// The id of this digest. This allocates nothing.
    pub fn get(&self, digest: u64) -> Option<TypeId>
        ensures { result ≡ at_digest self.now digest }
    {
        self.ids.get(&digest).copied()
    }

    /// Gives an id to a digest that has none. If memory runs out nothing changes.
    pub fn add(&mut self, digest: u64, id: TypeId) -> Result<(), AllocError>
        requires { at_digest self.old digest ≡ None }
        ensures ok { OnOk result (TakesDigest digest id self.old self.new) }
        ensures err { OnErr result (self.new ≡ self.old) }
    {
        self.ids.insert(digest, id)?;
        Ok(())
    }
}

/// The ids of function types and of entry types. The first type of each digest is found by its
/// digest, and others with the same digest by their lists, in ordered maps. So a module whose types
/// have equal digests takes more memory, and not more time.
#[derive(Drop)]
pub(crate) struct TypeIndex {
    /// The first id of each digest.
    pub firsts: DigestIds,
    /// The ids of further function types, by their lists.
    pub func_ids: FuncIds,
    /// The ids of further entry types, by their results.
    pub entry_ids: ListIds,
}

impl TypeIndex {
    /// No type has an id. This allocates nothing.
    pub fn new(alloc: Global) -> TypeIndex
        ensures firsts { result.firsts ≡ [] }
        ensures functions { result.func_ids ≡ [] }
        ensures entries { result.entry_ids ≡ [] }
    {
        TypeIndex {
            firsts: DigestIds::new(alloc),
            func_ids: FuncIds::new(alloc),
            entry_ids: ListIds::new(alloc),
        }
    }

    /// Gives an id to a function type, unless it has one. If memory runs out nothing changes.
    pub fn add_func(
        &mut self,
        params: &[ValType],
        results: &[ValType],
        id: TypeId,
    ) -> Result<(), AllocError>
        ensures ok { OnOk result (AddsFunc params.now results.now id self.old.firsts self.new.firsts
            self.old.func_ids self.new.func_ids) }
        ensures entries { self.new.entry_ids ≡ self.old.entry_ids }
        ensures err { OnErr result (self.new ≡ self.old) }
    {
        let digest = func_digest(params, results);
        match self.firsts.get(digest) {
            Some(_) => self.func_ids.add(params, results, id),
            None => self.firsts.add(digest, id),
        }
    }

    /// Gives an id to an entry type, unless it has one. If memory runs out nothing changes.
    pub fn add_entry(&mut self, results: &[ValType], id: TypeId) -> Result<(), AllocError>
        ensures ok { OnOk result (AddsEntry results.now id self.old.firsts self.new.firsts
            self.old.entry_ids self.new.entry_ids) }
        ensures functions { self.new.func_ids ≡ self.old.func_ids }
        ensures err { OnErr result (self.new ≡ self.old) }
    {
        let digest = entry_digest(results);
        match self.firsts.get(digest) {
            Some(_) => self.entry_ids.add(results, id),
            None => self.firsts.add(digest, id),
        }
    }
}
