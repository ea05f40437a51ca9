//! The types of a module.
ghost use Rattle.std.specs.Prelude.{◌≡◌, [], ◌∷◌, ◌++◌, length, slice_get, is_some, IsSome, IsSomeAnd, IfOk, OnErr, Some, List};
ghost use Rattle.walrus_ir.specs.Types.{ModuleType, Func, Entry, Other, signature, signature_of};
ghost use Rattle.walrus_ir.specs.Types.{same_types, is_function, is_entry, find, find_entry};
ghost use Rattle.walrus_ir.specs.TypeEntries.{module_type, KnowsFirst};
ghost use Rattle.walrus_ir.specs.TypeIndex.{passes};

use crate::type_digest::{entry_digest, func_digest};
use crate::type_index::TypeIndex;
use std::alloc::{AllocError, Global};
use std::marker::Model;
use wasm_types::{TypeId, ValType, law_type_order};

/// A type of the module.
#[derive(Drop)]
enum TypeEntry {
    /// A function type.
    Func {
        params: Vec<ValType>,
        results: Vec<ValType>,
        /// The first function type with these lists, which may be this one.
        first: TypeId,
    },
    /// The type of the entry of a function with these results.
    Entry {
        results: Vec<ValType>,
    },
    /// A struct or array type. Nothing else is known about it here.
    Other,
}

// The entry of a function type; the first one with these lists is `first`.
fn func_entry(
    alloc: Global,
    params: &[ValType],
    results: &[ValType],
    first: TypeId,
) -> Result<TypeEntry, AllocError>
    ensures lists { IfOk result (λ entry. module_type entry ≡ Func params.now results.now) }
    ensures first { (types : List ModuleType) → find types params.now results.now ≡ Some first
        → IfOk result (KnowsFirst types) }
{
    Ok(TypeEntry::Func {
        params: Vec::from_slice(alloc, params)?,
        results: Vec::from_slice(alloc, results)?,
        first,
    })
}

// Whether the lists are the same.
fn are_same<'a>(a: &'a [ValType], b: &'a [ValType]) -> bool
    ensures { result ≡ same_types a.now b.now }
{
    // By this law equal lists are those that the order doesn't tell apart.
    law_type_order();
    Ord::cmp(&a, &b).is_eq()
}

impl TypeEntry {
    // Whether it is a type of functions with these lists.
    fn is_func_of(&self, params: &[ValType], results: &[ValType]) -> bool
        ensures { result ≡ is_function params.now results.now (module_type self.now) }
    {
        match self {
            TypeEntry::Func {
                params: takes,
                results: gives,
                ..
            } => are_same(takes, params) && are_same(gives, results),
            _ => false,
        }
    }

    // Whether it is the type of entries with these results.
    fn is_entry_of(&self, results: &[ValType]) -> bool
        ensures { result ≡ is_entry results.now (module_type self.now) }
    {
        match self {
            TypeEntry::Entry { results: gives } => are_same(gives, results),
            _ => false,
        }
    }
}

/// The types of a module, by id. In a contract, they are a list.
#[derive(Drop)]
pub struct ModuleTypes {
    types: Vec<TypeEntry>,
    /// The first id of each function type by its lists, and of each entry type by its results.
    index: TypeIndex,
}

impl Model for ModuleTypes {
    ghost use Rattle.std.specs.Prelude.{List, map};
    ghost use Rattle.walrus_ir.specs.Types.{ModuleType};

    ghost Value = { List ModuleType };

    ghost use Rattle.std.specs.Prelude.{All};
    ghost use Rattle.walrus_ir.specs.TypeEntries.{module_type, KnowsFirst};
    ghost use Rattle.walrus_ir.specs.TypeIndex.{IsIndexOf};

    ghost view = { λ m. map module_type m.types.items };

    ghost invariant = { λ m. IsIndexOf (map module_type m.types.items) m.index.firsts
        m.index.func_ids m.index.entry_ids
        × All (KnowsFirst (map module_type m.types.items)) m.types.items };
}

impl ModuleTypes {
    /// A module without types. This allocates nothing.
    pub fn new(alloc: Global) -> ModuleTypes
        ensures { result ≡ [] }
    {
        ModuleTypes {
            types: Vec::new(alloc),
            index: TypeIndex::new(alloc),
        }
    }

    /// Adds a function type, and returns its id.
    ///
    /// # Errors
    ///
    /// Out of memory; the types are unchanged.
    pub fn add_func(
        &mut self,
        params: &[ValType],
        results: &[ValType],
    ) -> Result<TypeId, AllocError>
        ensures id { IfOk result (λ id. id ≡ length self.old) }
        ensures ok { IfOk result (λ _. self.new ≡ self.old ++ Func params.now results.now ∷ []) }
        ensures err { OnErr result (self.new ≡ self.old) }
    {
        let alloc = *self.types.allocator();
        let id = TypeId::new(self.types.len());
        match self.find(params, results) {
            Some(first) => {
                let entry = func_entry(alloc, params, results, first)?;
                self.types.push(entry)?;
                Ok(id)
            }
            None => {
                let entry = func_entry(alloc, params, results, id)?;
                self.types.push(entry)?;
                match self.index.add_func(params, results, id) {
                    Ok(()) => Ok(id),
                    Err(fault) => {
                        self.types.truncate(id.index());
                        Err(fault)
                    }
                }
            }
        }
    }

    /// Adds the type of the entry of a function with these results, and returns its id.
    ///
    /// # Errors
    ///
    /// Out of memory; the types are unchanged.
    pub fn add_entry(&mut self, results: &[ValType]) -> Result<TypeId, AllocError>
        ensures id { IfOk result (λ id. id ≡ length self.old) }
        ensures ok { IfOk result (λ _. self.new ≡ self.old ++ Entry results.now ∷ []) }
        ensures err { OnErr result (self.new ≡ self.old) }
    {
        let alloc = *self.types.allocator();
        let entry = TypeEntry::Entry {
            results: Vec::from_slice(alloc, results)?,
        };
        let id = TypeId::new(self.types.len());
        if self.find_for_function_entry(results).is_some() {
            self.types.push(entry)?;
            return Ok(id);
        }
        self.types.push(entry)?;
        match self.index.add_entry(results, id) {
            Ok(()) => Ok(id),
            Err(fault) => {
                self.types.truncate(id.index());
                Err(fault)
            }
        }
    }

    /// Adds a struct or array type, and returns its id.
    ///
    /// # Errors
    ///
    /// Out of memory; the types are unchanged.
    pub fn add_other(&mut self) -> Result<TypeId, AllocError>
        ensures id { IfOk result (λ id. id ≡ length self.old) }
        ensures ok { IfOk result (λ _. self.new ≡ self.old ++ Other ∷ []) }
        ensures err { OnErr result (self.new ≡ self.old) }
    {
        let id = TypeId::new(self.types.len());
        self.types.push(TypeEntry::Other)?;
        Ok(id)
    }

    /// Whether this is the id of a function type or an entry type. This allocates nothing.
    pub fn is_func(&self, id: TypeId) -> bool
        ensures { result ≡ is_some (signature_of self.now id) }
    {
        matches!(
            self.types.get(id.index()),
            Some(TypeEntry::Func { .. } | TypeEntry::Entry { .. })
        )
    }

    /// The parameters of a function type, in order; an entry type has none. This allocates nothing.
    pub fn params(&self, id: TypeId) -> &[ValType]
        requires { IsSome (signature_of self.now id) }
        ensures { IsSomeAnd (signature_of self.now id) (λ s. result.now ≡ s.parameters) }
    {
        self.params_results(id).0
    }

    /// The results of a function type or an entry type, in order. This allocates nothing.
    pub fn results(&self, id: TypeId) -> &[ValType]
        requires { IsSome (signature_of self.now id) }
        ensures { IsSomeAnd (signature_of self.now id) (λ s. result.now ≡ s.results) }
    {
        self.params_results(id).1
    }

    /// The parameters and the results, each in order. This allocates nothing.
    pub fn params_results(&self, id: TypeId) -> (&[ValType], &[ValType])
        requires { IsSome (signature_of self.now id) }
        ensures { signature_of self.now id ≡ Some (signature result.0.now result.1.now) }
    {
        match &self.types[id.index()] {
            TypeEntry::Func {
                params,
                results,
                ..
            } => (params, results),
            TypeEntry::Entry { results } => (&[], results),
            TypeEntry::Other => unreachable!(),
        }
    }

    // Whether it is a type of functions with these lists.
    fn is_func_of(&self, id: TypeId, params: &[ValType], results: &[ValType]) -> bool
        ensures { result ≡ passes (is_function params.now results.now) (slice_get self.now id) }
    {
        match self.types.get(id.index()) {
            Some(entry) => entry.is_func_of(params, results),
            None => false,
        }
    }

    // Whether it is the type of entries with these results.
    fn is_entry_of(&self, id: TypeId, results: &[ValType]) -> bool
        ensures { result ≡ passes (is_entry results.now) (slice_get self.now id) }
    {
        match self.types.get(id.index()) {
            Some(entry) => entry.is_entry_of(results),
            None => false,
        }
    }

    /// The first function type, in the order of ids, with these parameters and results. Entry types
    /// don't count. This allocates nothing.
    pub fn find(&self, params: &[ValType], results: &[ValType]) -> Option<TypeId>
        ensures { result ≡ find self.now params.now results.now }
    {
        match self.index.firsts.get(func_digest(params, results)) {
            Some(id) => match self.is_func_of(id, params, results) {
                true => Some(id),
                false => self.index.func_ids.get(params, results),
            },
            None => self.index.func_ids.get(params, results),
        }
    }

    /// The first function type, in the order of ids, with the parameters and results of this function type or entry
    /// type. Entry types don't count. This allocates nothing, and takes no look-up for a function type.
    pub fn first_alike(&self, id: TypeId) -> Option<TypeId>
        requires { IsSome (signature_of self.now id) }
        ensures { IsSomeAnd (signature_of self.now id)
            (λ s. result ≡ find self.now s.parameters s.results) }
    {
        match &self.types[id.index()] {
            TypeEntry::Func { first, .. } => Some(*first),
            _ => {
                let (params, results) = self.params_results(id);
                self.find(params, results)
            }
        }
    }

    /// The first entry type, in the order of ids, with these results. This allocates nothing.
    pub fn find_for_function_entry(&self, results: &[ValType]) -> Option<TypeId>
        ensures { result ≡ find_entry self.now results.now }
    {
        match self.index.firsts.get(entry_digest(results)) {
            Some(id) => match self.is_entry_of(id, results) {
                true => Some(id),
                false => self.index.entry_ids.get(results),
            },
            None => self.index.entry_ids.get(results),
        }
    }
}
