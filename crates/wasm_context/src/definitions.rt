//! The types of a module, from its declarations.
ghost use Rattle.std.specs.Prelude.{◌≡◌, ◌+◌, ◌<◌, ◌^◌, ◌++◌, [], ◌∷◌, List, unwrap_or, length, map, vec_len, true, not, ◌&&◌, slice_get, OnOk, IfOk};
ghost use Rattle.std.specs.List.{list_all, flat_map, range_with_len, zip};
ghost use Rattle.wasm_typing.specs.RecursiveTypes.{Group, defined};
ghost use Rattle.wasm_typing.specs.Matching.{holds_of};
ghost use Rattle.wasm_context.specs.Contexts.{composite_in, defined_of};
ghost use Rattle.wasm_context.specs.Declarations.{declared_of, declared_within, at_key, TakesPlace};
ghost use Rattle.wasm_context.specs.ValidTypes.{matches_composite, is_valid_supertype, types_alone, are_valid_types};

use crate::context::Context;
use crate::declared_type::DeclaredType;
use crate::keys::group_key;
use crate::types::{CompositeType, DefinedType};
use std::alloc::{AllocError, Global};
use std::collections::BTreeMap;
use std::marker::Model;

/// The places of groups, by their keys, in an ordered map, so that each is found in logarithmic time. In a
/// contract, it is each key with its place.
#[derive(Drop)]
pub(crate) struct Places {
    by_key: BTreeMap<Vec<u32>, u32>,
}

impl Model for Places {
    ghost use Rattle.wasm_context.specs.Declarations.{ByKey, listed_keys};

    ghost Value = { ByKey };

    ghost view = { λ p. listed_keys p.by_key.entries };
}

impl Places {
    /// No key has a place. This allocates nothing.
    fn new(alloc: Global) -> Places
        ensures { result ≡ [] }
    {
        Places {
            by_key: BTreeMap::new(alloc),
        }
    }

    /// The place of this key. This allocates nothing.
    fn get(&self, key: &[u32]) -> Option<u32>
        ensures { result ≡ at_key self.now key.now }
    {
        self.by_key.get(key).copied()
    }

    /// The place of this key, which becomes `next` if it has none.
    fn place(&mut self, key: Vec<u32>, next: u32) -> Result<u32, AllocError>
        ensures place { IfOk result (λ place. place ≡ unwrap_or (at_key self.old key.items) next) }
        ensures adds { OnOk result (TakesPlace key.items next self.old self.new) }
    {
        match self.get(key.as_slice()) {
            Some(place) => Ok(place),
            None => {
                self.by_key.insert(key, next)?;
                Ok(next)
            }
        }
    }
}

/// The types of the groups so far, each with the index of the first that is the same. Memory that runs out leaves
/// it without a meaning.
#[derive(Drop)]
pub struct Definitions {
    /// The types, in a context that has nothing else.
    pub context: Context,
    /// Whether each type is final.
    finals: Vec<bool>,
    /// The place of the first group with each key.
    places: Places,
    alloc: Global,
}

impl Definitions {
    ghost use Rattle.wasm_context.specs.Definitions.{IsDefining};

    /// No types. This allocates nothing.
    pub fn new(alloc: Global) -> Definitions
        ensures { IsDefining result [] }
    {
        Definitions {
            context: Context {
                types: Vec::new(alloc),
                functions: Vec::new(alloc),
                referenced: Vec::new(alloc),
                tables: Vec::new(alloc),
                memories: Vec::new(alloc),
                globals: Vec::new(alloc),
                elements: Vec::new(alloc),
                data_segments: 0,
                tags: Vec::new(alloc),
            },
            finals: Vec::new(alloc),
            places: Places::new(alloc),
            alloc,
        }
    }

    /// Adds a group of types, which names no type after its last.
    pub fn add(&mut self, group: Vec<DeclaredType>) -> Result<(), AllocError>
        requires room { vec_len self.old.context.types + vec_len group < 2 ^ 32 }
        requires below { list_all (declared_within (vec_len self.old.context.types + vec_len group))
            (map declared_of group.items) ≡ true }
        ensures { (groups : List Group) → IsDefining self.old groups
            → OnOk result (IsDefining self.new (groups ++ map declared_of group.items ∷ [])) }
    {
        let start = self.context.types.len() as u32;
        let key = group_key(self.alloc, &self.context.types, &group)?;
        // No place is after this group's: so `min` changes nothing.
        let first = self.places.place(key, start)?.min(start);
        push_types(&mut self.context.types, &mut self.finals, group, first)
    }

    /// Whether all definitions are valid: each supertype that a type declares comes before it, isn't final, and is
    /// matched by it. That no group names a type after its last is known, since `add` requires it.
    pub fn are_valid(&self) -> bool
        ensures { (groups : List Group) → IsDefining self.now groups → are_valid_types groups ≡ result }
    {
        for own in 0..self.context.types.len() {
            if !self.is_subtype(own) {
                return false;
            }
        }
        true
    }

    /// The types.
    pub fn into_types(self) -> Vec<DefinedType>
        ensures { result.items ≡ self.context.types.items }
    {
        self.context.types
    }

    // Whether the type with this index is there, and the type that it declares as its supertype, if it declares
    // one, comes before it, isn't final, and is matched by it.
    fn is_subtype(&self, own: usize) -> bool
        ensures { (groups : List Group) → IsDefining self.now groups
            → holds_of (λ t. is_valid_supertype (types_alone groups) (flat_map (λ g. g) groups)
            own t.composite t.supertype) (slice_get (flat_map (λ g. g) groups) own) ≡ result }
    {
        match self.context.types.get(own) {
            Some(ty) => match ty.supertype {
                Some(index) => (index as usize) < own && self.is_extended(index, &ty.composite),
                None => true,
            },
            None => false,
        }
    }

    // Whether the type with this index is there, isn't final, and is matched by a type that is this.
    fn is_extended(&self, index: u32, composite: &CompositeType) -> bool
        ensures { (groups : List Group) → IsDefining self.now groups
            → holds_of (λ s. not s.final
            && matches_composite (types_alone groups) (composite_in composite.now) s.composite)
            (slice_get (flat_map (λ g. g) groups) index) ≡ result }
    {
        match self.context.types.get(index as usize) {
            Some(ty) => match self.finals.get(index as usize).copied() {
                Some(is_final) => {
                    !is_final && self.context.matches_composite(composite, &ty.composite)
                }
                None => false,
            },
            None => false,
        }
    }
}

/// Pushes types, whose first indices are those from this one on, and whether each is final.
fn push_types(
    types: &mut Vec<DefinedType>,
    finals: &mut Vec<bool>,
    group: Vec<DeclaredType>,
    first: u32,
) -> Result<(), AllocError>
    requires { first + vec_len group < 2 ^ 32 }
    ensures types { OnOk result (map defined_of types.new.items
        ≡ map defined_of types.old.items ++ map defined
        (zip (map declared_of group.items) (range_with_len first (length group.items)))) }
    ensures finals { OnOk result (finals.new.items
        ≡ finals.old.items ++ map (λ t. t.is_final) group.items) }
{
    let mut next = first;
    for ty in group {
        types.push(DefinedType {
            composite: ty.composite,
            supertype: ty.supertype,
            first: next,
        })?;
        finals.push(ty.is_final)?;
        next += 1;
    }
    Ok(())
}
