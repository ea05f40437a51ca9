//! The laws of ids and of value types. Their contracts state them.
ghost use Rattle.std.specs.Prelude.{◌≡◌, ◌↔◌, ℕ, IsTrue, Some};
ghost use Rattle.std.specs.Ordering.{nat_cmp};
ghost use Rattle.wasm_types.specs.declared.val_type.ValType.{ValType as ValueType};
ghost use Rattle.wasm_types.specs.TypeOrder.{type_order};

use crate::id::Id;
use crate::val_type::ValType;
use std::hash::Hash;

/// Ids are equal if their numbers are, and have the order of their numbers; equal ids have the same
/// hash.
pub fn law_ids<K>()
    ensures equality { (m n : ℕ) → IsTrue (⟦<Id<K> as PartialEq>⟧.eq m n) ↔ (m ≡ n) }
    ensures order { (m n : ℕ) → ⟦<Id<K> as Ord>⟧.cmp m n ≡ nat_cmp m n }
    ensures comparison { (m n : ℕ) → ⟦<Id<K> as PartialOrd>⟧.partial_cmp m n ≡ Some (nat_cmp m n) }
    ensures hash { (m n : ℕ) → IsTrue (⟦<Id<K> as PartialEq>⟧.eq m n)
        → ⟦<Id<K> as Hash>⟧.hash_input m ≡ ⟦<Id<K> as Hash>⟧.hash_input n }
{}

/// The comparisons of value types: `==` is true exactly for a type and itself, and the order is the
/// one in which locals are grouped.
pub fn law_type_order()
    ensures equality { (t u : ValueType ℕ) → IsTrue (⟦<ValType as PartialEq>⟧.eq t u) ↔ (t ≡ u) }
    ensures order { (t u : ValueType ℕ) → ⟦<ValType as Ord>⟧.cmp t u ≡ type_order t u }
    ensures comparison { (t u : ValueType ℕ)
        → ⟦<ValType as PartialOrd>⟧.partial_cmp t u ≡ Some (type_order t u) }
{}
