//! The ids of one kind, by old index.
ghost use Rattle.std.specs.Prelude.{◌≡◌, ◌<◌, ℕ, List, [], ◌∷◌, ◌++◌, length, slice_get, slice_set, IfOk, OnOk, OnErr};
ghost use Rattle.walrus_maps.specs.Growth.{GrowsFrom};
ghost use Rattle.wasm_numbers.specs.Results.{some_or};

use crate::growth::index_after;
use std::alloc::Global;
use std::marker::Model;
use walrus_ir::Id;
use wasm_body::IndexError;
use wasm_operators::Space;

/// The ids of one kind, by old index. In a contract, they are a list.
#[derive(Drop)]
pub(crate) struct IdList<K> {
    ids: Vec<Id<K>>,
}

impl<K> Model for IdList<K> {
    ghost Value = { List ℕ };

    ghost view = { λ list. list.ids.items };
}

impl<K> IdList<K> {
    /// The list without ids.
    pub fn new(alloc: Global) -> Self
        ensures { result ≡ [] }
    {
        IdList {
            ids: Vec::new(alloc),
        }
    }

    /// Adds an id after the others, and returns its index.
    pub fn push(&mut self, id: Id<K>) -> Result<u32, IndexError>
        ensures index { IfOk result (λ n. n ≡ length self.old) }
        ensures ok { OnOk result (self.new ≡ self.old ++ id ∷ []) }
        ensures err { OnErr result (self.new ≡ self.old) }
        ensures growth { GrowsFrom (length self.old) result }
    {
        let index = index_after(self.ids.len())?;
        self.ids.push(id)?;
        Ok(index)
    }

    /// The ids, by index.
    pub fn as_slice(&self) -> &[Id<K>]
        ensures { result.now ≡ self.now }
    {
        self.ids.as_slice()
    }

    /// The id with this index, if there is one.
    pub fn get(&self, index: u32) -> Option<Id<K>>
        ensures { result ≡ slice_get self.now index }
    {
        self.ids.get(index as usize).copied()
    }

    /// The id with this index, or the error `OutOfRange` with this space.
    pub fn get_in(&self, space: Space, index: u32) -> Result<Id<K>, IndexError>
        ensures { result ≡ some_or (slice_get self.now index) (IndexError.OutOfRange space index) }
    {
        self.get(index)
            .ok_or(IndexError::OutOfRange { space, index })
    }

    /// Replaces the id at an index.
    pub fn set(&mut self, index: u32, id: Id<K>)
        requires { index < length self.old }
        ensures { self.new ≡ slice_set self.old index id }
    {
        self.ids[index as usize] = id;
    }
}
