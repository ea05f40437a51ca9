//! What a function's body needs to know of its module.
ghost use Rattle.std.specs.Prelude.{◌≡◌, List, [], ◌∷◌, ◌++◌, length, slice_get, IfOk, OnErr};

use crate::module_locals::ModuleLocals;
use crate::module_types::ModuleTypes;
use std::alloc::{AllocError, Global};
use std::marker::{Model, PhantomData};
use wasm_types::{Id, TypeId, kind};

/// The items of one kind in a module, by id. In a contract, they are a list.
#[derive(Drop)]
pub struct ModuleItems<K, T> {
    items: Vec<T>,
    kind: PhantomData<K>,
}

impl<K, T> Model for ModuleItems<K, T> {
    ghost Value = { List T };

    ghost view = { λ m. m.items.items };
}

impl<K, T: Copy> ModuleItems<K, T> {
    /// No items. This allocates nothing.
    pub fn new(alloc: Global) -> Self
        ensures { result ≡ [] }
    {
        ModuleItems {
            items: Vec::new(alloc),
            kind: PhantomData,
        }
    }

    /// Adds an item after the others, and returns its id.
    ///
    /// # Errors
    ///
    /// Out of memory; the items are unchanged.
    pub fn add(&mut self, item: T) -> Result<Id<K>, AllocError>
        ensures id { IfOk result (λ id. id ≡ length self.old) }
        ensures ok { IfOk result (λ _. self.new ≡ self.old ++ item ∷ []) }
        ensures err { OnErr result (self.new ≡ self.old) }
    {
        let id = Id::new(self.items.len());
        self.items.push(item)?;
        Ok(id)
    }

    /// The item with this id, if there is one. This allocates nothing.
    pub fn get(&self, id: Id<K>) -> Option<T>
        ensures { result ≡ slice_get self.now id }
    {
        self.items.get(id.index()).copied()
    }
}

/// The tags of a module: the function type of each, by id.
pub type ModuleTags = ModuleItems<kind::Tag, TypeId>;

/// What a function's body needs to know of its module.
#[derive(Drop)]
pub struct Module {
    /// Types, by id.
    pub types: ModuleTypes,
    /// Tags, by id.
    pub tags: ModuleTags,
    /// Locals of all functions, by id.
    pub locals: ModuleLocals,
    /// The place in the source where the code section begins, as a byte offset. The places in the
    /// mapping of a parsed function count from it.
    pub code_section_offset: usize,
}
