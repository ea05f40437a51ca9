//! The locals that are set.
ghost use Rattle.std.specs.Prelude.{◌≡◌, ◌<◌, [], ◌∷◌, length, vec_len, false, OnOk};
ghost use Rattle.wasm_body.specs.Validity.{set_locals, up_to};
ghost use Rattle.wasm_typing.specs.Contexts.{contains};
ghost use Rattle.wasm_locals.specs.Places.{is_placed, KeepsPlaces};

use std::alloc::{AllocError, Global};
use std::marker::Model;

/// Whether the list has the number at the place that is kept for it.
fn is_placed(places: &[u32], list: &[u32], number: u32) -> bool
    ensures { result ≡ is_placed places.now list.now number }
{
    match places.get(number as usize) {
        Some(place) => match list.get(*place as usize) {
            Some(found) => *found == number,
            None => false,
        },
        None => false,
    }
}

/// Makes room for a place at this index.
fn make_room(places: &mut Vec<u32>, index: usize) -> Result<(), AllocError>
    ensures keeps { KeepsPlaces places.old.items places.new.items }
    ensures room { OnOk result (index < vec_len places.new) }
{
    if index < places.len() {
        return Ok(());
    }
    let Some(len) = index.checked_add(1) else {
        return Err(AllocError);
    };
    places.resize(len, 0)
}

/// A set of locals, as a list. In a contract, it is the list, the last one first. The memory is
/// linear in the greatest local that was in it.
#[derive(Drop)]
pub struct SetLocals {
    /// The locals, the last one last.
    list: Vec<u32>,
    /// For each local the place in the list at which it is, if it is there. For another local any
    /// number.
    places: Vec<u32>,
}

impl Model for SetLocals {
    ghost use Rattle.std.specs.Prelude.{List, ℕ, reverse};

    ghost Value = { List ℕ };

    ghost use Rattle.wasm_locals.specs.Places.{Lead};

    ghost view = { λ s. reverse s.list.items };

    ghost invariant = { λ s. Lead s.places.items s.list.items };
}

impl SetLocals {
    /// No locals. This allocates nothing.
    pub fn new(alloc: Global) -> Self
        ensures { result ≡ [] }
    {
        SetLocals {
            list: Vec::new(alloc),
            places: Vec::new(alloc),
        }
    }

    /// How many locals are set.
    pub fn len(&self) -> usize
        ensures { result ≡ length self.now }
    {
        self.list.len()
    }

    /// Whether a local is set. This takes constant time.
    pub fn contains(&self, number: u32) -> bool
        ensures { result ≡ contains number self.now }
    {
        is_placed(&self.places, &self.list, number)
    }

    /// Sets a local. This takes constant time, once there was one with as great a number.
    ///
    /// # Errors
    ///
    /// Out of memory, or there are 2^32 locals.
    pub fn insert(&mut self, number: u32) -> Result<(), AllocError>
        ensures { OnOk result (self.new ≡ set_locals (number ∷ []) self.old) }
    {
        if self.contains(number) {
            return Ok(());
        }
        self.push(number)
    }

    /// Sets a local that is not set.
    fn push(&mut self, number: u32) -> Result<(), AllocError>
        requires { contains number self.old ≡ false }
        ensures { OnOk result (self.new ≡ number ∷ self.old) }
    {
        let Ok(place) = u32::try_from(self.list.len()) else {
            return Err(AllocError);
        };
        let index = number as usize;
        make_room(&mut self.places, index)?;
        self.list.push(number)?;
        self.places[index] = place;
        Ok(())
    }

    /// Keeps the first that were set, so many of them.
    pub fn truncate(&mut self, len: usize)
        ensures { self.new ≡ up_to len self.old }
    {
        self.list.truncate(len);
    }

    /// Removes all. This keeps the room, and takes constant time.
    pub fn clear(&mut self)
        ensures { self.new ≡ [] }
    {
        self.list.clear();
    }
}
