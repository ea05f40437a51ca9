//! The locals of a module.
ghost use Rattle.std.specs.Prelude.{◌≡◌, [], ◌∷◌, ◌++◌, length, replicate, slice_get, IfOk, OnErr};
ghost use Rattle.std.specs.Option.{option_map};

use std::alloc::{AllocError, Global};
use std::marker::Model;
use wasm_types::{LocalId, ValType};

/// Locals of one type, one after the other.
#[derive(Clone, Copy)]
struct LocalRun {
    ty: ValType,
    /// The number of locals up to the end of the run, those before it included.
    end: usize,
}

// The type of the run at this place, if there is one.
fn type_at(runs: &[LocalRun], place: usize) -> Option<ValType>
    ensures { result ≡ option_map (λ run. run.ty) (slice_get runs.now place) }
{
    match runs.get(place) {
        Some(run) => Some(run.ty),
        None => None,
    }
}

/// The locals of a module: the type of each, by id. Each function has its own. In a contract, they
/// are the list of the types.
///
/// Locals that were added by one call of `add_run` take the memory of one.
#[derive(Drop)]
pub struct ModuleLocals {
    runs: Vec<LocalRun>,
    count: usize,
}

impl Model for ModuleLocals {
    ghost use Rattle.std.specs.Prelude.{List, ℕ};
    ghost use Rattle.wasm_types.specs.declared.val_type.ValType.{ValType as ValueType};

    ghost Value = { List (ValueType ℕ) };

    ghost use Rattle.walrus_ir.specs.LocalRuns.{types_from, LeadTo};

    ghost view = { λ m. types_from 0 m.runs.items };

    ghost invariant = { λ m. LeadTo 0 m.runs.items m.count };
}

impl ModuleLocals {
    /// No locals. This allocates nothing.
    pub fn new(alloc: Global) -> Self
        ensures { result ≡ [] }
    {
        ModuleLocals {
            runs: Vec::new(alloc),
            count: 0,
        }
    }

    /// Adds a local after the others, and returns its id.
    ///
    /// # Errors
    ///
    /// Out of memory, or there are 2^64 - 1 locals. Nothing is added then.
    pub fn add(&mut self, ty: ValType) -> Result<LocalId, AllocError>
        ensures id { IfOk result (λ id. id ≡ length self.old) }
        ensures ok { IfOk result (λ _. self.new ≡ self.old ++ ty ∷ []) }
        ensures err { OnErr result (self.new ≡ self.old) }
    {
        self.add_run(ty, 1)
    }

    /// Adds `count` locals of a type after the others, and returns the id of the first of them.
    /// This takes constant time.
    ///
    /// # Errors
    ///
    /// Out of memory, or there would be 2^64 locals. Nothing is added then.
    pub fn add_run(&mut self, ty: ValType, count: usize) -> Result<LocalId, AllocError>
        ensures id { IfOk result (λ id. id ≡ length self.old) }
        ensures ok { IfOk result (λ _. self.new ≡ self.old ++ replicate count ty) }
        ensures err { OnErr result (self.new ≡ self.old) }
    {
        let first = self.count;
        let end = match first.checked_add(count) {
            Some(end) => end,
            None => return Err(AllocError),
        };
        self.runs.push(LocalRun { ty, end })?;
        self.count = end;
        Ok(LocalId::new(first))
    }

    /// The type of the local with this id, if there is one. This allocates nothing.
    pub fn get(&self, id: LocalId) -> Option<ValType>
        ensures { result ≡ slice_get self.now id }
    {
        let index = id.index();
        let place = self.runs.partition_point(|run| run.end <= index);
        type_at(&self.runs, place)
    }
}
