//! The locals that a function declares.
ghost use Rattle.std.specs.Prelude.{◌≡◌, [], ◌++◌, length, replicate, IfOk, OnErr, OnOk};

use crate::run::LocalRun;
use crate::types::LocalTypes;
use std::alloc::{AllocError, Global};
use std::marker::Model;
use wasm_operators::RawValType;

/// The locals that a function declares, as runs. In a contract, they are the list of their types.
#[derive(Drop)]
pub struct DeclaredLocals {
    runs: Vec<LocalRun>,
    count: u32,
}

impl Model for DeclaredLocals {
    ghost use Rattle.std.specs.Prelude.{List, ℕ};
    ghost use Rattle.wasm_types.specs.declared.val_type.ValType.{ValType as ValueType};

    ghost Value = { List (ValueType ℕ) };

    ghost use Rattle.wasm_locals.specs.Runs.{types_of_runs, RunsLeadTo};

    ghost view = { λ m. types_of_runs 0 m.runs.items };

    ghost invariant = { λ m. RunsLeadTo 0 m.runs.items m.count };
}

impl DeclaredLocals {
    ghost use Rattle.wasm_locals.specs.LocalTypes.{types_of_locals};

    /// No locals. This allocates nothing.
    pub fn new(alloc: Global) -> Self
        ensures { result ≡ [] }
    {
        DeclaredLocals {
            runs: Vec::new(alloc),
            count: 0,
        }
    }

    /// Removes all, and keeps the room.
    pub fn clear(&mut self)
        ensures { self.new ≡ [] }
    {
        self.runs.clear();
        self.count = 0;
    }

    /// Adds `count` locals of a type after the others. This takes constant time.
    ///
    /// # Errors
    ///
    /// Out of memory, or there would be 2^32 locals. Nothing is added then.
    pub fn add_run(&mut self, ty: RawValType, count: u32) -> Result<(), AllocError>
        ensures ok { OnOk result (self.new ≡ self.old ++ replicate count ty) }
        ensures err { OnErr result (self.new ≡ self.old) }
    {
        let end = match self.count.checked_add(count) {
            Some(end) => end,
            None => return Err(AllocError),
        };
        self.runs.push(LocalRun { ty, end })?;
        self.count = end;
        Ok(())
    }

    /// The locals of a function with these parameters, which declares these.
    pub fn after<'a>(&'a self, params: &'a [RawValType]) -> LocalTypes<'a>
        ensures types { types_of_locals result ≡ params.now ++ self.now }
        ensures params { result.params.now ≡ params.now }
    {
        LocalTypes {
            params,
            declared: &self.runs,
        }
    }
}
