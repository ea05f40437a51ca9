//! The locals that a function declares (WebAssembly core specification 3.0, binary format, code section).
ghost use Rattle.std.specs.Prelude.{◌≡◌, ◌+◌, ◌<◌, ◌++◌, ◌^◌, [], length, replicate, nat_lt, OnOk, IfErr};
ghost use Rattle.wasm_context.specs.Contexts.{without_locals};
ghost use Rattle.wasm_locals.specs.LocalTypes.{types_of_locals};
ghost use Rattle.wasm_sections.specs.declared.fault.ModuleFault.TheVariants.{Memory};
ghost use Rattle.wasm_sections.specs.Parts.{checked, repeated, GivesUnlessMemory};
ghost use Rattle.wasm_sections.specs.Format.{value_part};
ghost use Rattle.module_validator.specs.ModuleRules.{more_locals, run_of_locals, locals_part};

use crate::faults::placed;
use crate::types::check_value;
use std::alloc::Global;
use std::marker::Model;
use wasm_context::Context;
use wasm_locals::{DeclaredLocals, LocalTypes};
use wasm_ops::RawValType;
use wasm_sections::{Input, ModuleError, ModuleFault};

/// The locals that a function declares, and their number. In a contract, they are the list of their types.
#[derive(Drop)]
pub(crate) struct CountedLocals {
    declared: DeclaredLocals,
    count: u64,
}

impl Model for CountedLocals {
    ghost use Rattle.std.specs.Prelude.{List, ℕ};
    ghost use Rattle.wasm_types.specs.declared.val_type.ValType.{ValType as ValueType};

    ghost Value = { List (ValueType ℕ) };

    ghost use Rattle.std.specs.Prelude.{◌≡◌, length};

    ghost view = { λ l. l.declared };

    ghost invariant = { λ l. l.count ≡ length l.declared };
}

impl CountedLocals {
    /// No locals. This allocates nothing.
    pub(crate) fn new(alloc: Global) -> CountedLocals
        ensures { result ≡ [] }
    {
        CountedLocals {
            declared: DeclaredLocals::new(alloc),
            count: 0,
        }
    }

    /// Removes all, and keeps the room.
    pub(crate) fn clear(&mut self)
        ensures { self.new ≡ [] }
    {
        self.declared.clear();
        self.count = 0;
    }

    /// Their number.
    pub(crate) fn count(&self) -> u64
        ensures { result ≡ length self.now }
    {
        self.count
    }

    /// Adds so many locals of a type.
    fn add(&mut self, ty: RawValType, count: u32) -> Result<(), ModuleError>
        requires { length self.old + count < 2 ^ 32 }
        ensures ok { OnOk result (self.new ≡ self.old ++ replicate count ty) }
        ensures err { IfErr result (λ error. error.fault ≡ Memory) }
    {
        self.declared.add_run(ty, count)?;
        self.count += count as u64;
        Ok(())
    }

    /// The locals of a function with these parameters, which declares these.
    pub(crate) fn after<'a>(&'a self, params: &'a [RawValType]) -> LocalTypes<'a>
        ensures types { types_of_locals result ≡ params.now ++ self.now }
        ensures params { result.params.now ≡ params.now }
    {
        self.declared.after(params)
    }

    /// Adds so many locals of the type that comes next. `INVALID_TYPE`, as for a value; `TooManyLocals` if there would
    /// be 2^32 locals with the parameters.
    fn add_next(
        &mut self,
        context: &Context,
        params: usize,
        count: u32,
        input: &mut Input<'_>,
    ) -> Result<(), ModuleError>
        ensures same_end { input.new.end ≡ input.old.end }
        ensures is { GivesUnlessMemory (λ _. (self.new, input.new.rest.now)) result (checked
            value_part (more_locals (without_locals context.now) params self.old count)
            input.old.end input.old.rest.now) }
    {
        let begin = *input;
        let ty = match input.value_type() {
            Ok(ty) => ty,
            Err(error) => return Err(error),
        };
        match placed(&begin, check_value(context, ty)) {
            Ok(()) => {}
            Err(error) => return Err(error),
        }
        if !is_room(params, self.count(), count) {
            return Err(begin.fault(ModuleFault::TooManyLocals));
        }
        self.add(ty, count)
    }

    /// Adds a run of locals.
    fn add_run(
        &mut self,
        context: &Context,
        params: usize,
        input: &mut Input<'_>,
    ) -> Result<(), ModuleError>
        ensures same_end { input.new.end ≡ input.old.end }
        ensures is { GivesUnlessMemory (λ _. (self.new, input.new.rest.now)) result
            (run_of_locals (without_locals context.now) params self.old input.old.end
            input.old.rest.now) }
    {
        match input.number() {
            Ok(count) => self.add_next(context, params, count, input),
            Err(error) => Err(error),
        }
    }

    /// Adds the locals that a body declares, after so many parameters. There are none before.
    pub(crate) fn add_all(
        &mut self,
        context: &Context,
        params: usize,
        input: &mut Input<'_>,
    ) -> Result<(), ModuleError>
        requires { self.old ≡ [] }
        ensures same_end { input.new.end ≡ input.old.end }
        ensures is { GivesUnlessMemory (λ _. (self.new, input.new.rest.now)) result
            (locals_part (without_locals context.now) params input.old.end input.old.rest.now) }
    {
        let count = match input.number() {
            Ok(count) => count,
            Err(error) => return Err(error),
        };
        'runs: for _ in 0..count {
            match self.add_run(context, params, input) {
                Ok(()) => {}
                Err(error) => return Err(error),
            }
        }
        Ok(())
    }
}

/// Whether there are fewer than 2^32 locals.
fn is_room(params: usize, declared: u64, count: u32) -> bool
    ensures { result ≡ nat_lt (params + declared + count) (2 ^ 32) }
{
    match (params as u64).checked_add(declared) {
        Some(sum) => match sum.checked_add(count as u64) {
            Some(sum) => sum < 0x1_0000_0000,
            None => false,
        },
        None => false,
    }
}
