//! The locals of a function: its parameters, and those that its body declares (WebAssembly core
//! specification 3.0, binary format, code section).

ghost use Rattle.std.specs.Prelude.{◌≡◌, ◌⊎◌, ◌≤◌, ◌+◌, ◌++◌, length, replicate, OnOk, IfOk, IfErr};
ghost use Rattle.wasm_sections.specs.declared.fault.ModuleFault.TheVariants.{Memory};
ghost use Rattle.wasm_sections.specs.Declarations.{HaveLocals, DeclaresGroup, first_numbers, HasNoGroup, HasNoLocals, max_locals};

use crate::fault::{ModuleError, ModuleFault};
use crate::input::Input;
use std::alloc::Global;
use walrus_context::value_type;
use walrus_ir::{LocalId, ModuleLocals, ValType};
use walrus_maps::IndicesToIds;
use walrus_validators::{CheckError, OpCheck};
use wasm_ops::{Immediates, Operator};

/// The greatest number of locals of a function, parameters included. Engines allow no more.
pub const MAX_LOCALS: usize = 50_000;

/// The locals of one function. The id of a local is its index.
#[derive(Drop)]
pub struct Locals {
    /// The type of each local, by id.
    pub types: ModuleLocals,
    /// The number of locals.
    pub count: usize,
}

impl Locals {
    /// The parameters of a function.
    pub fn of_params(alloc: Global, params: &[ValType]) -> Result<Locals, ModuleError>
        ensures types { IfOk result (λ locals. locals.types ≡ params.now) }
        ensures count { IfOk result (λ locals. locals.count ≡ length params.now) }
        ensures refused { IfErr result (λ e. e.fault ≡ Memory) }
    {
        let mut types = ModuleLocals::new(alloc);
        'params: for ty in params {
            types.add(*ty)?;
        }
        Ok(Locals {
            types,
            count: params.len(),
        })
    }

    /// The parameters of a function, and the locals that the next bytes declare.
    ///
    /// # Errors
    ///
    /// `Truncated`, `BadNumber`, `BadType`; `TooManyLocals`; `IndexOutOfRange`; or `Memory`.
    pub fn declared(
        alloc: Global,
        params: &[ValType],
        input: &mut Input<'_>,
        indices: &IndicesToIds,
    ) -> Result<Locals, ModuleError>
        ensures types { IfOk result (λ locals. HaveLocals indices.now params.now
            input.old.rest.now input.new.rest.now locals.types) }
        ensures count { IfOk result (λ locals. locals.count ≡ length locals.types) }
        ensures few { length params.now ≤ max_locals
            → IfOk result (λ locals. locals.count ≤ max_locals) }
        ensures refused { IfErr result (λ e. (e.fault ≡ Memory)
            ⊎ HasNoLocals indices.now params.now input.old.rest.now) }
    {
        let mut locals = Locals::of_params(alloc, params)?;
        'groups: for _ in 0..input.number()? {
            locals.declare(input, indices)?;
        }
        Ok(locals)
    }

    /// Adds `count` locals of a type, as one run, in constant time.
    fn add(&mut self, count: u32, ty: &ValType) -> Result<(), ModuleError>
        requires { self.old.count + count ≤ max_locals }
        ensures types { OnOk result (self.new.types ≡ self.old.types ++ replicate count ty.now) }
        ensures count { OnOk result (self.new.count ≡ self.old.count + count) }
        ensures refused { IfErr result (λ e. e.fault ≡ Memory) }
    {
        self.types.add_run(*ty, count as usize)?;
        self.count += count as usize;
        Ok(())
    }

    /// Reads the declaration of a group of locals, and adds them.
    fn declare(&mut self, input: &mut Input<'_>, indices: &IndicesToIds) -> Result<(), ModuleError>
        ensures group { OnOk result (DeclaresGroup indices.now input.old.rest.now
            input.new.rest.now self.old.types self.new.types) }
        ensures count { OnOk result
            (self.old.count ≡ length self.old.types → self.new.count ≡ length self.new.types) }
        ensures few { OnOk result (self.new.count ≤ max_locals) }
        ensures refused { IfErr result (λ e. (e.fault ≡ Memory)
            ⊎ HasNoGroup indices.now input.old.rest.now self.old.count) }
    {
        let begin = *input;
        let count = input.number()?;
        if self.count.saturating_add(count as usize) > MAX_LOCALS {
            return Err(begin.fault(ModuleFault::TooManyLocals));
        }
        let begin = *input;
        let ty = input.value_type()?;
        match value_type(indices, ty) {
            Ok(ty) => self.add(count, &ty),
            Err(error) => Err(ModuleError::of_type(error, begin.at())),
        }
    }
}

impl Input<'_> {
    /// Reads past the declaration of a group of locals.
    fn pass_declaration(&mut self) -> Result<(), ModuleError> {
        match self.number() {
            Ok(_) => {}
            Err(error) => return Err(error),
        }
        match self.value_type() {
            Ok(_) => Ok(()),
            Err(error) => Err(error),
        }
    }

    /// Reads past the declarations of a body's locals.
    pub fn pass_declarations(&mut self) -> Result<(), ModuleError> {
        let count = match self.number() {
            Ok(count) => count,
            Err(error) => return Err(error),
        };
        for _ in 0..count {
            match self.pass_declaration() {
                Ok(()) => {}
                Err(error) => return Err(error),
            }
        }
        Ok(())
    }
}

/// The ids of a function's parameters, which are the first of its locals.
pub fn arguments(alloc: Global, count: usize) -> Result<Vec<LocalId>, ModuleError>
    ensures ok { IfOk result (λ ids. ids.items ≡ first_numbers count) }
    ensures refused { IfErr result (λ e. e.fault ≡ Memory) }
{
    let mut ids = Vec::new(alloc);
    'ids: for index in 0..count {
        ids.push(LocalId::new(index))?;
    }
    Ok(ids)
}

/// The validator that refuses an operator which names a local with this index or a greater one.
#[derive(Clone, Copy, Debug, Drop)]
pub struct LocalsBelow(
    /// The index.
    pub usize,
);

impl LocalsBelow {
    ghost use Rattle.std.specs.Prelude.{◌≡◌, ◌<◌, ◌≤◌, ℕ, OnOk, IfErr};
    ghost use Rattle.wasm_operators.specs.Meaning.{meaning};
    ghost use Rattle.walrus_validators.specs.Checking.{Checks, placed_at};
    ghost use Rattle.walrus_validators.specs.declared.check.CheckError.TheVariants.{Refused};
    ghost use Rattle.wasm_sections.specs.LocalsBelow.{locals_below};

    /// Checks a local that an operator names.
    #[inline(always)]
    fn check_local(&self, index: u32) -> Result<(), CheckError>
        ensures ok { OnOk result (index < self.now.0) }
        ensures refused { IfErr result (λ e. (e ≡ Refused 0) × (self.now.0 ≤ index)) }
    {
        if (index as usize) < self.0 {
            Ok(())
        } else {
            Err(CheckError::Refused(0))
        }
    }

    /// Checks an operator of any kind by its immediates.
    #[inline(never)]
    fn check_any(&self, op: &Operator<'_>) -> Result<(), CheckError>
        ensures { (place : ℕ) → Checks locals_below self.now.0 (placed_at (meaning op.now) place)
            result self.now.0 }
    {
        let (_, immediates) = op.parts();
        match immediates {
            Immediates::Local(local) => self.check_local(local),
            _ => Ok(()),
        }
    }
}

impl OpCheck for LocalsBelow {
    ghost use Rattle.std.specs.Prelude.{ℕ};
    ghost use Rattle.wasm_sections.specs.LocalsBelow.{locals_below};

    ghost State = { ℕ };

    ghost state = { λ v. v.0 };

    ghost check = { locals_below };

    #[inline(always)]
    #[tactic(auto, using(crate::proofs::LaneLocals::no_unary_local, crate::proofs::LaneLocals::no_binary_local))]
    fn op(&mut self, _pos: usize, op: &Operator<'_>) -> Result<(), CheckError> {
        match op {
            Operator::LocalGet { local } => self.check_local(*local),
            Operator::LocalSet { local } => self.check_local(*local),
            Operator::LocalTee { local } => self.check_local(*local),
            Operator::I32Const { .. } => Ok(()),
            Operator::I64Const { .. } => Ok(()),
            Operator::Unop(_) => Ok(()),
            Operator::Binop(_) => Ok(()),
            Operator::Load { .. } => Ok(()),
            Operator::Store { .. } => Ok(()),
            Operator::Call { .. } => Ok(()),
            Operator::GlobalGet { .. } => Ok(()),
            Operator::GlobalSet { .. } => Ok(()),
            Operator::Br { .. } => Ok(()),
            Operator::BrIf { .. } => Ok(()),
            Operator::Drop => Ok(()),
            Operator::Block { .. } => Ok(()),
            Operator::Loop { .. } => Ok(()),
            Operator::If { .. } => Ok(()),
            Operator::Else => Ok(()),
            Operator::End => Ok(()),
            Operator::Unreachable => Ok(()),
            Operator::Return => Ok(()),
            Operator::Select => Ok(()),
            Operator::F32Const { .. } => Ok(()),
            Operator::F64Const { .. } => Ok(()),
            Operator::Nop => Ok(()),
            Operator::Try { .. } => Ok(()),
            Operator::CatchAll => Ok(()),
            Operator::CallIndirect { .. } => Ok(()),
            Operator::BrTable(_) => Ok(()),
            Operator::MemoryCopy { .. } => Ok(()),
            Operator::MemoryFill { .. } => Ok(()),
            _ => self.check_any(op),
        }
    }
}
