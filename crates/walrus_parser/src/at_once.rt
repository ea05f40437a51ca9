//! Common operators, each of which makes an instruction by itself. Each function here returns
//! whether it took the operator. It doesn't if an index or a label isn't found or memory runs out;
//! then nothing is changed, and the operator is taken at length, where the fault is found. So no
//! error, which is large, is made for an operator that is taken.
ghost use Rattle.std.specs.Prelude.{◌≡◌, ◌<◌, [], Ok, true};
ghost use Rattle.wasm_operators.specs.declared.operator.Op.TheVariants as op;
ghost use Rattle.wasm_operators.specs.Meaning.{meaning};
ghost use Rattle.wasm_ops.specs.CommonOperators.{common_listed};
ghost use Rattle.wasm_encode.specs.Writable.{IsWritable};
ghost use Rattle.walrus_ir.specs.Unfolding.{slots_in};
ghost use Rattle.wasm_body.specs.InstructionTable.{operation_of, clauses_of_try};
ghost use Rattle.walrus_from_operators.specs.OperatorKinds.{is_instruction};
ghost use Rattle.walrus_parser.specs.OperatorKinds.{makes_unreachable};
ghost use Rattle.walrus_parser.specs.BodyParsers.{TakesAtOnce, placed_in};

use crate::body_parser::BodyParser;
use walrus_from_operators::{constant, memory_argument};
use walrus_ir::{
    Binop, Br, BrIf, Call, GlobalGet, GlobalSet, Instr, InstrLocId, Load, LoadKind, LocalGet,
    LocalSet, LocalTee, Store, StoreKind, Unop, Value,
};
use wasm_ops::{CommonOperator, RawMemArg};

impl BodyParser<'_> {
    /// Takes an operator that makes an instruction by itself, which is this one.
    #[inline(always)]
    fn take_at_once(
        &mut self,
        common: CommonOperator,
        instr: Instr,
        location: InstrLocId,
        unreachable_after: bool,
    ) -> bool
        requires kind { is_instruction (common_listed common) ≡ true }
        requires unreachable_after { unreachable_after ≡ makes_unreachable (common_listed common) }
        requires placed { placed_in self.old (meaning (common_listed common)) ≡ Ok (operation_of instr) }
        requires plain { (slots_in instr ≡ []) × (clauses_of_try instr ≡ []) }
        ensures { TakesAtOnce self.old self.new (meaning (common_listed common)) location result }
    {
        if !self.context.append_innermost(instr, location) {
            return false;
        }
        if !unreachable_after {
            return true;
        }
        self.context.mark_innermost_unreachable();
        true
    }

    /// Takes a `local.get`.
    #[inline(always)]
    fn take_local_get(&mut self, common: CommonOperator, index: u32, location: InstrLocId) -> bool
        requires { common_listed common ≡ op.LocalGet index }
        ensures { TakesAtOnce self.old self.new (meaning (common_listed common)) location result }
    {
        match self.context.local_at(index) {
            Some(local) => {
                let instr = Instr::LocalGet(LocalGet { local });
                self.take_at_once(common, instr, location, false)
            }
            None => false,
        }
    }

    /// Takes a `local.set`.
    #[inline(always)]
    fn take_local_set(&mut self, common: CommonOperator, index: u32, location: InstrLocId) -> bool
        requires { common_listed common ≡ op.LocalSet index }
        ensures { TakesAtOnce self.old self.new (meaning (common_listed common)) location result }
    {
        match self.context.local_at(index) {
            Some(local) => {
                let instr = Instr::LocalSet(LocalSet { local });
                self.take_at_once(common, instr, location, false)
            }
            None => false,
        }
    }

    /// Takes a `local.tee`.
    #[inline(always)]
    fn take_local_tee(&mut self, common: CommonOperator, index: u32, location: InstrLocId) -> bool
        requires { common_listed common ≡ op.LocalTee index }
        ensures { TakesAtOnce self.old self.new (meaning (common_listed common)) location result }
    {
        match self.context.local_at(index) {
            Some(local) => {
                let instr = Instr::LocalTee(LocalTee { local });
                self.take_at_once(common, instr, location, false)
            }
            None => false,
        }
    }

    /// Takes a load.
    #[inline(always)]
    fn push_load(
        &mut self,
        common: CommonOperator,
        kind: LoadKind,
        memarg: RawMemArg,
        location: InstrLocId,
    ) -> bool
        requires is { common_listed common ≡ op.Load kind memarg }
        requires exponent { memarg.exponent < 32 }
        ensures { TakesAtOnce self.old self.new (meaning (common_listed common)) location result }
    {
        match self.context.indices().get_memory(memarg.memory) {
            Ok(memory) => {
                let arg = memory_argument(memarg);
                let load = Load { memory, kind, arg };
                self.take_at_once(common, Instr::Load(load), location, false)
            }
            Err(_) => false,
        }
    }

    /// Takes a store.
    #[inline(always)]
    fn push_store(
        &mut self,
        common: CommonOperator,
        kind: StoreKind,
        memarg: RawMemArg,
        location: InstrLocId,
    ) -> bool
        requires is { common_listed common ≡ op.Store kind memarg }
        requires exponent { memarg.exponent < 32 }
        ensures { TakesAtOnce self.old self.new (meaning (common_listed common)) location result }
    {
        match self.context.indices().get_memory(memarg.memory) {
            Ok(memory) => {
                let arg = memory_argument(memarg);
                let store = Store { memory, kind, arg };
                self.take_at_once(common, Instr::Store(store), location, false)
            }
            Err(_) => false,
        }
    }

    /// Takes a `call`.
    #[inline(always)]
    fn push_call(&mut self, common: CommonOperator, index: u32, location: InstrLocId) -> bool
        requires { common_listed common ≡ op.Call index }
        ensures { TakesAtOnce self.old self.new (meaning (common_listed common)) location result }
    {
        match self.context.indices().get_func(index) {
            Ok(func) => {
                let instr = Instr::Call(Call { func });
                self.take_at_once(common, instr, location, false)
            }
            Err(_) => false,
        }
    }

    /// Takes a `global.get`.
    #[inline(always)]
    fn push_global_get(&mut self, common: CommonOperator, index: u32, location: InstrLocId) -> bool
        requires { common_listed common ≡ op.GlobalGet index }
        ensures { TakesAtOnce self.old self.new (meaning (common_listed common)) location result }
    {
        match self.context.indices().get_global(index) {
            Ok(global) => {
                let instr = Instr::GlobalGet(GlobalGet { global });
                self.take_at_once(common, instr, location, false)
            }
            Err(_) => false,
        }
    }

    /// Takes a `global.set`.
    #[inline(always)]
    fn push_global_set(&mut self, common: CommonOperator, index: u32, location: InstrLocId) -> bool
        requires { common_listed common ≡ op.GlobalSet index }
        ensures { TakesAtOnce self.old self.new (meaning (common_listed common)) location result }
    {
        match self.context.indices().get_global(index) {
            Ok(global) => {
                let instr = Instr::GlobalSet(GlobalSet { global });
                self.take_at_once(common, instr, location, false)
            }
            Err(_) => false,
        }
    }

    /// Takes a `br`.
    #[inline(always)]
    fn take_br(&mut self, common: CommonOperator, label: u32, location: InstrLocId) -> bool
        requires { common_listed common ≡ op.Br label }
        ensures { TakesAtOnce self.old self.new (meaning (common_listed common)) location result }
    {
        match self.context.block_at(label as usize) {
            Some(block) => {
                let instr = Instr::Br(Br { block });
                self.take_at_once(common, instr, location, true)
            }
            None => false,
        }
    }

    /// Takes a `br_if`.
    #[inline(always)]
    fn push_br_if(&mut self, common: CommonOperator, label: u32, location: InstrLocId) -> bool
        requires { common_listed common ≡ op.BrIf label }
        ensures { TakesAtOnce self.old self.new (meaning (common_listed common)) location result }
    {
        match self.context.block_at(label as usize) {
            Some(block) => {
                let instr = Instr::BrIf(BrIf { block });
                self.take_at_once(common, instr, location, false)
            }
            None => false,
        }
    }

    /// Takes a common operator.
    #[inline(always)]
    pub fn take_common(&mut self, common: CommonOperator, location: InstrLocId) -> bool
        requires { IsWritable (meaning (common_listed common)) }
        ensures { TakesAtOnce self.old self.new (meaning (common_listed common)) location result }
    {
        match common {
            CommonOperator::LocalGet { local } => self.take_local_get(common, local, location),
            CommonOperator::LocalSet { local } => self.take_local_set(common, local, location),
            CommonOperator::LocalTee { local } => self.take_local_tee(common, local, location),
            CommonOperator::I32Const { value } => {
                self.take_at_once(common, constant(Value::I32(value)), location, false)
            }
            CommonOperator::I64Const { value } => {
                self.take_at_once(common, constant(Value::I64(value)), location, false)
            }
            CommonOperator::Unop(op) => {
                self.take_at_once(common, Instr::Unop(Unop { op }), location, false)
            }
            CommonOperator::Binop(op) => {
                self.take_at_once(common, Instr::Binop(Binop { op }), location, false)
            }
            CommonOperator::Load { kind, memarg } => {
                self.push_load(common, kind, memarg, location)
            }
            CommonOperator::Store { kind, memarg } => {
                self.push_store(common, kind, memarg, location)
            }
            CommonOperator::Call { func } => self.push_call(common, func, location),
            CommonOperator::GlobalGet { global } => {
                self.push_global_get(common, global, location)
            }
            CommonOperator::GlobalSet { global } => {
                self.push_global_set(common, global, location)
            }
            CommonOperator::Br { label } => self.take_br(common, label, location),
            CommonOperator::BrIf { label } => self.push_br_if(common, label, location),
            CommonOperator::Drop => self.take_at_once(common, Instr::Drop, location, false),
        }
    }
}
