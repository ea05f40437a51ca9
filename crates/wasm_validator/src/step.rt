//! The step of the algorithm.
ghost use Rattle.std.specs.Prelude.{◌≡◌, [], OnOk, false};
ghost use Rattle.wasm_operators.specs.declared.types.Opcode.TheVariants.{Byte};
ghost use Rattle.wasm_operators.specs.Meaning.{meaning};
ghost use Rattle.wasm_operators.specs.Operations.{operation};
ghost use Rattle.wasm_ops.specs.CommonOperators.{common_listed};
ghost use Rattle.wasm_context.specs.Validation.{raw_step};
ghost use Rattle.wasm_validator.specs.WellFormed.{IsWellFormed};
ghost use Rattle.wasm_validator.specs.Steps.{ResultsIn};

use crate::fault::Fault;
use crate::frame::Opened;
use crate::state::Validator;
use wasm_operators::Operator;
use wasm_ops::CommonOperator;
use wasm_types::ValType;

impl Validator<'_> {
    ghost use Rattle.wasm_validator.specs.Steps.{setting_of, open_state, whole_state_of, ReachesHeight};
    ghost use Rattle.wasm_validator.specs.Core.{step_of};

    /// `unreachable`
    fn unreachable(&mut self) -> Result<(), Fault>
        ensures leaves { ResultsIn (step_of self.old (operation (Byte 0x00) [])) result (open_state self.new) }
        ensures open { self.new.ended ≡ self.old.ended }
        ensures setting { setting_of self.new ≡ setting_of self.old }
    {
        self.set_unreachable();
        Ok(())
    }

    /// Takes an operator where the function's frame is open.
    #[inline(always)]
    fn step_inside(&mut self, op: &Operator<'_>) -> Result<(), Fault>
        requires well_formed { IsWellFormed (open_state self.old) }
        requires reach { ReachesHeight self.old }
        requires open { self.old.ended ≡ false }
        ensures step { ResultsIn (raw_step (setting_of self.old) (meaning op.now) (open_state self.old)) result
            (whole_state_of self.new) }
        ensures setting { setting_of self.new ≡ setting_of self.old }
    {
        match op {
            Operator::Unreachable => self.unreachable(),
            Operator::Nop => Ok(()),
            Operator::Block { ty } => self.begin(Opened::Block, *ty),
            Operator::Loop { ty } => self.begin(Opened::Loop, *ty),
            Operator::If { ty } => self.begin_if(*ty),
            Operator::Else => self.else_sequence(),
            Operator::Try { ty } => self.begin(Opened::Try, *ty),
            Operator::Catch { tag } => self.catch(*tag),
            Operator::Throw { tag } => self.throw(*tag),
            Operator::Rethrow { depth } => self.rethrow(*depth),
            Operator::ThrowRef => self.throw_ref(),
            Operator::End => self.end(),
            Operator::Br { label } => self.branch(*label),
            Operator::BrIf { label } => self.branch_if(*label),
            Operator::BrTable(table) => self.branch_table(table),
            Operator::Return => self.return_results(),
            Operator::Call { func } => self.call(*func),
            Operator::CallIndirect { ty, table } => self.call_indirect(*ty, *table),
            Operator::ReturnCall { func } => self.return_call(*func),
            Operator::ReturnCallIndirect { ty, table } => self.return_call_indirect(*ty, *table),
            Operator::CallRef { ty } => self.call_ref(*ty),
            Operator::ReturnCallRef { ty } => self.return_call_ref(*ty),
            Operator::Delegate { depth } => self.delegate(*depth),
            Operator::CatchAll => self.catch_all(),
            Operator::Drop => self.drop_operand(),
            Operator::Select => self.select(),
            Operator::TypedSelect { ty } => self.select_typed(*ty),
            Operator::TryTable { ty, catches } => self.begin_try_table(*ty, catches),
            Operator::LocalGet { local } => self.local_get(*local),
            Operator::LocalSet { local } => self.local_set(*local),
            Operator::LocalTee { local } => self.local_tee(*local),
            Operator::GlobalGet { global } => self.global_get(*global),
            Operator::GlobalSet { global } => self.global_set(*global),
            Operator::TableGet { table } => self.table_get(*table),
            Operator::TableSet { table } => self.table_set(*table),
            Operator::Load { kind, memarg } => self.load(*kind, *memarg),
            Operator::Store { kind, memarg } => self.store(*kind, *memarg),
            Operator::LoadSimd { kind, memarg } => self.vector_access(*kind, *memarg),
            Operator::Atomic { kind, memarg } => self.atomic(*kind, *memarg),
            Operator::AtomicFence => self.fence(),
            Operator::MemorySize { memory } => self.memory_size(*memory),
            Operator::MemoryGrow { memory } => self.memory_grow(*memory),
            Operator::I32Const { .. } => self.constant(ValType::I32),
            Operator::I64Const { .. } => self.constant(ValType::I64),
            Operator::F32Const { .. } => self.constant(ValType::F32),
            Operator::F64Const { .. } => self.constant(ValType::F64),
            Operator::Unop(op) => self.unary(*op),
            Operator::Binop(op) => self.binary(*op),
            Operator::TernOp(op) => self.ternary(*op),
            Operator::MemoryInit { data, memory } => self.memory_init(*data, *memory),
            Operator::DataDrop { data } => self.data_drop(*data),
            Operator::MemoryCopy { target, source } => self.memory_copy(*target, *source),
            Operator::MemoryFill { memory } => self.memory_fill(*memory),
            Operator::TableInit { element, table } => self.table_init(*element, *table),
            Operator::ElemDrop { element } => self.elem_drop(*element),
            Operator::TableCopy { target, source } => self.table_copy(*target, *source),
            Operator::TableGrow { table } => self.table_grow(*table),
            Operator::TableSize { table } => self.table_size(*table),
            Operator::TableFill { table } => self.table_fill(*table),
            Operator::I64Add128 => self.wide_binary(),
            Operator::I64Sub128 => self.wide_binary(),
            Operator::I64MulWideS => self.widening(),
            Operator::I64MulWideU => self.widening(),
            Operator::V128Const { .. } => self.constant(ValType::V128),
            Operator::I8x16Shuffle { indices } => self.shuffle(indices),
            Operator::I8x16Swizzle => self.swizzle(),
            Operator::V128Bitselect => self.bitselect(),
            Operator::Reference(op) => self.step_reference(*op),
        }
    }

    /// Takes a common operator where the function's frame is open.
    #[inline(always)]
    fn step_common_inside(&mut self, op: CommonOperator) -> Result<(), Fault>
        requires well_formed { IsWellFormed (open_state self.old) }
        requires reach { ReachesHeight self.old }
        requires open { self.old.ended ≡ false }
        ensures step { ResultsIn (raw_step (setting_of self.old) (meaning (common_listed op)) (open_state self.old)) result
            (whole_state_of self.new) }
        ensures setting { setting_of self.new ≡ setting_of self.old }
    {
        match op {
            CommonOperator::LocalGet { local } => self.local_get(local),
            CommonOperator::LocalSet { local } => self.local_set(local),
            CommonOperator::LocalTee { local } => self.local_tee(local),
            CommonOperator::I32Const { .. } => self.constant(ValType::I32),
            CommonOperator::I64Const { .. } => self.constant(ValType::I64),
            CommonOperator::Unop(op) => self.unary(op),
            CommonOperator::Binop(op) => self.binary(op),
            CommonOperator::Load { kind, memarg } => self.load(kind, memarg),
            CommonOperator::Store { kind, memarg } => self.store(kind, memarg),
            CommonOperator::Call { func } => self.call(func),
            CommonOperator::GlobalGet { global } => self.global_get(global),
            CommonOperator::GlobalSet { global } => self.global_set(global),
            CommonOperator::Br { label } => self.branch(label),
            CommonOperator::BrIf { label } => self.branch_if(label),
            CommonOperator::Drop => self.drop_operand(),
        }
    }

    /// Takes a common operator, as `step`. It is the faster one of both.
    #[inline(always)]
    pub fn step_common(&mut self, op: CommonOperator) -> Result<(), Fault>
        requires { IsWellFormed (whole_state_of self.old) }
        ensures step { ResultsIn (raw_step (setting_of self.old) (meaning (common_listed op))
            (whole_state_of self.old)) result (whole_state_of self.new) }
        ensures well_formed { OnOk result (IsWellFormed (whole_state_of self.new)) }
        ensures setting { setting_of self.new ≡ setting_of self.old }
    {
        if self.ended {
            return Err(Fault::Refused);
        }
        self.step_common_inside(op)
    }

    /// Takes an operator. After the function none is accepted.
    pub fn step(&mut self, op: &Operator<'_>) -> Result<(), Fault>
        requires { IsWellFormed (whole_state_of self.old) }
        ensures step { ResultsIn (raw_step (setting_of self.old) (meaning op.now)
            (whole_state_of self.old)) result (whole_state_of self.new) }
        ensures well_formed { OnOk result (IsWellFormed (whole_state_of self.new)) }
        ensures setting { setting_of self.new ≡ setting_of self.old }
    {
        if self.ended {
            return Err(Fault::Refused);
        }
        self.step_inside(op)
    }
}
