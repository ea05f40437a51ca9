//! How a cost is charged.
ghost use Rattle.std.specs.Prelude.{◌≡◌, ◌≤◌, ◌++◌, ◌∷◌, [], map, OnOk};
ghost use Rattle.walrus_insertion.specs.declared.probe.Edit.TheVariants.{Insert, Keep};
ghost use Rattle.walrus_metering.specs.Charges.{charge_of};
ghost use Rattle.walrus_metering.specs.MeteredInstructions.{max_charge};

use std::alloc::AllocError;
use walrus_insertion::{Edit, PlainInstr};
use walrus_ir::{BinaryOp, Binop, Call, Const, FunctionId, GlobalGet, GlobalId, GlobalSet, Value};

/// How the cost of a piece of code is charged.
#[derive(Clone, Copy)]
pub enum Charge {
    /// This function is called with it, as an i64.
    Call(FunctionId),
    /// It is added to this global of type i64.
    Add(GlobalId),
}

impl Charge {
    /// Appends the steps that insert a charge, unless there is nothing to charge, and by which the next
    /// instruction stays.
    pub(crate) fn push(&self, cost: u64, edits: &mut Vec<Edit>) -> Result<(), AllocError>
        requires { cost ≤ max_charge }
        ensures { OnOk result (edits.new.items ≡ edits.old.items ++ map Insert (charge_of self.now cost) ++ Keep ∷ []) }
    {
        if cost == 0 {
            edits.push(Edit::Keep)?;
            return Ok(());
        }
        let value = Value::I64(cost as i64);
        match self {
            Charge::Call(func) => {
                let func = *func;
                edits.push(Edit::Insert(PlainInstr::Const(Const { value })))?;
                edits.push(Edit::Insert(PlainInstr::Call(Call { func })))?;
                edits.push(Edit::Keep)?;
            }
            Charge::Add(global) => {
                let global = *global;
                let op = BinaryOp::I64Add;
                edits.push(Edit::Insert(PlainInstr::GlobalGet(GlobalGet { global })))?;
                edits.push(Edit::Insert(PlainInstr::Const(Const { value })))?;
                edits.push(Edit::Insert(PlainInstr::Binop(Binop { op })))?;
                edits.push(Edit::Insert(PlainInstr::GlobalSet(GlobalSet { global })))?;
                edits.push(Edit::Keep)?;
            }
        }
        Ok(())
    }
}
