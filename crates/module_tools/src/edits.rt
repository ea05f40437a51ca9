//! What tools change of a function: the sequence that it begins with.
ghost use Rattle.std.specs.Prelude.{OnOk};
ghost use Rattle.walrus_body.specs.LocalFunctions.{HasEntry};
ghost use Rattle.inserted_code.specs.InsertedCode.{BeginsWith, Charges};
ghost use Rattle.module_tools.specs.Sequences.{counting_instrs, trapping};
ghost use Rattle.module_tools.specs.FunctionChanges.{ChangesFirst, TrapsIf};

use std::alloc::AllocError;
use walrus_body::LocalFunction;
use walrus_ir::{BinaryOp, Binop, Const, GlobalGet, GlobalId, GlobalSet, Instr, InstrLocId, Value};
use walrus_metering::{Charge, Costs, meter};

/// Lets a function add 1 to a global of type i64, before all else that it does.
pub(crate) fn count_call(function: &mut LocalFunction, global: GlobalId) -> Result<(), AllocError>
    requires { HasEntry function.old.builder }
    ensures { OnOk result (BeginsWith (counting_instrs global) function.old function.new) }
{
    let entry = function.entry_block();
    let nowhere = InstrLocId::default();
    let value = Value::I64(1);
    let op = BinaryOp::I64Add;
    let instrs = &mut function.block_mut(entry).instrs;
    instrs.insert(0, (Instr::GlobalSet(GlobalSet { global }), nowhere))?;
    instrs.insert(0, (Instr::Binop(Binop { op }), nowhere))?;
    instrs.insert(0, (Instr::Const(Const { value }), nowhere))?;
    instrs.insert(0, (Instr::GlobalGet(GlobalGet { global }), nowhere))?;
    Ok(())
}

/// Lets a function charge what it executes.
pub(crate) fn charge_code(
    function: &mut LocalFunction,
    costs: &Costs,
    charge: &Charge,
) -> Result<(), AllocError>
    ensures { OnOk result (Charges costs.now charge.now function.old function.new) }
{
    meter(function.builder_mut(), costs, charge)
}

/// Lets a function only trap.
pub(crate) fn trap(function: &mut LocalFunction) -> Result<(), AllocError>
    requires { HasEntry function.old.builder }
    ensures { OnOk result (ChangesFirst trapping function.old function.new) }
{
    let entry = function.entry_block();
    let block = function.block_mut(entry);
    block.instrs.clear();
    block.end = InstrLocId::default();
    block
        .instrs
        .push((Instr::Unreachable, InstrLocId::default()))?;
    Ok(())
}

/// Lets a function only trap where its body is taken away.
pub(crate) fn trap_if(is_taken: bool, function: &mut LocalFunction) -> Result<(), AllocError>
    ensures { OnOk result (TrapsIf is_taken function.old function.new) }
{
    if is_taken && function.has_entry() {
        trap(function)?;
    }
    Ok(())
}
