//! Instructions that charge what they cost.
ghost use Rattle.std.specs.Prelude.{◌≡◌, ◌≤◌, ◌+◌, ◌++◌, ◌∷◌, [], ℕ, map, take, drop, OnOk, OnErr};
ghost use Rattle.walrus_insertion.specs.declared.probe.Edit.TheVariants.{Insert, Keep};
ghost use Rattle.walrus_insertion.specs.Edits.{edited};
ghost use Rattle.walrus_metering.specs.MeteredInstructions.{instr_goes_straight, cost_from, max_charge, charged_for, charge_at, all_metered, metered_sequence, metered_function};

use crate::charge::Charge;
use crate::costs::Costs;
use crate::opcodes::opcode_of;
use std::alloc::{AllocError, Global};
use walrus_insertion::{Edit, merge};
use walrus_ir::{FunctionBuilder, Instr, InstrLocId, InstrSeq, InstrSeqId};

/// The greatest charge: that of an i64.
const MAX_CHARGE: u64 = 0x7fff_ffff_ffff_ffff;

/// Whether the next instruction is executed after this one, unless it traps or throws.
fn goes_straight(located: &(Instr, InstrLocId)) -> bool
    ensures { result ≡ instr_goes_straight located.now }
{
    !matches!(
        &located.0,
        Instr::Block(_)
            | Instr::Loop(_)
            | Instr::IfElse(_)
            | Instr::TryTable(_)
            | Instr::Try(_)
            | Instr::Br(_)
            | Instr::BrIf(_)
            | Instr::BrTable(_)
            | Instr::BrOnNull(_)
            | Instr::BrOnNonNull(_)
            | Instr::BrOnCast(_)
            | Instr::BrOnCastFail(_)
            | Instr::Return
            | Instr::Unreachable
            | Instr::Throw(_)
            | Instr::ThrowRef
            | Instr::Rethrow(_)
            | Instr::ReturnCall(_)
            | Instr::ReturnCallIndirect(_)
            | Instr::ReturnCallRef(_)
    )
}

/// A charge and a cost more, or the greatest charge if that is less.
fn with_cost(charge: u64, cost: u32) -> u64
    requires { charge ≤ max_charge }
    ensures { result ≡ charged_for (charge + cost) }
{
    let cost = u64::from(cost);
    if MAX_CHARGE - charge < cost {
        MAX_CHARGE
    } else {
        charge + cost
    }
}

/// What is charged for the straight piece with which these instructions begin: its cost, or the
/// greatest charge if that is less.
fn piece_charge(costs: &Costs, instrs: &[(Instr, InstrLocId)]) -> u64
    ensures { result ≡ charged_for (cost_from costs.now instrs.now) }
{
    let mut sum = 0u64;
    let mut left = instrs;
    'piece: while let Some((located, following)) = left.split_first() {
        sum = with_cost(sum, costs.of(opcode_of(&located.0)));
        if !goes_straight(located) {
            return sum;
        }
        left = following;
    }
    sum
}

/// Appends the steps for the charge at the place before these instructions, unless the piece before
/// goes on there, and by which the first of them stays.
fn push_charge(
    costs: &Costs,
    charge: &Charge,
    goes_on: bool,
    following: &[(Instr, InstrLocId)],
    edits: &mut Vec<Edit>,
) -> Result<(), AllocError>
    ensures { OnOk result (edits.new.items ≡ edits.old.items
        ++ map Insert (charge_at charge.now goes_on (cost_from costs.now following.now)) ++ Keep ∷ []) }
{
    if goes_on {
        return charge.push(0, edits);
    }
    charge.push(piece_charge(costs, following), edits)
}

/// Makes the steps by which a sequence with these instructions gets its charges.
#[tactic(auto, using(crate::proofs::Steps::none_said, crate::proofs::Steps::one_said))]
fn edits_of(
    costs: &Costs,
    charge: &Charge,
    instrs: &[(Instr, InstrLocId)],
    edits: &mut Vec<Edit>,
) -> Result<(), AllocError>
    ensures { OnOk result (edited edits.new.items instrs.now
        ≡ all_metered costs.now charge.now instrs.now) }
{
    edits.clear();
    let mut goes_on = false;
    let mut left = instrs;
    'places: while let Some((located, following)) = left.split_first() {
        push_charge(costs, charge, goes_on, left, edits)?;
        goes_on = goes_straight(located);
        left = following;
    }
    Ok(())
}

/// Lets a sequence charge what it costs.
fn meter_sequence(
    alloc: Global,
    costs: &Costs,
    charge: &Charge,
    seq: &mut InstrSeq,
    edits: &mut Vec<Edit>,
) -> Result<(), AllocError>
    ensures ok { OnOk result (seq.new ≡ metered_sequence costs.now charge.now seq.old) }
    ensures err { OnErr result (seq.new ≡ seq.old) }
{
    edits_of(costs, charge, seq.instrs.as_slice(), edits)?;
    merge(alloc, seq, edits)
}

/// Lets a function charge what it executes: in each of its sequences, a charge comes before each
/// straight piece of code, the instructions of which one is executed after the other: before the
/// first instruction, and after each that opens a construct, may branch, returns, throws, traps or
/// calls a tail. It charges what the instructions cost up to the next such place. A call and what
/// traps belongs to the piece in which it is. A piece that costs nothing has no charge, and one that
/// costs more than `i64::MAX` is charged that: with costs below 2^31 that takes more than 2^32
/// instructions, and no function that was read has so many. The time is proportional to the
/// instructions.
///
/// # Errors
///
/// Out of memory. Each sequence before one of the slots is then changed, and all others are as they
/// were.
pub fn meter(
    builder: &mut FunctionBuilder,
    costs: &Costs,
    charge: &Charge,
) -> Result<(), AllocError>
    ensures ok { OnOk result (builder.new ≡ metered_function costs.now charge.now builder.old) }
    ensures err { OnErr result ((slot : ℕ) × (builder.new ≡ record builder.old {
      sequences =
          map (metered_sequence costs.now charge.now) (take slot builder.old.sequences)
          ++ drop slot builder.old.sequences;
    })) }
{
    let alloc = builder.allocator();
    let mut edits = Vec::new(alloc);
    for slot in 0..builder.count() {
        let seq = builder.seq_mut(InstrSeqId::new(slot));
        meter_sequence(alloc, costs, charge, seq, &mut edits)?;
    }
    Ok(())
}
