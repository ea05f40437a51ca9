//! What operators cost.
ghost use Rattle.std.specs.Prelude.{◌≡◌, IfOk, slice_set};
ghost use Rattle.walrus_metering.specs.OperatorCosts.{operator_slot, operator_cost};

use crate::names::OPERATORS;
use std::alloc::{AllocError, Global};
use wasm_operators::Opcode;

/// No number after a prefix is greater, nor is it this one.
const NUMBERS: usize = 512;

/// How many places the table has: one for each byte, and one for each number after a prefix.
const SLOTS: usize = 256 + 4 * NUMBERS;

/// The place of an operator in the table.
fn operator_slot(opcode: Opcode) -> usize
    ensures { result ≡ operator_slot opcode }
{
    match opcode {
        Opcode::Byte(byte) => usize::from(byte),
        Opcode::Prefixed(prefix, number) => {
            256 + (4 * (number as usize) + usize::from(prefix % 4))
        }
    }
}

/// The opcode in a row of operators, if this is its name.
fn opcode_in(row: &str, name: &str) -> Option<Opcode> {
    let (prefix, rest) = row.split_once(' ')?;
    let (number, known) = rest.split_once(' ')?;
    if known != name {
        return None;
    }
    match (prefix.parse::<u8>(), number.parse::<u32>()) {
        (Ok(0), Ok(number)) => match u8::try_from(number) {
            Ok(byte) => Some(Opcode::Byte(byte)),
            Err(_) => None,
        },
        (Ok(prefix), Ok(number)) => Some(Opcode::Prefixed(prefix, number)),
        _ => None,
    }
}

/// What each operator costs. Nothing is charged for `nop`, `else`, `end`, `catch`, `catch_all` and
/// `delegate`, whatever they cost: they do nothing.
#[derive(Drop)]
pub struct Costs {
    pub(crate) rows: Vec<u32>,
}

impl Costs {
    /// Each operator costs 1.
    ///
    /// # Errors
    ///
    /// Out of memory.
    #[tactic(auto, using(crate::proofs::Tables::each_costs_one))]
    pub fn new(alloc: Global) -> Result<Costs, AllocError>
        ensures { IfOk result (λ costs. (opcode : Opcode) → operator_cost costs opcode ≡ 1) }
    {
        let rows = vec![in alloc; 1u32; SLOTS]?;
        Ok(Costs { rows })
    }

    /// What an operator costs.
    pub fn of(&self, opcode: Opcode) -> u32
        ensures { result ≡ operator_cost self.now opcode }
    {
        match self.rows.get(operator_slot(opcode)) {
            Some(cost) => *cost,
            None => 1,
        }
    }

    /// Sets what an operator costs. What is no operator keeps its cost.
    pub fn set(&mut self, opcode: Opcode, cost: u32)
        ensures { self.new.rows.items ≡ slice_set self.old.rows.items (operator_slot opcode) cost }
    {
        if let Some(row) = self.rows.get_mut(operator_slot(opcode)) {
            *row = cost;
        }
    }

    /// Sets what the operators with this name cost, as the standard's text format has it, and returns
    /// whether there is one.
    pub fn set_named(&mut self, name: &str, cost: u32) -> bool {
        let mut is_known = false;
        for row in OPERATORS.lines() {
            if let Some(opcode) = opcode_in(row, name) {
                self.set(opcode, cost);
                is_known = true;
            }
        }
        is_known
    }
}
