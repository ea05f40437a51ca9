//! Operators to be written.

ghost use Rattle.std.specs.Prelude.{◌≡◌};
ghost use Rattle.wasm_operators.specs.Meaning.{meaning};
ghost use Rattle.wasm_operators.specs.Operations.{operation};
ghost use Rattle.wasm_operators.specs.Parts.{immediates_of};

use std::marker::Model;
use wasm_operators::{Immediates, Op, Opcode, RawCatch, index_rows, parts_of};

/// The labels of a `br_table` to be written. In a contract, it is the list of labels and the
/// default.
#[derive(Clone, Debug, Drop)]
pub struct OutTable<'a> {
    /// The labels, as depths, that the operand selects from.
    pub targets: &'a [u32],
    /// The default label, as a depth: the target for every operand that is not below the number of
    /// `targets`.
    pub default: u32,
}

impl<'a> Model for OutTable<'a> {
    ghost use Rattle.wasm_operators.specs.Immediates.{Table};

    ghost Value = { Table };

    ghost view = { λ t. (t.targets.now, t.default) };
}

/// The clauses of a `try_table` to be written. In a contract, they are a list.
#[derive(Clone, Debug, Drop)]
pub struct OutClauses<'a> {
    /// The clauses, in order.
    pub clauses: &'a [RawCatch],
}

impl<'a> Model for OutClauses<'a> {
    ghost use Rattle.std.specs.Prelude.{ℕ, List};
    ghost use Rattle.wasm_operators.specs.Operations.{CatchClause};

    ghost Value = { List (CatchClause ℕ) };

    ghost view = { λ c. c.clauses.now };
}

/// An operator to be written. Its lists are borrowed slices.
pub type OutOp<'a> = Op<OutTable<'a>, OutClauses<'a>>;

/// The immediates that follow the opcode of an operator to be written.
pub(crate) type OutImmediates<'a> = Immediates<OutTable<'a>, OutClauses<'a>>;

/// An opcode and its immediates.
macro_rules! pair {
    (() $opcode:expr, $immediates:expr) => {
        ($opcode, $immediates)
    };
}

/// The opcode of an operator to be written, and the immediates that follow it.
#[inline(always)]
pub(crate) fn parts<'a>(op: &OutOp<'a>) -> (Opcode, OutImmediates<'a>)
    ensures { operation result.0 (immediates_of result.1) ≡ meaning op.now }
{
    index_rows!(
        parts_of, pair () op,
        Op::BrTable(OutTable { targets, default }) => {
            let table = OutTable { targets: *targets, default: *default };
            (Opcode::Byte(0x0e), Immediates::Table(table))
        }
        Op::TryTable { ty, catches: OutClauses { clauses } } => {
            let clauses = OutClauses { clauses: *clauses };
            (Opcode::Byte(0x1f), Immediates::Clauses(*ty, clauses))
        }
    )
}
