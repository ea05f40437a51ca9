//! The parts of operators, and their equality.

use crate::branch_table::BrTable;
use crate::catch_list::CatchList;
use crate::immediates::Immediates;
use crate::operator::Op;
use crate::types::Opcode;
use crate::{index_rows, parts_of};

/// An opcode and its immediates.
macro_rules! pair {
    (() $opcode:expr, $immediates:expr) => {
        ($opcode, $immediates)
    };
}

impl<'a> Op<BrTable<'a>, CatchList<'a>> {
    ghost use Rattle.std.specs.Prelude.{◌≡◌};
    ghost use Rattle.wasm_operators.specs.Operations.{operation};
    ghost use Rattle.wasm_operators.specs.Meaning.{meaning};
    ghost use Rattle.wasm_operators.specs.Parts.{immediates_of, parts_of};

    // The operator's opcode and its immediates.
    fn taken_apart(&self) -> (Opcode, Immediates<BrTable<'a>, CatchList<'a>>)
        ensures { operation result.0 (immediates_of result.1) ≡ meaning self.now }
    {
        index_rows!(
            parts_of, pair () self,
            Op::BrTable(table) => (Opcode::Byte(0x0e), Immediates::Table(table.again())),
            Op::TryTable { ty, catches } => {
                (Opcode::Byte(0x1f), Immediates::Clauses(*ty, catches.again()))
            }
        )
    }

    /// The operator's opcode and its immediates.
    pub fn parts(&self) -> (Opcode, Immediates<BrTable<'a>, CatchList<'a>>)
        ensures means { operation result.0 (immediates_of result.1) ≡ meaning self.now }
        ensures exact { result ≡ parts_of (meaning self.now) }
    {
        self.taken_apart()
    }
}

/// Two operators are equal if their opcodes and their immediates are.
impl<'a> PartialEq for Op<BrTable<'a>, CatchList<'a>> {
    ghost use denote.Signature.{static_lft};
    ghost use Rattle.std.specs.Cmp.{on_per, and_per};
    ghost use Rattle.std.specs.Ordering.{on};
    ghost use Rattle.std.specs.Prelude.{◌&&◌};
    ghost use Rattle.wasm_operators.specs.contracts.types.OpcodePartialEq.TheImpl.Laws.{laws-law as opcode_per};
    ghost use Rattle.wasm_operators.specs.contracts.immediates.ImmediatesPartialEq.TheImpl.Laws.{laws-law as immediates_per};
    ghost use Rattle.wasm_operators.specs.contracts.branch_table.BrTable.{the_row as table_row};
    ghost use Rattle.wasm_operators.specs.contracts.branch_table.BrTablePartialEq.TheImpl.{ghosts as table_ghosts, dict as table_dict};
    ghost use Rattle.wasm_operators.specs.contracts.branch_table.BrTablePartialEq.TheImpl.Laws.{lawful as table_per};
    ghost use Rattle.wasm_operators.specs.contracts.catch_list.CatchList.{the_row as clauses_row};
    ghost use Rattle.wasm_operators.specs.contracts.catch_list.CatchListPartialEq.TheImpl.{ghosts as clauses_ghosts, dict as clauses_dict};
    ghost use Rattle.wasm_operators.specs.contracts.catch_list.CatchListPartialEq.TheImpl.Laws.{lawful as clauses_per};
    ghost use Rattle.wasm_operators.specs.Meaning.{meaning};
    ghost use Rattle.wasm_operators.specs.Parts.{parts_of};

    ghost eq = { λ a b. on (λ a. (parts_of (meaning a)).0) (⟦<Opcode as PartialEq>⟧.eq) a b && on (λ a. (parts_of (meaning a)).1) (⟦<Immediates<BrTable<'static>, CatchList<'static>> as PartialEq>⟧.eq) a b };

    ghost laws = { and_per (on_per (λ a. (parts_of (meaning a)).0) opcode_per)
        (on_per (λ a. (parts_of (meaning a)).1) (immediates_per (table_row static_lft) (clauses_row static_lft) table_ghosts table_dict clauses_ghosts clauses_dict table_per clauses_per)) };

    fn eq(&self, other: &Self) -> bool {
        let (opcode, immediates) = self.parts();
        let (other_opcode, other_immediates) = other.parts();
        opcode == other_opcode && immediates == other_immediates
    }
}

impl<'a> Eq for Op<BrTable<'a>, CatchList<'a>> {
    ghost use denote.Signature.{static_lft};
    ghost use Rattle.std.specs.Cmp.{on_equiv, and_equiv};
    ghost use Rattle.wasm_operators.specs.contracts.types.OpcodeEq.TheImpl.Laws.{laws-law as opcode_equiv};
    ghost use Rattle.wasm_operators.specs.contracts.immediates.ImmediatesEq.TheImpl.Laws.{laws-law as immediates_equiv};
    ghost use Rattle.wasm_operators.specs.contracts.branch_table.BrTable.{the_row as table_row};
    ghost use Rattle.wasm_operators.specs.contracts.branch_table.BrTablePartialEq.TheImpl.{ghosts as table_ghosts, dict as table_dict};
    ghost use Rattle.wasm_operators.specs.contracts.branch_table.BrTablePartialEq.TheImpl.Laws.{lawful as table_per};
    ghost use Rattle.wasm_operators.specs.contracts.branch_table.BrTableEq.TheImpl.{ghosts as table_eq_ghosts, dict as table_eq_dict};
    ghost use Rattle.wasm_operators.specs.contracts.branch_table.BrTableEq.TheImpl.Laws.{lawful as table_equiv};
    ghost use Rattle.wasm_operators.specs.contracts.catch_list.CatchList.{the_row as clauses_row};
    ghost use Rattle.wasm_operators.specs.contracts.catch_list.CatchListPartialEq.TheImpl.{ghosts as clauses_ghosts, dict as clauses_dict};
    ghost use Rattle.wasm_operators.specs.contracts.catch_list.CatchListPartialEq.TheImpl.Laws.{lawful as clauses_per};
    ghost use Rattle.wasm_operators.specs.contracts.catch_list.CatchListEq.TheImpl.{ghosts as clauses_eq_ghosts, dict as clauses_eq_dict};
    ghost use Rattle.wasm_operators.specs.contracts.catch_list.CatchListEq.TheImpl.Laws.{lawful as clauses_equiv};
    ghost use Rattle.wasm_operators.specs.Meaning.{meaning};
    ghost use Rattle.wasm_operators.specs.Parts.{parts_of};

    ghost laws = { and_equiv (on_equiv (λ a. (parts_of (meaning a)).0) opcode_equiv)
        (on_equiv (λ a. (parts_of (meaning a)).1) (immediates_equiv (table_row static_lft) (clauses_row static_lft) table_eq_ghosts table_eq_dict table_ghosts table_dict clauses_eq_ghosts clauses_eq_dict clauses_ghosts clauses_dict table_equiv table_per clauses_equiv clauses_per)) };
}
