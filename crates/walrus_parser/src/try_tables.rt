//! `try_table`, and its clauses.
ghost use Rattle.std.specs.Prelude.{◌≡◌, ◌⊎◌, [], ◌∷◌, map, IfOk, IfErr, OnOk, Ok, Err};
ghost use Rattle.wasm_numbers.specs.Results.{each, Gives};
ghost use Rattle.wasm_operators.specs.declared.types.Opcode.TheVariants.{Byte};
ghost use Rattle.wasm_operators.specs.Operations.{operation, block, clauses};
ghost use Rattle.wasm_body.specs.declared.error.ParseError.{ParseError as ParseFault};
ghost use Rattle.wasm_body.specs.InstructionTable.{table_clause};
ghost use Rattle.walrus_parser.specs.BodyParsers.{IsSameBody, ParsesStep, clause_in};

use crate::body_parser::BodyParser;
use walrus_context::push_or_fail;
use walrus_from_operators::branch_target;
use walrus_ir::{BlockKind, Instr, InstrLocId, InstrSeqId, TagId, TryTable, TryTableCatch};
use wasm_body::ParseError;
use wasm_ops::{BlockType, CatchList, RawCatch};

/// A clause for the exceptions of a tag, or for all, that branches to a sequence.
fn table_clause(tag: Option<TagId>, by_reference: bool, label: InstrSeqId) -> TryTableCatch
    ensures { table_clause result
        ≡ record { by_reference = by_reference; tag = tag; label = label } }
{
    match (tag, by_reference) {
        (Some(tag), false) => TryTableCatch::Catch { tag, label },
        (Some(tag), true) => TryTableCatch::CatchRef { tag, label },
        (None, false) => TryTableCatch::CatchAll { label },
        (None, true) => TryTableCatch::CatchAllRef { label },
    }
}

impl BodyParser<'_> {
    /// A clause with the id of its tag, if it has one, and the sequence that its label names.
    fn clause(&self, clause: RawCatch) -> Result<TryTableCatch, ParseError>
        ensures { Gives table_clause result (clause_in self.now clause) }
    {
        let tag = match clause.tag {
            Some(index) => Some(self.context.indices().get_tag(index)?),
            None => None,
        };
        match branch_target(&self.context, clause.label) {
            Ok(label) => Ok(table_clause(tag, clause.by_reference, label)),
            Err(error) => Err(error),
        }
    }

    /// The clauses of a `try_table`.
    fn clauses(&self, catches: &CatchList<'_>) -> Result<Vec<TryTableCatch>, ParseError>
        ensures ok { IfOk result (λ made.
            each (clause_in self.now) catches.now ≡ Ok (map table_clause made.items)) }
        ensures err { IfErr result (λ e. (e ≡ ParseFault.Memory)
            ⊎ (each (clause_in self.now) catches.now ≡ Err e)) }
    {
        let mut made = Vec::new(*self.if_else.allocator());
        let mut raw = catches.iter();
        'clauses: while let Some(clause) = raw.next() {
            let clause = match self.clause(clause) {
                Ok(clause) => clause,
                Err(error) => return Err(error),
            };
            match push_or_fail(&mut made, clause) {
                Ok(()) => {}
                Err(error) => return Err(error),
            }
        }
        Ok(made)
    }

    /// Takes a `try_table`. The labels of its clauses count from outside it.
    pub fn open_try_table(
        &mut self,
        ty: BlockType,
        catches: &CatchList<'_>,
        location: InstrLocId,
    ) -> Result<(), ParseError>
        ensures step { ParsesStep self.old self.new
            (operation (Byte 0x1f) (block ty ∷ clauses catches.now ∷ [])) location result }
        ensures rest { OnOk result (IsSameBody self.old.context self.new.context) }
    {
        match self.context.has_block_type(ty) {
            Ok(()) => {}
            Err(error) => return Err(error),
        }
        let catches = match self.clauses(catches) {
            Ok(catches) => catches,
            Err(error) => return Err(error),
        };
        match self.context.push_block(BlockKind::TryTable, ty) {
            Ok(seq) => {
                let instr = Instr::TryTable(TryTable { seq, catches });
                self.context.alloc_instr_in_control(1, instr, location)
            }
            Err(error) => Err(error),
        }
    }
}
