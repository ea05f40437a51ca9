//! Sequences of instructions.
ghost use Rattle.std.specs.Prelude.{◌≡◌, ◌==◌, length};

use crate::instr::Instr;
use crate::location::InstrLocId;
use crate::val_type::InstrSeqType;
use std::marker::Model;
use wasm_types::InstrSeqId;

/// A sequence of instructions. Instructions refer to it by its slot in its function's builder. In a
/// contract, its instructions are a list.
#[derive(Drop)]
pub struct InstrSeq {
    pub(crate) id: InstrSeqId,
    /// The types of its operands and results.
    pub ty: InstrSeqType,
    /// Its instructions, each with its location.
    pub instrs: Vec<(Instr, InstrLocId)>,
    /// The location of its `end`, or of the `else` or legacy clause that ends it.
    pub end: InstrLocId,
}

impl Model for InstrSeq {
    ghost use Rattle.walrus_ir.specs.InstructionSequence.{InstructionSequence};

    ghost Value = { InstructionSequence };

    ghost view = { λ seq. record {
      id = seq.id;
      ty = seq.ty;
      instrs = seq.instrs.items;
      end = seq.end;
    } };
}

impl InstrSeq {
    /// The id that `FunctionBuilder::alloc` gave it. The id moves with the sequence when two are
    /// swapped, so it need not be the sequence's slot.
    pub fn id(&self) -> InstrSeqId
        ensures { result ≡ self.now.id }
    {
        self.id
    }

    /// The number of its instructions.
    pub fn len(&self) -> usize
        ensures { result ≡ length self.now.instrs }
    {
        self.instrs.len()
    }

    /// Whether it has no instructions.
    pub fn is_empty(&self) -> bool
        ensures { result ≡ (length self.now.instrs == 0) }
    {
        self.instrs.is_empty()
    }
}
