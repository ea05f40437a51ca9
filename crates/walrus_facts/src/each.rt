//! Something done with each instruction of a function, in walk order.
ghost use Rattle.std.specs.Prelude.{IfOk, IfErr};
ghost use Rattle.std.specs.List.{FoldsTo};
ghost use Rattle.walrus_ir.specs.Walk.{HasNoWalk};
ghost use Rattle.walrus_facts.specs.Facts.{instructions, TreeHas};

use std::marker::Model;
use walrus_ir::{
    DataId, FunctionBuilder, Instr, InstrLocId, InstrSeq, InstrSeqId, LocalId, RefFunc, Visitor,
    WalkError, dfs_in_order,
};

/// What is done with each instruction. An implementation may say what that is: `visits s x t` holds
/// if in state `s` the instruction and location `x` may be visited, and the state is then `t`. One
/// that leaves it out says nothing, and has nothing to prove.
pub trait VisitInstr {
    ghost use Rattle.walrus_ir.specs.Unfolding.{LocatedInstr};

    ghost visits: { Self → LocatedInstr → Self → Type 0 } = { λ _ _ _. Unit {0} };

    /// Visits an instruction.
    fn visit(&mut self, instr: &Instr, location: InstrLocId)
        ensures { visits self.old (instr.now, location) self.new };
}

/// A visitor that visits instructions only. In a contract, it is what visits them.
#[derive(Drop)]
struct Visiting<V> {
    visitor: V,
}

impl<V> Model for Visiting<V> {
    ghost Value = { V };

    ghost view = { λ v. v.visitor };
}

/// Refuses nothing.
impl<V: VisitInstr> Visitor for Visiting<V> {
    type Fault = WalkError;

    ghost use Rattle.std.proofs.Common.{refl, sym, ◌∙◌};
    ghost use Rattle.walrus_ir.specs.Sameness.{equal_steps_alike, equal_refusals_alike};
    ghost use Rattle.walrus_facts.specs.Each.{Sees, RefusesNone};

    ghost steps = { Sees V.visits };

    ghost refuses = { RefusesNone };

    ghost reflexive = { λ s. refl };

    ghost symmetric = { λ s t. sym };

    ghost transitive = { λ s t u h k. h ∙ k };

    ghost steps_alike = { equal_steps_alike (Sees V.visits) };

    ghost refuses_alike = { equal_refusals_alike RefusesNone };

    fn start_instr_seq(&mut self, _seq: &InstrSeq) -> Result<(), WalkError> {
        Ok(())
    }

    fn end_instr_seq(&mut self, _seq: &InstrSeq) -> Result<(), WalkError> {
        Ok(())
    }

    fn visit_instr(&mut self, instr: &Instr, loc: &InstrLocId) -> Result<(), WalkError> {
        self.visitor.visit(instr, *loc);
        Ok(())
    }

    fn visit_data_id(&mut self, _data_id: &DataId) -> Result<(), WalkError> {
        Ok(())
    }

    fn visit_local_id(&mut self, _local: &LocalId) -> Result<(), WalkError> {
        Ok(())
    }

    fn visit_ref_func(&mut self, _instr: &RefFunc) -> Result<(), WalkError> {
        Ok(())
    }
}

/// Visits each instruction in the sequence `start` and in those inside of it, in walk order, and
/// returns the visitor. The function is unchanged. The visits are steps of `visits`, one for each
/// instruction with its location.
///
/// # Errors
///
/// `WalkError::UnknownSequence` or `WalkError::SharedSequence` if the sequences are not a tree: the
/// first fault in walk order. `WalkError::Memory` if memory runs out. Nothing was visited then.
///
/// # Example
///
/// The number of calls in a function:
///
/// ```text
/// #[derive(Drop)]
/// struct Calls(u32);
///
/// impl VisitInstr for Calls {
///     fn visit(&mut self, instr: &Instr, _location: InstrLocId) {
///         if let Instr::Call(_) = instr {
///             self.0 = self.0.saturating_add(1);
///         }
///     }
/// }
///
/// if function.has_entry() {
///     let Calls(number) = for_each_instr(function.builder(), function.entry_block(), Calls(0))?;
/// }
/// ```
pub fn for_each_instr<V: VisitInstr + Drop>(
    builder: &FunctionBuilder,
    start: InstrSeqId,
    visitor: V,
) -> Result<V, WalkError>
    ensures ok { IfOk result (λ last. TreeHas builder.now.sequences start
        (λ t. FoldsTo V.visits visitor (instructions t.items) last)) }
    ensures err { IfErr result (HasNoWalk builder.now.sequences start) }
{
    let mut visiting = Visiting { visitor };
    dfs_in_order(&mut visiting, builder, start)?;
    let Visiting { visitor } = visiting;
    Ok(visitor)
}
