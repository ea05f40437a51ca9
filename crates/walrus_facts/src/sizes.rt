//! The number of instructions of a function.
ghost use Rattle.std.specs.Prelude.{◌≡◌, ◌⊎◌, IfOk, IfErr};
ghost use Rattle.walrus_ir.specs.Walk.{HasNoWalk};
ghost use Rattle.walrus_facts.specs.Facts.{count, TreeHas};
ghost use Rattle.walrus_facts.specs.Sizes.{IsTooLarge};

use walrus_ir::{
    DataId, FunctionBuilder, Instr, InstrLocId, InstrSeq, InstrSeqId, LocalId, RefFunc, Visitor,
    WalkError, dfs_in_order,
};

/// Counts the instructions that it visits.
#[derive(Drop)]
pub struct SizeVisitor {
    /// The number of instructions visited so far.
    pub size: u64,
}

impl SizeVisitor {
    /// A visitor that has visited no instruction. Allocates nothing.
    pub fn new() -> SizeVisitor
        ensures { result.size ≡ 0 }
    {
        SizeVisitor { size: 0 }
    }
}

/// Refuses an instruction with `WalkError::TooLarge` if the count would pass `u64::MAX`. Refuses
/// nothing else.
impl Visitor for SizeVisitor {
    type Fault = WalkError;

    ghost use Rattle.walrus_facts.specs.Sizes.{Counts, Overflows};

    ghost steps = { Counts };

    ghost refuses = { Overflows };

    ghost use Rattle.std.proofs.Common.{refl, sym, ◌∙◌};
    ghost use Rattle.walrus_ir.specs.Sameness.{equal_steps_alike, equal_refusals_alike};

    ghost reflexive = { λ s. refl };

    ghost symmetric = { λ s t. sym };

    ghost transitive = { λ s t u h k. h ∙ k };

    ghost steps_alike = { equal_steps_alike Counts };

    ghost refuses_alike = { equal_refusals_alike Overflows };

    fn start_instr_seq(&mut self, _seq: &InstrSeq) -> Result<(), WalkError> {
        Ok(())
    }

    fn end_instr_seq(&mut self, _seq: &InstrSeq) -> Result<(), WalkError> {
        Ok(())
    }

    fn visit_instr(&mut self, _instr: &Instr, _loc: &InstrLocId) -> Result<(), WalkError> {
        match self.size.checked_add(1) {
            Some(size) => {
                self.size = size;
                Ok(())
            }
            None => Err(WalkError::TooLarge),
        }
    }

    fn visit_data_id(&mut self, _data_id: &DataId) -> Result<(), WalkError> {
        Ok(())
    }

    fn visit_local_id(&mut self, _local: &LocalId) -> Result<(), WalkError> {
        Ok(())
    }

    fn visit_ref_func(&mut self, _instr: &RefFunc) -> Result<(), WalkError> {
        Ok(())
    }
}

/// The number of instructions in the sequence `start` and in those inside of it.
///
/// # Errors
///
/// `WalkError::UnknownSequence` or `WalkError::SharedSequence` if the sequences are not a tree: the
/// first fault in walk order. `WalkError::TooLarge` if the number doesn't fit 64 bits.
/// `WalkError::Memory` if memory runs out.
pub fn size(builder: &FunctionBuilder, start: InstrSeqId) -> Result<u64, WalkError>
    ensures ok { IfOk result (λ n. TreeHas builder.now.sequences start (λ t. n ≡ count t.items)) }
    ensures err { IfErr result (λ e. HasNoWalk builder.now.sequences start e
        ⊎ IsTooLarge builder.now.sequences start e) }
{
    let mut visitor = SizeVisitor::new();
    dfs_in_order(&mut visitor, builder, start)?;
    Ok(visitor.size)
}
