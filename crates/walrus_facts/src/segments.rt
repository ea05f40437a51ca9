//! The data segments that a function uses.
ghost use Rattle.std.specs.Prelude.{◌≡◌, ◌==◌, ℕ, false, IfOk, IfErr};
ghost use Rattle.std.specs.HashSet.{contains};
ghost use Rattle.walrus_ir.specs.Unfolding.{among};
ghost use Rattle.walrus_ir.specs.Walk.{HasNoWalk};
ghost use Rattle.walrus_facts.specs.Facts.{segments, TreeHas};

use std::alloc::Global;
use walrus_ir::{
    DataId, FunctionBuilder, IdHashSet, Instr, InstrLocId, InstrSeq, InstrSeqId, LocalId, RefFunc,
    Visitor, WalkError, dfs_in_order,
};

/// Collects the data segments that the visited instructions name.
#[derive(Drop)]
pub struct DataSegmentsVisitor {
    /// The data segments named so far.
    pub segments: IdHashSet<DataId>,
}

impl DataSegmentsVisitor {
    /// A visitor that has visited no instruction. Allocates nothing.
    pub fn new(alloc: Global) -> DataSegmentsVisitor
        ensures { (d : ℕ) → contains (λ x y. x == y) result.segments d ≡ false }
    {
        DataSegmentsVisitor {
            segments: IdHashSet::new(alloc),
        }
    }
}

/// Refuses a data segment with `WalkError::Memory` if memory runs out. Refuses nothing else.
impl Visitor for DataSegmentsVisitor {
    type Fault = WalkError;

    ghost use Rattle.walrus_facts.specs.Segments.{Collects, IsOutOfMemoryAt, HoldsSame};

    ghost steps = { Collects };

    ghost refuses = { IsOutOfMemoryAt };

    ghost same = { HoldsSame };

    ghost use Rattle.std.proofs.Common.{refl, sym, ◌∙◌};
    ghost use Rattle.walrus_facts.specs.Segments.{collect_alike, memory_alike};

    ghost reflexive = { λ s d. refl };

    ghost symmetric = { λ s t h d. sym (h d) };

    ghost transitive = { λ s t u h k d. k d ∙ h d };

    ghost steps_alike = { collect_alike };

    ghost refuses_alike = { memory_alike };

    fn start_instr_seq(&mut self, _seq: &InstrSeq) -> Result<(), WalkError> {
        Ok(())
    }

    fn end_instr_seq(&mut self, _seq: &InstrSeq) -> Result<(), WalkError> {
        Ok(())
    }

    fn visit_instr(&mut self, _instr: &Instr, _loc: &InstrLocId) -> Result<(), WalkError> {
        Ok(())
    }

    fn visit_data_id(&mut self, data_id: &DataId) -> Result<(), WalkError> {
        self.segments.insert(*data_id)?;
        Ok(())
    }

    fn visit_local_id(&mut self, _local: &LocalId) -> Result<(), WalkError> {
        Ok(())
    }

    fn visit_ref_func(&mut self, _instr: &RefFunc) -> Result<(), WalkError> {
        Ok(())
    }
}

/// The data segments that the instructions in the sequence `start` and in those inside of it name:
/// those of `memory.init`, `data.drop`, `array.new_data` and `array.init_data`.
///
/// # Errors
///
/// `WalkError::UnknownSequence` or `WalkError::SharedSequence` if the sequences are not a tree: the
/// first fault in walk order. `WalkError::Memory` if memory runs out.
pub fn used_data_segments(
    builder: &FunctionBuilder,
    start: InstrSeqId,
) -> Result<IdHashSet<DataId>, WalkError>
    ensures ok { IfOk result (λ found. TreeHas builder.now.sequences start
        (λ t. (d : ℕ) → contains (λ x y. x == y) found d ≡ among d (segments t.items))) }
    ensures err { IfErr result (HasNoWalk builder.now.sequences start) }
{
    let mut visitor = DataSegmentsVisitor::new(builder.allocator());
    dfs_in_order(&mut visitor, builder, start)?;
    let DataSegmentsVisitor { segments } = visitor;
    Ok(segments)
}
