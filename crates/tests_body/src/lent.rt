//! A sequence borrowed from a builder, changed through its public fields.
ghost use Rattle.std.specs.Prelude.{◌≡◌, ◌<◌, ◌∷◌, ◌++◌, [], length, OnOk, slice_get, Some};
ghost use Rattle.walrus_ir.specs.declared.seq.InstrSeq.{InstrSeq as Sequence};
ghost use Rattle.walrus_ir.specs.Function.{with_sequence};

use std::alloc::AllocError;
use walrus_ir::{FunctionBuilder, Instr, InstrLocId, InstrSeqId};

/// Appends an instruction to a sequence.
pub fn append(
    builder: &mut FunctionBuilder,
    id: InstrSeqId,
    instr: Instr,
    location: InstrLocId,
) -> Result<(), AllocError>
    requires { id < length builder.old.sequences }
    ensures { OnOk result ((was : Sequence) → slice_get builder.old.sequences id ≡ Some was
        → builder.new ≡ with_sequence builder.old id
        (record was { instrs = was.instrs ++ (instr, location) ∷ [] })) }
{
    builder.seq_mut(id).instrs.push((instr, location))?;
    Ok(())
}
