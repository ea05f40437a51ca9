//! Functions that are made by hand. One of them can be written, the others can't.

use crate::bodies::arguments;
use std::alloc::{AllocError, Global};
use walrus_body::LocalFunction;
use walrus_ir::{
    Block, Br, BrTable, FunctionBuilder, Instr, InstrLocId, InstrSeq, InstrSeqId, InstrSeqType,
    LegacyCatch, LocalGet, LocalId, TagId, Try, TypeId,
};

/// What is wrong with a function.
#[derive(Clone, Copy)]
pub(crate) enum Wrong {
    /// Nothing: it can be written.
    Nothing,
    /// A sequence is inside of itself.
    Shared,
    /// A branch goes to a sequence that isn't around it.
    Outside,
    /// A clause follows the one that catches all.
    Clauses,
    /// A sequence isn't in the function.
    Unknown,
    /// A label of a `br_table` goes to a sequence that isn't around it.
    Table,
    /// It has no entry.
    NoEntry,
    /// Its entry isn't in the function.
    OtherEntry,
}

/// The rows of these functions.
pub(crate) const WRONG: [(&str, Wrong); 5] = [
    ("shared", Wrong::Shared),
    ("outside", Wrong::Outside),
    ("clauses", Wrong::Clauses),
    ("unknown", Wrong::Unknown),
    ("label", Wrong::Table),
];

/// Those without an entry.
pub(crate) const WITHOUT_ENTRY: [(&str, Wrong); 2] = [
    ("no-entry", Wrong::NoEntry),
    ("other-entry", Wrong::OtherEntry),
];

/// Clauses for a tag, after one that catches all.
fn clauses(alloc: Global) -> Result<Vec<LegacyCatch>, AllocError> {
    let first = LegacyCatch::CatchAll {
        handler: InstrSeqId::new(2),
    };
    let last = LegacyCatch::Catch {
        tag: TagId::new(0),
        handler: InstrSeqId::new(3),
    };
    Ok(vec![in alloc; first, last]?)
}

/// A table of labels. The first and the default go to the entry, the second to another sequence.
fn table(alloc: Global) -> Result<BrTable, AllocError> {
    let default = InstrSeqId::new(0);
    let blocks = vec![in alloc; default, InstrSeqId::new(1)]?;
    Ok(BrTable { blocks, default })
}

/// The last instruction.
fn last_instr(alloc: Global, wrong: Wrong) -> Result<Instr, AllocError> {
    let entry = InstrSeqId::new(0);
    let other = InstrSeqId::new(1);
    let instr = match wrong {
        Wrong::Nothing | Wrong::NoEntry | Wrong::OtherEntry => Instr::Drop,
        Wrong::Shared => Instr::Block(Block { seq: entry }),
        Wrong::Unknown => Instr::Block(Block {
            seq: InstrSeqId::new(7),
        }),
        Wrong::Table => Instr::BrTable(table(alloc)?),
        Wrong::Outside => Instr::Br(Br { block: other }),
        Wrong::Clauses => Instr::Try(Try {
            seq: other,
            catches: clauses(alloc)?,
        }),
    };
    Ok(instr)
}

/// Appends an instruction to a sequence.
fn put(sequence: &mut InstrSeq, instr: Instr, location: InstrLocId) -> Result<(), AllocError> {
    sequence.instrs.push((instr, location))?;
    Ok(())
}

/// Gives a sequence its instructions. A function without a fault drops the local 1, with locations of
/// its own. An unknown local comes before an unknown sequence, whose fault comes first.
fn put_all(alloc: Global, sequence: &mut InstrSeq, wrong: Wrong) -> Result<(), AllocError> {
    let one = InstrLocId::new(1);
    let (local, first, last) = match wrong {
        Wrong::Nothing => (Some(1), InstrLocId::new(5), InstrLocId::new(6)),
        Wrong::Unknown => (Some(99), one, one),
        _ => (None, one, one),
    };
    if let Some(local) = local {
        let local = LocalId::new(local);
        put(sequence, Instr::LocalGet(LocalGet { local }), first)?;
    }
    put(sequence, last_instr(alloc, wrong)?, last)?;
    if let Wrong::Nothing = wrong {
        sequence.end = InstrLocId::new(7);
    }
    Ok(())
}

/// Gives a function its entry and its sequences: one without a fault has one, the others have four.
/// The first has the instructions.
fn fill(alloc: Global, builder: &mut FunctionBuilder, wrong: Wrong) -> Result<(), AllocError> {
    let count = if let Wrong::Nothing = wrong { 1 } else { 4 };
    for _ in 0..count {
        builder.alloc(InstrSeqType::Simple(None))?;
    }
    let first = InstrSeqId::new(0);
    match wrong {
        Wrong::NoEntry => (),
        Wrong::OtherEntry => builder.set_entry(InstrSeqId::new(9)),
        _ => builder.set_entry(first),
    }
    if builder.has(first) {
        put_all(alloc, builder.seq_mut(first), wrong)
    } else {
        Ok(())
    }
}

/// The function that has this fault, and that wasn't read. Its argument is local 0, which it doesn't
/// use.
pub(crate) fn function(alloc: Global, wrong: Wrong) -> Result<LocalFunction, AllocError> {
    let args = arguments(alloc)?;
    let mut builder = FunctionBuilder::without_entry(alloc, TypeId::new(1));
    match fill(alloc, &mut builder, wrong) {
        Ok(()) => Ok(LocalFunction::new(args, builder)),
        Err(error) => Err(error),
    }
}
