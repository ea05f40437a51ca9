//! Facts about functions, counted up to the limit.
use crate::by_hand::example;
use std::alloc::{AllocError, Global};
use std::hash::{BuildHasherDefault, FoldHasher};
use std::process::Abort;
use std::test::Fail;
use walrus_body::{EmitFacts, FactsVisitor, SizeVisitor, law_facts};
use walrus_ir::{FunctionBuilder, InstrSeqId, LocalId, WalkError, dfs_in_order};

// The number of instructions from a sequence on.
pub(crate) fn size(builder: &FunctionBuilder, start: InstrSeqId) -> Result<u64, WalkError> {
    let mut visitor = SizeVisitor::new();
    dfs_in_order(&mut visitor, builder, start)?;
    Ok(visitor.size)
}

// Appends the facts: the size, whether data segments are named, the functions in order, and the
// locals below 100.
fn push_facts(text: &mut String, facts: &EmitFacts) -> Result<(), AllocError> {
    write!(text, "{}", facts.size)?;
    if facts.uses_data_segments {
        write!(text, " data")?;
    }
    for func in &facts.ref_funcs {
        write!(text, " func{}", func.index())?;
    }
    for number in 0..100 {
        if facts.used_locals.contains(&LocalId::new(number)) {
            write!(text, " local{number}")?;
        }
    }
    Ok(())
}

// Appends the facts that a visitor gathers from the first sequence on, and the fault.
fn push_visited(
    text: &mut String,
    builder: &FunctionBuilder,
    visitor: &mut FactsVisitor,
) -> Result<(), AllocError> {
    let returned = dfs_in_order(visitor, builder, InstrSeqId::new(0));
    push_facts(text, &visitor.facts)?;
    match returned {
        Ok(()) => Ok(()),
        Err(error) => write!(text, " {error:?}"),
    }
}

// The same of a visitor with this size at the beginning.
fn push_gathered(
    text: &mut String,
    builder: &FunctionBuilder,
    before: u64,
) -> Result<(), AllocError> {
    let mut visitor = FactsVisitor::new(*text.allocator());
    visitor.facts.size = before;
    push_visited(text, builder, &mut visitor)
}

// Appends the result of a count that begins at a number, and the count after it.
fn push_counted(
    text: &mut String,
    builder: &FunctionBuilder,
    before: u64,
) -> Result<(), AllocError> {
    let mut visitor = SizeVisitor { size: before };
    let returned = dfs_in_order(&mut visitor, builder, InstrSeqId::new(0));
    write!(text, "{returned:?} {}", visitor.size)
}

// Checks counts, and then the facts of a visitor, from several numbers, up to the limit of 64 bits.
fn check_counts(rt: &impl Abort, alloc: Global, builder: &FunctionBuilder) -> Result<(), Fail> {
    for (before, expected) in [
        (0, "Ok(()) 23; 23"),
        (
            u64::MAX - 23,
            "Ok(()) 18446744073709551615; 18446744073709551615",
        ),
        (
            u64::MAX - 22,
            "Err(TooLarge) 18446744073709551615; 18446744073709551615 TooLarge",
        ),
    ] {
        let mut found = String::new(alloc);
        push_counted(&mut found, builder, before)?;
        found.push_str("; ")?;
        push_gathered(&mut found, builder, before)?;
        assert_eq!(rt; found.as_str(), expected);
    }
    Ok(())
}

/// The size of a tree with every kind of sequence, up to the limit of 64 bits. The law of facts can
/// be called.
#[test]
fn counts_up_to_64_bits(rt: HostRuntime) -> Result<(), Fail> {
    law_facts::<BuildHasherDefault<FoldHasher>>();
    let builder = example(rt.alloc())?;
    check_counts(&rt, rt.alloc(), &builder)
}
