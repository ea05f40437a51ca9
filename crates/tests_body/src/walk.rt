//! Walks over functions made by hand.
use crate::by_hand::{deep, example};
use crate::facts::size;
use crate::recorder::Recorder;
use std::alloc::{AllocError, Global};
use std::process::Abort;
use std::test::Fail;
use walrus_ir::{FunctionBuilder, InstrSeqId, dfs_in_order};

// Appends the events of a walk from a sequence on, as a recorder that accepts this many calls
// notes them, and the fault.
fn push_walk(
    text: &mut String,
    builder: &FunctionBuilder,
    start: usize,
    calls: u32,
) -> Result<(), AllocError> {
    let mut recorder = Recorder::new(*text.allocator(), calls);
    let returned = dfs_in_order(&mut recorder, builder, InstrSeqId::new(start));
    recorder.push_text(text)?;
    match returned {
        Ok(()) => Ok(()),
        Err(error) => write!(text, " {error:?}"),
    }
}

// Checks the whole walk, one that the visitor refuses at its third call, and one from a sequence
// that doesn't exist.
fn check_walks(rt: &impl Abort, alloc: Global, builder: &FunctionBuilder) -> Result<(), Fail> {
    let whole = " start0 const1 drop0 block0 start1 const2 drop0 if-else0 start2 const3 drop0 end2 \
        start3 const4 drop0 end2 const5 drop0 end5 const6 drop0 try0 start4 const7 drop0 end2 \
        start5 const8 drop0 end2 start6 const9 drop0 end2 const10 drop0 end8";
    for (start, calls, expected) in [
        (0, 1000, whole),
        (0, 2, " start0 const1 TooLarge"),
        (9, 1000, " UnknownSequence"),
    ] {
        let mut found = String::new(alloc);
        push_walk(&mut found, builder, start, calls)?;
        assert_eq!(rt; found.as_str(), expected);
    }
    Ok(())
}

/// Walks over every kind of sequence.
#[test]
fn walks_in_order(rt: HostRuntime) -> Result<(), Fail> {
    let builder = example(rt.alloc())?;
    check_walks(&rt, rt.alloc(), &builder)
}

/// Neither a walk nor a count uses stack for each level.
#[test]
fn walks_a_deep_tree(rt: HostRuntime) -> Result<(), Fail> {
    let builder = deep(rt.alloc(), 100_000)?;
    let mut recorder = Recorder::new(rt.alloc(), 300_002);
    let returned = dfs_in_order(&mut recorder, &builder, InstrSeqId::new(0));
    assert_eq!(rt; returned, Ok(()));
    assert_eq!(rt; recorder.calls_left, 0);
    assert_eq!(rt; size(&builder, InstrSeqId::new(0)), Ok(100_000));
    Ok(())
}
