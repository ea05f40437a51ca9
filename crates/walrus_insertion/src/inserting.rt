//! Instructions inserted into a function.
ghost use Rattle.std.specs.Prelude.{◌≡◌, OnOk};
ghost use Rattle.walrus_insertion.specs.InsertedInstructions.{IsPushed, IsInsertedInto, IsInsertedOrPassed, IsInserted, IsEdited, AreEdited, TreesAreEdited};

use crate::kinds::{kind_at, reached_kinds};
use crate::merging::merge;
use crate::place::Place;
use crate::probe::Probe;
use crate::script::Script;
use std::alloc::{AllocError, Global};
use walrus_ir::{BlockKind, FunctionBuilder, Instr, InstrSeq, InstrSeqId};

/// Inserts instructions into a sequence.
fn insert_into<F: FnMut(&Place<'_>, &mut Probe) -> Result<(), AllocError>>(
    alloc: Global,
    kind: BlockKind,
    seq: &mut InstrSeq,
    caller: &mut F,
    script: &mut Script,
) -> Result<(), AllocError>
    requires { F.IsAlwaysCallable caller.old }
    ensures inserted { OnOk result (IsInsertedInto (IsPushed F.step) caller.old seq.old seq.new
        caller.new) }
    ensures edited { IsEdited seq.old seq.new }
    ensures callable { F.IsAlwaysCallable caller.new }
{
    script.ask_each(kind, seq.instrs.as_slice(), caller)?;
    merge(alloc, seq, &script.edits)?;
    Ok(())
}

/// Inserts instructions into a sequence, if this is its role; else it is passed over.
fn visit<F: FnMut(&Place<'_>, &mut Probe) -> Result<(), AllocError>>(
    alloc: Global,
    kind: Option<BlockKind>,
    seq: &mut InstrSeq,
    caller: &mut F,
    script: &mut Script,
) -> Result<(), AllocError>
    requires { F.IsAlwaysCallable caller.old }
    ensures inserted { OnOk result (IsInsertedOrPassed (IsPushed F.step) caller.old seq.old seq.new
        caller.new) }
    ensures edited { IsEdited seq.old seq.new }
    ensures callable { F.IsAlwaysCallable caller.new }
{
    match kind {
        Some(kind) => insert_into(alloc, kind, seq, caller, script),
        None => Ok(()),
    }
}

/// Inserts instructions into a function. The closure is called once for each place: the start of a
/// sequence, the places between two instructions, and the end, which is also the start if there is no
/// instruction. It is called for the sequences that are reached from the entry, by their slots, and for
/// the places of a sequence one after the other. The sequences of a parsed function have their slots
/// in the order in which they begin in the text. There is no place after an instruction that never goes on, as `br` or `return`.
/// What the closure pushes is inserted there, with the default location. All else stays: the
/// sequences, with their ids, types and ends, and the instructions between which is inserted, with
/// their locations. The time is that of the calls, and proportional to the instructions.
///
/// # Errors
///
/// Out of memory, or what the closure returns. Each sequence is then as it was, or has all that was
/// pushed for it.
///
/// # Example
///
/// A call before each `memory.grow`:
///
/// ```text
/// insert(function.builder_mut(), |place: &Place<'_>, probe: &mut Probe| {
///     match place.next() {
///         Some(Instr::MemoryGrow(_)) => probe.call(hook),
///         _ => Ok(()),
///     }
/// })?;
/// ```
pub fn insert<F: FnMut(&Place<'_>, &mut Probe) -> Result<(), AllocError>>(
    builder: &mut FunctionBuilder,
    mut caller: F,
) -> Result<(), AllocError>
    requires { F.IsAlwaysCallable caller }
    // The closure pushes what is inserted.
    ensures inserted { OnOk result ((last : F) × IsInserted (IsPushed F.step) caller builder.old
        builder.new last) }
    // Each sequence is the old one with instructions inserted, and so is each tree of a body.
    ensures edited { AreEdited builder.old builder.new }
    ensures trees { TreesAreEdited builder.old.sequences builder.new.sequences }
{
    let alloc = builder.allocator();
    let kinds = reached_kinds(builder)?;
    let mut script = Script::new(alloc);
    for slot in 0..builder.count() {
        let kind = kind_at(&kinds, slot);
        let seq = builder.seq_mut(InstrSeqId::new(slot));
        visit(alloc, kind, seq, &mut caller, &mut script)?;
    }
    Ok(())
}

/// Inserts what a closure pushes before each instruction for which a test holds, as `insert` does.
///
/// # Errors
///
/// Out of memory, or what the closure returns. Each sequence is then as it was, or has all that was
/// pushed for it.
///
/// # Example
///
/// ```text
/// let grows = |instr: &Instr| matches!(instr, Instr::MemoryGrow(_));
/// insert_before(function.builder_mut(), grows, |probe: &mut Probe| probe.call(hook))?;
/// ```
pub fn insert_before<T: Fn(&Instr) -> bool, P: Fn(&mut Probe) -> Result<(), AllocError>>(
    builder: &mut FunctionBuilder,
    test: T,
    push: P,
) -> Result<(), AllocError>
    requires test { T.IsAlwaysCallable test }
    requires push { P.IsAlwaysCallable push }
    // Each sequence is the old one with instructions inserted, and so is each tree of a body.
    ensures edited { AreEdited builder.old builder.new }
    ensures trees { TreesAreEdited builder.old.sequences builder.new.sequences }
{
    insert(builder, |place: &Place<'_>, probe: &mut Probe| {
        match place.next() {
            Some(instr) if test(instr) => push(probe),
            _ => Ok(()),
        }
    })
}
