//! The walk over the sequences of a function, in order.
ghost use Rattle.std.specs.Prelude.{◌≡◌, ◌⊎◌, ◌+◌, ◌≤◌, ◌<◌, [], ◌∷◌, length, slice_index, vec_len, vec_capacity};
ghost use Rattle.std.specs.Prelude.{IfOk, OnOk, IfErr, MatchResult};
ghost use Rattle.walrus_ir.specs.Events.{StartSequence, VisitInstruction, names, VisitsOne, VisitsAll, Folds, Stops};
ghost use Rattle.walrus_ir.specs.Walk.{HasNoWalk, Finishes, IsRefused, IsNotWalked};
ghost use Rattle.walrus_ir.specs.Planning.{IsOrder};
ghost use Rattle.walrus_ir.specs.Visiting.{frame, frames, started};
ghost use Rattle.walrus_ir.specs.Visiting.{IsVisitedStretch, IsRefusedStretch, IsVisitedNext, IsRefusedNext};

use crate::access::{DataDrop, MemoryInit};
use crate::aggregate::{ArrayInitData, ArrayNewData};
use crate::builder::FunctionBuilder;
use crate::error::WalkError;
use crate::instr::Instr;
use crate::location::InstrLocId;
use crate::plain::{LocalGet, LocalSet, LocalTee};
use crate::plan::{count_inside, walk_order};
use crate::seq::InstrSeq;
use crate::visitor::Visitor;
use wasm_types::InstrSeqId;

/// A sequence that has started and not ended.
#[derive(Clone, Copy)]
pub(crate) struct Open<'a> {
    seq: &'a InstrSeq,
    /// The instructions that are still to be visited.
    rest: &'a [(Instr, InstrLocId)],
    /// The number of sequences inside the last visited instruction that are still to come.
    inside: usize,
}

// Tells a visitor about the item that an instruction names, if any.
fn visit_names<V: Visitor>(visitor: &mut V, instr: &Instr) -> Result<(), V::Fault>
    ensures { VisitsAll V.steps V.refuses V.same visitor.old (names instr.now) result visitor.new }
{
    match instr {
        Instr::RefFunc(x) => visitor.visit_ref_func(x),
        Instr::LocalGet(LocalGet { local })
        | Instr::LocalSet(LocalSet { local })
        | Instr::LocalTee(LocalTee { local }) => visitor.visit_local_id(local),
        Instr::MemoryInit(MemoryInit { data_id, .. })
        | Instr::DataDrop(DataDrop { data_id })
        | Instr::ArrayNewData(ArrayNewData { data_id, .. })
        | Instr::ArrayInitData(ArrayInitData { data_id, .. }) => visitor.visit_data_id(data_id),
        _ => Ok(()),
    }
}

// Tells a visitor about an instruction, and then about the item that it names, if any.
fn visit_with_names<V: Visitor>(
    visitor: &mut V,
    located: &(Instr, InstrLocId),
) -> Result<(), V::Fault>
    ensures { VisitsAll V.steps V.refuses V.same visitor.old
        (VisitInstruction located.now.0 located.now.1 ∷ names located.now.0) result visitor.new }
{
    visitor.visit_instr(&located.0, &located.1)?;
    visit_names(visitor, &located.0)
}

// Starts a sequence.
fn start_seq<'a, V: Visitor>(
    visitor: &mut V,
    seq: &'a InstrSeq,
    stack: &mut Vec<Open<'a>>,
) -> Result<(), V::Fault>
    requires { vec_len stack.old < vec_capacity stack.old }
    ensures visited { VisitsOne V.steps V.refuses V.same visitor.old
        (StartSequence seq.now) result visitor.new }
    ensures opened { OnOk result
        (frames stack.new.items ≡ started seq.now ∷ frames stack.old.items) }
    ensures len { OnOk result (vec_len stack.new ≡ vec_len stack.old + 1) }
    ensures room { vec_capacity stack.old ≤ vec_capacity stack.new }
{
    visitor.start_instr_seq(seq)?;
    stack
        .push(Open {
            seq,
            rest: seq.instrs.as_slice(),
            inside: 0,
        })
        .unwrap();
    Ok(())
}

// Tells a visitor about instructions, up to the first that contains sequences. Returns the
// instructions after it and the number of sequences in it; the number is 0 if there is none.
fn visit_stretch<'a, V: Visitor>(
    visitor: &mut V,
    instrs: &'a [(Instr, InstrLocId)],
) -> Result<(&'a [(Instr, InstrLocId)], usize), V::Fault>
    ensures visited { MatchResult result
        (λ visited. IsVisitedStretch instrs.now visited.0.now visited.1
        (λ es. Folds V.steps visitor.old es visitor.new))
        (λ f. IsRefusedStretch instrs.now
        (λ es. Stops V.steps V.refuses V.same visitor.old es visitor.new f)) }
    ensures all { IfOk result (λ visited. visited.1 ≡ 0 → visited.0.now ≡ []) }
{
    let mut left = instrs;
    'stretch: while let Some((located, following)) = left.split_first() {
        visit_with_names(visitor, located)?;
        let inside = count_inside(&located.0);
        if inside > 0 {
            return Ok((following, inside));
        }
        left = following;
    }
    Ok((left, 0))
}

// Starts the next sequence inside the last instruction of an open one, which was popped from the
// stack. Returns the slots of the sequences after it.
fn start_inside<'a, 'b, V: Visitor>(
    visitor: &mut V,
    builder: &'a FunctionBuilder,
    top: Open<'a>,
    coming: &'b [InstrSeqId],
    stack: &mut Vec<Open<'a>>,
) -> Result<&'b [InstrSeqId], V::Fault>
    requires inside { 0 < top.inside }
    requires comes { 0 < length coming.now }
    requires known { slice_index coming.now 0 < length builder.now.sequences }
    requires room { vec_len stack.old + length coming.now < vec_capacity stack.old }
    ensures visited { MatchResult result
        (λ left. IsVisitedNext builder.now.sequences (frame top.entry) coming.now
        (frames stack.old.items) (λ es. Folds V.steps visitor.old es visitor.new)
        (frames stack.new.items) left.now)
        (λ f. IsRefusedNext builder.now.sequences (frame top.entry) coming.now
        (λ es. Stops V.steps V.refuses V.same visitor.old es visitor.new f)) }
    ensures room { IfOk result
        (λ left. vec_len stack.new + length left.now ≤ vec_capacity stack.new) }
{
    let (next, left) = coming.split_first().unwrap();
    stack
        .push(Open {
            seq: top.seq,
            rest: top.rest,
            inside: top.inside - 1,
        })
        .unwrap();
    start_seq(visitor, builder.seq(*next), stack)?;
    Ok(left)
}

// Tells a visitor about what comes next in the innermost open sequence, which was popped from the
// stack. Returns the slots of the sequences after that.
fn visit_next<'a, 'b, V: Visitor>(
    visitor: &mut V,
    builder: &'a FunctionBuilder,
    top: Open<'a>,
    coming: &'b [InstrSeqId],
    stack: &mut Vec<Open<'a>>,
) -> Result<&'b [InstrSeqId], V::Fault>
    requires comes { 0 < top.inside → 0 < length coming.now }
    requires known { 0 < top.inside → slice_index coming.now 0 < length builder.now.sequences }
    requires room { vec_len stack.old + length coming.now < vec_capacity stack.old }
    ensures visited { MatchResult result
        (λ left. IsVisitedNext builder.now.sequences (frame top.entry) coming.now
        (frames stack.old.items) (λ es. Folds V.steps visitor.old es visitor.new)
        (frames stack.new.items) left.now)
        (λ f. IsRefusedNext builder.now.sequences (frame top.entry) coming.now
        (λ es. Stops V.steps V.refuses V.same visitor.old es visitor.new f)) }
    ensures room { IfOk result
        (λ left. vec_len stack.new + length left.now ≤ vec_capacity stack.new) }
{
    if top.inside > 0 {
        return start_inside(visitor, builder, top, coming, stack);
    }
    let (rest, inside) = visit_stretch(visitor, top.rest)?;
    if inside == 0 {
        visitor.end_instr_seq(top.seq)?;
        return Ok(coming);
    }
    stack
        .push(Open {
            seq: top.seq,
            rest,
            inside,
        })
        .unwrap();
    Ok(coming)
}

// The slots of the sequences that a walk enters, and an empty stack with room for all of them.
fn plan<'a>(
    builder: &'a FunctionBuilder,
    start: InstrSeqId,
) -> Result<(Vec<InstrSeqId>, Vec<Open<'a>>), WalkError>
    ensures order { MatchResult result
        (λ p. IsOrder builder.now.sequences start p.0.items)
        (HasNoWalk builder.now.sequences start) }
    ensures empty { IfOk result (λ p. p.1.items ≡ []) }
    ensures room { IfOk result (λ p. vec_len p.0 ≤ vec_capacity p.1) }
{
    let order = walk_order(builder, start)?;
    let stack = Vec::with_capacity(builder.allocator(), order.len())?;
    Ok((order, stack))
}

/// Walks over the sequences of a function from `start` on, in order. Before the first call of the
/// visitor, the sequences are known to be a tree, and all memory that the walk itself needs is
/// allocated: a mark for each sequence of the builder, the tasks of the plan, and for each sequence
/// of the tree its slot and room on the stack of open sequences.
///
/// # Errors
///
/// If there is no tree, the first fault in walk order; if memory runs out, `WalkError::Memory`.
/// Both are converted to the visitor's fault, and the visitor was not called. Otherwise the fault
/// of the visitor's call that failed, which ends the walk.
///
/// # Example
///
/// The events of a function, noted by a visitor, as in `tests_body/src/walk.rt`:
///
/// ```text
/// let mut recorder = Recorder::new(alloc, calls);
/// dfs_in_order(&mut recorder, builder, InstrSeqId::new(0))?;
/// recorder.push_text(&mut text)?;
/// ```
pub fn dfs_in_order<V: Visitor>(
    visitor: &mut V,
    builder: &FunctionBuilder,
    start: InstrSeqId,
) -> Result<(), V::Fault>
    ensures ok { OnOk result
        (Finishes builder.now.sequences start V.steps visitor.old visitor.new) }
    ensures err { IfErr result (λ f.
        IsRefused builder.now.sequences start V.steps V.refuses V.same visitor.old visitor.new f
        ⊎ IsNotWalked builder.now.sequences start V.Fault.from_gives visitor.old visitor.new f) }
{
    let (order, mut stack) = plan(builder, start)?;
    let (first, mut coming) = order.split_first().unwrap();
    start_seq(visitor, builder.seq(*first), &mut stack)?;
    'walk: while let Some(top) = stack.pop() {
        coming = visit_next(visitor, builder, top, coming, &mut stack)?;
    }
    Ok(())
}
