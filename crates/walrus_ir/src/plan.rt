//! The plan of a walk: the sequences that it enters, in order, if they are a tree.
ghost use Rattle.std.specs.Prelude.{◌≡◌, ◌⊎◌, ◌+◌, ◌*◌, [], length, OnOk, MatchOption, MatchResult, vec_len};
ghost use Rattle.walrus_ir.specs.Unfolding.{handlers, slots_in, slots_in_all};
ghost use Rattle.walrus_ir.specs.Walk.{HasNoWalk};
ghost use Rattle.walrus_ir.specs.Planning.{work_of, work_of_all, Adds, IsRefusedAt, IsReached};
ghost use Rattle.walrus_ir.specs.Planning.{IsEntered, IsDone, IsNotDone, IsOrder, IsNextHolder};
ghost use Rattle.walrus_ir.specs.declared.error.WalkError.TheVariants.{Memory};

use crate::builder::FunctionBuilder;
use crate::control::LegacyCatch;
use crate::error::WalkError;
use crate::instr::Instr;
use crate::location::InstrLocId;
use crate::seq::InstrSeq;
use std::alloc::AllocError;
use wasm_types::InstrSeqId;

/// A part of a function that is still to be processed.
#[derive(Clone, Copy)]
pub(crate) enum Task<'a> {
    /// The sequence at this slot.
    Enter(usize),
    /// These instructions of a sequence.
    Resume(&'a [(Instr, InstrLocId)]),
    /// These clauses of a legacy `try`.
    Clauses(&'a [LegacyCatch]),
}

/// A plan while it is being made.
#[derive(Drop)]
pub(crate) struct Plan<'a> {
    /// Whether a sequence was reached, by its slot.
    reached: Vec<bool>,
    /// The sequences that were reached, in walk order.
    order: Vec<InstrSeqId>,
    /// The parts that are still to be processed; the next one is the last.
    tasks: Vec<Task<'a>>,
}

// The number of clauses of a legacy `try` that have a handler.
fn count_handlers(clauses: &[LegacyCatch]) -> usize
    ensures { result ≡ length (handlers clauses.now) }
{
    clauses
        .iter()
        .filter(|clause| !matches!(clause, LegacyCatch::Delegate { .. }))
        .count()
}

/// The number of sequences inside an instruction.
#[inline(always)]
pub(crate) fn count_inside(instr: &Instr) -> usize
    ensures { result ≡ length (slots_in instr.now) }
{
    match instr {
        Instr::Block(_) | Instr::Loop(_) | Instr::TryTable(_) => 1,
        Instr::IfElse(_) => 2,
        Instr::Try(x) => 1 + count_handlers(&x.catches),
        _ => 0,
    }
}

// The first instruction that contains sequences, and the instructions after it.
fn next_holder(instrs: &[(Instr, InstrLocId)]) -> Option<(&Instr, &[(Instr, InstrLocId)])>
    ensures { MatchOption result (slots_in_all instrs.now ≡ [])
        (λ found. IsNextHolder instrs.now found.0.now found.1.now) }
{
    let mut left = instrs;
    'plain: while let Some((located, following)) = left.split_first() {
        if count_inside(&located.0) > 0 {
            return Some((&located.0, following));
        }
        left = following;
    }
    None
}

// Pushes tasks for the sequences inside an instruction, the first on top.
fn push_inside<'a>(tasks: &mut Vec<Task<'a>>, instr: &'a Instr) -> Result<(), AllocError>
    ensures { OnOk result
        (Adds tasks.old.items tasks.new.items (slots_in instr.now) (work_of instr.now)) }
{
    match instr {
        Instr::Block(x) => tasks.push(Task::Enter(x.seq.index()))?,
        Instr::Loop(x) => tasks.push(Task::Enter(x.seq.index()))?,
        Instr::IfElse(x) => {
            tasks.push(Task::Enter(x.alternative.index()))?;
            tasks.push(Task::Enter(x.consequent.index()))?;
        }
        Instr::TryTable(x) => tasks.push(Task::Enter(x.seq.index()))?,
        Instr::Try(x) => {
            tasks.push(Task::Clauses(x.catches.as_slice()))?;
            tasks.push(Task::Enter(x.seq.index()))?;
        }
        _ => {}
    }
    Ok(())
}

// Continues a sequence with these instructions.
fn resume<'a>(
    tasks: &mut Vec<Task<'a>>,
    instrs: &'a [(Instr, InstrLocId)],
) -> Result<(), AllocError>
    ensures { OnOk result
        (Adds tasks.old.items tasks.new.items (slots_in_all instrs.now) (work_of_all instrs.now)) }
{
    if let Some((holder, following)) = next_holder(instrs) {
        tasks.push(Task::Resume(following))?;
        push_inside(tasks, holder)?;
    }
    Ok(())
}

// Continues a legacy `try` with these clauses.
fn handle<'a>(tasks: &mut Vec<Task<'a>>, clauses: &'a [LegacyCatch]) -> Result<(), AllocError>
    ensures { OnOk result
        (Adds tasks.old.items tasks.new.items (handlers clauses.now) (2 * length clauses.now)) }
{
    if let Some((first, others)) = clauses.split_first() {
        tasks.push(Task::Clauses(others))?;
        match first {
            LegacyCatch::Catch { handler, .. } => tasks.push(Task::Enter(handler.index()))?,
            LegacyCatch::CatchAll { handler } => tasks.push(Task::Enter(handler.index()))?,
            LegacyCatch::Delegate { .. } => {}
        }
    }
    Ok(())
}

// Marks the sequence at a slot and returns it, if the builder has it and it was not reached before.
fn reach<'a>(
    reached: &mut Vec<bool>,
    builder: &'a FunctionBuilder,
    slot: usize,
) -> Result<&'a InstrSeq, WalkError>
    requires { vec_len reached.old ≡ length builder.now.sequences }
    ensures { MatchResult result
        (λ seq. IsReached builder.now.sequences slot seq.now reached.old.items reached.new.items)
        (IsRefusedAt builder.now.sequences reached.old.items slot) }
{
    let id = InstrSeqId::new(slot);
    if !builder.has(id) {
        return Err(WalkError::UnknownSequence);
    }
    if reached[slot] {
        return Err(WalkError::SharedSequence);
    }
    reached[slot] = true;
    Ok(builder.seq(id))
}

impl<'a> Plan<'a> {
    // Enters the sequence at a slot.
    fn enter(&mut self, builder: &'a FunctionBuilder, slot: usize) -> Result<(), WalkError>
        requires { vec_len self.old.reached ≡ length builder.now.sequences }
        ensures { MatchResult result
            (λ _. IsEntered builder.now.sequences slot self.old self.new)
            (λ e. (e ≡ Memory) ⊎ IsRefusedAt builder.now.sequences self.old.reached.items slot e) }
    {
        let seq = reach(&mut self.reached, builder, slot)?;
        self.order.push(InstrSeqId::new(slot))?;
        self.tasks.push(Task::Resume(seq.instrs.as_slice()))?;
        Ok(())
    }

    // Does one task, which was popped from the stack.
    fn advance(&mut self, builder: &'a FunctionBuilder, task: Task<'a>) -> Result<(), WalkError>
        requires { vec_len self.old.reached ≡ length builder.now.sequences }
        ensures { MatchResult result
            (λ _. IsDone builder.now.sequences task.entry self.old self.new)
            (λ e. (e ≡ Memory)
            ⊎ IsNotDone builder.now.sequences self.old.reached.items task.entry e) }
    {
        match task {
            Task::Enter(slot) => self.enter(builder, slot)?,
            Task::Resume(instrs) => resume(&mut self.tasks, instrs)?,
            Task::Clauses(clauses) => handle(&mut self.tasks, clauses)?,
        }
        Ok(())
    }
}

/// The slots of the sequences that a walk from `start` enters, in order, if they are a tree.
/// Besides the result, it allocates one mark for each sequence of the builder, and space for the
/// parts that are still to be processed.
pub(crate) fn walk_order(
    builder: &FunctionBuilder,
    start: InstrSeqId,
) -> Result<Vec<InstrSeqId>, WalkError>
    ensures { MatchResult result
        (λ order. IsOrder builder.now.sequences start order.items)
        (HasNoWalk builder.now.sequences start) }
{
    let alloc = builder.allocator();
    let reached = vec![in alloc; false; builder.count()]?;
    let order = Vec::new(alloc);
    let mut tasks = Vec::new(alloc);
    tasks.push(Task::Enter(start.index()))?;
    let mut plan = Plan {
        reached,
        order,
        tasks,
    };
    'walk: while let Some(task) = plan.tasks.pop() {
        plan.advance(builder, task)?;
    }
    let Plan { order, .. } = plan;
    Ok(order)
}
