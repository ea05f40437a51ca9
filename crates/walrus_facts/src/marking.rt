//! Gathering the facts of a function's body, with marks in front of the set of its locals.
ghost use Rattle.std.specs.Prelude.{◌≡◌, ◌⊎◌, ◌&&◌, ◌||◌, ◌==◌, ◌<◌, ◌-◌, ◌^◌, ℕ, not, vec_len, IfOk, IfErr};
ghost use Rattle.std.specs.Bool.{OnTrue, OnFalse};
ghost use Rattle.walrus_ir.specs.Walk.{HasNoWalk};
ghost use Rattle.walrus_facts.specs.Facts.{AreFacts, TreeHas};
ghost use Rattle.walrus_facts.specs.Marking.{is_marked, AreUsed};
ghost use Rattle.walrus_facts.specs.Sizes.{IsTooLarge};

use crate::facts::{EmitFacts, FactsVisitor};
use crate::scanning::facts_at_once;
use walrus_ir::{
    DataId, FunctionBuilder, Instr, InstrLocId, InstrSeq, InstrSeqId, LocalId, RefFunc, Visitor,
    WalkError, dfs_in_order,
};

/// How many ids can be marked.
const MARKS: usize = 1 << 12;

/// Whether an id is marked: one that has no mark isn't.
#[inline(always)]
pub fn is_marked(marks: &[bool], id: usize) -> bool
    ensures { result ≡ is_marked marks.now id }
{
    marks.get(id).copied().unwrap_or(false)
}

/// Makes a mark for each id up to this one, not set, where there is none. Returns whether there is
/// one for this id: not if memory ran out.
fn reach(marks: &mut Vec<bool>, id: usize) -> bool
    requires { id < 2 ^ 64 - 1 }
    ensures has { OnTrue result (id < vec_len marks.new) }
    ensures unchanged { (other : ℕ)
        → is_marked marks.new.items other ≡ is_marked marks.old.items other }
{
    if id < marks.len() {
        return true;
    }
    match marks.resize(id + 1, false) {
        Ok(()) => true,
        Err(_) => false,
    }
}

/// Marks an id below `most`, and returns whether it did: not if the id isn't below it, or memory ran
/// out. No other id is marked by it.
pub fn mark_below(marks: &mut Vec<bool>, id: usize, most: usize) -> bool
    ensures below { OnTrue result (id < most) }
    ensures marked { OnTrue result ((other : ℕ) → is_marked marks.new.items other
        ≡ ((other == id) || is_marked marks.old.items other)) }
    ensures unchanged { OnFalse result ((other : ℕ)
        → is_marked marks.new.items other ≡ is_marked marks.old.items other) }
{
    if id >= most || !reach(marks, id) {
        return false;
    }
    marks[id] = true;
    true
}

/// Marks an id, and returns whether it did: not if the id is too great, or memory ran out. No other
/// id is marked by it.
pub fn mark(marks: &mut Vec<bool>, id: usize) -> bool
    ensures marked { OnTrue result ((other : ℕ) → is_marked marks.new.items other
        ≡ ((other == id) || is_marked marks.old.items other)) }
    ensures unchanged { OnFalse result ((other : ℕ)
        → is_marked marks.new.items other ≡ is_marked marks.old.items other) }
{
    mark_below(marks, id, MARKS)
}

/// Takes away the mark of an id, if it has one.
pub fn unmark(marks: &mut Vec<bool>, id: usize)
    ensures { (other : ℕ) → is_marked marks.new.items other
        ≡ (is_marked marks.old.items other && not (other == id)) }
{
    if id < marks.len() {
        marks[id] = false;
    }
}

/// Gathers facts as `FactsVisitor`, and marks the locals with small ids that it has, so that each
/// is put into the set once.
#[derive(Drop)]
struct MarkingVisitor {
    inner: FactsVisitor,
    /// By id.
    marks: Vec<bool>,
    ghost are_used: { AreUsed marks.items inner.facts },
}

impl Visitor for MarkingVisitor {
    type Fault = WalkError;

    ghost use Rattle.walrus_facts.specs.Gathering.{Gathers, Declines, HoldsSameFacts};

    ghost steps = { λ s e t. Gathers s.inner e t.inner };

    ghost refuses = { λ s e f. Declines s.inner e f };

    ghost same = { λ s t. HoldsSameFacts s.inner t.inner };

    ghost use Rattle.walrus_facts.specs.Gathering.{same_facts, turned, chained};
    ghost use Rattle.walrus_facts.specs.Gathering.{gather_alike, decline_alike};

    ghost reflexive = { λ s. same_facts s.inner };

    ghost symmetric = { λ s t h. turned s.inner t.inner h };

    ghost transitive = { λ s t u h k. chained s.inner t.inner u.inner h k };

    ghost steps_alike = { λ s t v w e h k l. gather_alike s.inner t.inner v.inner w.inner e h k l };

    ghost refuses_alike = { λ s t e f h k. decline_alike s.inner t.inner e f h k };

    fn start_instr_seq(&mut self, _seq: &InstrSeq) -> Result<(), WalkError> {
        Ok(())
    }

    fn end_instr_seq(&mut self, _seq: &InstrSeq) -> Result<(), WalkError> {
        Ok(())
    }

    #[inline(always)]
    fn visit_instr(&mut self, instr: &Instr, loc: &InstrLocId) -> Result<(), WalkError> {
        self.inner.visit_instr(instr, loc)
    }

    fn visit_data_id(&mut self, data_id: &DataId) -> Result<(), WalkError> {
        self.inner.visit_data_id(data_id)
    }

    #[inline(always)]
    fn visit_local_id(&mut self, local: &LocalId) -> Result<(), WalkError> {
        if is_marked(&self.marks, local.index()) {
            return Ok(());
        }
        match self.inner.visit_local_id(local) {
            Ok(()) => {
                let _ = mark(&mut self.marks, local.index());
                Ok(())
            }
            Err(fault) => Err(fault),
        }
    }

    fn visit_ref_func(&mut self, instr: &RefFunc) -> Result<(), WalkError> {
        self.inner.visit_ref_func(instr)
    }
}

/// The facts of the instructions in the sequence `start` and in those inside of it, by a walk.
///
/// # Errors
///
/// Those of `emit_facts`.
fn walked_facts(builder: &FunctionBuilder, start: InstrSeqId) -> Result<EmitFacts, WalkError>
    ensures ok { IfOk result (λ f. TreeHas builder.now.sequences start
        (λ t. AreFacts t.items f)) }
    ensures err { IfErr result (λ e. HasNoWalk builder.now.sequences start e
        ⊎ IsTooLarge builder.now.sequences start e) }
{
    let alloc = builder.allocator();
    let mut visitor = MarkingVisitor {
        inner: FactsVisitor::new(alloc),
        marks: Vec::new(alloc),
    };
    dfs_in_order(&mut visitor, builder, start)?;
    let MarkingVisitor { inner, .. } = visitor;
    Ok(inner.facts)
}

/// The facts of the instructions in the sequence `start` and in those inside of it.
///
/// # Errors
///
/// `WalkError::UnknownSequence` or `WalkError::SharedSequence` if the sequences are not a tree: the
/// first fault in walk order. `WalkError::TooLarge` if the number of instructions doesn't fit 64
/// bits. `WalkError::Memory` if memory runs out.
pub fn emit_facts(builder: &FunctionBuilder, start: InstrSeqId) -> Result<EmitFacts, WalkError>
    ensures ok { IfOk result (λ f. TreeHas builder.now.sequences start
        (λ t. AreFacts t.items f)) }
    ensures err { IfErr result (λ e. HasNoWalk builder.now.sequences start e
        ⊎ IsTooLarge builder.now.sequences start e) }
{
    match facts_at_once(builder, start) {
        Some(facts) => Ok(facts),
        None => walked_facts(builder, start),
    }
}
