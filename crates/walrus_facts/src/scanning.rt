//! Gathering the facts of a function's body by a scan of its sequences, each of which is looked at
//! once, from its last instruction to its first.
ghost use Rattle.std.specs.Prelude.{◌≡◌, ◌∷◌, ◌==◌, ◌&&◌, ◌||◌, ℕ, [], length, vec_len, IfSome, IfOk, OnOk};
ghost use Rattle.std.specs.Bool.{OnTrue};
ghost use Rattle.std.specs.HashSet.{contains};
ghost use Rattle.walrus_ir.specs.Unfolding.{handler_of, handlers};
ghost use Rattle.walrus_ir.specs.Planning.{IsReached};
ghost use Rattle.walrus_facts.specs.Facts.{AreFacts, TreeHas};
ghost use Rattle.walrus_facts.specs.Marking.{is_marked};
ghost use Rattle.walrus_facts.specs.Scanning.{GoesOn, AddsOne, AddsAll, EntersSequence, HasFound, IsScanning, MarksOne};

use crate::facts::EmitFacts;
use crate::marking::{is_marked, mark};
use std::alloc::{AllocError, Global};
use walrus_ir::{
    FunctionBuilder, IdHashSet, Instr, InstrLocId, InstrSeq, InstrSeqId, LegacyCatch, LocalGet,
    LocalId, LocalSet, LocalTee,
};

/// What a scan has found, and the sequences that it goes on to.
#[derive(Drop)]
struct Scan {
    /// Whether an instruction names a local, by id.
    marks: Vec<bool>,
    /// How many locals are marked.
    marked: usize,
    /// The number of instructions.
    size: u64,
    /// Whether one names a data segment.
    uses_data_segments: bool,
    /// Whether one is `ref.func`.
    refers: bool,
    /// Whether a sequence was reached, by its slot.
    reached: Vec<bool>,
    /// The slots that it goes on to, the next last.
    coming: Vec<InstrSeqId>,
}

/// Marks the sequence in a slot and returns it, if the builder has it and it wasn't reached before.
fn reach<'a>(
    reached: &mut Vec<bool>,
    builder: &'a FunctionBuilder,
    slot: InstrSeqId,
) -> Option<&'a InstrSeq>
    requires { vec_len reached.old ≡ length builder.now.sequences }
    ensures { IfSome result (λ seq. IsReached builder.now.sequences slot seq.now reached.old.items
        reached.new.items) }
{
    let index = slot.index();
    if !builder.has(slot) || reached[index] {
        return None;
    }
    reached[index] = true;
    Some(builder.seq(slot))
}

impl Scan {
    /// Goes on to the sequence in a slot before the others. Returns whether it could.
    #[inline(always)]
    fn go_on(&mut self, slot: InstrSeqId) -> bool
        ensures { OnTrue result (GoesOn (slot ∷ []) self.old self.new) }
    {
        match self.coming.push(slot) {
            Ok(()) => true,
            Err(_) => false,
        }
    }

    /// Goes on to two sequences before the others, to the first of them first.
    fn go_on_to_both(&mut self, first: InstrSeqId, second: InstrSeqId) -> bool
        ensures { OnTrue result (GoesOn (first ∷ second ∷ []) self.old self.new) }
    {
        if !self.go_on(second) {
            return false;
        }
        self.go_on(first)
    }

    /// Goes on to the handler of a clause, if it has one, before the others.
    fn scan_clause(&mut self, clause: &LegacyCatch) -> bool
        ensures { OnTrue result (GoesOn (handler_of clause.now) self.old self.new) }
    {
        match clause {
            LegacyCatch::Catch { handler, .. } => self.go_on(*handler),
            LegacyCatch::CatchAll { handler } => self.go_on(*handler),
            LegacyCatch::Delegate { .. } => true,
        }
    }

    /// Goes on to the handlers of these clauses before the others.
    fn scan_clauses(&mut self, clauses: &[LegacyCatch]) -> bool
        ensures { OnTrue result (GoesOn (handlers clauses.now) self.old self.new) }
    {
        let mut left = clauses;
        'clauses: while let Some((clause, before)) = left.split_last() {
            if !self.scan_clause(clause) {
                return false;
            }
            left = before;
        }
        true
    }

    /// Goes on to the body of a legacy `try` and then to its handlers, before the others.
    #[inline(never)]
    fn scan_try(&mut self, body: InstrSeqId, clauses: &[LegacyCatch]) -> bool
        ensures { OnTrue result (GoesOn (body ∷ handlers clauses.now) self.old self.new) }
    {
        if !self.scan_clauses(clauses) {
            return false;
        }
        self.go_on(body)
    }

    /// Marks a local that isn't marked, as `scan_local`.
    #[inline(never)]
    fn mark_local(&mut self, local: LocalId) -> bool
        ensures { OnTrue result (MarksOne local self.old self.new) }
    {
        if !mark(&mut self.marks, local.index()) {
            return false;
        }
        self.marked = self.marked.saturating_add(1);
        true
    }

    /// Marks a local, and returns whether it could: not if its id is too great, or memory ran out.
    #[inline(always)]
    fn scan_local(&mut self, local: LocalId) -> bool
        ensures { OnTrue result (MarksOne local self.old self.new) }
    {
        if is_marked(&self.marks, local.index()) {
            return true;
        }
        self.mark_local(local)
    }

    /// Adds what an instruction names, and goes on to the sequences in it before the others. Returns
    /// whether it could: not if a local's id is too great, or memory ran out.
    #[inline(always)]
    fn scan_instr(&mut self, instr: &Instr) -> bool
        ensures { OnTrue result (AddsOne instr.now self.old self.new) }
    {
        match instr {
            Instr::LocalGet(LocalGet { local })
            | Instr::LocalSet(LocalSet { local })
            | Instr::LocalTee(LocalTee { local }) => self.scan_local(*local),
            Instr::Block(x) => self.go_on(x.seq),
            Instr::Loop(x) => self.go_on(x.seq),
            Instr::TryTable(x) => self.go_on(x.seq),
            Instr::IfElse(x) => self.go_on_to_both(x.consequent, x.alternative),
            Instr::Try(x) => self.scan_try(x.seq, &x.catches),
            Instr::MemoryInit(_)
            | Instr::DataDrop(_)
            | Instr::ArrayNewData(_)
            | Instr::ArrayInitData(_) => {
                self.uses_data_segments = true;
                true
            }
            Instr::RefFunc(_) => {
                self.refers = true;
                true
            }
            _ => true,
        }
    }

    /// The same for these instructions.
    #[inline(never)]
    fn scan_instrs(&mut self, instrs: &[(Instr, InstrLocId)]) -> bool
        ensures { OnTrue result (AddsAll instrs.now self.old self.new) }
    {
        let mut left = instrs;
        'left: while let Some((located, before)) = left.split_last() {
            if !self.scan_instr(&located.0) {
                return false;
            }
            left = before;
        }
        true
    }

    /// Adds what the instructions of a sequence name, and goes on to the sequences in them. Returns
    /// whether it could: not if there is no such sequence or it was reached before, either.
    fn enter(&mut self, builder: &FunctionBuilder, slot: InstrSeqId) -> bool
        requires { vec_len self.old.reached ≡ length builder.now.sequences }
        ensures { OnTrue result (EntersSequence builder.now.sequences slot self.old self.new) }
    {
        let Some(seq) = reach(&mut self.reached, builder, slot) else {
            return false;
        };
        let Some(size) = self.size.checked_add(seq.len() as u64) else {
            return false;
        };
        self.size = size;
        self.scan_instrs(&seq.instrs)
    }
}

/// A scan that goes on to one sequence.
fn begin(builder: &FunctionBuilder, start: InstrSeqId) -> Result<Scan, AllocError>
    ensures { IfOk result (IsScanning builder.now.sequences start) }
{
    let alloc = builder.allocator();
    let reached = vec![in alloc; false; builder.count()]?;
    let mut coming = Vec::new(alloc);
    coming.push(start)?;
    Ok(Scan {
        marks: Vec::new(alloc),
        marked: 0,
        size: 0,
        uses_data_segments: false,
        refers: false,
        reached,
        coming,
    })
}

/// A scan of the instructions in the sequence `start` and in those inside of it, if the sequences are
/// a tree, the ids of locals are small, and memory doesn't run out.
fn scan_tree(builder: &FunctionBuilder, start: InstrSeqId) -> Option<Scan>
    ensures { IfSome result (λ s. TreeHas builder.now.sequences start (λ t. HasFound t.items s)) }
{
    let mut scan = match begin(builder, start) {
        Ok(scan) => scan,
        Err(_) => return None,
    };
    'scan: while let Some(slot) = scan.coming.pop() {
        if !scan.enter(builder, slot) {
            return None;
        }
    }
    Some(scan)
}

/// Whether there aren't far more marks than marked locals.
fn is_dense(scan: &Scan) -> bool {
    scan.marks.len() <= scan.marked.saturating_mul(4).saturating_add(64)
}

/// Puts a local into a set if it is marked.
fn put_marked(set: &mut IdHashSet<LocalId>, marks: &[bool], id: usize) -> Result<(), AllocError>
    ensures { OnOk result ((x : ℕ) → contains (λ x y. x == y) set.new x
        ≡ (((x == id) && is_marked marks.now id) || contains (λ x y. x == y) set.old x)) }
{
    if !is_marked(marks, id) {
        return Ok(());
    }
    set.insert(LocalId::new(id))?;
    Ok(())
}

/// The marked locals in a set, which has room for so many.
fn marked_set(alloc: Global, marks: &[bool], room: usize) -> Result<IdHashSet<LocalId>, AllocError>
    ensures { IfOk result (λ set. (l : ℕ) → contains (λ x y. x == y) set l
        ≡ is_marked marks.now l) }
{
    let mut set = IdHashSet::with_capacity(alloc, room)?;
    for id in 0..marks.len() {
        put_marked(&mut set, marks, id)?;
    }
    Ok(set)
}

/// The facts of a scan that found no `ref.func`, if memory doesn't run out.
fn scanned_facts(alloc: Global, scan: &Scan) -> Result<EmitFacts, AllocError>
    ensures size { IfOk result (λ f. f.size ≡ scan.now.size) }
    ensures uses { IfOk result (λ f. f.uses_data_segments ≡ scan.now.uses_data_segments) }
    ensures refs { IfOk result (λ f. f.ref_funcs.items ≡ []) }
    ensures locals { IfOk result (λ f. (l : ℕ) → contains (λ x y. x == y) f.used_locals l
        ≡ is_marked scan.now.marks.items l) }
{
    let used_locals = marked_set(alloc, &scan.marks, scan.marked)?;
    Ok(EmitFacts {
        size: scan.size,
        uses_data_segments: scan.uses_data_segments,
        ref_funcs: Vec::new(alloc),
        used_locals,
    })
}

/// The facts of the instructions in the sequence `start` and in those inside of it, if the sequences
/// are a tree, no instruction is `ref.func`, the ids of locals are small and not far apart, and memory
/// doesn't run out.
pub(crate) fn facts_at_once(builder: &FunctionBuilder, start: InstrSeqId) -> Option<EmitFacts>
    ensures { IfSome result (λ f. TreeHas builder.now.sequences start (λ t. AreFacts t.items f)) }
{
    let found = scan_tree(builder, start)?;
    if found.refers || !is_dense(&found) {
        return None;
    }
    match scanned_facts(builder.allocator(), &found) {
        Ok(facts) => Some(facts),
        Err(_) => None,
    }
}
