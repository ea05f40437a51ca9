//! The roles of the sequences of a function that are reached from its entry.
use std::alloc::AllocError;
use walrus_ir::{BlockKind, FunctionBuilder, Instr, InstrLocId, InstrSeqId, LegacyCatch};

/// The roles of the sequences that are reached, as far as they are found.
#[derive(Drop)]
struct Found {
    /// By slot; none for a sequence that isn't reached so far.
    kinds: Vec<Option<BlockKind>>,
    /// The slots of those whose instructions weren't looked at.
    pending: Vec<InstrSeqId>,
}

impl Found {
    /// Notes the role of the sequence at a slot, if the function has it and it wasn't reached before.
    fn note(&mut self, id: InstrSeqId, kind: BlockKind) -> Result<(), AllocError> {
        if let Some(noted) = self.kinds.get_mut(id.index())
            && noted.is_none()
        {
            *noted = Some(kind);
            self.pending.push(id)?;
        }
        Ok(())
    }

    /// Notes the roles of the handlers of a legacy `try`.
    fn note_handlers(&mut self, clauses: &[LegacyCatch]) -> Result<(), AllocError> {
        for clause in clauses {
            match clause {
                LegacyCatch::Catch { handler, .. } => self.note(*handler, BlockKind::Catch)?,
                LegacyCatch::CatchAll { handler } => self.note(*handler, BlockKind::CatchAll)?,
                LegacyCatch::Delegate { .. } => {}
            }
        }
        Ok(())
    }

    /// Notes the roles of the sequences in an instruction.
    fn note_inside(&mut self, instr: &Instr) -> Result<(), AllocError> {
        match instr {
            Instr::Block(x) => self.note(x.seq, BlockKind::Block),
            Instr::Loop(x) => self.note(x.seq, BlockKind::Loop),
            Instr::IfElse(x) => {
                self.note(x.consequent, BlockKind::If)?;
                self.note(x.alternative, BlockKind::Else)
            }
            Instr::TryTable(x) => self.note(x.seq, BlockKind::TryTable),
            Instr::Try(x) => {
                self.note(x.seq, BlockKind::Try)?;
                self.note_handlers(&x.catches)
            }
            _ => Ok(()),
        }
    }

    /// Notes the roles of the sequences in these instructions.
    fn note_all(&mut self, instrs: &[(Instr, InstrLocId)]) -> Result<(), AllocError> {
        for (instr, _) in instrs {
            self.note_inside(instr)?;
        }
        Ok(())
    }
}

/// The role of each sequence of a function that is reached from its entry, by its slot: that in the
/// instruction that contains it. It is none for the others, such as those in code that a parse drops.
///
/// # Errors
///
/// Out of memory.
pub(crate) fn reached_kinds(
    builder: &FunctionBuilder,
) -> Result<Vec<Option<BlockKind>>, AllocError> {
    let alloc = builder.allocator();
    let kinds = vec![in alloc; None; builder.count()]?;
    let pending = Vec::new(alloc);
    let mut found = Found { kinds, pending };
    if let Some(entry) = builder.entry() {
        found.note(entry, BlockKind::FunctionEntry)?;
    }
    // Each sequence is pending at most once.
    for _ in 0..builder.count() {
        match found.pending.pop() {
            Some(id) if builder.has(id) => found.note_all(&builder.seq(id).instrs)?,
            _ => {}
        }
    }
    let Found { kinds, .. } = found;
    Ok(kinds)
}

/// The role at a slot, if there is one.
pub(crate) fn kind_at(kinds: &[Option<BlockKind>], slot: usize) -> Option<BlockKind> {
    match kinds.get(slot) {
        Some(kind) => *kind,
        None => None,
    }
}
