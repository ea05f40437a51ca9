//! Places at which instructions can be inserted.
ghost use Rattle.std.specs.Prelude.{◌≡◌, IsNone, IfSome, [], ◌∷◌, ℕ};

use walrus_ir::{BlockKind, Instr, InstrLocId};

/// A place in a sequence of instructions: its start, the place between two instructions, or its end.
#[derive(Clone, Copy)]
pub struct Place<'a> {
    /// The role of the sequence in the construct that contains it.
    pub kind: BlockKind,
    /// The instructions of the sequence.
    pub instrs: &'a [(Instr, InstrLocId)],
    /// The number of these that come before the place.
    pub index: usize,
}

impl<'a> Place<'a> {
    /// Whether the sequence starts here.
    pub fn is_start(&self) -> bool {
        self.index == 0
    }

    /// The instruction that follows, unless the sequence ends here.
    pub fn next(&self) -> Option<&'a Instr> {
        match self.instrs.get(self.index) {
            Some((instr, _)) => Some(instr),
            None => None,
        }
    }

    /// The instruction before the place, unless the sequence starts here.
    pub fn previous(&self) -> Option<&'a Instr> {
        match self.index.checked_sub(1) {
            Some(before) => match self.instrs.get(before) {
                Some((instr, _)) => Some(instr),
                None => None,
            },
            None => None,
        }
    }
}
