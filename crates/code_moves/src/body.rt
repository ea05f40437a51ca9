//! The body of a function, before and after it is written anew.

ghost use Rattle.std.specs.Prelude.{suc, ◌↔◌, IsTrue};
ghost use Rattle.code_moves.specs.Order.{AreRunsOfCode, AreRuns-prop, AreLocals, AreLocals-prop};

use crate::run::Run;

/// A local that is kept, and its new index.
#[derive(Clone, Copy, Debug, PartialEq, Eq)]
pub struct LocalMove {
    /// The index of the local in the source.
    pub old: u32,
    /// Its index in what is written.
    pub new: u32,
}

// Whether these locals are by ascending index, and none of them is a parameter.
pub(crate) fn are_locals(locals: &[LocalMove], parameters: u32) -> bool
    ensures { IsTrue result ↔ AreLocals parameters locals.now }
{
    let mut least = u64::from(parameters);
    for step in locals {
        if u64::from(step.old) < least {
            return false;
        }
        least = u64::from(step.old) + 1;
    }
    true
}

/// The body of a function: where it is in the source and in what is written, and where its operators and locals go.
#[derive(Debug, Drop)]
pub struct Body {
    /// The address of its first byte in the source, with which its declarations of locals begin.
    pub begin: u32,
    /// The address in the source of the byte after its last operator.
    pub end: u32,
    /// The address of its first byte in what is written.
    pub new_begin: u32,
    /// The address in what is written of the byte after its last operator.
    pub new_end: u32,
    /// The operators of the source that are written, in order.
    pub runs: Vec<Run>,
    /// How many parameters the function has. A parameter keeps its index.
    pub parameters: u32,
    /// The declared locals that are kept, by ascending index in the source.
    pub locals: Vec<LocalMove>,
    // A body has at least the count of its declarations in front of its operators.
    pub ghost are_runs: { AreRunsOfCode (suc begin) (suc new_begin) runs.items end new_end } by { AreRuns-prop (suc begin) (suc new_begin) runs.items end new_end },
    pub ghost are_locals: { AreLocals parameters locals.items } by { AreLocals-prop parameters locals.items },
}

impl Body {
    ghost use Rattle.std.specs.Prelude.{◌≡◌, drop};
    ghost use Rattle.code_moves.specs.Moves.{new_place, moved_in, first_gap, operator_place, ends_written, new_local_in};

    // Where the first of the runs from this index on begins, with what is added in front of it, or else the new end.
    fn gap_from(&self, index: usize) -> u64
        ensures { result ≡ first_gap (drop index self.now.runs.items) self.now.new_end }
    {
        match self.runs.get(index) {
            Some(run) => u64::from(run.gap),
            None => u64::from(self.new_end),
        }
    }

    // Where an address goes that is after the first byte.
    fn place(&self, address: u32) -> u64
        ensures { result ≡ new_place self.now.runs.items self.now.new_end address }
    {
        let index = self.runs.partition_point(|run| run.end <= address);
        let Some(run) = self.runs.get(index) else {
            return u64::from(self.new_end);
        };
        if address <= run.old {
            return u64::from(run.gap);
        }
        let own = u64::from(run.own) + u64::from(address - run.old);
        own.min(self.gap_from(index + 1))
    }

    /// Where this address goes, or None if it isn't of this body. Takes time logarithmic in the number of runs.
    pub fn address(&self, address: u64) -> Option<u64>
        ensures { result ≡ moved_in self.now address }
    {
        if address < u64::from(self.begin) || u64::from(self.end) < address {
            return None;
        }
        if address == u64::from(self.begin) {
            return Some(u64::from(self.new_begin));
        }
        Some(self.place(address as u32))
    }

    /// Where the operator at this address is itself written, or None if it isn't. Takes time logarithmic in the number of runs.
    pub fn operator(&self, address: u64) -> Option<u64>
        ensures { result ≡ operator_place self.now.runs.items self.now.new_end address }
    {
        let index = self
            .runs
            .partition_point(|run| u64::from(run.end) <= address);
        let run = self.runs.get(index)?;
        let (old, end) = (u64::from(run.old), u64::from(run.end));
        if address < old || end <= address {
            return None;
        }
        let own = u64::from(run.own) + (address - old);
        (own < self.gap_from(index + 1)).then_some(own)
    }

    /// Whether an operator that ends at this address is written. Takes time logarithmic in the number of runs.
    pub fn ends_written(&self, address: u64) -> bool
        ensures { result ≡ ends_written self.now.runs.items address }
    {
        let index = self
            .runs
            .partition_point(|run| u64::from(run.end) < address);
        match self.runs.get(index) {
            Some(run) => u64::from(run.old) < address,
            None => false,
        }
    }

    /// The new index of the local of this index, or None if it isn't kept. Takes time logarithmic in the number of
    /// declared locals that are.
    pub fn local(&self, local: u64) -> Option<u32>
        ensures { result ≡ new_local_in self.now local }
    {
        if local < u64::from(self.parameters) {
            return Some(local as u32);
        }
        let index = self
            .locals
            .partition_point(|step| u64::from(step.old) < local);
        match self.locals.get(index) {
            Some(step) if u64::from(step.old) == local => Some(step.new),
            _ => None,
        }
    }
}
