//! What is left of a module.

use crate::item::Item;
use crate::left::LeftItems;
use crate::parts::done;
use crate::references::References;
use std::alloc::Global;
use wasm_sections::ModuleError;

/// What is left of a module.
#[derive(Drop)]
pub struct Remainder {
    /// The items that are left.
    pub left: LeftItems,
    /// Functions of which references are taken, and that nothing that is left names outside of bodies.
    pub undeclared: Vec<u32>,
}

impl References {
    ghost use Rattle.std.specs.Prelude.{◌≡◌, IfOk, IfErr};
    ghost use Rattle.wasm_sections.specs.declared.fault.ModuleFault.TheVariants.{Memory as NoMemory};
    ghost use Rattle.module_removal.specs.Remaining.{IsRemainder, IsReachedPart};

    /// What is left of the module if it consists of the items with a mark that is set, of one mark for each number.
    ///
    /// # Errors
    ///
    /// `Memory`.
    pub fn remainder(&self, alloc: Global, marks: &[bool]) -> Result<Remainder, ModuleError>
        ensures ok { IfOk result (IsRemainder self.now marks.now) }
        ensures err { IfErr result (λ error. error.fault ≡ NoMemory) }
    {
        let undeclared = done!(self.taken.undeclared(alloc, &self.counts, marks));
        match LeftItems::of_marks(alloc, &self.counts, marks) {
            Ok(left) => Ok(Remainder { left, undeclared }),
            Err(error) => Err(error),
        }
    }

    /// What is left of the module without what nothing reaches: neither an export, the start function, a segment that is
    /// seen outside of the module or may fail, nor one of these items.
    ///
    /// # Errors
    ///
    /// `Memory`.
    pub fn reached(&self, alloc: Global, roots: &[Item]) -> Result<Remainder, ModuleError>
        ensures ok { IfOk result (IsReachedPart self.now roots.now) }
        ensures err { IfErr result (λ error. error.fault ≡ NoMemory) }
    {
        let marks = done!(self.reachable(alloc, roots));
        self.remainder(alloc, &marks)
    }
}
