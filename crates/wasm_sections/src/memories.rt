//! Memories (WebAssembly core specification 3.0, binary format, modules).

ghost use Rattle.std.specs.Prelude.{◌≡◌, ◌-◌, length, IfOk};
ghost use Rattle.wasm_numbers.specs.Results.{Gives};
ghost use Rattle.wasm_sections.specs.Format.{limits_part};

use crate::fault::ModuleError;
use crate::input::Input;
use crate::items::Items;
use crate::limits::Limits;

/// A memory that is defined in a module, and not imported.
#[derive(Clone, Copy)]
pub struct DefinedMemory {
    /// The limits of its size, in pages of 65,536 bytes.
    pub limits: Limits,
    /// Its place: a byte offset from the start of the file.
    pub at: usize,
}

impl Input<'_> {
    /// A memory.
    pub fn memory(&mut self) -> Result<DefinedMemory, ModuleError>
        ensures place { IfOk result (λ x. x.at ≡ self.old.end - length self.old.rest.now) }
        ensures same_end { self.new.end ≡ self.old.end }
        ensures is { Gives (λ x. (x.limits, self.new.rest.now)) result (limits_part self.old.end
            self.old.rest.now) }
    {
        let at = self.at();
        match self.limits() {
            Ok(limits) => Ok(DefinedMemory { limits, at }),
            Err(error) => Err(error),
        }
    }
}

/// The memories that a module defines, in order. Imported memories come before them. A fault is the
/// last item; a module that was read has none.
#[derive(Clone, Copy)]
pub struct Memories<'a> {
    /// The memories that are left.
    pub items: Items<'a>,
}

impl<'a> Iterator for Memories<'a> {
    ghost use Rattle.std.specs.Iterator.{at_most};
    ghost use Rattle.wasm_sections.specs.Views.{TakesMemory};

    type Item = Result<DefinedMemory, ModuleError>;

    ghost next_gives = { TakesMemory };

    ghost remaining = { λ s. at_most s.items.count };

    fn next(&mut self) -> Option<Result<DefinedMemory, ModuleError>> {
        let count = self.items.count.checked_sub(1)?;
        let mut left = self.items.left;
        match left.memory() {
            Ok(memory) => {
                self.items = Items { left, count };
                Some(Ok(memory))
            }
            Err(error) => {
                self.items.count = 0;
                Some(Err(error))
            }
        }
    }
}
