//! The numbers under which bodies are written.
ghost use Rattle.std.specs.Prelude.{◌≡◌};
ghost use Rattle.wasm_module.specs.WrittenNumbers.{HasOtherNumbers};

use crate::custom::local_numbers;
use crate::parsed::ParsedModule;
use std::mem;
use walrus_body::LocalFunction;
use walrus_ir::{IdHashMap, LocalId};
use walrus_maps::IdsToIndices;
use wasm_sections::{ModuleError, Spaces};

/// Numbers in the place of those of these index spaces, which are returned.
fn replace_numbers_of(spaces: &mut Spaces, numbers: IdsToIndices) -> IdsToIndices
    ensures taken { spaces.new.numbers ≡ numbers }
    ensures others { HasOtherNumbers spaces.old spaces.new }
    ensures before { result ≡ spaces.old.numbers }
{
    mem::replace(&mut spaces.numbers, numbers)
}

impl ParsedModule<'_> {
    /// Writes bodies under these numbers from now on, and returns those before. A body that names an id without a number is
    /// refused: `Unnumbered`.
    pub fn replace_numbers(&mut self, numbers: IdsToIndices) -> IdsToIndices
        ensures taken { self.new.spaces.numbers ≡ numbers }
        ensures others { HasOtherNumbers self.old.spaces self.new.spaces }
        ensures same { self.new ≡ record self.old { spaces = self.new.spaces } }
        ensures before { result ≡ self.old.spaces.numbers }
    {
        replace_numbers_of(&mut self.spaces, numbers)
    }

    /// The new index of each local of the function that was parsed or rewritten last, by its id. A local that isn't
    /// written has none.
    ///
    /// # Errors
    ///
    /// Why the function, whose body begins at `start`, can't be written; or `Memory`.
    pub fn local_numbers(
        &self,
        function: &LocalFunction,
        start: usize,
    ) -> Result<IdHashMap<LocalId, u32>, ModuleError> {
        local_numbers(self, function, start)
    }
}
