//! Vectors, copied (WebAssembly core specification 3.0, binary format, values).

use crate::copier::Copier;
use crate::parts::done;
use wasm_ops::Space;
use wasm_sections::{Input, ModuleError};

/// What a vector consists of.
#[derive(Clone, Copy)]
pub(crate) enum VectorOf {
    /// Value types.
    Values,
    /// Types of fields.
    Fields,
    /// Indices of this space.
    Indices(Space),
    /// Constant expressions.
    Constants,
    /// Runs of locals.
    Runs,
}

impl Copier<'_> {
    ghost use Rattle.std.specs.Prelude.{◌≡◌};
    ghost use Rattle.module_removal.specs.LeftSpaces.{index_written};
    ghost use Rattle.module_removal.specs.CopiedParts.{copied_vector, times, Copies};
    ghost use Rattle.module_removal.specs.CopiedItems.{copied_one};

    /// One of these.
    fn one(&mut self, of: VectorOf, input: &mut Input<'_>) -> Result<(), ModuleError>
        ensures same_end { input.new.end ≡ input.old.end }
        ensures is { Copies self.old self.new input.new.rest.now result
            (copied_one (index_written self.old.left) of input.old.end input.old.rest.now) }
    {
        match of {
            VectorOf::Values => self.value_type(input),
            VectorOf::Fields => self.field(input),
            VectorOf::Indices(space) => self.index(input, space),
            VectorOf::Constants => self.constant(input),
            VectorOf::Runs => self.run(input),
        }
    }

    /// So many of these.
    fn several(
        &mut self,
        count: u32,
        of: VectorOf,
        input: &mut Input<'_>,
    ) -> Result<(), ModuleError>
        ensures same_end { input.new.end ≡ input.old.end }
        ensures is { Copies self.old self.new input.new.rest.now result
            (times (copied_one (index_written self.old.left) of) count input.old.end
            input.old.rest.now) }
    {
        'items: for _ in 0..count {
            match self.one(of, input) {
                Ok(()) => {}
                Err(error) => return Err(error),
            }
        }
        Ok(())
    }

    /// A vector of these.
    pub fn vector(&mut self, of: VectorOf, input: &mut Input<'_>) -> Result<(), ModuleError>
        ensures same_end { input.new.end ≡ input.old.end }
        ensures is { Copies self.old self.new input.new.rest.now result
            (copied_vector (copied_one (index_written self.old.left) of) input.old.end
            input.old.rest.now) }
    {
        let count = done!(self.number(input));
        self.several(count, of, input)
    }
}
