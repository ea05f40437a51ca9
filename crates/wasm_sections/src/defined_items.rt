//! Items that are added to a module that was read: each has an id and a written index, but no index
//! of the source, so that no body of the source can name it (WebAssembly core specification 3.0,
//! structure, modules, indices).

ghost use Rattle.std.specs.Prelude.{◌≡◌, ◌⊎◌, ◌≤◌, ◌^◌, OnOk, IfOk, IfErr, IsErr, IsOk};
ghost use Rattle.wasm_body.specs.declared.error.IndexError.TheVariants as index;
ghost use Rattle.wasm_operators.specs.declared.types.Space.TheVariants.{Types, Globals, Data};
ghost use Rattle.walrus_maps.specs.IndexMaps.{number_of};
ghost use Rattle.wasm_sections.specs.DefinedItems.{DefinesType, DefinesGlobal, DefinesData, ChangesNumbersOf, NoNextNumber, NoNextOwnNumber};

use crate::spaces::Spaces;
use walrus_ir::{DataId, GlobalId, TypeId};
use wasm_body::IndexError;

impl Spaces {
    /// Gives a type that is added the next number, unless it has one.
    ///
    /// # Errors
    ///
    /// `TooMany` if 2^32 types have a number; or `Memory`.
    pub fn define_type(&mut self, id: TypeId) -> Result<(), IndexError>
        ensures defined { IsErr (number_of self.old.numbers Types id)
            → OnOk result (DefinesType id self.old self.new) }
        ensures had { IsOk (number_of self.old.numbers Types id) → self.new ≡ self.old }
        ensures has { IsOk (number_of self.old.numbers Types id) → IsOk result }
        ensures refused { IfErr result (NoNextNumber Types self.old) }
        ensures kept { ChangesNumbersOf Types self.old self.new }
    {
        match self.numbers.get_type_index(id) {
            Ok(_) => Ok(()),
            Err(_) => self.numbers.push_type(id),
        }
    }

    /// Adds a global after all others. Its id is its written index.
    ///
    /// # Errors
    ///
    /// `TooMany` if there are 2^32 globals; or `Memory`.
    pub fn define_global(&mut self) -> Result<GlobalId, IndexError>
        ensures defined { IfOk result (λ id. DefinesGlobal id self.old self.new) }
        ensures refused { IfErr result
            (NoNextOwnNumber Globals self.old.counts.globals self.old) }
        ensures kept { ChangesNumbersOf Globals self.old self.new }
    {
        let index = self.counts.globals;
        let id = GlobalId::new(index);
        match self.numbers.get_global_index(id) {
            Ok(_) => return Err(IndexError::TooMany),
            Err(_) => match self.numbers.push_global(id) {
                Ok(()) => {}
                Err(error) => return Err(error),
            },
        }
        match self.numbers.get_global_index(id) {
            Ok(number) if number as usize == index => {
                self.counts.globals = index + 1;
                Ok(id)
            }
            _ => Err(IndexError::TooMany),
        }
    }

    /// Gives the next data segment an id, which is its written index.
    ///
    /// # Errors
    ///
    /// `TooMany` if there are 2^32 data segments; or `Memory`.
    pub fn define_data(&mut self) -> Result<DataId, IndexError>
        ensures defined { IfOk result (λ id. DefinesData id self.old self.new) }
        ensures refused { IfErr result (λ e. (e ≡ index.Memory)
            ⊎ ((e ≡ index.TooMany) × (2 ^ 32 ≤ self.old.counts.«data»))) }
        ensures kept { ChangesNumbersOf Data self.old self.new }
    {
        let id = DataId::new(self.counts.data);
        let Ok(number) = u32::try_from(self.counts.data) else {
            return Err(IndexError::TooMany);
        };
        match self.numbers.set_data_index(id, number) {
            Ok(()) => {
                self.counts.data = number as usize + 1;
                Ok(id)
            }
            Err(error) => Err(error),
        }
    }
}
