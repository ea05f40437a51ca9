//! Globals (WebAssembly core specification 3.0, binary format, types and modules).

ghost use Rattle.std.specs.Prelude.{◌≡◌, ◌-◌, length, IfOk};
ghost use Rattle.wasm_sections.specs.Views.{global_value};
ghost use Rattle.wasm_numbers.specs.Results.{Gives};
ghost use Rattle.wasm_sections.specs.Format.{mutability_part, global_type_part, global_part};

use crate::fault::{ModuleError, ModuleFault};
use crate::input::Input;
use crate::items::Items;
use wasm_ops::RawValType;

/// The type of a global.
#[derive(Clone, Copy, Debug)]
pub struct GlobalType {
    /// The type of its value; a type that is named in it is a type index.
    pub value: RawValType,
    /// Whether it can be changed.
    pub is_mutable: bool,
}

/// A global that is defined in a module, and not imported.
#[derive(Clone, Copy)]
pub struct DefinedGlobal<'a> {
    /// Its type.
    pub ty: GlobalType,
    /// The bytes of its initial value: a constant expression, with its `end`.
    pub init: &'a [u8],
    /// Its place: a byte offset from the start of the file.
    pub at: usize,
}

impl<'a> Input<'a> {
    /// A mutability: whether the global or field can be changed; `BadMutability` if there is none.
    pub fn mutability(&mut self) -> Result<bool, ModuleError>
        ensures same_end { self.new.end ≡ self.old.end }
        ensures is { Gives (λ is_mutable. (is_mutable, self.new.rest.now)) result
            (mutability_part self.old.end self.old.rest.now) }
    {
        let begin = *self;
        match self.byte()? {
            0 => Ok(false),
            1 => Ok(true),
            _ => Err(begin.fault(ModuleFault::BadMutability)),
        }
    }

    /// The type of a global.
    pub fn global_type(&mut self) -> Result<GlobalType, ModuleError>
        ensures same_end { self.new.end ≡ self.old.end }
        ensures is { Gives (λ ty. (ty, self.new.rest.now)) result (global_type_part self.old.end
            self.old.rest.now) }
    {
        let value = match self.value_type() {
            Ok(value) => value,
            Err(error) => return Err(error),
        };
        match self.mutability() {
            Ok(is_mutable) => Ok(GlobalType { value, is_mutable }),
            Err(error) => Err(error),
        }
    }

    /// A global: its type, and a constant expression.
    pub fn global(&mut self) -> Result<DefinedGlobal<'a>, ModuleError>
        ensures place { IfOk result (λ x. x.at ≡ self.old.end - length self.old.rest.now) }
        ensures same_end { self.new.end ≡ self.old.end }
        ensures is { Gives (λ x. (global_value x, self.new.rest.now)) result
            (global_part self.old.end self.old.rest.now) }
    {
        let at = self.at();
        let ty = match self.global_type() {
            Ok(ty) => ty,
            Err(error) => return Err(error),
        };
        match self.constant() {
            Ok(init) => Ok(DefinedGlobal { ty, init, at }),
            Err(error) => Err(error),
        }
    }
}

/// The globals that a module defines, in order. Imported globals come before them. A fault is the
/// last item; a module that was read has none.
#[derive(Clone, Copy)]
pub struct Globals<'a> {
    /// The globals that are left.
    pub items: Items<'a>,
}

impl<'a> Iterator for Globals<'a> {
    ghost use Rattle.std.specs.Iterator.{at_most};
    ghost use Rattle.wasm_sections.specs.Views.{TakesGlobal};

    type Item = Result<DefinedGlobal<'a>, ModuleError>;

    ghost next_gives = { TakesGlobal };

    ghost remaining = { λ s. at_most s.items.count };

    fn next(&mut self) -> Option<Result<DefinedGlobal<'a>, ModuleError>> {
        let count = self.items.count.checked_sub(1)?;
        let mut left = self.items.left;
        match left.global() {
            Ok(global) => {
                self.items = Items { left, count };
                Some(Ok(global))
            }
            Err(error) => {
                self.items.count = 0;
                Some(Err(error))
            }
        }
    }
}
