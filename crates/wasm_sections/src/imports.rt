//! Imports (WebAssembly core specification 3.0, binary format, modules).

ghost use Rattle.std.specs.Prelude.{◌≡◌, ◌-◌, length, IfOk};
ghost use Rattle.wasm_sections.specs.Views.{import_value};
ghost use Rattle.wasm_numbers.specs.Results.{Gives};
ghost use Rattle.wasm_sections.specs.Format.{imported_part, placed_import_part, import_part};

use crate::fault::{ModuleError, ModuleFault};
use crate::input::Input;
use crate::items::Items;

/// What an import is, as far as bodies of functions can refer to it.
#[derive(Clone, Copy, Debug)]
pub enum Imported {
    /// A function, with the index of its type.
    Func(u32),
    /// A table.
    Table,
    /// A memory.
    Memory,
    /// A global.
    Global,
    /// A tag, with the index of its type.
    Tag(u32),
}

/// An import.
#[derive(Clone, Copy, Debug)]
pub struct Import<'a> {
    /// The name of the module that it comes from.
    pub from: &'a str,
    /// Its name in that module.
    pub name: &'a str,
    /// What it is.
    pub imported: Imported,
    /// Its place: a byte offset from the start of the file.
    pub at: usize,
}

impl<'a> Input<'a> {
    /// What is imported, without its names.
    fn imported(&mut self) -> Result<Imported, ModuleError>
        ensures same_end { self.new.end ≡ self.old.end }
        ensures is { Gives (λ it. (it, self.new.rest.now)) result (imported_part self.old.end
            self.old.rest.now) }
    {
        let begin = *self;
        match self.byte()? {
            0 => {
                let index = self.number()?;
                Ok(Imported::Func(index))
            }
            1 => {
                self.table_type()?;
                Ok(Imported::Table)
            }
            2 => {
                self.limits()?;
                Ok(Imported::Memory)
            }
            3 => {
                self.global_type()?;
                Ok(Imported::Global)
            }
            4 => {
                let index = self.tag()?;
                Ok(Imported::Tag(index))
            }
            _ => Err(begin.fault(ModuleFault::BadImportKind)),
        }
    }

    /// An import, and the place of the first byte after its names.
    pub fn import(&mut self) -> Result<(Imported, usize), ModuleError>
        ensures same_end { self.new.end ≡ self.old.end }
        ensures is { Gives (λ x. ((x.0, x.1), self.new.rest.now)) result
            (placed_import_part self.old.end self.old.rest.now) }
    {
        self.name()?;
        self.name()?;
        let at = self.at();
        match self.imported() {
            Ok(imported) => Ok((imported, at)),
            Err(error) => Err(error),
        }
    }

    /// An import with its names.
    fn read_import(&mut self) -> Result<Import<'a>, ModuleError>
        ensures place { IfOk result (λ x. x.at ≡ self.old.end - length self.old.rest.now) }
        ensures same_end { self.new.end ≡ self.old.end }
        ensures is { Gives (λ x. (import_value x, self.new.rest.now)) result
            (import_part self.old.end self.old.rest.now) }
    {
        let at = self.at();
        let from = self.name()?;
        let name = self.name()?;
        match self.imported() {
            Ok(imported) => Ok(Import {
                from,
                name,
                imported,
                at,
            }),
            Err(error) => Err(error),
        }
    }
}

/// The imports of a module, in order. A fault is the last item; a module that was read has none.
#[derive(Clone, Copy)]
pub struct Imports<'a> {
    /// The imports that are left.
    pub items: Items<'a>,
}

impl<'a> Iterator for Imports<'a> {
    ghost use Rattle.std.specs.Iterator.{at_most};
    ghost use Rattle.wasm_sections.specs.Views.{TakesImport};

    type Item = Result<Import<'a>, ModuleError>;

    ghost next_gives = { TakesImport };

    ghost remaining = { λ s. at_most s.items.count };

    fn next(&mut self) -> Option<Result<Import<'a>, ModuleError>> {
        let count = self.items.count.checked_sub(1)?;
        let mut left = self.items.left;
        match left.read_import() {
            Ok(import) => {
                self.items = Items { left, count };
                Some(Ok(import))
            }
            Err(error) => {
                self.items.count = 0;
                Some(Err(error))
            }
        }
    }
}
