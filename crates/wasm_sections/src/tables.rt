//! Tables (WebAssembly core specification 3.0, binary format, types and modules).

ghost use Rattle.std.specs.Prelude.{◌≡◌, ◌-◌, length, option_map, IfSome, IfOk};
ghost use Rattle.wasm_sections.specs.Views.{table_value};
ghost use Rattle.wasm_numbers.specs.Results.{Gives};
ghost use Rattle.wasm_sections.specs.Format.{table_type_part, after_table_mark, initialized_part, table_part, table_front_part};

use crate::fault::ModuleError;
use crate::input::Input;
use crate::items::Items;
use crate::limits::Limits;
use wasm_ops::RawValType;

/// The type of a table.
#[derive(Clone, Copy, Debug)]
pub struct TableType {
    /// The type of its elements, a reference type; a type that is named in it is a type index.
    pub element: RawValType,
    /// The limits of its size, in elements.
    pub limits: Limits,
}

/// A table that is defined in a module, and not imported.
#[derive(Clone, Copy)]
pub struct DefinedTable<'a> {
    /// Its type.
    pub ty: TableType,
    /// The bytes of the initial value of its elements: a constant expression, with its `end`. `None`
    /// if they are null.
    pub init: Option<&'a [u8]>,
    /// Its place: a byte offset from the start of the file.
    pub at: usize,
}

impl<'a> Input<'a> {
    /// The type of a table.
    pub fn table_type(&mut self) -> Result<TableType, ModuleError>
        ensures same_end { self.new.end ≡ self.old.end }
        ensures is { Gives (λ ty. (ty, self.new.rest.now)) result (table_type_part self.old.end
            self.old.rest.now) }
    {
        let element = match self.reference_type() {
            Ok(element) => element,
            Err(error) => return Err(error),
        };
        match self.limits() {
            Ok(limits) => Ok(TableType { element, limits }),
            Err(error) => Err(error),
        }
    }

    /// The bytes that follow those two with which a table with an initial value begins; `None` if it
    /// doesn't begin with them.
    fn after_mark(&self) -> Option<Input<'a>>
        ensures same_end { IfSome result (λ after. after.end ≡ self.now.end) }
        ensures is { option_map (λ after. after.rest.now) result ≡ after_table_mark self.now.rest.now }
    {
        let mut after = *self;
        match after.byte() {
            Ok(0x40) => match after.byte() {
                Ok(0x00) => Some(after),
                _ => None,
            },
            _ => None,
        }
    }

    /// Reads past the front of a table: everything but the constant expression of its elements.
    /// Returns whether it has one.
    pub fn table_front(&mut self) -> Result<bool, ModuleError>
        ensures same_end { self.new.end ≡ self.old.end }
        ensures is { Gives (λ has_elements. (has_elements, self.new.rest.now)) result
            (table_front_part self.old.end self.old.rest.now) }
    {
        match self.after_mark() {
            Some(after) => {
                *self = after;
                match self.table_type() {
                    Ok(_) => Ok(true),
                    Err(error) => Err(error),
                }
            }
            None => match self.table_type() {
                Ok(_) => Ok(false),
                Err(error) => Err(error),
            },
        }
    }

    /// The type of a table, and the constant expression of its elements.
    fn initialized(&mut self) -> Result<(TableType, &'a [u8]), ModuleError>
        ensures same_end { self.new.end ≡ self.old.end }
        ensures is { Gives (λ x. ((x.0, x.1.now), self.new.rest.now)) result
            (initialized_part self.old.end self.old.rest.now) }
    {
        let ty = match self.table_type() {
            Ok(ty) => ty,
            Err(error) => return Err(error),
        };
        match self.constant() {
            Ok(init) => Ok((ty, init)),
            Err(error) => Err(error),
        }
    }

    /// A table: its type, and the constant expression of its elements, if it has one.
    pub fn table(&mut self) -> Result<DefinedTable<'a>, ModuleError>
        ensures place { IfOk result (λ x. x.at ≡ self.old.end - length self.old.rest.now) }
        ensures same_end { self.new.end ≡ self.old.end }
        ensures is { Gives (λ x. (table_value x, self.new.rest.now))
            result (table_part self.old.end self.old.rest.now) }
    {
        let at = self.at();
        match self.after_mark() {
            Some(after) => {
                *self = after;
                match self.initialized() {
                    Ok((ty, init)) => Ok(DefinedTable {
                        ty,
                        init: Some(init),
                        at,
                    }),
                    Err(error) => Err(error),
                }
            }
            None => match self.table_type() {
                Ok(ty) => Ok(DefinedTable { ty, init: None, at }),
                Err(error) => Err(error),
            },
        }
    }
}

/// The tables that a module defines, in order. Imported tables come before them. A fault is the last
/// item; a module that was read has none.
#[derive(Clone, Copy)]
pub struct Tables<'a> {
    /// The tables that are left.
    pub items: Items<'a>,
}

impl<'a> Iterator for Tables<'a> {
    ghost use Rattle.std.specs.Iterator.{at_most};
    ghost use Rattle.wasm_sections.specs.Views.{TakesTable};

    type Item = Result<DefinedTable<'a>, ModuleError>;

    ghost next_gives = { TakesTable };

    ghost remaining = { λ s. at_most s.items.count };

    fn next(&mut self) -> Option<Result<DefinedTable<'a>, ModuleError>> {
        let count = self.items.count.checked_sub(1)?;
        let mut left = self.items.left;
        match left.table() {
            Ok(table) => {
                self.items = Items { left, count };
                Some(Ok(table))
            }
            Err(error) => {
                self.items.count = 0;
                Some(Err(error))
            }
        }
    }
}
