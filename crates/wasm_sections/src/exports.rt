//! Exports (WebAssembly core specification 3.0, binary format, modules).

ghost use Rattle.std.specs.Prelude.{◌≡◌, ◌≢◌, ◌↔◌, ◌-◌, length, IsSome, IfOk, IfErr, IfSome};
ghost use Rattle.wasm_sections.specs.Views.{export_value, IsAmongExports, HasExport};
ghost use Rattle.wasm_numbers.specs.Results.{Gives, some_or};
ghost use Rattle.walrus_maps.specs.IndexMaps.{ids_in};
ghost use Rattle.wasm_sections.specs.declared.fault.ModuleFault.TheVariants.{BadExportKind, ExportTaken};
ghost use Rattle.wasm_sections.specs.Format.{export_space, kind_of_export, id_found, export_part, index_part, known_export_part};

use crate::fault::{ModuleError, ModuleFault};
use crate::input::Input;
use crate::items::Items;
use walrus_maps::IndicesToIds;
use wasm_body::{IndexError, Space};

/// The index space of what an export of this kind names.
fn exported_space(kind: u8) -> Option<Space>
    ensures { export_space kind ≡ some_or result BadExportKind }
{
    match kind {
        0 => Some(Space::Funcs),
        1 => Some(Space::Tables),
        2 => Some(Space::Memories),
        3 => Some(Space::Globals),
        4 => Some(Space::Tags),
        _ => None,
    }
}

/// The kind of an export that names something in this index space; `None` if none does.
pub fn export_kind(space: Space) -> Option<u8>
    ensures { kind_of_export space ≡ result }
{
    match space {
        Space::Funcs => Some(0),
        Space::Tables => Some(1),
        Space::Memories => Some(2),
        Space::Globals => Some(3),
        Space::Tags => Some(4),
        Space::Types | Space::Elements | Space::Data => None,
    }
}

/// `OutOfRange` if nothing in the space has this index.
fn check_index(indices: &IndicesToIds, space: Space, index: u32) -> Result<(), IndexError>
    ensures { Gives (λ _. tt) result (id_found indices.now space index) }
{
    match space {
        Space::Tables => indices.get_table(index).map(|_| ()),
        Space::Types => indices.get_type(index).map(|_| ()),
        Space::Funcs => indices.get_func(index).map(|_| ()),
        Space::Globals => indices.get_global(index).map(|_| ()),
        Space::Memories => indices.get_memory(index).map(|_| ()),
        Space::Elements => indices.get_element(index).map(|_| ()),
        Space::Data => indices.get_data(index).map(|_| ()),
        Space::Tags => indices.get_tag(index).map(|_| ()),
    }
}

impl Input<'_> {
    /// Reads past an index of this space; `IndexOutOfRange` if nothing has it.
    pub fn index_in(&mut self, indices: &IndicesToIds, space: Space) -> Result<(), ModuleError>
        ensures same_end { self.new.end ≡ self.old.end }
        ensures is { Gives (λ _. (tt, self.new.rest.now)) result (index_part
            (length (ids_in indices.now space)) space self.old.end self.old.rest.now) }
    {
        let begin = *self;
        let index = self.number()?;
        match check_index(indices, space, index) {
            Ok(()) => Ok(()),
            Err(error) => Err(ModuleError::of_index(error, begin.at())),
        }
    }

    /// Reads past an export; `BadExportKind` if no export is of its kind.
    pub fn export(&mut self, indices: &IndicesToIds) -> Result<(), ModuleError>
        ensures same_end { self.new.end ≡ self.old.end }
        ensures is { Gives (λ _. (tt, self.new.rest.now)) result (known_export_part
            (λ space. length (ids_in indices.now space)) self.old.end self.old.rest.now) }
    {
        self.name()?;
        let begin = *self;
        match exported_space(self.byte()?) {
            Some(space) => self.index_in(indices, space),
            None => Err(begin.fault(ModuleFault::BadExportKind)),
        }
    }
}

/// An export.
#[derive(Clone, Copy, Debug)]
pub struct Export<'a> {
    /// Its name.
    pub name: &'a str,
    /// The index space of what it names.
    pub space: Space,
    /// The index of what it names.
    pub index: u32,
    /// Its place: a byte offset from the start of the file.
    pub at: usize,
}

impl<'a> Input<'a> {
    /// An export, whose index isn't looked up; `BadExportKind` if no export is of its kind.
    pub(crate) fn read_export(&mut self) -> Result<Export<'a>, ModuleError>
        ensures place { IfOk result (λ x. x.at ≡ self.old.end - length self.old.rest.now) }
        ensures same_end { self.new.end ≡ self.old.end }
        ensures is { Gives (λ x. (export_value x, self.new.rest.now)) result
            (export_part self.old.end self.old.rest.now) }
    {
        let at = self.at();
        let name = self.name()?;
        let begin = *self;
        let kind = self.byte()?;
        let Some(space) = exported_space(kind) else {
            return Err(begin.fault(ModuleFault::BadExportKind));
        };
        let index = self.number()?;
        Ok(Export {
            name,
            space,
            index,
            at,
        })
    }
}

/// The exports of a module, in order. A fault is the last item; a module that was read has none.
#[derive(Clone, Copy)]
pub struct Exports<'a> {
    /// The exports that are left.
    pub items: Items<'a>,
}

impl Exports<'_> {
    /// The place of the first export with this name; `None` if no export has it.
    fn place_of(self, name: &str) -> Result<Option<usize>, ModuleError>
        ensures found { IfOk result (λ place. IsSome place ↔ IsAmongExports name.now
            self.entry.items.count self.entry.items.left.end self.entry.items.left.rest.now) }
        ensures refused { IfErr result (λ error. error.fault ≢ ExportTaken) }
    {
        'exports: for export in self {
            let export = match export {
                Ok(export) => export,
                Err(error) => return Err(error),
            };
            if export.name == name {
                return Ok(Some(export.at));
            }
        }
        Ok(None)
    }

    /// The place of the first export with this name among these contents of an export section; `None`
    /// if no export has it.
    ///
    /// # Errors
    ///
    /// The first fault of the contents, if no export before it has the name.
    pub fn place_in(contents: Input<'_>, name: &str) -> Result<Option<usize>, ModuleError>
        ensures found { IfOk result (λ place. IsSome place ↔ HasExport name.now contents.entry.end
            contents.entry.rest.now) }
        ensures refused { IfErr result (λ error. error.fault ≢ ExportTaken) }
    {
        match Items::of_contents(contents) {
            Ok(items) => (Exports { items }).place_of(name),
            Err(error) => Err(error),
        }
    }
}

impl<'a> Iterator for Exports<'a> {
    ghost use Rattle.std.specs.Iterator.{at_most};
    ghost use Rattle.wasm_sections.specs.Views.{TakesExport};

    type Item = Result<Export<'a>, ModuleError>;

    ghost next_gives = { TakesExport };

    ghost remaining = { λ s. at_most s.items.count };

    fn next(&mut self) -> Option<Result<Export<'a>, ModuleError>> {
        let count = self.items.count.checked_sub(1)?;
        let mut left = self.items.left;
        match left.read_export() {
            Ok(export) => {
                self.items = Items { left, count };
                Some(Ok(export))
            }
            Err(error) => {
                self.items.count = 0;
                Some(Err(error))
            }
        }
    }
}
