//! The items of sections, copied.

ghost use Rattle.std.specs.Prelude.{◌≡◌, option_map, Ok, Err, IfOk, IfErr, IfSome};
ghost use Rattle.wasm_operators.specs.Types.{row_at};
ghost use Rattle.wasm_sections.specs.Format.{after_table_mark, export_rows, members_part};
ghost use Rattle.module_removal.specs.CopiedItems.{begins_group};

use crate::copier::Copier;
use crate::item::Item;
use crate::vectors::VectorOf;
use wasm_ops::{ReadFault, Space};
use wasm_sections::{Input, ModuleError, ModuleFault};

/// The index space of what is imported or exported under this kind (WebAssembly core specification 3.0, binary format,
/// exports).
pub(crate) fn space_of(kind: u8) -> Option<Space>
    ensures { result ≡ row_at export_rows kind }
{
    match kind {
        0 => Some(Space::Funcs),
        1 => Some(Space::Tables),
        2 => Some(Space::Memories),
        3 => Some(Space::Globals),
        4 => Some(Space::Tags),
        _ => None,
    }
}

/// Goes on with the value of a call, or returns its error. A call that may fail is handed on in this way, since no proof
/// is found where `?` does it.
macro_rules! done {
    ($call:expr) => {
        match $call {
            Ok(value) => value,
            Err(error) => return Err(error),
        }
    };
}

pub(crate) use done;

/// What follows the two bytes with which a table with an initial value begins; None of another table.
fn after_mark<'a>(input: &Input<'a>) -> Option<Input<'a>>
    ensures same_end { IfSome result (λ after. after.end ≡ input.now.end) }
    ensures is { option_map (λ after. after.rest.now) result ≡ after_table_mark input.now.rest.now }
{
    let mut after = *input;
    match after.byte() {
        Ok(0x40) => match after.byte() {
            Ok(0x00) => Some(after),
            _ => None,
        },
        _ => None,
    }
}

impl Copier<'_> {
    ghost use Rattle.std.specs.Prelude.{◌≡◌, ◌==◌, ◌%◌, nat_le, not};
    ghost use Rattle.wasm_sections.specs.Format.{after_table_mark};
    ghost use Rattle.module_removal.specs.LeftSpaces.{index_written};
    ghost use Rattle.module_removal.specs.CopiedParts.{Copies};
    ghost use Rattle.module_removal.specs.CopiedItems.{passed_byte, copied_table_type, copied_initialized, copied_table, copied_global_type, copied_global, copied_tag, copied_kind, copied_imported, copied_import, copied_export, copied_first, copied_target, copied_active, copied_place, copied_element_kind, copied_element_type, copied_elements, copied_typed_elements, copied_element, copied_data, copied_storage, copied_field, copied_function_type, copied_composite_kind, copied_aggregate, copied_composite_of, copied_composite, copied_supertypes, copied_derived, copied_subtype, copied_run, copied_defined};

    /// A byte that stays, and isn't returned.
    fn pass_byte(&mut self, input: &mut Input<'_>) -> Result<(), ModuleError>
        ensures same_end { input.new.end ≡ input.old.end }
        ensures is { Copies self.old self.new input.new.rest.now result
            (passed_byte input.old.end input.old.rest.now) }
    {
        done!(self.byte(input));
        Ok(())
    }

    /// The type of a table.
    fn table_type(&mut self, input: &mut Input<'_>) -> Result<(), ModuleError>
        ensures same_end { input.new.end ≡ input.old.end }
        ensures is { Copies self.old self.new input.new.rest.now result
            (copied_table_type (index_written self.old.left) input.old.end input.old.rest.now) }
    {
        done!(self.value_type(input));
        self.limits(input)
    }

    /// The type of a table after the bytes that say that a constant expression of its elements follows, and the expression.
    fn initialized(&mut self, input: &mut Input<'_>) -> Result<(), ModuleError>
        ensures same_end { input.new.end ≡ input.old.end }
        ensures is { Copies self.old self.new input.new.rest.now result
            (copied_initialized (index_written self.old.left) input.old.end input.old.rest.now) }
    {
        done!(self.put(&[0x40, 0x00]));
        done!(self.table_type(input));
        self.constant(input)
    }

    /// A table, with the constant expression of its elements, if it has one.
    pub fn table(&mut self, input: &mut Input<'_>) -> Result<(), ModuleError>
        ensures same_end { input.new.end ≡ input.old.end }
        ensures is { Copies self.old self.new input.new.rest.now result
            (copied_table (index_written self.old.left) input.old.end input.old.rest.now) }
    {
        match after_mark(input) {
            Some(after) => {
                *input = after;
                self.initialized(input)
            }
            None => self.table_type(input),
        }
    }

    /// The type of a global.
    fn global_type(&mut self, input: &mut Input<'_>) -> Result<(), ModuleError>
        ensures same_end { input.new.end ≡ input.old.end }
        ensures is { Copies self.old self.new input.new.rest.now result
            (copied_global_type (index_written self.old.left) input.old.end input.old.rest.now) }
    {
        done!(self.value_type(input));
        self.pass_byte(input)
    }

    /// A global.
    pub fn global(&mut self, input: &mut Input<'_>) -> Result<(), ModuleError>
        ensures same_end { input.new.end ≡ input.old.end }
        ensures is { Copies self.old self.new input.new.rest.now result
            (copied_global (index_written self.old.left) input.old.end input.old.rest.now) }
    {
        done!(self.global_type(input));
        self.constant(input)
    }

    /// A tag: its attribute and its type.
    pub fn tag(&mut self, input: &mut Input<'_>) -> Result<(), ModuleError>
        ensures same_end { input.new.end ≡ input.old.end }
        ensures is { Copies self.old self.new input.new.rest.now result
            (copied_tag (index_written self.old.left) input.old.end input.old.rest.now) }
    {
        done!(self.byte(input));
        self.index(input, Space::Types)
    }

    /// The kind of an import or export, which says the index space; this fault, if there is no such kind.
    fn kind(&mut self, fault: ModuleFault, input: &mut Input<'_>) -> Result<Space, ModuleError>
        ensures same_end { input.new.end ≡ input.old.end }
        ensures is { Copies self.old self.new input.new.rest.now result
            (copied_kind fault input.old.end input.old.rest.now) }
    {
        let begin = *input;
        let kind = done!(self.byte(input));
        match space_of(kind) {
            Some(space) => Ok(space),
            None => Err(begin.fault(fault)),
        }
    }

    /// What is imported in this space.
    fn imported(&mut self, space: Space, input: &mut Input<'_>) -> Result<(), ModuleError>
        ensures same_end { input.new.end ≡ input.old.end }
        ensures is { Copies self.old self.new input.new.rest.now result
            (copied_imported (index_written self.old.left) space input.old.end input.old.rest.now) }
    {
        match space {
            Space::Funcs => self.index(input, Space::Types),
            Space::Tables => self.table_type(input),
            Space::Memories => self.limits(input),
            Space::Globals => self.global_type(input),
            _ => self.tag(input),
        }
    }

    /// An import. Returns the index space that it is in.
    pub fn import(&mut self, input: &mut Input<'_>) -> Result<Space, ModuleError>
        ensures same_end { input.new.end ≡ input.old.end }
        ensures is { Copies self.old self.new input.new.rest.now result
            (copied_import (index_written self.old.left) input.old.end input.old.rest.now) }
    {
        done!(self.bytes(input));
        done!(self.bytes(input));
        let space = done!(self.kind(ModuleFault::BadImportKind, input));
        match self.imported(space, input) {
            Ok(()) => Ok(space),
            Err(error) => Err(error),
        }
    }

    /// An export.
    pub fn export(&mut self, input: &mut Input<'_>) -> Result<(), ModuleError>
        ensures same_end { input.new.end ≡ input.old.end }
        ensures is { Copies self.old self.new input.new.rest.now result
            (copied_export (index_written self.old.left) input.old.end input.old.rest.now) }
    {
        done!(self.bytes(input));
        let space = done!(self.kind(ModuleFault::BadExportKind, input));
        self.index(input, space)
    }

    /// The first item of a space, which is named by no index. It stays the first, as it comes before all others.
    fn first(&mut self, space: Space, input: &mut Input<'_>) -> Result<(), ModuleError>
        ensures same_end { input.new.end ≡ input.old.end }
        ensures is { Copies self.old self.new input.new.rest.now result
            (copied_first (index_written self.old.left) space input.old.end input.old.rest.now) }
    {
        match self.name(Item { space, index: 0 }, input.at()) {
            Ok(_) => Ok(()),
            Err(error) => Err(error),
        }
    }

    /// The table or memory of an active segment: the one with the index that follows, or the first one, which is named by no
    /// index.
    fn target(
        &mut self,
        has_index: bool,
        space: Space,
        input: &mut Input<'_>,
    ) -> Result<(), ModuleError>
        ensures same_end { input.new.end ≡ input.old.end }
        ensures is { Copies self.old self.new input.new.rest.now result
            (copied_target (index_written self.old.left) space has_index input.old.end
            input.old.rest.now) }
    {
        if has_index {
            self.index(input, space)
        } else {
            self.first(space, input)
        }
    }

    /// The target and the offset of an active segment.
    fn active(
        &mut self,
        has_index: bool,
        space: Space,
        input: &mut Input<'_>,
    ) -> Result<(), ModuleError>
        ensures same_end { input.new.end ≡ input.old.end }
        ensures is { Copies self.old self.new input.new.rest.now result
            (copied_active (index_written self.old.left) space has_index input.old.end
            input.old.rest.now) }
    {
        done!(self.target(has_index, space, input));
        self.constant(input)
    }

    /// The target and the offset of a segment, if it is active.
    fn place(
        &mut self,
        is_active: bool,
        has_index: bool,
        space: Space,
        input: &mut Input<'_>,
    ) -> Result<(), ModuleError>
        ensures same_end { input.new.end ≡ input.old.end }
        ensures is { Copies self.old self.new input.new.rest.now result
            (copied_place (index_written self.old.left) space is_active has_index input.old.end
            input.old.rest.now) }
    {
        if is_active {
            self.active(has_index, space, input)
        } else {
            Ok(())
        }
    }

    /// The type of the elements of a segment, or their kind.
    fn element_kind(&mut self, is_type: bool, input: &mut Input<'_>) -> Result<(), ModuleError>
        ensures same_end { input.new.end ≡ input.old.end }
        ensures is { Copies self.old self.new input.new.rest.now result
            (copied_element_kind (index_written self.old.left) is_type input.old.end
            input.old.rest.now) }
    {
        if is_type {
            self.value_type(input)
        } else {
            self.pass_byte(input)
        }
    }

    /// The kind or the type of the elements of a segment with these flags, if it has one.
    fn element_type(&mut self, flags: u32, input: &mut Input<'_>) -> Result<(), ModuleError>
        ensures same_end { input.new.end ≡ input.old.end }
        ensures is { Copies self.old self.new input.new.rest.now result
            (copied_element_type (index_written self.old.left) flags input.old.end
            input.old.rest.now) }
    {
        match flags % 4 {
            0 => Ok(()),
            _ => self.element_kind(flags >= 4, input),
        }
    }

    /// The elements of a segment: expressions, or indices of functions.
    fn elements(&mut self, are_expressions: bool, input: &mut Input<'_>) -> Result<(), ModuleError>
        ensures same_end { input.new.end ≡ input.old.end }
        ensures is { Copies self.old self.new input.new.rest.now result
            (copied_elements (index_written self.old.left) are_expressions input.old.end
            input.old.rest.now) }
    {
        if are_expressions {
            self.vector(VectorOf::Constants, input)
        } else {
            self.vector(VectorOf::Indices(Space::Funcs), input)
        }
    }

    /// The kind or the type of the elements of a segment with these flags, and its elements.
    fn typed_elements(&mut self, flags: u32, input: &mut Input<'_>) -> Result<(), ModuleError>
        ensures same_end { input.new.end ≡ input.old.end }
        ensures is { Copies self.old self.new input.new.rest.now result
            (copied_typed_elements (index_written self.old.left) flags input.old.end
            input.old.rest.now) }
    {
        done!(self.element_type(flags, input));
        self.elements(flags >= 4, input)
    }

    /// An element segment (WebAssembly core specification 3.0, binary format, element section).
    pub fn element(&mut self, input: &mut Input<'_>) -> Result<(), ModuleError>
        ensures same_end { input.new.end ≡ input.old.end }
        ensures is { Copies self.old self.new input.new.rest.now result
            (copied_element (index_written self.old.left) input.old.end input.old.rest.now) }
    {
        let flags = done!(self.number(input));
        // Bit 0 is that of segments without an offset.
        done!(self.place(flags % 2 == 0, flags % 4 == 2, Space::Tables, input));
        self.typed_elements(flags, input)
    }

    /// A data segment.
    pub fn data(&mut self, input: &mut Input<'_>) -> Result<(), ModuleError>
        ensures same_end { input.new.end ≡ input.old.end }
        ensures is { Copies self.old self.new input.new.rest.now result
            (copied_data (index_written self.old.left) input.old.end input.old.rest.now) }
    {
        let flags = done!(self.number(input));
        done!(self.place(flags != 1, flags == 2, Space::Memories, input));
        self.bytes(input)
    }

    /// The type of what a field contains: a value type, or one of 8 or 16 bits.
    fn storage(&mut self, input: &mut Input<'_>) -> Result<(), ModuleError>
        ensures same_end { input.new.end ≡ input.old.end }
        ensures is { Copies self.old self.new input.new.rest.now result
            (copied_storage (index_written self.old.left) input.old.end input.old.rest.now) }
    {
        match input.rest() {
            [0x77 | 0x78, ..] => self.pass_byte(input),
            _ => self.value_type(input),
        }
    }

    /// The type of a field, and its mutability.
    pub fn field(&mut self, input: &mut Input<'_>) -> Result<(), ModuleError>
        ensures same_end { input.new.end ≡ input.old.end }
        ensures is { Copies self.old self.new input.new.rest.now result
            (copied_field (index_written self.old.left) input.old.end input.old.rest.now) }
    {
        done!(self.storage(input));
        self.pass_byte(input)
    }

    /// The types of the parameters and of the results of a function type.
    fn function_type(&mut self, input: &mut Input<'_>) -> Result<(), ModuleError>
        ensures same_end { input.new.end ≡ input.old.end }
        ensures is { Copies self.old self.new input.new.rest.now result
            (copied_function_type (index_written self.old.left) input.old.end input.old.rest.now) }
    {
        done!(self.vector(VectorOf::Values, input));
        self.vector(VectorOf::Values, input)
    }

    /// The first byte of a function, struct or array type.
    fn composite_kind(&mut self, input: &mut Input<'_>) -> Result<u8, ModuleError>
        ensures same_end { input.new.end ≡ input.old.end }
        ensures is { Copies self.old self.new input.new.rest.now result
            (copied_composite_kind input.old.end input.old.rest.now) }
    {
        let begin = *input;
        match done!(self.byte(input)) {
            kind @ 0x5e..=0x60 => Ok(kind),
            _ => Err(begin.fault(ModuleFault::Read(ReadFault::BadType))),
        }
    }

    /// A struct or array type, after its first byte.
    fn aggregate(&mut self, is_struct: bool, input: &mut Input<'_>) -> Result<(), ModuleError>
        ensures same_end { input.new.end ≡ input.old.end }
        ensures is { Copies self.old self.new input.new.rest.now result
            (copied_aggregate (index_written self.old.left) is_struct input.old.end input.old.rest.now) }
    {
        if is_struct {
            self.vector(VectorOf::Fields, input)
        } else {
            self.field(input)
        }
    }

    /// A function, struct or array type, after its first byte.
    fn composite_after(
        &mut self,
        is_function: bool,
        is_struct: bool,
        input: &mut Input<'_>,
    ) -> Result<(), ModuleError>
        ensures same_end { input.new.end ≡ input.old.end }
        ensures is { Copies self.old self.new input.new.rest.now result
            (copied_composite_of (index_written self.old.left) is_function is_struct input.old.end
            input.old.rest.now) }
    {
        if is_function {
            self.function_type(input)
        } else {
            self.aggregate(is_struct, input)
        }
    }

    /// A function, struct or array type.
    fn composite(&mut self, input: &mut Input<'_>) -> Result<(), ModuleError>
        ensures same_end { input.new.end ≡ input.old.end }
        ensures is { Copies self.old self.new input.new.rest.now result
            (copied_composite (index_written self.old.left) input.old.end input.old.rest.now) }
    {
        let kind = done!(self.composite_kind(input));
        self.composite_after(kind == 0x60, kind == 0x5f, input)
    }

    /// The byte before the supertypes of a type, and the vector of these.
    fn supertypes(&mut self, input: &mut Input<'_>) -> Result<(), ModuleError>
        ensures same_end { input.new.end ≡ input.old.end }
        ensures is { Copies self.old self.new input.new.rest.now result
            (copied_supertypes (index_written self.old.left) input.old.end input.old.rest.now) }
    {
        done!(self.byte(input));
        self.vector(VectorOf::Indices(Space::Types), input)
    }

    /// A type with its supertypes.
    fn derived(&mut self, input: &mut Input<'_>) -> Result<(), ModuleError>
        ensures same_end { input.new.end ≡ input.old.end }
        ensures is { Copies self.old self.new input.new.rest.now result
            (copied_derived (index_written self.old.left) input.old.end input.old.rest.now) }
    {
        done!(self.supertypes(input));
        self.composite(input)
    }

    /// A type, with its supertypes, if it has any.
    pub fn subtype(&mut self, input: &mut Input<'_>) -> Result<(), ModuleError>
        ensures same_end { input.new.end ≡ input.old.end }
        ensures is { Copies self.old self.new input.new.rest.now result
            (copied_subtype (index_written self.old.left) input.old.end input.old.rest.now) }
    {
        match input.rest() {
            [0x4f | 0x50, ..] => self.derived(input),
            _ => self.composite(input),
        }
    }

    /// A run of locals: how many, and their type.
    pub fn run(&mut self, input: &mut Input<'_>) -> Result<(), ModuleError>
        ensures same_end { input.new.end ≡ input.old.end }
        ensures is { Copies self.old self.new input.new.rest.now result
            (copied_run (index_written self.old.left) input.old.end input.old.rest.now) }
    {
        done!(self.number(input));
        self.value_type(input)
    }

    /// An item of this space that a section defines.
    pub fn defined(&mut self, space: Space, input: &mut Input<'_>) -> Result<(), ModuleError>
        ensures same_end { input.new.end ≡ input.old.end }
        ensures is { Copies self.old self.new input.new.rest.now result
            (copied_defined (index_written self.old.left) space input.old.end input.old.rest.now) }
    {
        match space {
            Space::Tables => self.table(input),
            Space::Memories => self.limits(input),
            Space::Tags => self.tag(input),
            Space::Globals => self.global(input),
            Space::Elements => self.element(input),
            Space::Data => self.data(input),
            _ => self.index(input, Space::Types),
        }
    }
}

/// The number of types in the recursive group at the front, and whether it is marked as one; a type alone is a group of one.
pub(crate) fn group_members(input: &mut Input<'_>) -> Result<(u32, bool), ModuleError>
    ensures same_end { input.new.end ≡ input.old.end }
    ensures count { IfOk result
        (λ x. members_part input.old.end input.old.rest.now ≡ Ok (x.0, input.new.rest.now)) }
    ensures mark { IfOk result (λ x. x.1 ≡ begins_group input.old.rest.now) }
    ensures err { IfErr result (λ error. members_part input.old.end input.old.rest.now ≡ Err error) }
{
    if !matches!(input.rest(), [0x4e, ..]) {
        return Ok((1, false));
    }
    done!(input.byte());
    match input.number() {
        Ok(count) => Ok((count, true)),
        Err(error) => Err(error),
    }
}
