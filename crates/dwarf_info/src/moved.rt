//! What becomes of the entries of a section.

ghost use Rattle.std.specs.Prelude.{◌≡◌, ◌↔◌, ◌||◌, [], IsTrue};

use crate::form::{Layout, Value, write_number};
use code_moves::Body;
use dwarf_bytes::{Address, AddressTable, AddressUses, DebugError, DebugFault, Format, Patches};
use dwarf_expressions::{Encoding, moved_expression};
use dwarf_line::Moved;
use std::alloc::Global;

/// Where a list is in its section.
#[derive(Clone, Copy, Debug, PartialEq, Eq)]
pub enum ListPlace {
    /// At this offset.
    Offset(u64),
    /// Where the unit's table of lists at the first offset says for this index (DWARF 5, sections 7.28 and 7.29).
    Index(u64, u64),
}

/// A list of ranges or of locations that an entry has.
#[derive(Clone, Copy, Debug, PartialEq, Eq)]
pub struct ListUse {
    /// Where it is.
    pub place: ListPlace,
    /// The address that it is counted from.
    pub base: u64,
    /// The offset of the unit's addresses in `.debug_addr`.
    pub addresses: u64,
    /// How the unit is spelt.
    pub encoding: Encoding,
}

/// The code of an entry of a function or of a unit.
#[derive(Clone, Copy, Debug, PartialEq, Eq, PartialOrd, Ord)]
pub struct CodeRange {
    /// The offset of its unit.
    pub unit: u64,
    /// Its first address.
    pub begin: u64,
    /// How many bytes it has.
    pub length: u64,
}

/// What becomes of the entries of a section.
#[derive(Drop)]
pub struct MovedEntries<'t> {
    // what of the section is replaced
    patches: Patches,
    // the lists of ranges and of locations that are moved, in the order of the entries
    ranges: Vec<ListUse>,
    locations: Vec<ListUse>,
    // the code of functions and of units, if it is kept, in the order of the entries
    code: Vec<CodeRange>,
    keeps_code: bool,
    // what becomes of the addresses that are named by index
    addresses: AddressUses,
    // where line tables go, by ascending offsets
    tables: &'t [Moved],
    // whether an expression names an entry
    names_entries: bool,
    // the value that is written, and its expression
    scratch: Vec<u8>,
    expression: Vec<u8>,
}

impl<'t> MovedEntries<'t> {
    ghost use Rattle.std.specs.Prelude.{ℕ, ◌≡◌, ◌⊎◌, ◌-◌, ◌++◌, ◌∷◌, List, [], length, Bool, false, option_map, Ok, Err, IfOk, IfErr, OnOk};
    ghost use Rattle.std.specs.Option.{option_copied};
    ghost use Rattle.dwarf_bytes.specs.declared.fault.DebugFault.{DebugFault as AFault};
    ghost use Rattle.dwarf_bytes.specs.declared.fault.DebugFault.TheVariants as faults;
    ghost use Rattle.dwarf_bytes.specs.declared.fault.DebugError.TheVariants.{Memory, Fault};
    ghost use Rattle.dwarf_bytes.specs.Addresses.{addresses_of_table};
    ghost use Rattle.dwarf_bytes.specs.Patches as patches;
    ghost use Rattle.dwarf_bytes.specs.Uses.{none_added};
    ghost use Rattle.dwarf_expressions.specs.Expressions.{ExpressionOperation, IsExpression};
    ghost use Rattle.dwarf_expressions.specs.Moving.{IsAppendedOfExpression, IsRefusedOfExpression};
    ghost use Rattle.dwarf_info.specs.EntryViews.{entries_moved};
    ghost use Rattle.dwarf_info.specs.Forms.{number_size, number_written, FitsForm};
    ghost use Rattle.dwarf_info.specs.Views.{value_spelled};
    ghost use Rattle.dwarf_info.specs.Taken.{code_noted, address_told, ranges_used, locations_used, or_names, change_of_value, IsReplaced, IsNotReplaced, IsNumberSet, IsNumberNotSet, IsTableFrom, IsTableSet, IsTableNotSet, names_a_local, IsRefusedInRanges, IsExpressionWritten, IsExpressionNotWritten};

    /// Nothing has moved yet. Line tables go there, by ascending offsets. `keeps_code`: whether `code` is wanted.
    pub fn new(alloc: Global, tables: &'t [Moved], keeps_code: bool) -> MovedEntries<'t>
        ensures { entries_moved result ≡ record { changes = []; ranges = []; locations = []; code = []; keeps_code = keeps_code; told = []; longer = []; tables = tables.now; names_entries = false } }
    {
        MovedEntries {
            patches: Patches::new(alloc),
            ranges: Vec::new(alloc),
            locations: Vec::new(alloc),
            code: Vec::new(alloc),
            keeps_code,
            addresses: AddressUses::new(alloc),
            tables,
            names_entries: false,
            scratch: Vec::new(alloc),
            expression: Vec::new(alloc),
        }
    }

    /// What of the section is replaced.
    pub fn patches(&self) -> &Patches
        ensures { patches.changes result.now ≡ (entries_moved self.now).changes }
    {
        &self.patches
    }

    /// The lists of ranges that are moved, in the order of the entries that have them.
    pub fn ranges(&self) -> &[ListUse]
        ensures { result.now ≡ (entries_moved self.now).ranges }
    {
        &self.ranges
    }

    /// The lists of locations that are moved, in the order of the entries that have them.
    pub fn locations(&self) -> &[ListUse]
        ensures { result.now ≡ (entries_moved self.now).locations }
    {
        &self.locations
    }

    /// The addresses that are named by index as those of code, and what each becomes.
    pub fn addresses(&self) -> &AddressUses
        ensures { result.now ≡ self.now.addresses }
    {
        &self.addresses
    }

    /// An address that is named by index becomes this one.
    pub fn use_address(&mut self, address: Address, new: u64) -> Result<(), DebugError>
        ensures told { OnOk result (entries_moved self.new ≡ address_told (entries_moved self.old) address new) }
        ensures memory { IfErr result (λ e. e ≡ Memory) }
    {
        self.addresses.push(address, new)
    }

    /// An address of this table is used that is no address. Returns its index.
    pub fn use_no_address(
        &mut self,
        table: &AddressTable<'_>,
        format: Format,
    ) -> Result<u64, DebugError>
        ensures added { IfOk result (λ index. none_added (addresses_of_table table.now) format (entries_moved self.old).longer
            ≡ Ok (index, (entries_moved self.new).longer)) }
        ensures others { entries_moved self.new ≡ record (entries_moved self.old) { longer = (entries_moved self.new).longer } }
        ensures refused { IfErr result (λ e. (e ≡ Memory) ⊎ ((fault : AFault) × (e ≡ Fault fault)
            × (none_added (addresses_of_table table.now) format (entries_moved self.old).longer ≡ Err fault))) }
    {
        self.addresses.push_none(table, format)
    }

    /// The code of functions and of units, in the order of the entries, if it is kept.
    pub fn code(&self) -> &[CodeRange]
        ensures { result.now ≡ (entries_moved self.now).code }
    {
        &self.code
    }

    /// An entry of a function or of a unit has this code.
    pub fn has_code(&mut self, range: CodeRange) -> Result<(), DebugError>
        ensures noted { OnOk result (entries_moved self.new ≡ code_noted (entries_moved self.old) range) }
        ensures memory { IfErr result (λ e. e ≡ Memory) }
    {
        if self.keeps_code {
            self.code.push(range)?;
        }
        Ok(())
    }

    /// Whether an expression names an entry by its offset.
    pub fn names_entries(&self) -> bool
        ensures { result ≡ (entries_moved self.now).names_entries }
    {
        self.names_entries
    }

    /// A list of ranges is moved.
    pub fn use_ranges(&mut self, list: ListUse) -> Result<(), DebugError>
        ensures used { OnOk result (entries_moved self.new ≡ ranges_used (entries_moved self.old) list) }
        ensures memory { IfErr result (λ e. e ≡ Memory) }
    {
        self.ranges.push(list)?;
        Ok(())
    }

    /// A list of locations is moved.
    pub fn use_locations(&mut self, list: ListUse) -> Result<(), DebugError>
        ensures used { OnOk result (entries_moved self.new ≡ locations_used (entries_moved self.old) list) }
        ensures memory { IfErr result (λ e. e ≡ Memory) }
    {
        self.locations.push(list)?;
        Ok(())
    }

    /// The value becomes what is in `scratch`.
    fn replace(&mut self, value: &Value<'_>) -> Result<(), DebugError>
        ensures replaced { OnOk result (IsReplaced (value_spelled value.now) self.old.scratch.items
            (entries_moved self.old) (entries_moved self.new)) }
        ensures refused { IfErr result (λ e. (e ≡ Memory) ⊎ ((fault : AFault) × (e ≡ Fault fault)
            × IsNotReplaced (value_spelled value.now) (entries_moved self.old) fault)) }
    {
        self.patches.push(value.at, value.size, &self.scratch)
    }

    /// The number of a value becomes this one.
    ///
    /// # Errors
    ///
    /// `DoesNotFit` if its field has too few bytes; out of memory.
    pub fn set_number(
        &mut self,
        layout: Layout,
        encoding: Encoding,
        value: &Value<'_>,
        number: u64,
    ) -> Result<(), DebugError>
        ensures set { OnOk result (IsNumberSet encoding layout (value_spelled value.now) number
            (entries_moved self.old) (entries_moved self.new)) }
        ensures refused { IfErr result (λ e. (e ≡ Memory) ⊎ ((fault : AFault) × (e ≡ Fault fault)
            × IsNumberNotSet encoding layout (value_spelled value.now) number (entries_moved self.old) fault)) }
    {
        if number == value.number {
            return Ok(());
        }
        self.scratch.clear();
        write_number(&mut self.scratch, layout, encoding, value.size, number)?;
        self.replace(value)
    }

    // the line table that was at this offset
    fn table(&self, offset: u64) -> Option<&'t Moved>
        ensures { IsTableFrom self.now.tables.now offset (option_copied result) }
    {
        let place = self.tables.partition_point(|table| table.old < offset);
        match self.tables.get(place) {
            Some(table) if table.old == offset => Some(table),
            _ => None,
        }
    }

    /// The offset of a line table becomes its new one.
    ///
    /// # Errors
    ///
    /// `BadOffset` if no line table begins there; those of `set_number`.
    pub fn set_line_table(
        &mut self,
        layout: Layout,
        encoding: Encoding,
        value: &Value<'_>,
    ) -> Result<(), DebugError>
        ensures set { OnOk result (IsTableSet encoding layout (value_spelled value.now)
            (entries_moved self.old) (entries_moved self.new)) }
        ensures refused { IfErr result (λ e. (e ≡ Memory) ⊎ ((fault : AFault) × (e ≡ Fault fault)
            × IsTableNotSet encoding layout (value_spelled value.now) (entries_moved self.old) fault)) }
    {
        match self.table(value.number) {
            Some(table) => self.set_number(layout, encoding, value, table.new),
            None => Err(DebugError::Fault(DebugFault::BadOffset)),
        }
    }

    /// Checks that an expression names no local, since it isn't known of which function that would be.
    ///
    /// # Errors
    ///
    /// `Unsupported` if it names one; those of `moved_expression`.
    pub fn check_no_locals(
        &mut self,
        expression: &[u8],
        encoding: Encoding,
    ) -> Result<(), DebugError>
        ensures same { entries_moved self.new ≡ entries_moved self.old }
        ensures none { OnOk result ((os : List ExpressionOperation) × IsExpression encoding expression.now os × (names_a_local os ≡ false)) }
        ensures refused { IfErr result (λ e. (e ≡ Memory) ⊎ ((fault : AFault) × (e ≡ Fault fault)
            × IsRefusedInRanges encoding expression.now fault)) }
    {
        let body = body_without_locals(self.patches.allocator());
        self.expression.clear();
        moved_expression(expression, encoding, Some(&body), &mut self.expression)?;
        if expression.is_empty() {
            return Ok(());
        }
        if self.expression.as_slice().is_empty() {
            return Err(DebugError::Fault(DebugFault::Unsupported));
        }
        Ok(())
    }

    /// The locals of an expression get the indices that they have in this body.
    ///
    /// # Errors
    ///
    /// Those of `moved_expression`; `DoesNotFit` if the expression's size doesn't fit its field.
    pub fn set_expression(
        &mut self,
        layout: Layout,
        encoding: Encoding,
        value: &Value<'_>,
        body: Option<&Body>,
    ) -> Result<(), DebugError>
        ensures set { OnOk result ((os : List ExpressionOperation) × (bytes : List ℕ) × (names : Bool)
            × IsExpression encoding value.now.block.now os
            × IsAppendedOfExpression encoding (option_map (λ b. b.now) body.entry) value.now.block.now os bytes names
            × IsExpressionWritten encoding layout (value_spelled value.now) bytes
            (or_names (entries_moved self.old) names) (entries_moved self.new)) }
        ensures refused { IfErr result (λ e. (e ≡ Memory) ⊎ ((fault : AFault) × (e ≡ Fault fault)
            × (IsRefusedOfExpression encoding (option_map (λ b. b.now) body.entry) value.now.block.now fault
            ⊎ ((os : List ExpressionOperation) × (bytes : List ℕ) × (names : Bool)
            × IsExpression encoding value.now.block.now os
            × IsAppendedOfExpression encoding (option_map (λ b. b.now) body.entry) value.now.block.now os bytes names
            × IsExpressionNotWritten encoding layout (value_spelled value.now) bytes
            (or_names (entries_moved self.old) names) fault)))) }
    {
        self.expression.clear();
        let names = moved_expression(value.block, encoding, body, &mut self.expression)?;
        self.names_entries = either(self.names_entries, names);
        if is_same(self.expression.as_slice(), value.block) {
            return Ok(());
        }
        self.write_expression(layout, encoding, value)
    }

    // The value becomes the expression that was moved, with how many bytes it has.
    fn write_expression(
        &mut self,
        layout: Layout,
        encoding: Encoding,
        value: &Value<'_>,
    ) -> Result<(), DebugError>
        ensures written { OnOk result (FitsForm (number_size encoding layout) (length self.old.expression.items)
            × IsReplaced (value_spelled value.now) (number_written (number_size encoding layout)
            (value.now.size - length value.now.block.now) (length self.old.expression.items) ++ self.old.expression.items)
            (entries_moved self.old) (entries_moved self.new)) }
        ensures refused { IfErr result (λ e. (e ≡ Memory) ⊎ ((fault : AFault) × (e ≡ Fault fault)
            × (((fault ≡ faults.DoesNotFit) × (¬ FitsForm (number_size encoding layout) (length self.old.expression.items)))
            ⊎ (FitsForm (number_size encoding layout) (length self.old.expression.items)
            × IsNotReplaced (value_spelled value.now) (entries_moved self.old) fault)))) }
    {
        self.scratch.clear();
        let width = value.size.saturating_sub(value.block.len());
        let count = self.expression.as_slice().len() as u64;
        write_number(&mut self.scratch, layout, encoding, width, count)?;
        self.scratch.extend_from_slice(self.expression.as_slice())?;
        self.replace(value)
    }
}

// whether one of two is so
fn either(one: bool, other: bool) -> bool
    ensures { result ≡ (one || other) }
{
    one || other
}

// whether these are the same bytes
fn is_same(bytes: &[u8], others: &[u8]) -> bool
    ensures { IsTrue result ↔ (bytes.now ≡ others.now) }
{
    bytes == others
}

// A body that keeps no locals: an expression that names one is empty in it.
fn body_without_locals(alloc: Global) -> Body
    ensures none { result.locals.items ≡ [] }
    ensures parameters { result.parameters ≡ 0 }
{
    Body {
        begin: 0,
        end: 1,
        new_begin: 0,
        new_end: 1,
        runs: Vec::new(alloc),
        parameters: 0,
        locals: Vec::new(alloc),
    }
}
