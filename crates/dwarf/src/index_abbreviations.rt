//! How the entries of a name index are spelt (DWARF 5, section 6.1.1.4.7).

ghost use Rattle.std.specs.Prelude.{◌≡◌, ◌<◌, ◌≤◌, ◌⊎◌, ◌++◌, [], List, map, not, length, Ok, Err, IfOk, IfErr, OnOk};
ghost use Rattle.std.specs.List.Sorted.{IsNonDecreasingBy};
ghost use Rattle.wasm_numbers.specs.Results.{Gives, unless};
ghost use Rattle.dwarf_bytes.specs.declared.fault.DebugFault.{DebugFault as AFault};
ghost use Rattle.dwarf_bytes.specs.declared.fault.DebugFault.TheVariants.{Unsupported};
ghost use Rattle.dwarf_bytes.specs.declared.fault.DebugError.TheVariants.{Memory, Fault};
ghost use Rattle.dwarf.specs.declared.index_abbreviations.IndexAbbreviation.{IndexAbbreviation as AnAbbreviation};
ghost use Rattle.dwarf.specs.declared.index_abbreviations.IndexAttribute.{IndexAttribute as AnAttribute};
ghost use Rattle.dwarf.specs.IndexEntries.{index_attribute, index_specification, index_attributes, index_declaration, declarations_at_most, repeats, repeats_number};
ghost use Rattle.dwarf.specs.IndexInMemory.{index_specification_of, ReadsIndexDeclaration, ReadsIndexTable};
ghost use Rattle.dwarf.specs.IndexSound.{AreIndexAbbreviations, AreIndexAbbreviations-prop};
ghost use Rattle.dwarf.specs.NameIndex.{index_meaning, index_form, index_value};

use dwarf_bytes::{Cursor, DebugError, DebugFault, Size};
use std::alloc::Global;

/// What the value of an attribute of an index means (DWARF 5, table 6.1).
#[derive(Clone, Copy, Debug, PartialEq, Eq)]
pub(crate) enum IndexMeaning {
    /// Which compile unit an entry is in (DW_IDX_compile_unit).
    CompileUnit,
    /// Which type unit it is in (DW_IDX_type_unit).
    TypeUnit,
    /// Its offset from its unit's first byte (DW_IDX_die_offset).
    Entry,
    /// Nothing that depends on where entries are (DW_IDX_parent, DW_IDX_type_hash, and those of GNU).
    Other,
}

/// How a value that takes bytes is spelt.
#[derive(Clone, Copy, Debug, PartialEq, Eq)]
pub(crate) enum IndexForm {
    /// A number of this size.
    Sized(Size),
    /// An unsigned LEB128 number.
    Unsigned,
}

/// An attribute whose value takes bytes.
#[derive(Clone, Copy)]
pub(crate) struct IndexAttribute {
    /// What its value means.
    pub meaning: IndexMeaning,
    /// How its value is spelt.
    pub form: IndexForm,
}

/// What the specification of an attribute says.
#[derive(Clone, Copy)]
enum IndexSpecification {
    /// An attribute whose value takes bytes.
    Attribute(IndexAttribute),
    /// An attribute whose value takes none.
    WithoutBytes,
    /// There are no more.
    End,
}

/// An abbreviation: its attributes are these of the list of all.
#[derive(Clone, Copy)]
struct IndexAbbreviation {
    code: u64,
    first: usize,
    end: usize,
}

/// The abbreviations of an index, by ascending codes.
#[derive(Drop)]
pub(crate) struct IndexAbbreviations {
    attributes: Vec<IndexAttribute>,
    abbreviations: Vec<IndexAbbreviation>,
    ghost sound: { AreIndexAbbreviations abbreviations.items (length attributes.items) } by { AreIndexAbbreviations-prop abbreviations.items (length attributes.items) },
}

impl IndexMeaning {
    /// What the attribute of this number means.
    ///
    /// # Errors
    ///
    /// `Unsupported` if it isn't known.
    fn of(name: u64) -> Result<IndexMeaning, DebugFault>
        ensures { result ≡ index_meaning name }
    {
        match name {
            1 => Ok(IndexMeaning::CompileUnit),
            2 => Ok(IndexMeaning::TypeUnit),
            3 => Ok(IndexMeaning::Entry),
            // DW_IDX_parent, DW_IDX_type_hash, DW_IDX_GNU_internal, DW_IDX_GNU_external
            4 | 5 | 0x2000 | 0x2001 => Ok(IndexMeaning::Other),
            _ => Err(DebugFault::Unsupported),
        }
    }
}

impl IndexForm {
    /// The form of this number (DWARF 5, section 7.5.6); None if its value takes no bytes.
    ///
    /// # Errors
    ///
    /// `UnknownForm` if it is none of a constant, a flag or a reference.
    fn of(number: u64) -> Result<Option<IndexForm>, DebugFault>
        ensures { result ≡ index_form number }
    {
        match number {
            // data1, flag, ref1
            0x0b | 0x0c | 0x11 => Ok(Some(IndexForm::Sized(Size::One))),
            // data2, ref2
            0x05 | 0x12 => Ok(Some(IndexForm::Sized(Size::Two))),
            // data4, ref4
            0x06 | 0x13 => Ok(Some(IndexForm::Sized(Size::Four))),
            // data8, ref8
            0x07 | 0x14 => Ok(Some(IndexForm::Sized(Size::Eight))),
            // udata, ref_udata
            0x0f | 0x15 => Ok(Some(IndexForm::Unsigned)),
            // flag_present
            0x19 => Ok(None),
            _ => Err(DebugFault::UnknownForm),
        }
    }

    /// Reads a value.
    ///
    /// # Errors
    ///
    /// `Truncated` or `BadNumber`.
    pub(crate) fn read(self, input: &mut Cursor<'_>) -> Result<u64, DebugFault>
        ensures gives { Gives (λ x. (x, input.new.rest.now)) result (index_value self input.old.rest.now) }
        ensures end { input.new.end ≡ input.old.end }
        ensures shorter { length input.new.rest.now ≤ length input.old.rest.now }
    {
        match self {
            IndexForm::Sized(size) => input.sized(size),
            IndexForm::Unsigned => input.unsigned(),
        }
    }
}

/// An attribute with this meaning and form; None if its value takes no bytes, as one may that says nothing of where an entry is.
///
/// # Errors
///
/// `Unsupported` if another takes none.
fn attribute_with(
    meaning: IndexMeaning,
    form: Option<IndexForm>,
) -> Result<Option<IndexAttribute>, DebugFault>
    ensures { result ≡ index_attribute meaning form }
{
    match (form, meaning) {
        (Some(form), meaning) => Ok(Some(IndexAttribute { meaning, form })),
        (None, IndexMeaning::Other) => Ok(None),
        (None, _) => Err(DebugFault::Unsupported),
    }
}

/// Reads the next specification of an attribute, or the two zeros that end them.
fn read_specification(input: &mut Cursor<'_>) -> Result<IndexSpecification, DebugFault>
    ensures gives { Gives (λ x. (index_specification_of x, input.new.rest.now)) result (index_specification input.old.rest.now) }
    ensures shorter { OnOk result (length input.new.rest.now < length input.old.rest.now) }
{
    let name = input.unsigned()?;
    let form = input.unsigned()?;
    if name == 0 && form == 0 {
        return Ok(IndexSpecification::End);
    }
    let meaning = IndexMeaning::of(name)?;
    let form = IndexForm::of(form)?;
    match attribute_with(meaning, form)? {
        Some(attribute) => Ok(IndexSpecification::Attribute(attribute)),
        None => Ok(IndexSpecification::WithoutBytes),
    }
}

/// Reads the attributes of an abbreviation up to the pair of zeros that ends them. An attribute whose value takes no bytes
/// isn't kept, so that an entry has no more of them than bytes.
fn read_attributes(
    input: &mut Cursor<'_>,
    attributes: &mut Vec<IndexAttribute>,
) -> Result<(), DebugError>
    ensures read { OnOk result ((added : List AnAttribute) × (attributes.new.items ≡ attributes.old.items ++ added)
        × (index_attributes input.old.rest.now ≡ Ok (added, input.new.rest.now))) }
    ensures refused { IfErr result (λ e. (e ≡ Memory) ⊎ ((fault : AFault) × (e ≡ Fault fault)
        × (index_attributes input.old.rest.now ≡ Err fault))) }
    ensures shorter { OnOk result (length input.new.rest.now < length input.old.rest.now) }
{
    'specifications: loop {
        let found = read_specification(input)?;
        match found {
            IndexSpecification::Attribute(attribute) => attributes.push(attribute)?,
            IndexSpecification::WithoutBytes => {}
            IndexSpecification::End => return Ok(()),
        }
    }
}

/// Reads the next declaration, or the zero that ends them: None.
fn read_declaration(
    input: &mut Cursor<'_>,
    attributes: &mut Vec<IndexAttribute>,
) -> Result<Option<IndexAbbreviation>, DebugError>
    ensures read { IfOk result (ReadsIndexDeclaration input.old.rest.now input.new.rest.now
        attributes.old.items attributes.new.items) }
    ensures refused { IfErr result (λ e. (e ≡ Memory) ⊎ ((fault : AFault) × (e ≡ Fault fault)
        × (index_declaration input.old.rest.now ≡ Err fault))) }
    ensures shorter { OnOk result (length input.new.rest.now < length input.old.rest.now) }
{
    let code = input.unsigned()?;
    if code == 0 {
        return Ok(None);
    }
    // the tag
    input.unsigned()?;
    let first = attributes.len();
    read_attributes(input, attributes)?;
    Ok(Some(IndexAbbreviation {
        code,
        first,
        end: attributes.len(),
    }))
}

/// Reads the abbreviations of an index, up to the zero that ends them or to the last byte.
fn read_table(
    input: Cursor<'_>,
    abbreviations: &mut Vec<IndexAbbreviation>,
    attributes: &mut Vec<IndexAttribute>,
) -> Result<(), DebugError>
    requires no_abbreviations { abbreviations.old.items ≡ [] }
    requires no_attributes { attributes.old.items ≡ [] }
    ensures read { OnOk result (ReadsIndexTable input.entry.rest.now abbreviations.new.items attributes.new.items) }
    ensures refused { IfErr result (λ e. (e ≡ Memory) ⊎ ((fault : AFault) × (e ≡ Fault fault)
        × (declarations_at_most (length input.entry.rest.now) input.entry.rest.now ≡ Err fault))) }
{
    let mut left = input;
    'declarations: while !left.is_empty() {
        let found = read_declaration(&mut left, attributes)?;
        let Some(abbreviation) = found else {
            return Ok(());
        };
        abbreviations.push(abbreviation)?;
    }
    Ok(())
}

/// Whether this is the number that is before it, if there is one.
pub(crate) fn repeats_number(before: Option<u64>, number: u64) -> bool
    ensures { result ≡ repeats_number before number }
{
    match before {
        Some(other) => other == number,
        None => false,
    }
}

/// Checks that no two abbreviations have the same code, of these by ascending codes.
fn check_codes(abbreviations: &[IndexAbbreviation]) -> Result<(), DebugFault>
    requires { IsNonDecreasingBy (λ (a : AnAbbreviation). a.code) abbreviations.now }
    ensures { result ≡ unless (not (repeats (map (λ (a : AnAbbreviation). a.code) abbreviations.now))) Unsupported }
{
    let mut last = None;
    'codes: for abbreviation in abbreviations {
        if repeats_number(last, abbreviation.code) {
            return Err(DebugFault::Unsupported);
        }
        last = Some(abbreviation.code);
    }
    Ok(())
}

impl IndexAbbreviations {
    ghost use Rattle.std.specs.Prelude.{ℕ, ◌≡◌, ◌⊎◌, ◌==◌, List, length, slice_range, Some, option_map, Ok, Err, IfSome, IfOk, IfErr};
    ghost use Rattle.std.specs.Option.{option_copied};
    ghost use Rattle.std.specs.List.{find};
    ghost use Rattle.wasm_numbers.specs.Results.{Gives};
    ghost use Rattle.dwarf_bytes.specs.declared.fault.DebugFault.{DebugFault as AFault};
    ghost use Rattle.dwarf_bytes.specs.declared.fault.DebugError.TheVariants.{Memory, Fault};
    ghost use Rattle.dwarf.specs.declared.index_abbreviations.IndexAbbreviation.{IndexAbbreviation as AnAbbreviation};
    ghost use Rattle.dwarf.specs.IndexEntries.{IndexDeclaration, index_declarations, attributes_with};
    ghost use Rattle.dwarf.specs.IndexSound.{HasIndexAttributes};
    ghost use Rattle.dwarf.specs.NameIndexViews.{index_declarations_of};

    /// Reads the abbreviations of an index.
    ///
    /// # Errors
    ///
    /// `Truncated`, `BadNumber` or `UnknownForm`; `Unsupported` if an attribute isn't known, or if two abbreviations have the same code. Out
    /// of memory.
    pub(crate) fn read(alloc: Global, table: Cursor<'_>) -> Result<IndexAbbreviations, DebugError>
        ensures read { IfOk result (λ a. (ds : List IndexDeclaration) × (index_declarations table.entry.rest.now ≡ Ok ds)
            × ((code : ℕ) → attributes_with (index_declarations_of a) code ≡ attributes_with ds code)) }
        ensures refused { IfErr result (λ e. (e ≡ Memory) ⊎ ((fault : AFault) × (e ≡ Fault fault)
            × (index_declarations table.entry.rest.now ≡ Err fault))) }
    {
        let mut attributes = Vec::new(alloc);
        let mut abbreviations = Vec::new(alloc);
        read_table(table, &mut abbreviations, &mut attributes)?;
        abbreviations.sort_by_key(|abbreviation: &IndexAbbreviation| abbreviation.code)?;
        check_codes(&abbreviations)?;
        Ok(IndexAbbreviations {
            attributes,
            abbreviations,
        })
    }

    // the abbreviation with this code
    fn search(&self, code: u64) -> Option<&IndexAbbreviation>
        ensures found { option_copied result ≡ find (λ (x : AnAbbreviation). x.code == code) self.now.abbreviations.items }
        ensures within { IfSome result (λ a. HasIndexAttributes (length self.now.attributes.items) a.now) }
    {
        let place = self
            .abbreviations
            .partition_point(|abbreviation| abbreviation.code < code);
        match self.abbreviations.get(place) {
            Some(abbreviation) if abbreviation.code == code => Some(abbreviation),
            _ => None,
        }
    }

    // the attributes of an abbreviation
    fn attributes_of(&self, abbreviation: &IndexAbbreviation) -> &[IndexAttribute]
        requires { HasIndexAttributes (length self.now.attributes.items) abbreviation.now }
        ensures { result.now ≡ slice_range self.now.attributes.items abbreviation.now.first abbreviation.now.end }
    {
        &self.attributes[abbreviation.first..abbreviation.end]
    }

    /// The attributes of an entry with this code.
    ///
    /// # Errors
    ///
    /// `BadNumber` if no abbreviation has it.
    pub(crate) fn get(&self, code: u64) -> Result<&[IndexAttribute], DebugFault>
        ensures { Gives (λ x. x.now) result (attributes_with (index_declarations_of self.now) code) }
    {
        match self.search(code) {
            Some(found) => Ok(self.attributes_of(found)),
            None => Err(DebugFault::BadNumber),
        }
    }
}
