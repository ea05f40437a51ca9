//! Abbreviations: which attributes an entry has, and in which forms (DWARF 5, section 7.5.3).

ghost use Rattle.std.specs.Prelude.{◌≡◌, ◌<◌, ◌≤◌, ◌⊎◌, ◌++◌, List, length, IfOk, IfErr, OnOk, Ok, Err};
ghost use Rattle.wasm_numbers.specs.Results.{Gives};
ghost use Rattle.dwarf_bytes.specs.declared.fault.DebugFault.{DebugFault as AFault};
ghost use Rattle.dwarf_bytes.specs.declared.fault.DebugError.TheVariants.{Memory, Fault};
ghost use Rattle.dwarf_info.specs.declared.abbreviations.Attribute.{Attribute as AnAttribute};
ghost use Rattle.dwarf_info.specs.Abbreviations.{specified, specification, specifications, next_declaration, table_declarations};
ghost use Rattle.dwarf_info.specs.InMemory.{specification_of, ReadsDeclaration, ReadsDeclarations};
ghost use Rattle.dwarf_info.specs.Sound.{AreAbbreviations, AreAbbreviations-prop, AreTables, AreTables-prop};

use crate::attribute::Meaning;
use crate::form::Form;
use dwarf_bytes::{Cursor, DebugError, DebugFault};
use std::alloc::Global;

// The form of an attribute whose value has no bytes: it is always set.
const FLAG_PRESENT: u64 = 0x19;
// The form of an attribute whose value is part of its abbreviation.
const IMPLICIT_CONST: u64 = 0x21;

/// An attribute whose value takes bytes.
#[derive(Clone, Copy)]
pub struct Attribute {
    /// What its value means.
    pub meaning: Meaning,
    /// How its value is spelt.
    pub form: Form,
}

/// What an attribute specification says.
#[derive(Clone, Copy)]
enum Specification {
    /// An attribute whose value takes bytes.
    Attribute(Attribute),
    /// An attribute whose value takes none.
    WithoutBytes,
    /// There are no more.
    End,
}

/// The abbreviation of entries.
#[derive(Clone, Copy)]
pub struct Abbreviation {
    code: u64,
    /// The tag of the entries.
    pub tag: u64,
    /// Whether an entry owns those that follow it.
    pub has_children: bool,
    // the attributes, in the list of all
    first: usize,
    end: usize,
}

// The abbreviations of some units, at an offset into the section.
#[derive(Clone, Copy)]
struct Table {
    offset: u64,
    first: usize,
    end: usize,
}

/// The abbreviations of a module.
#[derive(Drop)]
pub struct Abbreviations {
    attributes: Vec<Attribute>,
    abbreviations: Vec<Abbreviation>,
    tables: Vec<Table>,
    ghost sound: { AreTables tables.items abbreviations.items (length attributes.items) } by { AreTables-prop tables.items abbreviations.items (length attributes.items) },
}

/// Some abbreviations, by ascending codes.
#[derive(Clone, Copy)]
pub struct AbbreviationTable<'a> {
    abbreviations: &'a [Abbreviation],
    attributes: &'a [Attribute],
    ghost sound: { AreAbbreviations abbreviations.now (length attributes.now) } by { AreAbbreviations-prop abbreviations.now (length attributes.now) },
}

/// Reads what follows the name and the form of an attribute specification. None for an attribute whose value takes no bytes.
fn read_specified(
    name: u64,
    form: u64,
    input: &mut Cursor<'_>,
) -> Result<Option<Attribute>, DebugFault>
    ensures gives { Gives (λ x. (x, input.new.rest.now)) result (specified name form input.old.rest.now) }
    ensures end { input.new.end ≡ input.old.end }
    ensures no_longer { length input.new.rest.now ≤ length input.old.rest.now }
{
    let meaning = Meaning::of(name);
    if form == IMPLICIT_CONST {
        input.signed()?;
        meaning.check_without_bytes()?;
        return Ok(None);
    }
    if form == FLAG_PRESENT {
        return Ok(None);
    }
    let form = Form::of(form)?;
    Ok(Some(Attribute { meaning, form }))
}

/// Reads an attribute specification, or the two zeros that end them.
fn read_specification(input: &mut Cursor<'_>) -> Result<Specification, DebugFault>
    ensures gives { Gives (λ x. (specification_of x, input.new.rest.now)) result (specification input.old.rest.now) }
    ensures end { input.new.end ≡ input.old.end }
    ensures shorter { OnOk result (length input.new.rest.now < length input.old.rest.now) }
{
    let name = input.unsigned()?;
    let form = input.unsigned()?;
    if name == 0 && form == 0 {
        return Ok(Specification::End);
    }
    match read_specified(name, form, input)? {
        Some(attribute) => Ok(Specification::Attribute(attribute)),
        None => Ok(Specification::WithoutBytes),
    }
}

/// Reads the attributes of an abbreviation up to the two zeros that end them. An attribute whose value takes no bytes isn't
/// kept, so that an entry has no more of them than bytes.
fn read_attributes(
    input: &mut Cursor<'_>,
    attributes: &mut Vec<Attribute>,
) -> Result<(), DebugError>
    ensures read { OnOk result ((added : List AnAttribute) × (attributes.new.items ≡ attributes.old.items ++ added)
        × (specifications input.old.rest.now ≡ Ok (added, input.new.rest.now))) }
    ensures refused { IfErr result (λ e. (e ≡ Memory) ⊎ ((fault : AFault) × (e ≡ Fault fault)
        × (specifications input.old.rest.now ≡ Err fault))) }
    ensures end { input.new.end ≡ input.old.end }
    ensures shorter { OnOk result (length input.new.rest.now < length input.old.rest.now) }
{
    'specifications: loop {
        let found = read_specification(input)?;
        match found {
            Specification::Attribute(attribute) => attributes.push(attribute)?,
            Specification::WithoutBytes => {}
            Specification::End => return Ok(()),
        }
    }
}

/// Reads a declaration after one with this code, or the zero that ends a table: None.
fn read_declaration(
    last: u64,
    input: &mut Cursor<'_>,
    attributes: &mut Vec<Attribute>,
) -> Result<Option<Abbreviation>, DebugError>
    ensures read { IfOk result (ReadsDeclaration last input.old.rest.now input.new.rest.now
        attributes.old.items attributes.new.items) }
    ensures refused { IfErr result (λ e. (e ≡ Memory) ⊎ ((fault : AFault) × (e ≡ Fault fault)
        × (next_declaration last input.old.rest.now ≡ Err fault))) }
    ensures end { input.new.end ≡ input.old.end }
    ensures shorter { OnOk result (length input.new.rest.now < length input.old.rest.now) }
{
    let code = input.unsigned()?;
    if code == 0 {
        return Ok(None);
    }
    if code <= last {
        return Err(DebugError::Fault(DebugFault::Unsupported));
    }
    let tag = input.unsigned()?;
    let children = input.byte()?;
    let first = attributes.len();
    read_attributes(input, attributes)?;
    Ok(Some(Abbreviation {
        code,
        tag,
        has_children: children != 0,
        first,
        end: attributes.len(),
    }))
}

/// Reads the abbreviations of a table, and the zero that ends it.
fn read_table(
    input: &mut Cursor<'_>,
    abbreviations: &mut Vec<Abbreviation>,
    attributes: &mut Vec<Attribute>,
) -> Result<(), DebugError>
    ensures read { OnOk result (ReadsDeclarations input.old.rest.now input.new.rest.now
        abbreviations.old.items abbreviations.new.items attributes.old.items attributes.new.items) }
    ensures refused { IfErr result (λ e. (e ≡ Memory) ⊎ ((fault : AFault) × (e ≡ Fault fault)
        × (table_declarations input.old.rest.now ≡ Err fault))) }
    ensures end { input.new.end ≡ input.old.end }
    ensures shorter { OnOk result (length input.new.rest.now < length input.old.rest.now) }
{
    let mut last = 0;
    'declarations: loop {
        let found = read_declaration(last, input, attributes)?;
        let Some(abbreviation) = found else {
            return Ok(());
        };
        last = abbreviation.code;
        abbreviations.push(abbreviation)?;
    }
}

impl Abbreviations {
    ghost use Rattle.std.specs.Prelude.{◌≡◌, ◌⊎◌, ◌==◌, length, IfSome, IfOk, IfErr, Ok, Err};
    ghost use Rattle.std.specs.Option.{option_copied};
    ghost use Rattle.std.specs.List.{find};
    ghost use Rattle.wasm_numbers.specs.Results.{Gives};
    ghost use Rattle.dwarf_bytes.specs.declared.fault.DebugFault.{DebugFault as AFault};
    ghost use Rattle.dwarf_bytes.specs.declared.fault.DebugError.TheVariants.{Memory, Fault};
    ghost use Rattle.dwarf_info.specs.declared.abbreviations.Table.{Table as ATable};
    ghost use Rattle.dwarf_info.specs.Abbreviations.{abbreviation_tables, table_at};
    ghost use Rattle.dwarf_info.specs.Sound.{IsSoundTable};
    ghost use Rattle.dwarf_info.specs.Views.{tables_of, declarations_of};

    /// Reads `.debug_abbrev`: tables one after the other, each ended by a zero.
    ///
    /// # Errors
    ///
    /// `Truncated`, `BadNumber` or `UnknownForm`; `Unsupported` if the codes of a table don't ascend, or if a value that is part
    /// of an abbreviation says where code is. Out of memory.
    pub fn read(alloc: Global, section: &[u8]) -> Result<Abbreviations, DebugError>
        ensures read { IfOk result (λ a. abbreviation_tables section.now ≡ Ok (tables_of a)) }
        ensures refused { IfErr result (λ e. (e ≡ Memory) ⊎ ((fault : AFault) × (e ≡ Fault fault)
            × (abbreviation_tables section.now ≡ Err fault))) }
    {
        let mut attributes = Vec::new(alloc);
        let mut abbreviations = Vec::new(alloc);
        let mut tables = Vec::new(alloc);
        let mut input = Cursor::new(section);
        'tables: while !input.is_empty() {
            let offset = input.at() as u64;
            let first = abbreviations.len();
            read_table(&mut input, &mut abbreviations, &mut attributes)?;
            tables.push(Table {
                offset,
                first,
                end: abbreviations.len(),
            })?;
        }
        Ok(Abbreviations {
            attributes,
            abbreviations,
            tables,
        })
    }

    // the table at this offset
    fn find_table(&self, offset: u64) -> Option<&Table>
        ensures found { option_copied result ≡ find (λ (t : ATable). t.offset == offset) self.now.tables.items }
        ensures sound { IfSome result (λ t.
            IsSoundTable self.now.abbreviations.items (length self.now.attributes.items) t.now) }
    {
        let place = self.tables.partition_point(|table| table.offset < offset);
        match self.tables.get(place) {
            Some(table) if table.offset == offset => Some(table),
            _ => None,
        }
    }

    /// The table at this offset.
    ///
    /// # Errors
    ///
    /// `BadOffset` if no table begins there.
    pub fn table(&self, offset: u64) -> Result<AbbreviationTable<'_>, DebugFault>
        ensures { Gives declarations_of result (table_at (tables_of self.now) offset) }
    {
        let abbreviations: &[Abbreviation] = &self.abbreviations;
        let attributes: &[Attribute] = &self.attributes;
        match self.find_table(offset) {
            Some(table) => Ok(AbbreviationTable::part(
                abbreviations,
                attributes,
                table.first,
                table.end,
            )),
            None => Err(DebugFault::BadOffset),
        }
    }
}

impl<'a> AbbreviationTable<'a> {
    ghost use Rattle.std.specs.Prelude.{◌≡◌, ◌≤◌, ◌==◌, Some, IfSome, option_map, length, slice_range};
    ghost use Rattle.std.specs.Option.{option_copied};
    ghost use Rattle.std.specs.List.{find};
    ghost use Rattle.wasm_numbers.specs.Results.{Gives, some_or};
    ghost use Rattle.dwarf_bytes.specs.declared.fault.DebugFault.TheVariants.{BadNumber};
    ghost use Rattle.dwarf_info.specs.declared.abbreviations.Abbreviation.{Abbreviation as AnAbbreviation};
    ghost use Rattle.dwarf_info.specs.InMemory.{declaration_of};
    ghost use Rattle.dwarf_info.specs.Abbreviations.{declaration_with};
    ghost use Rattle.dwarf_info.specs.Sound.{HasAttributes, AreAbbreviations};
    ghost use Rattle.dwarf_info.specs.Views.{declarations_of, declaration_with_attributes};

    // some of these abbreviations
    fn part(
        abbreviations: &'a [Abbreviation],
        attributes: &'a [Attribute],
        first: usize,
        end: usize,
    ) -> AbbreviationTable<'a>
        requires order { first ≤ end }
        requires within { end ≤ length abbreviations.now }
        requires sound { AreAbbreviations (slice_range abbreviations.now first end) (length attributes.now) }
        ensures abbreviations { result.abbreviations.now ≡ slice_range abbreviations.now first end }
        ensures attributes { result.attributes.now ≡ attributes.now }
    {
        AbbreviationTable {
            abbreviations: &abbreviations[first..end],
            attributes,
        }
    }

    // the abbreviation of this code, if the codes of the table are one after the other, as most are
    fn find_next_to_first(&self, code: u64) -> Option<&'a Abbreviation>
        ensures { IfSome result (λ a. find (λ (x : AnAbbreviation). x.code == code) self.now.abbreviations.now ≡ Some a.now) }
    {
        let first = self.abbreviations.first()?;
        let place = usize::try_from(code.checked_sub(first.code)?).ok()?;
        match self.abbreviations.get(place) {
            Some(abbreviation) if abbreviation.code == code => Some(abbreviation),
            _ => None,
        }
    }

    // the abbreviation of this code
    fn search(&self, code: u64) -> Option<&'a Abbreviation>
        ensures { option_copied result ≡ find (λ (x : AnAbbreviation). x.code == code) self.now.abbreviations.now }
    {
        let place = self
            .abbreviations
            .partition_point(|abbreviation| abbreviation.code < code);
        match self.abbreviations.get(place) {
            Some(abbreviation) if abbreviation.code == code => Some(abbreviation),
            _ => None,
        }
    }

    // the abbreviation of this code
    fn with_code(&self, code: u64) -> Option<&'a Abbreviation>
        ensures found { declaration_with (declarations_of self.now) code
            ≡ some_or (option_map (declaration_of self.now.attributes.now) (option_copied result)) BadNumber }
        ensures within { IfSome result (λ a. HasAttributes (length self.now.attributes.now) a.now) }
    {
        match self.find_next_to_first(code) {
            Some(abbreviation) => Some(abbreviation),
            None => self.search(code),
        }
    }

    // the attributes of an abbreviation
    fn attributes_of(&self, abbreviation: &Abbreviation) -> &'a [Attribute]
        requires { HasAttributes (length self.now.attributes.now) abbreviation.now }
        ensures { result.now ≡ slice_range self.now.attributes.now abbreviation.now.first abbreviation.now.end }
    {
        &self.attributes[abbreviation.first..abbreviation.end]
    }

    /// The abbreviation of this code, and its attributes.
    ///
    /// # Errors
    ///
    /// `BadNumber` if there is none.
    pub fn get(&self, code: u64) -> Result<(&'a Abbreviation, &'a [Attribute]), DebugFault>
        ensures { Gives (λ x. declaration_with_attributes x.0.now x.1.now) result
            (declaration_with (declarations_of self.now) code) }
    {
        match self.with_code(code) {
            Some(found) => Ok((found, self.attributes_of(found))),
            None => Err(DebugFault::BadNumber),
        }
    }
}
