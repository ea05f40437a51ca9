//! Entries, and what of them follows the code (DWARF 5, sections 2 and 7.5).

ghost use Rattle.std.specs.Prelude.{◌≡◌, ◌⊎◌, ◌∷◌, [], false, List, map, IsTrue, IfOk, IfErr, OnOk, Ok, Err};
ghost use Rattle.dwarf_bytes.specs.declared.fault.DebugFault.{DebugFault as AFault};
ghost use Rattle.dwarf_bytes.specs.declared.fault.DebugError.TheVariants.{Memory, Fault};
ghost use Rattle.dwarf_expressions.specs.Expressions.{ExpressionOperation, IsExpression};
ghost use Rattle.dwarf_info.specs.Contexts.{context_of_entry, unit_bases};
ghost use Rattle.dwarf_info.specs.EntryViews.{attribute_spelled, entry_spelled, unit_setting, entries_moved};
ghost use Rattle.dwarf_info.specs.Steps.{code_length, noted, noted_begin, noting_steps, steps_of_attribute, steps_of_attributes, innermost_scope, scopes_closed, scopes_below, context_in, steps_of_entries, steps_of_unit, steps_of_section};
ghost use Rattle.dwarf_info.specs.Taken.{is_ranges, names_a_local, IsRefusedInRanges, IsNoneSet, IsNoneNotSet, IsExpressionSet, IsExpressionNotSet, IsEffectTaken, IsEffectRefused, AreStepsTaken, IsFaultOfSteps};
ghost use Rattle.dwarf_info.specs.Views.{tables_of, value_spelled};
ghost use Rattle.dwarf_info.specs.UnitViews.{unit_of};
ghost use Rattle.wasm_numbers.specs.Results.{Gives};

use crate::abbreviations::{Abbreviation, Abbreviations};
use crate::attribute::Meaning;
use crate::context::{Bases, Context, EntryPlaces, address_of, bases_known, first_address};
use crate::effect::{Effect, effect_of};
use crate::form::{Layout, Value};
use crate::moved::{CodeRange, MovedEntries};
use crate::scope::{SUBPROGRAM, Scope};
use crate::unit::{Unit, UnitSection};
use crate::values::{AttributeValue, read_entry};
use code_moves::Moves;
use dwarf_bytes::{Cursor, DebugError, DebugFault};
use std::alloc::Global;

// The tag of a unit (DWARF 5, section 7.5.3).
const COMPILE_UNIT: u64 = 0x11;

/// What the entries of a unit are moved with.
#[derive(Clone, Copy)]
struct UnitContext<'u> {
    /// Where the code goes.
    moves: &'u Moves,
    /// The contents of `.debug_addr`.
    addresses: &'u [u8],
    /// The unit.
    unit: Unit<'u>,
}

// Where the code begins that is noted, if this attribute says how far it goes.
fn noted_begin(context: &Context<'_>, meaning: Meaning) -> Option<u64>
    ensures { result ≡ noted_begin (context_of_entry context.now) meaning }
{
    match meaning {
        Meaning::HighPc if context.tag == SUBPROGRAM || context.tag == COMPILE_UNIT => context.low,
        _ => None,
    }
}

// The length of code that begins there, of which this number or this address says how far it goes.
fn code_length(begin: u64, number: u64, end: Option<u64>) -> u64
    ensures { result ≡ code_length begin number end }
{
    match end {
        Some(end) => end.saturating_sub(begin),
        None => number,
    }
}

// Notes the code that begins there, by where it ends or how long it is.
fn note_from(
    context: &Context<'_>,
    attribute: &AttributeValue<'_>,
    begin: u64,
    out: &mut MovedEntries<'_>,
) -> Result<(), DebugError>
    ensures taken { OnOk result (AreStepsTaken (noted (context_of_entry context.now) (attribute_spelled attribute.now) begin ∷ [])
        (entries_moved out.old) (entries_moved out.new)) }
    ensures refused { IfErr result (λ e. (e ≡ Memory) ⊎ ((fault : AFault) × (e ≡ Fault fault) × IsFaultOfSteps
        (noted (context_of_entry context.now) (attribute_spelled attribute.now) begin ∷ []) (entries_moved out.old) fault)) }
{
    let number = attribute.value.number;
    let end = address_of(attribute.form, number, &context.bases.addresses)?;
    let length = code_length(begin, number, end);
    out.has_code(CodeRange {
        unit: context.unit,
        begin,
        length,
    })
}

// Notes the code of a function or of a unit, if this attribute says how far it goes.
fn note_code(
    context: &Context<'_>,
    attribute: &AttributeValue<'_>,
    out: &mut MovedEntries<'_>,
) -> Result<(), DebugError>
    ensures taken { OnOk result (AreStepsTaken
        (noting_steps (context_of_entry context.now) (attribute_spelled attribute.now) (noted_begin (context_of_entry context.now) attribute.now.meaning))
        (entries_moved out.old) (entries_moved out.new)) }
    ensures refused { IfErr result (λ e. (e ≡ Memory) ⊎ ((fault : AFault) × (e ≡ Fault fault) × IsFaultOfSteps
        (noting_steps (context_of_entry context.now) (attribute_spelled attribute.now) (noted_begin (context_of_entry context.now) attribute.now.meaning))
        (entries_moved out.old) fault)) }
{
    match noted_begin(context, attribute.meaning) {
        Some(begin) => note_from(context, attribute, begin, out),
        None => Ok(()),
    }
}

// In a function whose code is given by ranges alone, an expression names no local.
fn check_locals(
    context: &Context<'_>,
    value: &Value<'_>,
    out: &mut MovedEntries<'_>,
) -> Result<(), DebugError>
    ensures same { entries_moved out.new ≡ entries_moved out.old }
    ensures none { OnOk result (IsTrue (is_ranges context.now.scope) → (os : List ExpressionOperation)
        × IsExpression context.now.encoding value.now.block.now os × (names_a_local os ≡ false)) }
    ensures refused { IfErr result (λ e. (e ≡ Memory) ⊎ ((fault : AFault) × (e ≡ Fault fault)
        × (IsTrue (is_ranges context.now.scope) × IsRefusedInRanges context.now.encoding value.now.block.now fault))) }
{
    if context.scope.is_ranges() {
        return out.check_no_locals(value.block, context.encoding);
    }
    Ok(())
}

/// Writes an expression, with the locals of the function that it is of.
fn write_expression(
    context: &Context<'_>,
    layout: Layout,
    value: &Value<'_>,
    out: &mut MovedEntries<'_>,
) -> Result<(), DebugError>
    ensures taken { OnOk result (IsExpressionSet (context_of_entry context.now) layout (value_spelled value.now) (entries_moved out.old) (entries_moved out.new)) }
    ensures refused { IfErr result (λ e. (e ≡ Memory) ⊎ ((fault : AFault) × (e ≡ Fault fault)
        × IsExpressionNotSet (context_of_entry context.now) layout (value_spelled value.now) (entries_moved out.old) fault)) }
{
    check_locals(context, value, out)?;
    out.set_expression(layout, context.encoding, value, context.body())
}

// An address by index becomes none.
fn write_no_address(
    context: &Context<'_>,
    layout: Layout,
    value: &Value<'_>,
    out: &mut MovedEntries<'_>,
) -> Result<(), DebugError>
    ensures taken { OnOk result (IsNoneSet (context_of_entry context.now) layout (value_spelled value.now) (entries_moved out.old) (entries_moved out.new)) }
    ensures refused { IfErr result (λ e. (e ≡ Memory) ⊎ ((fault : AFault) × (e ≡ Fault fault)
        × IsNoneNotSet (context_of_entry context.now) layout (value_spelled value.now) (entries_moved out.old) fault)) }
{
    let encoding = context.encoding;
    let index = out.use_no_address(&context.bases.addresses, encoding.format)?;
    out.set_number(layout, encoding, value, index)
}

/// Writes what becomes of the value of an attribute.
fn write_effect(
    context: &Context<'_>,
    effect: Effect,
    layout: Layout,
    value: &Value<'_>,
    out: &mut MovedEntries<'_>,
) -> Result<(), DebugError>
    ensures taken { OnOk result (IsEffectTaken (context_of_entry context.now) layout (value_spelled value.now) effect (entries_moved out.old) (entries_moved out.new)) }
    ensures refused { IfErr result (λ e. (e ≡ Memory) ⊎ ((fault : AFault) × (e ≡ Fault fault)
        × IsEffectRefused (context_of_entry context.now) layout (value_spelled value.now) effect (entries_moved out.old) fault)) }
{
    let encoding = context.encoding;
    match effect {
        Effect::Stays => Ok(()),
        Effect::Number(new) => out.set_number(layout, encoding, value, new),
        Effect::Address(address, new) => out.use_address(address, new),
        Effect::NoAddress => write_no_address(context, layout, value, out),
        Effect::Ranges(list) => out.use_ranges(list),
        Effect::Locations(list) => out.use_locations(list),
        Effect::LineTable => out.set_line_table(layout, encoding, value),
        Effect::Expression => write_expression(context, layout, value, out),
    }
}

// Moves what of an attribute says where code is.
fn move_attribute(
    context: &Context<'_>,
    attribute: &AttributeValue<'_>,
    out: &mut MovedEntries<'_>,
) -> Result<(), DebugError>
    ensures taken { OnOk result (AreStepsTaken (steps_of_attribute (context_of_entry context.now) (attribute_spelled attribute.now))
        (entries_moved out.old) (entries_moved out.new)) }
    ensures refused { IfErr result (λ e. (e ≡ Memory) ⊎ ((fault : AFault) × (e ≡ Fault fault)
        × IsFaultOfSteps (steps_of_attribute (context_of_entry context.now) (attribute_spelled attribute.now)) (entries_moved out.old) fault)) }
{
    if context.scope.is_dropped() {
        return Ok(());
    }
    note_code(context, attribute, out)?;
    let effect = effect_of(context, attribute.meaning, attribute.form, &attribute.value)?;
    write_effect(
        context,
        effect,
        attribute.form.layout,
        &attribute.value,
        out,
    )
}

// Moves what of the attributes of an entry says where code is.
fn move_attributes(
    context: &Context<'_>,
    attributes: &[AttributeValue<'_>],
    out: &mut MovedEntries<'_>,
) -> Result<(), DebugError>
    ensures taken { OnOk result (AreStepsTaken (steps_of_attributes (context_of_entry context.now) (map attribute_spelled attributes.now))
        (entries_moved out.old) (entries_moved out.new)) }
    ensures refused { IfErr result (λ e. (e ≡ Memory) ⊎ ((fault : AFault) × (e ≡ Fault fault)
        × IsFaultOfSteps (steps_of_attributes (context_of_entry context.now) (map attribute_spelled attributes.now)) (entries_moved out.old) fault)) }
{
    for attribute in attributes {
        move_attribute(context, attribute, out)?;
    }
    Ok(())
}

// The scope of the entry that owns the next one. Around all there is the unit.
fn innermost(scopes: &[Scope]) -> Scope
    ensures { result ≡ innermost_scope scopes.now }
{
    match scopes.last() {
        Some(scope) => *scope,
        None => Scope::Unit,
    }
}

// The end of an entry's children.
fn close(scopes: &mut Vec<Scope>)
    ensures { scopes.new.items ≡ scopes_closed scopes.old.items }
{
    scopes.pop();
}

// What follows an entry with this scope is its child, if it has any.
fn open_children(
    scopes: &mut Vec<Scope>,
    has_children: bool,
    scope: Scope,
) -> Result<(), DebugError>
    ensures opened { OnOk result (scopes.new.items ≡ scopes_below has_children scope scopes.old.items) }
    ensures memory { IfErr result (λ e. e ≡ Memory) }
{
    if has_children {
        scopes.push(scope)?;
    }
    Ok(())
}

impl<'u> UnitContext<'u> {
    // What the attributes of an entry with this tag are read with, in this scope.
    fn of_entry<'c>(
        &'c self,
        bases: Bases<'c>,
        around: Scope,
        tag: u64,
        places: &EntryPlaces,
    ) -> Result<Context<'c>, DebugFault>
        ensures { Gives context_of_entry result (context_in (unit_setting self.now) (unit_bases bases.entry) around tag places.now) }
    {
        let low = first_address(places.low, &bases.addresses)?;
        Ok(Context {
            moves: self.moves,
            encoding: self.unit.encoding,
            unit: self.unit.start as u64,
            bases,
            scope: around.of_entry(self.moves, tag, low, places.has_ranges),
            tag,
            low,
        })
    }

    // Moves what of the entries of the unit says where code is.
    fn move_entries(
        &self,
        scopes: &mut Vec<Scope>,
        values: &mut Vec<AttributeValue<'u>>,
        out: &mut MovedEntries<'_>,
    ) -> Result<(), DebugError>
        ensures taken { OnOk result (AreStepsTaken (steps_of_unit self.now.moves.now.bodies.items self.now.addresses.now (unit_of self.now.unit))
            (entries_moved out.old) (entries_moved out.new)) }
        ensures refused { IfErr result (λ e. (e ≡ Memory) ⊎ ((fault : AFault) × (e ≡ Fault fault)
            × IsFaultOfSteps (steps_of_unit self.now.moves.now.bodies.items self.now.addresses.now (unit_of self.now.unit)) (entries_moved out.old) fault)) }
    {
        scopes.clear();
        let mut known = None;
        let mut input = self.unit.entries;
        'entries: while !input.is_empty() {
            match read_entry(&self.unit, &mut input, values)? {
                None => close(scopes),
                Some(abbreviation) => {
                    let attributes = values.as_slice();
                    let places = EntryPlaces::of(attributes);
                    let bases = bases_known(known, self.unit.encoding, self.addresses, &places)?;
                    known = Some(bases);
                    let around = innermost(scopes.as_slice());
                    let context = self.of_entry(bases, around, abbreviation.tag, &places)?;
                    move_attributes(&context, attributes, out)?;
                    open_children(scopes, abbreviation.has_children, context.scope)?;
                }
            }
        }
        Ok(())
    }
}

/// Moves what of the units of a section says where code is. `addresses`: the contents of `.debug_addr`.
///
/// # Errors
///
/// The first fault of a unit; out of memory.
pub fn move_units(
    alloc: Global,
    moves: &Moves,
    abbreviations: &Abbreviations,
    section: &[u8],
    kind: UnitSection,
    addresses: &[u8],
    out: &mut MovedEntries<'_>,
) -> Result<(), DebugError>
    ensures taken { OnOk result (AreStepsTaken (steps_of_section kind (tables_of abbreviations.now) moves.now.bodies.items addresses.now section.now)
        (entries_moved out.old) (entries_moved out.new)) }
    ensures refused { IfErr result (λ e. (e ≡ Memory) ⊎ ((fault : AFault) × (e ≡ Fault fault)
        × IsFaultOfSteps (steps_of_section kind (tables_of abbreviations.now) moves.now.bodies.items addresses.now section.now) (entries_moved out.old) fault)) }
{
    let mut scopes = Vec::new(alloc);
    let mut values = Vec::new(alloc);
    let mut input = Cursor::new(section);
    'units: while !input.is_empty() {
        let unit = Unit::read(&mut input, kind, abbreviations)?;
        let context = UnitContext {
            moves,
            addresses,
            unit,
        };
        context.move_entries(&mut scopes, &mut values, out)?;
    }
    Ok(())
}
