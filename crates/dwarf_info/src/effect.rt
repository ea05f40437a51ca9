//! What becomes of the value of an attribute (DWARF 5, sections 2.17, 3.3, 3.4 and 7.5).

ghost use Rattle.std.specs.Prelude.{◌≡◌, ◌+◌};
ghost use Rattle.dwarf_info.specs.Effects.{greatest_address, new_return, new_call, begins_in_body, new_attribute_address, index_effect, effect_of_index, end_moved, length_between, new_length, may_be_length, effect_of_list_index, is_expression_of, begins_with_address, effect_of_expression, stays_unless, effect_of_other, effect_by_meaning, effect_of_constant, effect_of};
ghost use Rattle.dwarf_info.specs.Contexts.{context_of_entry};
ghost use Rattle.dwarf_info.specs.Views.{value_spelled};

use crate::attribute::Meaning;
use crate::context::Context;
use crate::form::{Form, FormClass, Layout, Value};
use crate::moved::{ListPlace, ListUse};
use dwarf_bytes::{Address, DebugFault};

// The tags of entries that are read for what they are (DWARF 5, section 7.5.3; the last one is GNU's).
const TEMPLATE_VALUE_PARAMETER: u64 = 0x30;

const GNU_CALL_SITE: u64 = 0x4109;

/// What becomes of the value of an attribute.
#[derive(Clone, Copy)]
pub enum Effect {
    /// It stays.
    Stays,
    /// Its number becomes this one.
    Number(u64),
    /// The address that it names by index becomes this one.
    Address(Address, u64),
    /// It names the address that is added to those of the unit, which is none.
    NoAddress,
    /// It is this list of ranges.
    Ranges(ListUse),
    /// It is this list of locations.
    Locations(ListUse),
    /// It is the offset of a line table.
    LineTable,
    /// It is an expression.
    Expression,
}

// What an address becomes to which a call returns: no address if the call isn't written.
fn moved_return(context: &Context<'_>, address: u64) -> u64
    ensures { result ≡ new_return (context_of_entry context.now) address }
{
    match context.moves.address(address) {
        Some(new) if context.moves.ends_written(address) => new,
        Some(_) => context.encoding.greatest_address(),
        None => address,
    }
}

// What the address of a call becomes: where the call is itself written, and no address if it isn't.
fn moved_call(context: &Context<'_>, address: u64) -> u64
    ensures { result ≡ new_call (context_of_entry context.now) address }
{
    match context.moves.address(address) {
        Some(_) => context
            .moves
            .operator(address)
            .unwrap_or(context.encoding.greatest_address()),
        None => address,
    }
}

// Whether the code of the entry begins in a body.
fn begins_in_body(context: &Context<'_>) -> bool
    ensures { result ≡ begins_in_body (context_of_entry context.now) context.now.low }
{
    match context.low {
        Some(low) => context.moves.address(low).is_some(),
        None => false,
    }
}

// What an address becomes that is the value of this attribute.
fn moved_address(context: &Context<'_>, meaning: Meaning, address: u64) -> u64
    ensures { result ≡ new_attribute_address (context_of_entry context.now) meaning address }
{
    match meaning {
        Meaning::LowPc if context.tag == GNU_CALL_SITE => moved_return(context, address),
        Meaning::CallReturnPc => moved_return(context, address),
        Meaning::CallPc => moved_call(context, address),
        // a range that begins in no body stays whole
        Meaning::HighPc if !begins_in_body(context) => address,
        _ => context.moves.address(address).unwrap_or(address),
    }
}

// What becomes of an address that is named by index. That of a call that isn't written gets another index, since the address may
// be used for other code, too.
fn index_effect(greatest: u64, address: Address, new: u64) -> Effect
    ensures { result ≡ index_effect greatest address new }
{
    if new == greatest && new != address.value {
        Effect::NoAddress
    } else {
        Effect::Address(address, new)
    }
}

// What becomes of the address of this index.
fn effect_of_index(
    context: &Context<'_>,
    meaning: Meaning,
    index: u64,
) -> Result<Effect, DebugFault>
    ensures { result ≡ effect_of_index (context_of_entry context.now) meaning index }
{
    let address = context.bases.addresses.get(index)?;
    let new = moved_address(context, meaning, address.value);
    let greatest = context.encoding.greatest_address();
    Ok(index_effect(greatest, address, new))
}

// The length of code that goes from one address to the other, if it has any.
fn length_between(length: u64, begin: Option<u64>, end: Option<u64>) -> Result<u64, DebugFault>
    ensures { result ≡ length_between length begin end }
{
    let Some(begin) = begin else {
        return Ok(length);
    };
    match end {
        Some(end) if begin <= end => Ok(end - begin),
        _ => Err(DebugFault::Unsupported),
    }
}

// Where the end of code goes that is this long.
fn end_moved(context: &Context<'_>, low: u64, length: u64) -> Option<u64>
    ensures { result ≡ end_moved (context_of_entry context.now).bodies (low + length) }
{
    context.moves.address(low.checked_add(length)?)
}

// What the length of the code of an entry becomes; the same where the entry begins in no body.
fn moved_length(context: &Context<'_>, length: u64) -> Result<u64, DebugFault>
    ensures { result ≡ new_length (context_of_entry context.now).bodies context.now.low length }
{
    let Some(low) = context.low else {
        return Ok(length);
    };
    length_between(
        length,
        context.moves.address(low),
        end_moved(context, low, length),
    )
}

// What becomes of the list of this index.
fn effect_of_list_index(context: &Context<'_>, meaning: Meaning, index: u64) -> Effect
    ensures { result ≡ effect_of_list_index (context_of_entry context.now) meaning index }
{
    match meaning {
        Meaning::Ranges => {
            Effect::Ranges(context.list(ListPlace::Index(context.bases.ranges, index)))
        }
        _ => Effect::Locations(context.list(ListPlace::Index(context.bases.locations, index))),
    }
}

// Whether a value is an expression, for an attribute that may have one: up to DWARF 3 it is spelt as a block.
fn is_expression(version: u16, class: FormClass) -> bool
    ensures { result ≡ is_expression_of version class }
{
    match class {
        FormClass::Expression => true,
        FormClass::Block => version <= 3,
        _ => false,
    }
}

// Whether the bytes begin with DW_OP_addr or DW_OP_addrx.
fn begins_with_address(expression: &[u8]) -> bool
    ensures { result ≡ begins_with_address expression.now }
{
    matches!(expression, [0x03 | 0xa1, ..])
}

// What becomes of an expression. The argument of a template may be a function, whose address is one of code there, as it is nowhere else in an
// expression: such an argument is refused, and so is one that is in memory.
fn effect_of_expression(tag: u64, expression: &[u8]) -> Result<Effect, DebugFault>
    ensures { result ≡ effect_of_expression tag expression.now }
{
    if tag == TEMPLATE_VALUE_PARAMETER && begins_with_address(expression) {
        return Err(DebugFault::Unsupported);
    }
    Ok(Effect::Expression)
}

// What becomes of an attribute that isn't known.
fn effect_of_other(
    context: &Context<'_>,
    class: FormClass,
    value: &Value<'_>,
) -> Result<Effect, DebugFault>
    ensures { result ≡ effect_of_other (context_of_entry context.now) class (value_spelled value.now) }
{
    match class {
        FormClass::SectionOffset => Err(DebugFault::Unsupported),
        FormClass::Expression => effect_of_expression(context.tag, value.block),
        _ => Ok(Effect::Stays),
    }
}

// What becomes of an attribute whose form doesn't show what it is.
fn effect_by_meaning(
    context: &Context<'_>,
    meaning: Meaning,
    form: Form,
    value: &Value<'_>,
) -> Result<Effect, DebugFault>
    ensures { result ≡ effect_by_meaning (context_of_entry context.now) meaning form (value_spelled value.now) }
{
    let version = context.encoding.version;
    match meaning {
        Meaning::Split => Err(DebugFault::Unsupported),
        Meaning::LineTable if form.is_offset(version) => Ok(Effect::LineTable),
        Meaning::Ranges if form.is_offset(version) => {
            Ok(Effect::Ranges(context.list(ListPlace::Offset(value.number))))
        }
        Meaning::Location if form.is_offset(version) => {
            Ok(Effect::Locations(context.list(ListPlace::Offset(value.number))))
        }
        Meaning::Location | Meaning::Computed if is_expression(version, form.class) => {
            effect_of_expression(context.tag, value.block)
        }
        Meaning::Other => effect_of_other(context, form.class, value),
        _ => Ok(Effect::Stays),
    }
}

// What becomes of a number.
fn effect_of_constant(
    context: &Context<'_>,
    meaning: Meaning,
    form: Form,
    value: &Value<'_>,
) -> Result<Effect, DebugFault>
    ensures { result ≡ effect_of_constant (context_of_entry context.now) meaning form (value_spelled value.now) }
{
    if !matches!(meaning, Meaning::HighPc | Meaning::EntryPc) {
        return effect_by_meaning(context, meaning, form, value);
    }
    if let Layout::Signed = form.layout {
        return Err(DebugFault::Unsupported);
    }
    let new = moved_length(context, value.number)?;
    Ok(Effect::Number(new))
}

/// What becomes of the value of an attribute with this meaning.
///
/// # Errors
///
/// `Unsupported` if the value can't be moved; those of `AddressTable::get`.
#[tactic(auto, unfolding(crate::specs::Effects::effect_of))]
pub fn effect_of(
    context: &Context<'_>,
    meaning: Meaning,
    form: Form,
    value: &Value<'_>,
) -> Result<Effect, DebugFault>
    ensures { result ≡ effect_of (context_of_entry context.now) meaning form (value_spelled value.now) }
{
    match form.class {
        FormClass::Address => {
            let new = moved_address(context, meaning, value.number);
            Ok(Effect::Number(new))
        }
        FormClass::AddressIndex => effect_of_index(context, meaning, value.number),
        FormClass::ListIndex => Ok(effect_of_list_index(context, meaning, value.number)),
        FormClass::Constant => effect_of_constant(context, meaning, form, value),
        _ => effect_by_meaning(context, meaning, form, value),
    }
}
