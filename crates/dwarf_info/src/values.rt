//! The attributes of entries, as they are read (DWARF 5, sections 2.2 and 7.5.3).

ghost use Rattle.std.specs.Prelude.{◌≡◌, ◌<◌, ◌≤◌, ◌⊎◌, length, map, option_map, IfOk, IfErr, OnOk, Ok, Err};
ghost use Rattle.std.specs.Option.{option_copied};
ghost use Rattle.dwarf_bytes.specs.declared.fault.DebugFault.{DebugFault as AFault};
ghost use Rattle.dwarf_bytes.specs.declared.fault.DebugError.TheVariants.{Memory, Fault};
ghost use Rattle.dwarf_info.specs.Entries.{spelled_attributes, next_entry};
ghost use Rattle.dwarf_info.specs.UnitViews.{unit_of};
ghost use Rattle.dwarf_info.specs.EntryViews.{attribute_spelled, entry_spelled};

use crate::abbreviations::{Abbreviation, Attribute};
use crate::attribute::Meaning;
use crate::form::{Form, Value, read_value};
use crate::unit::Unit;
use dwarf_bytes::{Cursor, DebugError};
use dwarf_expressions::Encoding;

/// An attribute of an entry.
#[derive(Clone, Copy)]
pub struct AttributeValue<'a> {
    /// What it means.
    pub meaning: Meaning,
    /// The form of its value.
    pub form: Form,
    /// Its value.
    pub value: Value<'a>,
}

/// Reads the attributes of an entry, in place of those that are in the list.
fn read_values<'a>(
    attributes: &[Attribute],
    encoding: Encoding,
    input: &mut Cursor<'a>,
    values: &mut Vec<AttributeValue<'a>>,
) -> Result<(), DebugError>
    ensures read { OnOk result (spelled_attributes encoding input.old.end attributes.now input.old.rest.now
        ≡ Ok (map attribute_spelled values.new.items, input.new.rest.now)) }
    ensures refused { IfErr result (λ e. (e ≡ Memory) ⊎ ((fault : AFault) × (e ≡ Fault fault)
        × (spelled_attributes encoding input.old.end attributes.now input.old.rest.now ≡ Err fault))) }
    ensures end { input.new.end ≡ input.old.end }
    ensures no_longer { length input.new.rest.now ≤ length input.old.rest.now }
{
    values.clear();
    for attribute in attributes {
        let form = attribute.form.of_value(input)?;
        let value = read_value(form.layout, encoding, input)?;
        values.push(AttributeValue {
            meaning: attribute.meaning,
            form,
            value,
        })?;
    }
    Ok(())
}

/// Reads the next entry of a unit: its abbreviation, and its attributes in place of those that are in the list. None at the end of an
/// entry's children.
///
/// # Errors
///
/// The fault of the first number or attribute that can't be read; out of memory.
#[tactic(auto, unfolding(crate::specs::Entries::next_entry))]
pub(crate) fn read_entry<'a>(
    unit: &Unit<'a>,
    input: &mut Cursor<'a>,
    values: &mut Vec<AttributeValue<'a>>,
) -> Result<Option<&'a Abbreviation>, DebugError>
    requires { input.old.end ≡ unit.now.entries.end }
    ensures read { IfOk result (λ found. next_entry (unit_of unit.now) input.old.rest.now
        ≡ Ok (option_map (entry_spelled values.new.items) (option_copied found), input.new.rest.now)) }
    ensures refused { IfErr result (λ e. (e ≡ Memory) ⊎ ((fault : AFault) × (e ≡ Fault fault)
        × (next_entry (unit_of unit.now) input.old.rest.now ≡ Err fault))) }
    ensures end { input.new.end ≡ input.old.end }
    ensures shorter { OnOk result (length input.new.rest.now < length input.old.rest.now) }
{
    let code = input.unsigned()?;
    if code == 0 {
        return Ok(None);
    }
    let (abbreviation, attributes) = unit.abbreviations.get(code)?;
    read_values(attributes, unit.encoding, input, values)?;
    Ok(Some(abbreviation))
}
