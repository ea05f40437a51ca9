//! Items that are passed over, by the kind of their section (WebAssembly core specification 3.0, binary format, modules).
ghost use Rattle.std.specs.Prelude.{◌≡◌, ◌≤◌, ℕ, List, length, OnOk, IfOk, MatchOption};
ghost use Rattle.wasm_numbers.specs.Results.{Gives};
ghost use Rattle.wasm_sections.specs.Format.{export_part, import_part, table_part, global_part, tag_part, limits_part};
ghost use Rattle.wasm_sections.specs.Parts.{number, passed, repeated};
ghost use Rattle.module_items.specs.Items.{item_part, several_items};
ghost use Rattle.module_items.specs.Renaming.{IsItemFront};

use wasm_sections::{Exports, Imports, Input, Items, ModuleError, ModuleFault, SectionKind};

/// Reads past an export.
fn pass_export(input: &mut Input<'_>) -> Result<(), ModuleError>
    ensures same_end { input.new.end ≡ input.old.end }
    ensures is { Gives (λ _. (tt, input.new.rest.now)) result
        (passed export_part input.old.end input.old.rest.now) }
{
    let items = Items {
        left: *input,
        count: 1,
    };
    let mut exports = Exports { items };
    match exports.next() {
        Some(Ok(_)) => {
            *input = exports.items.left;
            Ok(())
        }
        Some(Err(error)) => Err(error),
        None => unreachable!(),
    }
}

/// Reads past an import.
fn pass_import(input: &mut Input<'_>) -> Result<(), ModuleError>
    ensures same_end { input.new.end ≡ input.old.end }
    ensures is { Gives (λ _. (tt, input.new.rest.now)) result
        (passed import_part input.old.end input.old.rest.now) }
{
    let items = Items {
        left: *input,
        count: 1,
    };
    let mut imports = Imports { items };
    match imports.next() {
        Some(Ok(_)) => {
            *input = imports.items.left;
            Ok(())
        }
        Some(Err(error)) => Err(error),
        None => unreachable!(),
    }
}

/// Reads past a table.
fn pass_table(input: &mut Input<'_>) -> Result<(), ModuleError>
    ensures same_end { input.new.end ≡ input.old.end }
    ensures is { Gives (λ _. (tt, input.new.rest.now)) result
        (passed table_part input.old.end input.old.rest.now) }
{
    match input.table() {
        Ok(_) => Ok(()),
        Err(error) => Err(error),
    }
}

/// Reads past a memory.
fn pass_memory(input: &mut Input<'_>) -> Result<(), ModuleError>
    ensures same_end { input.new.end ≡ input.old.end }
    ensures is { Gives (λ _. (tt, input.new.rest.now)) result
        (passed limits_part input.old.end input.old.rest.now) }
{
    match input.limits() {
        Ok(_) => Ok(()),
        Err(error) => Err(error),
    }
}

/// Reads past a global.
fn pass_global(input: &mut Input<'_>) -> Result<(), ModuleError>
    ensures same_end { input.new.end ≡ input.old.end }
    ensures is { Gives (λ _. (tt, input.new.rest.now)) result
        (passed global_part input.old.end input.old.rest.now) }
{
    match input.global() {
        Ok(_) => Ok(()),
        Err(error) => Err(error),
    }
}

/// Reads past a tag.
fn pass_tag(input: &mut Input<'_>) -> Result<(), ModuleError>
    ensures same_end { input.new.end ≡ input.old.end }
    ensures is { Gives (λ _. (tt, input.new.rest.now)) result
        (passed tag_part input.old.end input.old.rest.now) }
{
    match input.tag() {
        Ok(_) => Ok(()),
        Err(error) => Err(error),
    }
}

/// Reads past the type of a function with a body.
fn pass_type(input: &mut Input<'_>) -> Result<(), ModuleError>
    ensures same_end { input.new.end ≡ input.old.end }
    ensures is { Gives (λ _. (tt, input.new.rest.now)) result
        (passed number input.old.end input.old.rest.now) }
{
    match input.number() {
        Ok(_) => Ok(()),
        Err(error) => Err(error),
    }
}

/// Reads past an item of a section of this kind. The error is `SectionOutOfOrder` for a kind whose items aren't replaced.
fn pass_item(input: &mut Input<'_>, kind: SectionKind) -> Result<(), ModuleError>
    ensures same_end { input.new.end ≡ input.old.end }
    ensures is { Gives (λ _. (tt, input.new.rest.now)) result
        (item_part kind input.old.end input.old.rest.now) }
{
    match kind {
        SectionKind::Import => pass_import(input),
        SectionKind::Function => pass_type(input),
        SectionKind::Table => pass_table(input),
        SectionKind::Memory => pass_memory(input),
        SectionKind::Tag => pass_tag(input),
        SectionKind::Global => pass_global(input),
        SectionKind::Export => pass_export(input),
        SectionKind::Element => input.element_segment(),
        SectionKind::Data => input.data_segment(),
        _ => Err(input.fault(ModuleFault::SectionOutOfOrder)),
    }
}

/// Reads past so many items, and returns their bytes.
pub(crate) fn pass_items<'a>(
    input: &mut Input<'a>,
    kind: SectionKind,
    count: u32,
) -> Result<&'a [u8], ModuleError>
    ensures same_end { input.new.end ≡ input.old.end }
    ensures is { Gives (λ bytes. (bytes.now, input.new.rest.now)) result
        (several_items kind count input.old.end input.old.rest.now) }
{
    let begin = *input;
    'items: for _ in 0..count {
        match pass_item(input, kind) {
            Ok(()) => {}
            Err(error) => return Err(error),
        }
    }
    Ok(begin.until(input))
}

/// What is left of these contents from the item at this place on, counted from 0; None if there is no such item.
pub(crate) fn front_of_item<'a>(
    contents: Input<'a>,
    kind: SectionKind,
    place: u32,
) -> Result<Option<Input<'a>>, ModuleError>
    ensures { IfOk result (λ found. MatchOption found
        (¬ ((front : List ℕ) × IsItemFront kind place contents.entry.end contents.entry.rest.now front))
        (λ i. (i.end ≡ contents.entry.end) × IsItemFront kind place contents.entry.end contents.entry.rest.now i.rest.now)) }
{
    let mut left = contents;
    let count = match left.number() {
        Ok(count) => count,
        Err(error) => return Err(error),
    };
    if place >= count {
        return Ok(None);
    }
    match pass_items(&mut left, kind, place) {
        Ok(_) => Ok(Some(left)),
        Err(error) => Err(error),
    }
}
