//! The names of what is left (WebAssembly core specification 3.0, custom sections, name section).

ghost use Rattle.std.specs.Prelude.{◌≡◌, ◌++◌, ◌==◌, ◌-◌, ◌<◌, ℕ, List, codes, length, Ok, OnOk, IfOk};
ghost use Rattle.wasm_sections.specs.CodeSections.{entry};
ghost use Rattle.wasm_sections.specs.Parts.{extent};
ghost use Rattle.wasm_sections.specs.Sections.{section};
ghost use Rattle.module_removal.specs.Entries.{entries_made};
ghost use Rattle.module_removal.specs.LeftNames.{name_entry_part, name_map_part, entry_value_part, next_map_entry, left_map, named_items, LeavesMap, LeavesLocals, LeavesSubsection, subsection_part, AreLeftNames};

use crate::code::LeftCode;
use crate::entries::Entries;
use crate::item::Item;
use crate::left::LeftItems;
use crate::parts::done;
use std::alloc::Global;
use wasm_ops::Space;
use wasm_sections::{Input, ModuleError, write_bytes};

/// The subsection with the name of the module.
const MODULE_NAME: u8 = 0;

/// The subsection with the names of locals.
const LOCAL_NAMES: u8 = 2;

/// The index space whose items a subsection names, and whether it has maps of names: of the fields of types (the proposal
/// for extended names).
fn named_space(subsection: u8) -> Option<(Space, bool)>
    ensures { result ≡ named_items subsection }
{
    match subsection {
        1 => Some((Space::Funcs, false)),
        4 => Some((Space::Types, false)),
        5 => Some((Space::Tables, false)),
        6 => Some((Space::Memories, false)),
        7 => Some((Space::Globals, false)),
        8 => Some((Space::Elements, false)),
        9 => Some((Space::Data, false)),
        10 => Some((Space::Types, true)),
        11 => Some((Space::Tags, false)),
        _ => None,
    }
}

/// Reads past an index and a name.
fn pass_name(input: &mut Input<'_>) -> Result<(), ModuleError>
    ensures same_end { input.new.end ≡ input.old.end }
    ensures is { OnOk result (name_entry_part input.old.end input.old.rest.now ≡ Ok (tt, input.new.rest.now)) }
{
    done!(input.number());
    match input.bytes() {
        Ok(_) => Ok(()),
        Err(error) => Err(error),
    }
}

/// Reads past a map of names.
fn pass_names(input: &mut Input<'_>) -> Result<(), ModuleError>
    ensures same_end { input.new.end ≡ input.old.end }
    ensures is { OnOk result (name_map_part input.old.end input.old.rest.now ≡ Ok (tt, input.new.rest.now)) }
{
    let count = done!(input.number());
    'names: for _ in 0..count {
        done!(pass_name(input));
    }
    Ok(())
}

/// Reads past a name, or a map of names.
fn pass_value(are_maps: bool, input: &mut Input<'_>) -> Result<(), ModuleError>
    ensures same_end { input.new.end ≡ input.old.end }
    ensures is { OnOk result (entry_value_part are_maps input.old.end input.old.rest.now ≡ Ok (tt, input.new.rest.now)) }
{
    if are_maps {
        return pass_names(input);
    }
    match input.bytes() {
        Ok(_) => Ok(()),
        Err(error) => Err(error),
    }
}

/// The bytes of a name, or of a map of names.
fn value<'a>(are_maps: bool, input: &mut Input<'a>) -> Result<&'a [u8], ModuleError>
    ensures same_end { input.new.end ≡ input.old.end }
    ensures is { IfOk result (λ value. extent (entry_value_part are_maps) input.old.end input.old.rest.now
        ≡ Ok (value.now, input.new.rest.now)) }
{
    let begin = *input;
    match pass_value(are_maps, input) {
        Ok(()) => Ok(begin.until(input)),
        Err(error) => Err(error),
    }
}

/// Adds the next entry of a map, whose items are of this space, if its item is left.
fn add_next(
    entries: &mut Entries,
    left: &LeftItems,
    space: Space,
    are_maps: bool,
    input: &mut Input<'_>,
) -> Result<(), ModuleError>
    ensures same_end { input.new.end ≡ input.old.end }
    ensures is { OnOk result (next_map_entry left.now space are_maps (entries_made entries.old) input.old.end input.old.rest.now
        ≡ Ok (entries_made entries.new, input.new.rest.now)) }
{
    let index = done!(input.number());
    let value = done!(value(are_maps, input));
    entries.add(left.new_index(Item { space, index }), value)
}

/// Items of a space with their names, or with maps of names, copied under their new indices if they are left.
fn left_items(
    alloc: Global,
    left: &LeftItems,
    space: Space,
    are_maps: bool,
    contents: Input<'_>,
) -> Result<Vec<u8>, ModuleError>
    ensures { IfOk result (λ made. (following : List ℕ)
        × (left_map left.now space are_maps contents.entry.end contents.entry.rest.now ≡ Ok (made.items, following))) }
{
    let mut input = contents;
    let mut entries = Entries::new(alloc);
    let count = done!(input.number());
    'entries: for _ in 0..count {
        done!(add_next(&mut entries, left, space, are_maps, &mut input));
    }
    entries.whole(alloc)
}

/// Appends a subsection.
#[tactic(auto, using(wasm_encode::proofs::Appending::appending))]
fn put_subsection(out: &mut Vec<u8>, id: u8, contents: &[u8]) -> Result<(), ModuleError>
    ensures { OnOk result (out.new.items ≡ out.old.items ++ section id contents.now) }
{
    out.push(id)?;
    write_bytes(out, contents)
}

/// Appends what is left of a subsection that names the items of a space, if it is one.
fn put_map(
    alloc: Global,
    left: &LeftItems,
    named: Option<(Space, bool)>,
    id: u8,
    contents: Input<'_>,
    out: &mut Vec<u8>,
) -> Result<(), ModuleError>
    ensures { OnOk result ((bytes : List ℕ) × (out.new.items ≡ out.old.items ++ bytes)
        × LeavesMap left.now id named contents.entry.end contents.entry.rest.now bytes) }
{
    let Some((space, are_maps)) = named else {
        return Ok(());
    };
    let made = done!(left_items(alloc, left, space, are_maps, contents));
    put_subsection(out, id, &made)
}

/// Appends the names of locals.
fn put_locals(
    alloc: Global,
    left: &LeftItems,
    code: &LeftCode,
    id: u8,
    contents: Input<'_>,
    out: &mut Vec<u8>,
) -> Result<(), ModuleError>
    ensures { OnOk result ((bytes : List ℕ) × (out.new.items ≡ out.old.items ++ bytes)
        × LeavesLocals left.now code.now id contents.entry.end contents.entry.rest.now bytes) }
{
    let made = done!(code.locals.contents(alloc, left, contents));
    put_subsection(out, id, &made)
}

/// Appends what is left of a subsection. The names of labels are left out.
fn left_subsection(
    alloc: Global,
    left: &LeftItems,
    code: &LeftCode,
    id: u8,
    contents: Input<'_>,
    out: &mut Vec<u8>,
) -> Result<(), ModuleError>
    ensures { OnOk result ((bytes : List ℕ) × (out.new.items ≡ out.old.items ++ bytes)
        × LeavesSubsection left.now code.now id contents.entry.end contents.entry.rest.now bytes) }
{
    if id == MODULE_NAME {
        return put_subsection(out, id, contents.rest());
    }
    if id == LOCAL_NAMES {
        return put_locals(alloc, left, code, id, contents, out);
    }
    put_map(alloc, left, named_space(id), id, contents, out)
}

/// The next subsection: its id and its contents.
fn next_subsection<'a>(input: &mut Input<'a>) -> Result<(u8, Input<'a>), ModuleError>
    ensures same_end { input.new.end ≡ input.old.end }
    ensures shorter { OnOk result (length input.new.rest.now < length input.old.rest.now) }
    ensures place { IfOk result (λ x. x.1.end ≡ input.old.end - length input.new.rest.now) }
    ensures is { IfOk result (λ x. subsection_part input.old.end input.old.rest.now
        ≡ Ok ((x.0, x.1.rest.now), input.new.rest.now)) }
{
    let id = done!(input.byte());
    let len = done!(input.number());
    match input.part(len as usize) {
        Ok(part) => Ok((id, part)),
        Err(error) => Err(error),
    }
}

/// The names of locals in the contents of a section `name`, if it has any.
pub(crate) fn local_names(mut contents: Input<'_>) -> Result<Option<Input<'_>>, ModuleError> {
    'subsections: while !contents.is_empty() {
        let (id, part) = done!(next_subsection(&mut contents));
        if id == LOCAL_NAMES {
            return Ok(Some(part));
        }
    }
    Ok(None)
}

/// The contents of the section `name` for what is left, with the name of the section.
pub(crate) fn left_names(
    alloc: Global,
    left: &LeftItems,
    code: &LeftCode,
    mut contents: Input<'_>,
) -> Result<Vec<u8>, ModuleError>
    ensures { IfOk result (λ out. (names : List ℕ) × (out.items ≡ entry (codes "name") ++ names)
        × AreLeftNames left.now code.now contents.entry.end contents.entry.rest.now names) }
{
    let mut out = Vec::new(alloc);
    done!(write_bytes(&mut out, b"name"));
    'subsections: while !contents.is_empty() {
        let (id, part) = done!(next_subsection(&mut contents));
        done!(left_subsection(alloc, left, code, id, part, &mut out));
    }
    Ok(out)
}
