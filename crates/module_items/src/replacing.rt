//! An item that is replaced in its section (WebAssembly core specification 3.0, binary format, modules).
ghost use Rattle.std.specs.Prelude.{◌≡◌, ◌≤◌, ◌⊎◌, ◌++◌, ℕ, List, [], length, option_map, Option, Some, None, Ok, Err, IsOk, OnOk, OnErr, IfOk, IfErr, IfSome};
ghost use Rattle.wasm_sections.specs.Additions.{AreUnchanged, IsTooMuch};
ghost use Rattle.wasm_sections.specs.Components.{Components, module_of};
ghost use Rattle.wasm_operators.specs.Shortest.{short_number};
ghost use Rattle.wasm_sections.specs.Sections.{SectionAt, IsModule, section_id};
ghost use Rattle.module_items.specs.Items.{contents_replaced, replaced_in};
ghost use Rattle.module_items.specs.Replacing.{placed_contents, IsItemReplaced};

use crate::passing::pass_items;
use std::alloc::Global;
use wasm_module::ParsedModule;
use wasm_sections::{Changes, Input, ModuleError, SectionKind, write_number};

/// The items that take the place of one.
#[derive(Clone, Copy)]
pub(crate) struct NewItems<'n> {
    /// Their number: 0 or 1.
    pub count: usize,
    /// Their bytes.
    pub bytes: &'n [u8],
}

impl NewItems<'_> {
    /// No items: one is removed.
    pub(crate) fn none() -> NewItems<'static>
        ensures count { result.count ≡ 0 }
        ensures bytes { result.bytes.now ≡ [] }
    {
        NewItems {
            count: 0,
            bytes: &[],
        }
    }

    /// One item with these bytes.
    pub(crate) fn one(bytes: &[u8]) -> NewItems<'_>
        ensures count { result.count ≡ 1 }
        ensures bytes { result.bytes.now ≡ bytes.now }
    {
        NewItems { count: 1, bytes }
    }
}

/// The contents of the section of this kind: those that are given, or those of the source; None if there is no such section.
pub(crate) fn contents_with<'c>(
    parsed: &'c ParsedModule<'_>,
    changes: &'c Changes,
    kind: SectionKind,
) -> Result<Option<Input<'c>>, ModuleError>
    ensures are { (all : List SectionAt) → IsModule parsed.now.bytes.now all → IfOk result
        (λ found. option_map (λ i. (i.end, i.rest.now)) found ≡ placed_contents all changes.now (section_id kind)) }
    ensures never_refused { (m : Components) → module_of parsed.now.bytes.now ≡ Ok m
        → IsOk result }
{
    if let Some(contents) = changes.contents_of(kind) {
        return Ok(Some(Input::new(contents)));
    }
    match parsed.section(kind) {
        Ok(Some(section)) => Ok(Some(section.contents)),
        Ok(None) => Ok(None),
        Err(error) => Err(error),
    }
}

/// The number of items, with these bytes in the place of one of them.
pub(crate) fn join(
    alloc: Global,
    count: usize,
    before: &[u8],
    new: &[u8],
    after: &[u8],
) -> Result<Vec<u8>, ModuleError>
    ensures joined { IfOk result (λ made. made.items ≡ short_number count ++ (before.now ++ (new.now ++ after.now))) }
    ensures refused { IfErr result IsTooMuch }
{
    let mut made = Vec::new(alloc);
    match write_number(&mut made, count) {
        Ok(()) => {}
        Err(error) => return Err(error),
    }
    made.extend_from_slice(before)?;
    made.extend_from_slice(new)?;
    made.extend_from_slice(after)?;
    Ok(made)
}

/// So many items, of which the one at this place is replaced by this one, or is removed; None if there is no such item.
fn items_with(
    alloc: Global,
    count: u32,
    items: Input<'_>,
    kind: SectionKind,
    place: u32,
    new: NewItems<'_>,
) -> Result<Option<Vec<u8>>, ModuleError>
    requires { new.count ≤ 1 }
    ensures made { IfOk result (λ made. replaced_in kind place new.entry.count new.entry.bytes.now count
        items.entry.end items.entry.rest.now ≡ Ok (option_map (λ v. v.items) made)) }
    ensures refused { IfErr result (λ error. IsTooMuch error
        ⊎ (replaced_in kind place new.entry.count new.entry.bytes.now count items.entry.end items.entry.rest.now ≡ Err error)) }
{
    let mut left = items;
    if place >= count {
        return Ok(None);
    }
    let before = match pass_items(&mut left, kind, place) {
        Ok(before) => before,
        Err(error) => return Err(error),
    };
    match pass_items(&mut left, kind, 1) {
        Ok(_) => {}
        Err(error) => return Err(error),
    }
    let total = (count as usize - 1).saturating_add(new.count);
    match join(alloc, total, before, new.bytes, left.rest()) {
        Ok(made) => Ok(Some(made)),
        Err(error) => Err(error),
    }
}

/// The contents of a section, of which the item at this place is replaced by this one, or is removed; None if there is no such item.
fn with_replaced(
    alloc: Global,
    contents: Input<'_>,
    kind: SectionKind,
    place: u32,
    new: NewItems<'_>,
) -> Result<Option<Vec<u8>>, ModuleError>
    requires { new.count ≤ 1 }
    ensures made { IfOk result (λ made. contents_replaced kind place new.entry.count new.entry.bytes.now
        contents.entry.end contents.entry.rest.now ≡ Ok (option_map (λ v. v.items) made)) }
    ensures refused { IfErr result (λ error. IsTooMuch error
        ⊎ (contents_replaced kind place new.entry.count new.entry.bytes.now contents.entry.end contents.entry.rest.now ≡ Err error)) }
{
    let mut left = contents;
    match left.number() {
        Ok(count) => items_with(alloc, count, left, kind, place, new),
        Err(error) => Err(error),
    }
}

/// Replaces the item at this place of the section of this kind by this one, or removes it. Returns whether there was such an item.
pub(crate) fn replace(
    parsed: &ParsedModule<'_>,
    changes: &mut Changes,
    kind: SectionKind,
    place: u32,
    new: NewItems<'_>,
) -> Result<bool, ModuleError>
    requires { new.count ≤ 1 }
    ensures ok { (all : List SectionAt) → IsModule parsed.now.bytes.now all → IfOk result
        (IsItemReplaced kind place new.entry.count new.entry.bytes.now (placed_contents all changes.old (section_id kind)) changes.old changes.new) }
    ensures err { OnErr result (AreUnchanged changes.old changes.new) }
{
    let alloc = *changes.given.allocator();
    let contents = match contents_with(parsed, changes, kind) {
        Ok(Some(contents)) => contents,
        Ok(None) => return Ok(false),
        Err(error) => return Err(error),
    };
    let made = match with_replaced(alloc, contents, kind, place, new) {
        Ok(Some(made)) => made,
        Ok(None) => return Ok(false),
        Err(error) => return Err(error),
    };
    match changes.set_contents(kind, made) {
        Ok(()) => Ok(true),
        Err(error) => Err(error),
    }
}

/// Replaces the item at this place of the section of this kind, counted from 0, by one with these bytes: an import, a table, a
/// memory, a tag, a global, an export, an element or data segment, or the type index of a function. Imported items are in the import
/// section, so that the first global that the module defines is at place 0. Returns whether there is such an item; if not, nothing
/// is changed. The bytes aren't read.
///
/// # Errors
///
/// `SectionOutOfOrder` for types, code and custom sections; the first fault of contents that a caller gave; `TooGreat` if the section
/// grows beyond 32 bits; or `Memory`. The changes are as before then.
pub fn replace_item(
    parsed: &ParsedModule<'_>,
    changes: &mut Changes,
    kind: SectionKind,
    place: u32,
    item: &[u8],
) -> Result<bool, ModuleError>
    ensures ok { (all : List SectionAt) → IsModule parsed.now.bytes.now all → IfOk result
        (IsItemReplaced kind place 1 item.now (placed_contents all changes.old (section_id kind)) changes.old changes.new) }
    ensures err { OnErr result (AreUnchanged changes.old changes.new) }
{
    replace(parsed, changes, kind, place, NewItems::one(item))
}
