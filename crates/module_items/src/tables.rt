//! The limits of tables that are changed (WebAssembly core specification 3.0, binary format, table section).
ghost use Rattle.std.specs.Prelude.{◌≡◌, ℕ, List, option_map, OnErr, OnOk, IfOk, MatchOption};
ghost use Rattle.wasm_numbers.specs.Results.{Gives};
ghost use Rattle.wasm_sections.specs.Additions.{AreUnchanged};
ghost use Rattle.wasm_sections.specs.Sections.{SectionAt, IsModule};
ghost use Rattle.wasm_sections.specs.declared.sections.SectionKind.TheVariants.{Table as TableKind};
ghost use Rattle.module_items.specs.Replacing.{placed_contents};
ghost use Rattle.module_items.specs.Renaming.{mark_part, before_limits_part, after_limits_part, around_limits_part, table_written, HasItemAt, IsMadeOfItem, IsTableLimited};

use crate::limits::{check_limits, limits_bytes};
use crate::passing::front_of_item;
use crate::replacing::{NewItems, contents_with, replace};
use std::alloc::Global;
use wasm_module::ParsedModule;
use wasm_sections::{Changes, Input, Limits, ModuleError, SectionKind};

/// The bytes of a table around its limits.
#[derive(Clone, Copy)]
struct AroundLimits<'a> {
    /// The type of its elements, after the mark of an initial value, if it has one.
    before: &'a [u8],
    /// Its initial value, if it has one.
    after: &'a [u8],
}

/// Reads past the two bytes with which a table with an initial value begins, if it has one. Returns whether it has one.
fn pass_mark(input: &mut Input<'_>) -> bool
    ensures same_end { input.new.end ≡ input.old.end }
    ensures is { mark_part input.old.end input.old.rest.now ≡ Ok (result, input.new.rest.now) }
{
    let mut after = *input;
    match after.byte() {
        Ok(0x40) => match after.byte() {
            Ok(0x00) => {
                *input = after;
                true
            }
            _ => false,
        },
        _ => false,
    }
}

/// Reads what comes before the limits of a table. Returns whether the table has an initial value.
fn pass_element_type(input: &mut Input<'_>) -> Result<bool, ModuleError>
    ensures same_end { input.new.end ≡ input.old.end }
    ensures is { Gives (λ is_marked. (is_marked, input.new.rest.now)) result
        (before_limits_part input.old.end input.old.rest.now) }
{
    let is_marked = pass_mark(input);
    match input.reference_type() {
        Ok(_) => Ok(is_marked),
        Err(error) => Err(error),
    }
}

/// Reads what comes after the limits of a table.
fn after_limits<'a>(input: &mut Input<'a>, is_marked: bool) -> Result<&'a [u8], ModuleError>
    ensures same_end { input.new.end ≡ input.old.end }
    ensures is { Gives (λ after. (after.now, input.new.rest.now)) result
        (after_limits_part is_marked input.old.end input.old.rest.now) }
{
    match is_marked {
        true => input.constant(),
        false => Ok(&[]),
    }
}

/// Reads a table, and returns its bytes around its limits.
fn around_limits<'a>(input: &mut Input<'a>) -> Result<AroundLimits<'a>, ModuleError>
    ensures same_end { input.new.end ≡ input.old.end }
    ensures is { Gives (λ around. ((around.before.now, around.after.now), input.new.rest.now)) result
        (around_limits_part input.old.end input.old.rest.now) }
{
    let begin = *input;
    let is_marked = match pass_element_type(input) {
        Ok(is_marked) => is_marked,
        Err(error) => return Err(error),
    };
    let before = begin.until(input);
    match input.limits() {
        Ok(_) => {}
        Err(error) => return Err(error),
    }
    match after_limits(input, is_marked) {
        Ok(after) => Ok(AroundLimits { before, after }),
        Err(error) => Err(error),
    }
}

/// The bytes around the limits of the table at this place of these contents; None if there is no such table.
fn around_limits_at<'a>(
    contents: Input<'a>,
    place: u32,
) -> Result<Option<AroundLimits<'a>>, ModuleError>
    ensures { IfOk result (λ found. MatchOption found
        (¬ ((x : List ℕ × List ℕ) × HasItemAt TableKind around_limits_part place x contents.entry.end contents.entry.rest.now))
        (λ around. HasItemAt TableKind around_limits_part place (around.before.now, around.after.now) contents.entry.end contents.entry.rest.now)) }
{
    let mut left = match front_of_item(contents, SectionKind::Table, place) {
        Ok(Some(front)) => front,
        Ok(None) => return Ok(None),
        Err(error) => return Err(error),
    };
    match around_limits(&mut left) {
        Ok(around) => Ok(Some(around)),
        Err(error) => Err(error),
    }
}

/// A table with these limits.
fn table_bytes(
    alloc: Global,
    around: AroundLimits<'_>,
    limits: &Limits,
) -> Result<Vec<u8>, ModuleError>
    ensures { IfOk result (λ made. made.items ≡ table_written limits.now (around.entry.before.now, around.entry.after.now)) }
{
    let limits = match limits_bytes(alloc, limits) {
        Ok(limits) => limits,
        Err(error) => return Err(error),
    };
    let mut out = Vec::new(alloc);
    out.extend_from_slice(around.before)?;
    out.extend_from_slice(&limits)?;
    out.extend_from_slice(around.after)?;
    Ok(out)
}

/// The table at this place, of the source with these changes, with these limits; None if there is no such table.
fn limited(
    parsed: &ParsedModule<'_>,
    changes: &Changes,
    place: u32,
    limits: &Limits,
) -> Result<Option<Vec<u8>>, ModuleError>
    ensures { (all : List SectionAt) → IsModule parsed.now.bytes.now all → IfOk result
        (λ made. IsMadeOfItem TableKind around_limits_part (table_written limits.now) place
        (placed_contents all changes.now 4) (option_map (λ v. v.items) made)) }
{
    let contents = match contents_with(parsed, changes, SectionKind::Table) {
        Ok(Some(contents)) => contents,
        Ok(None) => return Ok(None),
        Err(error) => return Err(error),
    };
    let made = match around_limits_at(contents, place) {
        Ok(Some(around)) => table_bytes(*changes.given.allocator(), around, limits),
        Ok(None) => return Ok(None),
        Err(error) => return Err(error),
    };
    match made {
        Ok(bytes) => Ok(Some(bytes)),
        Err(error) => Err(error),
    }
}

/// Sets the limits of the table at this place of those that the module defines, counted from 0; imported ones aren't among them. The
/// type of its elements and its initial value stay. Returns whether there is such a table; if not, nothing is changed.
///
/// # Errors
///
/// `BadLimits` for shared limits, and for sizes that don't fit the table's indices; the first fault of tables that a caller gave;
/// `TooGreat` if the section grows beyond 32 bits; or `Memory`. The changes are as before then.
pub fn set_table_limits(
    parsed: &ParsedModule<'_>,
    changes: &mut Changes,
    place: u32,
    limits: &Limits,
) -> Result<bool, ModuleError>
    ensures ok { (all : List SectionAt) → IsModule parsed.now.bytes.now all → IfOk result
        (IsTableLimited place limits.now (placed_contents all changes.old 4) changes.old changes.new) }
    ensures err { OnErr result (AreUnchanged changes.old changes.new) }
{
    match check_limits(limits, false) {
        Ok(()) => {}
        Err(error) => return Err(error),
    }
    match limited(parsed, changes, place, limits) {
        Ok(Some(bytes)) => {
            replace(
                parsed,
                changes,
                SectionKind::Table,
                place,
                NewItems::one(&bytes),
            )
        }
        Ok(None) => Ok(false),
        Err(error) => Err(error),
    }
}
