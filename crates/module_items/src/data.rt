//! Data segments (WebAssembly core specification 3.0, binary format, data section).
ghost use Rattle.std.specs.Prelude.{◌≡◌, ◌-◌, List, length, option_map, Some, true, IfOk, Ok, IsOk};
ghost use Rattle.wasm_numbers.specs.Results.{Gives};
ghost use Rattle.wasm_sections.specs.Components.{Components, module_of};
ghost use Rattle.wasm_sections.specs.Sections.{SectionAt, IsModule, first_with, section_id};
ghost use Rattle.wasm_sections.specs.Views.{HasItems};
ghost use Rattle.module_items.specs.Segments.{target_index, target_part, active_value, data_part, data_value};

use wasm_module::ParsedModule;
use wasm_sections::{Input, Items, ModuleError, SectionKind};

/// Where an active segment is written when the module is instantiated.
#[derive(Clone, Copy, Debug)]
pub struct ActiveSegment<'a> {
    /// The index of the memory or table.
    pub index: u32,
    /// The bytes of the offset there: a constant expression, with its `end`.
    pub offset: &'a [u8],
}

/// A data segment.
#[derive(Clone, Copy, Debug)]
pub struct DataSegment<'a> {
    /// Where it is written when the module is instantiated; `None` for a passive segment.
    pub active: Option<ActiveSegment<'a>>,
    /// Its bytes.
    pub bytes: &'a [u8],
    /// Its place: a byte offset from the start of the file.
    pub at: usize,
}

/// The index of the memory or table of an active segment, which is 0 unless it is named.
fn target_index(input: &mut Input<'_>, is_named: bool) -> Result<u32, ModuleError>
    ensures same_end { input.new.end ≡ input.old.end }
    ensures is { Gives (λ index. (index, input.new.rest.now)) result
        (target_index is_named input.old.end input.old.rest.now) }
{
    match is_named {
        true => input.number(),
        false => Ok(0),
    }
}

/// Where an active segment is written.
fn active_target<'a>(
    input: &mut Input<'a>,
    is_named: bool,
) -> Result<ActiveSegment<'a>, ModuleError>
    ensures same_end { input.new.end ≡ input.old.end }
    ensures is { Gives (λ a. (Some (active_value a), input.new.rest.now)) result
        (target_part true is_named input.old.end input.old.rest.now) }
{
    let index = match target_index(input, is_named) {
        Ok(index) => index,
        Err(error) => return Err(error),
    };
    match input.constant() {
        Ok(offset) => Ok(ActiveSegment { index, offset }),
        Err(error) => Err(error),
    }
}

/// Where a segment is written, if it is active.
pub(crate) fn target<'a>(
    input: &mut Input<'a>,
    is_active: bool,
    is_named: bool,
) -> Result<Option<ActiveSegment<'a>>, ModuleError>
    ensures same_end { input.new.end ≡ input.old.end }
    ensures is { Gives (λ a. (option_map active_value a, input.new.rest.now)) result
        (target_part is_active is_named input.old.end input.old.rest.now) }
{
    match is_active {
        true => match active_target(input, is_named) {
            Ok(active) => Ok(Some(active)),
            Err(error) => Err(error),
        },
        false => Ok(None),
    }
}

/// A data segment.
fn read_segment<'a>(input: &mut Input<'a>) -> Result<DataSegment<'a>, ModuleError>
    ensures place { IfOk result (λ x. x.at ≡ input.old.end - length input.old.rest.now) }
    ensures same_end { input.new.end ≡ input.old.end }
    ensures is { Gives (λ x. (data_value x, input.new.rest.now)) result
        (data_part input.old.end input.old.rest.now) }
{
    let at = input.at();
    let flags = match input.segment_flags(2) {
        Ok(flags) => flags,
        Err(error) => return Err(error),
    };
    let active = match target(input, flags != 1, flags == 2) {
        Ok(active) => active,
        Err(error) => return Err(error),
    };
    match input.bytes() {
        Ok(bytes) => Ok(DataSegment { active, bytes, at }),
        Err(error) => Err(error),
    }
}

/// The data segments of a module, in order. A fault is the last item; a module that was read has none.
#[derive(Clone, Copy)]
pub struct DataSegments<'a> {
    /// The segments that are left.
    pub items: Items<'a>,
}

impl<'a> Iterator for DataSegments<'a> {
    ghost use Rattle.std.specs.Iterator.{at_most};
    ghost use Rattle.module_items.specs.Segments.{TakesData};

    type Item = Result<DataSegment<'a>, ModuleError>;

    ghost next_gives = { TakesData };

    ghost remaining = { λ s. at_most s.items.count };

    fn next(&mut self) -> Option<Result<DataSegment<'a>, ModuleError>> {
        let count = self.items.count.checked_sub(1)?;
        let mut left = self.items.left;
        match read_segment(&mut left) {
            Ok(segment) => {
                self.items = Items { left, count };
                Some(Ok(segment))
            }
            Err(error) => {
                self.items.count = 0;
                Some(Err(error))
            }
        }
    }
}

/// The items of the section of this kind; none if there is no such section.
pub(crate) fn items_of<'a>(
    parsed: &ParsedModule<'a>,
    kind: SectionKind,
) -> Result<Items<'a>, ModuleError>
    ensures are { (all : List SectionAt) → IsModule parsed.now.bytes.now all
        → IfOk result (λ items. HasItems (first_with (section_id kind) all) items) }
    ensures never_refused { (m : Components) → module_of parsed.now.bytes.now ≡ Ok m
        → IsOk result }
{
    match parsed.section(kind) {
        Ok(Some(section)) => Items::of_contents(section.contents),
        Ok(None) => Ok(Items::none()),
        Err(error) => Err(error),
    }
}

/// The data segments of a module, in order, so that each has its index as its number.
///
/// # Errors
///
/// None, since the sections were read before.
pub fn data_segments<'a>(parsed: &ParsedModule<'a>) -> Result<DataSegments<'a>, ModuleError>
    ensures are { (all : List SectionAt) → IsModule parsed.now.bytes.now all
        → IfOk result (λ segments. HasItems (first_with 11 all) segments.items) }
    ensures never_refused { (m : Components) → module_of parsed.now.bytes.now ≡ Ok m
        → IsOk result }
{
    match items_of(parsed, SectionKind::Data) {
        Ok(items) => Ok(DataSegments { items }),
        Err(error) => Err(error),
    }
}
