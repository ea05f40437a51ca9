//! Element segments (WebAssembly core specification 3.0, binary format, element section).
ghost use Rattle.std.specs.Prelude.{◌≡◌, ◌-◌, ℕ, nat_le, List, length, option_map, IfOk, Ok, IsOk};
ghost use Rattle.wasm_numbers.specs.Results.{Gives};
ghost use Rattle.wasm_sections.specs.Components.{Components, module_of};
ghost use Rattle.wasm_sections.specs.Format.{element_kind_byte};
ghost use Rattle.wasm_sections.specs.Parts.{checked, one_byte};
ghost use Rattle.wasm_sections.specs.Sections.{SectionAt, IsModule, first_with};
ghost use Rattle.wasm_sections.specs.Views.{HasItems};
ghost use Rattle.module_items.specs.Segments.{said_type, type_part, all_elements, element_segment, segment_value, one_element, element_value};

use crate::data::{ActiveSegment, items_of, target};
use wasm_module::ParsedModule;
use wasm_ops::RawValType;
use wasm_sections::{Input, Items, ModuleError, ModuleFault, SectionKind};

/// An element of a segment.
#[derive(Clone, Copy, Debug)]
pub enum Element<'a> {
    /// A reference to the function with this index.
    Function(u32),
    /// The value of a constant expression with these bytes, its `end` among them.
    Expression(&'a [u8]),
}

/// The elements of a segment, in order. A fault is the last item; a module that was read has none.
#[derive(Clone, Copy)]
pub struct Elements<'a> {
    /// Whether they are constant expressions, and not indices of functions.
    pub are_expressions: bool,
    /// The elements that are left.
    pub items: Items<'a>,
}

/// An element segment.
#[derive(Clone, Copy)]
pub struct ElementSegment<'a> {
    /// Where it is written when the module is instantiated; `None` for a passive or declared segment.
    pub active: Option<ActiveSegment<'a>>,
    /// Whether it only declares functions, so that `ref.func` may name them.
    pub is_declared: bool,
    /// The type of its elements; `None` if it isn't said, so that they are functions.
    pub ty: Option<RawValType>,
    /// Its elements.
    pub elements: Elements<'a>,
    /// Its place: a byte offset from the start of the file.
    pub at: usize,
}

/// One element.
fn read_element<'a>(input: &mut Input<'a>, is_expression: bool) -> Result<Element<'a>, ModuleError>
    ensures same_end { input.new.end ≡ input.old.end }
    ensures is { Gives (λ x. (element_value x, input.new.rest.now)) result
        (one_element is_expression input.old.end input.old.rest.now) }
{
    match is_expression {
        true => match input.constant() {
            Ok(expression) => Ok(Element::Expression(expression)),
            Err(error) => Err(error),
        },
        false => match input.number() {
            Ok(index) => Ok(Element::Function(index)),
            Err(error) => Err(error),
        },
    }
}

impl<'a> Iterator for Elements<'a> {
    ghost use Rattle.std.specs.Iterator.{at_most};
    ghost use Rattle.module_items.specs.Segments.{TakesElement};

    type Item = Result<Element<'a>, ModuleError>;

    ghost next_gives = { TakesElement };

    ghost remaining = { λ s. at_most s.items.count };

    fn next(&mut self) -> Option<Result<Element<'a>, ModuleError>> {
        let count = self.items.count.checked_sub(1)?;
        let mut left = self.items.left;
        match read_element(&mut left, self.are_expressions) {
            Ok(element) => {
                self.items = Items { left, count };
                Some(Ok(element))
            }
            Err(error) => {
                self.items.count = 0;
                Some(Err(error))
            }
        }
    }
}

/// The kind of elements, a byte 0 for functions.
fn pass_kind(input: &mut Input<'_>) -> Result<(), ModuleError>
    ensures same_end { input.new.end ≡ input.old.end }
    ensures is { Gives (λ _. (tt, input.new.rest.now)) result
        (checked one_byte element_kind_byte input.old.end input.old.rest.now) }
{
    let begin = *input;
    match input.byte() {
        Ok(0) => Ok(()),
        Ok(_) => Err(begin.fault(ModuleFault::BadElementKind)),
        Err(error) => Err(error),
    }
}

/// The type of elements, or their kind.
fn read_said_type(input: &mut Input<'_>, is_type: bool) -> Result<Option<RawValType>, ModuleError>
    ensures same_end { input.new.end ≡ input.old.end }
    ensures is { Gives (λ ty. (ty, input.new.rest.now)) result
        (said_type is_type input.old.end input.old.rest.now) }
{
    match is_type {
        true => match input.reference_type() {
            Ok(ty) => Ok(Some(ty)),
            Err(error) => Err(error),
        },
        false => match pass_kind(input) {
            Ok(()) => Ok(None),
            Err(error) => Err(error),
        },
    }
}

/// The type of the elements of a segment with these flags, if it is said.
fn read_type(input: &mut Input<'_>, flags: u32) -> Result<Option<RawValType>, ModuleError>
    ensures same_end { input.new.end ≡ input.old.end }
    ensures is { Gives (λ ty. (ty, input.new.rest.now)) result
        (type_part flags input.old.end input.old.rest.now) }
{
    match flags % 4 {
        0 => Ok(None),
        _ => read_said_type(input, flags >= 4),
    }
}

/// The elements of a segment.
fn read_elements<'a>(
    input: &mut Input<'a>,
    are_expressions: bool,
) -> Result<Elements<'a>, ModuleError>
    ensures same_end { input.new.end ≡ input.old.end }
    ensures kind { IfOk result (λ x. x.are_expressions ≡ are_expressions) }
    ensures is { Gives (λ x. ((x.items.count, x.items.left.rest.now), input.new.rest.now)) result
        (all_elements are_expressions input.old.end input.old.rest.now) }
{
    let mut begin = *input;
    match input.elements(are_expressions) {
        Ok(()) => {}
        Err(error) => return Err(error),
    }
    let count = match begin.number() {
        Ok(count) => count,
        Err(error) => return Err(error),
    };
    let len = begin.until(input).len();
    match begin.part(len) {
        Ok(left) => Ok(Elements {
            are_expressions,
            items: Items { left, count },
        }),
        Err(error) => Err(error),
    }
}

/// An element segment.
fn read_segment<'a>(input: &mut Input<'a>) -> Result<ElementSegment<'a>, ModuleError>
    ensures place { IfOk result (λ x. x.at ≡ input.old.end - length input.old.rest.now) }
    ensures same_end { input.new.end ≡ input.old.end }
    ensures is { Gives (λ x. (segment_value x, input.new.rest.now)) result
        (element_segment input.old.end input.old.rest.now) }
{
    let at = input.at();
    let flags = match input.segment_flags(7) {
        Ok(flags) => flags,
        Err(error) => return Err(error),
    };
    let active = match target(input, flags % 2 == 0, flags % 4 == 2) {
        Ok(active) => active,
        Err(error) => return Err(error),
    };
    let ty = match read_type(input, flags) {
        Ok(ty) => ty,
        Err(error) => return Err(error),
    };
    match read_elements(input, flags >= 4) {
        Ok(elements) => Ok(ElementSegment {
            active,
            is_declared: flags % 4 == 3,
            ty,
            elements,
            at,
        }),
        Err(error) => Err(error),
    }
}

/// The element segments of a module, in order. A fault is the last item; a module that was read has none.
#[derive(Clone, Copy)]
pub struct ElementSegments<'a> {
    /// The segments that are left.
    pub items: Items<'a>,
}

impl<'a> Iterator for ElementSegments<'a> {
    ghost use Rattle.std.specs.Iterator.{at_most};
    ghost use Rattle.module_items.specs.Segments.{TakesSegment};

    type Item = Result<ElementSegment<'a>, ModuleError>;

    ghost next_gives = { TakesSegment };

    ghost remaining = { λ s. at_most s.items.count };

    fn next(&mut self) -> Option<Result<ElementSegment<'a>, ModuleError>> {
        let count = self.items.count.checked_sub(1)?;
        let mut left = self.items.left;
        match read_segment(&mut left) {
            Ok(segment) => {
                self.items = Items { left, count };
                Some(Ok(segment))
            }
            Err(error) => {
                self.items.count = 0;
                Some(Err(error))
            }
        }
    }
}

/// The element segments of a module, in order, so that each has its index as its number.
///
/// # Errors
///
/// None, since the sections were read before.
pub fn element_segments<'a>(parsed: &ParsedModule<'a>) -> Result<ElementSegments<'a>, ModuleError>
    ensures are { (all : List SectionAt) → IsModule parsed.now.bytes.now all
        → IfOk result (λ segments. HasItems (first_with 9 all) segments.items) }
    ensures never_refused { (m : Components) → module_of parsed.now.bytes.now ≡ Ok m
        → IsOk result }
{
    match items_of(parsed, SectionKind::Element) {
        Ok(items) => Ok(ElementSegments { items }),
        Err(error) => Err(error),
    }
}
