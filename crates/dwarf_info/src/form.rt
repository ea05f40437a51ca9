//! The forms of attributes' values (DWARF 5, section 7.5.6; DWARF 4, section 7.5.4).

ghost use Rattle.std.specs.Prelude.{◌≡◌, ◌≤◌, ◌⊎◌, ◌++◌, length, OnOk, IfErr};
ghost use Rattle.wasm_numbers.specs.Results.{Gives};
ghost use Rattle.dwarf_bytes.specs.declared.fault.DebugFault.TheVariants.{DoesNotFit};
ghost use Rattle.dwarf_bytes.specs.declared.fault.DebugError.TheVariants.{Memory, Fault};
ghost use Rattle.dwarf_bytes.specs.Numbers.{size_in_bytes, fixed_number};
ghost use Rattle.dwarf_info.specs.Forms.{first_forms, later_forms, form_in, form_with_code, is_indirect, is_wide, form_of_value, is_section_offset, number_alone, block_counted, value_parts, spelled_value, number_size, number_written, FitsForm};
ghost use Rattle.dwarf_info.specs.Views.{value_spelled};

use dwarf_bytes::{Cursor, DebugError, DebugFault, Size, write_padded, write_sized};
use dwarf_expressions::Encoding;

/// What a value is, as far as its form tells.
#[derive(Clone, Copy, Debug, PartialEq, Eq)]
pub enum FormClass {
    /// An address.
    Address,
    /// The index of an address in `.debug_addr`.
    AddressIndex,
    /// A number. Up to DWARF 3 also an offset into another section.
    Constant,
    /// Bytes; up to DWARF 3 also an expression.
    Block,
    /// An expression.
    Expression,
    /// The offset of an entry, from its unit's first byte.
    Reference,
    /// The offset of an entry in `.debug_info`.
    SectionReference,
    /// An offset into another section.
    SectionOffset,
    /// The index of a list of ranges or of locations.
    ListIndex,
    /// A string, a flag or a signature: nothing that the code's places matter for.
    Other,
}

/// How a value is spelt.
#[derive(Clone, Copy, Debug, PartialEq, Eq)]
pub enum Layout {
    /// A number of this size.
    Sized(Size),
    /// Sixteen bytes.
    Sixteen,
    /// As many bytes as an address of the unit has.
    AddressSize,
    /// Four bytes, or eight in 64-bit DWARF.
    OffsetSize,
    /// As an address in DWARF 2, else as an offset.
    ReferenceSize,
    /// An unsigned LEB128 number.
    Unsigned,
    /// A signed LEB128 number.
    Signed,
    /// Bytes up to a zero byte.
    Terminated,
    /// A number of this size, and then that many bytes.
    Counted(Size),
    /// An unsigned LEB128 number, and then that many bytes.
    CountedUnsigned,
    /// The number of a form, and a value of this form.
    Indirect,
}

impl Layout {
    /// The size of the number that a value in this layout is, or begins with, if it isn't spelt in LEB128.
    pub fn number_size(self, encoding: Encoding) -> Option<Size>
        ensures { result ≡ number_size encoding self }
    {
        match self {
            Layout::Sized(size) | Layout::Counted(size) => Some(size),
            Layout::AddressSize => Some(encoding.address_size),
            Layout::OffsetSize => Some(encoding.offset_size()),
            Layout::ReferenceSize => Some(encoding.reference_size()),
            _ => None,
        }
    }

    // whether the form of the value is in front of it
    fn is_indirect(self) -> bool
        ensures { result ≡ is_indirect self }
    {
        matches!(self, Layout::Indirect)
    }

    // whether a value has four or eight bytes
    fn is_wide(self) -> bool
        ensures { result ≡ is_wide self }
    {
        matches!(self, Layout::Sized(Size::Four | Size::Eight))
    }
}

/// The form of a value.
#[derive(Clone, Copy, Debug, PartialEq, Eq)]
pub struct Form {
    /// What it is.
    pub class: FormClass,
    /// How it is spelt.
    pub layout: Layout,
}

// The form with this code that DWARF 2 has, if its values take bytes.
fn first_form(code: u64) -> Option<Form>
    ensures { result ≡ form_in first_forms code }
{
    let (class, layout) = match code {
        // addr
        0x01 => (FormClass::Address, Layout::AddressSize),
        // block2
        0x03 => (FormClass::Block, Layout::Counted(Size::Two)),
        // block4
        0x04 => (FormClass::Block, Layout::Counted(Size::Four)),
        // data2
        0x05 => (FormClass::Constant, Layout::Sized(Size::Two)),
        // data4
        0x06 => (FormClass::Constant, Layout::Sized(Size::Four)),
        // data8
        0x07 => (FormClass::Constant, Layout::Sized(Size::Eight)),
        // string
        0x08 => (FormClass::Other, Layout::Terminated),
        // block
        0x09 => (FormClass::Block, Layout::CountedUnsigned),
        // block1
        0x0a => (FormClass::Block, Layout::Counted(Size::One)),
        // data1
        0x0b => (FormClass::Constant, Layout::Sized(Size::One)),
        // flag
        0x0c => (FormClass::Other, Layout::Sized(Size::One)),
        // sdata
        0x0d => (FormClass::Constant, Layout::Signed),
        // strp
        0x0e => (FormClass::Other, Layout::OffsetSize),
        // udata
        0x0f => (FormClass::Constant, Layout::Unsigned),
        // ref_addr
        0x10 => (FormClass::SectionReference, Layout::ReferenceSize),
        // ref1
        0x11 => (FormClass::Reference, Layout::Sized(Size::One)),
        // ref2
        0x12 => (FormClass::Reference, Layout::Sized(Size::Two)),
        // ref4
        0x13 => (FormClass::Reference, Layout::Sized(Size::Four)),
        // ref8
        0x14 => (FormClass::Reference, Layout::Sized(Size::Eight)),
        // ref_udata
        0x15 => (FormClass::Reference, Layout::Unsigned),
        // indirect
        0x16 => (FormClass::Other, Layout::Indirect),
        _ => return None,
    };
    Some(Form { class, layout })
}

// The form with this code that came with DWARF 4 or 5, if its values take bytes.
fn later_form(code: u64) -> Option<Form>
    ensures { result ≡ form_in later_forms code }
{
    let (class, layout) = match code {
        // sec_offset
        0x17 => (FormClass::SectionOffset, Layout::OffsetSize),
        // exprloc
        0x18 => (FormClass::Expression, Layout::CountedUnsigned),
        // strx
        0x1a => (FormClass::Other, Layout::Unsigned),
        // addrx
        0x1b => (FormClass::AddressIndex, Layout::Unsigned),
        // ref_sup4
        0x1c => (FormClass::Other, Layout::Sized(Size::Four)),
        // strp_sup
        0x1d => (FormClass::Other, Layout::OffsetSize),
        // data16
        0x1e => (FormClass::Other, Layout::Sixteen),
        // line_strp
        0x1f => (FormClass::Other, Layout::OffsetSize),
        // ref_sig8
        0x20 => (FormClass::Other, Layout::Sized(Size::Eight)),
        // loclistx, rnglistx
        0x22..=0x23 => (FormClass::ListIndex, Layout::Unsigned),
        // ref_sup8
        0x24 => (FormClass::Other, Layout::Sized(Size::Eight)),
        // strx1
        0x25 => (FormClass::Other, Layout::Sized(Size::One)),
        // strx2
        0x26 => (FormClass::Other, Layout::Sized(Size::Two)),
        // strx3
        0x27 => (FormClass::Other, Layout::Sized(Size::Three)),
        // strx4
        0x28 => (FormClass::Other, Layout::Sized(Size::Four)),
        // addrx1
        0x29 => (FormClass::AddressIndex, Layout::Sized(Size::One)),
        // addrx2
        0x2a => (FormClass::AddressIndex, Layout::Sized(Size::Two)),
        // addrx3
        0x2b => (FormClass::AddressIndex, Layout::Sized(Size::Three)),
        // addrx4
        0x2c => (FormClass::AddressIndex, Layout::Sized(Size::Four)),
        _ => return None,
    };
    Some(Form { class, layout })
}

impl Form {
    /// The form with this code, whose values take bytes.
    ///
    /// # Errors
    ///
    /// `UnknownForm`.
    #[tactic(auto, unfolding(crate::specs::Forms::form_with_code))]
    pub fn of(code: u64) -> Result<Form, DebugFault>
        ensures { result ≡ form_with_code code }
    {
        let found = if code <= 0x16 {
            first_form(code)
        } else {
            later_form(code)
        };
        match found {
            Some(form) => Ok(form),
            None => Err(DebugFault::UnknownForm),
        }
    }

    /// The form of the value at the front, whose code is in front of it if this is `DW_FORM_indirect`.
    ///
    /// # Errors
    ///
    /// `UnknownForm`, also if that code is of `DW_FORM_indirect` again; those of `Cursor::unsigned`.
    #[tactic(auto, unfolding(crate::specs::Forms::form_of_value))]
    pub fn of_value(self, input: &mut Cursor<'_>) -> Result<Form, DebugFault>
        ensures gives { Gives (λ f. (f, input.new.rest.now)) result (form_of_value self input.old.rest.now) }
        ensures end { input.new.end ≡ input.old.end }
        ensures shorter { length input.new.rest.now ≤ length input.old.rest.now }
    {
        if !self.layout.is_indirect() {
            return Ok(self);
        }
        let code = input.unsigned()?;
        let form = Form::of(code)?;
        if form.layout.is_indirect() {
            return Err(DebugFault::UnknownForm);
        }
        Ok(form)
    }

    /// Whether a value is an offset into another section, of an attribute that may have one in a unit of this version: up to DWARF 3 such an
    /// offset is spelt as a number of four or eight bytes.
    pub fn is_offset(self, version: u16) -> bool
        ensures { result ≡ is_section_offset version self }
    {
        match self.class {
            FormClass::SectionOffset => true,
            FormClass::Constant => version <= 3 && self.layout.is_wide(),
            _ => false,
        }
    }
}

/// The value of an attribute.
#[derive(Clone, Copy)]
pub struct Value<'a> {
    /// The place of its first byte in the section.
    pub at: usize,
    /// How many bytes it takes.
    pub size: usize,
    /// The number, or how many bytes follow it; 0 for a value of other kind.
    pub number: u64,
    /// The bytes of a block or of an expression.
    pub block: &'a [u8],
}

// a number of this size
fn read_alone<'a>(size: Size, input: &mut Cursor<'a>) -> Result<(u64, &'a [u8]), DebugFault>
    ensures gives { Gives (λ x. ((x.0, x.1.now), input.new.rest.now)) result (number_alone (fixed_number (size_in_bytes size)) input.old.rest.now) }
    ensures end { input.new.end ≡ input.old.end }
    ensures shorter { length input.new.rest.now ≤ length input.old.rest.now }
{
    let number = input.sized(size)?;
    Ok((number, &[]))
}

// a number of this size, and as many bytes
fn read_counted<'a>(size: Size, input: &mut Cursor<'a>) -> Result<(u64, &'a [u8]), DebugFault>
    ensures gives { Gives (λ x. ((x.0, x.1.now), input.new.rest.now)) result (block_counted (fixed_number (size_in_bytes size)) input.old.rest.now) }
    ensures end { input.new.end ≡ input.old.end }
    ensures shorter { length input.new.rest.now ≤ length input.old.rest.now }
{
    let count = input.sized(size)?;
    let block = input.bytes(count)?;
    Ok((count, block))
}

/// Reads the number and the bytes of a value.
#[tactic(auto, unfolding(crate::specs::Forms::value_parts))]
fn read_parts<'a>(
    layout: Layout,
    encoding: Encoding,
    input: &mut Cursor<'a>,
) -> Result<(u64, &'a [u8]), DebugFault>
    ensures gives { Gives (λ x. ((x.0, x.1.now), input.new.rest.now)) result (value_parts encoding layout input.old.rest.now) }
    ensures end { input.new.end ≡ input.old.end }
    ensures shorter { length input.new.rest.now ≤ length input.old.rest.now }
{
    match layout {
        Layout::Sized(size) => read_alone(size, input),
        Layout::AddressSize => read_alone(encoding.address_size, input),
        Layout::OffsetSize => read_alone(encoding.offset_size(), input),
        Layout::ReferenceSize => read_alone(encoding.reference_size(), input),
        Layout::Unsigned => {
            let number = input.unsigned()?;
            Ok((number, &[]))
        }
        Layout::Counted(size) => read_counted(size, input),
        Layout::CountedUnsigned => {
            let count = input.unsigned()?;
            let block = input.bytes(count)?;
            Ok((count, block))
        }
        Layout::Sixteen => {
            let block = input.bytes(16)?;
            Ok((0, block))
        }
        Layout::Signed => {
            input.signed()?;
            Ok((0, &[]))
        }
        Layout::Terminated => {
            input.terminated()?;
            Ok((0, &[]))
        }
        Layout::Indirect => Ok((0, &[])),
    }
}

/// Reads the value of an attribute.
///
/// # Errors
///
/// `Truncated`, `BadNumber` or `BadLength`.
pub fn read_value<'a>(
    layout: Layout,
    encoding: Encoding,
    input: &mut Cursor<'a>,
) -> Result<Value<'a>, DebugFault>
    ensures gives { Gives (λ v. (value_spelled v, input.new.rest.now)) result
        (spelled_value encoding layout input.old.end input.old.rest.now) }
    ensures end { input.new.end ≡ input.old.end }
    ensures shorter { length input.new.rest.now ≤ length input.old.rest.now }
{
    let at = input.at();
    let before = input.rest().len();
    let (number, block) = read_parts(layout, encoding, input)?;
    Ok(Value {
        at,
        size: before.saturating_sub(input.rest().len()),
        number,
        block,
    })
}

/// Appends a number, or the number of bytes that follow, in this layout: in so many bytes, if it is spelt in LEB128.
///
/// # Errors
///
/// `DoesNotFit` if the number is greater than its size allows, and then nothing is appended; or out of memory.
pub fn write_number(
    out: &mut Vec<u8>,
    layout: Layout,
    encoding: Encoding,
    width: usize,
    number: u64,
) -> Result<(), DebugError>
    ensures written { OnOk result (out.new.items
        ≡ out.old.items ++ number_written (number_size encoding layout) width number) }
    ensures fits { OnOk result (FitsForm (number_size encoding layout) number) }
    ensures refused { IfErr result (λ e. (e ≡ Memory)
        ⊎ ((e ≡ Fault DoesNotFit) × (¬ FitsForm (number_size encoding layout) number))) }
{
    match layout.number_size(encoding) {
        Some(size) => write_sized(out, size, number),
        None => {
            write_padded(out, number, width)?;
            Ok(())
        }
    }
}
