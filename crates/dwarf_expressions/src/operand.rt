//! The operands of operations (DWARF 5, section 7.7.1; DWARF for WebAssembly, "DW_OP_WASM_location"; and those that GCC and
//! LLVM write besides, whose names begin with `DW_OP_GNU`).

ghost use Rattle.std.specs.Prelude.{◌≡◌};
ghost use Rattle.dwarf_expressions.specs.Operands.{first_rows, other_rows, vendor_rows, expression_operands_in, expression_operands as operands};

use dwarf_bytes::Size;

/// How an operand of an operation is written.
#[derive(Clone, Copy, Debug, PartialEq, Eq)]
pub(crate) enum Operand {
    /// There is none.
    Nothing,
    /// An address.
    Address,
    /// A number of this size.
    Fixed(Size),
    /// A LEB128 number.
    Unsigned,
    /// A signed LEB128 number.
    Signed,
    /// How many bytes to go forward or back, in two bytes.
    Branch,
    /// A LEB128 number, and as many bytes.
    Block,
    /// A byte, and as many bytes as it says.
    ShortBlock,
    /// A LEB128 number, and an expression of as many bytes.
    Expression,
    /// A place of WebAssembly: a byte that says of which kind, and an index.
    Place,
    /// The offset of an entry from the beginning of its unit, in this size.
    EntryAt(Size),
    /// The offset of an entry from the beginning of its unit, in LEB128.
    Entry,
    /// The offset of an entry into `.debug_info`.
    EntryOfAnyUnit,
}

const NONE: (Operand, Operand) = (Operand::Nothing, Operand::Nothing);

// the operands of an operation that computes, or whose code contains a number
fn first_operands(code: u8) -> Option<(Operand, Operand)>
    ensures { result ≡ expression_operands_in first_rows code }
{
    let operands = match code {
        // addr
        0x03 => (Operand::Address, Operand::Nothing),
        // const1u, const1s; pick
        0x08..=0x09 | 0x15 => (Operand::Fixed(Size::One), Operand::Nothing),
        // const2u, const2s
        0x0a..=0x0b => (Operand::Fixed(Size::Two), Operand::Nothing),
        // const4u, const4s
        0x0c..=0x0d => (Operand::Fixed(Size::Four), Operand::Nothing),
        // const8u, const8s
        0x0e..=0x0f => (Operand::Fixed(Size::Eight), Operand::Nothing),
        // constu; plus_uconst
        0x10 | 0x23 => (Operand::Unsigned, Operand::Nothing),
        // consts; breg0 to breg31
        0x11 | 0x70..=0x8f => (Operand::Signed, Operand::Nothing),
        // bra; skip
        0x28 | 0x2f => (Operand::Branch, Operand::Nothing),
        // deref; dup, drop, over; swap to plus; shl to xor; eq to ne; lit0 to reg31
        0x06 | 0x12..=0x14 | 0x16..=0x22 | 0x24..=0x27 | 0x29..=0x2e | 0x30..=0x6f => NONE,
        _ => return None,
    };
    Some(operands)
}

// the operands of another operation of the standard
fn other_operands(code: u8) -> Option<(Operand, Operand)>
    ensures { result ≡ expression_operands_in other_rows code }
{
    let operands = match code {
        // regx; piece; addrx, constx
        0x90 | 0x93 | 0xa1..=0xa2 => (Operand::Unsigned, Operand::Nothing),
        // fbreg
        0x91 => (Operand::Signed, Operand::Nothing),
        // bregx
        0x92 => (Operand::Unsigned, Operand::Signed),
        // deref_size, xderef_size
        0x94..=0x95 => (Operand::Fixed(Size::One), Operand::Nothing),
        // nop, push_object_address; form_tls_address, call_frame_cfa; stack_value
        0x96..=0x97 | 0x9b..=0x9c | 0x9f => NONE,
        // call2
        0x98 => (Operand::EntryAt(Size::Two), Operand::Nothing),
        // call4
        0x99 => (Operand::EntryAt(Size::Four), Operand::Nothing),
        // call_ref
        0x9a => (Operand::EntryOfAnyUnit, Operand::Nothing),
        // bit_piece
        0x9d => (Operand::Unsigned, Operand::Unsigned),
        // implicit_value
        0x9e => (Operand::Block, Operand::Nothing),
        // implicit_pointer
        0xa0 => (Operand::EntryOfAnyUnit, Operand::Signed),
        // entry_value
        0xa3 => (Operand::Expression, Operand::Nothing),
        // const_type
        0xa4 => (Operand::Entry, Operand::ShortBlock),
        // regval_type
        0xa5 => (Operand::Unsigned, Operand::Entry),
        // deref_type, xderef_type
        0xa6..=0xa7 => (Operand::Fixed(Size::One), Operand::Entry),
        // convert, reinterpret
        0xa8..=0xa9 => (Operand::Entry, Operand::Nothing),
        _ => return None,
    };
    Some(operands)
}

// the operands of an operation of a vendor
fn vendor_operands(code: u8) -> Option<(Operand, Operand)>
    ensures { result ≡ expression_operands_in vendor_rows code }
{
    let operands = match code {
        // GNU_push_tls_address; GNU_uninit
        0xe0 | 0xf0 => NONE,
        // WASM_location
        0xed => (Operand::Place, Operand::Nothing),
        // GNU_implicit_pointer
        0xf2 => (Operand::EntryOfAnyUnit, Operand::Signed),
        // GNU_entry_value
        0xf3 => (Operand::Expression, Operand::Nothing),
        // GNU_const_type
        0xf4 => (Operand::Entry, Operand::ShortBlock),
        // GNU_regval_type
        0xf5 => (Operand::Unsigned, Operand::Entry),
        // GNU_deref_type
        0xf6 => (Operand::Fixed(Size::One), Operand::Entry),
        // GNU_convert; GNU_reinterpret
        0xf7 | 0xf9 => (Operand::Entry, Operand::Nothing),
        // GNU_parameter_ref
        0xfa => (Operand::EntryAt(Size::Four), Operand::Nothing),
        // GNU_addr_index, GNU_const_index
        0xfb..=0xfc => (Operand::Unsigned, Operand::Nothing),
        // GNU_variable_value
        0xfd => (Operand::EntryOfAnyUnit, Operand::Nothing),
        _ => return None,
    };
    Some(operands)
}

/// The operands of the operation with this code, if it is known.
#[tactic(auto, unfolding(crate::specs::Operands::expression_operands))]
pub(crate) fn operands(code: u8) -> Option<(Operand, Operand)>
    ensures { result ≡ operands code }
{
    match code {
        ..0x90 => first_operands(code),
        0x90..0xe0 => other_operands(code),
        _ => vendor_operands(code),
    }
}
