//! The operations of a line number program (DWARF 5, section 6.2.5).

use dwarf_bytes::Size;

/// The size of an address on the target.
#[derive(Clone, Copy, Debug, PartialEq, Eq)]
pub(crate) enum AddressSize {
    /// Four bytes.
    Four,
    /// Eight bytes.
    Eight,
}

impl AddressSize {
    ghost use Rattle.std.specs.Prelude.{◌≡◌, ◌≤◌};
    ghost use Rattle.dwarf_bytes.specs.Numbers.{size_in_bytes};
    ghost use Rattle.dwarf_line.specs.Operations.{address_bytes};

    /// The number of bytes.
    pub(crate) fn bytes(self) -> u8
        ensures value { result ≡ address_bytes self }
        ensures small { result ≤ 8 }
    {
        match self {
            AddressSize::Four => 4,
            AddressSize::Eight => 8,
        }
    }

    /// The size as one of a number.
    pub(crate) fn size(self) -> Size
        ensures { size_in_bytes result ≡ address_bytes self }
    {
        match self {
            AddressSize::Four => Size::Four,
            AddressSize::Eight => Size::Eight,
        }
    }
}

/// What an operation changes in the registers of the machine that aren't the address.
#[derive(Clone, Copy, Debug, PartialEq, Eq)]
pub(crate) enum Change {
    /// The line advances by this number.
    AdvanceLine(i64),
    /// The file.
    File(u64),
    /// The column.
    Column(u64),
    /// Whether a row is a recommended breakpoint is turned into the opposite.
    NegateStatement,
    /// A basic block begins.
    BasicBlock,
    /// A prologue ends.
    PrologueEnd,
    /// An epilogue begins.
    EpilogueBegin,
    /// The instruction set.
    InstructionSet(u64),
    /// The discriminator of a block.
    Discriminator(u64),
    /// Nothing: the operation adds a file to the header's, or it isn't one of the standard's.
    Nothing,
}

/// An operation of a line number program.
#[derive(Clone, Copy, Debug, PartialEq, Eq)]
pub(crate) enum Operation {
    /// The address advances by this number.
    Advance(u64),
    /// The address is set.
    SetAddress(AddressSize, u64),
    /// The special opcode: address and line advance, and a row is appended.
    Special(u8),
    /// A row is appended.
    AppendRow,
    /// The last row of a sequence is appended.
    EndSequence,
    /// Another register changes.
    Changes(Change),
}
