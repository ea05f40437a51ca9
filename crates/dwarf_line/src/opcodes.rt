//! The codes of operations (DWARF 5, section 7.22).

/// Appends a row.
pub(crate) const DW_LNS_COPY: u8 = 1;
/// Advances the address.
pub(crate) const DW_LNS_ADVANCE_PC: u8 = 2;
/// Advances the line.
pub(crate) const DW_LNS_ADVANCE_LINE: u8 = 3;
/// Sets the file.
pub(crate) const DW_LNS_SET_FILE: u8 = 4;
/// Sets the column.
pub(crate) const DW_LNS_SET_COLUMN: u8 = 5;
/// Negates is_stmt.
pub(crate) const DW_LNS_NEGATE_STMT: u8 = 6;
/// A basic block begins.
pub(crate) const DW_LNS_SET_BASIC_BLOCK: u8 = 7;
/// Advances the address as far as the special opcode 255.
pub(crate) const DW_LNS_CONST_ADD_PC: u8 = 8;
/// Advances the address by a number of two bytes.
pub(crate) const DW_LNS_FIXED_ADVANCE_PC: u8 = 9;
/// A prologue ends.
pub(crate) const DW_LNS_SET_PROLOGUE_END: u8 = 10;
/// An epilogue begins.
pub(crate) const DW_LNS_SET_EPILOGUE_BEGIN: u8 = 11;
/// Sets the instruction set.
pub(crate) const DW_LNS_SET_ISA: u8 = 12;

/// Begins an extended operation.
pub(crate) const EXTENDED: u8 = 0;
/// Ends a sequence.
pub(crate) const DW_LNE_END_SEQUENCE: u8 = 1;
/// Sets the address.
pub(crate) const DW_LNE_SET_ADDRESS: u8 = 2;
/// Sets the discriminator.
pub(crate) const DW_LNE_SET_DISCRIMINATOR: u8 = 4;
