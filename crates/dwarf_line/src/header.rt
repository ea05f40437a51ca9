//! What the header of a line table says to the machine that executes its program.

ghost use Rattle.std.specs.Prelude.{◌≡◌, ◌+◌, ◌-◌, ◌/◌, ◌%◌, ◌<◌, ◌≤◌, length};

/// What the header of a table says to the machine (DWARF 5, section 6.2.4).
#[derive(Clone, Copy)]
pub(crate) struct Header<'a> {
    /// The initial value of the register is_stmt.
    pub default_is_stmt: bool,
    /// The least line advance of a special opcode.
    pub line_base: i64,
    /// How many line advances special opcodes have.
    pub line_range: u8,
    /// The first special opcode.
    pub opcode_base: u8,
    /// How many numbers follow each standard opcode, from the first one on.
    pub operand_counts: &'a [u8],
    ghost ranged: { 0 < line_range },
    ghost based: { 10 ≤ opcode_base },
    ghost counted: { length operand_counts.now + 1 ≡ opcode_base },
}

impl Header<'_> {
    /// How far the special opcode 255 advances the address, and `DW_LNS_const_add_pc`. No special opcode does further.
    pub(crate) fn widest_advance(&self) -> u64
        ensures { result ≡ (255 - self.now.opcode_base) / self.now.line_range }
    {
        (255 - self.opcode_base as u64) / self.line_range as u64
    }

    /// How far a special opcode advances the address.
    pub(crate) fn address_advance(&self, opcode: u8) -> u64
        requires { self.now.opcode_base ≤ opcode }
        ensures { result ≡ (opcode - self.now.opcode_base) / self.now.line_range }
    {
        (opcode as u64 - self.opcode_base as u64) / self.line_range as u64
    }

    /// By how many lines more than the least a special opcode advances the line.
    pub(crate) fn line_step(&self, opcode: u8) -> u8
        requires { self.now.opcode_base ≤ opcode }
        ensures { result ≡ (opcode - self.now.opcode_base) % self.now.line_range }
    {
        (opcode - self.opcode_base) % self.line_range
    }
}
