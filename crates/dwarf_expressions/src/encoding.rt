//! How the numbers of a unit are written.

use dwarf_bytes::{Format, Size};

/// How the numbers of a unit are written.
#[derive(Clone, Copy, Debug, PartialEq, Eq)]
pub struct Encoding {
    /// The version of DWARF.
    pub version: u16,
    /// The format, which decides on the size of offsets.
    pub format: Format,
    /// The size of addresses.
    pub address_size: Size,
}

impl Encoding {
    ghost use Rattle.std.specs.Prelude.{◌≡◌, ◌-◌, ◌^◌};
    ghost use Rattle.dwarf_bytes.specs.Numbers.{size_in_bytes, offset_size};
    ghost use Rattle.dwarf_expressions.specs.Operands.{reference_size};

    /// The size of offsets into a section.
    pub fn offset_size(self) -> Size
        ensures { result ≡ offset_size self.format }
    {
        self.format.offset_size()
    }

    /// The size of the offset of an entry in `.debug_info` (DWARF 5, section 7.5.5, `DW_FORM_ref_addr`).
    pub fn reference_size(self) -> Size
        ensures { result ≡ reference_size self }
    {
        if self.version == 2 {
            self.address_size
        } else {
            self.offset_size()
        }
    }

    /// The greatest address.
    pub fn greatest_address(self) -> u64
        ensures { result ≡ 256 ^ size_in_bytes self.address_size - 1 }
    {
        self.address_size.greatest()
    }
}
