//! Line tables (DWARF 5, section 6.2.4).

use crate::header::Header;
use dwarf_bytes::Format;

/// A line table.
#[derive(Clone, Copy)]
pub(crate) struct Table<'a> {
    /// The format, which the length shows.
    pub format: Format,
    /// The bytes between the length and the program.
    pub front: &'a [u8],
    /// What the header says to the machine.
    pub header: Header<'a>,
    /// The bytes of the program.
    pub program: &'a [u8],
}
