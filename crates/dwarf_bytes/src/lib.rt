//! Sections of DWARF as bytes: how numbers are read and written, and how parts of a section are replaced; and the
//! reasons why a section can't be read or moved.
#![tactic(auto)]

mod addresses;
mod cursor;
mod fault;
mod law;
mod merging;
mod number;
mod patches;
mod size;
mod writing;

pub use addresses::{Address, AddressTable, AddressUses};
pub use cursor::Cursor;
pub use fault::{DebugError, DebugFault};
pub use law::{law_padded, law_patched, law_same_sizes, law_sized};
pub use merging::MergedPatches;
pub use number::{
    read_initial_length, read_offset, read_signed, read_sized, read_u8, read_u16, read_u32,
    read_u64, read_unsigned, split,
};
pub use patches::Patches;
pub use size::{Format, Size};
pub use writing::{write_padded, write_sized};
