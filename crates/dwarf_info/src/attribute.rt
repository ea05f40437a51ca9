//! What the value of an attribute means for whoever moves code (DWARF 5, sections 2.2 and 7.5.4).

ghost use Rattle.std.specs.Prelude.{◌≡◌};
ghost use Rattle.wasm_numbers.specs.Results.{unless};
ghost use Rattle.dwarf_bytes.specs.declared.fault.DebugFault.TheVariants.{Unsupported};
ghost use Rattle.dwarf_info.specs.Attributes.{first_meanings, second_meanings, third_meanings, meaning_in, meaning_of, may_be_implicit};

use dwarf_bytes::DebugFault;

/// What the value of an attribute means.
#[derive(Clone, Copy, Debug, PartialEq, Eq)]
pub enum Meaning {
    /// The first address of the entry's code (DW_AT_low_pc).
    LowPc,
    /// The address after the entry's code, or how many bytes it has (DW_AT_high_pc).
    HighPc,
    /// The address where the entry's code is entered, or how many bytes it is after the first address (DW_AT_entry_pc).
    EntryPc,
    /// The address to which a call returns (DW_AT_call_return_pc).
    CallReturnPc,
    /// The address of a call (DW_AT_call_pc).
    CallPc,
    /// The addresses of the entry's code, as a list (DW_AT_ranges, DW_AT_start_scope).
    Ranges,
    /// A line table (DW_AT_stmt_list).
    LineTable,
    /// A location: an expression, or a list of them.
    Location,
    /// A value that may be computed by an expression.
    Computed,
    /// Where the unit's addresses are in `.debug_addr` (DW_AT_addr_base).
    AddressBase,
    /// Where the unit's lists of ranges are (DW_AT_rnglists_base).
    RangeListBase,
    /// Where the unit's lists of locations are (DW_AT_loclists_base).
    LocationListBase,
    /// An offset into a section that doesn't change (DW_AT_str_offsets_base, DW_AT_macros and the like).
    Unmoved,
    /// A unit whose lists are in another file (DW_AT_dwo_name and the like).
    Split,
    /// Nothing that the places of code matter for, unless its form says that it is an address or an expression.
    Other,
}

// What the attribute with this code means, if it is below 0x40.
fn first_meaning(name: u64) -> Meaning
    ensures { result ≡ meaning_in first_meanings name }
{
    match name {
        // location; string_length; return_addr; data_member_location
        0x02 | 0x19 | 0x2a | 0x38 => Meaning::Location,
        // byte_size, bit_offset, bit_size; lower_bound; bit_stride, upper_bound; count
        0x0b..=0x0d | 0x22 | 0x2e..=0x2f | 0x37 => Meaning::Computed,
        // stmt_list
        0x10 => Meaning::LineTable,
        0x11 => Meaning::LowPc,
        0x12 => Meaning::HighPc,
        // start_scope
        0x2c => Meaning::Ranges,
        _ => Meaning::Other,
    }
}

// What the attribute with this code means, if it is from 0x40 to 0x7f.
fn second_meaning(name: u64) -> Meaning
    ensures { result ≡ meaning_in second_meanings name }
{
    match name {
        // frame_base; segment; static_link; use_location; vtable_elem_location
        0x40 | 0x46 | 0x48 | 0x4a | 0x4d => Meaning::Location,
        // allocated, associated, data_location, byte_stride; rank; call_value
        0x4e..=0x51 | 0x71 | 0x7e => Meaning::Computed,
        0x52 => Meaning::EntryPc,
        0x55 => Meaning::Ranges,
        0x73 => Meaning::AddressBase,
        0x74 => Meaning::RangeListBase,
        // macro_info; str_offsets_base; macros
        0x43 | 0x72 | 0x79 => Meaning::Unmoved,
        // dwo_name
        0x76 => Meaning::Split,
        0x7d => Meaning::CallReturnPc,
        _ => Meaning::Other,
    }
}

// What the attribute with this code means, if it is 0x80 or greater.
fn third_meaning(name: u64) -> Meaning
    ensures { result ≡ meaning_in third_meanings name }
{
    match name {
        0x81 => Meaning::CallPc,
        // call_target, call_target_clobbered, call_data_location, call_data_value; those of GNU
        0x83..=0x86 | 0x2111..=0x2114 => Meaning::Computed,
        0x8c => Meaning::LocationListBase,
        // GNU_macros
        0x2119 => Meaning::Unmoved,
        // GNU_dwo_name, GNU_dwo_id, GNU_ranges_base, GNU_addr_base
        0x2130..=0x2133 => Meaning::Split,
        _ => Meaning::Other,
    }
}

impl Meaning {
    /// What the attribute with this code means.
    #[tactic(auto, unfolding(crate::specs::Attributes::meaning_of))]
    pub fn of(name: u64) -> Meaning
        ensures { result ≡ meaning_of name }
    {
        match name {
            ..0x40 => first_meaning(name),
            0x40..0x80 => second_meaning(name),
            _ => third_meaning(name),
        }
    }

    /// Checks that the value of the attribute may be part of its abbreviation.
    ///
    /// # Errors
    ///
    /// `Unsupported` if it says where code is.
    pub fn check_without_bytes(self) -> Result<(), DebugFault>
        ensures { result ≡ unless (may_be_implicit self) Unsupported }
    {
        match self {
            Meaning::Other | Meaning::Location | Meaning::Computed | Meaning::Unmoved => Ok(()),
            _ => Err(DebugFault::Unsupported),
        }
    }
}
