//! The kinds of entries (DWARF 5, sections 7.25 and 7.7.3).

ghost use Rattle.std.specs.Prelude.{◌≡◌};
ghost use Rattle.dwarf_new_lists.specs.Kinds.{new_list_kind_of as kind_of};
ghost use Rattle.dwarf_new_lists.specs.declared.kind.Lists.TheVariants as lists;

/// The lists that a section has.
#[derive(Clone, Copy, Debug, PartialEq, Eq)]
pub(crate) enum Lists {
    /// Lists of ranges, in `.debug_rnglists`.
    Ranges,
    /// Lists of locations, in `.debug_loclists`.
    Locations,
}

/// What an entry says, and how.
#[derive(Clone, Copy, Debug, PartialEq, Eq)]
pub(crate) enum Kind {
    /// The list ends (end_of_list).
    End,
    /// The base of what follows, by its index (base_addressx).
    BaseIndex,
    /// A beginning and an end, by their indices (startx_endx).
    IndexPair,
    /// A beginning, by its index, and a length (startx_length).
    IndexLength,
    /// A beginning and an end, counted from the base (offset_pair).
    OffsetPair,
    /// A location wherever no other entry says one (default_location).
    Default,
    /// The base of what follows (base_address).
    Base,
    /// A beginning and an end (start_end).
    Pair,
    /// A beginning and a length (start_length).
    Length,
    /// The views of a beginning and an end (`DW_LLE_GNU_view_pair`).
    Views,
}

/// How an operand of an entry is written.
#[derive(Clone, Copy, Debug, PartialEq, Eq)]
pub(crate) enum Operand {
    /// There is none.
    Nothing,
    /// An address.
    Address,
    /// A LEB128 number.
    Number,
}

// the kind of an entry of a list of ranges
#[tactic(auto, unfolding(crate::specs::Kinds::new_list_kind_of))]
fn range_kind(code: u8) -> Option<Kind>
    ensures { result ≡ kind_of lists.Ranges code }
{
    let kind = match code {
        0 => Kind::End,
        1 => Kind::BaseIndex,
        2 => Kind::IndexPair,
        3 => Kind::IndexLength,
        4 => Kind::OffsetPair,
        5 => Kind::Base,
        6 => Kind::Pair,
        7 => Kind::Length,
        _ => return None,
    };
    Some(kind)
}

// the kind of an entry of a list of locations
#[tactic(auto, unfolding(crate::specs::Kinds::new_list_kind_of))]
fn location_kind(code: u8) -> Option<Kind>
    ensures { result ≡ kind_of lists.Locations code }
{
    let kind = match code {
        0 => Kind::End,
        1 => Kind::BaseIndex,
        2 => Kind::IndexPair,
        3 => Kind::IndexLength,
        4 => Kind::OffsetPair,
        5 => Kind::Default,
        6 => Kind::Base,
        7 => Kind::Pair,
        8 => Kind::Length,
        9 => Kind::Views,
        _ => return None,
    };
    Some(kind)
}

impl Lists {
    ghost use Rattle.std.specs.Prelude.{◌≡◌};
    ghost use Rattle.dwarf_new_lists.specs.Kinds.{new_list_kind_of as kind_of, has_expression};

    /// The kind of an entry with this code, if it is known.
    pub(crate) fn kind(self, code: u8) -> Option<Kind>
        ensures { result ≡ kind_of self code }
    {
        match self {
            Lists::Ranges => range_kind(code),
            Lists::Locations => location_kind(code),
        }
    }

    /// Whether an expression follows the operands of an entry.
    pub(crate) fn has_expression(self, kind: Kind) -> bool
        ensures { result ≡ has_expression self kind }
    {
        match self {
            Lists::Ranges => false,
            Lists::Locations => !matches!(
                kind,
                Kind::End | Kind::BaseIndex | Kind::Base | Kind::Views
            ),
        }
    }
}

impl Kind {
    ghost use Rattle.std.specs.Prelude.{◌≡◌};
    ghost use Rattle.dwarf_new_lists.specs.Kinds.{new_list_is_end, is_default, new_list_operands};

    /// Whether the entry ends its list.
    pub(crate) fn is_end(self) -> bool
        ensures { result ≡ new_list_is_end self }
    {
        matches!(self, Kind::End)
    }

    /// Whether the entry is a location wherever no other entry says one.
    pub(crate) fn is_default(self) -> bool
        ensures { result ≡ is_default self }
    {
        matches!(self, Kind::Default)
    }

    /// The operands of an entry.
    pub(crate) fn operands(self) -> (Operand, Operand)
        ensures { result ≡ new_list_operands self }
    {
        match self {
            Kind::End | Kind::Default => (Operand::Nothing, Operand::Nothing),
            Kind::BaseIndex => (Operand::Number, Operand::Nothing),
            Kind::IndexPair | Kind::IndexLength | Kind::OffsetPair | Kind::Views => {
                (Operand::Number, Operand::Number)
            }
            Kind::Base => (Operand::Address, Operand::Nothing),
            Kind::Pair => (Operand::Address, Operand::Address),
            Kind::Length => (Operand::Address, Operand::Number),
        }
    }
}
