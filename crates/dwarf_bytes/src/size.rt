//! The sizes of numbers.

ghost use Rattle.std.specs.Prelude.{◌≡◌, ◌-◌, ◌^◌};
ghost use Rattle.dwarf_bytes.specs.Numbers.{size_in_bytes, offset_size};

/// How many bytes a number has.
#[derive(Clone, Copy, Debug, PartialEq, Eq)]
pub enum Size {
    /// One byte.
    One,
    /// Two bytes.
    Two,
    /// Three bytes.
    Three,
    /// Four bytes.
    Four,
    /// Eight bytes.
    Eight,
}

impl Size {
    /// The number of bytes.
    pub fn bytes(self) -> usize
        ensures { result ≡ size_in_bytes self }
    {
        match self {
            Size::One => 1,
            Size::Two => 2,
            Size::Three => 3,
            Size::Four => 4,
            Size::Eight => 8,
        }
    }

    /// The greatest number of this size.
    pub fn greatest(self) -> u64
        ensures { result ≡ 256 ^ size_in_bytes self - 1 }
    {
        match self {
            Size::One => 0xff,
            Size::Two => 0xffff,
            Size::Three => 0xff_ffff,
            Size::Four => 0xffff_ffff,
            Size::Eight => u64::MAX,
        }
    }
}

/// The two formats of DWARF, which differ in the sizes of lengths and offsets (DWARF 5, section 7.4).
#[derive(Clone, Copy, Debug, PartialEq, Eq)]
pub enum Format {
    /// Lengths and offsets of four bytes.
    Dwarf32,
    /// Lengths and offsets of eight bytes.
    Dwarf64,
}

impl Format {
    /// The size of an offset.
    pub fn offset_size(self) -> Size
        ensures { result ≡ offset_size self }
    {
        match self {
            Format::Dwarf32 => Size::Four,
            Format::Dwarf64 => Size::Eight,
        }
    }
}
