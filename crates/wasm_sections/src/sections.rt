//! Sections (WebAssembly core specification 3.0, binary format, modules).
ghost use Rattle.std.specs.Prelude.{◌≡◌, ◌<◌, ◌-◌, ◌++◌, length, option_map, Ok, IfOk, IfSome};
ghost use Rattle.wasm_numbers.specs.Numbers.{u32};
ghost use Rattle.wasm_sections.specs.Sections.{preamble, section_id, section_at, known_section, section_part, rank_with, BeginsSection, BeginsWithName};
ghost use Rattle.wasm_numbers.specs.Results.{Gives, some_or, with_fault};
ghost use Rattle.wasm_sections.specs.declared.fault.ModuleFault.TheVariants.{UnknownSection};
ghost use Rattle.wasm_sections.specs.Format.{name_part};
ghost use Rattle.wasm_sections.specs.Components.{preamble_part};

use crate::fault::{ModuleError, ModuleFault};
use crate::input::Input;

/// The bytes that a module begins with: the magic number, and the version.
pub const PREAMBLE: [u8; 8] = *b"\0asm\x01\0\0\0";

/// One more than the greatest rank of a section (see `SectionKind::rank`).
pub const RANKS: u8 = 14;

/// The kind of a section.
#[derive(Clone, Copy, Debug, PartialEq, Eq)]
pub enum SectionKind {
    /// Bytes with a name, such as names, debug information and metadata of code.
    Custom,
    /// Recursive groups of types.
    Type,
    /// Imports.
    Import,
    /// The type indices of the functions that have a body.
    Function,
    /// Tables.
    Table,
    /// Memories.
    Memory,
    /// Tags.
    Tag,
    /// Globals, with their initial values.
    Global,
    /// Exports.
    Export,
    /// The index of the function that is called at the start.
    Start,
    /// Element segments.
    Element,
    /// The number of data segments.
    DataCount,
    /// The bodies of functions.
    Code,
    /// Data segments.
    Data,
}

impl SectionKind {
    ghost use Rattle.wasm_sections.specs.Sections.{section_id, rank};

    /// The kind of a section with this id.
    fn of_id(id: u8) -> Option<SectionKind>
        ensures some { IfSome result (λ kind. section_id kind ≡ id) }
        ensures is { known_section id ≡ some_or (option_map section_id result) UnknownSection }
    {
        match id {
            0 => Some(SectionKind::Custom),
            1 => Some(SectionKind::Type),
            2 => Some(SectionKind::Import),
            3 => Some(SectionKind::Function),
            4 => Some(SectionKind::Table),
            5 => Some(SectionKind::Memory),
            6 => Some(SectionKind::Global),
            7 => Some(SectionKind::Export),
            8 => Some(SectionKind::Start),
            9 => Some(SectionKind::Element),
            10 => Some(SectionKind::Code),
            11 => Some(SectionKind::Data),
            12 => Some(SectionKind::DataCount),
            13 => Some(SectionKind::Tag),
            _ => None,
        }
    }

    /// The id of sections of this kind.
    pub fn id(self) -> u8
        ensures { result ≡ section_id self }
    {
        match self {
            SectionKind::Custom => 0,
            SectionKind::Type => 1,
            SectionKind::Import => 2,
            SectionKind::Function => 3,
            SectionKind::Table => 4,
            SectionKind::Memory => 5,
            SectionKind::Global => 6,
            SectionKind::Export => 7,
            SectionKind::Start => 8,
            SectionKind::Element => 9,
            SectionKind::Code => 10,
            SectionKind::Data => 11,
            SectionKind::DataCount => 12,
            SectionKind::Tag => 13,
        }
    }

    /// Its rank: a section that isn't custom comes before those of a greater rank. Tags come after
    /// memories, and the data count after elements.
    pub fn rank(self) -> u8
        ensures { result ≡ rank (section_id self) }
    {
        match self {
            SectionKind::Custom => 0,
            SectionKind::Type => 1,
            SectionKind::Import => 2,
            SectionKind::Function => 3,
            SectionKind::Table => 4,
            SectionKind::Memory => 5,
            SectionKind::Tag => 6,
            SectionKind::Global => 7,
            SectionKind::Export => 8,
            SectionKind::Start => 9,
            SectionKind::Element => 10,
            SectionKind::DataCount => 11,
            SectionKind::Code => 12,
            SectionKind::Data => 13,
        }
    }
}

/// A section of a module.
#[derive(Clone, Copy)]
pub struct Section<'a> {
    /// Its kind.
    pub kind: SectionKind,
    /// All of its bytes: its id, its size, and its contents.
    pub whole: &'a [u8],
    /// The place of its id.
    pub at: usize,
    /// Its contents.
    pub contents: Input<'a>,
}

impl<'a> Section<'a> {
    /// Its contents, without its id and its size.
    pub fn contents(&self) -> &'a [u8]
        ensures { result.now ≡ self.now.contents.rest.now }
    {
        self.contents.rest()
    }

    /// The place of the first byte of its contents.
    pub fn contents_at(&self) -> usize
        ensures { result ≡ self.now.contents.end - length self.now.contents.rest.now }
    {
        self.contents.at()
    }

    /// The name of a custom section.
    ///
    /// # Errors
    ///
    /// `Truncated`, `Read` or `BadName`; none for a custom section of a module that was read.
    pub fn name(&self) -> Result<&'a str, ModuleError>
        ensures { IfOk result (λ name. BeginsWithName self.now.contents.rest.now name.now) }
    {
        match self.named_input() {
            Ok((name, _)) => Ok(name),
            Err(error) => Err(error),
        }
    }

    /// The name of a custom section, and the contents that follow it.
    ///
    /// # Errors
    ///
    /// Those of `name`.
    pub fn named_contents(&self) -> Result<(&'a str, &'a [u8]), ModuleError>
        ensures { IfOk result (λ x. u32 self.now.contents.rest.now
            ≡ Ok (length x.0.now, x.0.now ++ x.1.now)) }
    {
        match self.named_input() {
            Ok((name, following)) => Ok((name, following.rest())),
            Err(error) => Err(error),
        }
    }

    /// The name of a custom section, and the contents that follow it.
    ///
    /// # Errors
    ///
    /// Those of `name`.
    pub fn named_input(&self) -> Result<(&'a str, Input<'a>), ModuleError>
        ensures value { IfOk result (λ x. u32 self.now.contents.rest.now
            ≡ Ok (length x.0.now, x.0.now ++ x.1.rest.now)) }
        ensures is { Gives (λ x. (x.0.now, x.1.rest.now)) result (name_part self.now.contents.end
            self.now.contents.rest.now) }
    {
        let mut contents = self.contents;
        let name = contents.name()?;
        Ok((name, contents))
    }
}

/// The section at the beginning, and the bytes that follow it.
fn read_section(mut left: Input<'_>) -> Result<(Section<'_>, Input<'_>), ModuleError>
    ensures begins { IfOk result (λ x. BeginsSection left.entry.end left.entry.rest.now (section_at x.0)
        x.1.rest.now) }
    ensures end { IfOk result (λ x. x.1.end ≡ left.entry.end) }
    ensures shorter { IfOk result (λ x. length x.1.rest.now < length left.entry.rest.now) }
    ensures place { IfOk result
        (λ x. x.0.at ≡ left.entry.end - length left.entry.rest.now) }
    ensures contents_end { IfOk result
        (λ x. x.0.contents.end ≡ left.entry.end - length x.1.rest.now) }
    ensures is { Gives (λ x. ((section_id x.0.kind, x.0.contents.rest.now), x.1.rest.now)) result
        (section_part left.entry.end left.entry.rest.now) }
{
    let begin = left;
    let id = left.byte()?;
    let Some(kind) = SectionKind::of_id(id) else {
        return Err(begin.fault(ModuleFault::UnknownSection));
    };
    let len = left.number()?;
    let contents = left.part(len as usize)?;
    let section = Section {
        kind,
        whole: begin.until(&left),
        at: begin.at(),
        contents,
    };
    Ok((section, left))
}

/// The sections of a module, in order. A fault is the last item: `UnknownSection`, `BadNumber`,
/// `Truncated`, or `SectionOutOfOrder` if a section comes after one that it has to come before, or
/// if there was one of its kind.
#[derive(Clone, Copy)]
pub struct Sections<'a> {
    left: Input<'a>,
    rank: u8,
}

impl<'a> Sections<'a> {
    /// The sections of a module with these bytes.
    ///
    /// # Errors
    ///
    /// `Truncated`, `BadMagic` or `BadVersion`.
    pub fn new(bytes: &'a [u8]) -> Result<Sections<'a>, ModuleError>
        ensures rest { IfOk result (λ s. bytes.now ≡ preamble ++ s.left.rest.now) }
        ensures end { IfOk result (λ s. s.left.end ≡ length bytes.now) }
        ensures rank { IfOk result (λ s. s.rank ≡ 0) }
        ensures is { Gives (λ s. (tt, s.left.rest.now)) result
            (preamble_part (length bytes.now) bytes.now) }
    {
        let mut left = Input::new(bytes);
        let magic = left.part(4)?;
        if magic.rest() != b"\0asm".as_slice() {
            return Err(magic.fault(ModuleFault::BadMagic));
        }
        let version = left.part(4)?;
        if version.rest() != [1, 0, 0, 0].as_slice() {
            return Err(version.fault(ModuleFault::BadVersion));
        }
        Ok(Sections { left, rank: 0 })
    }
}

/// The rank of the last section that isn't custom, after one more was read.
fn rank_after(before: u8, section: &Section<'_>) -> Result<u8, ModuleError>
    ensures { Gives (λ rank. rank) result (with_fault (λ f. record { fault = f; at = section.now.at })
        (rank_with before (section_id section.now.kind))) }
{
    let rank = section.kind.rank();
    if section.kind == SectionKind::Custom {
        return Ok(before);
    }
    if rank <= before {
        return Err(ModuleError {
            fault: ModuleFault::SectionOutOfOrder,
            at: section.at,
        });
    }
    Ok(rank)
}

impl<'a> Iterator for Sections<'a> {
    ghost use Rattle.std.specs.Prelude.{length};
    ghost use Rattle.std.specs.Iterator.{at_most};
    ghost use Rattle.wasm_sections.specs.Sections.{TakesSection};

    type Item = Result<Section<'a>, ModuleError>;

    ghost next_gives = { TakesSection };

    ghost remaining = { λ s. at_most (length s.left.rest.now) };

    fn next(&mut self) -> Option<Result<Section<'a>, ModuleError>> {
        if self.left.is_empty() {
            return None;
        }
        let begin = self.left;
        self.left = begin.ended();
        let (section, left) = match read_section(begin) {
            Ok(read) => read,
            Err(error) => return Some(Err(error)),
        };
        match rank_after(self.rank, &section) {
            Ok(rank) => {
                self.rank = rank;
                self.left = left;
                Some(Ok(section))
            }
            Err(error) => Some(Err(error)),
        }
    }
}
