//! The sections of debug information, by their names.

ghost use Rattle.std.specs.Prelude.{◌≡◌, ◌⊎◌, [], OnOk, OnErr, IfErr};
ghost use Rattle.dwarf_bytes.specs.declared.fault.DebugError.TheVariants.{Memory, Fault};
ghost use Rattle.dwarf_bytes.specs.declared.fault.DebugFault.TheVariants as faults;
ghost use Rattle.dwarf.specs.Sections.{contents_by_name, contents_named, AreContents, IsSectionAdded, IsSectionRefused};

use crate::failure::DebugFailure;
use dwarf_bytes::{DebugError, DebugFault};
use std::alloc::Global;

/// A section of debug information.
#[derive(Clone, Copy, Debug, PartialEq, Eq)]
pub enum SectionName {
    /// `.debug_info`: entries.
    Info,
    /// `.debug_types`: entries of types, in DWARF 4.
    Types,
    /// `.debug_abbrev`: how entries are spelt.
    Abbreviations,
    /// `.debug_line`: line tables.
    Lines,
    /// `.debug_ranges`: lists of ranges, up to DWARF 4.
    Ranges,
    /// `.debug_loc`: lists of locations, up to DWARF 4.
    Locations,
    /// `.debug_rnglists`: lists of ranges, from DWARF 5 on.
    RangeLists,
    /// `.debug_loclists`: lists of locations, from DWARF 5 on.
    LocationLists,
    /// `.debug_addr`: addresses that are named by index.
    Addresses,
    /// `.debug_aranges`: which addresses a unit has.
    AddressRanges,
    /// `.debug_pubnames`: where the entries of names are.
    PublicNames,
    /// `.debug_pubtypes`: where the entries of types are.
    PublicTypes,
    /// `.debug_gnu_pubnames`: the same with what kind each is.
    GnuPublicNames,
    /// `.debug_gnu_pubtypes`: the same of types.
    GnuPublicTypes,
    /// `.debug_names`: where the entries of names are, from DWARF 5 on.
    NameIndex,
    /// `.debug_macro`: macros, from DWARF 5 on, and those of GNU.
    Macros,
    /// A section that leads to no code, entry or list: strings, and macros of DWARF 4.
    Unmoved,
    /// A section that isn't read.
    Unknown,
}

impl SectionName {
    /// The section of this name; None if it isn't one of debug information.
    pub fn of(name: &str) -> Option<SectionName> {
        let kind = name.strip_prefix(".debug_")?;
        Some(match kind {
            "info" => SectionName::Info,
            "types" => SectionName::Types,
            "abbrev" => SectionName::Abbreviations,
            "line" => SectionName::Lines,
            "ranges" => SectionName::Ranges,
            "loc" => SectionName::Locations,
            "rnglists" => SectionName::RangeLists,
            "loclists" => SectionName::LocationLists,
            "addr" => SectionName::Addresses,
            "aranges" => SectionName::AddressRanges,
            "pubnames" => SectionName::PublicNames,
            "pubtypes" => SectionName::PublicTypes,
            "gnu_pubnames" => SectionName::GnuPublicNames,
            "gnu_pubtypes" => SectionName::GnuPublicTypes,
            "names" => SectionName::NameIndex,
            "macro" => SectionName::Macros,
            "str" | "line_str" | "str_offsets" | "macinfo" => SectionName::Unmoved,
            _ => SectionName::Unknown,
        })
    }

    /// The name.
    pub fn name(self) -> &'static str {
        match self {
            SectionName::Info => ".debug_info",
            SectionName::Types => ".debug_types",
            SectionName::Abbreviations => ".debug_abbrev",
            SectionName::Lines => ".debug_line",
            SectionName::Ranges => ".debug_ranges",
            SectionName::Locations => ".debug_loc",
            SectionName::RangeLists => ".debug_rnglists",
            SectionName::LocationLists => ".debug_loclists",
            SectionName::Addresses => ".debug_addr",
            SectionName::AddressRanges => ".debug_aranges",
            SectionName::PublicNames => ".debug_pubnames",
            SectionName::PublicTypes => ".debug_pubtypes",
            SectionName::GnuPublicNames => ".debug_gnu_pubnames",
            SectionName::GnuPublicTypes => ".debug_gnu_pubtypes",
            SectionName::NameIndex => ".debug_names",
            SectionName::Macros => ".debug_macro",
            SectionName::Unmoved => "strings or macros",
            SectionName::Unknown => "a section that isn't known",
        }
    }
}

/// A section with its contents.
#[derive(Clone, Copy)]
struct NamedSection<'a> {
    name: SectionName,
    contents: &'a [u8],
}

/// The contents of the sections of a module that are moved, or that are read for it.
#[derive(Drop)]
pub struct DebugSections<'a> {
    sections: Vec<NamedSection<'a>>,
}

impl<'a> DebugSections<'a> {
    /// No sections.
    pub fn new(alloc: Global) -> DebugSections<'a>
        ensures { contents_by_name result.sections.items ≡ [] }
    {
        DebugSections {
            sections: Vec::new(alloc),
        }
    }

    /// The contents of a section; none if there is no such section.
    pub fn get(&self, name: SectionName) -> &'a [u8]
        ensures contents { AreContents (contents_by_name self.now.sections.items) name result.now }
        ensures named { result.now ≡ contents_named (contents_by_name self.now.sections.items) name }
    {
        self.find(name)
    }

    /// The contents of the first section of this name.
    fn find(&self, name: SectionName) -> &'a [u8]
        ensures { AreContents (contents_by_name self.now.sections.items) name result.now }
    {
        'sections: for section in &self.sections {
            if section.name == name {
                return section.contents;
            }
        }
        &[]
    }

    /// Adds a section.
    ///
    /// # Errors
    ///
    /// `Unsupported` if there is one of this name, which isn't empty, or if the section isn't read; out of memory.
    pub fn add(&mut self, name: SectionName, contents: &'a [u8]) -> Result<(), DebugFailure>
        ensures added { OnOk result (IsSectionAdded name contents.now (contents_by_name self.old.sections.items) (contents_by_name self.new.sections.items)) }
        ensures refused { IfErr result (λ e. (e.section ≡ name) × ((e.error ≡ Memory)
            ⊎ ((e.error ≡ Fault faults.Unsupported) × IsSectionRefused name (contents_by_name self.old.sections.items)))) }
        ensures unchanged { OnErr result (contents_by_name self.new.sections.items ≡ contents_by_name self.old.sections.items) }
    {
        if name == SectionName::Unmoved {
            return Ok(());
        }
        if name == SectionName::Unknown || !self.get(name).is_empty() {
            return Err(DebugFailure::fault(name, DebugFault::Unsupported));
        }
        match self.sections.push(NamedSection { name, contents }) {
            Ok(()) => Ok(()),
            Err(_) => Err(DebugFailure {
                section: name,
                error: DebugError::Memory,
            }),
        }
    }
}
