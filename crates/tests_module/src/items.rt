//! The items of sections: data segments and custom sections as they are read, and items that are replaced, renamed or removed.
use crate::cases::{Query, check};
use crate::making::{Item, Step};
use crate::texts::EVERY_SECTION;
use crate::whole_modules::{Change, Output};
use module_items::{
    ActiveSegment, NewExport, custom_section, data_segments, export_all, put_custom_section,
    remove_export, rename_export, rename_import, replace_export, replace_item, set_memory_limits,
    set_table_limits,
};
use std::test::Fail;
use wasm_body::Space;
use wasm_module::{Changes, Limits, ModuleError, ParsedModule, SectionKind};

/// A change of one item of a section.
#[derive(Clone, Copy)]
pub(crate) enum Edit<'i> {
    /// The export with this name is removed.
    RemoveExport(&'i str),
    /// The export with the first name gets the second.
    RenameExport(&'i str, &'i str),
    /// The export with this name names the item with this index in this index space.
    ReplaceExport(&'i str, Space, u32),
    /// The import at this place gets these names.
    RenameImport(u32, &'i str, &'i str),
    /// The memory at this place has these limits.
    MemoryLimits(u32, Limits),
    /// The table at this place has these limits.
    TableLimits(u32, Limits),
    /// These exports are added.
    ExportAll(&'i [NewExport<'i>]),
    /// The item at this place of a section has these bytes.
    Item(SectionKind, u32, &'i [u8]),
}

/// Changes an item of a section, and returns whether there is such an item.
pub(crate) fn make_edit(
    parsed: &ParsedModule<'_>,
    changes: &mut Changes,
    edit: Edit<'_>,
) -> Result<bool, ModuleError> {
    match edit {
        Edit::RemoveExport(name) => remove_export(parsed, changes, name),
        Edit::RenameExport(name, new_name) => rename_export(parsed, changes, name, new_name),
        Edit::ReplaceExport(name, space, index) => {
            replace_export(parsed, changes, name, space, index)
        }
        Edit::RenameImport(place, from, name) => rename_import(parsed, changes, place, from, name),
        Edit::MemoryLimits(place, limits) => set_memory_limits(parsed, changes, place, &limits),
        Edit::TableLimits(place, limits) => set_table_limits(parsed, changes, place, &limits),
        Edit::ExportAll(exports) => match export_all(parsed, changes, exports) {
            Ok(()) => Ok(true),
            Err(error) => Err(error),
        },
        Edit::Item(kind, place, bytes) => replace_item(parsed, changes, kind, place, bytes),
    }
}

// Appends bytes, in hexadecimal.
fn push_hex(text: &mut String, bytes: &[u8]) -> Result<(), ModuleError> {
    for byte in bytes {
        write!(text, "{byte:02x}")?;
    }
    Ok(())
}

// Appends where an active segment is written.
fn push_active(text: &mut String, active: Option<ActiveSegment<'_>>) -> Result<(), ModuleError> {
    match active {
        Some(active) => {
            write!(text, "in {} from ", active.index)?;
            push_hex(text, active.offset)
        }
        None => Ok(write!(text, "passive")?),
    }
}

/// Appends the data segments, each with its place.
pub(crate) fn push_segments(
    text: &mut String,
    parsed: &ParsedModule<'_>,
) -> Result<(), ModuleError> {
    for segment in data_segments(parsed)? {
        match segment {
            Ok(segment) => {
                push_active(text, segment.active)?;
                write!(text, ": ")?;
                push_hex(text, segment.bytes)?;
                write!(text, " at {}; ", segment.at)?;
            }
            Err(error) => return Err(error),
        }
    }
    Ok(())
}

/// Appends the contents of the custom section with this name, and such a section with the same contents.
pub(crate) fn push_custom_section(
    text: &mut String,
    parsed: &ParsedModule<'_>,
    name: &str,
) -> Result<(), ModuleError> {
    let alloc = *text.allocator();
    let Some(contents) = custom_section(parsed, name)? else {
        return Ok(write!(text, "none")?);
    };
    push_hex(text, contents)?;
    let mut made = Vec::new(alloc);
    put_custom_section(alloc, name, contents, &mut made)?;
    write!(text, " as ")?;
    push_hex(text, &made)
}

/// A module with a function and an export of it.
const EXPORTED: &str = "0061736d01000000 010401600000 03020100 07050101610000 0a040102000b";

/// A module with an imported function, a memory and a global.
const STORED: &str = "0061736d01000000 010401600000 020701016501660000 0503010001 0606017f00412a0b";

/// Limits that no memory of 32 bits can have.
const TOO_GREAT: Limits = Limits {
    min: 0x1_0000_0000,
    max: None,
    is_shared: false,
    is_64: false,
};

/// A module with two tables, of which the second has an initial value.
const TABLES: &str = "0061736d01000000 040d02 700001 400070010203d0700b";

/// The limits of one element or more.
const ONE: Limits = Limits {
    min: 1,
    max: None,
    is_shared: false,
    is_64: false,
};

/// An export of a function.
const B: NewExport<'static> = NewExport {
    name: "b",
    space: Space::Funcs,
    index: 0,
};

/// What is changed of which module.
const EDITED: [(&[Step<'static>], &str, &str); 28] = [
    (
        &[Step::Edit(Edit::RemoveExport("a"))],
        EXPORTED,
        "0061736d01000000 010401600000 03020100 0701 00 0a040102000b",
    ),
    (&[Step::Edit(Edit::RemoveExport("b"))], EXPORTED, EXPORTED),
    (
        &[
            Step::Export(Item::Function(0), "bc"),
            Step::Edit(Edit::RemoveExport("a")),
        ],
        EXPORTED,
        "0061736d01000000 010401600000 03020100 0706 01 0262630000 0a040102000b",
    ),
    (
        &[Step::Edit(Edit::RenameExport("a", "bc"))],
        EXPORTED,
        "0061736d01000000 010401600000 03020100 0706 01 0262630000 0a040102000b",
    ),
    (
        &[Step::Edit(Edit::RenameExport("a", "a"))],
        EXPORTED,
        "ExportTaken at 21",
    ),
    (
        &[Step::Edit(Edit::RenameExport("b", "c"))],
        EXPORTED,
        EXPORTED,
    ),
    (
        &[Step::Edit(Edit::ReplaceExport("a", Space::Memories, 200))],
        EXPORTED,
        "0061736d01000000 010401600000 03020100 0706 01 016102c801 0a040102000b",
    ),
    (
        &[Step::Edit(Edit::ReplaceExport("a", Space::Types, 0))],
        EXPORTED,
        "BadExportKind at 0",
    ),
    (
        &[Step::Edit(Edit::RenameImport(0, "env", "g"))],
        STORED,
        "0061736d01000000 010401600000 0209 01 03656e7601670000 0503010001 0606017f00412a0b",
    ),
    (
        &[Step::Edit(Edit::RenameImport(1, "env", "g"))],
        STORED,
        STORED,
    ),
    (
        &[Step::Edit(Edit::MemoryLimits(
            0,
            Limits {
                min: 2,
                max: Some(300),
                is_shared: true,
                is_64: false,
            },
        ))],
        STORED,
        "0061736d01000000 010401600000 020701016501660000 0505 01 0302ac02 0606017f00412a0b",
    ),
    (
        &[Step::Edit(Edit::MemoryLimits(
            0,
            Limits {
                is_64: true,
                ..TOO_GREAT
            },
        ))],
        STORED,
        "0061736d01000000 010401600000 020701016501660000 0507 01 048080808010 0606017f00412a0b",
    ),
    (
        &[Step::Edit(Edit::MemoryLimits(0, TOO_GREAT))],
        STORED,
        "BadLimits at 0",
    ),
    (
        &[Step::Edit(Edit::Item(SectionKind::Data, 0, &[1, 0]))],
        STORED,
        STORED,
    ),
    (
        &[Step::Edit(Edit::Item(SectionKind::Global, 0, &[0x7f, 1, 0x41, 0, 0x0b]))],
        STORED,
        "0061736d01000000 010401600000 020701016501660000 0503010001 0606017f0141000b",
    ),
    (
        &[Step::Edit(Edit::TableLimits(
            0,
            Limits {
                min: 5,
                max: Some(10),
                is_shared: false,
                is_64: false,
            },
        ))],
        TABLES,
        "0061736d01000000 040e 02 7001050a 400070010203d0700b",
    ),
    // The initial value stays.
    (
        &[Step::Edit(Edit::TableLimits(1, ONE))],
        TABLES,
        "0061736d01000000 040c 02 700001 4000700001d0700b",
    ),
    (&[Step::Edit(Edit::TableLimits(2, ONE))], TABLES, TABLES),
    (
        &[Step::Edit(Edit::TableLimits(
            0,
            Limits {
                is_shared: true,
                max: Some(1),
                ..ONE
            },
        ))],
        TABLES,
        "BadLimits at 0",
    ),
    (
        &[Step::Edit(Edit::ExportAll(&[
            B,
            NewExport {
                name: "c",
                space: Space::Memories,
                index: 200,
            },
        ]))],
        EXPORTED,
        "0061736d01000000 010401600000 03020100 070e 03 01610000 01620000 016302c801 0a040102000b",
    ),
    (
        &[Step::Edit(Edit::ExportAll(&[NewExport { name: "a", ..B }]))],
        EXPORTED,
        "ExportTaken at 0",
    ),
    (
        &[Step::Edit(Edit::ExportAll(&[
            B,
            NewExport {
                space: Space::Memories,
                ..B
            },
        ]))],
        EXPORTED,
        "ExportTaken at 0",
    ),
    (
        &[Step::Edit(Edit::ExportAll(&[NewExport {
            space: Space::Types,
            ..B
        }]))],
        EXPORTED,
        "BadExportKind at 0",
    ),
    (
        &[Step::Edit(Edit::ExportAll(&[NewExport {
            name: "x",
            space: Space::Globals,
            index: 0,
        }]))],
        STORED,
        "0061736d01000000 010401600000 020701016501660000 0503010001 0606017f00412a0b 0705 01 01780300",
    ),
    (&[Step::Edit(Edit::ExportAll(&[]))], STORED, STORED),
    // Groups of types and bodies aren't replaced.
    (
        &[Step::Edit(Edit::Item(SectionKind::Code, 0, &[2, 0, 0x0b]))],
        EXPORTED,
        "SectionOutOfOrder at 28",
    ),
    (
        &[Step::Edit(Edit::Item(SectionKind::Type, 0, &[0x60, 0, 0]))],
        EXPORTED,
        "SectionOutOfOrder at 11",
    ),
    // The number of exports is longer than necessary, and others come before and after.
    (
        &[Step::Edit(Edit::RemoveExport("b"))],
        "0061736d01000000 010401600000 03020100 070e 8300 016100000162000001630000 0a040102000b",
        "0061736d01000000 010401600000 03020100 0709 02 0161000001630000 0a040102000b",
    ),
];

#[test]
fn items_are_replaced_renamed_and_removed(rt: HostRuntime) -> Result<(), Fail> {
    for (steps, module, expected) in EDITED {
        let query = Query::Written(steps, Change::With, Output::Module);
        check(&rt, rt.alloc(), query, &[(module, expected)])?;
    }
    Ok(())
}

#[test]
fn segments_are_read(rt: HostRuntime) -> Result<(), Fail> {
    check(
        &rt,
        rt.alloc(),
        Query::Segments,
        &[
            (
                EVERY_SECTION,
                "in 0 from 41000b: 6869 at 276; passive: 010203 at 283; in 1 from 42000b:  at 288; ",
            ),
            ("0061736d01000000", ""),
        ],
    )
}

#[test]
fn custom_sections_are_read_and_added(rt: HostRuntime) -> Result<(), Fail> {
    check(
        &rt,
        rt.alloc(),
        Query::Custom("first"),
        &[(EVERY_SECTION, "ff as 0007056669727374ff")],
    )?;
    check(
        &rt,
        rt.alloc(),
        Query::Custom("a"),
        &[(EVERY_SECTION, " as 00020161")],
    )?;
    check(
        &rt,
        rt.alloc(),
        Query::Custom("last"),
        &[(EVERY_SECTION, "0102 as 0007046c6173740102")],
    )?;
    check(
        &rt,
        rt.alloc(),
        Query::Custom("c"),
        &[(EVERY_SECTION, "none")],
    )
}
