//! Items that are added to modules, and exports of them.
use crate::cases::{Query, check};
use crate::making::{Item, OneType, Step};
use crate::whole_modules::{Change, Output};
use std::test::Fail;
use walrus_ir::Value;
use wasm_module::{Changes, ModuleError, ParsedModule, SectionKind};

/// A module with a function and an export of it.
const EXPORTED: &str = "0061736d01000000 010401600000 03020100 07050101610000 0a040102000b";

/// What is added to which module.
const ADDED: [(&[Step<'static>], &str, &str); 16] = [
    // Globals of each type of numbers come after those of the module, or are the first.
    (
        &[
            Step::Global(Value::I32(-1), true),
            Step::Global(Value::I64(1024), false),
            Step::Global(Value::F32(0x3f80_0000), false),
            Step::Global(Value::F64(0x3ff0_0000_0000_0000), true),
            Step::Global(
                Value::V128(0x0f0e_0d0c_0b0a_0908_0706_0504_0302_0100),
                false,
            ),
        ],
        "0061736d01000000",
        "0061736d01000000 06 35 05 7f01417f0b 7e004280080b 7d00430000803f0b \
        7c0144000000000000f03f0b 7b00fd0c000102030405060708090a0b0c0d0e0f0b",
    ),
    // The number of globals is longer than necessary.
    (
        &[Step::Global(Value::I32(64), false)],
        "0061736d01000000 0607 81007f00412a0b",
        "0061736d01000000 060c 02 7f00412a0b 7f0041c0000b",
    ),
    // Exports come after those of the module, or in a new section, and no two may have a name.
    (
        &[
            Step::Export(Item::Function(0), "f"),
            Step::Export(Item::Table, "t"),
            Step::Export(Item::Memory, "m"),
            Step::Export(Item::Global, "g"),
            Step::Export(Item::Tag, "e"),
        ],
        "0061736d01000000 010401600000 03020100 040401700000 0503010001 0d03010000 \
        0606017f00412a0b 0a040102000b",
        "0061736d01000000 010401600000 03020100 040401700000 0503010001 0d03010000 \
        0606017f00412a0b 0715 05 01660000 01740100 016d0200 01670300 01650400 0a040102000b",
    ),
    (
        &[Step::Export(Item::Function(0), "bc")],
        EXPORTED,
        "0061736d01000000 010401600000 03020100 070a 02 01610000 0262630000 0a040102000b",
    ),
    (
        &[Step::Export(Item::Function(0), "a")],
        EXPORTED,
        "ExportTaken at 21",
    ),
    (
        &[
            Step::Export(Item::Function(0), "b"),
            Step::Export(Item::Function(0), "b"),
        ],
        EXPORTED,
        "ExportTaken at 0",
    ),
    (
        &[
            Step::Export(Item::Memory, "m"),
            Step::Export(Item::Memory, "m"),
        ],
        "0061736d01000000 0503010001",
        "ExportTaken at 0",
    ),
    // Active segments come after those of the module, and the data count, if there is one, is the new
    // number. A passive one always needs it.
    (
        &[Step::Data(1024, b"hi"), Step::Data(-1, b"")],
        "0061736d01000000 0503010001",
        "0061736d01000000 0503010001 0b0e 02 004180080b026869 00417f0b00",
    ),
    (
        &[Step::Data(1, b"b"), Step::Passive(b"c")],
        "0061736d01000000 0503010001 0c0101 0b07010041000b0161",
        "0061736d01000000 0503010001 0c0103 0b10 03 0041000b0161 0041010b0162 010163",
    ),
    (
        &[Step::Passive(b"c")],
        "0061736d01000000 0503010001 0b0881000041000b0161",
        "0061736d01000000 0503010001 0c0102 0b0a 02 0041000b0161 010163",
    ),
    // A function type is added after all types, and not if the module has it, or if it was added
    // before. It may name other types, and those that are added.
    (
        &[Step::Type(OneType::Nothing, OneType::Nothing)],
        "0061736d01000000",
        "0061736d01000000 0104 01 600000",
    ),
    (
        &[
            Step::Type(OneType::Nothing, OneType::Nothing),
            Step::Type(OneType::I32, OneType::I64),
            Step::Type(OneType::I32, OneType::I64),
            Step::Type(OneType::Functions, OneType::References(0)),
        ],
        "0061736d01000000 0104 01 600000",
        "0061736d01000000 010f 03 600000 60017f017e 60017001 6400",
    ),
    // A group of two types has one item of the section, and two indices.
    (
        &[
            Step::Type(OneType::Nothing, OneType::Nothing),
            Step::Type(OneType::References(2), OneType::Nothing),
        ],
        "0061736d01000000 0107 01 4e025f005f00",
        "0061736d01000000 010f 03 4e025f005f00 600000 6001640200",
    ),
    // A function that is exported before a function is imported or after it is the same one. A type
    // that is added has its index before and after.
    (
        &[
            Step::Export(Item::Function(0), "a"),
            Step::Import(0),
            Step::Export(Item::Function(0), "b"),
            Step::Type(OneType::I32, OneType::Nothing),
            Step::Import(1),
            Step::Export(Item::Function(0), "c"),
            Step::Passive(&[7]),
            Step::Global(Value::I32(5), false),
        ],
        "0061736d01000000 010401600000 03020100 0a040102000b",
        "0061736d01000000 010802 600000 60017f00 020d02 017401720000 017401720001 03020100 \
        060601 7f0041050b 070d03 01610002 01620002 01630002 0c0101 0a040102000b 0b0401 010107",
    ),
    // The same if a type has another id, since the module was rewritten.
    (
        &[
            Step::Rewritten,
            Step::Type(OneType::I32, OneType::Nothing),
            Step::Import(2),
            Step::Import(2),
            Step::Export(Item::Function(0), "a"),
        ],
        "0061736d01000000 0105016000017f 03020100 0a0601040041010b",
        "0061736d01000000 010902 6000017f 60017f00 020d02 017401720001 017401720001 03020100 \
        070501 01610002 0a0601040041010b",
    ),
    // Imports of functions leave the indices of all that isn't a function: of the second table,
    // memory, tag, global, element segment and data segment, each of which the body names.
    (
        &[Step::Import(0)],
        "0061736d01000000 010401600000 03020100 040702 700001700001 050502 00010001 \
        0d0502 00000000 060b02 7f0041000b7f0041000b 090702 010000010000 0c0102 \
        0a1601 14 00 23011a fc10011a 3f011a fc0d01 fc0901 0801 0b 0b0502 01000100",
        "0061736d01000000 010401600000 020701 017401720000 03020100 040702 700001700001 \
        050502 00010001 0d0502 00000000 060b02 7f0041000b7f0041000b 090702 010000010000 0c0102 \
        0a1601 14 00 23011a fc10011a 3f011a fc0d01 fc0901 0801 0b 0b0502 01000100",
    ),
];

/// Items are added to modules.
#[test]
fn adds_items(rt: HostRuntime) -> Result<(), Fail> {
    for (steps, module, expected) in ADDED {
        let query = Query::Written(steps, Change::With, Output::Module);
        check(&rt, rt.alloc(), query, &[(module, expected)])?;
    }
    Ok(())
}

// Adds globals of type i32 with the values 0, 1 and so on, below 64.
fn add_globals(
    parsed: &mut ParsedModule<'_>,
    changes: &mut Changes,
    count: i32,
) -> Result<(), ModuleError> {
    for value in 0..count {
        match parsed.add_value_global(changes, Value::I32(value % 64), false) {
            Ok(_) => {}
            Err(error) => return Err(error),
        }
    }
    Ok(())
}

// Whether these are the contents of a global section with these globals, whose number takes two
// bytes.
fn are_globals(contents: &[u8], count: i32, number: [u8; 2]) -> bool {
    let mut left = match contents.strip_prefix(&number) {
        Some(left) => left,
        None => return false,
    };
    for value in 0..count {
        let byte = u8::try_from(value % 64).unwrap_or(0);
        match left.strip_prefix(&[0x7f, 0, 0x41, byte, 0x0b]) {
            Some(rest) => left = rest,
            None => return false,
        }
    }
    left.is_empty()
}

/// Appends whether the global section has so many globals after they were added to a module without
/// any.
pub(crate) fn push_has_globals(
    text: &mut String,
    parsed: &mut ParsedModule<'_>,
    count: i32,
) -> Result<(), ModuleError> {
    let mut changes = Changes::new(*text.allocator());
    match add_globals(parsed, &mut changes, count) {
        Ok(()) => {
            let contents = changes.contents_of(SectionKind::Global).unwrap_or(&[]);
            Ok(write!(text, "{}", are_globals(contents, count, [0x82, 0x01]))?)
        }
        Err(error) => Err(error),
    }
}

/// 130 globals: with the 128th, the number of globals takes a second byte.
#[test]
fn adds_many_globals(rt: HostRuntime) -> Result<(), Fail> {
    let cases = [("0061736d01000000", "true")];
    check(&rt, rt.alloc(), Query::HasGlobals(130), &cases)
}
