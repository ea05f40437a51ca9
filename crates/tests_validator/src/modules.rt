//! Whole modules: one with a section of each kind, and one for each fault, with its place. `wasm-validate` of wabt
//! accepts the first, and refuses the others.
use hex::FromHexError;
use module_context::faults::{
    INVALID_LIMITS, INVALID_OPERATOR, INVALID_TYPE, NO_INITIAL_VALUE, SEGMENT_TYPE, START_TYPE,
    TAG_RESULTS,
};
use module_validator::validate;
use std::alloc::Global;
use std::test::Fail;
use wasm_body::Space;
use wasm_sections::{ModuleError, ModuleFault};

// Appends the bytes of a part of a module that is written in hexadecimal.
fn push_bytes(bytes: &mut Vec<u8>, module: &str) -> Result<(), FromHexError> {
    let alloc = *bytes.allocator();
    for part in module.split(' ') {
        bytes.extend_from_slice(&hex::decode(alloc, part)?)?;
    }
    Ok(())
}

// The bytes of a module that is written as its preamble and its sections in hexadecimal, with spaces between them.
fn bytes_of(alloc: Global, module: &str) -> Result<Vec<u8>, Fail> {
    let mut bytes = Vec::new(alloc);
    match push_bytes(&mut bytes, module) {
        Ok(()) => Ok(bytes),
        Err(error) => Err(Fail::from(error)),
    }
}

/// Whether a module is valid.
fn is_valid(alloc: Global, module: &str) -> Result<bool, Fail> {
    let bytes = bytes_of(alloc, module)?;
    Ok(validate(alloc, &bytes).is_ok())
}

/// The first fault of a module, if it isn't valid.
fn verdict(alloc: Global, module: &str) -> Result<Option<ModuleError>, Fail> {
    let bytes = bytes_of(alloc, module)?;
    match validate(alloc, &bytes) {
        Ok(()) => Ok(None),
        Err(error) => Ok(Some(error)),
    }
}

/// As `wat2wasm` of wabt writes it: a function and a global are imported; a table, a memory with a maximum, a tag, a
/// global whose value is the imported one, a start function, an export, an active and a passive segment of elements,
/// and both kinds of data segments.
const EVERY_SECTION: &str =
    "0061736d01000000 010e0360017f0060000060027f7f017f 020e0201610166000001610167037f00 \
    030403010201 040401700002 050401010102 0d03010000 0606017f0123000b 070701036164640002 \
    080101 0911020041000b020102057002d2020bd0700b 0c0102 \
    0a1f030600410110000b0901027e200020016a0b0c00410041004101fc0801000b \
    0b0a020041000b0178010179 0005046e616d65";

/// A module with a section of each kind is valid.
#[test]
fn accepts_every_section(rt: HostRuntime) -> Result<(), Fail> {
    let is_valid = is_valid(rt.alloc(), EVERY_SECTION)?;
    assert!(rt; is_valid);
    Ok(())
}

/// Modules that aren't valid, each with its fault and the place.
const REFUSED: [(&str, ModuleFault, usize); 11] = [
    // An imported function of a type that isn't there.
    ("0061736d01000000 020701016101620005", INVALID_TYPE, 11),
    // A memory whose minimum is greater than its maximum.
    ("0061736d01000000 050401010201", INVALID_LIMITS, 11),
    // A tag whose type has a result.
    (
        "0061736d01000000 0105016000017f 0d03010000",
        TAG_RESULTS,
        18,
    ),
    // A start function with a parameter.
    (
        "0061736d01000000 01050160017f00 03020100 080100 0a040102000b",
        START_TYPE,
        21,
    ),
    // A table of references that aren't null, without an initial value.
    ("0061736d01000000 04050164700001", NO_INITIAL_VALUE, 11),
    // References to functions for a table of external references.
    (
        "0061736d01000000 0404016f0001 0906010041000b00",
        SEGMENT_TYPE,
        21,
    ),
    // `i64.add` of two i32.
    (
        "0061736d01000000 01070160027f7f017f 03020100 0a09010700200020017c0b",
        INVALID_OPERATOR,
        30,
    ),
    // `i32.div_s` in the initial value of a global.
    (
        "0061736d01000000 0609017f00410041006d0b",
        ModuleFault::BadConstant,
        17,
    ),
    // A global whose initial value is its own.
    (
        "0061736d01000000 0606017f0023000b",
        ModuleFault::BadConstant,
        13,
    ),
    // Two exports of one name.
    (
        "0061736d01000000 0503010001 0709020161020001610200",
        ModuleFault::ExportTaken,
        20,
    ),
    // A function that isn't there as an element.
    (
        "0061736d01000000 040401700001 0907010041000b0105",
        ModuleFault::IndexOutOfRange {
            space: Space::Funcs,
            index: 5,
        },
        22,
    ),
];

/// Modules that aren't valid are refused.
#[test]
fn refuses_invalid_modules(rt: HostRuntime) -> Result<(), Fail> {
    for (module, fault, at) in REFUSED {
        let error = verdict(rt.alloc(), module)?;
        assert_eq!(rt; error, Some(ModuleError { fault, at }));
    }
    Ok(())
}
