//! Bodies that are refused with their first fault and its place.
use crate::cases::{About, check};
use crate::small_module::{Setting, push_parsed};
use crate::validators::Exhausted;
use std::test::Fail;

// Bodies, and the first fault of each.
const FIRST_FAULTS: [(&str, &str); 35] = [
    ("", "MissingEnd at 0"),
    ("01", "MissingEnd at 1"),
    ("02400b", "MissingEnd at 3"),
    ("0b0b", "Trailing at 1"),
    ("0b01", "Trailing at 1"),
    ("0bff", "Trailing at 1"),
    ("0f0c050b", "NoSuchLabel at 1"),
    ("0c010b", "NoSuchLabel at 0"),
    ("02400d020b0b", "NoSuchLabel at 2"),
    ("0e0100010b", "NoSuchLabel at 0"),
    ("010c01ff", "NoSuchLabel at 1"),
    ("050b", "ElseOutsideIf at 0"),
    ("0240050b0b", "ElseOutsideIf at 2"),
    ("4101044005050b0b", "ElseOutsideIf at 5"),
    ("02020b0b", "NotAFunctionType at 0"),
    ("03030b0b", "TypeMissing at 0"),
    ("0141", "Truncated 1 at 1"),
    ("0e0200", "Truncated 0 at 0"),
    ("4180808080701a0b", "BadNumber 0 at 0"),
    ("41002820001a0b", "BadMemArg 2 at 2"),
    ("02500b0b", "BadType 0 at 0"),
    ("1c027f7f0b", "BadSelect 0 at 0"),
    ("fc12000b", "UnknownOperator 0 at 0"),
    ("0fff", "UnknownOperator 1 at 1"),
    ("41", "Truncated 0 at 0"),
    ("fe03010b", "BadFence 0 at 0"),
    ("fb18040070700b", "BadCastFlags 0 at 0"),
    ("190b", "CatchOutsideTry at 0"),
    ("09000b", "RethrowOutsideHandler at 0"),
    ("18000b", "DelegateOutsideTry at 0"),
    // Of a `catch`, in the order of its rules: its tag's old index has no id; the tag isn't in the
    // module; its type isn't a function type; there is no type for the handler.
    ("064007040b0b", "Tags 4 at 2"),
    ("064007030b0b", "UnknownId at 2"),
    ("064007010b0b", "NotAFunctionType at 2"),
    ("064007020b0b", "TypeMissing at 2"),
    ("08040b", "Tags 4 at 0"),
];

// Bodies with an old index that has no id, and the space of the index.
const UNKNOWN_INDICES: [(&str, &str); 24] = [
    ("23090b", "Globals 9 at 0"),
    ("24010b", "Globals 1 at 0"),
    ("10090b", "Funcs 9 at 0"),
    ("10020b", "Funcs 2 at 0"),
    ("1109000b", "Types 9 at 0"),
    ("1109080b", "Types 9 at 0"),
    ("02040b0b", "Types 4 at 0"),
    ("1100090b", "Tables 9 at 0"),
    ("25020b", "Tables 2 at 0"),
    ("26030b", "Tables 3 at 0"),
    ("284101000b", "Memories 1 at 0"),
    ("364202000b", "Memories 2 at 0"),
    ("3f010b", "Memories 1 at 0"),
    ("40020b", "Memories 2 at 0"),
    ("fc0809070b", "Data 9 at 0"),
    ("fc0801070b", "Memories 7 at 0"),
    ("fc09020b", "Data 2 at 0"),
    ("fc0a07080b", "Memories 7 at 0"),
    ("fc0b010b", "Memories 1 at 0"),
    ("fc0c01090b", "Elements 1 at 0"),
    ("fc0c00090b", "Tables 9 at 0"),
    ("fc0d010b", "Elements 1 at 0"),
    ("fc0e08070b", "Tables 8 at 0"),
    ("fc0e01070b", "Tables 7 at 0"),
];

/// The first fault of a body, and the place of its operator. Of an index it names the space and the
/// number; of several indices it is for the first in the encoding.
#[test]
fn names_the_first_fault(rt: HostRuntime) -> Result<(), Fail> {
    for cases in [FIRST_FAULTS.as_slice(), UNKNOWN_INDICES.as_slice()] {
        check(&rt, rt.alloc(), About::Function(Setting::PLAIN), cases)?;
    }
    Ok(())
}

/// The function's own type is checked first. Its fault is at the place of the first operator.
#[test]
fn looks_for_the_types_of_the_function_first(rt: HostRuntime) -> Result<(), Fail> {
    let unread = "UnknownOperator 32 at 32";
    for (ty, expected) in [
        (3, "NotAFunctionType at 32"),
        (7, "NotAFunctionType at 32"),
        (1, "EntryTypeMissing at 32"),
        (5, "EntryTypeMissing at 32"),
        (0, unread),
        (6, unread),
    ] {
        let setting = Setting {
            ty,
            offset: 0,
            before: 30,
            ops: 2,
            located: false,
        };
        check(
            &rt,
            rt.alloc(),
            About::Function(setting),
            &[("0000ff", expected)],
        )?;
    }
    Ok(())
}

/// A validator is called for an operator that was read, before the operator's rules are checked,
/// also in dead code.
#[test]
fn calls_the_validator(rt: HostRuntime) -> Result<(), Fail> {
    let counted = [
        ("0101010b", "Checked(7) at 2"),
        ("0101ff", "UnknownOperator 2 at 2"),
        ("01010c09", "Checked(7) at 2"),
        ("010b", "0..2 0:0 1:1 type4[ ]1"),
    ];
    check(&rt, rt.alloc(), About::Counted, &counted)?;
    let kept = [
        ("0141011a0b", "Checked(9) at 4"),
        ("01010b", "0..3 0:0 1:1 2:2 type4[ ]2"),
    ];
    check(&rt, rt.alloc(), About::Kept, &kept)?;
    let noted = [
        ("0f41010102400b0b", "[0, 1, 3, 4, 6, 7]"),
        ("0102090b0b", "[0, 1]"),
        ("0102500b0b", "[0]"),
    ];
    check(&rt, rt.alloc(), About::Noted, &noted)
}

/// If a validator runs out of memory, so does the parse.
#[test]
fn runs_out_of_memory_as_the_validator_does(rt: HostRuntime) -> Result<(), Fail> {
    let mut text = String::new(rt.alloc());
    push_parsed(&mut text, Setting::PLAIN, "0b", Exhausted)?;
    assert!(rt; text.as_str().starts_with("Memory at "));
    Ok(())
}
