//! Faults of modules that are read, and aren't valid. They are refusals of a validator, each with a number.

use wasm_body::ParseError;
use wasm_sections::ModuleFault;

/// A type names a type after its recursive group, or one that isn't there; or the supertype that it declares comes
/// after it, is final, or isn't matched by it.
pub const INVALID_TYPE: ModuleFault = ModuleFault::Parse(ParseError::Checked(1));
/// The minimum of a table or of a memory is greater than its maximum, or one of both than an address reaches; or a
/// table is shared.
pub const INVALID_LIMITS: ModuleFault = ModuleFault::Parse(ParseError::Checked(2));
/// The type of a tag has results.
pub const TAG_RESULTS: ModuleFault = ModuleFault::Parse(ParseError::Checked(3));
/// The start function has parameters or results.
pub const START_TYPE: ModuleFault = ModuleFault::Parse(ParseError::Checked(4));
/// A table has no initial value, and its elements have no default one.
pub const NO_INITIAL_VALUE: ModuleFault = ModuleFault::Parse(ParseError::Checked(5));
/// The elements of an active segment don't match those of its table.
pub const SEGMENT_TYPE: ModuleFault = ModuleFault::Parse(ParseError::Checked(6));
/// The validation algorithm refuses an operator.
pub const INVALID_OPERATOR: ModuleFault = ModuleFault::Parse(ParseError::Checked(7));

// Limits that engines have, and the standard doesn't (WebAssembly JavaScript interface, implementation-defined limits).

/// There are more than 1,000,000 types.
pub const TOO_MANY_TYPES: ModuleFault = ModuleFault::Parse(ParseError::Checked(8));
/// A section has more items than engines accept: 1,000,000 imports, functions, globals, tags or exports, 100,000 tables or
/// data segments, or 100 memories.
pub const TOO_MANY_ITEMS: ModuleFault = ModuleFault::Parse(ParseError::Checked(9));
/// A function type has more than 1,000 parameters or results, or a struct type more than 10,000 fields.
pub const LONG_TYPE: ModuleFault = ModuleFault::Parse(ParseError::Checked(10));
/// A type has more than 63 supertypes.
pub const DEEP_TYPE: ModuleFault = ModuleFault::Parse(ParseError::Checked(11));
/// A body has more than 7,654,321 bytes.
pub const LARGE_BODY: ModuleFault = ModuleFault::Parse(ParseError::Checked(12));
/// A function has more than 50,000 locals, its parameters among them.
pub const MANY_LOCALS: ModuleFault = ModuleFault::Parse(ParseError::Checked(13));
/// The module has more than 1,073,741,824 bytes.
pub const LARGE_MODULE: ModuleFault = ModuleFault::Parse(ParseError::Checked(14));

/// The text of one of these faults, and its name; `None` of any other fault, which has both itself. This allocates
/// nothing.
pub fn validity_words(fault: ModuleFault) -> Option<(&'static str, &'static str)> {
    let ModuleFault::Parse(ParseError::Checked(number)) = fault else {
        return None;
    };
    match number {
        1 => Some(("a type is not valid", "InvalidType")),
        2 => Some(("the limits are not valid", "InvalidLimits")),
        3 => Some(("the type of a tag has results", "TagResults")),
        4 => Some(("the start function has parameters or results", "StartType")),
        5 => Some((
            "a table whose elements have no default value has no initial value",
            "NoInitialValue",
        )),
        6 => Some((
            "the elements of a segment do not match those of the table",
            "SegmentType",
        )),
        7 => Some(("the operator is not valid here", "InvalidOperator")),
        8 => Some(("there are more than 1,000,000 types", "EngineLimit")),
        9 => Some((
            "the section has more items than engines accept",
            "EngineLimit",
        )),
        10 => Some((
            "the type has more parameters, results or fields than engines accept",
            "EngineLimit",
        )),
        11 => Some(("the type has more than 63 supertypes", "EngineLimit")),
        12 => Some(("the body has more than 7,654,321 bytes", "EngineLimit")),
        13 => Some(("the function has more than 50,000 locals", "EngineLimit")),
        14 => Some((
            "the module has more than 1,073,741,824 bytes",
            "EngineLimit",
        )),
        _ => None,
    }
}
