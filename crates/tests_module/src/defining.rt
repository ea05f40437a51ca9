//! Functions with a body that are added to modules.
use crate::cases::{Query, check};
use crate::making::{Item, Step};
use crate::whole_modules::{Change, Output};
use std::test::Fail;

/// Types of functions from nothing to nothing, and from an i32 to an i32; an imported function f of
/// the first; and a function g of the first, which is exported, with the body nop.
const SMALL: &str = "0061736d01000000 01090260000060017f017f 020701016d01660000 03020100 \
    07050101670001 0a05010300010b";

const COPIES: &[Step<'static>] = &[Step::Copies(1, 1, 0)];

/// What is added, how the module is written, the module, and the expected one or the fault.
const DEFINED: [(&[Step<'static>], Change, &str, &str); 12] = [
    // An added function comes after the others, declares the locals that it uses, and may be called
    // by a changed function, by one that is added later, and be exported.
    (
        COPIES,
        Change::With,
        SMALL,
        "0061736d01000000 01090260000060017f017f 020701016d01660000 0303020001 \
        07050101670001 0a1102 02000b 0c01017f10002000210120010b",
    ),
    (
        COPIES,
        Change::CallWithSeven(2),
        SMALL,
        "0061736d01000000 01090260000060017f017f 020701016d01660000 0303020001 \
        07050101670001 0a1602 0700410710021a0b 0c01017f10002000210120010b",
    ),
    (
        &[
            Step::Copies(1, 1, 0),
            Step::Calls(2),
            Step::Export(Item::Function(3), "h"),
        ],
        Change::With,
        SMALL,
        "0061736d01000000 01090260000060017f017f 020701016d01660000 030403000101 \
        0709020167000101680003 0a1803 02000b 0c01017f10002000210120010b 06002000 10020b",
    ),
    // After an import, the added function has the index after it, and calls those that have moved.
    (
        &[
            Step::Import(0),
            Step::Copies(1, 1, 1),
            Step::Export(Item::Function(3), "h"),
        ],
        Change::With,
        SMALL,
        "0061736d01000000 01090260000060017f017f 020d02016d01660000017401720000 \
        0303020001 0709020167000201680003 0a1102 02000b 0c01017f10022000210120010b",
    ),
    // In a module without functions, the sections are made.
    (
        &[Step::Passes(0)],
        Change::With,
        "0061736d01000000 01060160017f017f 0503010001 0b07010041000b0161",
        "0061736d01000000 01060160017f017f 03020100 0503010001 0a0601040020000b \
        0b07010041000b0161",
    ),
    // An import after a function, another number of arguments than parameters, a type that isn't
    // there, and a function that can't be written are refused; and so are other changes.
    (
        &[Step::Passes(1), Step::Import(0)],
        Change::With,
        SMALL,
        "LateImport at 0",
    ),
    (
        &[Step::Copies(1, 2, 0)],
        Change::With,
        SMALL,
        "ArgumentCount at 0",
    ),
    (
        &[Step::Copies(0, 1, 0)],
        Change::With,
        SMALL,
        "ArgumentCount at 0",
    ),
    (
        &[Step::Passes(2)],
        Change::With,
        SMALL,
        "NotAFunctionType at 0",
    ),
    (&[Step::Calls(2)], Change::With, SMALL, "Unnumbered at 0"),
    (&[Step::Empty], Change::With, SMALL, "UnknownSequence at 0"),
    (
        &[Step::Passes(1)],
        Change::Rewrite,
        SMALL,
        "InconsistentChange at 0",
    ),
];

/// Functions are added to modules.
#[test]
fn adds_functions(rt: HostRuntime) -> Result<(), Fail> {
    for (steps, change, module, expected) in DEFINED {
        let query = Query::Written(steps, change, Output::Module);
        check(&rt, rt.alloc(), query, &[(module, expected)])?;
    }
    Ok(())
}
