//! Functions that are imported besides those of a module: everything that names a function follows.
use crate::cases::{Query, check};
use crate::making::{Step, put_first};
use crate::whole_modules::{Change, Output};
use std::test::Fail;
use walrus_body::LocalFunction;
use walrus_ir::{Call, Const, FunctionId, Instr, ModuleLocals, Value};
use wasm_module::{ChangeFunction, ModuleError};

/// An imported function f, and two of the module's own, g and h, which return nothing and an i32.
/// There are a table with elements `ref.func 2`, and a global `ref.func 1`. Exported are g, a table
/// and f; g is the start function. Of three element segments, the first has indices of all three
/// functions, the second the expressions `ref.func 2` and `ref.null func`, and the third the index
/// of h. The function h has a branch hint, at its `if`, and names of a local and of a label. The
/// operators of g are call 2, drop, return_call 0; those of h are local.get 0, if, call 1, end,
/// ref.func 1, drop, local.get 0, end, with an i32 as local.
const NAMES_FUNCTIONS: &str =
    "0061736d01000000 01080260000060 00017f 0207 01016d01660000 0303020001 \
    040c02 700004 4000700001d2020b 060b02 7000d2010b 7f0141050b \
    070d03 01670001 01740100 01660000 080101 \
    091603 0041000b03000102 057002d2020bd0700b 03000102 \
    0020196d657461646174612e636f64652e6272616e63685f68696e74 010201050101 \
    0a1a02 070010021a12000b 1001017f2000044010010bd2011a20000b \
    0027046e616d65 0004036d6f64 010a03000166010167020168 0206010201000178 030601020100016c";

/// The same with an import `t.r` of a function that takes and returns nothing.
const ONE_IMPORTED: &str =
    "0061736d01000000 01080260000060 00017f 020d02016d01660000 017401720000 0303020001 \
    040c02 700004 4000700001d2030b 060b02 7000d2020b 7f0141050b \
    070d03 01670002 01740100 01660000 080102 \
    091603 0041000b03000203 057002d2030bd0700b 03000103 \
    0020196d657461646174612e636f64652e6272616e63685f68696e74 010301050101 \
    0a1a02 070010031a12000b 1001017f2000044010020bd2021a20000b \
    0027046e616d65 0004036d6f64 010a03000166020167030168 0206010301000178 030601030100016c";

/// The same with two such imports.
const TWO_IMPORTED: &str =
    "0061736d01000000 01080260000060 00017f 021303016d01660000 017401720000 017401720000 0303020001 \
    040c02 700004 4000700001d2040b 060b02 7000d2030b 7f0141050b \
    070d03 01670003 01740100 01660000 080103 \
    091603 0041000b03000304 057002d2040bd0700b 03000104 \
    0020196d657461646174612e636f64652e6272616e63685f68696e74 010401050101 \
    0a1a02 070010041a12000b 1001017f2000044010030bd2031a20000b \
    0027046e616d65 0004036d6f64 010a03000166030167040168 0206010401000178 030601040100016c";

/// The same with one such import, which each function calls first: the hint is two bytes later.
const TRACED: &str =
    "0061736d01000000 01080260000060 00017f 020d02016d01660000 017401720000 0303020001 \
    040c02 700004 4000700001d2030b 060b02 7000d2020b 7f0141050b \
    070d03 01670002 01740100 01660000 080102 \
    091603 0041000b03000203 057002d2030bd0700b 03000103 \
    0020196d657461646174612e636f64652e6272616e63685f68696e74 010301070101 \
    0a1e02 0900100110031a12000b 1201017f10012000044010020bd2021a20000b \
    0027046e616d65 0004036d6f64 010a03000166020167030168 0206010301000178 030601030100016c";

/// Lets each function call a function before all else: with this argument, and then its result is
/// dropped; or one that takes and returns nothing.
#[derive(Drop)]
pub(crate) struct CallFirst {
    pub(crate) func: FunctionId,
    pub(crate) argument: Option<i32>,
}

impl ChangeFunction for CallFirst {
    // Nothing is said.
    ghost State = { Unit {0} };

    ghost state = { λ _. tt };

    ghost changes = { λ _ _ _ _ _ _ _. Unit {0} };

    fn change(
        &mut self,
        _index: usize,
        function: &mut LocalFunction,
        _locals: &mut ModuleLocals,
    ) -> Result<(), ModuleError> {
        let call = Instr::Call(Call { func: self.func });
        match self.argument {
            Some(argument) => {
                let value = Value::I32(argument);
                put_first(function, Instr::Drop)?;
                put_first(function, call)?;
                put_first(function, Instr::Const(Const { value }))?;
            }
            None => put_first(function, call)?,
        }
        Ok(())
    }
}

const ONE: &[Step<'static>] = &[Step::Import(0)];

const TWO: &[Step<'static>] = &[Step::Import(0), Step::Import(0)];

/// What is told of which module after functions are imported.
const IMPORTED: [(Query<'static>, &str, &str); 10] = [
    (
        Query::Written(ONE, Change::With, Output::Module),
        NAMES_FUNCTIONS,
        ONE_IMPORTED,
    ),
    // No import section, and an export whose index takes two bytes.
    (
        Query::Written(ONE, Change::With, Output::Module),
        "0061736d01000000 010401600000 03020100 0706010161008000 0a040102000b",
        "0061736d01000000 010401600000 0207010174 01720000 03020100 0705010161 0001 \
            0a040102000b",
    ),
    // An element segment with the index 127, which nothing has; a table is imported.
    (
        Query::Written(ONE, Change::With, Output::Module),
        "0061736d01000000 010401600000 020901016d017401700001 0907010041000b017f",
        "0061736d01000000 010401600000 020f02016d017401700001 017401720000 \
            0908010041000b018001",
    ),
    (
        Query::Written(TWO, Change::With, Output::Module),
        NAMES_FUNCTIONS,
        TWO_IMPORTED,
    ),
    (
        Query::Written(ONE, Change::CallLast, Output::Module),
        NAMES_FUNCTIONS,
        TRACED,
    ),
    // Without functions that are imported, the module is rewritten.
    (
        Query::Written(&[], Change::With, Output::Module),
        NAMES_FUNCTIONS,
        NAMES_FUNCTIONS,
    ),
    // Other changes than those that import a function, or those that were made before, are refused.
    (
        Query::Written(ONE, Change::Rewrite, Output::Module),
        NAMES_FUNCTIONS,
        "InconsistentChange at 0",
    ),
    (
        Query::Written(&[], Change::Rewrite, Output::Late),
        NAMES_FUNCTIONS,
        "InconsistentChange at 0",
    ),
    // A type that is no function type is refused.
    (
        Query::Written(ONE, Change::With, Output::Module),
        "0061736d01000000 0103015f00",
        "NotAFunctionType at 0",
    ),
    (
        Query::Written(ONE, Change::With, Output::Module),
        "0061736d01000000",
        "NotAFunctionType at 0",
    ),
];

/// Code, exports, the start function, elements, constant expressions, names and branch hints name
/// the same functions as before. Indices that were spelt in more bytes than necessary are written in
/// the fewest; an index that needs one byte more makes its section longer.
#[test]
fn imports_functions(rt: HostRuntime) -> Result<(), Fail> {
    for (query, module, expected) in IMPORTED {
        check(&rt, rt.alloc(), query, &[(module, expected)])?;
    }
    Ok(())
}
