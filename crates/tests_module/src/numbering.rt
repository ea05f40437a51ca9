//! A change with a state, which is asked once for each function: it numbers them.
use crate::cases::{Query, check};
use crate::making::put_first;
use crate::texts::FOLLOWED;
use crate::whole_modules::{Change, Output};
use std::test::Fail;
use walrus_body::LocalFunction;
use walrus_ir::{Const, Instr, ModuleLocals, Value};
use wasm_module::{ChangeFunction, ModuleError};

/// Lets each function first push its number, which is how many were asked for before it, and drop
/// it.
#[derive(Drop)]
pub(crate) struct Numbering(pub(crate) i32);

impl ChangeFunction for Numbering {
    ghost use Rattle.std.specs.Prelude.{ℤ};

    ghost State = { ℤ };

    ghost state = { λ self. self.0 };

    // Nothing is said.
    ghost changes = { λ _ _ _ _ _ _ _. Unit {0} };

    fn change(
        &mut self,
        _index: usize,
        function: &mut LocalFunction,
        _locals: &mut ModuleLocals,
    ) -> Result<(), ModuleError> {
        let value = Value::I32(self.0);
        put_first(function, Instr::Drop)?;
        put_first(function, Instr::Const(Const { value }))?;
        self.0 = self.0.wrapping_add(1);
        Ok(())
    }
}

/// The module `FOLLOWED` whose two functions begin with i32.const 0 and i32.const 1, each with a
/// drop. The hints are at 12, 16 and 23.
const FOLLOWED_NUMBERED: &str =
    "0061736d01000000 01090260017f017f600000 020701016d01660001 0303020001 07050101670001 \
    0026196d657461646174612e636f64652e6272616e63685f68696e740101030c0101100100170101 \
    0a2e022102017f017e 41001a 024020000d0020000440000b0b20000440420121020b20010b \
    0a01017f 41011a 20001a0b \
    004f046e616d650004036d6f64010a0300016601016702016802180300010003696d7001030001700101620201\
    610201000179031601010300056f757465720104636f6e6402046c617374040401010176 \
    001710736f757263654d617070696e6755524c05782e6d6170";

/// Three functions, of which the second is refused.
const REFUSED: &str = "0061736d01000000 010401600000 030403000000 0a0c03 02000b 04000c010b 02000b";

/// A module with one function, to which the bodies of another one don't belong.
const OTHER: &str = "0061736d01000000 010401600000 03020100 0a04010200 0b";

/// What is told of which module after its functions are numbered.
const NUMBERED: [(Output<'static>, &str, &str); 7] = [
    // Each function is asked for once, in order, and custom sections are changed along with the code.
    (Output::Module, FOLLOWED, FOLLOWED_NUMBERED),
    (
        Output::Module,
        "0061736d01000000 010401600000 030403000000 0a0a03 02000b 02000b 02000b",
        "0061736d01000000 010401600000 030403000000 \
            0a1303 050041001a0b 050041011a0b 050041021a0b",
    ),
    (Output::Module, "0061736d01000000", "0061736d01000000"),
    // The first fault of a body has its place.
    (Output::Module, REFUSED, "NoSuchLabel at 28"),
    // The location map is that of the bodies that are kept: the two new operators of each function
    // are in no line.
    (
        Output::Map,
        FOLLOWED,
        "5c 5c\n5e 5e\n60 60\n63 62\n65 64\n67 66\n6c 67\n6d 68\n6e 69\n70 6b\n72 6d\n\
        74 6f\n76 71\n77 72\n79 74\n7f 7c\n81 7e\n82 7f\n",
    ),
    // Bodies are written only for the module whose functions were changed: the bodies of another one
    // have other bytes, or are at other places.
    (
        Output::Other("0061736d01000000 010401600000 03020100 0a0501030001 0b"),
        OTHER,
        "BodyCount at 22",
    ),
    (
        Output::Other("0061736d01000000 010401600000 03020100 000100 0a04010200 0b"),
        OTHER,
        "BodyCount at 25",
    ),
];

/// Functions are numbered, and so is what is told of them.
#[test]
fn numbers_functions(rt: HostRuntime) -> Result<(), Fail> {
    for (output, module, expected) in NUMBERED {
        let query = Query::Written(&[], Change::Number, output);
        check(&rt, rt.alloc(), query, &[(module, expected)])?;
    }
    Ok(())
}
