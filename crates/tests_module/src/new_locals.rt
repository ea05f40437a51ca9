//! A change that adds locals.
use crate::cases::{Query, check};
use crate::making::put_first;
use crate::texts::FOLLOWED;
use crate::whole_modules::{Change, Output};
use std::test::Fail;
use walrus_body::LocalFunction;
use walrus_ir::{Instr, LocalGet, ModuleLocals, ValType};
use wasm_module::{ChangeFunction, ModuleError};

/// Adds an i64 and an f32 to the locals of each function. Those with an even index first push and
/// drop both, the i64 before the f32.
#[derive(Drop)]
pub(crate) struct NewLocals;

impl ChangeFunction for NewLocals {
    ghost use Rattle.std.specs.Prelude.{◌≡◌, ◌++◌, [], ◌∷◌};
    ghost use Rattle.wasm_types.specs.declared.val_type.ValType.TheVariants.{I64, F32};

    ghost State = { Unit {0} };

    ghost state = { λ _. tt };

    // Nothing is said of the functions.
    ghost changes = { λ _ _ _ _ _ old new. new ≡ (old ++ I64 ∷ []) ++ F32 ∷ [] };

    fn change(
        &mut self,
        index: usize,
        function: &mut LocalFunction,
        locals: &mut ModuleLocals,
    ) -> Result<(), ModuleError> {
        let i64 = locals.add(ValType::I64)?;
        let f32 = locals.add(ValType::F32)?;
        if index % 2 == 0 {
            for local in [f32, i64] {
                put_first(function, Instr::Drop)?;
                put_first(function, Instr::LocalGet(LocalGet { local }))?;
            }
        }
        Ok(())
    }
}

/// The module `FOLLOWED`, in which the function h has the index 2: its i32 is declared before the
/// i64 and the f32, and keeps its name y. The function g is rewritten, and declares no more.
const FOLLOWED_WITH_LOCALS: &str =
    "0061736d01000000 01090260017f017f600000 020701016d01660001 0303020001 07050101670001 \
    0026196d657461646174612e636f64652e6272616e63685f68696e740101030901010d0100140101 \
    0a32021e02017f017e024020000d0020000440000b0b20000440420121020b20010b \
    1103017f017e017d 20011a 20021a 20001a0b \
    004f046e616d650004036d6f64010a0300016601016702016802180300010003696d7001030001700101620201\
    610201000179031601010300056f757465720104636f6e6402046c617374040401010176 \
    001710736f757263654d617070696e6755524c05782e6d6170";

/// The locals of a function are declared by type, and those of one type in the order of their ids,
/// so that new ones follow its own; one that it doesn't use isn't declared. Names of locals follow.
#[test]
fn adds_locals(rt: HostRuntime) -> Result<(), Fail> {
    let cases = [
        (FOLLOWED, FOLLOWED_WITH_LOCALS),
        // A parameter of i32, an i64 and an f64, which are named p, a and b; and a function that uses
        // no new local.
        (
            "0061736d01000000 01050160017f00 0303020000 \
            0a16020c02017e017c20011a20021a0b0701017f20011a0b \
            0013046e616d65020c010003000170010161020162",
            "0061736d01000000 01050160017f00 0303020000 \
            0a1e021403027e017d017c 20021a20031a 20011a20041a0b0701017f20011a0b \
            0013046e616d65020c010003000170010161040162",
        ),
        // An i64 that isn't used, and isn't declared any more.
        (
            "0061736d01000000 010401600000 03020100 0a06010401017e0b",
            "0061736d01000000 010401600000 03020100 0a0e010c02017e017d 20001a20011a 0b",
        ),
    ];
    let query = Query::Written(&[], Change::AddLocals, Output::Module);
    check(&rt, rt.alloc(), query, &cases)
}
