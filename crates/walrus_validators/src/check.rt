//! Validators of operators.

use wasm_ops::Operator;

/// Why a validator refuses an operator.
#[derive(Clone, Copy, Debug, PartialEq, Eq)]
pub enum CheckError {
    /// It refuses the operator for a reason of its own, which has this number.
    Refused(u32),
    /// Memory ran out.
    Memory,
}

/// A validator, which is called for each operator in turn.
///
/// A validator says what it means: `state` is the state that its results depend on, and `check`
/// maps a state and an operator with its place to the next state, or refuses the operator with a
/// number. It may also run out of memory.
pub trait OpCheck: Drop {
    ghost use Rattle.std.specs.Prelude.{ℕ, Result};
    ghost use Rattle.wasm_operators.specs.OperatorList.{Placed};
    ghost use Rattle.wasm_operators.specs.Meaning.{meaning};
    ghost use Rattle.walrus_validators.specs.Checking.{Checks, placed_at};

    ghost State: { Type 0 };

    ghost state: { Self → State };

    ghost check: { State → Placed → Result State ℕ };

    /// Checks the next operator, whose first byte is at the place `pos`.
    ///
    /// # Errors
    ///
    /// `Refused` with the number of the meaning; or `Memory`.
    fn op(&mut self, pos: usize, op: &Operator<'_>) -> Result<(), CheckError>
        ensures { Checks check (state self.old)
            (placed_at (meaning op.now) pos) result (state self.new) };
}

/// The validator that accepts every operator. It allocates nothing.
#[derive(Clone, Copy, Debug, Drop)]
pub struct AcceptAll;

impl OpCheck for AcceptAll {
    ghost use Rattle.std.specs.Prelude.{Ok, IsOk};

    ghost State = { Unit {0} };

    ghost state = { λ _. tt };

    ghost check = { λ s _. Ok s };

    fn op(&mut self, _pos: usize, _op: &Operator<'_>) -> Result<(), CheckError>
        ensures accepts { IsOk result }
    {
        Ok(())
    }
}
