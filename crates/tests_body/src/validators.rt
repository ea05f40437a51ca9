//! Validators of operators.

use walrus_body::{CheckError, OpCheck};
use wasm_ops::Operator;

/// Accepts `left` operators, and refuses the next with 7.
#[derive(Drop)]
pub struct Counting {
    /// The number of operators that are still accepted.
    pub left: u32,
}

impl OpCheck for Counting {
    ghost use Rattle.std.specs.Prelude.{ℕ};
    ghost use Rattle.tests_body.specs.Validators.{counts};

    ghost State = { ℕ };

    ghost state = { λ c. c.left };

    ghost check = { counts };

    fn op(&mut self, _pos: usize, _op: &Operator<'_>) -> Result<(), CheckError> {
        if self.left == 0 {
            return Err(CheckError::Refused(7));
        }
        self.left -= 1;
        Ok(())
    }
}

/// Records the places of the operators, and refuses the fourth operator with 9.
#[derive(Drop)]
pub struct Keeping {
    /// The places of the operators so far.
    pub places: Vec<usize>,
}

impl OpCheck for Keeping {
    ghost use Rattle.std.specs.Prelude.{ℕ, List};
    ghost use Rattle.tests_body.specs.Validators.{keeps};

    ghost State = { List ℕ };

    ghost state = { λ c. c.places.items };

    ghost check = { keeps };

    fn op(&mut self, pos: usize, _op: &Operator<'_>) -> Result<(), CheckError> {
        if self.places.len() == 3 {
            return Err(CheckError::Refused(9));
        }
        match self.places.push(pos) {
            Ok(()) => Ok(()),
            Err(_) => Err(CheckError::Memory),
        }
    }
}

/// Appends the place of each operator to a list of the caller's.
#[derive(Drop)]
pub struct RecordingCheck<'a> {
    /// The list of the places.
    pub noted: &'a mut Vec<usize>,
}

impl OpCheck for RecordingCheck<'_> {
    ghost use Rattle.std.specs.Prelude.{Ok};

    ghost State = { Unit {0} };

    ghost state = { λ _. tt };

    ghost check = { λ s _. Ok s };

    fn op(&mut self, pos: usize, _op: &Operator<'_>) -> Result<(), CheckError> {
        match self.noted.push(pos) {
            Ok(()) => Ok(()),
            Err(_) => Err(CheckError::Memory),
        }
    }
}

/// Always runs out of memory.
#[derive(Drop)]
pub struct Exhausted;

impl OpCheck for Exhausted {
    ghost use Rattle.std.specs.Prelude.{Ok};

    ghost State = { Unit {0} };

    ghost state = { λ _. tt };

    ghost check = { λ s _. Ok s };

    fn op(&mut self, _pos: usize, _op: &Operator<'_>) -> Result<(), CheckError> {
        Err(CheckError::Memory)
    }
}
