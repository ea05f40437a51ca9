//! Runs of bodies.
ghost use Rattle.std.specs.Prelude.{◌≡◌, map, IfOk};
ghost use Rattle.wasm_body.specs.Control.{control_of};
ghost use Rattle.wasm_body.specs.Places.{run_by_place};
ghost use Rattle.walrus_machine.specs.Runs.{outcome_of, run_of};

use crate::named_body::NamedBody;
use std::alloc::AllocError;
use walrus_machine::{Outcome, Run, execute_operators};

/// Runs a body (WebAssembly core specification 3.0, execution, instructions). Its operators take
/// these outcomes one after the other, and its loops have `turns` turns in all. Outcomes that
/// remain at the end make no difference.
///
/// # Errors
///
/// `AllocError` if memory runs out: a run records its events.
pub fn execute(body: &NamedBody, outcomes: &[Outcome], turns: u64) -> Result<Run, AllocError>
    ensures { IfOk result (λ run. run_of run
        ≡ run_by_place (map control_of body.now.operators) (map outcome_of outcomes.now) turns) }
{
    execute_operators(body.allocator(), body.ops(), outcomes, turns)
}
