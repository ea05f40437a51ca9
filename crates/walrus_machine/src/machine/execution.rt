//! Runs of the machine.
ghost use Rattle.std.specs.Prelude.{◌≡◌, length, map, IfOk};
ghost use Rattle.wasm_body.specs.Machine as M;
ghost use Rattle.wasm_body.specs.Places.{run_by_place};
ghost use Rattle.wasm_body.specs.Control.{control_of};
ghost use Rattle.walrus_machine.specs.NamedOperators.{named_operation};
ghost use Rattle.walrus_machine.specs.Runs.{outcome_of, ending_of, run_of};
ghost use Rattle.walrus_machine.specs.Tables.{place_from};
ghost use Rattle.walrus_machine.specs.Tracing.{continued_run, EndsTurnAs};

use crate::machine::operator::controls;
use crate::machine::run::{Ending, Outcome, Run};
use crate::machine::state::{Next, State};
use crate::machine::table::Table;
use crate::named_op::NamedOp;
use std::alloc::{AllocError, Global};

/// The result of the steps of a turn.
#[derive(Drop)]
pub enum TurnEnd {
    /// A branch to a loop: the run goes on at the place with this position, and a turn is used up.
    Turn(usize),
    /// The run ends.
    Finished(Ending),
}

impl<'a> State<'a> {
    /// The steps from a place on, until a branch to a loop or the end of the run. There are at most
    /// as many as operators from the place on, since only a branch to a loop goes back.
    fn turn(&mut self, table: &Table<'a>, from: usize) -> Result<TurnEnd, AllocError>
        ensures { IfOk result (λ turn_end.
            EndsTurnAs table.now (place_from table.now from) self.old turn_end self.new) }
    {
        let mut place = from;
        let mut left = table.len().saturating_sub(from);
        'steps: while left > 0 {
            let Some(control) = table.control(place) else {
                return Ok(TurnEnd::Finished(Ending::Returned));
            };
            match self.step(table, control, place)? {
                Next::Continue(next) => place = next,
                Next::Turn(next) => return Ok(TurnEnd::Turn(next)),
                Next::Finished(ending) => return Ok(TurnEnd::Finished(ending)),
            }
            left -= 1;
        }
        Ok(TurnEnd::Finished(Ending::Returned))
    }

    /// The run from the first operator on, with this many turns.
    fn run(&mut self, table: &Table<'a>, turns: u64) -> Result<Ending, AllocError>
        ensures { IfOk result (λ ending.
            continued_run table.now self.old (M.bounded_run length turns (place_from table.now 0))
            ≡ continued_run table.now self.new (λ _ _. M.ends (ending_of ending))) }
    {
        let mut place: usize = 0;
        let mut left = turns;
        'turns: loop {
            match self.turn(table, place)? {
                TurnEnd::Finished(ending) => return Ok(ending),
                TurnEnd::Turn(next) => {
                    if left == 0 {
                        return Ok(Ending::TurnsOut);
                    }
                    left -= 1;
                    place = next;
                }
            }
        }
    }
}

/// Runs the operators of a table with these outcomes and this many turns.
fn run_table<'a>(
    alloc: Global,
    table: &Table<'a>,
    outcomes: &'a [Outcome],
    turns: u64,
) -> Result<Run, AllocError>
    ensures { IfOk result (λ run. run_of run
        ≡ run_by_place table.now (map outcome_of outcomes.now) turns) }
{
    let mut state = State {
        labels: Vec::new(alloc),
        outcomes,
        events: Vec::new(alloc),
    };
    let ending = state.run(table, turns)?;
    Ok(Run {
        events: state.events,
        ending,
    })
}

/// Runs operators (WebAssembly core specification 3.0, execution, instructions). They take these
/// outcomes one after the other, and their loops have `turns` turns in all. Outcomes that remain at
/// the end make no difference.
///
/// # Errors
///
/// `AllocError` if memory runs out: a run records its events.
pub fn execute_operators(
    alloc: Global,
    ops: &[NamedOp],
    outcomes: &[Outcome],
    turns: u64,
) -> Result<Run, AllocError>
    ensures { IfOk result (λ run. run_of run
        ≡ run_by_place (map control_of (map named_operation ops.now))
        (map outcome_of outcomes.now) turns) }
{
    let table = Table::new(alloc, controls(alloc, ops)?)?;
    run_table(alloc, &table, outcomes, turns)
}
