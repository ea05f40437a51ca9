//! One step of the machine: an operator by itself.
ghost use Rattle.std.specs.Prelude.{◌≡◌, ◌+◌, ◌<◌, ◌^◌, ◌∷◌, IfOk};
ghost use Rattle.wasm_body.specs.Control as C;
ghost use Rattle.wasm_body.specs.Machine as M;
ghost use Rattle.walrus_machine.specs.Controls.{action_meaning, construct_meaning, control_meaning};
ghost use Rattle.walrus_machine.specs.Tables.{place_from};
ghost use Rattle.walrus_machine.specs.Tracing.{opened_label, Does, ContinuesAs, StepsAt};

use crate::machine::control::{Action, Construct, Control};
use crate::machine::label::Label;
use crate::machine::run::{Ending, Outcome};
use crate::machine::state::{Next, State};
use crate::machine::table::{Sought, Table, has_tag};
use std::alloc::AllocError;
use walrus_ir::TagId;

impl<'a> State<'a> {
    /// An operator that takes the outcome `Go`, `Trap` or `Raise`.
    fn plain(&mut self, table: &Table<'_>, position: usize) -> Result<Next, AllocError>
        requires { position + 1 < 2 ^ 64 }
        ensures { IfOk result (λ next.
            StepsAt table.now (C.Does C.Plain) position self.old next self.new) }
    {
        let Some(outcome) = self.next_outcome() else {
            return Ok(Next::Finished(Ending::OutcomesOut));
        };
        match outcome {
            Outcome::Go => {
                self.executed(position)?;
                Ok(Next::Continue(position + 1))
            }
            Outcome::Trap => {
                self.executed(position)?;
                Ok(Next::Finished(Ending::Trapped))
            }
            Outcome::Raise(tags) => {
                self.executed(position)?;
                let next = self.raise(table, tags)?;
                Ok(next)
            }
            Outcome::Way(_) | Outcome::Entry(_) => Ok(Next::Finished(Ending::Mismatch)),
        }
    }

    /// A `throw`, which takes the outcome `Raise` with its tag.
    fn throw(&mut self, table: &Table<'_>, position: usize, tag: TagId) -> Result<Next, AllocError>
        ensures { IfOk result (λ next.
            StepsAt table.now (C.Does (C.Throw tag)) position self.old next self.new) }
    {
        let Some(outcome) = self.next_outcome() else {
            return Ok(Next::Finished(Ending::OutcomesOut));
        };
        match outcome {
            Outcome::Raise(tags) => {
                if !has_tag(tags, tag) {
                    return Ok(Next::Finished(Ending::Mismatch));
                }
                self.executed(position)?;
                let next = self.raise(table, tags)?;
                Ok(next)
            }
            Outcome::Go | Outcome::Trap | Outcome::Way(_) | Outcome::Entry(_) => Ok(Next::Finished(
                Ending::Mismatch,
            )),
        }
    }

    /// A `throw_ref`, which takes the outcome `Raise` or `Trap`.
    fn throw_ref(&mut self, table: &Table<'_>, position: usize) -> Result<Next, AllocError>
        ensures { IfOk result (λ next.
            StepsAt table.now (C.Does C.ThrowRef) position self.old next self.new) }
    {
        let Some(outcome) = self.next_outcome() else {
            return Ok(Next::Finished(Ending::OutcomesOut));
        };
        match outcome {
            Outcome::Trap => {
                self.executed(position)?;
                Ok(Next::Finished(Ending::Trapped))
            }
            Outcome::Raise(tags) => {
                self.executed(position)?;
                let next = self.raise(table, tags)?;
                Ok(next)
            }
            Outcome::Go | Outcome::Way(_) | Outcome::Entry(_) => Ok(Next::Finished(
                Ending::Mismatch,
            )),
        }
    }

    /// A tail call, which takes the outcome `Go` or `Trap`.
    fn tail_call(&mut self, table: &Table<'_>, position: usize) -> Result<Next, AllocError>
        ensures { IfOk result (λ next.
            StepsAt table.now (C.Does C.TailCall) position self.old next self.new) }
    {
        let Some(outcome) = self.next_outcome() else {
            return Ok(Next::Finished(Ending::OutcomesOut));
        };
        match outcome {
            Outcome::Go => {
                self.executed(position)?;
                Ok(Next::Finished(Ending::TailCalled))
            }
            Outcome::Trap => {
                self.executed(position)?;
                Ok(Next::Finished(Ending::Trapped))
            }
            Outcome::Raise(_) | Outcome::Way(_) | Outcome::Entry(_) => Ok(Next::Finished(
                Ending::Mismatch,
            )),
        }
    }

    /// A conditional branch, which takes the outcome `Way`.
    fn conditional_branch(
        &mut self,
        table: &Table<'_>,
        position: usize,
        n: u32,
    ) -> Result<Next, AllocError>
        requires { position + 1 < 2 ^ 64 }
        ensures { IfOk result (λ next.
            StepsAt table.now (C.Does (C.ConditionalBranch n)) position self.old next self.new) }
    {
        let Some(outcome) = self.next_outcome() else {
            return Ok(Next::Finished(Ending::OutcomesOut));
        };
        match outcome {
            Outcome::Way(taken) => {
                self.executed(position)?;
                if *taken {
                    let next = self.branch(table, n)?;
                    Ok(next)
                } else {
                    Ok(Next::Continue(position + 1))
                }
            }
            Outcome::Go | Outcome::Trap | Outcome::Raise(_) | Outcome::Entry(_) => Ok(
                Next::Finished(Ending::Mismatch),
            ),
        }
    }

    /// A `br_table`, which takes the outcome `Entry`.
    fn table_branch(
        &mut self,
        table: &Table<'_>,
        position: usize,
        targets: &[u32],
        default: u32,
    ) -> Result<Next, AllocError>
        ensures { IfOk result (λ next.
            StepsAt table.now (C.Does (C.TableBranch targets.now default)) position
            self.old next self.new) }
    {
        let Some(outcome) = self.next_outcome() else {
            return Ok(Next::Finished(Ending::OutcomesOut));
        };
        match outcome {
            Outcome::Entry(k) => {
                self.executed(position)?;
                let next = self.branch(table, target(targets, default, *k))?;
                Ok(next)
            }
            Outcome::Go | Outcome::Trap | Outcome::Raise(_) | Outcome::Way(_) => Ok(Next::Finished(
                Ending::Mismatch,
            )),
        }
    }

    /// A `rethrow`, which throws an exception with the tags that the handler of a label caught.
    fn rethrow(&mut self, table: &Table<'_>, position: usize, n: u32) -> Result<Next, AllocError>
        ensures { IfOk result (λ next.
            StepsAt table.now (C.Does (C.Rethrow n)) position self.old next self.new) }
    {
        self.executed(position)?;
        match self.caught_at(n) {
            None => Ok(Next::Finished(Ending::Mismatch)),
            Some(tags) => {
                let next = self.raise(table, tags)?;
                Ok(next)
            }
        }
    }

    /// Opens the label of a construct that is opened at a position.
    fn open_construct(
        &mut self,
        construct: &Construct<'a>,
        position: usize,
    ) -> Result<(), AllocError>
        requires { position + 1 < 2 ^ 64 }
        ensures { IfOk result (λ _. Does self.old self.new (λ cs k ls o.
            k (opened_label cs (construct_meaning construct.now) position ∷ ls) o)) }
    {
        let label = Label {
            opener: position,
            construct: *construct,
            caught: None,
        };
        self.open(label)?;
        Ok(())
    }

    /// An `if` whose condition is false: the run goes on after its `else`, or after its `end` if
    /// there is no `else`.
    fn other_way(&mut self, table: &Table<'_>, position: usize) -> Result<Next, AllocError>
        requires { position + 1 < 2 ^ 64 }
        ensures { IfOk result (λ next. ContinuesAs table.now (λ _ go ls o.
            M.other_way go (opened_label table.now C.If position) ls o
            (M.seek M.is_else 0 0 (place_from table.now (position + 1)))) self.old next self.new) }
    {
        let found = table.seek(Sought::Else, position);
        let Some(control) = table.control(found.position) else {
            return Ok(Next::Finished(Ending::Returned));
        };
        let following = found.position + 1;
        match control {
            Control::Else => {
                self.open_construct(&Construct::If, position)?;
                Ok(Next::Continue(following))
            }
            _ => Ok(Next::Continue(following)),
        }
    }

    /// An `if`, which takes the outcome `Way`.
    fn enter_if(&mut self, table: &Table<'_>, position: usize) -> Result<Next, AllocError>
        requires { position + 1 < 2 ^ 64 }
        ensures { IfOk result (λ next.
            StepsAt table.now (C.Opens C.If) position self.old next self.new) }
    {
        let Some(outcome) = self.next_outcome() else {
            return Ok(Next::Finished(Ending::OutcomesOut));
        };
        match outcome {
            Outcome::Way(taken) => {
                self.executed(position)?;
                if *taken {
                    self.open_construct(&Construct::If, position)?;
                    Ok(Next::Continue(position + 1))
                } else {
                    let next = self.other_way(table, position)?;
                    Ok(next)
                }
            }
            Outcome::Go | Outcome::Trap | Outcome::Raise(_) | Outcome::Entry(_) => {
                Ok(Next::Finished(Ending::Mismatch))
            }
        }
    }

    /// An operator that opens a construct.
    fn enter(
        &mut self,
        table: &Table<'_>,
        construct: &Construct<'a>,
        position: usize,
    ) -> Result<Next, AllocError>
        requires { position + 1 < 2 ^ 64 }
        ensures { IfOk result (λ next. StepsAt table.now (C.Opens (construct_meaning construct.now))
            position self.old next self.new) }
    {
        match construct {
            Construct::If => {
                let next = self.enter_if(table, position)?;
                Ok(next)
            }
            _ => {
                self.executed(position)?;
                self.open_construct(construct, position)?;
                Ok(Next::Continue(position + 1))
            }
        }
    }

    /// An operator that neither opens, divides nor closes a construct.
    fn act(
        &mut self,
        table: &Table<'_>,
        action: &Action<'_>,
        position: usize,
    ) -> Result<Next, AllocError>
        requires { position + 1 < 2 ^ 64 }
        ensures { IfOk result (λ next.
            StepsAt table.now (C.Does (action_meaning action.now)) position self.old next self.new) }
    {
        match action {
            Action::Nop => Ok(Next::Continue(position + 1)),
            Action::Plain => {
                let next = self.plain(table, position)?;
                Ok(next)
            }
            Action::Branch(n) => {
                self.executed(position)?;
                let next = self.branch(table, *n)?;
                Ok(next)
            }
            Action::ConditionalBranch(n) => {
                let next = self.conditional_branch(table, position, *n)?;
                Ok(next)
            }
            Action::TableBranch { targets, default } => {
                let next = self.table_branch(table, position, targets, *default)?;
                Ok(next)
            }
            Action::Return => {
                self.executed(position)?;
                Ok(Next::Finished(Ending::Returned))
            }
            Action::Unreachable => {
                self.executed(position)?;
                Ok(Next::Finished(Ending::Trapped))
            }
            Action::Throw(tag) => {
                let next = self.throw(table, position, *tag)?;
                Ok(next)
            }
            Action::ThrowRef => {
                let next = self.throw_ref(table, position)?;
                Ok(next)
            }
            Action::Rethrow(n) => {
                let next = self.rethrow(table, position, *n)?;
                Ok(next)
            }
            Action::TailCall => {
                let next = self.tail_call(table, position)?;
                Ok(next)
            }
        }
    }

    /// One step: executes the operator at a position.
    ///
    /// # Errors
    ///
    /// `AllocError` if memory runs out.
    pub fn step(
        &mut self,
        table: &Table<'_>,
        control: &Control<'a>,
        position: usize,
    ) -> Result<Next, AllocError>
        requires { position + 1 < 2 ^ 64 }
        ensures { IfOk result (λ next.
            StepsAt table.now (control_meaning control.now) position self.old next self.new) }
    {
        match control {
            Control::Does(action) => {
                let next = self.act(table, action, position)?;
                Ok(next)
            }
            Control::Opens(construct) => {
                let next = self.enter(table, construct, position)?;
                Ok(next)
            }
            Control::Else
            | Control::Catch(_)
            | Control::CatchAll
            | Control::End
            | Control::Delegate(_) => Ok(self.leave(table)),
        }
    }
}

/// The label for an operand of a `br_table`: the default if the table has no such entry.
fn target(targets: &[u32], default: u32, k: u32) -> u32
    ensures { result ≡ M.target targets.now default k }
{
    match targets.get(k as usize) {
        Some(n) => *n,
        None => default,
    }
}
