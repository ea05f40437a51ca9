//! The state of the machine while it runs; branches, exceptions and ends of sequences.
ghost use Rattle.std.specs.Prelude.{◌≡◌, ◌<◌, ◌≤◌, ◌∷◌, [], List, length, drop};
ghost use Rattle.std.specs.Prelude.{IfOk, IfNone, IfSome, OnSome};
ghost use Rattle.wasm_body.specs.Control.{Control as Meaning};
ghost use Rattle.wasm_body.specs.Machine as M;
ghost use Rattle.walrus_machine.specs.Runs.{outcome_of};
ghost use Rattle.walrus_machine.specs.Tracing.{label_of, machine_labels, caught_in, Does, Finds, ContinuesAs};

use crate::machine::control::Construct;
use crate::machine::label::{Label, Response};
use crate::machine::run::{Ending, Event, Outcome};
use crate::machine::table::Table;
use std::alloc::AllocError;
use std::collections::BTreeSet;
use walrus_ir::TagId;

/// The state of a run.
#[derive(Drop)]
pub struct State<'a> {
    /// The open labels, the innermost last.
    pub labels: Vec<Label<'a>>,
    /// The outcomes that remain.
    pub outcomes: &'a [Outcome],
    /// The events so far.
    pub events: Vec<Event>,
}

/// The result of a step.
#[derive(Drop)]
pub enum Next {
    /// The run goes on at the place with this position.
    Continue(usize),
    /// A branch to a loop: the run goes on at this place, and a turn is used up.
    Turn(usize),
    /// The run ends.
    Finished(Ending),
}

impl<'a> State<'a> {
    /// Records that the operator at a position was executed.
    pub fn executed(&mut self, position: usize) -> Result<(), AllocError>
        ensures { IfOk result (λ _. Does self.old self.new (λ _ k ls o.
            M.then (M.Executed position) (k ls o))) }
    {
        // The borrow checker doesn't cover a `push` of it here.
        self.events.extend_from_slice(&[Event::Op(position)])
    }

    /// Records that a clause of the construct that was opened at a position caught an exception.
    fn taken(&mut self, i: usize, clause: usize, tag: Option<TagId>) -> Result<(), AllocError>
        ensures { IfOk result (λ _. Does self.old self.new (λ _ k ls o.
            M.then (M.Taken i clause tag) (k ls o))) }
    {
        self.events.push(Event::Taken { i, clause, tag })?;
        Ok(())
    }

    /// Takes the next outcome; none if none remains.
    pub fn next_outcome(&mut self) -> Option<&'a Outcome>
        ensures none { IfNone result (Finds self.old self.new (λ _ k ls o. k ls [])) }
        ensures some { IfSome result (λ x. Finds self.old self.new (λ _ k ls o.
            k ls (outcome_of x.now ∷ o))) }
    {
        match self.outcomes.split_first() {
            None => None,
            Some((first, rest)) => {
                self.outcomes = rest;
                Some(first)
            }
        }
    }

    /// Opens a label.
    pub fn open(&mut self, label: Label<'a>) -> Result<(), AllocError>
        ensures { IfOk result (λ _. Does self.old self.new (λ cs k ls o.
            k (label_of cs label.entry ∷ ls) o)) }
    {
        self.labels.push(label)?;
        Ok(())
    }

    /// Closes the innermost label and returns it; none if no label is open.
    fn leave_label(&mut self) -> Option<Label<'a>>
        ensures none { IfNone result (Finds self.old self.new (λ _ k ls o. k [] o)) }
        ensures some { IfSome result (λ l. Finds self.old self.new (λ cs k ls o.
            k (label_of cs l ∷ ls) o)) }
        ensures fewer { OnSome result
            (length self.new.labels.items < length self.old.labels.items) }
    {
        self.labels.pop()
    }

    /// Closes `n` labels, the innermost first, or all if fewer are open.
    fn close(&mut self, n: u32)
        ensures closed { Does self.old self.new (λ _ k ls o. k (drop n ls) o) }
        ensures no_more { length self.new.labels.items ≤ length self.old.labels.items }
    {
        let left = self.labels.len().saturating_sub(n as usize);
        self.labels.truncate(left);
    }

    /// A branch to a label: to the operator after a `loop`, past the closer of another construct,
    /// or out of the function.
    pub fn branch(&mut self, table: &Table<'_>, n: u32) -> Result<Next, AllocError>
        ensures { IfOk result (λ next.
            ContinuesAs table.now (λ again go. M.branch again go n) self.old next self.new) }
    {
        self.close(n);
        let Some(label) = self.leave_label() else {
            return Ok(Next::Finished(Ending::Returned));
        };
        match label.construct {
            Construct::Loop => {
                self.open(label)?;
                Ok(Next::Turn(label.opener + 1))
            }
            _ => Ok(Next::Continue(table.after_closer(label.opener))),
        }
    }

    /// The end of a sequence: leads past the closer of its construct, or out of the function.
    pub fn leave(&mut self, table: &Table<'_>) -> Next
        ensures { ContinuesAs table.now (λ again go. M.leave go) self.old result self.new }
    {
        match self.leave_label() {
            None => Next::Finished(Ending::Returned),
            Some(label) => Next::Continue(table.after_closer(label.opener)),
        }
    }

    /// An exception, which is passed outwards from the innermost label.
    pub fn raise(
        &mut self,
        table: &Table<'_>,
        tags: &'a BTreeSet<TagId>,
    ) -> Result<Next, AllocError>
        ensures { IfOk result (λ next. ContinuesAs table.now (λ again go ls o.
            M.raise again go tags.now.keys ls o 0) self.old next self.new) }
    {
        'labels: while let Some(label) = self.leave_label() {
            match label.respond(table, tags) {
                Response::Passes => {}
                Response::Hands(n) => self.close(n),
                Response::Jumps {
                    clause,
                    tag,
                    label: n,
                } => {
                    self.taken(label.opener, clause, tag)?;
                    let next = self.branch(table, n)?;
                    return Ok(next);
                }
                Response::Enters { clause, tag, place } => {
                    self.taken(label.opener, clause, tag)?;
                    self.open(label.handler(tags))?;
                    return Ok(Next::Continue(place));
                }
            }
        }
        let tags = tags.clone()?;
        Ok(Next::Finished(Ending::Escaped(tags)))
    }

    /// The tags that the handler of a label caught; none if the label isn't that of a handler.
    pub fn caught_at(&self, n: u32) -> Option<&'a BTreeSet<TagId>>
        ensures { (cs : List Meaning)
            → M.caught_at (machine_labels cs self.now.labels.items) n ≡ caught_in result }
    {
        let depth = n as usize;
        if depth < self.labels.len() {
            self.labels[self.labels.len() - 1 - depth].caught
        } else {
            None
        }
    }
}
