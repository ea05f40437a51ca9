//! The runs of a body, from its operators as they are written.

ghost use Rattle.std.specs.Prelude.{suc, ◌≤◌, unwrap_or};
ghost use Rattle.code_moves.specs.Order.{AreRunsOfCode, AreRuns-prop};

use crate::body::{Body, LocalMove, are_locals};
use crate::fault::MoveError;
use crate::run::Run;
use std::alloc::Global;

/// The runs of a body. Its operators are pushed in the order in which they are written.
#[derive(Debug, Drop)]
pub struct Runs {
    /// Those of the operators of the source that were pushed.
    runs: Vec<Run>,
    /// Where the first operator is written that was added since the last one of the source, if one was.
    added: Option<u32>,
    /// Where the operator is written that was pushed last; before the first one, where the body begins.
    last: u32,
    /// The address in the source of the last byte of those that were pushed; before the first one, of the first byte of
    /// the body.
    source: u32,
    /// The address of the first byte of the body in the source.
    begin: u32,
    /// That in what is written.
    new_begin: u32,
    ghost are_runs: { AreRunsOfCode (suc begin) (suc new_begin) runs.items (suc source) (unwrap_or added (suc last)) } by { AreRuns-prop (suc begin) (suc new_begin) runs.items (suc source) (unwrap_or added (suc last)) },
    ghost added_by_last: { unwrap_or added (suc last) ≤ suc last },
}

impl Runs {
    ghost use Rattle.std.specs.Prelude.{◌≡◌, ◌<◌, ◌⊎◌, ◌↔◌, [], ℕ, None, Some, Err, OnOk, OnErr, IsOk, IfOk, IfErr, IfSome};
    ghost use Rattle.code_moves.specs.Order.{AreLocals};
    ghost use Rattle.code_moves.specs.Building.{limit, IsWrittenSoFar, place_so_far, IsOfSameBody, KeepsOfCode, IsAddedNext, IsWrittenNext, IsTheSame, FollowsOfCode, IsBodyOf, KeepsInBody};
    ghost use Rattle.code_moves.specs.declared.fault.MoveError.TheVariants.{Disordered};

    /// No operators yet of a body whose first byte is at `begin` in the source and at `new_begin` in what is written. This
    /// allocates nothing.
    pub fn new(alloc: Global, begin: u32, new_begin: u32) -> Runs
        ensures begin { (result.begin ≡ begin) × (result.new_begin ≡ new_begin) }
        ensures none { (result.runs.items ≡ []) × (result.added ≡ None) }
        ensures last { (result.source ≡ begin) × (result.last ≡ new_begin) }
    {
        Runs {
            runs: Vec::new(alloc),
            added: None,
            last: new_begin,
            source: begin,
            begin,
            new_begin,
        }
    }

    /// An operator that isn't of the source is written at `own`.
    ///
    /// # Errors
    ///
    /// `Disordered` if `own` isn't after the operator that was pushed last, or after the first byte of the body. The runs are
    /// as they were then.
    pub fn push_added(&mut self, own: u32) -> Result<(), MoveError>
        ensures added { OnOk result (IsAddedNext self.old self.new own) }
        ensures keeps { KeepsOfCode self.old self.new }
        ensures body { IsOfSameBody self.old self.new }
        ensures err { OnErr result (self.new ≡ self.old) }
        ensures disordered { result ≡ Err Disordered ↔ own ≤ self.old.last }
    {
        if own <= self.last {
            return Err(MoveError::Disordered);
        }
        self.added = Some(self.added.unwrap_or(own));
        self.last = own;
        Ok(())
    }

    // The last run with this operator at its end, if the operator follows it, in the source and in what is written.
    fn longer(&self, old: u32, end: u32, own: u32) -> Option<Run>
        requires old { self.now.source < old }
        requires own { self.now.last < own }
        ensures { IfSome result (λ run. FollowsOfCode self.now old end own run) }
    {
        let last = self.runs.last()?;
        if self.added.is_some() || last.end != old || own - last.own != old - last.old {
            return None;
        }
        Some(Run { end, ..*last })
    }

    /// The operator of the source from `old` to `end` is written at `own`. One that isn't after all those of the source that
    /// were pushed before is taken for one that is added.
    ///
    /// # Errors
    ///
    /// `Disordered` if `own` isn't after the operator that was pushed last, or after the first byte of the body; or if `end`
    /// isn't after `old`. Out of memory. The runs are as they were then.
    pub fn push(&mut self, old: u32, end: u32, own: u32) -> Result<(), MoveError>
        ensures written { self.old.source < old → OnOk result (IsWrittenNext self.old self.new old end own) }
        ensures added { old ≤ self.old.source → OnOk result (IsAddedNext self.old self.new own) }
        ensures keeps { OnOk result (KeepsOfCode self.old self.new) }
        ensures body { IsOfSameBody self.old self.new }
        ensures err { OnErr result (IsTheSame self.old self.new) }
        ensures disordered { result ≡ Err Disordered ↔ ((own ≤ self.old.last) ⊎ (end ≤ old)) }
    {
        if own <= self.last || end <= old {
            return Err(MoveError::Disordered);
        }
        if old <= self.source {
            return self.push_added(own);
        }
        match self.longer(old, end, own) {
            Some(run) => {
                let last = self.runs.len() - 1;
                self.runs[last] = run;
            }
            None => {
                let gap = self.added.unwrap_or(own);
                self.runs.push(Run { old, end, gap, own })?;
            }
        }
        self.added = None;
        self.last = own;
        self.source = end - 1;
        Ok(())
    }

    /// The body, which ends at `end` in the source and at `new_end` in what is written, of a function with so many
    /// parameters of which these declared locals are kept. This allocates nothing.
    ///
    /// # Errors
    ///
    /// `Disordered` if an end isn't after all operators that were pushed; or if the locals aren't by ascending index in the
    /// source, or one of them is a parameter.
    pub fn into_body(
        self,
        end: u32,
        new_end: u32,
        parameters: u32,
        locals: Vec<LocalMove>,
    ) -> Result<Body, MoveError>
        ensures body { IfOk result (λ b. IsBodyOf self end new_end parameters locals.items b) }
        ensures keeps { IfOk result (λ b. KeepsInBody self b) }
        ensures ok { IsOk result ↔ ((self.source < end) × (self.last < new_end) × AreLocals parameters locals.items) }
        ensures disordered { IfErr result (λ e. e ≡ Disordered) }
    {
        if end <= self.source || new_end <= self.last || !are_locals(&locals, parameters) {
            return Err(MoveError::Disordered);
        }
        Ok(Body {
            begin: self.begin,
            end,
            new_begin: self.new_begin,
            new_end,
            runs: self.runs,
            parameters,
            locals,
        })
    }
}
