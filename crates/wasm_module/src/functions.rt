//! The functions of a module, parsed one after the other.

ghost use Rattle.std.specs.Prelude.{◌⊎◌, ℕ, List, Ok, IfErr, OnOk};
ghost use Rattle.wasm_sections.specs.CodeSections.{body_at};
ghost use Rattle.wasm_module.specs.ReadFrom.{IsModuleOf};
ghost use Rattle.wasm_module.specs.RewrittenCode.{Extends};
ghost use Rattle.wasm_module.specs.VisitedFunctions.{IsVisited, StopsVisits, VisitsFunctions, VisitsFunctionsUpTo};

use crate::parsed::ParsedModule;
use walrus_body::LocalFunction;
use walrus_ir::{Instr, InstrLocId};
use wasm_sections::{Body, ModuleError};

impl<'a> ParsedModule<'a> {
    /// Parses a body, and passes its function on.
    fn visit_function<F: FnMut(usize, &LocalFunction) -> Result<(), ModuleError>>(
        &mut self,
        body: Body<'a>,
        visit: &mut F,
        instrs: &mut Vec<(Instr, InstrLocId)>,
    ) -> Result<(), ModuleError>
        requires { F.IsAlwaysCallable visit.old }
        ensures extends { Extends self.old self.new }
        ensures callable { F.IsAlwaysCallable visit.new }
        ensures visited { OnOk result (IsVisited F.step self.old visit.old body.entry.func
            (body_at body.entry) (Ok tt) visit.new) }
        ensures stops { IfErr result
            (StopsVisits F.step self.old visit.old body.entry.func (body_at body.entry)) }
    {
        match self.parse(body, instrs) {
            Ok(function) => visit(body.func, &function),
            Err(error) => Err(error),
        }
    }

    /// Parses each body, in order, and passes its index and its function to `visit`. So one function
    /// is in memory at a time.
    ///
    /// # Errors
    ///
    /// The first error of a body, as that of `parse`, or of `visit`; no body after it is parsed.
    ///
    /// # Example
    ///
    /// The number of sequences of all functions:
    ///
    /// ```text
    /// let mut count: usize = 0;
    /// parsed.for_each_function(|_index: usize, function: &LocalFunction| {
    ///     count = count.saturating_add(function.builder().count());
    ///     Ok(())
    /// })?;
    /// ```
    pub fn for_each_function<F: FnMut(usize, &LocalFunction) -> Result<(), ModuleError>>(
        &mut self,
        mut visit: F,
    ) -> Result<(), ModuleError>
        requires { F.IsAlwaysCallable visit }
        ensures extends { Extends self.old self.new }
        ensures visited { (source : List ℕ) → IsModuleOf source self.old
            → OnOk result ((last : F) × VisitsFunctions F.step self.old visit last) }
        ensures stops { (source : List ℕ) → IsModuleOf source self.old
            → IfErr result (VisitsFunctionsUpTo F.step self.old visit) }
    {
        let mut instrs = Vec::new(self.alloc);
        'bodies: for body in self.bodies() {
            self.visit_function(body, &mut visit, &mut instrs)?;
        }
        Ok(())
    }
}
