//! Changing the functions of a module, the first pass: each is changed once, to find the faults of
//! bodies and changes, the new size and the new contents of custom sections, before anything is
//! written; and its new body is kept.

ghost use Rattle.std.specs.Prelude.{◌≡◌, List, OnOk, IfOk};
ghost use Rattle.wasm_module.specs.declared.parsed.ParsedModule.{ParsedModule as Parsed};
ghost use Rattle.wasm_sections.specs.CodeSections.{body_at};
ghost use Rattle.wasm_module.specs.KeptCode.{AreKept, KeepsChanged};
ghost use Rattle.wasm_module.specs.RewrittenCode.{Extends, IsChangedWith};
ghost use Rattle.wasm_module.specs.WrittenModules.{IsLinked};
ghost use Rattle.wasm_sections.specs.Omissions.{OmitsNothing};
ghost use Rattle.wasm_sections.specs.Sections.{SectionAt, IsModule, Each};

pub(crate) mod kept_bodies;

use crate::bodies::Scratch;
use crate::body_writer::{ChangeFunction, Measured};
use crate::changing::kept_bodies::KeptBodies;
use crate::custom::Followers;
use crate::parsed::ParsedModule;
use crate::rewriting::{RewrittenModule, joined, no_bodies, with_size};
use std::alloc::Global;
use walrus_body::LocalFunction;
use walrus_ir::{Instr, InstrLocId};
use wasm_sections::{Body, Changes, ModuleError, ModuleFault, OmittedSections};

/// Memory that is lent to the change of one function after the other, and the new body of the last.
#[derive(Drop)]
struct ChangeMemory {
    instrs: Vec<(Instr, InstrLocId)>,
    scratch: Scratch,
}

impl ChangeMemory {
    /// An empty one. It allocates nothing.
    fn new(alloc: Global) -> ChangeMemory {
        ChangeMemory {
            instrs: Vec::new(alloc),
            scratch: Scratch::new(alloc),
        }
    }
}

impl<'a> ParsedModule<'a> {
    /// Parses a body, changes its function and its locals, and puts the raw body of the changed
    /// one and its location pairs into the memory.
    fn change_function<C: ChangeFunction>(
        &mut self,
        change: &mut C,
        body: Body<'a>,
        memory: &mut ChangeMemory,
    ) -> Result<LocalFunction, ModuleError>
        ensures extends { OnOk result (Extends self.old self.new) }
        ensures changed { (source : Parsed) → Extends source self.old → OnOk result
            (IsChangedWith (C.changes (C.state change.old) (C.state change.new))
            source body.entry.func (body_at body.entry) memory.new.scratch.raw.items
            memory.new.scratch.pairs.items) }
    {
        let mut function = self.parse(body, &mut memory.instrs)?;
        change.change(body.func, &mut function, &mut self.module.locals)?;
        self.write(&function, body.start(), &mut memory.scratch)?;
        Ok(function)
    }

    /// Changes the function of a body, and the custom sections along with it, and keeps its new
    /// body with its location pairs. Returns what it takes in the code section, its size included.
    fn change_body<C: ChangeFunction>(
        &mut self,
        change: &mut C,
        body: Body<'a>,
        followers: &mut Followers<'a>,
        memory: &mut ChangeMemory,
        kept: &mut KeptBodies<'a>,
    ) -> Result<Measured, ModuleError>
        ensures extends { OnOk result (Extends self.old self.new) }
        ensures changed { (source : Parsed) → Extends source self.old → OnOk result
            (KeepsChanged (C.changes (C.state change.old) (C.state change.new))
            source body.entry kept.old kept.new) }
    {
        let _needed = followers.reach(body.func)?;
        let function = self.change_function(change, body, memory)?;
        followers.pass(self, body, &function, &memory.scratch)?;
        kept.keep(body, &memory.scratch)?;
        Ok(with_size(memory.scratch.measured(body)))
    }

    /// Changes the functions of all bodies. Returns the new bodies, and what the contents of the code
    /// section take.
    fn change_code<C: ChangeFunction>(
        &mut self,
        change: &mut C,
        followers: &mut Followers<'a>,
    ) -> Result<(KeptBodies<'a>, Measured), ModuleError>
        ensures extends { OnOk result (Extends self.old self.new) }
        ensures kept { IfOk result (λ x. AreKept C.changes self.old (C.state change.old) x.0
            (C.state change.new)) }
    {
        let count = self.body_count();
        let mut kept = KeptBodies::with_room(self.alloc, self.imported(), count, 0)?;
        let mut memory = Box::new(self.alloc, ChangeMemory::new(self.alloc))?;
        let mut code = no_bodies(count);
        'bodies: for body in self.bodies() {
            let more = self.change_body(change, body, followers, &mut memory, &mut kept)?;
            code = joined(code, more);
        }
        if kept.len() != count {
            return Err(ModuleError {
                fault: ModuleFault::BodyCount,
                at: self.bytes.len(),
            });
        }
        Ok((kept, code))
    }

    /// Changes the functions that have a body, and these sections. Names of locals and of labels
    /// and metadata of code are changed along with the functions. The change is asked once for each
    /// function, in order; `write_module` writes the bodies that are kept from this pass with their
    /// location pairs, which take the memory of their bytes and some two bytes more for each operator.
    ///
    /// # Errors
    ///
    /// `ObjectFile` if a custom section contains relocations or symbols of an object file; the first
    /// fault of a body, with its place, or that of its change; `InconsistentChange` if functions were
    /// imported or added with other changes; or `Memory`.
    pub fn change_all<C: ChangeFunction>(
        &mut self,
        change: &mut C,
        changes: Changes,
    ) -> Result<RewrittenModule<'a, KeptBodies<'a>>, ModuleError>
        ensures extends { OnOk result (Extends self.old self.new) }
        ensures changed { IfOk result (λ made. AreKept C.changes self.old (C.state change.old)
            made.bodies (C.state change.new)) }
        ensures changes { IfOk result (λ made. made.changes ≡ changes) }
        ensures omitted { IfOk result (λ made. OmitsNothing made.omitted) }
        ensures linked { (all : List SectionAt) → IsModule self.old.bytes.now all
            → OnOk result (Each IsLinked all) }
    {
        self.check_functions(&changes)?;
        let mut followers = Followers::read(self)?;
        let (bodies, measured) = self.change_code(change, &mut followers)?;
        let code = self.measured_code(&changes, measured)?;
        let (followed, notes) = followers.finish(self.alloc)?;
        Ok(RewrittenModule {
            bodies,
            changes,
            omitted: OmittedSections::none(self.alloc),
            followed,
            code,
            notes,
        })
    }
}
