//! What is to be inserted into a sequence, as the caller says it.
ghost use Rattle.std.specs.Prelude.{◌≡◌, ◌++◌, [], ◌∷◌, List, map, OnOk, IsTrue, ◌↔◌, true};
ghost use Rattle.walrus_insertion.specs.declared.plain_instr.PlainInstr.{PlainInstr as Plain};
ghost use Rattle.walrus_insertion.specs.declared.probe.Edit.{Edit as Step};
ghost use Rattle.walrus_insertion.specs.declared.probe.Edit.TheVariants as step;
ghost use Rattle.walrus_insertion.specs.Edits.{edited};
ghost use Rattle.walrus_insertion.specs.InsertedInstructions.{ends_code, IsPushed, InsertedFrom};
ghost use Rattle.wasm_insertion.specs.EditedTrees.{never_goes_on};

use crate::place::Place;
use crate::plain_instr::PlainInstr;
use crate::probe::{Edit, Probe};
use std::alloc::{AllocError, Global};
use walrus_ir::{BlockKind, Instr, InstrLocId};

/// Whether an instruction never goes on to the next one.
fn never_goes_on(located: &(Instr, InstrLocId)) -> bool
    ensures { result ≡ ends_code located.now }
{
    matches!(
        &located.0,
        Instr::Unreachable
            | Instr::Throw(_)
            | Instr::Rethrow(_)
            | Instr::ThrowRef
            | Instr::Br(_)
            | Instr::BrTable(_)
            | Instr::Return
    )
}

/// The steps by which a sequence gets its new instructions, as far as the caller has said them.
#[derive(Drop)]
pub(crate) struct Script {
    /// What is inserted at the present place.
    probe: Probe,
    /// The steps up to there.
    pub edits: Vec<Edit>,
}

/// Appends a step for each of these instructions.
fn push_all(edits: &mut Vec<Edit>, instrs: &[PlainInstr]) -> Result<(), AllocError>
    ensures { OnOk result (edits.new.items ≡ edits.old.items ++ map step.Insert instrs.now) }
{
    let mut left = instrs;
    'instrs: while let Some((instr, following)) = left.split_first() {
        edits.push(Edit::Insert(*instr))?;
        left = following;
    }
    Ok(())
}

impl Script {
    /// Without a step. This allocates nothing.
    pub fn new(alloc: Global) -> Script {
        Script {
            probe: Probe::new(alloc),
            edits: Vec::new(alloc),
        }
    }

    /// Asks the caller what is inserted at a place.
    fn ask<F: FnMut(&Place<'_>, &mut Probe) -> Result<(), AllocError>>(
        &mut self,
        place: &Place<'_>,
        caller: &mut F,
    ) -> Result<(), AllocError>
        requires { F.IsAlwaysCallable caller.old }
        ensures asked { OnOk result ((ps : List Plain)
            × IsPushed F.step place.now.kind place.now.instrs.now caller.old place.now.index ps
            caller.new
            × (self.new.edits.items ≡ self.old.edits.items ++ map step.Insert ps)) }
        ensures callable { F.IsAlwaysCallable caller.new }
    {
        self.probe.instrs.clear();
        caller(place, &mut self.probe)?;
        push_all(&mut self.edits, &self.probe.instrs)
    }

    /// Asks the caller what is inserted at each place of a sequence with these instructions: before
    /// each instruction and at the end, but not after one that never goes on.
    pub fn ask_each<F: FnMut(&Place<'_>, &mut Probe) -> Result<(), AllocError>>(
        &mut self,
        kind: BlockKind,
        instrs: &[(Instr, InstrLocId)],
        caller: &mut F,
    ) -> Result<(), AllocError>
        requires { F.IsAlwaysCallable caller.old }
        ensures asked { OnOk result (InsertedFrom (IsPushed F.step kind instrs.now) caller.old 0
            instrs.now (edited self.new.edits.items instrs.now) caller.new) }
        ensures callable { F.IsAlwaysCallable caller.new }
    {
        self.edits.clear();
        for index in 0..instrs.len() {
            self.ask(
                &Place {
                    kind,
                    instrs,
                    index,
                },
                caller,
            )?;
            self.edits.push(Edit::Keep)?;
            if never_goes_on(&instrs[index]) {
                return Ok(());
            }
        }
        let index = instrs.len();
        self.ask(
            &Place {
                kind,
                instrs,
                index,
            },
            caller,
        )?;
        Ok(())
    }
}
