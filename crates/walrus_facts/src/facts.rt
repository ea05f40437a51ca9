//! Facts of a function's body that are needed before it is written.
ghost use Rattle.std.specs.Prelude.{◌≡◌, ◌==◌, ℕ, [], false};
ghost use Rattle.std.specs.HashSet.{contains};
ghost use Rattle.walrus_facts.specs.FactLaws.{FactsHaveSize, FactsUseFound};

use std::alloc::Global;
use walrus_ir::{
    DataId, FunctionId, IdHashSet, Instr, InstrLocId, InstrSeq, LocalId, RefFunc, Visitor,
    WalkError,
};

/// Facts of a function's body that are needed before it is written.
#[derive(Drop)]
pub struct EmitFacts {
    /// The number of instructions.
    pub size: u64,
    /// Whether an instruction names a data segment (`memory.init`, `data.drop`, `array.new_data`,
    /// `array.init_data`).
    pub uses_data_segments: bool,
    /// The functions that `ref.func` refers to, in the order of the instructions, with repeats.
    pub ref_funcs: Vec<FunctionId>,
    /// The locals that `local.get`, `local.set` and `local.tee` name.
    pub used_locals: IdHashSet<LocalId>,
}

/// Gathers the facts of the instructions that it visits.
#[derive(Drop)]
pub struct FactsVisitor {
    /// The facts of the instructions visited so far.
    pub facts: EmitFacts,
}

impl FactsVisitor {
    /// A visitor that has visited no instruction. Allocates nothing.
    pub fn new(alloc: Global) -> FactsVisitor
        ensures size { result.facts.size ≡ 0 }
        ensures uses_data_segments { result.facts.uses_data_segments ≡ false }
        ensures ref_funcs { result.facts.ref_funcs.items ≡ [] }
        ensures used_locals { (l : ℕ)
            → contains (λ x y. x == y) result.facts.used_locals l ≡ false }
    {
        FactsVisitor {
            facts: EmitFacts {
                size: 0,
                uses_data_segments: false,
                ref_funcs: Vec::new(alloc),
                used_locals: IdHashSet::new(alloc),
            },
        }
    }
}

/// Refuses an instruction with `WalkError::TooLarge` if the count would pass `u64::MAX`, and a
/// function or a local with `WalkError::Memory` if memory runs out. Refuses nothing else.
impl Visitor for FactsVisitor {
    type Fault = WalkError;

    ghost use Rattle.walrus_facts.specs.Gathering.{Gathers, Declines, HoldsSameFacts};

    ghost steps = { Gathers };

    ghost refuses = { Declines };

    ghost same = { HoldsSameFacts };

    ghost use Rattle.walrus_facts.specs.Gathering.{same_facts, turned, chained};
    ghost use Rattle.walrus_facts.specs.Gathering.{gather_alike, decline_alike};

    ghost reflexive = { same_facts };

    ghost symmetric = { turned };

    ghost transitive = { chained };

    ghost steps_alike = { gather_alike };

    ghost refuses_alike = { decline_alike };

    fn start_instr_seq(&mut self, _seq: &InstrSeq) -> Result<(), WalkError> {
        Ok(())
    }

    fn end_instr_seq(&mut self, _seq: &InstrSeq) -> Result<(), WalkError> {
        Ok(())
    }

    fn visit_instr(&mut self, _instr: &Instr, _loc: &InstrLocId) -> Result<(), WalkError> {
        match self.facts.size.checked_add(1) {
            Some(size) => {
                self.facts.size = size;
                Ok(())
            }
            None => Err(WalkError::TooLarge),
        }
    }

    fn visit_data_id(&mut self, _data_id: &DataId) -> Result<(), WalkError> {
        self.facts.uses_data_segments = true;
        Ok(())
    }

    fn visit_local_id(&mut self, local: &LocalId) -> Result<(), WalkError> {
        self.facts.used_locals.insert(*local)?;
        Ok(())
    }

    fn visit_ref_func(&mut self, instr: &RefFunc) -> Result<(), WalkError> {
        self.facts.ref_funcs.push(instr.func)?;
        Ok(())
    }
}

/// The facts of a function agree with the other calls, if these succeed: the size in the facts is
/// the result of `size`, and they say that data segments are used exactly if the result of
/// `used_data_segments` contains one. `S` is the hasher of that set.
pub fn law_facts<S>()
    ensures size { FactsHaveSize }
    ensures uses_data_segments { FactsUseFound S }
{}
