//! Visitors.

use crate::error::WalkError;
use crate::instr::{Instr, RefFunc};
use crate::location::InstrLocId;
use crate::seq::InstrSeq;
use wasm_types::{DataId, LocalId};

/// Receives the events of a walk. Each call may fail, which ends the walk; a call that fails leaves
/// the visitor as it was.
///
/// A visitor defines what its calls do. `steps s e t`: in state `s` it may accept the event `e`,
/// and is then in state `t`. `refuses s e f`: in state `s` it may refuse `e` with the fault `f`.
/// `same s t`: in state `t` it is as it was in state `s`.
pub trait Visitor {
    /// The error of a call, or of a walk that can't be made.
    type Fault: From<WalkError>;

    ghost use Rattle.std.specs.Prelude.{◌≡◌};
    ghost use Rattle.walrus_ir.specs.Events.{WalkEvent, StartSequence, EndSequence, VisitInstruction, VisitsOne};
    ghost use Rattle.walrus_ir.specs.Events.{NameFunction, NameLocal, NameData};
    ghost use Rattle.walrus_ir.specs.Events.{AreStepsAlike, AreRefusalsAlike};

    ghost steps: { Self → WalkEvent → Self → Type 0 };

    ghost refuses: { Self → WalkEvent → Self.Fault → Type 0 };

    ghost same: { Self → Self → Type 0 } = { λ s t. s ≡ t };

    /// A sequence begins.
    fn start_instr_seq(&mut self, seq: &InstrSeq) -> Result<(), Self::Fault>
        ensures { VisitsOne steps refuses same self.old (StartSequence seq.now) result self.new };

    /// A sequence ends.
    fn end_instr_seq(&mut self, seq: &InstrSeq) -> Result<(), Self::Fault>
        ensures { VisitsOne steps refuses same self.old (EndSequence seq.now) result self.new };

    /// An instruction. It comes before the item that it names and before the sequences in it.
    fn visit_instr(&mut self, instr: &Instr, loc: &InstrLocId) -> Result<(), Self::Fault>
        ensures { VisitsOne steps refuses same self.old
            (VisitInstruction instr.now loc.now) result self.new };

    /// The data segment that the instruction names.
    fn visit_data_id(&mut self, data_id: &DataId) -> Result<(), Self::Fault>
        ensures { VisitsOne steps refuses same self.old (NameData data_id.now) result self.new };

    /// The local that the instruction names.
    fn visit_local_id(&mut self, local: &LocalId) -> Result<(), Self::Fault>
        ensures { VisitsOne steps refuses same self.old (NameLocal local.now) result self.new };

    /// A `ref.func`, for the function that it names; `visit_instr` was called for it before.
    fn visit_ref_func(&mut self, instr: &RefFunc) -> Result<(), Self::Fault>
        ensures { VisitsOne steps refuses same self.old (NameFunction instr.now.func) result self.new };

    // `same` is an equivalence, and states that are the same accept and refuse the same events.
    ghost reflexive: { (s : Self) → same s s };

    ghost symmetric: { (s t : Self) → same s t → same t s };

    ghost transitive: { (s t u : Self) → same s t → same t u → same s u };

    ghost steps_alike: { AreStepsAlike same steps };

    ghost refuses_alike: { AreRefusalsAlike same refuses };
}
