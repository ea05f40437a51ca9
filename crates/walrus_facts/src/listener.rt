//! Visitors that say nothing of what their calls do.

use walrus_ir::{DataId, Instr, InstrLocId, InstrSeq, LocalId, RefFunc, Visitor, WalkError};

/// Receives the events of a walk, as a `Visitor` does, but says nothing of what its calls do. So
/// there is nothing to prove, and nothing is known of it after the walk. A call that isn't defined
/// does nothing.
pub trait Listener {
    /// The error of a call, or of a walk that can't be made.
    type Fault: From<WalkError>;

    /// A sequence begins.
    fn start_instr_seq(&mut self, _seq: &InstrSeq) -> Result<(), Self::Fault> {
        Ok(())
    }

    /// A sequence ends.
    fn end_instr_seq(&mut self, _seq: &InstrSeq) -> Result<(), Self::Fault> {
        Ok(())
    }

    /// An instruction. It comes before the item that it names and before the sequences in it.
    fn visit_instr(&mut self, _instr: &Instr, _loc: &InstrLocId) -> Result<(), Self::Fault> {
        Ok(())
    }

    /// The data segment that the instruction names.
    fn visit_data_id(&mut self, _data_id: &DataId) -> Result<(), Self::Fault> {
        Ok(())
    }

    /// The local that the instruction names.
    fn visit_local_id(&mut self, _local: &LocalId) -> Result<(), Self::Fault> {
        Ok(())
    }

    /// A `ref.func`, for the function that it names; `visit_instr` was called for it before.
    fn visit_ref_func(&mut self, _instr: &RefFunc) -> Result<(), Self::Fault> {
        Ok(())
    }
}

/// A visitor that passes each event on to a listener. It may accept every event, and refuse it with
/// every fault of the listener; a refusal may change it. What `dfs_in_order` says of it is which
/// sequences are walked, and which faults come before the first call.
#[derive(Drop)]
pub struct Listening<L>(pub L);

impl<L: Listener> Visitor for Listening<L> {
    type Fault = L::Fault;

    ghost steps = { λ _ _ _. Unit {0} };

    ghost refuses = { λ _ _ _. Unit {0} };

    ghost same = { λ _ _. Unit {0} };

    ghost reflexive = { λ _. tt };

    ghost symmetric = { λ _ _ _. tt };

    ghost transitive = { λ _ _ _ _ _. tt };

    ghost steps_alike = { λ _ _ _ _ _ _ _ _. tt };

    ghost refuses_alike = { λ _ _ _ _ _ _. tt };

    fn start_instr_seq(&mut self, seq: &InstrSeq) -> Result<(), L::Fault> {
        self.0.start_instr_seq(seq)
    }

    fn end_instr_seq(&mut self, seq: &InstrSeq) -> Result<(), L::Fault> {
        self.0.end_instr_seq(seq)
    }

    fn visit_instr(&mut self, instr: &Instr, loc: &InstrLocId) -> Result<(), L::Fault> {
        self.0.visit_instr(instr, loc)
    }

    fn visit_data_id(&mut self, data_id: &DataId) -> Result<(), L::Fault> {
        self.0.visit_data_id(data_id)
    }

    fn visit_local_id(&mut self, local: &LocalId) -> Result<(), L::Fault> {
        self.0.visit_local_id(local)
    }

    fn visit_ref_func(&mut self, instr: &RefFunc) -> Result<(), L::Fault> {
        self.0.visit_ref_func(instr)
    }
}
