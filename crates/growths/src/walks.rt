//! Walks over the sequences of a function.

use crate::scenario::{Scenario, Selection};
use crate::text::{Text, push_error};
use std::alloc::{AllocError, Global};
use std::io;
use walrus_ir::{
    DataId, FunctionBuilder, Instr, InstrLocId, InstrSeq, InstrSeqId, LocalId, RefFunc, Visitor,
    WalkError, dfs_in_order,
};

/// An event of a walk: a letter for its kind, and the number of its sequence or id, or the location
/// of its instruction.
type Event = (char, usize);

/// A visitor that keeps the events, and counts its calls.
#[derive(Drop)]
struct Recorder {
    events: Vec<Event>,
    calls: usize,
}

impl Recorder {
    fn note(&mut self, kind: char, number: usize) -> Result<(), WalkError> {
        self.calls = self.calls.saturating_add(1);
        match self.events.push((kind, number)) {
            Ok(()) => Ok(()),
            Err(_) => Err(WalkError::Memory),
        }
    }
}

impl Visitor for Recorder {
    type Fault = WalkError;

    ghost steps = { λ _ _ _. Unit {0} };

    ghost refuses = { λ _ _ _. Unit {0} };

    ghost same = { λ _ _. Unit {0} };

    ghost reflexive = { λ _. tt };

    ghost symmetric = { λ _ _ _. tt };

    ghost transitive = { λ _ _ _ _ _. tt };

    ghost steps_alike = { λ _ _ _ _ _ _ _ _. tt };

    ghost refuses_alike = { λ _ _ _ _ _ _. tt };

    fn start_instr_seq(&mut self, seq: &InstrSeq) -> Result<(), WalkError> {
        self.note('s', seq.id().index())
    }

    fn end_instr_seq(&mut self, seq: &InstrSeq) -> Result<(), WalkError> {
        self.note('e', seq.id().index())
    }

    fn visit_instr(&mut self, _instr: &Instr, loc: &InstrLocId) -> Result<(), WalkError> {
        self.note('i', loc.data() as usize)
    }

    fn visit_data_id(&mut self, data_id: &DataId) -> Result<(), WalkError> {
        self.note('d', data_id.index())
    }

    fn visit_local_id(&mut self, local: &LocalId) -> Result<(), WalkError> {
        self.note('l', local.index())
    }

    fn visit_ref_func(&mut self, instr: &RefFunc) -> Result<(), WalkError> {
        self.note('f', instr.func.index())
    }
}

/// A walk, with all events that there are where memory is ample, and why the last one wasn't made or
/// ended early.
#[derive(Drop)]
struct Walk<'a> {
    builder: &'a FunctionBuilder,
    recorder: Recorder,
    all: &'a [Event],
    stop: Option<WalkError>,
}

/// Whether the visitor has the events that come first: of all its calls, or of all but the one that it
/// refused; and of none where the walk wasn't made.
fn is_front(walk: &Walk<'_>) -> bool {
    let events = walk.recorder.events.as_slice();
    let (calls, kept) = (walk.recorder.calls, events.len());
    let fits = match walk.stop {
        None => calls == kept,
        Some(WalkError::Memory) => calls == 0 || calls == kept.saturating_add(1),
        Some(_) => calls == 0,
    };
    fits && walk.all.starts_with(events)
}

fn visit(recorder: &mut Recorder, builder: &FunctionBuilder) -> Result<(), WalkError> {
    dfs_in_order(recorder, builder, InstrSeqId::new(0))
}

impl Scenario for Walk<'_> {
    fn call(&mut self, returned: &mut Text) -> Result<(), AllocError> {
        self.recorder.events.clear();
        self.recorder.calls = 0;
        self.stop = visit(&mut self.recorder, self.builder).err();
        match self.stop {
            None => write!(returned, " {:?}", self.recorder.events),
            Some(fault) => return push_error(returned, &fault, &WalkError::Memory),
        }
        Ok(())
    }

    /// The visitor's events are only shown where they aren't those that come first.
    fn show(&self, text: &mut Text) {
        if !is_front(self) {
            write!(text, " {:?}", self.recorder.events);
        }
    }
}

/// All events of a walk over a function; none where its sequences are no tree.
fn all_events(alloc: Global, builder: &FunctionBuilder) -> Result<Vec<Event>, AllocError> {
    let mut recorder = Recorder {
        events: Vec::new(alloc),
        calls: 0,
    };
    match visit(&mut recorder, builder) {
        Err(WalkError::Memory) => Err(AllocError),
        _ => Ok(recorder.events),
    }
}

/// Runs the scenario with a visitor that has room for so many events, and takes memory for more.
fn run_one(
    selection: Selection<'_>,
    builder: &FunctionBuilder,
    all: &[Event],
    call: &str,
    row: &str,
    room: usize,
) -> io::Result<()> {
    let events = Vec::with_capacity(selection.alloc(), room)?;
    let recorder = Recorder { events, calls: 0 };
    let mut walk = Walk {
        builder,
        recorder,
        all,
        stop: None,
    };
    selection.run(call, row, &mut walk)
}

/// Runs the scenarios of these calls that are selected, on a function.
pub(crate) fn run(
    selection: Selection<'_>,
    builder: &FunctionBuilder,
    row: &str,
) -> io::Result<()> {
    let all = all_events(selection.alloc(), builder)?;
    for (call, room) in &[("dfs_in_order", 60), ("dfs_in_order-recording", 0)] {
        run_one(selection, builder, &all, call, row, *room)?;
    }
    Ok(())
}
