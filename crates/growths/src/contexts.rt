//! Contexts of a parse.

use crate::bodies::Demo;
use crate::scenario::{Scenario, Selection};
use crate::text::{Text, push_error, push_location, push_numbers};
use std::alloc::{AllocError, Global};
use std::io;
use walrus_body::{ControlFrame, ParseError, ValidationContext};
use walrus_ir::{
    BlockKind, FunctionBuilder, Instr, InstrLocId, InstrSeq, InstrSeqId, LegacyCatch, Try, TypeId,
    ValType,
};
use wasm_ops::BlockType;

/// Which call is made.
#[derive(Clone, Copy)]
enum Kind {
    PushControl,
    PushControlWithTy,
    PushBlock,
    PopControl,
    Append,
    AppendIn,
    AddClause,
}

/// A context, and which call is made on it.
#[derive(Drop)]
struct OfContext<'a> {
    context: ValidationContext<'a>,
    kind: Kind,
}

/// Opens a frame, and returns its sequence.
fn open(context: &mut ValidationContext<'_>, kind: Kind) -> Result<InstrSeqId, ParseError> {
    let takes = [ValType::I32, ValType::I32];
    let gives = [ValType::I32];
    match kind {
        Kind::PushControl => context.push_control(BlockKind::Loop, &takes, &gives),
        Kind::PushControlWithTy => context.push_control_with_ty(BlockKind::If, TypeId::new(2)),
        _ => context.push_block(BlockKind::Block, BlockType::FuncType(2)),
    }
}

/// Adds to a frame.
fn add(context: &mut ValidationContext<'_>, kind: Kind) -> Result<(), ParseError> {
    let relative_depth = 0;
    let location = InstrLocId::new(9);
    match kind {
        Kind::Append => context.alloc_instr(Instr::Drop, location),
        Kind::AppendIn => context.alloc_instr_in_control(0, Instr::Unreachable, location),
        _ => context.add_legacy_catch(LegacyCatch::Delegate { relative_depth }),
    }
}

/// Closes a frame, and returns its sequence.
fn close(context: &mut ValidationContext<'_>) -> Result<InstrSeqId, ParseError> {
    match context.pop_control() {
        Ok(closed) => Ok(closed.1),
        Err(error) => Err(error),
    }
}

/// Makes a call, and returns the sequence that it opens or closes.
fn call_on(
    context: &mut ValidationContext<'_>,
    kind: Kind,
) -> Result<Option<InstrSeqId>, ParseError> {
    match kind {
        Kind::PushControl | Kind::PushControlWithTy | Kind::PushBlock => {
            match open(context, kind) {
                Ok(seq) => Ok(Some(seq)),
                Err(error) => Err(error),
            }
        }
        Kind::PopControl => match close(context) {
            Ok(seq) => Ok(Some(seq)),
            Err(error) => Err(error),
        },
        Kind::Append | Kind::AppendIn | Kind::AddClause => match add(context, kind) {
            Ok(()) => Ok(None),
            Err(error) => Err(error),
        },
    }
}

/// Appends an open frame: its kind, its sequence, how many values it takes and gives, and where its
/// instructions begin.
fn push_frame(text: &mut Text, frame: &ControlFrame) {
    let (takes, gives) = (frame.start_types.len(), frame.end_types.len());
    write!(text, " {:?}", frame.kind);
    push_numbers(text, &[frame.block.index(), takes, gives, frame.start]);
}

impl Scenario for OfContext<'_> {
    fn call(&mut self, returned: &mut Text) -> Result<(), AllocError> {
        match call_on(&mut self.context, self.kind) {
            Ok(Some(seq)) => push_numbers(returned, &[seq.index()]),
            Ok(None) => (),
            Err(error) => return push_error(returned, &error, &ParseError::Memory),
        }
        Ok(())
    }

    fn show(&self, text: &mut Text) {
        for n in 0..12 {
            if let Ok(frame) = self.context.control(n) {
                push_frame(text, frame);
            }
        }
    }
}

/// Appends a sequence: the locations of its instructions, of a `try` how many clauses it has, and
/// the location of its end.
fn push_sequence(text: &mut Text, seq: &InstrSeq) {
    text.push_str(" [");
    for (instr, location) in &seq.instrs {
        push_location(text, *location);
        if let Instr::Try(instr) = instr {
            write!(text, "+{}", instr.catches.len());
        }
        text.push(' ');
    }
    push_location(text, seq.end);
    text.push(']');
}

/// Appends the sequences of a function.
pub(crate) fn push_sequences(text: &mut Text, builder: &FunctionBuilder) {
    for slot in 0..14 {
        let id = InstrSeqId::new(slot);
        if builder.has(id) {
            push_sequence(text, builder.seq(id));
        }
    }
}

/// A context without a frame.
pub(crate) fn without_frame<'a>(alloc: Global, demo: &Demo<'a>) -> ValidationContext<'a> {
    ValidationContext::new(
        demo.module,
        demo.indices,
        demo.function,
        FunctionBuilder::without_entry(alloc, demo.ty),
        Vec::new(alloc),
        Vec::new(alloc),
    )
}

/// Adds a legacy `try` that has no clause. Whether that is done: else memory ran out.
fn add_try(alloc: Global, context: &mut ValidationContext<'_>) -> bool {
    let made = Instr::Try(Try {
        seq: InstrSeqId::new(1),
        catches: Vec::new(alloc),
    });
    context.alloc_instr(made, InstrLocId::new(5)).is_ok()
}

/// Opens a frame with such a `try`, and the frame of its body with an instruction. Whether that is
/// done: else memory ran out.
fn open_try(alloc: Global, context: &mut ValidationContext<'_>) -> bool {
    context
        .push_control(BlockKind::FunctionEntry, &[], &[])
        .is_ok()
        && add_try(alloc, context)
        && context.push_control(BlockKind::Try, &[], &[]).is_ok()
        && context.alloc_instr(Instr::Drop, InstrLocId::new(6)).is_ok()
}

/// Fills a context with such frames, and by so many calls. Whether that is done.
fn fill(alloc: Global, of: &mut OfContext<'_>, count: usize) -> bool {
    let mut is_done = open_try(alloc, &mut of.context);
    for _ in 0..count {
        is_done = is_done && call_on(&mut of.context, of.kind).is_ok();
    }
    is_done
}

/// Closes all frames.
fn close_all(context: &mut ValidationContext<'_>) -> Result<(), AllocError> {
    for _ in 0..14 {
        if let Err(ParseError::Memory) = close(context) {
            return Err(AllocError);
        }
    }
    Ok(())
}

/// Runs a scenario on a filled context, and closes all frames.
fn run_filled(
    selection: Selection<'_>,
    call: &str,
    row: &str,
    of: &mut OfContext<'_>,
    count: usize,
) -> io::Result<()> {
    if !fill(selection.alloc(), of, count) {
        return Err(io::Error::from(AllocError));
    }
    selection.run(call, row, of)?;
    close_all(&mut of.context)?;
    Ok(())
}

/// The function of a context.
fn builder_of(of: OfContext<'_>) -> FunctionBuilder {
    let OfContext { context, .. } = of;
    context.into_parts().0
}

fn print_sequences(selection: Selection<'_>, builder: &FunctionBuilder) -> io::Result<()> {
    let rt = selection.rt;
    let mut text = Text::new(rt.alloc());
    push_sequences(&mut text, builder);
    println!(rt; "end:{}", text.whole()?)
}

/// Runs a scenario after so many calls of it, and prints the sequences, if it is selected.
fn run_one(
    selection: Selection<'_>,
    demo: &Demo<'_>,
    call: &str,
    row: &str,
    kind: Kind,
    count: usize,
) -> io::Result<()> {
    if !selection.has(call, row) {
        return Ok(());
    }
    let context = without_frame(selection.alloc(), demo);
    let mut of = OfContext { context, kind };
    match run_filled(selection, call, row, &mut of, count) {
        Ok(()) => print_sequences(selection, &builder_of(of)),
        Err(error) => Err(error),
    }
}

/// The calls, each with a row and how many calls are made before: so that a list grows which is
/// empty, or has room for four items, which are there.
const CALLS: [(&str, &str, Kind, usize); 12] = [
    (
        "ValidationContext::push_control",
        "first",
        Kind::PushControl,
        0,
    ),
    (
        "ValidationContext::push_control",
        "full",
        Kind::PushControl,
        2,
    ),
    (
        "ValidationContext::push_control_with_ty",
        "first",
        Kind::PushControlWithTy,
        0,
    ),
    (
        "ValidationContext::push_control_with_ty",
        "full",
        Kind::PushControlWithTy,
        2,
    ),
    ("ValidationContext::push_block", "first", Kind::PushBlock, 0),
    ("ValidationContext::push_block", "full", Kind::PushBlock, 2),
    (
        "ValidationContext::pop_control",
        "first",
        Kind::PopControl,
        0,
    ),
    (
        "ValidationContext::pop_control",
        "last",
        Kind::PopControl,
        1,
    ),
    ("ValidationContext::alloc_instr", "full", Kind::Append, 2),
    (
        "ValidationContext::alloc_instr_in_control",
        "full",
        Kind::AppendIn,
        2,
    ),
    (
        "ValidationContext::add_legacy_catch",
        "first",
        Kind::AddClause,
        0,
    ),
    (
        "ValidationContext::add_legacy_catch",
        "full",
        Kind::AddClause,
        4,
    ),
];

/// Runs the scenarios of these calls that are selected.
pub(crate) fn run(selection: Selection<'_>, demo: &Demo<'_>) -> io::Result<()> {
    for (call, row, kind, count) in &CALLS {
        run_one(selection, demo, call, row, *kind, *count)?;
    }
    Ok(())
}
