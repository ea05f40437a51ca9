//! Contexts of a parse, with calls made by hand.
use crate::by_hand::{Made, instr};
use crate::function_text::push_sequences;
use crate::small_module::Example;
use std::alloc::{AllocError, Global};
use std::process::Abort;
use std::test::Fail;
use walrus_body::{ControlFrame, ParseError, ValidationContext};
use walrus_ir::{
    BlockKind, FunctionBuilder, FunctionId, Instr, InstrLocId, InstrSeqId, LegacyCatch, Try,
    TypeId, ValType,
};

/// A call of a context.
#[derive(Clone, Copy)]
enum Step {
    /// `push_control` of a frame with these numbers of `i32` parameters and results.
    Push(BlockKind, usize, usize),
    PushWithTy(BlockKind, usize),
    Pop,
    Kill,
    Show(usize),
    /// `alloc_instr`, at a location.
    Put(Made, u16),
    /// `alloc_instr` of a `try` of a sequence, without clauses.
    PutTry(usize),
    /// `alloc_instr_in_control` of the innermost frame.
    PutHere(Made, u16),
    /// `push_control` of a block, and `alloc_instr_in_control` of the frame around it, with the
    /// start of the block before and after.
    PutAround(Made, u16),
    /// The same with two blocks, and for the frame around both.
    PutOutside(Made, u16),
    /// `add_legacy_catch`.
    Delegate(u32),
}

// Appends a frame.
fn push_frame(text: &mut String, frame: &ControlFrame) -> Result<(), AllocError> {
    let (block, start) = (frame.block.index(), frame.start);
    let life = if frame.unreachable { "dead" } else { "alive" };
    let (takes, gives) = (frame.start_types.as_slice(), frame.end_types.as_slice());
    write!(
        text,
        " {:?} {block} {life} {takes:?} {gives:?} {start}",
        frame.kind
    )
}

// Appends the result of a call that returns nothing.
fn push_done(text: &mut String, returned: Result<(), ParseError>) -> Result<(), AllocError> {
    match returned {
        Ok(()) => write!(text, " ok"),
        Err(error) => write!(text, " {error:?}"),
    }
}

// Appends the result of a call that returns a sequence.
fn push_opened(
    text: &mut String,
    returned: Result<InstrSeqId, ParseError>,
) -> Result<(), AllocError> {
    match returned {
        Ok(seq) => write!(text, " {}", seq.index()),
        Err(error) => write!(text, " {error:?}"),
    }
}

// Appends a frame that was closed, and its sequence.
fn push_closed(text: &mut String, frame: &ControlFrame, seq: InstrSeqId) -> Result<(), AllocError> {
    push_frame(text, frame)?;
    write!(text, " of {}", seq.index())
}

fn pop(context: &mut ValidationContext<'_>, text: &mut String) -> Result<(), AllocError> {
    match context.pop_control() {
        Ok((frame, seq)) => push_closed(text, &frame, seq),
        Err(error) => write!(text, " {error:?}"),
    }
}

fn show(context: &ValidationContext<'_>, n: usize, text: &mut String) -> Result<(), AllocError> {
    match context.control(n) {
        Ok(frame) => push_frame(text, frame),
        Err(error) => write!(text, " {error:?}"),
    }
}

// Appends where the instructions of the n-th frame from the innermost begin.
fn push_start(
    context: &ValidationContext<'_>,
    n: usize,
    text: &mut String,
) -> Result<(), AllocError> {
    match context.control(n) {
        Ok(frame) => write!(text, " {}", frame.start),
        Err(error) => write!(text, " {error:?}"),
    }
}

fn at(location: u16) -> InstrLocId {
    InstrLocId::new(u32::from(location))
}

// Appends an instruction with `alloc_instr`.
fn put(context: &mut ValidationContext<'_>, made: Made, location: u16) -> Result<(), ParseError> {
    context.alloc_instr(instr(made), at(location))
}

// Appends an instruction to the innermost frame with `alloc_instr_in_control`.
fn put_here(
    context: &mut ValidationContext<'_>,
    made: Made,
    location: u16,
) -> Result<(), ParseError> {
    context.alloc_instr_in_control(0, instr(made), at(location))
}

// Appends a `try` of a sequence, without clauses.
fn put_try(
    alloc: Global,
    context: &mut ValidationContext<'_>,
    seq: usize,
) -> Result<(), ParseError> {
    let made = Instr::Try(Try {
        seq: InstrSeqId::new(seq),
        catches: Vec::new(alloc),
    });
    context.alloc_instr(made, at(0))
}

fn put_around(
    context: &mut ValidationContext<'_>,
    made: Made,
    location: u16,
    text: &mut String,
) -> Result<(), AllocError> {
    if let Err(error) = context.push_control(BlockKind::Block, &[], &[]) {
        return write!(text, " {error:?}");
    }
    push_start(context, 0, text)?;
    let returned = context.alloc_instr_in_control(1, instr(made), at(location));
    push_done(text, returned)?;
    push_start(context, 0, text)
}

fn put_outside(
    context: &mut ValidationContext<'_>,
    made: Made,
    location: u16,
    text: &mut String,
) -> Result<(), AllocError> {
    if let Err(error) = context.push_control(BlockKind::Block, &[], &[]) {
        return write!(text, " {error:?}");
    }
    if let Err(error) = context.push_control(BlockKind::Block, &[], &[]) {
        return write!(text, " {error:?}");
    }
    push_start(context, 1, text)?;
    push_start(context, 0, text)?;
    let returned = context.alloc_instr_in_control(2, instr(made), at(location));
    push_done(text, returned)?;
    push_start(context, 1, text)?;
    push_start(context, 0, text)
}

// Makes a call, and appends its result.
fn call(
    alloc: Global,
    context: &mut ValidationContext<'_>,
    step: Step,
    text: &mut String,
) -> Result<(), AllocError> {
    match step {
        Step::Push(kind, takes, gives) => {
            let lists = [ValType::I32, ValType::I32];
            let (takes, gives) = (&lists[..takes.min(2)], &lists[..gives.min(2)]);
            push_opened(text, context.push_control(kind, takes, gives))
        }
        Step::PushWithTy(kind, ty) => {
            push_opened(text, context.push_control_with_ty(kind, TypeId::new(ty)))
        }
        Step::Pop => pop(context, text),
        Step::Kill => push_done(text, context.unreachable()),
        Step::Show(n) => show(context, n, text),
        Step::Put(made, location) => push_done(text, put(context, made, location)),
        Step::PutTry(seq) => push_done(text, put_try(alloc, context, seq)),
        Step::PutHere(made, location) => push_done(text, put_here(context, made, location)),
        Step::PutAround(made, location) => put_around(context, made, location, text),
        Step::PutOutside(made, location) => put_outside(context, made, location, text),
        Step::Delegate(relative_depth) => {
            let clause = LegacyCatch::Delegate { relative_depth };
            push_done(text, context.add_legacy_catch(clause))
        }
    }
}

// Makes calls, and appends the result of each.
fn make_calls(
    alloc: Global,
    context: &mut ValidationContext<'_>,
    steps: &[Step],
    text: &mut String,
) -> Result<(), AllocError> {
    for step in steps {
        call(alloc, context, *step, text)?;
    }
    Ok(())
}

// Appends a bar, the open frames, and all sequences.
fn push_parts(
    text: &mut String,
    controls: &[ControlFrame],
    builder: &FunctionBuilder,
) -> Result<(), AllocError> {
    text.push_str(" |")?;
    for frame in controls {
        push_frame(text, frame)?;
    }
    push_sequences(text, builder)
}

fn push_context(text: &mut String, context: ValidationContext<'_>) -> Result<(), AllocError> {
    let (builder, controls, _instrs) = context.into_parts();
    push_parts(text, controls.as_slice(), &builder)
}

// Appends the results of calls in a context without open frames, and then a bar, the frames that
// are open after the calls, and all sequences.
fn push_called(text: &mut String, example: &Example, steps: &[Step]) -> Result<(), AllocError> {
    let alloc = *text.allocator();
    let mut context = ValidationContext::new(
        &example.module,
        &example.indices,
        FunctionId::new(12),
        FunctionBuilder::without_entry(alloc, TypeId::new(0)),
        Vec::new(alloc),
        Vec::new(alloc),
    );
    match make_calls(alloc, &mut context, steps, text) {
        Ok(()) => push_context(text, context),
        Err(error) => Err(error),
    }
}

// Makes the calls with a module.
fn check_calls(rt: &impl Abort, alloc: Global, example: &Example) -> Result<(), Fail> {
    for (steps, expected) in &CALLS {
        let mut found = String::new(alloc);
        push_called(&mut found, example, steps)?;
        assert_eq!(rt; found.as_str(), *expected);
    }
    Ok(())
}

const ENTRY: Step = Step::Push(BlockKind::FunctionEntry, 0, 0);

const BLOCK: Step = Step::Push(BlockKind::Block, 0, 0);

const TRY: Step = Step::Push(BlockKind::Try, 0, 0);

// Calls in a context without open frames, and their results.
const CALLS: [(&[Step], &str); 12] = [
    // Frames are opened, shown and closed, each with its own instructions.
    (
        &[
            ENTRY,
            Step::Put(Made::Drop, 6),
            Step::Push(BlockKind::Loop, 0, 1),
            Step::Put(Made::Call(3), 7),
            Step::Kill,
            Step::Put(Made::Drop, 8),
            Step::Pop,
        ],
        " 0 ok 1 ok ok ok Loop 1 dead [] [I32] 1 of 1 | FunctionEntry 0 alive [] [] 0 \
        ()[ ]- I32[ call 3@7 ]-",
    ),
    (
        &[
            Step::PushWithTy(BlockKind::FunctionEntry, 4),
            Step::Put(Made::Drop, 6),
            Step::PushWithTy(BlockKind::If, 2),
            Step::Push(BlockKind::Block, 1, 1),
            Step::Kill,
            Step::Show(0),
            Step::Show(1),
            Step::Show(2),
            Step::Show(3),
        ],
        " 0 ok 1 2 ok Block 2 dead [I32] [I32] 1 If 1 alive [I32] [I32] 1 \
        FunctionEntry 0 alive [] [] 0 NoSuchLabel | FunctionEntry 0 alive [] [] 0 \
        If 1 alive [I32] [I32] 1 Block 2 dead [I32] [I32] 1 type4[ ]- type2[ ]- type1[ ]-",
    ),
    // Instructions are appended to the innermost frame or to the one around it; none are appended to
    // a dead frame.
    (
        &[
            ENTRY,
            Step::PutAround(Made::Drop, 6),
            Step::PutHere(Made::Call(3), 7),
            Step::Pop,
            Step::Kill,
            Step::PutAround(Made::Drop, 8),
            Step::Pop,
            Step::Pop,
        ],
        " 0 0 ok 1 ok Block 1 alive [] [] 1 of 1 ok 1 ok 1 Block 2 alive [] [] 1 of 2 \
        FunctionEntry 0 dead [] [] 0 of 0 | ()[ drop@6 ]- ()[ call 3@7 ]- ()[ ]-",
    ),
    // An instruction in a frame around others moves their starts, unless it is dropped.
    (
        &[
            ENTRY,
            Step::Put(Made::Drop, 6),
            Step::PutAround(Made::Block(1), 7),
            Step::Put(Made::Const(5), 8),
            Step::Pop,
            Step::Pop,
        ],
        " 0 ok 1 ok 2 ok Block 1 alive [] [] 2 of 1 FunctionEntry 0 alive [] [] 0 of 0 | \
        ()[ drop@6 block 1@7 ]- ()[ i32.const 5@8 ]-",
    ),
    (
        &[
            ENTRY,
            Step::Put(Made::Drop, 6),
            Step::PutOutside(Made::Call(3), 7),
            Step::Pop,
            Step::Pop,
            Step::Pop,
        ],
        " 0 ok 1 1 ok 2 2 Block 2 alive [] [] 2 of 2 Block 1 alive [] [] 2 of 1 \
        FunctionEntry 0 alive [] [] 0 of 0 | ()[ drop@6 call 3@7 ]- ()[ ]- ()[ ]-",
    ),
    (
        &[
            ENTRY,
            Step::Put(Made::Drop, 6),
            Step::Kill,
            Step::PutOutside(Made::Call(3), 7),
        ],
        " 0 ok ok 1 1 ok 1 1 | FunctionEntry 0 dead [] [] 0 Block 1 alive [] [] 1 \
        Block 2 alive [] [] 1 ()[ ]- ()[ ]- ()[ ]-",
    ),
    // A clause is added to the `try` at the end of the frame around, or dropped if that frame is
    // dead.
    (
        &[
            ENTRY,
            Step::Delegate(4),
            Step::PutTry(1),
            TRY,
            Step::Delegate(4),
            Step::Put(Made::Drop, 8),
            BLOCK,
            Step::Delegate(4),
            Step::Pop,
            Step::Pop,
            Step::Pop,
        ],
        " 0 NoSuchLabel ok 1 ok ok 2 NoTry Block 2 alive [] [] 2 of 2 \
        Try 1 alive [] [] 1 of 1 FunctionEntry 0 alive [] [] 0 of 0 | \
        ()[ try 1 1@0 ]- ()[ drop@8 ]- ()[ ]-",
    ),
    (
        &[
            ENTRY,
            Step::PutTry(1),
            TRY,
            Step::Put(Made::Drop, 8),
            Step::Delegate(4),
            Step::Pop,
            Step::Pop,
        ],
        " 0 ok 1 ok ok Try 1 alive [] [] 1 of 1 FunctionEntry 0 alive [] [] 0 of 0 | \
        ()[ try 1 1@0 ]- ()[ drop@8 ]-",
    ),
    (
        &[ENTRY, BLOCK, Step::Put(Made::Drop, 8), Step::Delegate(4)],
        " 0 1 ok NoTry | FunctionEntry 0 alive [] [] 0 Block 1 alive [] [] 0 ()[ ]- ()[ ]-",
    ),
    (
        &[ENTRY, Step::Kill, Step::PutTry(1), TRY, Step::Delegate(4)],
        " 0 ok ok 1 ok | FunctionEntry 0 dead [] [] 0 Try 1 alive [] [] 0 ()[ ]- ()[ ]-",
    ),
    // Calls are refused if no frame is open, and for frames whose type the module doesn't have.
    (
        &[
            Step::Put(Made::Drop, 1),
            Step::PutHere(Made::Drop, 1),
            Step::Pop,
            Step::Kill,
            Step::Show(0),
            Step::Delegate(0),
            Step::PutAround(Made::Drop, 1),
        ],
        " NoFrame NoSuchLabel NoFrame NoFrame NoSuchLabel NoSuchLabel 0 NoSuchLabel 0 | \
        Block 0 alive [] [] 0 ()[ ]-",
    ),
    (
        &[
            Step::Push(BlockKind::Block, 0, 2),
            Step::Push(BlockKind::Block, 1, 0),
            Step::Push(BlockKind::Block, 2, 1),
            Step::PushWithTy(BlockKind::Block, 3),
            Step::PushWithTy(BlockKind::Block, 7),
        ],
        " TypeMissing TypeMissing TypeMissing NotAFunctionType NotAFunctionType |",
    ),
];

/// The results of calls, and the frames and sequences after them.
#[test]
fn makes_calls(rt: HostRuntime) -> Result<(), Fail> {
    let example = Example::new(rt.alloc(), 0)?;
    check_calls(&rt, rt.alloc(), &example)
}
