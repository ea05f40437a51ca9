//! Functions made by hand.
use crate::lent::append;
use std::alloc::{AllocError, Global};
use walrus_ir::{
    Block, Br, Call, Const, FunctionBuilder, FunctionId, IfElse, Instr, InstrLocId, InstrSeqId,
    InstrSeqType, LegacyCatch, Load, LoadKind, LocalGet, LocalId, LocalSet, LocalTee, MemArg,
    MemoryId, TagId, Try, TypeId, Value,
};

/// An instruction, with the numbers of its ids.
#[derive(Clone, Copy)]
pub(crate) enum Made {
    /// `drop`.
    Drop,
    /// `i32.const` of this value.
    Const(u16),
    /// A block with the sequence in this slot.
    Block(usize),
    /// An `if` with the consequent and the alternative in these slots.
    IfElse(usize, usize),
    /// A branch to the sequence in this slot.
    Br(usize),
    /// A call of this function.
    Call(usize),
    /// `local.get` of this local.
    LocalGet(usize),
    /// `local.set` of this local.
    LocalSet(usize),
    /// `local.tee` of this local.
    LocalTee(usize),
    /// An `i32.load` with this alignment, in bytes.
    Load(u32),
}

pub(crate) fn instr(made: Made) -> Instr {
    match made {
        Made::Drop => Instr::Drop,
        Made::Const(value) => Instr::Const(Const {
            value: Value::I32(i32::from(value)),
        }),
        Made::Block(n) => Instr::Block(Block {
            seq: InstrSeqId::new(n),
        }),
        Made::IfElse(consequent, alternative) => Instr::IfElse(IfElse {
            consequent: InstrSeqId::new(consequent),
            alternative: InstrSeqId::new(alternative),
        }),
        Made::Br(n) => Instr::Br(Br {
            block: InstrSeqId::new(n),
        }),
        Made::Call(n) => Instr::Call(Call {
            func: FunctionId::new(n),
        }),
        Made::LocalGet(n) => Instr::LocalGet(LocalGet {
            local: LocalId::new(n),
        }),
        Made::LocalSet(n) => Instr::LocalSet(LocalSet {
            local: LocalId::new(n),
        }),
        Made::LocalTee(n) => Instr::LocalTee(LocalTee {
            local: LocalId::new(n),
        }),
        Made::Load(align) => Instr::Load(Load {
            memory: MemoryId::new(0),
            kind: LoadKind::I32 { atomic: false },
            arg: MemArg { align, offset: 0 },
        }),
    }
}

fn at(location: u16) -> InstrLocId {
    InstrLocId::new(u32::from(location))
}

/// Appends an instruction to the sequence in a slot, if there is one.
pub(crate) fn put(
    builder: &mut FunctionBuilder,
    slot: usize,
    made: Made,
    location: u16,
) -> Result<(), AllocError> {
    let seq = InstrSeqId::new(slot);
    match builder.has(seq) {
        true => append(builder, seq, instr(made), at(location)),
        false => Ok(()),
    }
}

/// An instruction, with the slot of its sequence before it and its location after it.
pub(crate) type Item = (usize, Made, u16);

/// Appends instructions.
pub(crate) fn put_all(builder: &mut FunctionBuilder, instrs: &[Item]) -> Result<(), AllocError> {
    for (slot, made, location) in instrs {
        put(builder, *slot, *made, *location)?;
    }
    Ok(())
}

/// A builder with this many sequences without parameters and results. The first is the entry.
pub(crate) fn sequences(alloc: Global, count: usize) -> Result<FunctionBuilder, AllocError> {
    let mut builder = FunctionBuilder::without_entry(alloc, TypeId::new(0));
    for _ in 0..count {
        builder.alloc(InstrSeqType::Simple(None))?;
    }
    builder.set_entry(InstrSeqId::new(0));
    Ok(builder)
}

/// A builder with this many sequences and with these instructions.
pub(crate) fn function(
    alloc: Global,
    count: usize,
    instrs: &[Item],
) -> Result<FunctionBuilder, AllocError> {
    let mut builder = sequences(alloc, count)?;
    put_all(&mut builder, instrs)?;
    Ok(builder)
}

/// Appends to the first sequence, if there is one, a `try` with the body in this slot and these
/// clauses.
pub(crate) fn put_try(
    builder: &mut FunctionBuilder,
    body: usize,
    clauses: &[LegacyCatch],
    location: u16,
) -> Result<(), AllocError> {
    let (first, seq) = (InstrSeqId::new(0), InstrSeqId::new(body));
    if !builder.has(first) {
        return Ok(());
    }
    let catches = Vec::from_slice(builder.allocator(), clauses)?;
    append(
        builder,
        first,
        Instr::Try(Try { seq, catches }),
        at(location),
    )
}

/// The instructions of `example` before its `try`.
const BEFORE_TRY: [Item; 22] = [
    (0, Made::Const(1), 1),
    (0, Made::Drop, 0),
    (0, Made::Block(1), 0),
    (0, Made::Const(6), 6),
    (0, Made::Drop, 0),
    (1, Made::Const(2), 2),
    (1, Made::Drop, 0),
    (1, Made::IfElse(2, 3), 0),
    (1, Made::Const(5), 5),
    (1, Made::Drop, 0),
    (2, Made::Const(3), 3),
    (2, Made::Drop, 0),
    (3, Made::Const(4), 4),
    (3, Made::Drop, 0),
    (4, Made::Const(7), 7),
    (4, Made::Drop, 0),
    (5, Made::Const(8), 8),
    (5, Made::Drop, 0),
    (6, Made::Const(9), 9),
    (6, Made::Drop, 0),
    (7, Made::Const(11), 11),
    (7, Made::Drop, 0),
];

// Appends the instructions of `example`, of which the `try` has the sequence 4 as its body, 5 for a
// `catch` and 6 for a `catch_all`.
fn put_example(builder: &mut FunctionBuilder) -> Result<(), AllocError> {
    put_all(builder, &BEFORE_TRY)?;
    let clauses = [
        LegacyCatch::Catch {
            tag: TagId::new(0),
            handler: InstrSeqId::new(5),
        },
        LegacyCatch::CatchAll {
            handler: InstrSeqId::new(6),
        },
    ];
    put_try(builder, 4, &clauses, 0)?;
    put_all(builder, &[(0, Made::Const(10), 10), (0, Made::Drop, 0)])
}

/// An entry of 8 instructions. It contains a block of 5, which contains an if-else of 2 and 2 and a
/// `try` with a body and two handlers of 2 each. One more sequence of 2 is in no other. The
/// location of each constant is its value.
pub(crate) fn example(alloc: Global) -> Result<FunctionBuilder, AllocError> {
    let mut builder = sequences(alloc, 8)?;
    put_example(&mut builder)?;
    Ok(builder)
}

/// This many sequences, each inside the one before.
pub(crate) fn deep(alloc: Global, depth: usize) -> Result<FunctionBuilder, AllocError> {
    let mut builder = sequences(alloc, depth.saturating_add(1))?;
    for slot in 0..depth {
        let next = Made::Block(slot.saturating_add(1));
        put(&mut builder, slot, next, 0)?;
    }
    Ok(builder)
}
