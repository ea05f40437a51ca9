//! Functions as text, to be compared with the expected text.

use std::alloc::AllocError;
use std::fmt;
use walrus_body::{IndexError, LocalFunction, ParseError};
use walrus_ir::{
    BrTable, Const, FunctionBuilder, Instr, InstrLocId, InstrSeq, InstrSeqId, InstrSeqType, Load,
    MemArg, MemoryId, Store, ValType, Value,
};
use wasm_ops::{Opcode, ReadError, binary_opcode, unary_opcode};

/// An opcode: its byte in hexadecimal, or its prefix byte and the number after it.
#[derive(Clone, Copy)]
pub(crate) struct Code(pub Opcode);

impl fmt::Display for Code {
    fn fmt<W: fmt::Write>(&self, f: &mut fmt::Formatter<W>) -> fmt::Result {
        match self.0 {
            Opcode::Byte(byte) => write!(f, "{byte:02x}"),
            Opcode::Prefixed(prefix, number) => write!(f, "{prefix:02x}.{number}"),
        }
    }
}

/// An instruction: its name, and the numbers of its ids.
#[derive(Clone, Copy)]
enum Shown<'a> {
    Word(&'static str),
    One(&'static str, usize),
    Two(&'static str, usize, usize),
    Labels(&'a BrTable),
    Constant(&'static str, i128),
    Numeric(Opcode),
    Select(Option<ValType>),
    Load(Load),
    Store(Store),
}

// The labels, and then the default.
fn write_labels<W: fmt::Write>(f: &mut fmt::Formatter<W>, table: &BrTable) -> fmt::Result {
    write!(f, "br_table")?;
    for block in &table.blocks {
        write!(f, " {}", block.index())?;
    }
    write!(f, " {}", table.default.index())
}

// An access: its kind, its memory, its alignment, and its offset.
fn write_access<W: fmt::Write, K: fmt::Debug>(
    f: &mut fmt::Formatter<W>,
    name: &str,
    kind: &K,
    memory: MemoryId,
    MemArg { align, offset }: MemArg,
) -> fmt::Result {
    write!(f, "{name} {kind:?} {} {align} {offset}", memory.index())
}

impl fmt::Display for Shown<'_> {
    fn fmt<W: fmt::Write>(&self, f: &mut fmt::Formatter<W>) -> fmt::Result {
        match self {
            Shown::Word(name) => write!(f, "{name}"),
            Shown::One(name, id) => write!(f, "{name} {id}"),
            Shown::Two(name, first, second) => write!(f, "{name} {first} {second}"),
            Shown::Labels(table) => write_labels(f, table),
            Shown::Constant(name, value) => write!(f, "{name} {value}"),
            Shown::Numeric(opcode) => write!(f, "{}", Code(*opcode)),
            Shown::Select(ty) => write!(f, "select {ty:?}"),
            Shown::Load(x) => write_access(f, "load", &x.kind, x.memory, x.arg),
            Shown::Store(x) => write_access(f, "store", &x.kind, x.memory, x.arg),
        }
    }
}

fn constant(value: Value) -> Shown<'static> {
    match value {
        Value::I32(value) => Shown::Constant("i32.const", i128::from(value)),
        Value::I64(value) => Shown::Constant("i64.const", i128::from(value)),
        Value::F32(bits) => Shown::Constant("f32.const", i128::from(bits)),
        Value::F64(bits) => Shown::Constant("f64.const", i128::from(bits)),
        _ => Shown::Word("const"),
    }
}

fn control(instr: &Instr) -> Shown<'_> {
    match instr {
        Instr::Block(x) => Shown::One("block", x.seq.index()),
        Instr::Loop(x) => Shown::One("loop", x.seq.index()),
        Instr::IfElse(x) => Shown::Two("if", x.consequent.index(), x.alternative.index()),
        Instr::Try(x) => Shown::Two("try", x.seq.index(), x.catches.len()),
        Instr::Br(x) => Shown::One("br", x.block.index()),
        Instr::BrIf(x) => Shown::One("br_if", x.block.index()),
        Instr::BrTable(x) => Shown::Labels(x),
        Instr::Call(x) => Shown::One("call", x.func.index()),
        Instr::CallIndirect(x) => Shown::Two("call_indirect", x.ty.index(), x.table.index()),
        Instr::Return => Shown::Word("return"),
        Instr::Unreachable => Shown::Word("unreachable"),
        Instr::Drop => Shown::Word("drop"),
        Instr::Const(Const { value }) => constant(*value),
        Instr::Unop(x) => Shown::Numeric(unary_opcode(x.op)),
        Instr::Binop(x) => Shown::Numeric(binary_opcode(x.op)),
        Instr::Select(x) => Shown::Select(x.ty),
        _ => storage(instr),
    }
}

fn storage(instr: &Instr) -> Shown<'_> {
    match instr {
        Instr::LocalGet(x) => Shown::One("local.get", x.local.index()),
        Instr::LocalSet(x) => Shown::One("local.set", x.local.index()),
        Instr::LocalTee(x) => Shown::One("local.tee", x.local.index()),
        Instr::GlobalGet(x) => Shown::One("global.get", x.global.index()),
        Instr::GlobalSet(x) => Shown::One("global.set", x.global.index()),
        Instr::TableGet(x) => Shown::One("table.get", x.table.index()),
        Instr::TableSet(x) => Shown::One("table.set", x.table.index()),
        Instr::TableGrow(x) => Shown::One("table.grow", x.table.index()),
        Instr::TableSize(x) => Shown::One("table.size", x.table.index()),
        Instr::TableFill(x) => Shown::One("table.fill", x.table.index()),
        Instr::TableInit(x) => Shown::Two("table.init", x.elem.index(), x.table.index()),
        Instr::TableCopy(x) => Shown::Two("table.copy", x.dst.index(), x.src.index()),
        Instr::ElemDrop(x) => Shown::One("elem.drop", x.elem.index()),
        Instr::MemorySize(x) => Shown::One("memory.size", x.memory.index()),
        Instr::MemoryGrow(x) => Shown::One("memory.grow", x.memory.index()),
        Instr::MemoryFill(x) => Shown::One("memory.fill", x.memory.index()),
        Instr::MemoryInit(x) => Shown::Two("memory.init", x.data_id.index(), x.memory.index()),
        Instr::MemoryCopy(x) => Shown::Two("memory.copy", x.dst.index(), x.src.index()),
        Instr::DataDrop(x) => Shown::One("data.drop", x.data_id.index()),
        Instr::Load(x) => Shown::Load(*x),
        Instr::Store(x) => Shown::Store(*x),
        _ => Shown::Word("other"),
    }
}

/// A location, or `-` for the default.
#[derive(Clone, Copy)]
pub(crate) struct At(pub InstrLocId);

impl fmt::Display for At {
    fn fmt<W: fmt::Write>(&self, f: &mut fmt::Formatter<W>) -> fmt::Result {
        if self.0.is_default() {
            write!(f, "-")
        } else {
            write!(f, "{}", self.0.data())
        }
    }
}

/// The type of a sequence: the number of a type, or its one result.
#[derive(Clone, Copy)]
pub(crate) struct Type(pub InstrSeqType);

impl fmt::Display for Type {
    fn fmt<W: fmt::Write>(&self, f: &mut fmt::Formatter<W>) -> fmt::Result {
        match self.0 {
            InstrSeqType::Simple(None) => write!(f, "()"),
            InstrSeqType::Simple(Some(ty)) => write!(f, "{ty:?}"),
            InstrSeqType::MultiValue(ty) => write!(f, "type{}", ty.index()),
        }
    }
}

/// Appends a sequence: its type, its instructions with their locations, and the location of its
/// end.
pub(crate) fn push_sequence(text: &mut String, seq: &InstrSeq) -> Result<(), AllocError> {
    write!(text, " {}[", Type(seq.ty))?;
    for (instr, location) in &seq.instrs {
        write!(text, " {}@{}", control(instr), At(*location))?;
    }
    write!(text, " ]{}", At(seq.end))?;
    Ok(())
}

/// All sequences of a builder, by their slots.
pub(crate) fn push_sequences(
    text: &mut String,
    builder: &FunctionBuilder,
) -> Result<(), AllocError> {
    for slot in 0..builder.count() {
        let id = InstrSeqId::new(slot);
        if builder.has(id) {
            push_sequence(text, builder.seq(id))?;
        }
    }
    Ok(())
}

/// Appends the places of a function's body, its mapping as pairs of a place and a location, and all
/// its sequences by their slots.
pub(crate) fn push_parsed_function(
    text: &mut String,
    function: &LocalFunction,
) -> Result<(), AllocError> {
    if let Some(range) = &function.original_range {
        write!(text, "{}..{}", range.start, range.end)?;
    }
    for (place, location) in &function.instruction_mapping {
        write!(text, " {place}:{}", location.data())?;
    }
    push_sequences(text, function.builder())
}

/// Why a body isn't parsed: the name of the fault, with its values.
#[derive(Clone, Copy)]
pub(crate) struct Fault(pub ParseError);

impl fmt::Display for Fault {
    fn fmt<W: fmt::Write>(&self, f: &mut fmt::Formatter<W>) -> fmt::Result {
        match self.0 {
            ParseError::Read(ReadError { fault, at }) => write!(f, "{fault:?} {at}"),
            ParseError::Index(IndexError::OutOfRange { space, index }) => {
                write!(f, "{space:?} {index}")
            }
            ParseError::Index(IndexError::LocalOutOfRange { index, .. }) => {
                write!(f, "LocalOutOfRange {index}")
            }
            error => write!(f, "{error:?}"),
        }
    }
}
