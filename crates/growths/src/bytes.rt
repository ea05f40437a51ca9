//! Bytes that are written: operators, declarations, and bytes as they are.
ghost use Rattle.wasm_encode.specs.Writable.{IsWritable};
ghost use Rattle.wasm_operators.specs.Meaning.{meaning};

use crate::scenario::{Scenario, Selection};
use crate::text::{Text, push_bytes};
use std::alloc::{AllocError, Global};
use std::io;
use walrus_ir::LoadKind;
use wasm_encode::{FunctionEncoder, OutClauses, OutOp, OutTable, write_op};
use wasm_ops::{BlockType, RawCatch, RawMemArg, RawValType};

/// An operator.
#[derive(Clone, Copy)]
enum Written {
    Const,
    Load,
    Loop,
    If,
    BrIf,
    CallIndirect,
    Table,
    Clauses,
    Bits,
}

/// Which call is made.
#[derive(Clone, Copy)]
enum Kind {
    Write(Written),
    New,
    Raw,
}

/// A list and an encoder, which are written into.
#[derive(Drop)]
struct Output {
    bytes: Vec<u8>,
    encoder: FunctionEncoder,
    kind: Kind,
}

/// The operator, with these labels of a table or these clauses.
fn operator<'a>(written: Written, targets: &'a [u32], clauses: &'a [RawCatch]) -> OutOp<'a>
    ensures { IsWritable (meaning result) }
{
    match written {
        Written::Const => OutOp::I32Const { value: 624485 },
        Written::Load => OutOp::Load {
            kind: LoadKind::I32 { atomic: false },
            memarg: RawMemArg {
                exponent: 2,
                memory: 0,
                offset: 4294967296,
            },
        },
        Written::Loop => OutOp::Loop {
            ty: BlockType::FuncType(64),
        },
        Written::If => OutOp::If {
            ty: BlockType::Value(RawValType::F64),
        },
        Written::BrIf => OutOp::BrIf { label: 128 },
        Written::CallIndirect => OutOp::CallIndirect { ty: 3, table: 1 },
        Written::Table => OutOp::BrTable(OutTable {
            targets,
            default: 1,
        }),
        Written::Clauses => OutOp::TryTable {
            ty: BlockType::Empty,
            catches: OutClauses { clauses },
        },
        Written::Bits => OutOp::V128Const { bits: 1 },
    }
}

/// A clause with this tag, or one that catches all and passes a reference.
fn clause(tag: Option<u32>, label: u32) -> RawCatch {
    RawCatch {
        by_reference: tag.is_none(),
        tag,
        label,
    }
}

/// Appends an operator to the list, or the constant of a vector to the encoder.
fn write(output: &mut Output, written: Written) -> Result<(), AllocError> {
    let clauses = [clause(Some(5), 0), clause(None, 2)];
    let targets = [0, 300];
    let op = operator(written, &targets, &clauses);
    match written {
        Written::Bits => output.encoder.instruction(&op),
        _ => write_op(&op, &mut output.bytes),
    }
}

/// Appends the bytes of an encoder of five declarations.
fn push_declaring(text: &mut Text, alloc: Global) -> Result<(), AllocError> {
    let encoder = FunctionEncoder::new(alloc, &[(2, RawValType::I64); 5])?;
    push_bytes(text, encoder.bytes());
    Ok(())
}

impl Scenario for Output {
    fn call(&mut self, returned: &mut Text) -> Result<(), AllocError> {
        match self.kind {
            Kind::Write(written) => write(self, written),
            Kind::New => push_declaring(returned, *self.bytes.allocator()),
            Kind::Raw => self.encoder.raw(&[1, 2, 3, 4, 5, 6, 7, 8]),
        }
    }

    fn show(&self, text: &mut Text) {
        push_bytes(text, &self.bytes);
        push_bytes(text, self.encoder.bytes());
    }
}

/// The calls, each with a row and how many calls are made before: so that a list grows which is
/// empty, or whose room is used up.
const CALLS: [(&str, &str, Kind, usize); 15] = [
    ("write_op-const", "first", Kind::Write(Written::Const), 0),
    ("write_op-const", "full", Kind::Write(Written::Const), 2),
    ("write_op-load", "first", Kind::Write(Written::Load), 0),
    ("write_op-loop", "first", Kind::Write(Written::Loop), 0),
    ("write_op-if", "first", Kind::Write(Written::If), 0),
    ("write_op-br_if", "first", Kind::Write(Written::BrIf), 0),
    (
        "write_op-call_indirect",
        "first",
        Kind::Write(Written::CallIndirect),
        0,
    ),
    ("write_op-table", "first", Kind::Write(Written::Table), 0),
    ("write_op-table", "full", Kind::Write(Written::Table), 2),
    (
        "write_op-clauses",
        "first",
        Kind::Write(Written::Clauses),
        0,
    ),
    ("FunctionEncoder::new", "first", Kind::New, 0),
    (
        "FunctionEncoder::instruction",
        "first",
        Kind::Write(Written::Bits),
        0,
    ),
    (
        "FunctionEncoder::instruction",
        "full",
        Kind::Write(Written::Bits),
        3,
    ),
    ("FunctionEncoder::raw", "first", Kind::Raw, 0),
    ("FunctionEncoder::raw", "full", Kind::Raw, 3),
];

/// Runs a scenario after so many calls of it.
fn run_one(
    selection: Selection<'_>,
    call: &str,
    row: &str,
    kind: Kind,
    count: usize,
) -> io::Result<()> {
    let alloc = selection.alloc();
    let encoder = FunctionEncoder::new(alloc, &[])?;
    let mut output = Output {
        bytes: Vec::new(alloc),
        encoder,
        kind,
    };
    selection.run_after(count, call, row, &mut output)
}

/// Runs the scenarios of these calls that are selected.
pub(crate) fn run(selection: Selection<'_>) -> io::Result<()> {
    for (call, row, kind, count) in &CALLS {
        run_one(selection, call, row, *kind, *count)?;
    }
    Ok(())
}
