//! The law on written operators: the contract of a function that does nothing.

ghost use Rattle.std.specs.Prelude.{◌≡◌};
ghost use Rattle.std.specs.List.{AllByRecursion};
ghost use Rattle.wasm_operators.specs.Fitting.{FitsLabel, FitsClause, FitsLane, FitsHeap, FitsValue, FitsBlock};
ghost use Rattle.wasm_operators.specs.Fitting.{AllFit, AreEncodable};
ghost use Rattle.wasm_operators.specs.Meaning.{meaning};
ghost use Rattle.wasm_operators.specs.Parts.{immediates_of};
ghost use Rattle.wasm_operators.specs.Shortest.{short};
ghost use Rattle.wasm_operators.specs.Spelling.{Spells};

use crate::out_operator::{OutClauses, OutImmediates, OutOp, OutTable, parts};
use wasm_operators::{BlockType, Immediates, RawCast, RawCatch, RawHeapType, RawValType};
use wasm_types::{RefType, ValType};

/// Labels fit their spellings.
fn law_labels(labels: &[u32])
    ensures { AllByRecursion FitsLabel labels.now }
{}

/// The numbers of a clause fit their spellings.
fn law_clause(clause: RawCatch)
    ensures { FitsClause clause }
{
    let RawCatch {
        tag,
        label: _label,
        ..
    } = clause;
    match tag {
        Some(_tag) => {}
        None => {}
    }
}

/// The numbers of clauses fit their spellings.
fn law_clauses(clauses: &[RawCatch])
    ensures { AllByRecursion FitsClause clauses.now }
{
    let mut left = clauses;
    'clauses: while let Some((clause, following)) = left.split_first() {
        law_clause(*clause);
        left = following;
    }
}

/// Lanes are bytes.
fn law_lanes(lanes: &[u8])
    ensures { AllByRecursion FitsLane lanes.now }
{
    let mut left = lanes;
    'lanes: while let Some((_lane, following)) = left.split_first() {
        left = following;
    }
}

/// If a heap type is an index, it fits its spelling.
fn law_heap_type(heap_type: RawHeapType)
    ensures { FitsHeap heap_type }
{
    match heap_type {
        RawHeapType::Abstract(_) => {}
        RawHeapType::Concrete(_index) => {}
    }
}

/// The numbers after the opcode of a branch on a cast fit their spellings.
fn law_cast(cast: RawCast)
    ensures label { FitsLabel cast.label }
    ensures source { FitsHeap cast.source }
    ensures target { FitsHeap cast.target }
{
    let RawCast {
        label: _label,
        source,
        target,
        ..
    } = cast;
    law_heap_type(source);
    law_heap_type(target);
}

/// If a value type contains an index, it fits its spelling.
fn law_value_type(ty: RawValType)
    ensures { FitsValue ty }
{
    if let ValType::Ref(RefType { heap_type, .. }) = ty {
        law_heap_type(heap_type);
    }
}

/// If a block type is an index or contains one, it fits its spelling.
fn law_block_type(ty: BlockType)
    ensures { FitsBlock ty }
{
    match ty {
        BlockType::Empty => {}
        BlockType::Value(ty) => law_value_type(ty),
        BlockType::FuncType(_index) => {}
    }
}

/// The numbers that follow an opcode fit their spellings.
fn law_fit(immediates: OutImmediates<'_>)
    requires { AreEncodable (immediates_of immediates) }
    ensures { AllFit (immediates_of immediates.entry) }
{
    match immediates {
        Immediates::Nothing => {}
        Immediates::Index(_, _index) => {}
        Immediates::Pair(_, _first, _, _second) => {}
        Immediates::IndexNumber(_, _index, _number) => {}
        Immediates::Local(_index) => {}
        Immediates::Label(_depth) => {}
        Immediates::Handler(_depth) => {}
        Immediates::Outer(_depth) => {}
        Immediates::Table(
            OutTable {
                targets,
                default: _default,
            },
        ) => law_labels(targets),
        Immediates::Access(_memarg) => {}
        Immediates::LaneAccess(_memarg, _idx) => {}
        Immediates::Block(ty) => law_block_type(ty),
        Immediates::Clauses(ty, OutClauses { clauses }) => {
            law_block_type(ty);
            law_clauses(clauses);
        }
        Immediates::Heap(heap_type) => law_heap_type(heap_type),
        Immediates::Value(ty) => law_value_type(ty),
        Immediates::Cast(cast) => law_cast(cast),
        Immediates::I32(_value) => {}
        Immediates::I64(_value) => {}
        Immediates::F32(_bits) => {}
        Immediates::F64(_bits) => {}
        Immediates::V128(_bits) => {}
        Immediates::Lane(_idx) => {}
        Immediates::Lanes(lanes) => law_lanes(&lanes),
        Immediates::ZeroByte => {}
    }
}

/// The numbers of an operator fit their spellings.
fn law_numbers(op: &OutOp<'_>)
    requires { AreEncodable (meaning op.now).immediates }
    ensures { AllFit (meaning op.now).immediates }
{
    let (_opcode, immediates) = parts(op);
    law_fit(immediates);
}

/// If the lists of an operator have fewer than 2^32 items and the exponent of its alignment is
/// below 32, its shortest spelling is one of its spellings. So the operator is read back from the
/// written bytes.
pub fn law_written(op: &OutOp<'_>)
    requires { AreEncodable (meaning op.now).immediates }
    ensures { Spells (meaning op.now) (short (meaning op.now)) }
{
    law_numbers(op);
}
