//! Laws of encodings. Each is the contract of a function that does nothing.

ghost use Rattle.std.specs.Prelude.{◌≡◌, true};
ghost use Rattle.wasm_operators.specs.Meaning.{meaning};
ghost use Rattle.wasm_numbers.specs.Numbers.{IsU32, IsU64, IsS32, IsS33, IsS64};
ghost use Rattle.wasm_operators.specs.Spelling.{Spells};
ghost use Rattle.wasm_operators.specs.Shortest.{short_number, short_integer, short};
ghost use Rattle.wasm_operators.specs.Laws.{ReadingAgrees, OneSpelling, ListsAgree, OneList, IsShortest};

use crate::branch_table::BrTable;
use crate::catch_list::CatchList;
use crate::immediates::Immediates;
use crate::operator::Operator;
use crate::types::{BlockType, Opcode, RawCast, RawHeapType, RawValType, Space};

/// An operator that is encoded at the front of some bytes is read there, and an operator that is
/// read at the front of some bytes is encoded by the bytes that are taken.
pub fn law_reading()
    ensures { ReadingAgrees }
{}

/// No encoding is a prefix of another, and none encodes two operators.
pub fn law_one_spelling()
    ensures { OneSpelling Spells }
{}

/// The same bytes encode at most one list of operators.
pub fn law_one_list()
    ensures fronts { ListsAgree }
    ensures whole { OneList }
{}

/// If a number has an encoding, the shortest is one of its encodings, and every other is longer.
pub fn law_shortest_number()
    ensures of_u32 { IsShortest short_number IsU32 }
    ensures of_u64 { IsShortest short_number IsU64 }
    ensures of_s32 { IsShortest short_integer IsS32 }
    ensures of_s33 { IsShortest short_integer IsS33 }
    ensures of_s64 { IsShortest short_integer IsS64 }
{}

/// If an operator has an encoding, the shortest is one of its encodings, and every other is longer.
pub fn law_shortest()
    ensures { IsShortest short Spells }
{}

/// The immediates of an operator.
type OperatorImmediates<'a> = Immediates<BrTable<'a>, CatchList<'a>>;

/// Opcodes compare as equal exactly if they are the same.
fn same_opcode(a: &Opcode, b: &Opcode) -> bool
    ensures compares { result ≡ ⟦<Opcode as PartialEq>⟧.eq a.now b.now }
    ensures same { result ≡ true → a.now ≡ b.now }
    ensures equal { a.now ≡ b.now → result ≡ true }
{
    a == b
}

/// Spaces compare as equal exactly if they are the same.
fn same_space(a: &Space, b: &Space) -> bool
    ensures compares { result ≡ ⟦<Space as PartialEq>⟧.eq a.now b.now }
    ensures same { result ≡ true → a.now ≡ b.now }
{
    a == b
}

/// Value types compare as equal exactly if they are the same.
fn same_value_type(a: &RawValType, b: &RawValType) -> bool
    ensures compares { result ≡ ⟦<RawValType as PartialEq>⟧.eq a.now b.now }
    ensures same { result ≡ true → a.now ≡ b.now }
{
    a == b
}

/// Heap types compare as equal exactly if they are the same.
fn same_heap_type(a: &RawHeapType, b: &RawHeapType) -> bool
    ensures compares { result ≡ ⟦<RawHeapType as PartialEq>⟧.eq a.now b.now }
    ensures same { result ≡ true → a.now ≡ b.now }
{
    a == b
}

/// Casts compare as equal exactly if they are the same.
fn same_cast(a: &RawCast, b: &RawCast) -> bool
    ensures compares { result ≡ ⟦<RawCast as PartialEq>⟧.eq a.now b.now }
    ensures same { result ≡ true → a.now ≡ b.now }
{
    let _source = same_heap_type(&a.source, &b.source);
    let _target = same_heap_type(&a.target, &b.target);
    a == b
}

/// Sixteen lanes compare as equal exactly if they are the same.
#[tactic(auto, using(crate::proofs::SameLists::same_lists))]
fn same_lanes(a: &[u8; 16], b: &[u8; 16]) -> bool
    ensures compares { result ≡ ⟦<[u8; 16] as PartialEq>⟧.eq a.now b.now }
    ensures same { result ≡ true → a.now ≡ b.now }
{
    a == b
}

/// Block types compare as equal exactly if they are the same.
fn same_block_type(a: &BlockType, b: &BlockType) -> bool
    ensures compares { result ≡ ⟦<BlockType as PartialEq>⟧.eq a.now b.now }
    ensures same { result ≡ true → a.now ≡ b.now }
{
    if let (BlockType::Value(ty), BlockType::Value(other)) = (a, b) {
        let _same = same_value_type(ty, other);
    }
    a == b
}

/// Lists of clauses compare as equal exactly if they are the same.
#[tactic(auto, using(crate::proofs::SameLists::same_clauses))]
fn same_clauses(a: &CatchList<'_>, b: &CatchList<'_>) -> bool
    ensures compares { result ≡ ⟦<CatchList<'static> as PartialEq>⟧.eq a.now b.now }
    ensures same { result ≡ true → a.now ≡ b.now }
{
    a == b
}

/// Immediates that compare as equal are the same.
#[tactic(auto, using(crate::proofs::SameLists::same_lists))]
fn equal_immediates(a: &OperatorImmediates<'_>, b: &OperatorImmediates<'_>)
    ensures { ⟦<Immediates<BrTable<'static>, CatchList<'static>> as PartialEq>⟧.eq a.now b.now ≡ true
        → a.now ≡ b.now }
{
    match a {
        Immediates::Nothing => {}
        Immediates::Index(..) => {}
        Immediates::Pair(first, _, second, _) => {
            if let Immediates::Pair(other_first, _, other_second, _) = b {
                let _first = same_space(first, other_first);
                let _second = same_space(second, other_second);
            }
        }
        Immediates::IndexNumber(..) => {}
        Immediates::Local(_) => {}
        Immediates::Label(_) => {}
        Immediates::Handler(_) => {}
        Immediates::Outer(_) => {}
        Immediates::Table(_) => {}
        Immediates::Access(_) => {}
        Immediates::LaneAccess(..) => {}
        Immediates::Block(ty) => {
            if let Immediates::Block(other) = b {
                let _same = same_block_type(ty, other);
            }
        }
        Immediates::Clauses(ty, catches) => {
            if let Immediates::Clauses(other, other_catches) = b {
                let _ty = same_block_type(ty, other);
                let _catches = same_clauses(catches, other_catches);
            }
        }
        Immediates::Heap(ty) => {
            if let Immediates::Heap(other) = b {
                let _same = same_heap_type(ty, other);
            }
        }
        Immediates::Value(ty) => {
            if let Immediates::Value(other) = b {
                let _same = same_value_type(ty, other);
            }
        }
        Immediates::Cast(cast) => {
            if let Immediates::Cast(other) = b {
                let _same = same_cast(cast, other);
            }
        }
        Immediates::I32(_) => {}
        Immediates::I64(_) => {}
        Immediates::F32(_) => {}
        Immediates::F64(_) => {}
        Immediates::V128(_) => {}
        Immediates::Lane(_) => {}
        Immediates::Lanes(lanes) => {
            if let Immediates::Lanes(other) = b {
                let _same = same_lanes(lanes, other);
            }
        }
        Immediates::ZeroByte => {}
    }
}

/// Immediates compare as equal exactly if they are the same.
fn same_immediates(a: &OperatorImmediates<'_>, b: &OperatorImmediates<'_>) -> bool
    ensures compares { result
        ≡ ⟦<Immediates<BrTable<'static>, CatchList<'static>> as PartialEq>⟧.eq a.now b.now }
    ensures same { result ≡ true → a.now ≡ b.now }
    ensures equal { a.now ≡ b.now → result ≡ true }
{
    equal_immediates(a, b);
    a == b
}

/// Two operators are equal exactly if they mean the same.
pub fn law_operator_equality(a: &Operator<'_>, b: &Operator<'_>) -> bool
    ensures same { result ≡ true → meaning a.now ≡ meaning b.now }
    ensures equal { meaning a.now ≡ meaning b.now → result ≡ true }
{
    let (opcode, immediates) = a.parts();
    let (other_opcode, other_immediates) = b.parts();
    let _opcode = same_opcode(&opcode, &other_opcode);
    let _immediates = same_immediates(&immediates, &other_immediates);
    a == b
}
