//! Bodies with the names that their module gives them: operators with ids, their places, and
//! refusals.
ghost use Rattle.std.specs.Prelude.{◌≡◌, IfOk};

use crate::function_text::Fault;
use std::alloc::{AllocError, Global};
use std::fmt;
use std::process::Abort;
use std::test::Fail;
use walrus_body::{FunctionBody, IndexError, IndicesToIds, ParseError, ParseFailure};
use walrus_ir::{
    DataId, FunctionId, MemoryId, Module, ModuleLocals, ModuleTags, ModuleTypes, TableId, TagId,
    TypeId, ValType,
};
use walrus_run::{NamedBody, NamedCatch, NamedImmediates, NamedIndex, NamedOp};
use wasm_ops::Opcode;

/// An id, with the name of its space before it.
#[derive(Clone, Copy)]
struct Index(NamedIndex);

impl fmt::Display for Index {
    fn fmt<W: fmt::Write>(&self, f: &mut fmt::Formatter<W>) -> fmt::Result {
        match self.0 {
            NamedIndex::Table(id) => write!(f, "table{}", id.index()),
            NamedIndex::Type(id) => write!(f, "type{}", id.index()),
            NamedIndex::Func(id) => write!(f, "func{}", id.index()),
            NamedIndex::Global(id) => write!(f, "global{}", id.index()),
            NamedIndex::Memory(id) => write!(f, "memory{}", id.index()),
            NamedIndex::Element(id) => write!(f, "element{}", id.index()),
            NamedIndex::Data(id) => write!(f, "data{}", id.index()),
            NamedIndex::Tag(id) => write!(f, "tag{}", id.index()),
        }
    }
}

/// A clause: its tag, or `all`, and its label.
#[derive(Clone, Copy)]
struct Clause(NamedCatch);

impl fmt::Display for Clause {
    fn fmt<W: fmt::Write>(&self, f: &mut fmt::Formatter<W>) -> fmt::Result {
        match self.0.tag {
            Some(tag) => write!(f, " tag{}->{}", tag.index(), self.0.label),
            None => write!(f, " all->{}", self.0.label),
        }
    }
}

/// An operator: its opcode and its immediates.
#[derive(Clone, Copy)]
struct Shown<'a>(&'a NamedOp);

fn write_clauses<W: fmt::Write>(f: &mut fmt::Formatter<W>, clauses: &[NamedCatch]) -> fmt::Result {
    for clause in clauses {
        write!(f, "{}", Clause(*clause))?;
    }
    Ok(())
}

fn write_immediates<W: fmt::Write>(
    f: &mut fmt::Formatter<W>,
    immediates: &NamedImmediates,
) -> fmt::Result {
    match immediates {
        NamedImmediates::Nothing => Ok(()),
        NamedImmediates::Index(one) => write!(f, " {}", Index(*one)),
        NamedImmediates::Pair(one, two) => write!(f, " {} {}", Index(*one), Index(*two)),
        NamedImmediates::Label(depth) => write!(f, " ^{depth}"),
        NamedImmediates::Access(x) => {
            write!(f, " memory{} {} {}", x.memory.index(), x.exponent, x.offset)
        }
        NamedImmediates::Table(labels, default) => write!(f, " {labels:?} ^{default}"),
        NamedImmediates::Block(ty) => write!(f, " {:?}->{:?}", ty.params, ty.results),
        NamedImmediates::Clauses(ty, clauses) => {
            write!(f, " {:?}->{:?}", ty.params, ty.results)?;
            write_clauses(f, clauses)
        }
        others => write!(f, " {others:?}"),
    }
}

impl fmt::Display for Shown<'_> {
    fn fmt<W: fmt::Write>(&self, f: &mut fmt::Formatter<W>) -> fmt::Result {
        match self.0.opcode {
            Opcode::Byte(byte) => write!(f, "{byte:02x}")?,
            Opcode::Prefixed(prefix, number) => write!(f, "{prefix:02x}.{number}")?,
        }
        write_immediates(f, &self.0.immediates)
    }
}

// The type 0 has no parameters and results, 1 and 2 have an `i32` parameter and an `i32` result,
// and 3 is the entry type without results.
fn types(alloc: Global) -> Result<ModuleTypes, AllocError> {
    let mut types = ModuleTypes::new(alloc);
    types.add_func(&[], &[])?;
    for _ in 1..3 {
        types.add_func(&[ValType::I32], &[ValType::I32])?;
    }
    types.add_entry(&[])?;
    Ok(types)
}

// A tag of the type 0.
fn tags(alloc: Global) -> Result<ModuleTags, AllocError> {
    let mut tags = ModuleTags::new(alloc);
    tags.add(TypeId::new(0))?;
    Ok(tags)
}

// The module, whose code begins at the place 0.
fn module(alloc: Global) -> Result<Module, AllocError>
    ensures { IfOk result (λ m. m.code_section_offset ≡ 0) }
{
    let types = types(alloc)?;
    match tags(alloc) {
        Ok(tags) => Ok(Module {
            types,
            tags,
            locals: ModuleLocals::new(alloc),
            code_section_offset: 0,
        }),
        Err(error) => Err(error),
    }
}

// The old types 0 and 1 have the ids 0 and 2. There are two functions, tables and data segments,
// and one memory and tag.
fn push_ids(indices: &mut IndicesToIds) -> Result<(), IndexError> {
    for ty in [0, 2] {
        indices.push_type(TypeId::new(ty))?;
    }
    for number in [2, 1] {
        indices.push_func(FunctionId::new(number + 10))?;
        indices.push_table(TableId::new(number + 20))?;
        indices.push_data(DataId::new(number + 60))?;
    }
    indices.push_memory(MemoryId::new(41))?;
    indices.push_tag(TagId::new(0))?;
    Ok(())
}

// The place of a body, and the position of its first operator.
#[derive(Clone, Copy)]
struct Place {
    start: u32,
    ops: usize,
}

// Operators at the place 0.
const AT_ZERO: Place = Place { start: 0, ops: 0 };

// A body with the names that a module gives it.
fn named_in(
    alloc: Global,
    module: &Module,
    indices: &IndicesToIds,
    place: Place,
    bytes: &[u8],
) -> Result<NamedBody, ParseFailure>
    requires { «module».now.code_section_offset ≡ 0 }
{
    let body = FunctionBody {
        bytes,
        start: place.start as usize,
        ops: place.ops.min(bytes.len()),
    };
    let (id, ty) = (FunctionId::new(12), TypeId::new(0));
    NamedBody::read(alloc, module, indices, id, ty, body)
}

const OUT_OF_MEMORY: ParseFailure = ParseFailure {
    error: ParseError::Memory,
    at: 0,
};

// The same with the module of these tests.
fn named_by(
    alloc: Global,
    indices: &IndicesToIds,
    place: Place,
    bytes: &[u8],
) -> Result<NamedBody, ParseFailure> {
    match module(alloc) {
        Ok(module) => named_in(alloc, &module, indices, place, bytes),
        Err(_) => Err(OUT_OF_MEMORY),
    }
}

fn named(alloc: Global, place: Place, bytes: &[u8]) -> Result<NamedBody, ParseFailure> {
    let mut indices = IndicesToIds::new(alloc);
    match push_ids(&mut indices) {
        Ok(()) => named_by(alloc, &indices, place, bytes),
        Err(_) => Err(OUT_OF_MEMORY),
    }
}

// Appends the operators of a body, each after its place.
fn push_body(text: &mut String, body: &NamedBody) -> Result<(), AllocError> {
    for (i, operator) in body.ops().iter().enumerate() {
        write!(text, "{:?}:{} ", body.place(i), Shown(operator))?;
    }
    write!(text, "{:?}", body.place(body.ops().len()))
}

// Appends the same for the body with these bytes; or the fault and its place.
fn push_named(text: &mut String, place: Place, bytes: &[u8]) -> Result<(), AllocError> {
    match named(*text.allocator(), place, bytes) {
        Ok(body) => push_body(text, &body),
        Err(ParseFailure { error, at }) => write!(text, "{} at {at}", Fault(error)),
    }
}

fn returned(alloc: Global, place: Place, body: &str) -> Result<String, Fail> {
    let bytes = hex::decode(alloc, body)?;
    let mut text = String::new(alloc);
    push_named(&mut text, place, &bytes)?;
    Ok(text)
}

// Checks the names of bodies, each of which comes before its expected text.
fn check(rt: &impl Abort, alloc: Global, place: Place, cases: &[(&str, &str)]) -> Result<(), Fail> {
    for (body, expected) in cases {
        let found = returned(alloc, place, body)?;
        assert_eq!(rt; found.as_str(), *expected, "of {body}");
    }
    Ok(())
}

// Bodies, and their operators.
const NAMED: [(&str, &str); 16] = [
    ("010b", "Some(0):01 Some(1):0b None"),
    ("00010b", "Some(0):00 Some(1):01 Some(2):0b None"),
    ("10010b", "Some(0):10 func11 Some(2):0b None"),
    ("1101000b", "Some(0):11 type2 table22 Some(3):0b None"),
    ("fc0801000b", "Some(0):fc.8 data61 memory41 Some(4):0b None"),
    ("fb07010b", "Some(0):fb.7 type2 Some(3):0b None"),
    ("28028080000b", "Some(0):28 memory41 2 0 Some(5):0b None"),
    ("02000b0b", "Some(0):02 []->[] Some(2):0b Some(3):0b None"),
    (
        "0301411a0b0b",
        "Some(0):03 [I32]->[I32] Some(2):41 I32(26) Some(4):0b Some(5):0b None",
    ),
    (
        "027e42000b1a0b",
        "Some(0):02 []->[I64] Some(2):42 I64(0) Some(4):0b Some(5):1a Some(6):0b None",
    ),
    (
        "02400e0100010b0b",
        "Some(0):02 []->[] Some(2):0e [0] ^1 Some(6):0b Some(7):0b None",
    ),
    (
        "1f40020000000200000b0b",
        "Some(0):1f []->[] tag0->0 all->0 Some(8):00 Some(9):0b Some(10):0b None",
    ),
    // With handlers.
    (
        "02401f400102000b0b0b",
        "Some(0):02 []->[] Some(2):1f []->[] all->0 Some(7):0b Some(8):0b Some(9):0b None",
    ),
    (
        "1f400102000b0b",
        "Some(0):1f []->[] all->0 Some(5):0b Some(6):0b None",
    ),
    (
        "064018000b",
        "Some(0):06 []->[] Some(2):18 Outer(0) Some(4):0b None",
    ),
    (
        "0640070009000b0b",
        "Some(0):06 []->[] Some(2):07 tag0 Some(4):09 Handler(0) Some(6):0b Some(7):0b None",
    ),
];

/// Operators with the ids of their old indices, dead ones too, and their places; there is none
/// after the last.
#[test]
fn names_operators(rt: HostRuntime) -> Result<(), Fail> {
    check(&rt, rt.alloc(), AT_ZERO, &NAMED)
}

// Bodies that are refused, and why.
const REFUSED: [(&str, &str); 17] = [
    ("", "MissingEnd at 0"),
    ("0b0b", "Trailing at 1"),
    ("1f400104000b0b", "BadCatchKind 0 at 0"),
    ("064018010b", "NoSuchLabel at 2"),
    ("18000b", "DelegateOutsideTry at 0"),
    ("41", "Truncated 0 at 0"),
    ("0e0200", "Truncated 0 at 0"),
    ("fc12000b", "UnknownOperator 0 at 0"),
    ("fe03010b", "BadFence 0 at 0"),
    ("1c027f7f0b", "BadSelect 0 at 0"),
    ("fb18040070700b", "BadCastFlags 0 at 0"),
    ("050b", "ElseOutsideIf at 0"),
    ("190b", "CatchOutsideTry at 0"),
    ("09000b", "RethrowOutsideHandler at 0"),
    ("10020b", "Funcs 2 at 0"),
    ("0f0c050b", "NoSuchLabel at 1"),
    ("0f10020b", "Funcs 2 at 1"),
];

/// The first fault, and its place.
#[test]
fn refuses_as_a_parse_does(rt: HostRuntime) -> Result<(), Fail> {
    check(&rt, rt.alloc(), AT_ZERO, &REFUSED)
}

/// Places have no limit, and begin at the body's first operator.
#[test]
fn places_have_no_limit(rt: HostRuntime) -> Result<(), Fail> {
    let late = Place {
        start: 4294967293,
        ops: 1,
    };
    let cases = [
        ("00010b", "Some(4294967294):01 Some(4294967295):0b None"),
        ("0001410b", "MissingEnd at 4294967297"),
        ("000105", "ElseOutsideIf at 4294967295"),
    ];
    check(&rt, rt.alloc(), late, &cases)
}

// Whether two bodies have the same operators, and the third of them at the same place.
fn compared(one: &NamedBody, other: &NamedBody) -> (bool, bool) {
    (one.ops() == other.ops(), one.place(2) == other.place(2))
}

// The same for a body and the one with these bytes.
fn compared_with(alloc: Global, one: &NamedBody, other: &[u8]) -> Result<(bool, bool), Fail> {
    let other = named(alloc, AT_ZERO, other)?;
    Ok(compared(one, &other))
}

/// Operators are the same if only their encodings and the numbers of their block types differ.
#[test]
fn compares_operators(rt: HostRuntime) -> Result<(), Fail> {
    // block [ i32.const 1, drop ], with the shortest encodings.
    let shortest = named(
        rt.alloc(),
        AT_ZERO,
        &[0x02, 0x40, 0x41, 0x01, 0x1a, 0x0b, 0x0b],
    )?;
    // The same with the type 0 in place of the empty one and a longer constant; and one with
    // another constant.
    let longer = [0x02, 0x00, 0x41, 0x81, 0x00, 0x1a, 0x0b, 0x0b];
    let changed = [0x02, 0x40, 0x41, 0x02, 0x1a, 0x0b, 0x0b];
    for (other, expected) in [
        (longer.as_slice(), (true, false)),
        (changed.as_slice(), (false, true)),
    ] {
        assert_eq!(rt; compared_with(rt.alloc(), &shortest, other)?, expected);
    }
    Ok(())
}
