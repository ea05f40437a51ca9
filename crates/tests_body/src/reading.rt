//! Operators that are read one after the other, and their equality.
use crate::cases::{About, check};
use crate::function_text::Code;
use std::alloc::AllocError;
use std::process::Abort;
use std::test::Fail;
use wasm_ops::{
    Operator, ReadError, Reader, law_one_list, law_one_spelling, law_operator_equality,
    law_reading, law_shortest, law_shortest_number,
};

// Appends the next operator as its opcode and its immediates, and the place after it; or the fault.
// Returns whether there was one.
fn push_next(text: &mut String, reader: &mut Reader<'_>) -> Result<bool, AllocError> {
    match reader.read() {
        Ok(operator) => {
            let (opcode, immediates) = operator.parts();
            let place = reader.original_position();
            write!(text, " {} {immediates:?} {place}", Code(opcode))?;
            Ok(true)
        }
        Err(error) => {
            write!(text, " {error:?}")?;
            Ok(false)
        }
    }
}

fn push_operators(text: &mut String, bytes: &[u8], start: u32) -> Result<(), AllocError> {
    let mut reader = Reader::new(bytes, start as usize);
    for _ in bytes {
        if reader.eof() || !push_next(text, &mut reader)? {
            break;
        }
    }
    Ok(())
}

/// Appends the operators of hexadecimal text that begins at a place, each with the place after it,
/// and then the fault if there is one.
pub(crate) fn push_read(text: &mut String, bytes: &str, start: u32) -> Result<(), Fail> {
    let bytes = hex::decode(*text.allocator(), bytes)?;
    Ok(push_operators(text, &bytes, start)?)
}

// Operators with the places after them. A fault has its operator's place.
const READ: [(&str, &str); 11] = [
    (
        "427ffc870028028080808010",
        " 42 I64(-1) 102 fc.7 Nothing 105 \
        28 Access(RawMemArg { exponent: 2, memory: 0, offset: 4294967296 }) 112",
    ),
    (
        "010141",
        " 01 Nothing 101 01 Nothing 102 ReadError { fault: Truncated, at: 102 }",
    ),
    (
        "02400340047f050d01",
        " 02 Block(Empty) 102 03 Block(Empty) 104 04 Block(Value(I32)) 106 05 Nothing 107 \
        0d Label(1) 109",
    ),
    (
        "0c83011085001180010045",
        " 0c Label(131) 103 10 Index(Funcs, 5) 106 11 Pair(Types, 128, Tables, 0) 110 \
        45 Nothing 111",
    ),
    ("0e0100", " ReadError { fault: Truncated, at: 100 }"),
    ("41", " ReadError { fault: Truncated, at: 100 }"),
    ("fc12000b", " ReadError { fault: UnknownOperator, at: 100 }"),
    ("fe03010b", " ReadError { fault: BadFence, at: 100 }"),
    ("1c027f7f0b", " ReadError { fault: BadSelect, at: 100 }"),
    (
        "fb18040070700b",
        " ReadError { fault: BadCastFlags, at: 100 }",
    ),
    ("0e0200", " ReadError { fault: Truncated, at: 100 }"),
];

/// Operators are read one after the other, up to the first that can't be read.
#[test]
fn reads_one_after_the_other(rt: HostRuntime) -> Result<(), Fail> {
    check(&rt, rt.alloc(), About::Read(100), &READ)
}

// Whether an operator is a branch to the label 131: first by the law, then by comparison.
fn compared(operator: &Operator<'_>) -> (bool, bool) {
    let branch = Operator::Br { label: 131 };
    (
        law_operator_equality(operator, &branch),
        *operator == branch,
    )
}

// The same for the operator of these bytes.
fn is_branch(bytes: &[u8]) -> Result<(bool, bool), ReadError> {
    match Reader::new(bytes, 0).read() {
        Ok(operator) => Ok(compared(&operator)),
        Err(error) => Err(error),
    }
}

fn check_branches(rt: &impl Abort) -> Result<(), Fail> {
    for (bytes, same) in &[([0x0c, 0x83, 0x01], true), ([0x0c, 0x83, 0x02], false)] {
        assert_eq!(rt; is_branch(bytes)?, (*same, *same));
    }
    Ok(())
}

fn call_laws() {
    law_reading();
    law_one_spelling();
    law_one_list();
    law_shortest_number();
    law_shortest();
}

/// The laws of reading can be called, and operators are compared by their meanings.
#[test]
fn calls_the_laws_of_reading(rt: HostRuntime) -> Result<(), Fail> {
    call_laws();
    check_branches(&rt)
}
