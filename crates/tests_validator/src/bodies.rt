//! Bodies that are valid, and others with the place of their first fault, by the standard's text (core specification
//! 3.0, validation of instructions, and binary format of expressions).

use std::alloc::{AllocError, Global};
use std::process::Abort;
use std::test::Fail;
use walrus_validators::{CheckError, OpCheck};
use wasm_context::{CompositeType, Context, DefinedType, TypeList};
use wasm_locals::DeclaredLocals;
use wasm_operators::{Operator, RawValType};
use wasm_types::{BinaryOp, ValType};
use wasm_validation::{
    BodyValidator, Mismatch, OperandKind, RefusedCode, ValidationFailure, ValidationScratch,
    law_one_verdict, law_same_steps, validate_code,
};

// The types of the parameters.
const PARAMS: [RawValType; 2] = [ValType::I32, ValType::I32];

// Bodies of a function of two i32 that gives an i32, whose first byte is at 10, each with its verdict.
const BODIES: [(&[u8], &str); 8] = [
    (&[0x20, 0, 0x20, 1, 0x6a, 0x0b], "valid"),
    (&[0x20, 0, 0x20, 1, 0x7c, 0x0b], "invalid operator at 14"),
    (
        &[0x02, 0x40, 0x20, 0, 0x0d, 0, 0x0b, 0x20, 1, 0x0b],
        "valid",
    ),
    (&[0x02, 0x7f, 0x0b, 0x0b], "invalid operator at 12"),
    (
        &[0x20, 0, 0x0b, 0x0b],
        "there are bytes after the last `end` at 13",
    ),
    (&[0x20, 0], "an `end` is missing at 12"),
    (&[0x20], "the bytes end inside an operator at 10"),
    (&[0x20, 0, 0x0b], "valid"),
];

// The type of such a function.
fn function_type(alloc: Global) -> Result<DefinedType, AllocError> {
    let params = vec![in alloc; ValType::I32, ValType::I32]?;
    let results = vec![in alloc; ValType::I32]?;
    Ok(DefinedType {
        composite: CompositeType::Function { params, results },
        supertype: None,
        first: 0,
    })
}

// A module with that type.
fn module_with(types: Vec<DefinedType>, alloc: Global) -> Context {
    Context {
        types,
        functions: Vec::new(alloc),
        referenced: Vec::new(alloc),
        tables: Vec::new(alloc),
        memories: Vec::new(alloc),
        globals: Vec::new(alloc),
        elements: Vec::new(alloc),
        data_segments: 0,
        tags: Vec::new(alloc),
    }
}

// Bodies of such a function, and the operand that the operator at a place of them refuses: what it takes, and what it finds.
const MISMATCHES: [(&[u8], usize, Option<Mismatch>); 5] = [
    (
        &[0x20, 0, 0x42, 1, 0x6a, 0x0b],
        14,
        Some(Mismatch {
            expected: OperandKind::I32,
            found: Some(OperandKind::I64),
        }),
    ),
    (
        &[0x20, 0, 0x6a, 0x0b],
        12,
        Some(Mismatch {
            expected: OperandKind::I32,
            found: None,
        }),
    ),
    (
        &[0x02, 0x40, 0x1a, 0x0b, 0x0b],
        12,
        Some(Mismatch {
            expected: OperandKind::Value,
            found: None,
        }),
    ),
    (&[0x20, 2, 0x0b], 10, None),
    (&[0x20, 0, 0x20, 1, 0x0b], 14, None),
];

fn push_verdict(text: &mut String, verdict: Result<(), ValidationFailure>) -> Result<(), Fail> {
    match verdict {
        Ok(()) => text.push_str("valid")?,
        Err(failure) => write!(text, "{failure}")?,
    }
    Ok(())
}

fn check_bodies(rt: &impl Abort, alloc: Global, context: &Context) -> Result<(), Fail> {
    let declared = DeclaredLocals::new(alloc);
    let locals = declared.after(&PARAMS);
    let mut scratch = ValidationScratch::new(alloc);
    for (code, expected) in &BODIES {
        let verdict = validate_code(
            context,
            locals,
            TypeList::Results(0),
            code,
            10,
            &mut scratch,
        );
        let mut found = String::new(alloc);
        push_verdict(&mut found, verdict)?;
        assert_eq!(rt; found.as_str(), *expected);
    }
    Ok(())
}

#[test]
fn validates_bodies(rt: HostRuntime) -> Result<(), Fail> {
    law_one_verdict();
    let mut types = Vec::new(rt.alloc());
    types.push(function_type(rt.alloc())?)?;
    let context = module_with(types, rt.alloc());
    check_bodies(&rt, rt.alloc(), &context)
}

#[test]
fn names_the_operand(rt: HostRuntime) -> Result<(), Fail> {
    let mut types = Vec::new(rt.alloc());
    types.push(function_type(rt.alloc())?)?;
    let context = module_with(types, rt.alloc());
    let declared = DeclaredLocals::new(rt.alloc());
    for (code, at, expected) in &MISMATCHES {
        let refused = RefusedCode {
            context: &context,
            locals: declared.after(&PARAMS),
            results: TypeList::Results(0),
            code,
            start: 10,
            at: *at,
        };
        assert_eq!(rt; refused.mismatch(rt.alloc())?, *expected);
    }
    Ok(())
}

#[test]
fn refuses_once_it_has_refused(rt: HostRuntime) -> Result<(), Fail> {
    law_same_steps();
    let context = module_with(Vec::new(rt.alloc()), rt.alloc());
    let declared = DeclaredLocals::new(rt.alloc());
    let locals = declared.after(&PARAMS);
    let mut validator = BodyValidator::new(&context, locals, TypeList::Empty, rt.alloc());
    let operators = [
        (Operator::LocalGet { local: 0 }, Ok(())),
        (Operator::LocalGet { local: 1 }, Ok(())),
        (Operator::Binop(BinaryOp::I32Add), Ok(())),
        (
            Operator::Binop(BinaryOp::I32Add),
            Err(CheckError::Refused(0)),
        ),
        (Operator::Nop, Err(CheckError::Refused(0))),
    ];
    for (operator, expected) in &operators {
        assert_eq!(rt; validator.op(0, operator), *expected);
    }
    Ok(())
}
