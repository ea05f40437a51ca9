//! The `try` of the legacy proposal, made by hand.
use crate::by_hand::{put_try, sequences};
use crate::emitting::written_text;
use std::alloc::{AllocError, Global};
use std::test::Fail;
use walrus_body::LocalFunction;
use walrus_ir::{FunctionBuilder, InstrSeqId, InstrSeqType, LegacyCatch, TagId, TypeId};

/// A clause for a `try` in a test; a handler is a slot.
#[derive(Clone, Copy)]
enum Clause {
    Catch(usize),
    CatchAll(usize),
    Delegate,
}

fn legacy_catch(clause: Clause) -> LegacyCatch {
    match clause {
        Clause::Catch(handler) => LegacyCatch::Catch {
            tag: TagId::new(0),
            handler: InstrSeqId::new(handler),
        },
        Clause::CatchAll(handler) => LegacyCatch::CatchAll {
            handler: InstrSeqId::new(handler),
        },
        Clause::Delegate => LegacyCatch::Delegate { relative_depth: 0 },
    }
}

fn legacy_catches(alloc: Global, clauses: &[Clause]) -> Result<Vec<LegacyCatch>, AllocError> {
    let mut catches = Vec::new(alloc);
    for clause in clauses {
        catches.push(legacy_catch(*clause))?;
    }
    Ok(catches)
}

// Appends a `try` with these clauses and with a body of this type.
fn put_typed_try(
    builder: &mut FunctionBuilder,
    ty: InstrSeqType,
    clauses: &[Clause],
) -> Result<(), AllocError> {
    let body = InstrSeqId::new(1);
    if builder.has(body) {
        builder.seq_mut(body).ty = ty;
    }
    let catches = legacy_catches(builder.allocator(), clauses)?;
    put_try(builder, 1, &catches, 1)
}

// A builder whose entry is a `try` with these clauses and with a body of this type.
fn with_try(
    alloc: Global,
    ty: InstrSeqType,
    clauses: &[Clause],
) -> Result<FunctionBuilder, AllocError> {
    let mut builder = sequences(alloc, 4)?;
    put_typed_try(&mut builder, ty, clauses)?;
    Ok(builder)
}

// The output of a function whose entry is a `try` with these clauses and with a body of this type.
fn written_try(alloc: Global, ty: InstrSeqType, clauses: &[Clause]) -> Result<String, Fail> {
    let builder = with_try(alloc, ty, clauses)?;
    let function = LocalFunction::new(Vec::new(alloc), builder);
    written_text(alloc, &function)
}

// What is written for a `try`: whether its body has a type without a number, and its clauses.
const WRITTEN: [(bool, &[Clause], &str); 9] = [
    (
        false,
        &[Clause::CatchAll(2), Clause::Catch(3)],
        "BadClauses 00 9@9",
    ),
    (
        false,
        &[Clause::CatchAll(2), Clause::CatchAll(3)],
        "BadClauses 00 9@9",
    ),
    (
        false,
        &[Clause::Catch(2), Clause::Delegate],
        "BadClauses 00 9@9",
    ),
    (
        false,
        &[Clause::Delegate, Clause::CatchAll(2)],
        "BadClauses 00 9@9",
    ),
    (
        true,
        &[Clause::CatchAll(2), Clause::Catch(3)],
        "BadClauses 00 9@9",
    ),
    (
        true,
        &[Clause::CatchAll(2), Clause::CatchAll(3)],
        "BadClauses 00 9@9",
    ),
    (
        true,
        &[Clause::Catch(2), Clause::Delegate],
        "BadClauses 00 9@9",
    ),
    (
        true,
        &[Clause::Delegate, Clause::CatchAll(2)],
        "BadClauses 00 9@9",
    ),
    (
        false,
        &[Clause::CatchAll(2)],
        "000640190b0b 9@9 1@1 -@3 -@4 -@5",
    ),
];

/// A `try` whose clauses are in an order that isn't allowed isn't written, and bytes and pairs are
/// unchanged. This fault comes before that of a type without a number. A `catch_all` alone is
/// allowed.
#[test]
fn refuses_unlawful_clauses(rt: HostRuntime) -> Result<(), Fail> {
    for (is_unnumbered, clauses, expected) in &WRITTEN {
        let ty = match *is_unnumbered {
            true => InstrSeqType::MultiValue(TypeId::new(77)),
            false => InstrSeqType::Simple(None),
        };
        let text = written_try(rt.alloc(), ty, clauses)?;
        assert_eq!(rt; text.as_str(), *expected);
    }
    Ok(())
}
