//! Writing functions that were made by hand or parsed.
use crate::by_hand::{Item, Made, function};
use crate::cases::check_written;
use crate::function_text::At;
use crate::small_module::types;
use std::alloc::{AllocError, Global};
use std::test::Fail;
use walrus_body::{EmitError, IdsToIndices, IndexError, LocalFunction};
use walrus_ir::{
    FunctionBuilder, FunctionId, IdHashMap, InstrLocId, InstrSeqId, InstrSeqType, LocalId,
    MemoryId, ModuleTypes, TypeId, ValType,
};
use wasm_encode::FunctionEncoder;

// Gives a type the next new index if it has none.
fn give_type(numbers: &mut IdsToIndices, ty: TypeId) -> Result<(), IndexError> {
    match numbers.get_type_index(ty) {
        Ok(_) => Ok(()),
        Err(_) => numbers.push_type(ty),
    }
}

// The types 8, 2, 6 and 5 have the new indices 0 to 3; the function 7 and the memory 0 have the new
// index 0.
fn set_all(numbers: &mut IdsToIndices) -> Result<(), IndexError> {
    let (function, memory) = (FunctionId::new(7), MemoryId::new(0));
    if numbers.get_func_index(function).is_err() {
        numbers.push_func(function)?;
    }
    if numbers.get_memory_index(memory).is_err() {
        numbers.push_memory(memory)?;
    }
    for ty in [8, 2, 6, 5] {
        give_type(numbers, TypeId::new(ty))?;
    }
    Ok(())
}

// Writes a function, and appends the fault.
fn write(
    text: &mut String,
    function: &LocalFunction,
    types: &ModuleTypes,
    indices: &IdsToIndices,
    locals: &IdHashMap<LocalId, u32>,
    encoder: &mut FunctionEncoder,
    map: &mut Vec<(InstrLocId, usize)>,
) -> Result<(), AllocError> {
    if !function.has_entry() {
        return text.push_str("no entry ");
    }
    match function.emit_instructions(types, indices, locals, encoder, Some(map)) {
        Ok(()) => Ok(()),
        Err(error) => write!(text, "{error:?} "),
    }
}

// Writes a function with these numbers and the types of the module of other tests, and appends the
// fault.
fn write_under(
    text: &mut String,
    function: &LocalFunction,
    numbers: &IdsToIndices,
    locals: &IdHashMap<LocalId, u32>,
    encoder: &mut FunctionEncoder,
    map: &mut Vec<(InstrLocId, usize)>,
) -> Result<(), AllocError> {
    let types = types(*text.allocator())?;
    write(text, function, &types, numbers, locals, encoder, map)
}

// The local 5 has the number 300, and the local 6 has 0.
fn number_locals(locals: &mut IdHashMap<LocalId, u32>) -> Result<(), AllocError> {
    locals.insert(LocalId::new(5), 300)?;
    locals.insert(LocalId::new(6), 0)?;
    Ok(())
}

// The same with these numbers of locals.
fn write_with(
    text: &mut String,
    function: &LocalFunction,
    numbers: &IdsToIndices,
    encoder: &mut FunctionEncoder,
    map: &mut Vec<(InstrLocId, usize)>,
) -> Result<(), AllocError> {
    let mut locals = IdHashMap::new(*text.allocator());
    match number_locals(&mut locals) {
        Ok(()) => write_under(text, function, numbers, &locals, encoder, map),
        Err(error) => Err(error),
    }
}

// The same with the numbers of these tests.
fn write_into(
    text: &mut String,
    function: &LocalFunction,
    encoder: &mut FunctionEncoder,
    map: &mut Vec<(InstrLocId, usize)>,
) -> Result<(), Fail> {
    let alloc = *text.allocator();
    let mut numbers = Box::new(alloc, IdsToIndices::new(alloc))?;
    set_all(&mut numbers)?;
    Ok(write_with(text, function, &numbers, encoder, map)?)
}

// Appends bytes and pairs.
fn push_output(
    text: &mut String,
    bytes: &[u8],
    map: &[(InstrLocId, usize)],
) -> Result<(), AllocError> {
    for byte in bytes {
        write!(text, "{byte:02x}")?;
    }
    for (location, place) in map {
        write!(text, " {}@{place}", At(*location))?;
    }
    Ok(())
}

// Writes a function. Appends the fault, and then the contents of the encoder and of a list that had
// one pair.
fn push_encoded(
    text: &mut String,
    function: &LocalFunction,
    encoder: &mut FunctionEncoder,
) -> Result<(), Fail> {
    let mut map = vec![in *text.allocator(); (InstrLocId::new(9), 9)]?;
    write_into(text, function, encoder, &mut map)?;
    Ok(push_output(text, encoder.bytes(), map.as_slice())?)
}

// Writes a function. Appends the fault, and then the contents of an encoder without declarations
// and of a list that had one pair.
fn push_written(text: &mut String, function: &LocalFunction) -> Result<(), Fail> {
    let mut encoder = FunctionEncoder::new(*text.allocator(), &[])?;
    push_encoded(text, function, &mut encoder)
}

/// What is appended for a function.
pub(crate) fn written_text(alloc: Global, function: &LocalFunction) -> Result<String, Fail> {
    let mut text = String::new(alloc);
    push_written(&mut text, function)?;
    Ok(text)
}

// Bytes and pairs of functions made by hand. Faults of the tree come first, then the first fault in
// the order of writing; bytes and pairs are then unchanged.
const WRITTEN: [(&[Item], &str); 19] = [
    (
        &[
            (0, Made::Drop, 1),
            (0, Made::Block(1), 2),
            (1, Made::Br(0), 3),
            (1, Made::Call(7), 4),
        ],
        "001a02400c0110000b0b 9@9 1@1 2@2 3@4 4@6 -@8 -@9",
    ),
    (
        &[(0, Made::Const(300), 1), (0, Made::IfElse(1, 2), 2)],
        "0041ac0204400b0b 9@9 1@1 2@4 -@6 -@7",
    ),
    (
        &[(0, Made::Call(0), 1), (0, Made::Block(7), 1)],
        "UnknownSequence 00 9@9",
    ),
    (&[(0, Made::Block(0), 1)], "SharedSequence 00 9@9"),
    (
        &[(0, Made::Block(1), 1), (0, Made::Block(1), 2)],
        "SharedSequence 00 9@9",
    ),
    (
        &[
            (0, Made::Call(0), 1),
            (0, Made::Block(1), 2),
            (0, Made::Block(1), 3),
        ],
        "SharedSequence 00 9@9",
    ),
    (
        &[
            (0, Made::Block(1), 1),
            (0, Made::Br(1), 2),
            (0, Made::Call(0), 3),
        ],
        "BranchOutside 00 9@9",
    ),
    (
        &[
            (0, Made::Drop, 1),
            (0, Made::Call(0), 2),
            (0, Made::Br(1), 3),
        ],
        "Index(Unnumbered { space: Funcs }) 00 9@9",
    ),
    // Locals are written with the numbers in the map; a local without a number is refused where it
    // would be written.
    (
        &[
            (0, Made::LocalGet(5), 1),
            (0, Made::LocalSet(6), 2),
            (0, Made::LocalTee(5), 3),
        ],
        "0020ac02210022ac020b 9@9 1@1 2@4 3@6 -@9",
    ),
    (
        &[
            (0, Made::Drop, 1),
            (0, Made::LocalSet(7), 2),
            (0, Made::Call(0), 3),
        ],
        "UnnumberedLocal 00 9@9",
    ),
    (
        &[(0, Made::Call(0), 1), (0, Made::LocalTee(7), 2)],
        "Index(Unnumbered { space: Funcs }) 00 9@9",
    ),
    // An alignment in bytes is written as the exponent of the greatest power of two that is not
    // above it; 0 is written like 1.
    (&[(0, Made::Load(0), 1)], "002800000b 9@9 1@1 -@4"),
    (&[(0, Made::Load(1), 1)], "002800000b 9@9 1@1 -@4"),
    (&[(0, Made::Load(2), 1)], "002801000b 9@9 1@1 -@4"),
    (&[(0, Made::Load(3), 1)], "002801000b 9@9 1@1 -@4"),
    (&[(0, Made::Load(4), 1)], "002802000b 9@9 1@1 -@4"),
    (&[(0, Made::Load(6), 1)], "002802000b 9@9 1@1 -@4"),
    (&[(0, Made::Load(12), 1)], "002803000b 9@9 1@1 -@4"),
    (&[(0, Made::Load(u32::MAX), 1)], "00281f000b 9@9 1@1 -@4"),
];

/// Functions made by hand are written, or refused for their first fault.
#[test]
fn writes_what_is_made_by_hand(rt: HostRuntime) -> Result<(), Fail> {
    check_written(&rt, rt.alloc(), &WRITTEN)
}

// Sets the type and the end of a sequence, if there is one in this slot.
fn set_head(function: &mut LocalFunction, slot: usize, ty: &InstrSeqType, end: &InstrLocId) {
    let slot = InstrSeqId::new(slot);
    if !function.has_block(slot) {
        return;
    }
    let sequence = function.block_mut(slot);
    sequence.ty = *ty;
    sequence.end = *end;
}

// The bytes that are written for a function with an `if` whose sequences have this type, and whose
// ends have the locations 77 and this one. The alternative has an instruction if it says something.
fn written_choice(
    alloc: Global,
    ty: &InstrSeqType,
    end: &InstrLocId,
    says_something: bool,
) -> Result<String, Fail> {
    let items = [
        (0, Made::IfElse(1, 2), 1),
        (1, Made::Drop, 2),
        (2, Made::Const(5), 3),
    ];
    let count = if says_something { 3 } else { 2 };
    let builder = function(alloc, 3, &items[..count])?;
    let mut function = LocalFunction::new(Vec::new(alloc), builder);
    set_head(&mut function, 1, ty, &InstrLocId::new(77));
    set_head(&mut function, 2, ty, end);
    written_text(alloc, &function)
}

// The type of a sequence with the parameters and results of this type of the module.
fn of_type(id: usize) -> InstrSeqType {
    InstrSeqType::MultiValue(TypeId::new(id))
}

/// An `else` is left out if the alternative has no instruction and the results of the `if` are
/// its parameters: also if it has some (type 2), or is of an entry type (type 4, which has no
/// number); but not if only the numbers of its parameters and results are the same (type 5), or if
/// the module doesn't have its type (type 8). Its `end` has the location of the alternative's end,
/// and that of the consequent's if the alternative's is the default.
#[test]
fn leaves_out_an_else_that_says_nothing(rt: HostRuntime) -> Result<(), Fail> {
    let none = InstrLocId::default();
    let at = InstrLocId::new(78);
    for (ty, end, says_something, expected) in [
        (
            InstrSeqType::Simple(None),
            at,
            false,
            "0004401a0b0b 9@9 1@1 2@3 78@4 -@5",
        ),
        (
            InstrSeqType::Simple(None),
            none,
            false,
            "0004401a0b0b 9@9 1@1 2@3 77@4 -@5",
        ),
        (
            InstrSeqType::Simple(None),
            at,
            true,
            "0004401a0541050b0b 9@9 1@1 2@3 77@4 3@5 78@7 -@8",
        ),
        (
            InstrSeqType::Simple(Some(ValType::I32)),
            at,
            false,
            "00047f1a050b0b 9@9 1@1 2@3 77@4 78@5 -@6",
        ),
        (of_type(2), at, false, "0004011a0b0b 9@9 1@1 2@3 78@4 -@5"),
        (of_type(2), none, false, "0004011a0b0b 9@9 1@1 2@3 77@4 -@5"),
        (
            of_type(2),
            at,
            true,
            "0004011a0541050b0b 9@9 1@1 2@3 77@4 3@5 78@7 -@8",
        ),
        (
            of_type(4),
            at,
            false,
            "Index(Unnumbered { space: Types }) 00 9@9",
        ),
        (
            of_type(5),
            at,
            false,
            "0004031a050b0b 9@9 1@1 2@3 77@4 78@5 -@6",
        ),
        (
            of_type(8),
            none,
            false,
            "0004001a050b0b 9@9 1@1 2@3 77@4 -@5 -@6",
        ),
    ] {
        let text = written_choice(rt.alloc(), &ty, &end, says_something)?;
        assert_eq!(rt; text.as_str(), expected);
    }
    Ok(())
}
