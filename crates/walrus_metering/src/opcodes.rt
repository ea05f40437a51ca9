//! The opcodes of instructions.
ghost use Rattle.std.specs.Prelude.{◌≡◌};
ghost use Rattle.wasm_body.specs.InstructionTable.{const_operation, operation_of};

use walrus_ir::{Instr, Value};
use wasm_operators::Opcode::{Byte, Prefixed};
use wasm_operators::{
    AtomicKind, Opcode, atomic_opcode, binary_opcode, index_rows, load_opcode, opcode_at,
    reference_rows, store_opcode, ternary_opcode, unary_opcode, vector_access_opcode,
};

/// Passes the rows of operators with indices on, together with those on references.
macro_rules! with_references {
    (($instr:ident, $($others:tt)*) $($rows:tt)*) => {
        reference_rows!(opcode_rows, $instr ($($others)*) ($($rows)*))
    };
}

/// The opcode of an instruction: by the rows, and those of the other instructions.
macro_rules! opcode_rows {
    (
        ($instr:ident ($($others:tt)*) ($($index_form:tt {
            $($index_row:literal $index_name:ident { $($index:ident $id:ident $space:ident),* })*
        })*))
        { $($low:literal $high:literal $test:ident)* }
        { $($number:literal $cast:ident)* }
        $($form:tt
            { $($row:literal $name:ident { $($field:ident $key:ident $kind:ident),* })* }
            { $($plain_row:literal $plain:ident)* }
        )*
    ) => {
        match $instr {
            $($others)*
            $($(Instr::$index_name(_) => opcode_at!($index_form $index_row),)*)*
            $(Instr::$test(x) => match x.nullable {
                false => Prefixed(0xfb, $low),
                true => Prefixed(0xfb, $high),
            },)*
            $(Instr::$cast(_) => Prefixed(0xfb, $number),)*
            $($(Instr::$name(_) => opcode_at!($form $row),)*
            $(Instr::$plain => opcode_at!($form $plain_row),)*)*
        }
    };
}

/// The opcode of a constant.
fn const_opcode(value: Value) -> Opcode
    ensures { result ≡ (const_operation value).opcode }
{
    match value {
        Value::I32(_) => Byte(0x41),
        Value::I64(_) => Byte(0x42),
        Value::F32(_) => Byte(0x43),
        Value::F64(_) => Byte(0x44),
        Value::V128(_) => Prefixed(0xfd, 12),
    }
}

/// The opcode of an instruction. That of an instruction that contains sequences opens the first.
pub(crate) fn opcode_of(instr: &Instr) -> Opcode
    ensures { result ≡ (operation_of instr.now).opcode }
{
    index_rows!(
        with_references, instr,
        Instr::Unreachable => Byte(0x00),
        Instr::Block(_) => Byte(0x02),
        Instr::Loop(_) => Byte(0x03),
        Instr::IfElse(_) => Byte(0x04),
        Instr::Try(_) => Byte(0x06),
        Instr::TryTable(_) => Byte(0x1f),
        Instr::Rethrow(_) => Byte(0x09),
        Instr::ThrowRef => Byte(0x0a),
        Instr::Br(_) => Byte(0x0c),
        Instr::BrIf(_) => Byte(0x0d),
        Instr::BrTable(_) => Byte(0x0e),
        Instr::Return => Byte(0x0f),
        Instr::Drop => Byte(0x1a),
        Instr::Select(select) => match select.ty {
            None => Byte(0x1b),
            Some(_) => Byte(0x1c),
        },
        Instr::LocalGet(_) => Byte(0x20),
        Instr::LocalSet(_) => Byte(0x21),
        Instr::LocalTee(_) => Byte(0x22),
        Instr::Const(constant) => const_opcode(constant.value),
        Instr::Unop(unop) => unary_opcode(unop.op),
        Instr::Binop(binop) => binary_opcode(binop.op),
        Instr::TernOp(ternop) => ternary_opcode(ternop.op),
        Instr::Load(load) => load_opcode(load.kind),
        Instr::Store(store) => store_opcode(store.kind),
        Instr::LoadSimd(load) => vector_access_opcode(load.kind),
        Instr::AtomicRmw(rmw) => atomic_opcode(AtomicKind::Rmw(rmw.op, rmw.width)),
        Instr::Cmpxchg(cmpxchg) => atomic_opcode(AtomicKind::Cmpxchg(cmpxchg.width)),
        Instr::AtomicNotify(_) => atomic_opcode(AtomicKind::Notify),
        Instr::AtomicWait(wait) => match wait.sixty_four {
            false => atomic_opcode(AtomicKind::Wait32),
            true => atomic_opcode(AtomicKind::Wait64),
        },
        Instr::AtomicFence => Prefixed(0xfe, 3),
        Instr::I8x16Shuffle(_) => Prefixed(0xfd, 13),
        Instr::I8x16Swizzle => Prefixed(0xfd, 14),
        Instr::V128Bitselect => Prefixed(0xfd, 82),
        Instr::I64Add128 => Prefixed(0xfc, 19),
        Instr::I64Sub128 => Prefixed(0xfc, 20),
        Instr::I64MulWideS => Prefixed(0xfc, 21),
        Instr::I64MulWideU => Prefixed(0xfc, 22),
    )
}
