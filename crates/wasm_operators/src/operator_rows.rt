//! Rows of operators: one for each operator, used in every place that lists all operators.

/// Passes the operators with one index or two to the macro `$with`, after its other arguments. Each
/// group says what comes before its numbers: nothing (`Byte`) or a prefix byte. A row has the
/// number, the name of the operator and of its instruction, and each index: its name in the
/// operator, its name in the instruction, and its space.
#[macro_export]
macro_rules! index_rows {
    ($with:ident, $($context:tt)*) => {
        $with! {
            ($($context)*)
            (Byte) {
                0x08 Throw { tag tag Tags }
                0x10 Call { func func Funcs }
                0x11 CallIndirect { ty ty Types, table table Tables }
                0x12 ReturnCall { func func Funcs }
                0x13 ReturnCallIndirect { ty ty Types, table table Tables }
                0x14 CallRef { ty ty Types }
                0x15 ReturnCallRef { ty ty Types }
            }
            (Byte) {
                0x23 GlobalGet { global global Globals }
                0x24 GlobalSet { global global Globals }
                0x25 TableGet { table table Tables }
                0x26 TableSet { table table Tables }
            }
            (Byte) {
                0x3f MemorySize { memory memory Memories }
                0x40 MemoryGrow { memory memory Memories }
            }
            (Prefixed 0xfc) {
                8 MemoryInit { data data_id Data, memory memory Memories }
                9 DataDrop { data data_id Data }
                10 MemoryCopy { target dst Memories, source src Memories }
                11 MemoryFill { memory memory Memories }
                12 TableInit { element elem Elements, table table Tables }
                13 ElemDrop { element elem Elements }
                14 TableCopy { target dst Tables, source src Tables }
                15 TableGrow { table table Tables }
                16 TableSize { table table Tables }
                17 TableFill { table table Tables }
            }
        }
    };
}

/// Passes the operators on references, structs and arrays to the macro `$with`, after its other
/// arguments. First come those that have a second opcode if null passes, with both numbers after
/// 0xfb; then the branches on a cast, with the number after 0xfb; and then all others in groups, as
/// in `index_rows`, of which each has those without immediates last. A row has the number, the name
/// of the operator and of its instruction, and each immediate: its name in the operator, its name
/// in the instruction, and what it is: an index of a space, a `Number`, a `Label`, or the heap type
/// of a `Null`.
#[macro_export]
macro_rules! reference_rows {
    ($with:ident, $($context:tt)*) => {
        $with! {
            ($($context)*)
            {
                20 21 RefTest
                22 23 RefCast
            }
            {
                24 BrOnCast
                25 BrOnCastFail
            }
            (Byte) {
                0xd0 RefNull { heap_type ty Null }
                0xd2 RefFunc { func func Funcs }
                0xd5 BrOnNull { label block Label }
                0xd6 BrOnNonNull { label block Label }
            } {
                0xd1 RefIsNull
                0xd3 RefEq
                0xd4 RefAsNonNull
            }
            (Prefixed 0xfb) {
                0 StructNew { ty ty Types }
                1 StructNewDefault { ty ty Types }
                2 StructGet { ty ty Types, field field Number }
                3 StructGetS { ty ty Types, field field Number }
                4 StructGetU { ty ty Types, field field Number }
                5 StructSet { ty ty Types, field field Number }
                6 ArrayNew { ty ty Types }
                7 ArrayNewDefault { ty ty Types }
                8 ArrayNewFixed { ty ty Types, len len Number }
                9 ArrayNewData { ty ty Types, data data_id Data }
                10 ArrayNewElem { ty ty Types, element elem Elements }
                11 ArrayGet { ty ty Types }
                12 ArrayGetS { ty ty Types }
                13 ArrayGetU { ty ty Types }
                14 ArraySet { ty ty Types }
                16 ArrayFill { ty ty Types }
                17 ArrayCopy { target dst_ty Types, source src_ty Types }
                18 ArrayInitData { ty ty Types, data data_id Data }
                19 ArrayInitElem { ty ty Types, element elem Elements }
            } {
                15 ArrayLen
                26 AnyConvertExtern
                27 ExternConvertAny
                28 RefI31
                29 I31GetS
                30 I31GetU
            }
        }
    };
}

/// The opcode of a row.
#[macro_export]
macro_rules! opcode_at {
    ((Byte) $number:literal) => {
        $crate::Opcode::Byte($number)
    };
    ((Prefixed $prefix:literal) $number:literal) => {
        $crate::Opcode::Prefixed($prefix, $number)
    };
}

/// The immediates of an operator with one index or two.
#[macro_export]
macro_rules! indices_of {
    ($space:ident $index:ident) => {
        $crate::Immediates::Index($crate::Space::$space, *$index)
    };
    ($first:ident $one:ident $second:ident $two:ident) => {
        $crate::Immediates::Pair($crate::Space::$first, *$one, $crate::Space::$second, *$two)
    };
}

/// The immediates of an operator that can have a lane.
#[macro_export]
macro_rules! lane_of {
    ($lane:expr) => {
        match $lane {
            Some(idx) => $crate::Immediates::Lane(idx),
            None => $crate::Immediates::Nothing,
        }
    };
}

/// The immediates of a memory access that can have a lane.
#[macro_export]
macro_rules! access_of {
    ($memarg:expr, $lane:expr) => {
        match $lane {
            Some(idx) => $crate::Immediates::LaneAccess($memarg, idx),
            None => $crate::Immediates::Access($memarg),
        }
    };
}

/// The immediates of an operator on references, structs or arrays.
#[macro_export]
macro_rules! reference_parts {
    ($immediates:expr) => {
        match $immediates {
            $crate::ReferenceImmediates::Nothing => $crate::Immediates::Nothing,
            $crate::ReferenceImmediates::Index(space, index) => {
                $crate::Immediates::Index(space, index)
            }
            $crate::ReferenceImmediates::Pair(first, one, second, two) => {
                $crate::Immediates::Pair(first, one, second, two)
            }
            $crate::ReferenceImmediates::IndexNumber(space, index, number) => {
                $crate::Immediates::IndexNumber(space, index, number)
            }
            $crate::ReferenceImmediates::Label(depth) => $crate::Immediates::Label(depth),
            $crate::ReferenceImmediates::Heap(heap_type) => $crate::Immediates::Heap(heap_type),
            $crate::ReferenceImmediates::Cast(cast) => $crate::Immediates::Cast(cast),
        }
    };
}

/// Splits an operator into its opcode and its immediates, and passes these to the macro `$each`,
/// after that macro's other arguments. The rows of operators with lists are arguments, since lists
/// differ between operators that are read and operators that are written.
#[macro_export]
macro_rules! parts_of {
    (
        ($each:ident $with:tt $op:expr, $($lists:tt)*)
        $($form:tt {
            $($row:literal $name:ident { $($field:ident $id:ident $space:ident),* })*
        })*
    ) => {
        match $op {
            $crate::Op::Unreachable => $each!($with $crate::Opcode::Byte(0x00), $crate::Immediates::Nothing),
            $crate::Op::Nop => $each!($with $crate::Opcode::Byte(0x01), $crate::Immediates::Nothing),
            $crate::Op::Block { ty } => $each!($with $crate::Opcode::Byte(0x02), $crate::Immediates::Block(*ty)),
            $crate::Op::Loop { ty } => $each!($with $crate::Opcode::Byte(0x03), $crate::Immediates::Block(*ty)),
            $crate::Op::If { ty } => $each!($with $crate::Opcode::Byte(0x04), $crate::Immediates::Block(*ty)),
            $crate::Op::Else => $each!($with $crate::Opcode::Byte(0x05), $crate::Immediates::Nothing),
            $crate::Op::Try { ty } => $each!($with $crate::Opcode::Byte(0x06), $crate::Immediates::Block(*ty)),
            $crate::Op::Catch { tag } => $each!($with $crate::Opcode::Byte(0x07), $crate::Immediates::Index($crate::Space::Tags, *tag)),
            $crate::Op::Rethrow { depth } => $each!($with $crate::Opcode::Byte(0x09), $crate::Immediates::Handler(*depth)),
            $crate::Op::ThrowRef => $each!($with $crate::Opcode::Byte(0x0a), $crate::Immediates::Nothing),
            $crate::Op::End => $each!($with $crate::Opcode::Byte(0x0b), $crate::Immediates::Nothing),
            $crate::Op::Br { label } => $each!($with $crate::Opcode::Byte(0x0c), $crate::Immediates::Label(*label)),
            $crate::Op::BrIf { label } => $each!($with $crate::Opcode::Byte(0x0d), $crate::Immediates::Label(*label)),
            $crate::Op::Return => $each!($with $crate::Opcode::Byte(0x0f), $crate::Immediates::Nothing),
            $crate::Op::Delegate { depth } => $each!($with $crate::Opcode::Byte(0x18), $crate::Immediates::Outer(*depth)),
            $crate::Op::CatchAll => $each!($with $crate::Opcode::Byte(0x19), $crate::Immediates::Nothing),
            $crate::Op::Drop => $each!($with $crate::Opcode::Byte(0x1a), $crate::Immediates::Nothing),
            $crate::Op::Select => $each!($with $crate::Opcode::Byte(0x1b), $crate::Immediates::Nothing),
            $crate::Op::TypedSelect { ty } => $each!($with $crate::Opcode::Byte(0x1c), $crate::Immediates::Value(*ty)),
            $crate::Op::LocalGet { local } => $each!($with $crate::Opcode::Byte(0x20), $crate::Immediates::Local(*local)),
            $crate::Op::LocalSet { local } => $each!($with $crate::Opcode::Byte(0x21), $crate::Immediates::Local(*local)),
            $crate::Op::LocalTee { local } => $each!($with $crate::Opcode::Byte(0x22), $crate::Immediates::Local(*local)),
            $crate::Op::Load { kind, memarg } => $each!($with $crate::load_opcode(*kind), $crate::Immediates::Access(*memarg)),
            $crate::Op::Store { kind, memarg } => $each!($with $crate::store_opcode(*kind), $crate::Immediates::Access(*memarg)),
            $crate::Op::LoadSimd { kind, memarg } => $each!($with $crate::vector_access_opcode(*kind), $crate::access_of!(*memarg, $crate::access_lane(*kind))),
            $crate::Op::Atomic { kind, memarg } => $each!($with $crate::atomic_opcode(*kind), $crate::Immediates::Access(*memarg)),
            $crate::Op::AtomicFence => $each!($with $crate::Opcode::Prefixed(0xfe, 3), $crate::Immediates::ZeroByte),
            $crate::Op::I32Const { value } => $each!($with $crate::Opcode::Byte(0x41), $crate::Immediates::I32(*value)),
            $crate::Op::I64Const { value } => $each!($with $crate::Opcode::Byte(0x42), $crate::Immediates::I64(*value)),
            $crate::Op::F32Const { bits } => $each!($with $crate::Opcode::Byte(0x43), $crate::Immediates::F32(*bits)),
            $crate::Op::F64Const { bits } => $each!($with $crate::Opcode::Byte(0x44), $crate::Immediates::F64(*bits)),
            $crate::Op::Unop(op) => $each!($with $crate::unary_opcode(*op), $crate::lane_of!($crate::extract_lane(*op))),
            $crate::Op::Binop(op) => $each!($with $crate::binary_opcode(*op), $crate::lane_of!($crate::replace_lane(*op))),
            $crate::Op::TernOp(op) => $each!($with $crate::ternary_opcode(*op), $crate::Immediates::Nothing),
            $crate::Op::I64Add128 => $each!($with $crate::Opcode::Prefixed(0xfc, 19), $crate::Immediates::Nothing),
            $crate::Op::I64Sub128 => $each!($with $crate::Opcode::Prefixed(0xfc, 20), $crate::Immediates::Nothing),
            $crate::Op::I64MulWideS => $each!($with $crate::Opcode::Prefixed(0xfc, 21), $crate::Immediates::Nothing),
            $crate::Op::I64MulWideU => $each!($with $crate::Opcode::Prefixed(0xfc, 22), $crate::Immediates::Nothing),
            $crate::Op::V128Const { bits } => $each!($with $crate::Opcode::Prefixed(0xfd, 12), $crate::Immediates::V128(*bits)),
            $crate::Op::I8x16Shuffle { indices } => $each!($with $crate::Opcode::Prefixed(0xfd, 13), $crate::Immediates::Lanes(*indices)),
            $crate::Op::I8x16Swizzle => $each!($with $crate::Opcode::Prefixed(0xfd, 14), $crate::Immediates::Nothing),
            $crate::Op::V128Bitselect => $each!($with $crate::Opcode::Prefixed(0xfd, 82), $crate::Immediates::Nothing),
            $crate::Op::Reference(op) => $each!($with $crate::reference_opcode(*op), $crate::reference_parts!($crate::reference_immediates(*op))),
            $($lists)*
            $($($crate::Op::$name { $($field),* } => $each!(
                $with $crate::opcode_at!($form $row), $crate::indices_of!($($space $field)*)
            ),)*)*
        }
    };
}
